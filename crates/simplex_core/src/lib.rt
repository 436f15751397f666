//! The packing simplex in whole numbers: an optimum, or a basis on which a number grew too wide.
#![tactic(auto)]

pub mod basis;
pub mod columns;
pub mod factors;
mod fraction;
pub mod optimum;
pub mod pivot;
pub mod product;
pub mod ratio_test;
pub mod solver;
mod value;

pub use columns::{Column, Columns, Entry, Price};
pub use factors::wide_product;
pub use optimum::{Optimum, common_multiple};
pub use pivot::{turn_list, turn_objective};
pub use product::gains;
pub use ratio_test::compare_numbers;
pub use solver::{SimplexFault, solve};
