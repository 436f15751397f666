//! The packing program of a box of module counts: the lines' best certificate for the box, and the amounts of modules that it leaves.
#![tactic(auto)]

mod candidate;
mod certificate;
mod columns;
pub mod divisors;
mod program;
mod rank;
mod rows;
mod shape;
pub mod solution;
pub mod spans;

pub use divisors::{common_unit, divisor_of};
pub use solution::{Amount, Lines, Solution, solved};
