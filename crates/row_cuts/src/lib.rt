//! The cut of a row of a kept basis, where the row is priced and a state's capacities violate the cut.
#![tactic(auto)]

mod inverse;
pub mod law;
mod lengths;
mod nearness;
mod of_rows;
mod path_row;
mod paths;
mod row_numbers;
mod sums;

pub use of_rows::row_cut;
pub use path_row::PathRow;
pub use row_numbers::priced_numbers;
