//! Lines: inequalities that counts of modules meet where they carry the demands, and whether each holds.
//!
//! ```text
//! let tested = tested_lines(alloc, &instance, cuts, lines)?;   // one test for each cut, then one for each further line
//! tested.items()[7].sound                                      // whether the line of index 7 holds
//! ```
#![tactic(auto)]

mod cuts;
mod divided_line;
pub mod inequality;
mod kinds;
pub mod law;
pub mod line;
mod sums;
mod table;
mod tables;
pub mod tested_lines;

pub use inequality::Inequality;
pub use line::{Line, TableKind};
pub use master_bound::Multiplier;
pub use sums::{line_in, module_price, summed_need, times};
pub use table::least_weights;
pub use tested_lines::Tested;
