//! Table lines that are worth having: over cuts of node sets, each kind of module at the weight of its mean cost.
//!
//! ```text
//! let cuts = set_cuts(alloc, &instance, handed_in)?;         // of the node sets that the handed-in cuts part, in the states that matter
//! let narrow = narrow_lines(alloc, &instance, &tested)?;      // over these, with right sides of at most 4,096
//! let lines = table_lines(alloc, &task, 40)?;                 // over those, the 40 that a point misses most
//! ```
#![tactic(auto)]

mod boundaries;
mod kinds;
mod missed;
mod narrow;
mod sides;
mod tables;
mod task;

pub use boundaries::set_cuts;
pub use narrow::narrow_lines;
pub use tables::table_lines;
pub use task::{Part, TableTask};
