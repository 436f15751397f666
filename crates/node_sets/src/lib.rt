//! Sets of nodes whose boundary has less capacity than the demands across it need: violated cuts that need no routing program.
//!
//! ```text
//! // the triangle AB, BC, AC with 6.000, 1.999 and 10.000, and demands of 12.000 from A to C and 4.000 from A to B
//! let cut = grown_set(alloc, &task)?;     // the boundary of C: lengths 0, 1, 1, right side 12000, capacity 11999
//! let none = grown_set(alloc, &wider)?;   // with 2.000 on BC no set is found
//! ```
#![tactic(auto)]

mod boundary;
mod crossing;
mod deepest;
mod grown;
mod growth;
mod narrow;
mod node_set;
mod pair_table;
mod round_sets;
mod threshold;

pub use boundary::is_violated;
pub use grown::grown_set;
pub use round_sets::{RoundSets, round_set};
pub use threshold::threshold_set;
