//! The rounds of a planning: opening cuts first, and then, turn by turn, the best certificate of the cuts so far and the cuts that its
//! share violates.
//!
//! ```text
//! let worked = work_rounds(alloc, &instance, snapshot.cuts, &mut separator)?;
//! match worked.quality {
//!     Quality::Tight(fractional) => ..,                // the share of worked.best, with a routing of each state within it
//!     Quality::Loose(Cause::Wide(evidence)) => ..,     // a number of a program grew too wide
//!     Quality::Loose(Cause::Cuts) => ..,               // 4,096 cuts were added, and the share violates a further one
//! }
//! ```
#![tactic(auto)]

mod candidates;
mod certificates;
mod cut_items;
mod fractional;
mod openings;
mod rounds;
mod shares;
mod sorted_answers;
mod whole_routings;
mod wide_rounds;

pub use rounds::{Worked, work_rounds};
pub use sorted_answers::are_short;
