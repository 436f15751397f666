//! Whether capacities carry the demands in a state, asked again and again: the simplex method goes on from the basis that the last question
//! ended with, and what it finds is counted anew.
//!
//! ```text
//! let mut router = WarmRouter::new(alloc);
//! match router.ask(&task, 1_000)? {
//!     Some(WarmAnswer::Routed(routing)) => ..,    // flows over one denominator that carry the demands
//!     Some(WarmAnswer::Violated(cut)) => ..,      // a cut of a set of nodes, or of a row of the basis, that the capacities violate
//!     None => ..,                                 // it isn't known
//! }
//! ```
#![tactic(auto)]

mod answer;
mod cut_of_row;
mod entering_path;
mod path_search;
mod router;
mod start;

pub use answer::WarmAnswer;
pub use router::WarmRouter;
