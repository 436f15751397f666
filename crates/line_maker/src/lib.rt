//! Lines that are worth having: earlier ones, one or two of them together, over the divisor that tells most of whole modules.
//!
//! ```text
//! let coarse = coarse_lines(alloc, links, tested)?;                       // lines of small numbers, in place of those that were tested
//! let lines = lines_at(alloc, links, tested, &boxed, &solution, 40)?;     // at most 40 that the point of a box's program misses
//! ```
#![tactic(auto)]

mod candidate;
mod coarse;
mod divisors;
mod entry;
mod known;
mod law;
mod nodes;
mod numbers;
mod order;
mod pairs;
mod places;
mod point;
mod rounds;
mod score;
mod sums;

pub use coarse::coarse_lines;
pub use entry::Entry;
pub use law::names_are_kept;
pub use order::{Ordered, in_order};
pub use rounds::lines_at;
