//! A separator for a caller at a desk. Its workers separate the states of a round in parallel; the caller puts each cut that they find into
//! the pool in a turn of its own, so that other callers may edit and plan meanwhile.
//!
//! ```text
//! let mut separator = Workers::new(&rt, alloc, &gate, &Hold::open(), &hints, caller);
//! let answers = separator.separate(&instance, &caps)?;              // one answer for each state, in their order
//! let caller = separator.into_caller();                             // it has seen all that was pooled, and its cuts are its own entries
//! ```
#![tactic(auto)]

mod depths;
mod hints;
mod hold;
mod lent_columns;
mod parallel_search;
mod round;
mod some_states;
mod spot;
mod workers;

pub use hold::Hold;
pub use workers::{DeskMark, Workers};
