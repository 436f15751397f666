//! Asks of each state whether capacities carry the demands there: a separator, which also keeps the cuts that it finds in a pool.
//!
//! ```text
//! let mut separator = OneByOne::new(alloc, board);
//! for answer in separator.separate(&instance, &caps)?.items() {            // one answer for each state, in their order
//!     match &answer.answer {
//!         Separated::Routed(routing) => ..,                                // the capacities carry the demands
//!         Separated::Violated(line, Spot::Pool(index)) => ..,              // they violate this cut, which the pool now has
//!         Separated::Violated(line, Spot::Local) => ..,                    // they violate it, and the pool had no room for it
//!         Separated::Wide(evidence) => ..,                                 // a number of the routing program is too wide
//!     }
//! }
//! let board = separator.into_board();
//! ```
#![tactic(auto)]

mod admission;
pub mod answers;
mod found_answer;
mod known_state;
pub mod one_by_one;
mod one_state;
pub mod question;
mod ranges;
pub mod roomy_sets;
pub mod separate;
mod some_states;
mod warm_start;

pub use admission::spot_after;
pub use answers::{Separated, StateAnswer};
pub use known_state::KnownState;
pub use one_by_one::OneByOne;
pub use one_state::{answer_of, separate_from, separate_state};
pub use question::StateQuestion;
pub use roomy_sets::{NO_ROOM, RoomySets, set_in_state, sets_of_round};
pub use separate::Separate;
pub use some_states::{answers_of_both, is_cut};
