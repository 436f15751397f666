//! Tests whether counts of modules carry the demands in all states, for one set of counts after another.
//!
//! ```text
//! let mut test = AbleTest::new(alloc, &instance, routings)?;
//! match test.stop(&instance, &counts)? {
//!     None => ..,                             // they do: test.routings() has a routing for each state
//!     Some(Stop::Cut(line)) => ..,            // they don't: their capacities violate this cut
//!     Some(Stop::Wide(evidence)) => ..,       // it isn't known: a number of a routing program is too wide
//! }
//! ```
#![tactic(auto)]

mod able_test;
mod cuts;
mod nodes;
mod quick;
mod state_stop;
mod stop;

pub use able_test::AbleTest;
pub use stop::Stop;
