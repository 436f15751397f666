//! Whether capacities carry all demands in one state: a routing, a metric inequality that shows why not, or evidence that a number grew
//! too wide.
//!
//! ```text
//! match route_state(alloc, &net, &states, StateId(0), &demands, &caps)? {
//!     RouteAnswer::Routed(routing) => ..,     // flows over one denominator that carry the demands
//!     RouteAnswer::Violated(cut) => ..,       // cut.right(&demands) is more than the capacities give along cut.lengths()
//!     RouteAnswer::Wide(evidence) => ..,      // a basis of the routing program, and which of its numbers is too wide
//! }
//! ```
#![tactic(auto)]

mod answer;
mod flows;
mod link_lengths;
mod lowest_terms;
mod numbers;
mod prices;
mod route;

pub use answer::RouteAnswer;
pub use lowest_terms::{common_divisor, lowest};
pub use route::{route_state, route_task};
