//! A greedy routing in one state: flows along the shortest paths with spare capacity, until none is left for what is missing.
//!
//! ```text
//! let left = greedy(alloc, &net, &states, StateId(0), &demands, &caps)?;   // triangle, A to C needs 12.00, 4.00 on each link
//! left.rest.items()                                                       // 4.00 of it, since 4.00 go over AC and 4.00 over AB, BC
//! ```
#![tactic(auto)]

mod draft;
mod greedy_flows;
mod open_paths;
mod order;
mod routes;
mod sent_flows;

pub use greedy_flows::{Left, greedy, greedy_after, greedy_in};
