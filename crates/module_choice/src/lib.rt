//! How many modules each link gets, what they cost, and the plan of one path for each demand in each state.
#![tactic(auto)]

mod alike;
mod covers;
mod fallback;
mod loads;
mod routes;
mod tables;
mod totals;

pub use alike::cover_needs;
pub use covers::{Covering, cover};
pub use fallback::{Fallback, fallback_plan};
pub use totals::{capacities, cost, link_cost};
