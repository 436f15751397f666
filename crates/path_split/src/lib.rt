//! Flows on arcs become flows along paths.
#![tactic(auto)]

mod arc;
mod balance;
mod leg;
mod split;
mod star;
mod taking;
mod walk;

pub use arc::{Arc, PathFlow, SplitFault};
pub use split::split_flow;
