//! Reads files of flows: counts of modules, and flows on links for each state.
#![tactic(auto)]

mod fault;
mod file;
mod flow;
mod known;
mod told;
mod words;

pub use fault::{FlowsKind, FlowsRefusal};
pub use file::read_flows;
pub use flow::{FlowFile, LinkFlow};
