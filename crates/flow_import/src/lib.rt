//! Another tool's flows on links become routings along paths, or are refused with their first fault.
#![tactic(auto)]

mod arcs;
mod fault;
mod imported;
mod loads;
mod splits;
mod states;

pub use fault::ImportFault;
pub use imported::Imported;
pub use states::{import, import_instance};
