//! Reports of plans: what their text is made of, which ones are in form, and how they are written.
#![tactic(auto)]

mod certificates;
mod evidence;
mod journal;
mod lists;
mod names;
mod outcomes;
mod part_names;
mod plans;
mod pool;
mod routings;
mod writer;

pub use part_names::{demand_name, link_name, node_name, state_name};
pub use plan_types::{Outcome, Report};
pub use writer::write_report;
