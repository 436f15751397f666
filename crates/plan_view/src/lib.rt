//! The numbers of a checked plan for people to read: a row for each link and for each state, and a summary.
#![tactic(auto)]

mod fractions;
mod greatest;
mod link_flows;
mod links;
mod loads;
mod parts;
mod rerouting;
pub mod rows;
mod sheet;
mod state_loads;
mod states;
mod summary;

pub use link_flows::{FlowRow, flow_rows};
pub use links::link_rows;
pub use loads::load_of;
pub use parts::gap_of;
pub use rerouting::goes_again;
pub use rows::{LinkRow, LoadRow, PlanSummary, StateRow};
pub use sheet::Sheet;
pub use state_loads::load_rows;
pub use states::state_rows;
pub use summary::plan_summary;
