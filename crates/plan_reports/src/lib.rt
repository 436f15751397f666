//! Reports of one plan of a problem: of a single plan command, with another tool's design in the place of the plan's own, or trimmed, with
//! comment lines that tell what keeps each module. If a state separates a demand, the first such demand comes in place of a report.
#![tactic(auto)]

mod comments;
pub mod design_law;
mod import;
pub mod law;
mod lone;
mod planned_report;
mod trim;
mod writer;

pub use import::{ImportEnding, import_plan};
pub use lone::{LonePlan, plan_once};
pub use planned_report::PlannedReport;
pub use trim::{TrimEnding, trim_once};
pub use writer::write_trimmed;
