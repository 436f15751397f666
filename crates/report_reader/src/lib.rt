//! Reads reports of plans.
#![tactic(auto)]

mod edit;
mod filled_entries;
mod journal;
mod notes;
mod outcome;
pub mod parts;
mod plan;
mod pool;
mod reader;

pub use reader::read_report;
pub use report_words::fault::{ReportKind, ReportRefusal};
