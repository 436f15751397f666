//! A plain walk through a report that trusts nothing of whoever made it.
#![tactic(auto)]

mod journal;
mod outcomes;
mod outcomes_along;
mod pool;
mod report;
mod walk;

pub use report::check_report;
