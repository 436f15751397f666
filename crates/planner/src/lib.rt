//! Plans a network for its listed states: module counts that carry the demands in each of them, and a lower bound on what such counts cost.
#![tactic(auto)]

mod after_rounds;
pub mod answer;
mod bound;
mod choose_counts;
mod on_snapshot;
mod own_bound;
mod plan;
pub mod ranges;

pub use answer::PlanAnswer;
pub use on_snapshot::plan_snapshot;
