//! A plan for people: its tables or its report, or what is said if there is no plan.
//!
//! ```text
//! let answer = plan_for_people(&rt, alloc, b"net.txt", &problem, None, false, &gate)?;
//! // Done with the tables of the plan, or NotSurvivable with a message that names each demand that can't be carried
//! ```
#![tactic(auto)]

mod answer;
mod free;
mod planned_answer;
mod plans;
mod separated_answer;
mod splits;

pub use answer::PlanAnswer;
pub use plans::plan_for_people;
pub use splits::default_splits;
