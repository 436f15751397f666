//! What the program's commands answer once their files are read: a text, and the status with which the program ends.
//!
//! ```text
//! let answer = answer_plan(&rt, alloc, problem, &gate)?;   // of a network, its states and its demands
//! // Done with the report, or NotSurvivable with the line of the first demand that a state separates
//! ```
#![tactic(auto)]

mod import;
mod plan;
mod prove;
mod sample;
mod session;
mod trim;

pub use import::answer_import;
pub use plan::answer_plan;
pub use prove::answer_prove;
pub use sample::answer_sample;
pub use session::answer_session;
pub use trim::answer_trim;
