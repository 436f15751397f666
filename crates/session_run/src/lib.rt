//! Runs the commands of a script on one board, each caller on a thread of its own, and reports what came of them.
#![tactic(auto)]

mod boards;
mod edits;
mod groups;
mod one_caller;
mod plans;
mod ranges;
mod reports;
mod session;
mod setting;

pub use reports::caller_of;
pub use session::{run_session, single_plan};
