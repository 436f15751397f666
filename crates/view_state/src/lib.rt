//! What people read of one state of a checked report: what each link carries there, and along which nodes each demand goes.
//!
//! ```text
//! // the triangle, where AC fails: AB and BC carry 12.000, 60 per cent, and the demand goes A - B - C
//! let state = named_state(&problem.states, b"AC");   // Some(3)
//! put_state_view(&mut text, alloc, b"triangle.txt", &problem, report.outcomes.items(), 3)?;
//! ```
#![tactic(auto)]

mod heading;
mod loads;
mod names;
mod outcomes;
mod paths;
mod tables;

pub use names::named_state;
pub use outcomes::put_state_view;
