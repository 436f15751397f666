//! What a check of a report answers, as a line with the status of the program: accepted, or the first finding in words.
//!
//! ```text
//! let answer = answer_check(alloc, &problem, &report)?;   // of a report that was read for the problem
//! // Done with `accepted 1`, or Rejected with a line such as `rejected outcome 1 not-carried 2 D`
//! ```
#![tactic(auto)]

mod check;
mod finding;

pub use check::answer_check;
pub use finding::put_word;
