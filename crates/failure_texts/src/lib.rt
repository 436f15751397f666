//! Which links can fail alone without separating a demand, and a failure list of them.
#![tactic(auto)]

mod answer;
mod comments;
mod fates;
mod separation_list;
mod states;
mod texts;

pub use answer::{FailureAnswer, failure_list};
pub use separation_list::separations;
pub use texts::{put_separations, separated_line};
