//! Callers at a desk with a board: each edit and each cut is committed in a turn of its own, and so threads may share one history.
#![tactic(auto)]

mod caller;

pub use caller::Caller;
