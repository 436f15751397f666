//! What is said of a fault of a file, as text: where it is, what is wrong, the line with a caret, what is there, and what helps.
#![tactic(auto)]

mod control;
mod excerpt;
mod here;
mod message;
mod quote;
mod sentence;

pub use here::token_here;
pub use message::{put_fault, put_note};
pub use quote::put_quote;
pub use sentence::Sentence;
