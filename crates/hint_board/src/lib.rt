//! A board of length vectors that threads show each other. Each vector has a length for each link, and is priced.
#![tactic(auto)]

mod board;

pub use board::{Hint, HintBoard};
