//! Words, names, numbers and lists of a report, each with its faults.
//!
//! A reading takes the next words and parentheses of a text. Where a word is due and a parenthesis is there, or the other way
//! round, the fault is `token`; where the text ends, it is `ended`. Reading a word takes time in its length, and memory only
//! where a name or a list is made of it.
#![tactic(auto)]

pub mod context;
pub mod element;
pub mod fault;
pub mod field;
pub mod numbers;
pub mod places;
pub mod words;
