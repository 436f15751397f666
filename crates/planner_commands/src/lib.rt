//! The program's commands: which words are one, what it answers once its files are read, and with which status.
#![tactic(auto)]

mod command;
mod output;
pub mod run;
mod words;

pub use outside_io::Status;
