//! The commands of the program for people: what each prints once its words are read, and what is said of a fault.
#![tactic(auto)]

mod failures;
mod output;
mod plan;
pub mod run;
mod usage;
mod view;

pub use outside_io::Status;
