//! The report of a plan with the branch tree that shows it to be cheapest, or how far from cheapest it may be.
#![tactic(auto)]

mod charged;
mod ending;
mod handed_cuts;
mod writer;

pub use charged::{are_charged, are_dear};
pub use ending::{ProofEnding, ProvedReport, prove_once, prove_once_by_lines};
pub use writer::write_lined;
