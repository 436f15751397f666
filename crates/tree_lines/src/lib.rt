//! The comment lines of a branch tree below a report: its cuts and further lines, its nodes in preorder, and what it shows.
#![tactic(auto)]

mod cuts;
mod lines;
mod nodes;
mod proof;

pub use proof::put_proof;
