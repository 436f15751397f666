//! The program that finds the best certificate of some cuts, as definitions: its columns and bases, least shares, evidence that a
//! number of it is too wide, and what the bounds of cuts rest on.
#![tactic(auto)]

pub mod law;
