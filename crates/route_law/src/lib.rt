//! The program that routes the demands of a state, as definitions: its columns and bases, the lengths that its prices give, evidence
//! that a number of it is too wide, and what routing rests on.
#![tactic(auto)]

pub mod law;
