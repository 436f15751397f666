//! Packing programs and their bases as definitions, and what the simplex method rests on.
#![tactic(auto)]

pub mod law;
