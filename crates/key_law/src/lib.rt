//! Bases of a packing program whose last rows each have a key column, as definitions: what is kept of their inverse, its rows, the turns
//! between such bases, and what a method rests on that keeps no more.
#![tactic(auto)]

pub mod law;
