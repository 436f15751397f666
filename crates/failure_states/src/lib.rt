//! Links that survive a failure state, and the first demand that a state separates.
#![tactic(auto)]

mod components;
mod separations;
mod survival;

pub use separations::{Separation, first_separated};
pub use survival::survives;
