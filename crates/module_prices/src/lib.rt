//! What the modules of a network cost: unit pairs, price lengths, and bounds that are multiples of a common divisor of the costs.
#![tactic(auto)]

pub mod cheapest;
pub mod lengths;
pub mod rounding;

pub use cheapest::{UnitPair, unit_pair};
pub use lengths::price_lengths;
pub use rounding::{bound_of, cost_divisor};
