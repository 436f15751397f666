//! Metric inequalities of a state: the lengths that it keeps, what they ask for, and the bound that each gives alone.
#![tactic(auto)]

pub mod certificate;
pub mod cut;
pub mod kept_lengths;
pub mod multiplier;
pub mod openings;
pub mod own_bounds;
mod ratio;
pub mod violation;

pub use certificate::{OwnCertificate, RawValue, own_certificate};
pub use cut::{Cut, CutFault};
pub use kept_lengths::divisor_of_lengths;
pub use multiplier::{OwnMultiplier, greatest_multiplier};
pub use net_core::CutLine;
pub use openings::opening;
pub use own_bounds::{fixed_along, own_bound};
pub use violation::{are_narrow, violated_by};
