//! The best bounds of given cuts: the cut of the greatest bound of its own, and the best certificate of them all.
//!
//! ```text
//! let best = master(alloc, &net, &cuts)?;       // multipliers of the cuts over best.den
//! best.raw_num, best.raw_den                    // the raw value, in units of the network; no certificate of these cuts has a greater one
//! best.share                                    // capacities that cost as much, and violate none of the cuts
//! ```
#![tactic(auto)]

pub mod answer;
pub mod best;
pub mod bound;
mod candidate;
mod columns;
mod lines;
mod numbers;
mod pricing;
mod program;
mod rating;
mod share;
mod task;
mod units;

pub use answer::{Best, MasterFault, Multiplier};
pub use best::best_own;
pub use bound::{best_at, master};
pub use lines::{common_divisor, is_same_cut};
pub use numbers::{entry_of, gain_of};
pub use units::unit_pairs;
