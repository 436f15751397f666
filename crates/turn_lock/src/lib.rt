//! Callers that take turns at one value, in the order of their tickets. The value has a history that only grows.
#![tactic(auto)]

mod chronicle;
mod desk;
pub mod example;
mod rule;
mod steps;

pub use chronicle::Chronicle;
pub use desk::{Desk, Pass, Turn};
