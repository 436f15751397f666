//! Makes a plan cheaper by exchanging modules: one for a cheaper one, or several for one more that lets them be spared.
#![tactic(auto)]

mod cheaper_plan;
mod kept;
pub mod limits;
mod moves;
mod raised_counts;
mod refusals;
mod search;
mod spared_modules;
mod swaps;

pub use cheaper_plan::swap;
