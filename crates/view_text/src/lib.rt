//! What people read of a checked report: its plans as tables, with the numbers of their rows.
#![tactic(auto)]

mod costs;
mod heading;
mod links;
mod outcomes;
mod plan;
pub mod proof;
mod states;
mod view;

pub use proof::CostProof;
pub use view::{put_first_block, put_view};
