//! A plain walk through a plan that trusts nothing of whoever made it.
#![tactic(auto)]

mod certificate;
mod cost;
mod demands;
pub mod finding;
pub mod local_cuts;
mod mixed;
mod overloads;
mod paths;
mod place;
pub mod plan;
mod prices;
pub mod rights;
mod routes;
mod routings;
mod share;
pub mod stop;
mod sums;
mod tight;
mod worth;

pub use finding::{CheckAnswer, Finding};
pub use plan::{check_instance, check_plan};
pub use stop::{Stop, Test};
