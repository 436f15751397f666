//! Routings that are lessened where links have too little and go along other paths for what is missing, and whether a routing carries all.
#![tactic(auto)]

mod loads;
mod mended_routing;
pub mod reach;
mod routing_form;

pub use loads::is_within;
pub use mended_routing::{bounded, mended};
pub use routing_form::if_routed;
