//! Reads the parts of a plan in a report: demands, modules, certificates, routings, and how good a bound is.
#![tactic(auto)]

pub mod certificate;
mod columns;
pub mod demands;
mod evidence;
pub mod modules;
pub mod plan_reader;
mod quality;
pub mod routing;
pub mod spot_cut;
