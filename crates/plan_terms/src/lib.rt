//! The terms in which the planner's contracts speak: paths, separations, routings and capacities.
#![tactic(auto)]

pub mod law;
