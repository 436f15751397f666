use crate::demands::PlanDemands;
use report_words::context::Context;
use std::alloc::Global;

/// Reads what a plan says of its routings and of its bound, by the names of the network, of its states
/// and of the plan's demands.
#[derive(Clone, Copy)]
pub struct PlanReader<'a> {
    pub alloc: Global,
    pub context: &'a Context<'a>,
    pub demands: &'a PlanDemands<'a>,
}
