//! Cuts of the triangle.
ghost use Rattle.std.specs.Prelude.{◌≡◌, IfSome};
ghost use Rattle.plan_terms.specs.Terms.{graph};
ghost use Rattle.metric_cut.specs.Cuts.{IsCutOf};

use metric_cut::Cut;
use net_core::{List, Problem, StateId};
use std::alloc::Global;

/// The unit cut of a state, if it has one.
pub fn unit_cut(alloc: Global, problem: &Problem, state: u32) -> Option<Cut>
    ensures { IfSome result (λ cut. IsCutOf (graph problem.now.net problem.now.states cut.state.0) cut) }
{
    let units = List::filled(alloc, 1, problem.net.links().len()).ok()?;
    Cut::new(alloc, &problem.net, &problem.states, StateId(state), units).ok()
}
