ghost use Rattle.std.specs.Prelude.{◌≡◌, ◌^◌, ◌≤◌, ◌<◌, All, Contains, IfOk, IfSome, length};
ghost use Rattle.plan_terms.specs.Terms.{IsCut, Violates, case_of};

use metric_cut::{Cut, violated_by};
use net_core::{Caps, Copied, CutLine, Instance, NoMemory};
use std::alloc::Global;

/// A copy of the last of the cuts that the capacities violate.
pub(crate) fn last_violated(cuts: &[CutLine], caps: &Caps) -> Result<Option<CutLine>, NoMemory>
    requires counts { All (λ cut. length cut.lengths ≡ length caps.now.nums) cuts.now }
    requires few { length caps.now.nums ≤ 256 }
    requires narrow { All (λ n. n < 2 ^ 62) caps.now.nums }
    requires scale { caps.now.scale ≡ 1 }
    ensures { IfOk result (λ o. IfSome o (λ cut. Contains cuts.now cut × Violates caps.now cut)) }
{
    for i in 0..cuts.len() {
        let cut = &cuts[cuts.len() - 1 - i];
        if violated_by(cut, caps) {
            return Ok(Some(cut.copy()?));
        }
    }
    Ok(None)
}

/// The cut of the given one's state and lengths, with its right side at the demands; `None` if these make none.
pub(crate) fn known_cut(
    alloc: Global,
    instance: &Instance,
    given: &CutLine,
) -> Result<Option<CutLine>, NoMemory>
    ensures { IfOk result (λ o. IfSome o (IsCut (case_of instance.now))) }
{
    if given.state.0 >= instance.states.count()
        || given.lengths.len() != instance.net.links().len()
    {
        return Ok(None);
    }
    let graph = instance.in_state(given.state);
    match Cut::in_graph(alloc, &graph, given.lengths.copy()?)? {
        Some(cut) => Ok(Some(cut.line(instance.demands)?)),
        None => Ok(None),
    }
}
