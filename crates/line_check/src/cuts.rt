ghost use Rattle.std.specs.Prelude.{◌≡◌, ◌≤◌, ◌↔◌, IfOk, IsTrue, length};
ghost use Rattle.plan_terms.specs.Terms.{AreKept, IsCut, IsRight, Joins, case_of, graph_in};

use metric_cut::{Cut, CutFault};
use net_core::{Copied, CutLine, Instance, NoMemory, Surviving};
use plan_checker::local_cuts::is_kept;
use std::alloc::Global;

/// Whether a cut's right side is its own at the demands.
fn has_right(alloc: Global, instance: &Instance, cut: &CutLine) -> Result<bool, NoMemory>
    requires state { cut.now.state.0 ≤ length instance.now.states.now.listed }
    requires kept { AreKept (graph_in (case_of instance.now) cut.now.state.0) cut.now.lengths }
    ensures { IfOk result (λ b. IsTrue b ↔
        IsRight (Joins (graph_in (case_of instance.now) cut.now.state.0)) cut.now.lengths instance.now.demands.now cut.now.right) }
{
    let lengths = cut.lengths.copy()?;
    match Cut::new(alloc, instance.net, instance.states, cut.state, lengths) {
        Ok(made) => Ok(made.right(instance.demands) == cut.right),
        Err(CutFault::NoMemory) => Err(NoMemory),
        Err(CutFault::UnknownState) => unreachable!(),
        Err(CutFault::ZeroLengths) => unreachable!(),
    }
}

/// Whether lengths, one per link, are those that a listed state keeps.
fn is_kept_cut(instance: &Instance, cut: &CutLine) -> bool
    ensures listed { IsTrue result → cut.now.state.0 ≤ length instance.now.states.now.listed }
    ensures kept { IsTrue result → AreKept (graph_in (case_of instance.now) cut.now.state.0) cut.now.lengths }
    ensures all { IsCut (case_of instance.now) cut.now → IsTrue result }
{
    if cut.state.0 >= instance.states.count() || cut.lengths.len() != instance.net.links().len() {
        return false;
    }
    let graph = Surviving {
        net: instance.net,
        states: instance.states,
        state: cut.state,
    };
    is_kept(&graph, cut.lengths.items())
}

/// Whether a line is a cut of the case, with its right side at the demands. It takes a search from each node, and memory for a
/// length of each link and the distance of each pair of nodes.
pub(crate) fn is_cut(alloc: Global, instance: &Instance, cut: &CutLine) -> Result<bool, NoMemory>
    ensures { IfOk result (λ b. IsTrue b ↔ IsCut (case_of instance.now) cut.now) }
{
    if !is_kept_cut(instance, cut) {
        return Ok(false);
    }
    has_right(alloc, instance, cut)
}
