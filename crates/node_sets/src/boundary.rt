ghost use Rattle.std.specs.Prelude.{◌≡◌, ◌<◌, ◌^◌, All, IfOk, IfSome, cond, true};
ghost use Rattle.plan_terms.specs.Terms.{graph_of, Keeps};
ghost use Rattle.metric_cut.specs.Cuts.{IsCutOf};
ghost use Rattle.node_sets.{specs.Boundaries.{IsBoundaryCut, IsViolatedAt, boundary_lengths, crosses_boundary}, specs.inner.Members.is_in, specs.inner.NarrowCaps.AreNarrow};

use crate::deepest::Deepest;
use crate::node_set::NodeSet;
use metric_cut::{Cut, violated_by};
use net_core::{Lengths, Link, List, NoMemory, RouteTask};
use std::alloc::Global;

/// 1 for a link that crosses the boundary of a set, and 0 for another.
fn boundary_length(set: NodeSet, link: &Link) -> u32
    requires first { link.now.a.0 < 128 }
    requires second { link.now.b.0 < 128 }
    ensures { result ≡ cond (crosses_boundary (is_in set) link.now) 1 0 }
{
    if set.is_left_by(link) { 1 } else { 0 }
}

/// The length of each link.
fn lengths_of(alloc: Global, set: NodeSet, links: &[Link]) -> Result<Lengths, NoMemory>
    requires { All (λ l. (l.a.0 < 128) × (l.b.0 < 128)) links.now }
    ensures { IfOk result (λ lengths. lengths ≡ boundary_lengths (is_in set) links.now) }
{
    let mut lengths = List::from_vec(Vec::with_capacity(alloc, links.len())?);
    for link in links {
        lengths.push(boundary_length(set, link))?;
    }
    Ok(lengths)
}

/// Whether the capacities violate a cut of the task's state by its right side at the demands. It takes time in the demands and the links, and
/// memory for a copy of the lengths.
pub fn is_violated(task: &RouteTask, cut: &Cut) -> Result<bool, NoMemory>
    requires scale { 0 < task.now.caps.now.scale }
    requires narrow { All (λ n. n < 2 ^ 62) task.now.caps.now.nums }
    requires cut { IsCutOf (graph_of task.now.graph) cut.now }
    ensures violated { IfOk result (λ b. b ≡ true → IsViolatedAt (graph_of task.now.graph) task.now.demands.now task.now.caps.now cut.now) }
    ensures asked { IfOk result (λ b. IsViolatedAt (graph_of task.now.graph) task.now.demands.now task.now.caps.now cut.now → b ≡ true) }
{
    let line = cut.line(task.demands)?;
    Ok(violated_by(&line, task.caps))
}

/// The cut of what the state keeps of a set's boundary, where the capacities violate it.
fn if_violated(task: &RouteTask, set: NodeSet, cut: Cut) -> Result<Option<Cut>, NoMemory>
    requires narrow { AreNarrow task.now.caps.now }
    requires of { IsCutOf (graph_of task.now.graph) cut }
    requires keeps { Keeps (graph_of task.now.graph) (boundary_lengths (is_in set) task.now.graph.net.now.links) cut.lengths }
    ensures { IfOk result (λ o. IfSome o (IsBoundaryCut (graph_of task.now.graph) task.now.demands.now task.now.caps.now)) }
{
    if is_violated(task, &cut)? {
        Ok(Some(cut))
    } else {
        Ok(None)
    }
}

/// The cut of a set's boundary, where the capacities violate it.
fn boundary_cut(alloc: Global, task: &RouteTask, set: NodeSet) -> Result<Option<Cut>, NoMemory>
    requires { AreNarrow task.now.caps.now }
    ensures { IfOk result (λ o. IfSome o (IsBoundaryCut (graph_of task.now.graph) task.now.demands.now task.now.caps.now)) }
{
    let graph = &task.graph;
    let lengths = lengths_of(alloc, set, graph.net.links().items())?;
    let found = Cut::in_graph(alloc, graph, lengths)?;
    match found {
        Some(cut) => if_violated(task, set, cut),
        None => Ok(None),
    }
}

/// The cut of the set that is chosen.
pub(crate) fn cut_of_chosen(
    alloc: Global,
    task: &RouteTask,
    deepest: &Deepest,
) -> Result<Option<Cut>, NoMemory>
    requires { AreNarrow task.now.caps.now }
    ensures { IfOk result (λ o. IfSome o (IsBoundaryCut (graph_of task.now.graph) task.now.demands.now task.now.caps.now)) }
{
    match deepest.choose(task) {
        Some(set) => boundary_cut(alloc, task, set),
        None => Ok(None),
    }
}
