ghost use Rattle.std.specs.Prelude.{◌≡◌, ◌<◌, IfOk, IfSome, length};
ghost use Rattle.plan_terms.specs.Terms.{graph_of};
ghost use Rattle.node_sets.{specs.Boundaries.IsBoundaryCut, specs.inner.NarrowCaps.AreNarrow};

use crate::boundary::cut_of_chosen;
use crate::crossing::Crossing;
use crate::deepest::{Deepest, Found, TakesSets};
use crate::grown::{grow_from, grown_set};
use crate::narrow::is_narrow;
use crate::node_set::NodeSet;
use crate::pair_table::PairTable;
use metric_cut::Cut;
use net_core::{Link, LinkId, NoMemory, NodeId, RouteTask};
use std::alloc::Global;

/// The sets that grow from each node of a network where no link fails, for all states that are asked at the same capacities, and what runs
/// between its nodes. It takes 56 bytes times the square of the nodes.
#[derive(Drop)]
pub struct RoundSets {
    sets: Vec<Found>,
    /// What runs where no link fails; `None` where numbers are too wide.
    table: Option<PairTable>,
}

impl TakesSets for RoundSets {
    fn offer(&mut self, set: NodeSet, boundary: Crossing) -> Result<(), NoMemory> {
        self.sets.push(Found { set, boundary })?;
        Ok(())
    }
}

impl RoundSets {
    /// Grows the sets. The task is that of the state in which no link fails.
    ///
    /// It takes time in the cube of the nodes, and 56 bytes times their square.
    pub fn grow(alloc: Global, task: &RouteTask) -> Result<RoundSets, NoMemory>
        requires { 0 < task.now.caps.now.scale }
    {
        let mut sets = RoundSets {
            sets: Vec::new(alloc),
            table: None,
        };
        if is_narrow(task) {
            let table = PairTable::new(alloc, task)?;
            for k in 0..table.nodes() {
                grow_from(alloc, &table, NodeId(k), None, &mut sets)?;
            }
            sets.table = Some(table);
        }
        Ok(sets)
    }
}

/// The first link that the state fails.
fn first_failed(task: &RouteTask) -> Option<LinkId>
    ensures { IfSome result (λ link. link.0 < length task.now.graph.net.now.links) }
{
    for e in 0..task.graph.net.links().len() {
        let link = LinkId(e as u32);
        if !task.graph.has(link) {
            return Some(link);
        }
    }
    None
}

/// Whether the state fails a link beside this one.
fn fails_another(task: &RouteTask, known: LinkId) -> bool {
    for e in 0..task.graph.net.links().len() {
        let link = LinkId(e as u32);
        if link != known && !task.graph.has(link) {
            return true;
        }
    }
    false
}

/// The cut of the deepest set.
fn whole_set(alloc: Global, task: &RouteTask, sets: &[Found]) -> Result<Option<Cut>, NoMemory>
    requires { AreNarrow task.now.caps.now }
    ensures { IfOk result (λ o. IfSome o (IsBoundaryCut (graph_of task.now.graph) task.now.demands.now task.now.caps.now)) }
{
    let nodes = task.graph.net.nodes().len() as u32;
    let mut deepest = Deepest::new(alloc, nodes, task.caps.scale);
    for s in sets {
        deepest.offer(s.set, s.boundary)?;
    }
    cut_of_chosen(alloc, task, &deepest)
}

/// Offers the sets whose boundary a link crosses, without that link.
fn offer_crossed(
    sets: &[Found],
    link: &Link,
    num: u128,
    deepest: &mut Deepest,
) -> Result<(), NoMemory>
    requires first { link.now.a.0 < 128 }
    requires second { link.now.b.0 < 128 }
{
    let failed = Crossing {
        links: 1,
        capacity: num,
        demand: 0,
    };
    for s in sets {
        if s.set.is_left_by(link) {
            deepest.offer(s.set, s.boundary.minus(&failed))?;
        }
    }
    Ok(())
}

/// What runs between the nodes where the state fails one link: that of the round, less the link. Counting it anew for each state took a
/// twelfth of a planning of 650 demands.
fn table_without(
    alloc: Global,
    task: &RouteTask,
    whole: Option<&PairTable>,
    link: &Link,
    num: u128,
) -> Result<PairTable, NoMemory>
    requires first { link.now.a.0 < length task.now.graph.net.now.nodes }
    requires second { link.now.b.0 < length task.now.graph.net.now.nodes }
    ensures { IfOk result (λ t. t.nodes ≡ length task.now.graph.net.now.nodes) }
{
    match whole {
        Some(table) if table.nodes() as usize == task.graph.net.nodes().len() => {
            table.without(alloc, link, num)
        }
        _ => PairTable::new(alloc, task),
    }
}

/// The cut of the deepest set whose boundary the link crosses that the state fails.
fn crossed_set(
    alloc: Global,
    task: &RouteTask,
    sets: &RoundSets,
    failed: LinkId,
) -> Result<Option<Cut>, NoMemory>
    requires narrow { AreNarrow task.now.caps.now }
    requires failed { failed.0 < length task.now.graph.net.now.links }
    ensures { IfOk result (λ o. IfSome o (IsBoundaryCut (graph_of task.now.graph) task.now.demands.now task.now.caps.now)) }
{
    let at = failed.0 as usize;
    let link = &task.graph.net.links().items()[at];
    let num = task.caps.nums.items()[at];
    let table = table_without(alloc, task, sets.table.as_ref(), link, num)?;
    let mut deepest = Deepest::new(alloc, table.nodes(), task.caps.scale);
    offer_crossed(&sets.sets, link, num, &mut deepest)?;
    grow_from(alloc, &table, link.a, Some(link.b), &mut deepest)?;
    grow_from(alloc, &table, link.b, Some(link.a), &mut deepest)?;
    cut_of_chosen(alloc, task, &deepest)
}

/// A violated cut of a set of nodes, as `grown_set` answers, by the sets that have grown at the same capacities where no link fails: of
/// these where the state fails none; of those that a link leaves, and of two that grow from its ends, each without the other, where
/// the state fails that link alone; and where it fails several, as `grown_set` does.
///
/// In the triangle AB, BC, AC with 20.000 on each link and a demand of 24.000 from A to C, none is violated where no link fails. Where AC
/// fails, the set of A is, by AB alone: the lengths 1, 0, 0 with the right side 24000.
///
/// It takes time in the number of the sets and the square of the nodes, and 32 bytes times their square; for several links that of
/// `grown_set`.
pub fn round_set(alloc: Global, task: &RouteTask, sets: &RoundSets) -> Result<Option<Cut>, NoMemory>
    requires { 0 < task.now.caps.now.scale }
    ensures { IfOk result (λ o. IfSome o (IsBoundaryCut (graph_of task.now.graph) task.now.demands.now task.now.caps.now)) }
{
    if !is_narrow(task) {
        return Ok(None);
    }
    match first_failed(task) {
        None => whole_set(alloc, task, &sets.sets),
        Some(link) if fails_another(task, link) => grown_set(alloc, task),
        Some(link) => crossed_set(alloc, task, sets, link),
    }
}
