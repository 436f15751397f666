ghost use Rattle.std.specs.Prelude.{◌≡◌, ◌<◌, IfOk, IfSome};
ghost use Rattle.plan_terms.specs.Terms.{graph_of};
ghost use Rattle.node_sets.specs.Boundaries.{IsBoundaryCut};

use crate::boundary::cut_of_chosen;
use crate::deepest::{Deepest, TakesSets};
use crate::growth::Growth;
use crate::narrow::is_narrow;
use crate::pair_table::PairTable;
use metric_cut::Cut;
use net_core::{NoMemory, NodeId, RouteTask};
use std::alloc::Global;

/// The node beside a set with which the boundary has least capacity for each unit of demand; one node may be left out.
fn next_node(growth: &Growth, nodes: u32, without: Option<NodeId>) -> Option<NodeId>
    requires { nodes ≡ growth.now.table.now.nodes }
    ensures { IfSome result (λ node. node.0 < nodes) }
{
    let mut next = None;
    for k in 0..nodes {
        let node = NodeId(k);
        if growth.is_beside(node) && without != Some(node) {
            let boundary = growth.boundary_with(node);
            next = match next {
                Some((_, least)) if !boundary.is_deeper(&least) => next,
                _ => Some((node, boundary)),
            };
        }
    }
    next.map(|(node, _)| node)
}

/// Offers the sets that grow from a node, up to half of all nodes; one node may be left out of them.
pub(crate) fn grow_from<T: TakesSets>(
    alloc: Global,
    table: &PairTable,
    start: NodeId,
    without: Option<NodeId>,
    taker: &mut T,
) -> Result<(), NoMemory>
    requires { start.0 < table.now.nodes }
{
    let nodes = table.nodes();
    let mut growth = Growth::empty(alloc, table)?;
    growth.add(start);
    taker.offer(growth.set(), growth.boundary())?;
    for _ in 1..nodes / 2 {
        match next_node(&growth, nodes, without) {
            Some(node) => growth.add(node),
            None => return Ok(()),
        }
        taker.offer(growth.set(), growth.boundary())?;
    }
    Ok(())
}

/// A cut of a set of nodes that grew from one node: from each node on, the set takes the node beside it with which its boundary has
/// least capacity for each unit of demand across it, up to half of all nodes. Of the sets whose boundary has less capacity than the
/// demands need it takes the 12 that have least for each unit, and of these the first whose boundary a failed link crosses, or the
/// first of all where there is none.
///
/// `None` says nothing of the capacities: it is the answer where no set was found, and where a number of the capacities, or what a
/// demand needs over the scale, is 2^62 or more.
///
/// In the triangle AB, BC, AC with 6.000, 1.999 and 10.000 the demands of 12.000 from A to C and of 4.000 from A to B give the set of
/// C alone: the lengths 0, 1, 1 with the right side 12000 and the capacity 11999. With 2.000 on BC there is none.
///
/// It takes time in the cube of the nodes, and 32 bytes times their square.
pub fn grown_set(alloc: Global, task: &RouteTask) -> Result<Option<Cut>, NoMemory>
    requires { 0 < task.now.caps.now.scale }
    ensures { IfOk result (λ o. IfSome o (IsBoundaryCut (graph_of task.now.graph) task.now.demands.now task.now.caps.now)) }
{
    if !is_narrow(task) {
        return Ok(None);
    }
    let table = PairTable::new(alloc, task)?;
    let mut deepest = Deepest::new(alloc, table.nodes(), task.caps.scale);
    for k in 0..table.nodes() {
        grow_from(alloc, &table, NodeId(k), None, &mut deepest)?;
    }
    cut_of_chosen(alloc, task, &deepest)
}
