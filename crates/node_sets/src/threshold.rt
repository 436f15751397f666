ghost use Rattle.std.specs.Prelude.{◌≡◌, ◌<◌, IfOk, IfSome, length};
ghost use Rattle.plan_terms.specs.Terms.{graph_of};
ghost use Rattle.node_sets.specs.Boundaries.{IsBoundaryCut};

use crate::boundary::cut_of_chosen;
use crate::deepest::{Deepest, TakesSets};
use crate::growth::Growth;
use crate::narrow::is_narrow;
use crate::node_set::NodeSet;
use crate::pair_table::PairTable;
use metric_cut::Cut;
use net_core::{Lengths, NoMemory, NodeId, RouteTask};
use short_paths::{DistanceTable, all_pairs_in};
use std::alloc::Global;

/// A node outside of a set that is nearest to a node, with its distance. A node without a path is farthest.
fn nearest_outside(distances: &DistanceTable, from: NodeId, set: NodeSet) -> Option<(NodeId, u64)>
    requires { from.0 < distances.now.nodes }
    ensures { IfSome result (λ near. near.0.0 < distances.now.nodes) }
{
    let mut nearest = None;
    for k in 0..distances.nodes() {
        let node = NodeId(k);
        if !set.has(node) {
            let far = distances.get(from, node).unwrap_or(u64::MAX);
            nearest = match nearest {
                Some((_, least)) if least <= far => nearest,
                _ => Some((node, far)),
            };
        }
    }
    nearest
}

/// Offers the sets of the nodes within each distance of a node.
fn spread_from(
    alloc: Global,
    table: &PairTable,
    distances: &DistanceTable,
    from: NodeId,
    deepest: &mut Deepest,
) -> Result<(), NoMemory>
    requires nodes { distances.now.nodes ≡ table.now.nodes }
    requires from { from.0 < table.now.nodes }
{
    let mut growth = Growth::empty(alloc, table)?;
    let mut within = 0;
    for _ in 0..table.nodes() {
        let Some((node, far)) = nearest_outside(distances, from, growth.set()) else {
            return Ok(());
        };
        if far > within {
            deepest.offer(growth.set(), growth.boundary())?;
            within = far;
        }
        growth.add(node);
    }
    Ok(())
}

/// A cut of the set of nodes that lie within some distance of a node under lengths, one per link. Of the sets whose boundary has less
/// capacity than the demands across it need it takes the one that `grown_set` would take, and `None` says as little as there.
///
/// Lengths of 0, 1 and 1 on AB, BC and AC give the set of A and B, and that of C.
///
/// It takes a search from each node, time in the cube of the nodes, and 36 bytes times their square.
pub fn threshold_set(
    alloc: Global,
    task: &RouteTask,
    lengths: &Lengths,
) -> Result<Option<Cut>, NoMemory>
    requires scale { 0 < task.now.caps.now.scale }
    requires lengths { length lengths.now ≡ length task.now.graph.net.now.links }
    ensures { IfOk result (λ o. IfSome o (IsBoundaryCut (graph_of task.now.graph) task.now.demands.now task.now.caps.now)) }
{
    if !is_narrow(task) {
        return Ok(None);
    }
    let table = PairTable::new(alloc, task)?;
    let distances = all_pairs_in(alloc, &task.graph, lengths)?;
    let mut deepest = Deepest::new(alloc, table.nodes(), task.caps.scale);
    for k in 0..table.nodes() {
        spread_from(alloc, &table, &distances, NodeId(k), &mut deepest)?;
    }
    cut_of_chosen(alloc, task, &deepest)
}
