ghost use Rattle.std.specs.Prelude.{◌≡◌, ◌<◌, IfOk, IfSome, length};
ghost use Rattle.plan_terms.specs.Terms.{graph_of};
ghost use Rattle.row_cuts.{specs.PathRows.{ArePricedNumbers, path_row}, specs.FoundCuts.IsRowCut, specs.inner.Kept.IsKeptCut};

use crate::{PathRow, priced_numbers};
use metric_cut::{Cut, are_narrow};
use net_core::{Lengths, NoMemory, Path, RouteTask};
use node_sets::is_violated;
use std::alloc::Global;

/// The cut of what the state keeps of lengths, where the capacities violate it. Where a number is 2^62 or more, it isn't asked.
fn violated_cut(alloc: Global, task: &RouteTask, lengths: Lengths) -> Result<Option<Cut>, NoMemory>
    requires scale { 0 < task.now.caps.now.scale }
    requires lengths { length lengths ≡ length task.now.graph.net.now.links }
    ensures { IfOk result (λ o. IfSome o (IsKeptCut (graph_of task.now.graph) task.now.demands.now task.now.caps.now lengths)) }
{
    if !are_narrow(task.caps.nums.items()) {
        return Ok(None);
    }
    let found = Cut::in_graph(alloc, &task.graph, lengths)?;
    let Some(cut) = found else {
        return Ok(None);
    };
    if is_violated(task, &cut)? {
        Ok(Some(cut))
    } else {
        Ok(None)
    }
}

/// The cut of what the state keeps of the numbers of a row, where `priced_numbers` takes them as lengths and the capacities violate the cut.
///
/// `None` says no more than that this isn't found, so that any keys and rows may be given.
///
/// In a triangle AB, BC, AC with one demand from A to C, whose key is AC, and the rows in the example of `priced_numbers`, the last row makes
/// the cut 1, 0, 1, which the capacities 1, 2 and 1 violate where the demand needs 3.
///
/// It takes the time and the memory of `priced_numbers`, and a search from each node.
pub fn row_cut(
    alloc: Global,
    task: &RouteTask,
    keys: &[Path],
    rows: &[PathRow],
    at: usize,
) -> Result<Option<Cut>, NoMemory>
    requires scale { 0 < task.now.caps.now.scale }
    ensures { IfOk result (λ o. IfSome o (IsRowCut (graph_of task.now.graph) task.now.demands.now task.now.caps.now (path_row rows.now at).nums)) }
{
    match priced_numbers(alloc, task, keys, rows, at)? {
        Some(lengths) => violated_cut(alloc, task, lengths),
        None => Ok(None),
    }
}
