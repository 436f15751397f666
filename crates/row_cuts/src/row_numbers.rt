ghost use Rattle.std.specs.Prelude.{◌≡◌, ◌<◌, IfOk, IfSome, IsTrue, length};
ghost use Rattle.plan_terms.specs.Terms.{AreDemands, graph_of};
ghost use Rattle.row_cuts.{specs.PathRows.{ArePricedNumbers, path_row}, specs.inner.Tests.{HasTestedKeys, IsTestedBasis, IsTestedRow}};

use crate::inverse::are_inverse;
use crate::lengths::lowest_of;
use crate::nearness::{are_far, has_long_key};
use crate::path_row::PathRow;
use crate::paths::{are_keys, are_path_rows, row_at};
use net_core::{Demand, Lengths, List, NoMemory, Path, RouteTask, StateId, Surviving};
use short_paths::all_pairs_in;
use std::alloc::Global;

/// Whether keys and rows are a basis of key paths.
fn is_basis(
    alloc: Global,
    graph: &Surviving,
    demands: &[Demand],
    keys: &[Path],
    rows: &[PathRow],
) -> Result<bool, NoMemory>
    requires belong { AreDemands (length graph.now.net.now.nodes) demands.now }
    ensures { let g = graph_of graph.now in IfOk result (λ b. IsTrue b → IsTestedBasis g demands.now keys.now rows.now) }
{
    let mut room = List::filled(alloc, false, graph.net.nodes().len())?;
    let seen = room.items_mut();
    Ok(
        rows.len() == graph.net.links().len()
            && are_keys(graph, demands, keys, seen)
            && are_path_rows(graph, demands, rows, seen)
            && are_inverse(keys, rows),
    )
}

/// Whether the keys are shortest paths under the numbers of a row, which are these lengths, and one is longer than 0.
fn has_shortest_keys(
    alloc: Global,
    graph: &Surviving,
    demands: &[Demand],
    keys: &[Path],
    nums: &[i64],
    lengths: &Lengths,
) -> Result<bool, NoMemory>
    requires belong { AreDemands (length graph.now.net.now.nodes) demands.now }
    requires lengths { length lengths.now ≡ length graph.now.net.now.links }
    ensures { let g = graph_of graph.now in IfOk result (λ b. IsTrue b → HasTestedKeys g demands.now keys.now nums.now lengths.now) }
{
    if !has_long_key(nums, keys, demands.len()) {
        return Ok(false);
    }
    let table = all_pairs_in(alloc, graph, lengths)?;
    Ok(are_far(&table, demands, nums, keys))
}

/// The numbers of a row as lengths, if keys and rows are a basis of key paths, and the keys shortest paths under the lengths.
fn tested_numbers(
    alloc: Global,
    graph: &Surviving,
    demands: &[Demand],
    keys: &[Path],
    rows: &[PathRow],
    nums: &[i64],
) -> Result<Option<Lengths>, NoMemory>
    requires belong { AreDemands (length graph.now.net.now.nodes) demands.now }
    ensures { let g = graph_of graph.now in IfOk result (λ o. IfSome o (IsTestedRow g demands.now keys.now rows.now nums.now)) }
{
    let Some(lengths) = lowest_of(alloc, nums, graph.net.links().len())? else {
        return Ok(None);
    };
    if !has_shortest_keys(alloc, graph, demands, keys, nums, &lengths)? {
        return Ok(None);
    }
    if !is_basis(alloc, graph, demands, keys, rows)? {
        return Ok(None);
    }
    Ok(Some(lengths))
}

/// The numbers of the row at a place as lengths that are priced with nothing named, if it is a row of a basis of key paths, none of its
/// numbers is below 0, and each key is a shortest path of its demand in the whole network under them, one longer than 0.
///
/// There is a key for each demand and a row for each link. `None` says no more than that the test isn't passed, so that any keys and rows
/// may be given. A row in lowest terms with its denominator has no common divisor by itself; one that has one doesn't pass.
///
/// In a triangle AB, BC, AC with one demand from A to C, whose key is AC, and the columns of the demand along AB and BC, of the slack of BC and
/// of that of AC, the rows are (1, 0, 0), (-1, 1, 0) and (1, 0, 1) over 1, and under the last one the key and the other path have length 1.
///
/// It takes a search from each node, time in the square of the links times the length of paths, and 8 bytes for each pair of nodes.
pub fn priced_numbers(
    alloc: Global,
    task: &RouteTask,
    keys: &[Path],
    rows: &[PathRow],
    at: usize,
) -> Result<Option<Lengths>, NoMemory>
    ensures { let links = length task.now.graph.net.now.links in IfOk result (λ o. IfSome o (ArePricedNumbers links (path_row rows.now at).nums)) }
{
    if at >= rows.len() {
        return Ok(None);
    }
    let whole = Surviving {
        net: task.graph.net,
        states: task.graph.states,
        state: StateId(0),
    };
    let nums = row_at(rows, at).nums.items();
    tested_numbers(alloc, &whole, task.demands.items(), keys, rows, nums)
}
