ghost use Rattle.std.specs.Prelude.{◌≡◌, ◌<◌, IsTrue, length};
ghost use Rattle.plan_terms.specs.Terms.{AreDemands, Joins, graph_of};
ghost use Rattle.row_cuts.{specs.KeyPaths.{IsBesideKeys, IsPathOf}, specs.PathRows.path_row, specs.inner.Tests.{AreKeysBelow, ArePathRowsBelow, IsPathRow}};

use crate::path_row::PathRow;
use crate::sums::key_of;
use net_core::{Demand, LinkId, Path, RouteColumn, Surviving};
use short_paths::{are_links, is_path};

/// Whether links are a path of the demand at a place. `seen` is room for a mark of each node.
fn is_path_of(
    graph: &Surviving,
    demands: &[Demand],
    place: usize,
    path: &[LinkId],
    seen: &mut [bool],
) -> bool
    requires size { length seen.old ≡ length graph.now.net.now.nodes }
    requires belong { AreDemands (length graph.now.net.now.nodes) demands.now }
    ensures { let g = graph_of graph.now in IsTrue result → IsPathOf g demands.now place path.now }
{
    let Some(d) = demands.get(place) else {
        return false;
    };
    are_links(path, graph.net.links().len()) && is_path(graph, path, d.from, d.to, seen)
}

/// Whether each demand has a key along one of its paths.
pub(crate) fn are_keys(
    graph: &Surviving,
    demands: &[Demand],
    keys: &[Path],
    seen: &mut [bool],
) -> bool
    requires size { length seen.old ≡ length graph.now.net.now.nodes }
    requires belong { AreDemands (length graph.now.net.now.nodes) demands.now }
    ensures { let g = graph_of graph.now in IsTrue result → AreKeysBelow g demands.now keys.now (length demands.now) }
{
    for k in 0..demands.len() {
        if !is_path_of(graph, demands, k, key_of(keys, k), seen) {
            return false;
        }
    }
    true
}

/// Whether a column may be in a basis beside the keys: the slack of a link, or a demand along one of its paths.
fn is_beside(graph: &Surviving, demands: &[Demand], column: &RouteColumn, seen: &mut [bool]) -> bool
    requires size { length seen.old ≡ length graph.now.net.now.nodes }
    requires belong { AreDemands (length graph.now.net.now.nodes) demands.now }
    ensures { let g = graph_of graph.now in IsTrue result → IsBesideKeys g demands.now column.now }
{
    match column {
        RouteColumn::LinkSlack(link) => (link.0 as usize) < graph.net.links().len(),
        RouteColumn::DemandSlack(_) => false,
        RouteColumn::Carry(demand, path) => {
            is_path_of(graph, demands, *demand as usize, path.items(), seen)
        }
    }
}

/// Whether a row is of a column beside the keys, over a positive denominator.
fn is_path_row(graph: &Surviving, demands: &[Demand], row: &PathRow, seen: &mut [bool]) -> bool
    requires size { length seen.old ≡ length graph.now.net.now.nodes }
    requires belong { AreDemands (length graph.now.net.now.nodes) demands.now }
    ensures { let g = graph_of graph.now in IsTrue result → IsPathRow g demands.now row.now }
{
    row.den > 0 && is_beside(graph, demands, &row.column, seen)
}

/// The row at a place.
pub(crate) fn row_at(rows: &[PathRow], i: usize) -> &PathRow
    requires { i < length rows.now }
    ensures { result.now ≡ path_row rows.now i }
{
    &rows[i]
}

/// Whether all rows are of columns beside the keys.
pub(crate) fn are_path_rows(
    graph: &Surviving,
    demands: &[Demand],
    rows: &[PathRow],
    seen: &mut [bool],
) -> bool
    requires size { length seen.old ≡ length graph.now.net.now.nodes }
    requires belong { AreDemands (length graph.now.net.now.nodes) demands.now }
    ensures { let g = graph_of graph.now in IsTrue result → ArePathRowsBelow g demands.now rows.now (length rows.now) }
{
    for i in 0..rows.len() {
        if !is_path_row(graph, demands, row_at(rows, i), seen) {
            return false;
        }
    }
    true
}
