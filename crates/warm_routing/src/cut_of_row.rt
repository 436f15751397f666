ghost use Rattle.std.specs.Prelude.{◌<◌, IfOk, IfSome};
ghost use Rattle.plan_terms.specs.Terms.{graph_of};
ghost use Rattle.row_cuts.specs.FoundCuts.{IsFoundCutOf};

use metric_cut::Cut;
use net_core::{Copied, LinkId, List, NoMemory, RouteColumn, RouteTask};
use row_cuts::{PathRow, row_cut};
use std::alloc::Global;
use warm_basis::{Basis, BasisRow, Column};

/// A column as one of a routing program.
fn route_column(column: &Column) -> Result<RouteColumn, NoMemory> {
    match column {
        Column::Slack(link) => {
            let link = (*link).min(u32::MAX as usize) as u32;
            Ok(RouteColumn::LinkSlack(LinkId(link)))
        }
        Column::Carry(demand, path) => {
            let demand = (*demand).min(u32::MAX as usize) as u32;
            Ok(RouteColumn::Carry(demand, path.copy()?))
        }
    }
}

/// A copy of a row, without its value.
fn path_row(row: &BasisRow) -> Result<PathRow, NoMemory> {
    Ok(PathRow {
        column: route_column(&row.column)?,
        nums: row.nums.copy()?,
        den: row.den,
    })
}

/// A copy of the rows, without their values.
fn path_rows(alloc: Global, rows: &[BasisRow]) -> Result<List<PathRow>, NoMemory> {
    let mut copies = List::from_vec(Vec::with_capacity(alloc, rows.len())?);
    for row in rows {
        copies.push(path_row(row)?)?;
    }
    Ok(copies)
}

/// The cut of the row at a place of the basis, where it is priced and the capacities violate the cut.
pub(crate) fn cut_at(
    alloc: Global,
    task: &RouteTask,
    basis: &Basis,
    at: usize,
) -> Result<Option<Cut>, NoMemory>
    requires scale { 0 < task.now.caps.now.scale }
    ensures { IfOk result (λ o. IfSome o (IsFoundCutOf (graph_of task.now.graph) task.now.demands.now task.now.caps.now)) }
{
    let rows = path_rows(alloc, basis.rows.items())?;
    row_cut(alloc, task, basis.keys.items(), rows.items(), at)
}
