ghost use Rattle.std.{specs.Prelude.{◌≡◌, ◌≤◌, ◌++◌, ◌∷◌, [], All, IfOk, length, map}, specs.List.AllByRecursion};
ghost use Rattle.view_cells.specs.Terms.{HasRows, IsApart};
ghost use Rattle.view_state.specs.StateTables.{path_cells, path_heads};

use net_core::{Bytes, Demand, List, Network, NoMemory};
use plan_report::demand_name;
use plan_view::FlowRow;
use std::alloc::Global;
use text_layout::{Column, Row};
use view_cells::cells::{push_joined, push_money, push_three, push_words};
use view_cells::names::names_of_nodes;
use view_cells::tables::{fitting, left, right, table};

/// The columns of the paths of demands: name, amount, and nodes.
const COLUMNS: [Column; 3] = [
    Column {
        gap: 2,
        width: 6,
        right: false,
    },
    Column {
        gap: 3,
        width: 8,
        right: true,
    },
    Column {
        gap: 3,
        width: 4,
        right: false,
    },
];

/// The cells of a path.
fn path_row(
    alloc: Global,
    net: &Network,
    demands: &[Demand],
    row: &FlowRow,
) -> Result<Row, NoMemory>
    ensures { IfOk result (λ cells. cells ≡ path_cells net.now.places net.now.nodes demands.now row.now) }
{
    let names = names_of_nodes(alloc, net.nodes().items(), row.nodes.items())?;
    let mut cells = List::new(alloc);
    push_words(&mut cells, alloc, demand_name(demands, row.demand))?;
    push_money(&mut cells, alloc, net.places(), row.amount)?;
    push_joined(&mut cells, alloc, b" - ", names.items())?;
    Ok(cells)
}

/// The heads of the columns.
fn path_heads(alloc: Global) -> Result<Row, NoMemory>
    ensures { IfOk result (λ heads. heads ≡ path_heads) }
{
    let mut heads = List::new(alloc);
    push_three(&mut heads, alloc, b"Demand", b"Amount", b"Path")?;
    Ok(heads)
}

/// The rows of all paths, below the heads of the columns.
fn path_table(
    alloc: Global,
    net: &Network,
    demands: &[Demand],
    rows: &[FlowRow],
) -> Result<List<Row>, NoMemory>
    ensures { IfOk result (λ all. all ≡ path_heads ∷ map (path_cells net.now.places net.now.nodes demands.now) rows.now) }
{
    let mut all = List::new(alloc);
    all.push(path_heads(alloc)?)?;
    for row in rows {
        all.push(path_row(alloc, net, demands, row)?)?;
    }
    Ok(all)
}

/// Columns as wide as these, of which the last is as wide as its words.
fn path_columns(c: &[Column]) -> [Column; 3]
    requires { length c.now ≡ 3 }
    ensures { AllByRecursion IsApart result }
{
    [left(2, c[0].width), right(3, c[1].width), left(3, 0)]
}

/// The text of rows of three cells.
fn path_lines(alloc: Global, rows: &[Row]) -> Result<Bytes, NoMemory>
    requires { All (λ row. length row ≤ 3) rows.now }
    ensures { IfOk result (HasRows rows.now) }
{
    let wide = fitting(alloc, &COLUMNS, rows)?;
    table(alloc, &path_columns(wide.items()), rows)
}

/// The text of the paths that demands take in a state.
pub(crate) fn paths_text(
    alloc: Global,
    net: &Network,
    demands: &[Demand],
    rows: &[FlowRow],
) -> Result<Bytes, NoMemory>
    ensures { IfOk result (HasRows (path_heads ∷ map (path_cells net.now.places net.now.nodes demands.now) rows.now)) }
{
    let all = path_table(alloc, net, demands, rows)?;
    path_lines(alloc, all.items())
}
