ghost use Rattle.std.specs.Prelude.{◌≡◌, ◌≤◌, ◌++◌, ◌∷◌, [], All, IfOk, OnOk, length, map};
ghost use Rattle.view_cells.specs.Terms.{HasRows};
ghost use Rattle.view_state.specs.StateTables.{load_cells, load_heads, loaded_cells};

use net_core::{Bytes, Link, List, Network, NoMemory};
use plan_report::node_name;
use plan_view::LoadRow;
use std::alloc::Global;
use text_layout::{Column, Row};
use view_cells::cells::{push_cell, push_money, push_pair, push_per_cent, push_three, push_words};
use view_cells::tables::{fitting, table};

/// The columns of the loads of links: name, both ends, load, and use.
const COLUMNS: [Column; 5] = [
    Column {
        gap: 2,
        width: 4,
        right: false,
    },
    Column {
        gap: 3,
        width: 4,
        right: false,
    },
    Column {
        gap: 3,
        width: 4,
        right: false,
    },
    Column {
        gap: 3,
        width: 8,
        right: true,
    },
    Column {
        gap: 3,
        width: 4,
        right: true,
    },
];

/// Puts the cells of a link with its load last.
fn push_load(
    cells: &mut Row,
    alloc: Global,
    net: &Network,
    link: &Link,
    row: &LoadRow,
) -> Result<(), NoMemory>
    ensures { OnOk result (cells.new ≡ cells.old ++ loaded_cells net.now.places net.now.nodes link.now row.now) }
{
    let nodes = net.nodes().items();
    let ends = (node_name(nodes, link.a), node_name(nodes, link.b));
    push_three(cells, alloc, link.name.bytes(), ends.0, ends.1)?;
    push_money(cells, alloc, net.places(), row.load)?;
    push_per_cent(cells, alloc, row.used)
}

/// The cells of a link's load; none where the network has no such link.
fn load_row(alloc: Global, net: &Network, row: &LoadRow) -> Result<Row, NoMemory>
    ensures { IfOk result (λ cells. cells ≡ load_cells net.now.places net.now.nodes net.now.links row.now) }
{
    let mut cells = List::new(alloc);
    match net.links().items().get(row.link.0 as usize) {
        Some(link) => {
            push_load(&mut cells, alloc, net, link, row)?;
            Ok(cells)
        }
        None => Ok(cells),
    }
}

/// The heads of the columns.
fn load_heads(alloc: Global) -> Result<Row, NoMemory>
    ensures { IfOk result (λ heads. heads ≡ load_heads) }
{
    let mut heads = List::new(alloc);
    push_three(&mut heads, alloc, b"Link", b"From", b"To")?;
    push_pair(&mut heads, alloc, b"Load", b"Used")?;
    Ok(heads)
}

/// The rows of all links, below the heads of the columns.
fn load_table(alloc: Global, net: &Network, rows: &[LoadRow]) -> Result<List<Row>, NoMemory>
    ensures { IfOk result (λ all. all ≡ load_heads ∷ map (load_cells net.now.places net.now.nodes net.now.links) rows.now) }
{
    let mut all = List::new(alloc);
    all.push(load_heads(alloc)?)?;
    for row in rows {
        all.push(load_row(alloc, net, row)?)?;
    }
    Ok(all)
}

/// The text of rows of five cells.
fn load_lines(alloc: Global, rows: &[Row]) -> Result<Bytes, NoMemory>
    requires { All (λ row. length row ≤ 5) rows.now }
    ensures { IfOk result (HasRows rows.now) }
{
    let wide = fitting(alloc, &COLUMNS, rows)?;
    table(alloc, wide.items(), rows)
}

/// The text of what each link carries in a state.
pub(crate) fn loads_text(alloc: Global, net: &Network, rows: &[LoadRow]) -> Result<Bytes, NoMemory>
    ensures { IfOk result (HasRows (load_heads ∷ map (load_cells net.now.places net.now.nodes net.now.links) rows.now)) }
{
    let all = load_table(alloc, net, rows)?;
    load_lines(alloc, all.items())
}
