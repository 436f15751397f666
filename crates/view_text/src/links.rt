ghost use Rattle.std.{specs.Prelude.{◌≡◌, ◌≤◌, ◌++◌, ◌∷◌, [], All, IfOk, OnOk, codes, length, map}, specs.List.AllByRecursion};
ghost use Rattle.plan_report.specs.Terms.{known_of, state_name};
ghost use Rattle.text_kit.specs.Terms.{money_word};
ghost use Rattle.view_cells.specs.Terms.{joined_words, kinds_words, per_cent, HasRowsAbove, IsApart};
ghost use Rattle.view_text.specs.LinkCells.{cells_of_link, ends_text, link_cells, link_heads, total_cells};

use net_core::{Bytes, Link, List, Name, Network, NoMemory, Places, States};
use plan_report::{node_name, state_name};
use plan_view::{LinkRow, PlanSummary};
use std::alloc::Global;
use text_layout::{Column, Row};
use view_cells::cells::{
    push_cell, push_joined, push_money, push_per_cent, push_three, push_words,
};
use view_cells::modules::push_modules;
use view_cells::tables::{above, fitting, left, right, table};

/// The columns of the table of links: name, ends, modules, capacity, loads, use, state, and cost.
const COLUMNS: [Column; 9] = [
    Column {
        gap: 2,
        width: 4,
        right: false,
    },
    Column {
        gap: 3,
        width: 6,
        right: false,
    },
    Column {
        gap: 3,
        width: 10,
        right: false,
    },
    Column {
        gap: 3,
        width: 9,
        right: true,
    },
    Column {
        gap: 3,
        width: 7,
        right: true,
    },
    Column {
        gap: 3,
        width: 7,
        right: true,
    },
    Column {
        gap: 3,
        width: 4,
        right: true,
    },
    Column {
        gap: 3,
        width: 8,
        right: false,
    },
    Column {
        gap: 3,
        width: 8,
        right: true,
    },
];

/// Puts the names of a link's ends last.
fn put_ends(text: &mut Bytes, nodes: &[Name], link: &Link) -> Result<(), NoMemory>
    ensures { OnOk result (text.new ≡ text.old ++ ends_text nodes.now link.now) }
{
    text.append(node_name(nodes, link.a))?;
    text.append(b" - ")?;
    text.append(node_name(nodes, link.b))
}

/// Puts a cell of the names of a link's ends last.
fn push_ends(row: &mut Row, alloc: Global, nodes: &[Name], link: &Link) -> Result<(), NoMemory>
    ensures { OnOk result (row.new ≡ row.old ++ ends_text nodes.now link.now ∷ []) }
{
    let mut text = List::new(alloc);
    put_ends(&mut text, nodes, link)?;
    push_cell(row, text)
}

/// Puts the three cells of a link last that its network tells.
fn push_front(
    cells: &mut Row,
    alloc: Global,
    net: &Network,
    link: &Link,
    counts: &[u64],
) -> Result<(), NoMemory>
    ensures { OnOk result (cells.new ≡ cells.old ++ link.now.name ∷ ends_text net.now.nodes link.now
        ∷ joined_words (codes " + ") (kinds_words net.now.places link.now.modules counts.now) ∷ []) }
{
    push_words(cells, alloc, link.name.bytes())?;
    push_ends(cells, alloc, net.nodes().items(), link)?;
    push_modules(cells, alloc, net.places(), link.modules.items(), counts)
}

/// Puts the cells of a link's capacity and loads last.
fn push_amounts(
    cells: &mut Row,
    alloc: Global,
    places: Places,
    row: &LinkRow,
) -> Result<(), NoMemory>
    ensures { OnOk result (cells.new ≡ cells.old ++ money_word places row.now.capacity ∷ money_word places row.now.normal
        ∷ money_word places row.now.worst ∷ []) }
{
    push_money(cells, alloc, places, row.capacity)?;
    push_money(cells, alloc, places, row.normal)?;
    push_money(cells, alloc, places, row.worst)
}

/// Puts the cells of a link's use, the state of it, and its cost last.
fn push_rest(
    cells: &mut Row,
    alloc: Global,
    places: Places,
    states: &States,
    row: &LinkRow,
) -> Result<(), NoMemory>
    ensures { OnOk result (cells.new ≡ cells.old ++ per_cent row.now.used ∷ state_name states.now.listed row.now.state.0
        ∷ money_word places row.now.cost ∷ []) }
{
    push_per_cent(cells, alloc, row.used)?;
    push_words(cells, alloc, state_name(states.listed().items(), row.state))?;
    push_money(cells, alloc, places, row.cost)
}

/// Puts the cells of a link last.
fn push_link(
    cells: &mut Row,
    alloc: Global,
    net: &Network,
    states: &States,
    link: &Link,
    row: &LinkRow,
) -> Result<(), NoMemory>
    ensures { OnOk result (cells.new ≡ cells.old ++ link_cells (known_of net.now states.now) link.now row.now) }
{
    push_front(cells, alloc, net, link, row.modules.items())?;
    push_amounts(cells, alloc, net.places(), row)?;
    push_rest(cells, alloc, net.places(), states, row)
}

/// The cells of the row of a link; none where the network has no such link.
fn link_row(alloc: Global, net: &Network, states: &States, row: &LinkRow) -> Result<Row, NoMemory>
    ensures { IfOk result (λ cells. cells ≡ cells_of_link (known_of net.now states.now) row.now) }
{
    let mut cells = List::new(alloc);
    match net.links().items().get(row.link.0 as usize) {
        Some(link) => {
            push_link(&mut cells, alloc, net, states, link, row)?;
            Ok(cells)
        }
        None => Ok(cells),
    }
}

/// The heads of the columns.
fn link_heads(alloc: Global) -> Result<Row, NoMemory>
    ensures { IfOk result (λ cells. cells ≡ link_heads) }
{
    let mut cells = List::new(alloc);
    push_three(&mut cells, alloc, b"Link", b"Ends", b"Modules")?;
    push_three(&mut cells, alloc, b"Capacity", b"Normal", b"Worst")?;
    push_three(&mut cells, alloc, b"Used", b"In state", b"Cost")?;
    Ok(cells)
}

/// The rows of all links, below the heads of the columns.
fn link_table(
    alloc: Global,
    net: &Network,
    states: &States,
    rows: &[LinkRow],
) -> Result<List<Row>, NoMemory>
    ensures { IfOk result (λ all. all ≡ link_heads ∷ map (cells_of_link (known_of net.now states.now)) rows.now) }
{
    let mut all = List::new(alloc);
    all.push(link_heads(alloc)?)?;
    for row in rows {
        all.push(link_row(alloc, net, states, row)?)?;
    }
    Ok(all)
}

/// The columns of the last row, of which the first is as wide as three.
fn total_columns(c: &[Column]) -> [Column; 7]
    requires { length c.now ≡ 9 }
    ensures { AllByRecursion IsApart result }
{
    let two = c[0].width.saturating_add(c[1].width);
    let three = two.saturating_add(c[2].width).saturating_add(6);
    [
        left(2, three),
        right(3, c[3].width),
        right(3, c[4].width),
        right(3, c[5].width),
        right(3, c[6].width),
        left(3, c[7].width),
        right(3, c[8].width),
    ]
}

/// Puts three empty cells last.
fn push_empty(cells: &mut Row, alloc: Global) -> Result<(), NoMemory>
    ensures { OnOk result (cells.new ≡ cells.old ++ [] ∷ [] ∷ [] ∷ []) }
{
    push_three(cells, alloc, b"", b"", b"")
}

/// Puts the cells of what all links have together last.
fn push_total(
    cells: &mut Row,
    alloc: Global,
    places: Places,
    whole: &PlanSummary,
) -> Result<(), NoMemory>
    ensures { OnOk result (cells.new ≡ cells.old ++ total_cells places whole.now) }
{
    push_words(cells, alloc, b"total")?;
    push_money(cells, alloc, places, whole.capacity)?;
    push_money(cells, alloc, places, whole.normal)?;
    push_empty(cells, alloc)?;
    push_money(cells, alloc, places, whole.cost)
}

/// The row of what all links have together.
fn total_table(alloc: Global, places: Places, whole: &PlanSummary) -> Result<List<Row>, NoMemory>
    ensures { IfOk result (λ rows. rows ≡ total_cells places whole.now ∷ []) }
{
    let mut cells = List::new(alloc);
    push_total(&mut cells, alloc, places, whole)?;
    let mut rows = List::new(alloc);
    rows.push(cells)?;
    Ok(rows)
}

/// The text of the rows of links, with a row of seven cells below them.
fn with_total(alloc: Global, rows: &[Row], total: &[Row]) -> Result<Bytes, NoMemory>
    requires few { All (λ row. length row ≤ 9) rows.now }
    requires short { All (λ row. length row ≤ 7) total.now }
    ensures { IfOk result (HasRowsAbove rows.now total.now) }
{
    let wide = fitting(alloc, &COLUMNS, rows)?;
    let upper = table(alloc, wide.items(), rows)?;
    let lower = table(alloc, &total_columns(wide.items()), total)?;
    above(upper, lower.items())
}

/// The text of the rows of all links, with what they have together below them.
pub(crate) fn links_text(
    alloc: Global,
    net: &Network,
    states: &States,
    rows: &[LinkRow],
    whole: &PlanSummary,
) -> Result<Bytes, NoMemory>
    ensures { IfOk result (HasRowsAbove (link_heads ∷ map (cells_of_link (known_of net.now states.now)) rows.now)
        (total_cells net.now.places whole.now ∷ [])) }
{
    let all = link_table(alloc, net, states, rows)?;
    let total = total_table(alloc, net.places(), whole)?;
    with_total(alloc, all.items(), total.items())
}
