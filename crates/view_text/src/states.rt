ghost use Rattle.std.{specs.Prelude.{◌≡◌, ◌≤◌, ◌/◌, ◌++◌, ◌∷◌, [], All, IfOk, OnOk, length, map}, specs.List.AllByRecursion};
ghost use Rattle.plan_report.specs.Terms.{known_of, state_name};
ghost use Rattle.text_layout.specs.Cells.{right_cell};
ghost use Rattle.view_cells.specs.Terms.{tenths_per_cent, HasRowsAbove, IsApart};
ghost use Rattle.view_text.specs.StateCells.{bar_text, fullest_name, fullest_use, names_text, part_text, rerouted_text, state_cells, state_heads};

use net_core::{Bytes, Link, LinkId, List, Network, NoMemory, Places, States};
use plan_report::{link_name, state_name};
use plan_view::StateRow;
use std::alloc::Global;
use text_layout::{Column, Row, put_right, put_spaces};
use view_cells::cells::{
    push_cell, push_joined, push_money, push_pair, push_per_cent, push_three, push_words,
    put_tenths,
};
use view_cells::names::names_of_links;
use view_cells::tables::{above, fitting, left, right, table};

/// The columns of the table of states: name, links out, rerouted amount, fullest link and its use, and part of the bound.
const COLUMNS: [Column; 6] = [
    Column {
        gap: 2,
        width: 7,
        right: false,
    },
    Column {
        gap: 3,
        width: 9,
        right: false,
    },
    Column {
        gap: 3,
        width: 8,
        right: true,
    },
    Column {
        gap: 3,
        width: 2,
        right: false,
    },
    Column {
        gap: 3,
        width: 5,
        right: true,
    },
    Column {
        gap: 6,
        width: 0,
        right: false,
    },
];

/// How many tenths of a per cent a mark of a bar shows.
const MARK: u32 = 50;

/// A mark of a bar.
const MARK_SIGN: u8 = b'#';

/// Puts a cell of the names of links last.
fn push_names(
    row: &mut Row,
    alloc: Global,
    links: &[Link],
    failed: &[LinkId],
) -> Result<(), NoMemory>
    ensures { OnOk result (row.new ≡ row.old ++ names_text links.now failed.now ∷ []) }
{
    let names = names_of_links(alloc, links, failed)?;
    push_joined(row, alloc, b", ", names.items())
}

/// Puts a cell of what is rerouted last.
fn push_rerouted(
    cells: &mut Row,
    alloc: Global,
    places: Places,
    row: &StateRow,
) -> Result<(), NoMemory>
    ensures { OnOk result (cells.new ≡ cells.old ++ rerouted_text places row.now ∷ []) }
{
    if row.state.0 == 0 {
        push_words(cells, alloc, b"-")
    } else {
        push_money(cells, alloc, places, row.rerouted)
    }
}

/// Puts the cells of the fullest link and its use last.
fn push_fullest(
    cells: &mut Row,
    alloc: Global,
    links: &[Link],
    fullest: Option<LinkId>,
    used: u32,
) -> Result<(), NoMemory>
    ensures { OnOk result (cells.new ≡ cells.old ++ fullest_name links.now fullest ∷ fullest_use fullest used ∷ []) }
{
    match fullest {
        Some(e) => {
            push_words(cells, alloc, link_name(links, e))?;
            push_per_cent(cells, alloc, used)
        }
        None => push_pair(cells, alloc, b"-", b"-"),
    }
}

/// Puts a bar of `marks` marks last.
fn put_bar(text: &mut Bytes, alloc: Global, marks: u32) -> Result<(), NoMemory>
    ensures { OnOk result (text.new ≡ text.old ++ bar_text marks) }
{
    if marks == 0 {
        return Ok(());
    }
    put_spaces(text, 3)?;
    let bar = List::filled(alloc, MARK_SIGN, marks as usize)?;
    text.append(bar.items())
}

/// Puts a part of the bound last that isn't 0, with its bar.
fn put_part(text: &mut Bytes, alloc: Global, part: u32) -> Result<(), NoMemory>
    ensures { OnOk result (text.new ≡ text.old ++ right_cell 7 (tenths_per_cent part) ++ bar_text (part / 50)) }
{
    let mut number = List::new(alloc);
    put_tenths(&mut number, part)?;
    put_right(text, 7, number.items())?;
    put_bar(text, alloc, part / MARK)
}

/// Puts a cell of a part of the bound last.
fn push_part(cells: &mut Row, alloc: Global, part: u32) -> Result<(), NoMemory>
    ensures { OnOk result (cells.new ≡ cells.old ++ part_text part ∷ []) }
{
    if part == 0 {
        return push_words(cells, alloc, b"    -");
    }
    let mut text = List::new(alloc);
    put_part(&mut text, alloc, part)?;
    push_cell(cells, text)
}

/// Puts the cells of a state last.
fn push_state(
    cells: &mut Row,
    alloc: Global,
    net: &Network,
    states: &States,
    row: &StateRow,
) -> Result<(), NoMemory>
    ensures { OnOk result (cells.new ≡ cells.old ++ state_cells (known_of net.now states.now) row.now) }
{
    let links = net.links().items();
    push_words(cells, alloc, state_name(states.listed().items(), row.state))?;
    push_names(cells, alloc, links, row.failed.items())?;
    push_rerouted(cells, alloc, net.places(), row)?;
    push_fullest(cells, alloc, links, row.fullest, row.used)?;
    push_part(cells, alloc, row.part)
}

/// The cells of the row of a state.
fn state_row(alloc: Global, net: &Network, states: &States, row: &StateRow) -> Result<Row, NoMemory>
    ensures { IfOk result (λ cells. cells ≡ state_cells (known_of net.now states.now) row.now) }
{
    let mut cells = List::new(alloc);
    push_state(&mut cells, alloc, net, states, row)?;
    Ok(cells)
}

/// The rows of all states.
fn state_table(
    alloc: Global,
    net: &Network,
    states: &States,
    rows: &[StateRow],
) -> Result<List<Row>, NoMemory>
    ensures { IfOk result (λ all. all ≡ map (state_cells (known_of net.now states.now)) rows.now) }
{
    let mut all = List::new(alloc);
    for row in rows {
        all.push(state_row(alloc, net, states, row)?)?;
    }
    Ok(all)
}

/// The heads of the columns.
fn head_table(alloc: Global) -> Result<List<Row>, NoMemory>
    ensures { IfOk result (λ rows. rows ≡ state_heads ∷ []) }
{
    let mut heads = List::new(alloc);
    push_three(&mut heads, alloc, b"Failure", b"Links out", b"Rerouted")?;
    push_pair(&mut heads, alloc, b"Fullest link", b"Part of the bound")?;
    let mut rows = List::new(alloc);
    rows.push(heads)?;
    Ok(rows)
}

/// The columns of the heads, of which the fourth is as wide as what is below it.
fn head_columns(c: &[Column]) -> [Column; 5]
    requires { length c.now ≡ 6 }
    ensures { AllByRecursion IsApart result }
{
    let fullest = c[3].width.saturating_add(c[4].width).saturating_add(7);
    [
        left(2, c[0].width),
        left(3, c[1].width),
        right(3, c[2].width),
        left(3, fullest),
        left(2, 0),
    ]
}

/// The columns of the states, of which the last isn't filled up with spaces.
fn state_columns(c: &[Column]) -> [Column; 6]
    requires { length c.now ≡ 6 }
    ensures { AllByRecursion IsApart result }
{
    [
        left(2, c[0].width),
        left(3, c[1].width),
        right(3, c[2].width),
        left(3, c[3].width),
        right(3, c[4].width),
        left(6, 0),
    ]
}

/// The text of the rows of states, below a row of five heads.
fn below_heads(alloc: Global, heads: &[Row], rows: &[Row]) -> Result<Bytes, NoMemory>
    requires few { All (λ row. length row ≤ 6) rows.now }
    requires short { All (λ row. length row ≤ 5) heads.now }
    ensures { IfOk result (HasRowsAbove heads.now rows.now) }
{
    let wide = fitting(alloc, &COLUMNS, rows)?;
    let upper = table(alloc, &head_columns(wide.items()), heads)?;
    let lower = table(alloc, &state_columns(wide.items()), rows)?;
    above(upper, lower.items())
}

/// The text of the rows of all states, below the heads of their columns.
pub(crate) fn states_text(
    alloc: Global,
    net: &Network,
    states: &States,
    rows: &[StateRow],
) -> Result<Bytes, NoMemory>
    ensures { IfOk result (HasRowsAbove (state_heads ∷ []) (map (state_cells (known_of net.now states.now)) rows.now)) }
{
    let all = state_table(alloc, net, states, rows)?;
    let heads = head_table(alloc)?;
    below_heads(alloc, heads.items(), all.items())
}
