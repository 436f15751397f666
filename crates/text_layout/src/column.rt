ghost use Rattle.std.specs.Prelude.{◌≡◌, [], IfOk, get_or, length};
ghost use Rattle.text_layout.{specs.Places.characters, specs.Cells.{AreWidened, IsLeastWidth, IsWidened}};

use crate::characters;
use net_core::{Bytes, List, NoMemory};
use std::alloc::Global;

/// How the cells of a column are laid out.
#[derive(Clone, Copy, Debug, PartialEq, Eq)]
pub struct Column {
    /// The number of spaces before a cell, beside those that pad it.
    pub gap: usize,
    /// The number of characters to which a cell is padded with spaces.
    pub width: usize,
    /// Whether the padding is before a cell, so that it is aligned to the right.
    pub right: bool,
}

/// The cells of a row, from left to right.
pub type Row = List<Bytes>;

/// How many characters the cell at a place has; 0 if the row has none there.
fn width_at(row: &[Bytes], at: usize) -> usize
    ensures { result ≡ characters (get_or row.now at []) }
{
    match row.get(at) {
        Some(cell) => characters(cell.items()),
        None => 0,
    }
}

/// The width that the cells at a place need, and this width at least.
#[tactic(auto, using(crate::proofs::Widths::no_rows))]
fn width_of(width: usize, rows: &[Row], at: usize) -> usize
    ensures { IsLeastWidth width rows.now at result }
{
    let mut most = width;
    for row in rows {
        most = most.max(width_at(row.items(), at));
    }
    most
}

/// A column, as wide as the cells at its place need it.
fn widened_column(column: Column, rows: &[Row], at: usize) -> Column
    ensures { IsWidened column rows.now at result }
{
    Column {
        gap: column.gap,
        width: width_of(column.width, rows, at),
        right: column.right,
    }
}

/// The columns, each widened to its widest cell if it isn't that wide already. It takes time in the bytes of the cells, and memory for the
/// columns.
#[tactic(auto, using(crate::proofs::Widening::none_widened))]
pub fn widened(alloc: Global, columns: &[Column], rows: &[Row]) -> Result<List<Column>, NoMemory>
    ensures { IfOk result (AreWidened columns.now rows.now (length columns.now)) }
{
    let mut wide = List::new(alloc);
    for at in 0..columns.len() {
        wide.push(widened_column(columns[at], rows, at))?;
    }
    Ok(wide)
}
