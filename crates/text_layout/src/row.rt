ghost use Rattle.std.specs.Prelude.{◌≡◌, ◌++◌, ◌≤◌, OnOk, All, length};
ghost use Rattle.text_layout.specs.Cells.{row_text, table_text, cell_text};

use crate::cell::{put_left, put_right, put_spaces};
use crate::column::{Column, Row};
use net_core::{Bytes, NoMemory};

/// Appends a cell of a column, after its gap.
fn put_cell(text: &mut Bytes, column: Column, cell: &[u8]) -> Result<(), NoMemory>
    ensures { OnOk result (text.new ≡ text.old ++ cell_text column cell.now) }
{
    put_spaces(text, column.gap)?;
    if column.right {
        put_right(text, column.width, cell)
    } else {
        put_left(text, column.width, cell)
    }
}

/// Appends a row as a line. There is a column for each of its cells. It takes time in the line, and memory for it.
pub fn put_row(text: &mut Bytes, columns: &[Column], row: &[Bytes]) -> Result<(), NoMemory>
    requires { length row.now ≤ length columns.now }
    ensures { OnOk result (text.new ≡ text.old ++ row_text columns.now row.now) }
{
    for i in 0..row.len() {
        put_cell(text, columns[i], row[i].items())?;
    }
    text.append(b"\n")
}

/// Appends rows as lines. No row has more cells than there are columns. It takes time in the lines, and memory for them.
pub fn put_rows(text: &mut Bytes, columns: &[Column], rows: &[Row]) -> Result<(), NoMemory>
    requires { All (λ row. length row ≤ length columns.now) rows.now }
    ensures { OnOk result (text.new ≡ text.old ++ table_text columns.now rows.now) }
{
    for row in rows {
        put_row(text, columns, row.items())?;
    }
    Ok(())
}
