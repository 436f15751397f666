ghost use Rattle.std.{specs.Prelude.{◌≡◌, ◌≤◌, ◌++◌, All, IfOk, false, length, true}, specs.List.AllByRecursion};
ghost use Rattle.text_layout.specs.Cells.{AreWidened, table_text};
ghost use Rattle.view_cells.specs.Tables.{HasRows, IsApart};

use net_core::{Bytes, List, NoMemory};
use std::alloc::Global;
use text_layout::{Column, Row, put_rows, widened};

/// A column whose cells begin at its left side.
pub const fn left(gap: usize, width: usize) -> Column
    ensures gap { result.gap ≡ gap }
    ensures width { result.width ≡ width }
    ensures side { result.right ≡ false }
{
    Column {
        gap,
        width,
        right: false,
    }
}

/// A column whose cells end at its right side.
pub const fn right(gap: usize, width: usize) -> Column
    ensures gap { result.gap ≡ gap }
    ensures width { result.width ≡ width }
    ensures side { result.right ≡ true }
{
    Column {
        gap,
        width,
        right: true,
    }
}

/// The text of rows in these columns. It takes time and memory in the text.
pub fn table(alloc: Global, columns: &[Column], rows: &[Row]) -> Result<Bytes, NoMemory>
    requires apart { AllByRecursion IsApart columns.now }
    requires enough { All (λ row. length row ≤ length columns.now) rows.now }
    ensures rows { IfOk result (HasRows rows.now) }
    ensures printed { IfOk result (λ text. text ≡ table_text columns.now rows.now) }
{
    let mut text = List::new(alloc);
    put_rows(&mut text, columns, rows)?;
    Ok(text)
}

/// These columns, as wide as the cells of the rows need them, and at least as wide as they are. It takes time in the bytes of the cells.
#[tactic(auto, using(crate::proofs::Apart::still_apart))]
pub fn fitting(alloc: Global, columns: &[Column], rows: &[Row]) -> Result<List<Column>, NoMemory>
    requires { AllByRecursion IsApart columns.now }
    ensures wide { IfOk result (AreWidened columns.now rows.now (length columns.now)) }
    ensures long { IfOk result (λ wide. length wide ≡ length columns.now) }
    ensures apart { IfOk result (AllByRecursion IsApart) }
{
    widened(alloc, columns, rows)
}

/// A text above another. It takes time in the lower one.
pub fn above(upper: Bytes, lower: &[u8]) -> Result<Bytes, NoMemory>
    ensures { IfOk result (λ text. text ≡ upper ++ lower.now) }
{
    let mut text = upper;
    text.append(lower)?;
    Ok(text)
}
