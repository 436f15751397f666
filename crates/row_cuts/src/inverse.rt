ghost use Rattle.std.specs.Prelude.{◌≡◌, ◌*ℤ◌, IsTrue, Some, length};
ghost use Rattle.simplex_law.specs.Terms.{unit_vector};
ghost use Rattle.row_cuts.specs.inner.Tests.{AreInverseBelow, IsInverseTo};

use crate::path_row::PathRow;
use crate::paths::row_at;
use crate::sums::product_with;
use net_core::Path;

/// Whether a number was found, and is the one that is wanted.
fn is_number(found: Option<i128>, wanted: i128) -> bool
    ensures { IsTrue result → found ≡ Some wanted }
{
    match found {
        Some(number) => number == wanted,
        None => false,
    }
}

/// A denominator at its own place, and 0 elsewhere.
fn unit_times(den: i64, i: usize, j: usize) -> i128
    ensures { result ≡ den *ℤ unit_vector i j }
{
    if i == j { den as i128 } else { 0 }
}

/// Whether the products of row `i` with all columns are those of a row of the inverse.
fn is_inverse_row(keys: &[Path], rows: &[PathRow], row: &PathRow, i: usize) -> bool
    ensures { IsTrue result → IsInverseTo keys.now rows.now row.now i (length rows.now) }
{
    for j in 0..rows.len() {
        let product = product_with(row.nums.items(), keys, &row_at(rows, j).column);
        if !is_number(product, unit_times(row.den, i, j)) {
            return false;
        }
    }
    true
}

/// Whether the rows are those of the inverse of what the keys leave of their columns.
pub(crate) fn are_inverse(keys: &[Path], rows: &[PathRow]) -> bool
    ensures { IsTrue result → AreInverseBelow keys.now rows.now (length rows.now) }
{
    for i in 0..rows.len() {
        if !is_inverse_row(keys, rows, row_at(rows, i), i) {
            return false;
        }
    }
    true
}
