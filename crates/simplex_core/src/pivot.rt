ghost use Rattle.std.specs.Prelude.{◌≡◌, ◌≢◌, ◌<◌, ◌^◌, ◌*ℤ◌, ◌<ℤ◌, ℕ, pos, length, OnOk, IfErr};
ghost use Rattle.checked_fraction.specs.Terms.{num, IsNarrow, IsReduced, combined, IsTooWide};
ghost use Rattle.simplex_core.{specs.Tables.{nums_at, IsRectangle}, specs.Turned.{IsNarrowOver, HavePivot, IsTooWideAt, AreTurned, IsWideRow}, specs.inner.Pivots.{CombinesAt, AreCombined}};

use crate::factors::{Factors, factors_of};
use checked_fraction::{Row, WideNumber, combine, narrowed, rescale};
use net_core::List;
use std::mem;

/// Combines a row with the pivot row by narrow factors.
fn combine_by(row: &mut Row, factors: &Factors, pivot: &Row) -> Result<(), WideNumber>
    requires equal { length row.old.nums ≡ length pivot.now.nums }
    requires p { IsNarrow factors.now.p }
    requires q { IsNarrow factors.now.q }
    requires positive { pos 0 <ℤ factors.now.q }
    ensures length { length row.new.nums ≡ length row.old.nums }
    ensures reduced { OnOk result (IsReduced (length row.old.nums)
        (combined (num row.old.nums) factors.now.p (num pivot.now.nums) factors.now.q) (row.old.den *ℤ factors.now.q)
        (num row.new.nums) row.new.den) }
    ensures wide { IfErr result (IsTooWide (length row.old.nums)
        (combined (num row.old.nums) factors.now.p (num pivot.now.nums) factors.now.q) (row.old.den *ℤ factors.now.q)) }
{
    combine(row, factors.p, pivot, factors.q)
}

/// Combines a row with the pivot row by the row's product `p` and the pivot `q`. Where `p` is 0 this leaves it as it is.
fn combine_row(row: &mut Row, p: &i128, pivot: &Row, q: &i128) -> Result<(), WideNumber>
    requires equal { length row.old.nums ≡ length pivot.now.nums }
    requires positive { pos 0 <ℤ q.now }
    requires narrow { IsNarrow q.now }
    requires over { IsNarrowOver q.now p.now }
    ensures length { length row.new.nums ≡ length row.old.nums }
    ensures reduced { OnOk result (IsReduced (length row.old.nums) (combined (num row.old.nums) p.now (num pivot.now.nums) q.now)
        (row.old.den *ℤ q.now) (num row.new.nums) row.new.den) }
    ensures wide { IfErr result (IsTooWide (length row.old.nums) (combined (num row.old.nums) p.now (num pivot.now.nums) q.now) (row.old.den *ℤ q.now)) }
{
    if *p == 0 {
        return Ok(());
    }
    combine_by(row, &factors_of(p, q), pivot)
}

fn divide_by(row: &mut Row, q: &i64)
    requires narrow { IsNarrow q.now }
    requires positive { pos 0 <ℤ q.now }
    ensures length { length row.new.nums ≡ length row.old.nums }
    ensures reduced { IsReduced (length row.old.nums) (num row.old.nums) q.now (num row.new.nums) row.new.den }
{
    rescale(row, *q);
}

/// Divides the pivot row by the pivot.
fn divide_row(row: &mut Row, q: &i128)
    requires narrow { IsNarrow q.now }
    requires positive { pos 0 <ℤ q.now }
    ensures length { length row.new.nums ≡ length row.old.nums }
    ensures reduced { IsReduced (length row.old.nums) (num row.old.nums) q.now (num row.new.nums) row.new.den }
{
    divide_by(row, &narrowed(q));
}

/// Combines row `i` with the pivot row, unless it is row `r`. An error names it where it gets too wide.
fn combine_at(
    rows: &mut [Row],
    products: &[i128],
    pivot: &Row,
    r: usize,
    i: usize,
) -> Result<(), u32>
    requires inside { i < length rows.old }
    requires rectangle { IsRectangle (length pivot.now.nums) rows.old }
    requires pivot { HavePivot products.now (length rows.old) r }
    ensures combined { OnOk result (CombinesAt (length pivot.now.nums) rows.old rows.new products.now (num pivot.now.nums) (num products.now r) r i) }
    ensures wide { IfErr result (λ k. (k ≡ i) × (i ≢ r)
        × IsTooWideAt (length pivot.now.nums) rows.old products.now (num pivot.now.nums) (num products.now r) i) }
{
    if i == r {
        return Ok(());
    }
    match combine_row(&mut rows[i], &products[i], pivot, &products[r]) {
        Ok(()) => Ok(()),
        Err(_) => Err(i as u32),
    }
}

/// Combines each row but row `r` with the pivot row. An error names a row that gets too wide.
fn combine_rows(rows: &mut [Row], products: &[i128], pivot: &Row, r: usize) -> Result<(), u32>
    requires rectangle { IsRectangle (length pivot.now.nums) rows.old }
    requires pivot { HavePivot products.now (length rows.old) r }
    ensures combined { OnOk result (AreCombined (length pivot.now.nums) rows.old rows.new products.now (num pivot.now.nums)
        (num products.now r) r (length rows.old)) }
    ensures wide { IfErr result (λ i. (i < length rows.old) × (i ≢ r)
        × IsTooWideAt (length pivot.now.nums) rows.old products.now (num pivot.now.nums) (num products.now r) i) }
{
    for i in 0..rows.len() {
        combine_at(rows, products, pivot, r, i)?;
    }
    Ok(())
}

/// Makes rows those of the next basis. An error names a row that gets too wide.
fn turn_rows(rows: &mut [Row], products: &[i128], spare: &mut Row, r: usize) -> Result<(), u32>
    requires rectangle { IsRectangle (length rows.old) rows.old }
    requires spare { length spare.old.nums ≡ length rows.old }
    requires pivot { HavePivot products.now (length rows.old) r }
    ensures turned { OnOk result (AreTurned (length rows.old) rows.old rows.new products.now r) }
    ensures spare { OnOk result (length spare.new.nums ≡ length rows.old) }
    ensures wide { IfErr result (IsWideRow (length rows.old) rows.old products.now r) }
{
    mem::swap(&mut rows[r], spare);
    combine_rows(rows, products, spare, r)?;
    divide_row(spare, &products[r]);
    mem::swap(&mut rows[r], spare);
    Ok(())
}

/// Makes the rows of an inverse those of the next basis, in which row `r` has left for a column with these
/// products. An error names a row that gets too wide; the rows are then half written. It takes no memory,
/// and time by the square of the count of rows at most: a row of product 0 costs nothing.
///
/// `spare` takes the place of the pivot row while that is lent, and its numbers don't matter.
pub fn turn_list(
    rows: &mut List<Row>,
    products: &List<i128>,
    spare: &mut Row,
    r: usize,
) -> Result<(), u32>
    requires rectangle { IsRectangle (length rows.old) rows.old }
    requires spare { length spare.old.nums ≡ length rows.old }
    requires pivot { HavePivot products.now (length rows.old) r }
    ensures turned { OnOk result (AreTurned (length rows.old) rows.old rows.new products.now r) }
    ensures spare { OnOk result (length spare.new.nums ≡ length rows.old) }
    ensures wide { IfErr result (IsWideRow (length rows.old) rows.old products.now r) }
{
    turn_rows(rows.items_mut(), products.items(), spare, r)
}

/// Combines the objective row with row `r`.
fn combine_objective(
    duals: &mut Row,
    cost: &i128,
    rows: &[Row],
    products: &[i128],
    r: usize,
) -> Result<(), WideNumber>
    requires rectangle { IsRectangle (length rows.now) rows.now }
    requires equal { length duals.old.nums ≡ length rows.now }
    requires pivot { HavePivot products.now (length rows.now) r }
    requires over { IsNarrowOver (num products.now r) cost.now }
    ensures length { length duals.new.nums ≡ length rows.now }
    ensures reduced { OnOk result (IsReduced (length rows.now)
        (combined (num duals.old.nums) cost.now (nums_at rows.now r) (num products.now r))
        (duals.old.den *ℤ num products.now r) (num duals.new.nums) duals.new.den) }
    ensures wide { IfErr result (IsTooWide (length rows.now)
        (combined (num duals.old.nums) cost.now (nums_at rows.now r) (num products.now r))
        (duals.old.den *ℤ num products.now r)) }
{
    combine_row(duals, cost, &rows[r], &products[r])
}

/// Makes the objective row that of the next basis, before the rows are turned. `cost` is its product with the
/// column that enters, less the column's gain. An error says where it gets too wide.
/// It takes no memory, and a time that grows with the count of rows.
pub fn turn_objective(
    duals: &mut Row,
    cost: &i128,
    rows: &List<Row>,
    products: &List<i128>,
    r: usize,
) -> Result<(), WideNumber>
    requires rectangle { IsRectangle (length rows.now) rows.now }
    requires equal { length duals.old.nums ≡ length rows.now }
    requires pivot { HavePivot products.now (length rows.now) r }
    requires over { IsNarrowOver (num products.now r) cost.now }
    ensures length { length duals.new.nums ≡ length rows.now }
    ensures reduced { OnOk result (IsReduced (length rows.now)
        (combined (num duals.old.nums) cost.now (nums_at rows.now r) (num products.now r))
        (duals.old.den *ℤ num products.now r) (num duals.new.nums) duals.new.den) }
    ensures wide { IfErr result (IsTooWide (length rows.now)
        (combined (num duals.old.nums) cost.now (nums_at rows.now r) (num products.now r))
        (duals.old.den *ℤ num products.now r)) }
{
    combine_objective(duals, cost, rows.items(), products.items(), r)
}
