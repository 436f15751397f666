ghost use Rattle.std.specs.Prelude.{◌≡◌, ◌<◌, ◌≤ℤ◌, ℕ, ℤ, pos, length, replicate, IfOk};
ghost use Rattle.checked_fraction.specs.Terms.{IsNarrow};
ghost use Rattle.simplex_law.specs.Terms.{unit_vector};
ghost use Rattle.simplex_core.specs.inner.Shapes.{AtEach, IsUnit, IsStartBasis};

use crate::columns::Columns;
use checked_fraction::Row;
use net_core::{List, NoMemory};
use std::alloc::Global;

/// A basis: the names of its columns, the rows of its inverse and its objective row.
#[derive(Drop)]
pub(crate) struct Basis<N> {
    pub(crate) names: List<N>,
    pub(crate) rows: List<Row>,
    pub(crate) duals: Row,
    /// The bounds of the rows.
    pub(crate) bounds: List<i64>,
    /// Room for the products of the rows with a column.
    pub(crate) products: List<i128>,
    /// A row that takes the place of the pivot row while that is lent.
    pub(crate) spare: Row,
}

/// A row of `n` zeros over 1. It takes memory in the count.
pub fn zero_row(alloc: Global, n: u32) -> Result<Row, NoMemory>
    ensures { IfOk result (λ row. (row.nums ≡ replicate n (pos 0)) × (row.den ≡ pos 1)) }
{
    let nums = List::filled(alloc, 0, n as usize)?;
    Ok(Row { nums, den: 1 })
}

/// The rows of the unit matrix of `n` rows, over 1. It takes time and memory in the square of the count.
pub fn unit_rows(alloc: Global, n: u32) -> Result<List<Row>, NoMemory>
    ensures count { IfOk result (λ rows. length rows ≡ n) }
    ensures units { IfOk result (AtEach (IsUnit n)) }
{
    let mut rows = List::new(alloc);
    for i in 0..n {
        rows.push(Row::unit(alloc, n, i)?)?;
    }
    Ok(rows)
}

fn bounds_of<C: Columns>(alloc: Global, cols: &C) -> Result<List<i64>, NoMemory>
    ensures count { IfOk result (λ bounds. length bounds ≡ C.rows cols.now) }
    ensures bounds { IfOk result (AtEach (λ i b. b ≡ C.bound cols.now i)) }
{
    let mut bounds = List::new(alloc);
    for i in 0..cols.rows() {
        bounds.push(cols.bound(i))?;
    }
    Ok(bounds)
}

fn slacks_of<C: Columns>(alloc: Global, cols: &C) -> Result<List<C::Name>, NoMemory>
    ensures count { IfOk result (λ names. length names ≡ C.rows cols.now) }
    ensures names { IfOk result (AtEach (λ i name. name ≡ C.slack cols.now i)) }
{
    let mut names = List::new(alloc);
    for i in 0..cols.rows() {
        names.push(cols.slack(i))?;
    }
    Ok(names)
}

/// The slack basis.
pub(crate) fn slack_basis<C: Columns>(alloc: Global, cols: &C) -> Result<Basis<C::Name>, NoMemory>
    requires { (k : ℕ) → k < C.rows cols.now → (pos 0 ≤ℤ C.bound cols.now k) × IsNarrow (C.bound cols.now k) }
    ensures { IfOk result (IsStartBasis (C.rows cols.now) (C.bound cols.now) (C.slack cols.now)) }
{
    let n = cols.rows();
    let names = slacks_of(alloc, cols)?;
    let rows = unit_rows(alloc, n)?;
    let duals = zero_row(alloc, n)?;
    let bounds = bounds_of(alloc, cols)?;
    let products = List::filled(alloc, 0, n as usize)?;
    let spare = zero_row(alloc, n)?;
    Ok(Basis {
        names,
        rows,
        duals,
        bounds,
        products,
        spare,
    })
}
