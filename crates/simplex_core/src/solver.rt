ghost use Rattle.std.{specs.Prelude.{◌≡◌, ◌<◌, ◌≤◌, ◌^◌, ◌<ℤ◌, ◌≤ℤ◌, ℕ, ℤ, pos, length, slice_set, unsigned_abs, IsTrue, false}, specs.List.AllByRecursion};
ghost use Rattle.checked_fraction.specs.Terms.{num, IsNarrow};
ghost use Rattle.simplex_law.specs.Terms.{dot, ColumnOf, IsProgramColumn, IsPacking};
ghost use Rattle.simplex_core.{specs.Columns.{IsEntry, column_from}, specs.Turned.{IsNarrowOver, HavePivot}, specs.Tables.nums_at, specs.Programs.{IsSameProgram, IsSimplexAnswer}, specs.inner.Shapes.IsShaped, specs.inner.Values.sizes_of, specs.inner.Outcomes.{IsBasisOutcome, IsValuesOutcome, HasLowValues}, specs.inner.Turns.{reduced_cost, Chooses, Enters, IsTurnOutcome}};

use crate::basis::{Basis, slack_basis};
use crate::columns::{Column, Columns, Entry, Price};
use crate::factors::wide_product;
use crate::optimum::{Optimum, common_denominator, values_over};
use crate::pivot::{turn_list, turn_objective};
use crate::product::{reduced_cost_of, write_list};
use crate::ratio_test::leaving_of;
use crate::value::{ValueFault, fractions_of, row_value};
use checked_fraction::{Row, first_negative};
use net_core::{Copied, List, NoMemory, WideKind};
use std::alloc::Global;

/// Why there is no optimum.
#[derive(Drop)]
pub enum SimplexFault<N> {
    /// A number of this basis is too wide.
    Wide { basis: List<N>, kind: WideKind<N> },
    /// The call ran out of memory.
    NoMemory,
}

impl<N: Copied> Copied for SimplexFault<N> {
    fn copy(&self) -> Result<SimplexFault<N>, NoMemory> {
        Ok(match self {
            SimplexFault::Wide { basis, kind } => SimplexFault::Wide {
                basis: basis.copy()?,
                kind: kind.copy()?,
            },
            SimplexFault::NoMemory => SimplexFault::NoMemory,
        })
    }
}

impl<N> From<NoMemory> for SimplexFault<N> {
    ghost use Rattle.std.specs.Prelude.{◌≡◌};
    ghost use Rattle.simplex_core.specs.declared.solver.SimplexFault.{SimplexFault};

    ghost from_gives = { λ _ fault. fault ≡ SimplexFault.NoMemory };

    fn from(_error: NoMemory) -> SimplexFault<N> {
        SimplexFault::NoMemory
    }
}

/// What a turn leaves.
#[derive(Drop)]
enum Turn<N> {
    /// The next basis.
    Again,
    /// The basis as it was, which is best.
    Best,
    /// A column that no row limits.
    Unbounded,
    /// A basis with a number that is too wide.
    Wide(WideKind<N>),
    /// The call ran out of memory.
    NoMemory,
}

/// The values of a basis over one denominator.
#[derive(Drop)]
struct Values {
    den: u64,
    nums: List<u128>,
}

fn set_name<N: Drop>(names: &mut List<N>, r: usize, name: N)
    requires { r < length names.old }
    ensures { names.new ≡ slice_set names.old r name }
{
    names.items_mut()[r] = name;
}

/// Whether the absolute products of the objective row with the bounds sum to less than 2^126. It is tested after each pivot, since the
/// proof that the method returns needs this limit, though a program may be refused so that might have come through.
fn is_low(duals: &Row, bounds: &List<i64>) -> bool
    requires equal { length duals.now.nums ≡ length bounds.now }
    requires bounds { (k : ℕ) → IsNarrow (num bounds.now k) }
    ensures low { IsTrue result → unsigned_abs (dot (length bounds.now) (num duals.now.nums) (num bounds.now)) < 2 ^ 126 }
    ensures high { result ≡ false → 2 ^ 126 ≤ sizes_of (length bounds.now) (num duals.now.nums) (num bounds.now) }
{
    row_value(duals.nums(), bounds.items()).is_some()
}

/// Makes the rows those of the basis in which the column, whose products are known, is at `r`. A kind says what is too wide.
fn replace<N: Drop>(basis: &mut Basis<N>, name: N, cost: &i128, r: usize) -> Turn<N>
    requires shaped { IsShaped (length basis.old.rows) basis.old }
    requires pivot { HavePivot basis.old.products (length basis.old.rows) r }
    requires over { IsNarrowOver (num basis.old.products r) cost.now }
    ensures { (c : ColumnOf N) → Chooses (length basis.old.rows) basis.old c name cost.now r → Enters (length basis.old.rows) basis.old c result basis.new }
{
    let count = basis.rows.len() as u32;
    set_name(&mut basis.names, r, name);
    if let Err(_) = turn_objective(&mut basis.duals, cost, &basis.rows, &basis.products, r) {
        return Turn::Wide(WideKind::Row(count));
    }
    if let Err(i) = turn_list(&mut basis.rows, &basis.products, &mut basis.spare, r) {
        return Turn::Wide(WideKind::Row(i));
    }
    if is_low(&basis.duals, &basis.bounds) {
        Turn::Again
    } else {
        Turn::Wide(WideKind::Sum(count))
    }
}

/// The column, whose products are known, enters at row `r`, unless a product stays wide when it is divided.
fn pivot_at<N: Drop>(basis: &mut Basis<N>, name: N, cost: &i128, r: usize) -> Turn<N>
    requires shaped { IsShaped (length basis.old.rows) basis.old }
    requires inside { r < length basis.old.rows }
    requires positive { pos 0 <ℤ num basis.old.products r }
    ensures { (c : ColumnOf N) → Chooses (length basis.old.rows) basis.old c name cost.now r → Enters (length basis.old.rows) basis.old c result basis.new }
{
    match wide_product(basis.products.items(), cost, r) {
        Some(i) => Turn::Wide(WideKind::Product(i, name)),
        None => replace(basis, name, cost, r),
    }
}

/// A column that gains enters the basis.
fn enter<N: Drop>(basis: &mut Basis<N>, name: N, gain: &i64, entries: &[Entry]) -> Turn<N>
    requires shaped { IsShaped (length basis.old.rows) basis.old }
    requires values { (k : ℕ) → k < length basis.old.rows → pos 0 ≤ℤ dot (length basis.old.rows) (nums_at basis.old.rows k) (num basis.old.bounds) }
    requires gain { IsNarrow gain.now }
    requires entries { AllByRecursion (IsEntry (length basis.old.rows)) entries.now }
    requires gains { reduced_cost (length basis.old.rows) basis.old.duals (column_from name gain.now entries.now) <ℤ pos 0 }
    ensures { Enters (length basis.old.rows) basis.old (column_from name gain.now entries.now) result basis.new }
{
    let count = basis.rows.len() as u32;
    let Some(cost) = reduced_cost_of(&basis.duals, gain, entries) else {
        return Turn::Wide(WideKind::Product(count, name));
    };
    if let Some(i) = write_list(&mut basis.products, &basis.rows, entries) {
        return Turn::Wide(WideKind::Product(i, name));
    }
    match leaving_of(&basis.rows, &basis.bounds, &basis.products) {
        Err(i) => Turn::Wide(WideKind::Sum(i)),
        Ok(None) => Turn::Unbounded,
        Ok(Some(r)) => pivot_at(basis, name, &cost, r),
    }
}

/// A column that gains enters: a slack while a dual is negative, else one that is priced.
fn take_turn<C: Columns>(cols: &mut C, basis: &mut Basis<C::Name>) -> Turn<C::Name>
    requires shaped { IsShaped (C.rows cols.old) basis.old }
    requires values { (k : ℕ) → k < length basis.old.rows → pos 0 ≤ℤ dot (length basis.old.rows) (nums_at basis.old.rows k) (num basis.old.bounds) }
    ensures same { IsSameProgram (C.rows cols.old) (C.rows cols.new) (C.bound cols.old) (C.bound cols.new) (C.slack cols.old)
        (C.slack cols.new) (C.is_listed cols.old) (C.is_listed cols.new) }
    ensures turn { IsTurnOutcome (C.rows cols.old) (C.slack cols.old) (C.is_listed cols.old) basis.old result basis.new }
{
    if let Some(row) = first_negative(basis.duals.nums()) {
        let entry = Entry { row, value: 1 };
        return enter(basis, cols.slack(row), &0, &[entry]);
    }
    match cols.price(&basis.duals) {
        Price::Gain(
            Column {
                name,
                gain,
                entries,
            },
        ) => enter(basis, name, &gain, entries.items()),
        Price::Optimal => Turn::Best,
        Price::NoMemory => Turn::NoMemory,
    }
}

/// The values of a basis over their common denominator.
fn values_of<N: Drop>(alloc: Global, basis: &Basis<N>) -> Result<Values, ValueFault>
    requires shaped { IsShaped (length basis.now.rows) basis.now }
    requires low { HasLowValues basis.now }
    ensures { IsValuesOutcome basis.now result }
{
    let fractions = fractions_of(alloc, basis.rows.items(), basis.bounds.items())?;
    let Some(den) = common_denominator(fractions.items()) else {
        return Err(ValueFault::Common);
    };
    let nums = values_over(alloc, fractions.items(), den)?;
    Ok(Values { den, nums })
}

/// The names of a basis, and its objective row.
fn parts_of<N: Drop>(basis: Basis<N>) -> (List<N>, Row)
    ensures names { result.0 ≡ basis.names }
    ensures duals { result.1 ≡ basis.duals }
{
    (basis.names, basis.duals)
}

/// The optimum at a best basis, unless its values are too wide.
fn finish<N: Drop>(alloc: Global, basis: Basis<N>) -> Result<Optimum<N>, SimplexFault<N>>
    requires shaped { IsShaped (length basis.rows) basis }
    requires low { HasLowValues basis }
    ensures { IsBasisOutcome basis result }
{
    let values = values_of(alloc, &basis);
    let (names, duals) = parts_of(basis);
    let kind = match values {
        Ok(Values { den, nums }) => {
            return Ok(Optimum {
                basis: names,
                den,
                values: nums,
                duals,
            });
        }
        Err(ValueFault::Sum(i)) => WideKind::Sum(i),
        Err(ValueFault::Common) => WideKind::Common,
        Err(ValueFault::NoMemory) => return Err(SimplexFault::NoMemory),
    };
    Err(SimplexFault::Wide { basis: names, kind })
}

/// The answer where a number of a basis is too wide.
fn stopped<N: Drop>(basis: Basis<N>, kind: WideKind<N>) -> SimplexFault<N>
    ensures { result ≡ SimplexFault.Wide basis.names kind }
{
    let (names, _) = parts_of(basis);
    SimplexFault::Wide { basis: names, kind }
}

/// An optimum of the program, or a basis, reached by gaining steps, on which a number is too wide, or that the call ran out
/// of memory. The values of the optimum are in units of the columns, and its prices are the worth of one unit of a bound.
///
/// Each turn takes time that grows with the square of the count of rows, and so does the memory; how many
/// turns there are depends on the columns that `price` names. After the first basis is made, only `price` and the values
/// of the optimum take memory.
///
/// With two rows of bounds 4 and 4, a column a of gain 1 and entries 2 and 1, and a column b of gain 1 and
/// entries 1 and 2, first a enters and then b. The basis is a, b with the values 4 and 4 over the
/// denominator 3, and the prices 1/3 and 1/3: both sides are worth 8/3.
pub fn solve<C: Columns>(
    alloc: Global,
    cols: &mut C,
) -> Result<Optimum<C::Name>, SimplexFault<C::Name>>
    requires { IsPacking (C.rows cols.old) (C.bound cols.old) (IsProgramColumn (C.rows cols.old) (C.slack cols.old) (C.is_listed cols.old)) }
    ensures same { IsSameProgram (C.rows cols.old) (C.rows cols.new) (C.bound cols.old) (C.bound cols.new) (C.slack cols.old)
        (C.slack cols.new) (C.is_listed cols.old) (C.is_listed cols.new) }
    ensures answer { IsSimplexAnswer (C.rows cols.old) (C.bound cols.old) (C.slack cols.old) (C.is_listed cols.old) result }
{
    let mut basis = slack_basis(alloc, cols)?;
    loop {
        match take_turn(cols, &mut basis) {
            Turn::Again => {}
            Turn::Best => return finish(alloc, basis),
            Turn::Unbounded => unreachable!(),
            Turn::Wide(kind) => return Err(stopped(basis, kind)),
            Turn::NoMemory => return Err(SimplexFault::NoMemory),
        }
    }
}
