ghost use Rattle.std.specs.Prelude.{◌≡◌, ◌+◌, ◌*◌, ◌<◌, ◌≤◌, ◌^◌, ◌+ℤ◌, ◌*ℤ◌, ℕ, pos, unsigned_abs, length, IfSome, IfNone};
ghost use Rattle.checked_fraction.specs.Terms.{num, IsNarrow};
ghost use Rattle.simplex_law.specs.Terms.{dot};
ghost use Rattle.simplex_core.{specs.inner.Commons.{IsFractionOf, HaveFractions}, specs.inner.Products.AreBoundedRows, specs.inner.Values.{sizes_of, IsValueOf}};

use crate::fraction::{Fraction, fraction_of};
use checked_fraction::{Row, product, size_of_den};
use net_core::{List, NoMemory};
use std::alloc::Global;

/// The limit of the absolute products of a row's numbers with the bounds.
const LIMIT: u128 = 1 << 126;

/// The sum of some products, and that of their absolute values.
#[derive(Clone, Copy)]
struct Value {
    sizes: u128,
    value: i128,
}

impl Value {
    fn new() -> Value
        ensures sizes { result.sizes ≡ 0 }
        ensures value { result.value ≡ pos 0 }
    {
        Value { sizes: 0, value: 0 }
    }

    /// Adds a product.
    fn put(&mut self, product: i128)
        requires product { unsigned_abs product < 2 ^ 124 }
        requires low { self.old.sizes < 2 ^ 126 }
        requires within { unsigned_abs self.old.value ≤ self.old.sizes }
        ensures sizes { self.new.sizes ≡ self.old.sizes + unsigned_abs product }
        ensures value { self.new.value ≡ self.old.value +ℤ product }
        ensures within { unsigned_abs self.new.value ≤ self.new.sizes }
    {
        self.sizes += product.unsigned_abs();
        self.value += product;
    }

    /// Adds `a * b`.
    fn add(&mut self, a: &i64, b: &i64)
        requires a { IsNarrow a.now }
        requires b { IsNarrow b.now }
        requires low { self.old.sizes < 2 ^ 126 }
        requires within { unsigned_abs self.old.value ≤ self.old.sizes }
        ensures sizes { self.new.sizes ≡ self.old.sizes + unsigned_abs a.now * unsigned_abs b.now }
        ensures value { self.new.value ≡ self.old.value +ℤ a.now *ℤ b.now }
        ensures within { unsigned_abs self.new.value ≤ self.new.sizes }
    {
        self.put(product(a, b));
    }
}

/// The sum of a row's numbers times the bounds, or none where the absolute products reach the limit.
pub(crate) fn row_value(nums: &[i64], bounds: &[i64]) -> Option<i128>
    requires equal { length nums.now ≡ length bounds.now }
    requires nums { (k : ℕ) → IsNarrow (num nums.now k) }
    requires bounds { (k : ℕ) → IsNarrow (num bounds.now k) }
    ensures { IsValueOf (length nums.now) (num nums.now) (num bounds.now) result }
{
    let mut sums = Value::new();
    for k in 0..nums.len() {
        sums.add(&nums[k], &bounds[k]);
        if sums.sizes >= LIMIT {
            return None;
        }
    }
    Some(sums.value)
}

/// Why there are no values.
#[derive(Clone, Copy)]
pub(crate) enum ValueFault {
    /// The value of the row is too wide.
    Sum(u32),
    /// The common denominator of the values is too wide.
    Common,
    /// The call ran out of memory.
    NoMemory,
}

impl From<NoMemory> for ValueFault {
    ghost use Rattle.std.specs.Prelude.{◌≡◌};
    ghost use Rattle.simplex_core.specs.declared.value.ValueFault.{ValueFault};

    ghost from_gives = { λ _ fault. fault ≡ ValueFault.NoMemory };

    fn from(_error: NoMemory) -> ValueFault {
        ValueFault::NoMemory
    }
}

impl<T: Drop> From<(T, NoMemory)> for ValueFault {
    ghost use Rattle.std.specs.Prelude.{◌≡◌};
    ghost use Rattle.simplex_core.specs.declared.value.ValueFault.{ValueFault};

    ghost from_gives = { λ _ fault. fault ≡ ValueFault.NoMemory };

    fn from(_refused: (T, NoMemory)) -> ValueFault {
        ValueFault::NoMemory
    }
}

/// The value of a row, or none where that is too wide.
fn row_fraction(row: &Row, bounds: &[i64]) -> Option<Fraction>
    requires equal { length row.now.nums ≡ length bounds.now }
    requires bounds { (k : ℕ) → IsNarrow (num bounds.now k) }
    ensures some { IfSome result (IsFractionOf (dot (length bounds.now) (num row.now.nums) (num bounds.now)) row.now.den) }
    ensures none { IfNone result (2 ^ 126 ≤ sizes_of (length bounds.now) (num row.now.nums) (num bounds.now)) }
{
    let value = row_value(row.nums(), bounds)?;
    Some(fraction_of(value.unsigned_abs(), size_of_den(row)))
}

/// The values of all rows.
pub(crate) fn fractions_of(
    alloc: Global,
    rows: &[Row],
    bounds: &[i64],
) -> Result<List<Fraction>, ValueFault>
    requires rows { AreBoundedRows rows.now bounds.now }
    ensures { HaveFractions rows.now (num bounds.now) result }
{
    let mut fractions = List::new(alloc);
    for i in 0..rows.len() {
        let Some(fraction) = row_fraction(&rows[i], bounds) else {
            return Err(ValueFault::Sum(i as u32));
        };
        fractions.push(fraction)?;
    }
    Ok(fractions)
}
