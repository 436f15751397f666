ghost use Rattle.std.specs.Prelude.{◌≡◌, ◌<◌, ◌≤◌, ◌+◌, ◌^◌, ◌*◌, ◌+ℤ◌, ◌-ℤ◌, ◌*ℤ◌, ◌≤ℤ◌, ℕ, pos, length, unsigned_abs};
ghost use Rattle.checked_fraction.specs.Terms.{num, IsNarrow, total};
ghost use Rattle.simplex_law.specs.Terms.{dot};
ghost use Rattle.simplex_core.specs.Terms.{nums_at, IsRectangle};
ghost use Rattle.key_rows.specs.KeyRows.{amounts};

use checked_fraction::{Row, Sum};
use net_core::List;

/// Adds the product of two numbers.
fn add_term(sum: &mut Sum, num: &i64, rest: &i128)
    requires high { unsigned_abs sum.old.high ≤ 2 ^ 119 }
    requires low { sum.old.low ≤ 2 ^ 119 }
    requires num { IsNarrow num.now }
    requires rest { unsigned_abs rest.now < 2 ^ 76 }
    ensures total { total sum.new ≡ total sum.old +ℤ num.now *ℤ rest.now }
    ensures high { unsigned_abs sum.new.high ≤ unsigned_abs sum.old.high + 2 ^ 77 }
    ensures low { sum.new.low ≤ sum.old.low + 2 ^ 62 }
{
    if *num != 0 {
        sum.add_wide(num, rest);
    }
}

/// The value of a row, where that is known to be 0 or more and below 2^124: its product with what the keys leave of the links.
/// It takes time in the number of links.
pub fn worth(nums: &[i64], rest: &[i128]) -> u128
    requires equal { length nums.now ≡ length rest.now }
    requires short { length nums.now < 2 ^ 32 }
    requires nums { (k : ℕ) → IsNarrow (num nums.now k) }
    requires rest { (k : ℕ) → k < length rest.now → unsigned_abs (num rest.now k) < 2 ^ 76 }
    requires high { pos 0 ≤ℤ dot (length nums.now) (num nums.now) (num rest.now) }
    requires low { unsigned_abs (dot (length nums.now) (num nums.now) (num rest.now)) < 2 ^ 124 }
    ensures { pos result ≡ dot (length nums.now) (num nums.now) (num rest.now) }
{
    let mut sum = Sum::new();
    for k in 0..nums.len() {
        add_term(&mut sum, &nums[k], &rest[k]);
    }
    sum.size()
}

/// The value of a row: as it was where the row has no product with the column that enters.
fn next_value(row: &Row, product: &i128, rest: &[i128], value: u128) -> u128
    requires equal { length row.now.nums ≡ length rest.now }
    requires rest { (k : ℕ) → k < length rest.now → unsigned_abs (num rest.now k) < 2 ^ 76 }
    requires high { pos 0 ≤ℤ dot (length rest.now) (num row.now.nums) (num rest.now) }
    requires low { unsigned_abs (dot (length rest.now) (num row.now.nums) (num rest.now)) < 2 ^ 124 }
    requires kept { product.now ≡ pos 0 → pos value ≡ dot (length rest.now) (num row.now.nums) (num rest.now) }
    ensures { pos result ≡ dot (length rest.now) (num row.now.nums) (num rest.now) }
{
    if *product == 0 {
        value
    } else {
        worth(row.nums(), rest)
    }
}

/// Writes the values of the rows that a turn has changed, which are those that have a product with the column.
fn renew_values(values: &mut [u128], rows: &[Row], products: &[i128], rest: &[i128])
    requires count { length values.old ≡ length rows.now }
    requires products { length products.now ≡ length rows.now }
    requires rectangle { IsRectangle (length rest.now) rows.now }
    requires rest { (k : ℕ) → k < length rest.now → unsigned_abs (num rest.now k) < 2 ^ 76 }
    requires high { (i : ℕ) → i < length rows.now → pos 0 ≤ℤ dot (length rest.now) (nums_at rows.now i) (num rest.now) }
    requires low { (i : ℕ) → i < length rows.now → unsigned_abs (dot (length rest.now) (nums_at rows.now i) (num rest.now)) < 2 ^ 124 }
    requires kept { (i : ℕ) → i < length rows.now → num products.now i ≡ pos 0
        → amounts values.old i ≡ dot (length rest.now) (nums_at rows.now i) (num rest.now) }
    ensures count { length values.new ≡ length values.old }
    ensures values { (i : ℕ) → i < length rows.now → amounts values.new i ≡ dot (length rest.now) (nums_at rows.now i) (num rest.now) }
{
    for i in 0..rows.len() {
        values[i] = next_value(&rows[i], &products[i], rest, values[i]);
    }
}

/// Writes the values of the rows that a turn has changed, which are those that have a product with the column that entered.
/// It takes time in the changed rows times the links, and asks for no memory.
pub fn renew_value_list(values: &mut List<u128>, rows: &[Row], products: &[i128], rest: &[i128])
    requires count { length values.old ≡ length rows.now }
    requires products { length products.now ≡ length rows.now }
    requires rectangle { IsRectangle (length rest.now) rows.now }
    requires rest { (k : ℕ) → k < length rest.now → unsigned_abs (num rest.now k) < 2 ^ 76 }
    requires high { (i : ℕ) → i < length rows.now → pos 0 ≤ℤ dot (length rest.now) (nums_at rows.now i) (num rest.now) }
    requires low { (i : ℕ) → i < length rows.now → unsigned_abs (dot (length rest.now) (nums_at rows.now i) (num rest.now)) < 2 ^ 124 }
    requires kept { (i : ℕ) → i < length rows.now → num products.now i ≡ pos 0
        → amounts values.old i ≡ dot (length rest.now) (nums_at rows.now i) (num rest.now) }
    ensures count { length values.new ≡ length values.old }
    ensures values { (i : ℕ) → i < length rows.now → amounts values.new i ≡ dot (length rest.now) (nums_at rows.now i) (num rest.now) }
{
    renew_values(values.items_mut(), rows, products, rest);
}

/// The product of a row with a column times a bound, where that is known to be at most 2^124 in absolute value.
fn bound_times(product: &i128, bound: &i64) -> i128
    requires low { unsigned_abs product.now * unsigned_abs bound.now ≤ 2 ^ 124 }
    ensures value { result ≡ product.now *ℤ bound.now }
    ensures bound { unsigned_abs result ≤ 2 ^ 124 }
{
    *product * *bound as i128
}

/// A value less what a key's column brings, which is known not to be negative.
fn lowered(value: u128, product: &i128, bound: &i64) -> u128
    requires value { value < 2 ^ 124 }
    requires low { unsigned_abs product.now * unsigned_abs bound.now ≤ 2 ^ 124 }
    requires left { pos 0 ≤ℤ (pos value -ℤ product.now *ℤ bound.now) }
    ensures { pos result ≡ pos value -ℤ product.now *ℤ bound.now }
{
    if *product == 0 {
        return value;
    }
    (value as i128 - bound_times(product, bound)).unsigned_abs()
}

/// Takes what a key's column brings away from each value.
fn lower_values(values: &mut [u128], products: &[i128], bound: &i64)
    requires products { length products.now ≡ length values.old }
    requires values { (i : ℕ) → i < length values.old → unsigned_abs (amounts values.old i) < 2 ^ 124 }
    requires low { (i : ℕ) → i < length values.old → unsigned_abs (num products.now i) * unsigned_abs bound.now ≤ 2 ^ 124 }
    requires left { (i : ℕ) → i < length values.old → pos 0 ≤ℤ (amounts values.old i -ℤ num products.now i *ℤ bound.now) }
    ensures count { length values.new ≡ length values.old }
    ensures lowered { (i : ℕ) → i < length values.old → amounts values.new i ≡ amounts values.old i -ℤ num products.now i *ℤ bound.now }
{
    for i in 0..values.len() {
        values[i] = lowered(values[i], &products[i], bound);
    }
}

/// Takes what a key's column brings away from each value.
/// It takes time in the number of rows.
pub fn lower_value_list(values: &mut List<u128>, products: &[i128], bound: &i64)
    requires products { length products.now ≡ length values.old }
    requires values { (i : ℕ) → i < length values.old → unsigned_abs (amounts values.old i) < 2 ^ 124 }
    requires low { (i : ℕ) → i < length values.old → unsigned_abs (num products.now i) * unsigned_abs bound.now ≤ 2 ^ 124 }
    requires left { (i : ℕ) → i < length values.old → pos 0 ≤ℤ (amounts values.old i -ℤ num products.now i *ℤ bound.now) }
    ensures count { length values.new ≡ length values.old }
    ensures lowered { (i : ℕ) → i < length values.old → amounts values.new i ≡ amounts values.old i -ℤ num products.now i *ℤ bound.now }
{
    lower_values(values.items_mut(), products, bound);
}
