ghost use Rattle.std.{specs.Prelude.{◌≡◌, ◌+◌, ◌*◌, ◌<◌, ◌≤◌, ◌^◌, ◌+ℤ◌, ◌-ℤ◌, ◌*ℤ◌, ◌<ℤ◌, ◌≤ℤ◌, ℕ, pos, length, unsigned_abs, cond, eqb, IfSome, IfNone}, specs.Int.◌∣◌};
ghost use Rattle.checked_fraction.specs.Terms.{num, IsNarrow, total, IsExact, HasRoom};
ghost use Rattle.simplex_law.specs.Terms.{unit_vector};
ghost use Rattle.simplex_core.specs.Terms.{IsCommonMultiple, IsDenominator, HaveNoDenominator};
ghost use Rattle.key_rows.{specs.KeyRows.{AreWeights, IsOwn, amounts, left_over_rows, own_den}, specs.inner.Written.AreWritten};

use checked_fraction::{Row, Sum, size_of_den};
use net_core::List;
use simplex_core::common_multiple;

/// The denominator of a row where it is one of the demand, and 1 where it isn't.
fn own_den_of(row: &Row, owner: u32, demand: u32) -> u64
    ensures value { result ≡ cond (eqb owner demand) (unsigned_abs row.now.den) 1 }
    ensures some { 0 < result }
    ensures narrow { result < 2 ^ 62 }
{
    if owner == demand { size_of_den(row) } else { 1 }
}

/// The least common multiple of one so far and a denominator, where it is below 2^62. It takes the time of one greatest common divisor, and no
/// memory.
pub fn joined_common(all: u64, den: u64) -> Option<u64>
    requires all { (0 < all) × (all < 2 ^ 62) }
    requires den { (0 < den) × (den < 2 ^ 62) }
    ensures { IsCommonMultiple all den result }
{
    if den == 1 {
        return Some(all);
    }
    common_multiple(all, den)
}

/// The least common multiple of the denominators of a demand's rows, where it is below 2^62.
fn common_of(rows: &[Row], owners: &[u32], demand: u32) -> Option<u64>
    requires { length owners.now ≡ length rows.now }
    ensures none { IfNone result (HaveNoDenominator (own_den rows.now owners.now demand) (length rows.now)) }
    ensures some { IfSome result (IsDenominator (own_den rows.now owners.now demand) (length rows.now)) }
{
    let mut all = 1;
    for i in 0..rows.len() {
        let den = own_den_of(&rows[i], owners[i], demand);
        let Some(next) = joined_common(all, den) else {
            return None;
        };
        all = next;
    }
    Some(all)
}

/// How often a denominator goes into a common multiple.
fn weight_of(row: &Row, all: u64) -> i64
    requires low { all < 2 ^ 62 }
    requires divides { unsigned_abs row.now.den ∣ all }
    ensures value { result *ℤ row.now.den ≡ pos all }
    ensures narrow { IsNarrow result }
{
    (all / size_of_den(row)) as i64
}

/// The weight of a row of the demand, and that so far of another one.
fn next_weight(row: &Row, owner: u32, demand: u32, all: u64, weight: &i64) -> i64
    requires low { all < 2 ^ 62 }
    requires divides { owner ≡ demand → unsigned_abs row.now.den ∣ all }
    requires narrow { IsNarrow weight.now }
    ensures value { owner ≡ demand → result *ℤ row.now.den ≡ pos all }
    ensures narrow { IsNarrow result }
{
    if owner == demand {
        weight_of(row, all)
    } else {
        *weight
    }
}

/// Writes what brings each row of a demand over the common multiple.
fn write_weights(rows: &[Row], owners: &[u32], demand: u32, all: u64, weights: &mut [i64])
    requires owners { length owners.now ≡ length rows.now }
    requires count { length weights.old ≡ length rows.now }
    requires all { IsDenominator (own_den rows.now owners.now demand) (length rows.now) all }
    requires narrow { (i : ℕ) → IsNarrow (num weights.old i) }
    ensures count { length weights.new ≡ length weights.old }
    ensures written { AreWritten rows.now owners.now weights.new demand all (length rows.now) }
{
    for i in 0..rows.len() {
        weights[i] = next_weight(&rows[i], owners[i], demand, all, &weights[i]);
    }
}

/// The least common multiple of the denominators of a demand's rows, where it is below 2^62; the weights then bring each over it.
pub(crate) fn weigh(
    rows: &[Row],
    owners: &[u32],
    demand: u32,
    weights: &mut List<i64>,
) -> Option<i64>
    requires owners { length owners.now ≡ length rows.now }
    requires count { length weights.old ≡ length rows.now }
    requires narrow { (i : ℕ) → IsNarrow (num weights.old i) }
    ensures count { length weights.new ≡ length weights.old }
    ensures narrow { (i : ℕ) → IsNarrow (num weights.new i) }
    ensures none { IfNone result (HaveNoDenominator (own_den rows.now owners.now demand) (length rows.now)) }
    ensures some { IfSome result (AreWeights rows.now owners.now weights.new demand) }
{
    let Some(all) = common_of(rows, owners, demand) else {
        return None;
    };
    write_weights(rows, owners, demand, all, weights.items_mut());
    Some(all as i64)
}

fn negated(a: &i128) -> i128
    requires { unsigned_abs a.now < 2 ^ 76 }
    ensures value { result ≡ pos 0 -ℤ a.now }
    ensures bound { unsigned_abs result < 2 ^ 76 }
{
    -*a
}

/// Takes a row's number times its weight away, if the row is one of the demand.
fn take(sum: &mut Sum, owner: u32, weight: &i64, number: &i128, demand: u32)
    requires high { unsigned_abs sum.old.high ≤ 2 ^ 119 }
    requires low { sum.old.low ≤ 2 ^ 119 }
    requires weight { IsNarrow weight.now }
    requires number { unsigned_abs number.now < 2 ^ 76 }
    ensures total { total sum.new ≡ total sum.old -ℤ (unit_vector owner demand *ℤ weight.now) *ℤ number.now }
    ensures high { unsigned_abs sum.new.high ≤ unsigned_abs sum.old.high + 2 ^ 77 }
    ensures low { sum.new.low ≤ sum.old.low + 2 ^ 62 }
{
    if owner == demand {
        sum.add_wide(weight, &negated(number));
    }
}

/// The product of a key's row with a column, over the common multiple of its demand's rows, unless it is 2^124 or more.
/// `own` is the column's entry in the demand's row.
pub(crate) fn step_of(
    owners: &[u32],
    weights: &[i64],
    products: &[i128],
    demand: u32,
    own: &i64,
    all: &i64,
) -> Option<i128>
    requires short { length owners.now < 2 ^ 32 }
    requires count { length weights.now ≡ length owners.now }
    requires products { length products.now ≡ length owners.now }
    requires weights { (i : ℕ) → IsNarrow (num weights.now i) }
    requires low { (i : ℕ) → i < length products.now → unsigned_abs (num products.now i) < 2 ^ 76 }
    requires own { IsNarrow own.now }
    requires all { IsNarrow all.now }
    ensures { IsExact (left_over_rows owners.now weights.now demand all.now own.now (num products.now) (length owners.now)) result }
{
    let mut sum = Sum::new();
    sum.add(all, own);
    for i in 0..owners.len() {
        take(&mut sum, owners[i], &weights[i], &products[i], demand);
    }
    sum.within()
}

/// A row's value times its weight, where the row is one of the demand.
fn taken(owner: u32, weight: &i64, value: u128, demand: u32) -> u128
    requires positive { owner ≡ demand → pos 0 ≤ℤ weight.now }
    requires fits { owner ≡ demand → unsigned_abs weight.now * value ≤ 2 ^ 124 }
    ensures { pos result ≡ (unit_vector owner demand *ℤ weight.now) *ℤ pos value }
{
    if owner == demand {
        weight.unsigned_abs() as u128 * value
    } else {
        0
    }
}

/// The product of a bound and the common multiple.
fn whole_value(bound: &i64, all: &i64) -> u128
    requires bound { IsNarrow bound.now }
    requires all { IsNarrow all.now }
    requires bound_positive { pos 0 ≤ℤ bound.now }
    requires all_positive { pos 0 ≤ℤ all.now }
    ensures value { pos result ≡ all.now *ℤ bound.now }
    ensures low { result < 2 ^ 124 }
{
    all.unsigned_abs() as u128 * bound.unsigned_abs() as u128
}

/// The value of a key over the common multiple: what the columns in the demand's rows leave of its bound, which is known not to pass it.
pub(crate) fn key_value(
    owners: &[u32],
    weights: &[i64],
    values: &[u128],
    demand: u32,
    bound: &i64,
    all: &i64,
) -> u128
    requires count { length weights.now ≡ length owners.now }
    requires values { length values.now ≡ length owners.now }
    requires positive { (i : ℕ) → i < length owners.now → IsOwn owners.now demand i → pos 0 ≤ℤ num weights.now i }
    requires bound { IsNarrow bound.now }
    requires all { IsNarrow all.now }
    requires bound_positive { pos 0 ≤ℤ bound.now }
    requires all_positive { pos 0 ≤ℤ all.now }
    requires left { (n : ℕ) → n ≤ length owners.now → pos 0 ≤ℤ left_over_rows owners.now weights.now demand all.now bound.now (amounts values.now) n }
    ensures { pos result ≡ left_over_rows owners.now weights.now demand all.now bound.now (amounts values.now) (length owners.now) }
{
    let mut left = whole_value(bound, all);
    for i in 0..owners.len() {
        left -= taken(owners[i], &weights[i], values[i], demand);
    }
    left
}
