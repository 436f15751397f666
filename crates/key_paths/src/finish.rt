ghost use Rattle.std.{specs.Prelude.{◌≡◌, ◌≢◌, ◌<◌, ◌≤◌, ◌+◌, ◌*◌, ◌/◌, ◌^◌, ◌++◌, ◌*ℤ◌, ◌≤ℤ◌, ◌<ℤ◌, ℕ, pos, length, get_or, unsigned_abs, IfOk, IfSome, IfNone, MatchOption, slice_set}, specs.Int.◌∣◌};
ghost use Rattle.checked_fraction.specs.Terms.{num, IsNarrow, IsInLowestTerms};
ghost use Rattle.simplex_law.specs.Terms.{unit_vector};
ghost use Rattle.simplex_core.specs.Terms.{IsDenominator, HaveNoDenominator};
ghost use Rattle.key_rows.specs.Terms.{IsShapedBasis};
ghost use Rattle.key_paths.specs.inner.Ends.{row_den, key_over, role_over, FitOver, HasFittingValues, AreApartPlaces, AreValuesOver, IsEndOf, IsWideEnd, IsKeyedEnd};

use checked_fraction::{Row, size_of_den};
use key_rows::{Keyed, joined_common};
use net_core::{List, NoMemory, RouteColumn, WideKind};
use simplex_core::{Optimum, SimplexFault};
use std::alloc::Global;

/// The least common multiple of the denominators of all rows, where it is below 2^62.
fn common_of_all(rows: &[Row]) -> Option<u64>
    ensures none { IfNone result (HaveNoDenominator (row_den rows.now) (length rows.now)) }
    ensures some { IfSome result (IsDenominator (row_den rows.now) (length rows.now)) }
{
    let mut all = 1;
    for i in 0..rows.len() {
        let Some(next) = joined_common(all, size_of_den(&rows[i])) else {
            return None;
        };
        all = next;
    }
    Some(all)
}

/// A row's value, over the common denominator.
fn value_over(value: u128, row: &Row, all: u64) -> u128
    requires { value * (all / unsigned_abs row.now.den) < 2 ^ 124 }
    ensures { result ≡ value * (all / unsigned_abs row.now.den) }
{
    value * (all / size_of_den(row)) as u128
}

/// A row's value, over the common denominator, where the row is one of the demand; 0 where it isn't.
fn own_over(value: u128, row: &Row, owner: u32, demand: u32, all: u64) -> u128
    requires { value * (all / unsigned_abs row.now.den) < 2 ^ 124 }
    ensures { pos result ≡ (unit_vector owner demand *ℤ pos (all / unsigned_abs row.now.den)) *ℤ pos value }
{
    if owner == demand {
        value_over(value, row, all)
    } else {
        0
    }
}

/// A bound, over the common denominator.
fn bound_over(bound: &i64, all: u64) -> u128
    requires positive { pos 0 ≤ℤ bound.now }
    requires narrow { IsNarrow bound.now }
    requires low { all < 2 ^ 62 }
    ensures { pos result ≡ pos all *ℤ bound.now }
{
    all as u128 * bound.unsigned_abs() as u128
}

/// What a demand's rows leave of its bound, over the common denominator.
fn key_left(keyed: &Keyed, demand: u32, all: u64) -> u128
    requires shaped { IsShapedBasis (length keyed.now.rows) (length keyed.now.duals) keyed.now }
    requires demand { demand < length keyed.now.duals }
    requires low { all < 2 ^ 62 }
    requires fit { FitOver keyed.now all }
    ensures { pos result ≡ key_over keyed.now all demand (length keyed.now.rows) }
{
    let rows = keyed.rows.items();
    let mut left = bound_over(&keyed.bounds.items()[rows.len() + demand as usize], all);
    for i in 0..rows.len() {
        let own = own_over(
            keyed.values.items()[i],
            &rows[i],
            keyed.owners.items()[i],
            demand,
            all,
        );
        left -= own;
    }
    left
}

/// The value of the column in a role, over the common denominator.
fn value_in_role(keyed: &Keyed, role: usize, all: u64) -> u128
    requires shaped { IsShapedBasis (length keyed.now.rows) (length keyed.now.duals) keyed.now }
    requires role { role < length keyed.now.places }
    requires low { all < 2 ^ 62 }
    requires fit { FitOver keyed.now all }
    ensures { pos result ≡ role_over keyed.now all role }
{
    let rows = keyed.rows.items();
    if role < rows.len() {
        value_over(keyed.values.items()[role], &rows[role], all)
    } else {
        key_left(keyed, (role - rows.len()) as u32, all)
    }
}

/// Writes the values of all columns at their places.
fn write_values(values: &mut [u128], keyed: &Keyed, all: u64)
    requires shaped { IsShapedBasis (length keyed.now.rows) (length keyed.now.duals) keyed.now }
    requires count { length values.old ≡ length keyed.now.places }
    requires apart { AreApartPlaces keyed.now.places }
    requires low { all < 2 ^ 62 }
    requires fit { FitOver keyed.now all }
    ensures count { length values.new ≡ length values.old }
    ensures values { AreValuesOver keyed.now all values.new }
{
    let places = keyed.places.items();
    for role in 0..places.len() {
        values[places[role] as usize] = value_in_role(keyed, role, all);
    }
}

/// The values of all columns, by place.
fn values_over(alloc: Global, keyed: &Keyed, all: u64) -> Result<List<u128>, NoMemory>
    requires shaped { IsShapedBasis (length keyed.now.rows) (length keyed.now.duals) keyed.now }
    requires apart { AreApartPlaces keyed.now.places }
    requires low { all < 2 ^ 62 }
    requires fit { FitOver keyed.now all }
    ensures count { IfOk result (λ values. length values ≡ length keyed.now.places) }
    ensures values { IfOk result (AreValuesOver keyed.now all) }
{
    let mut values = List::filled(alloc, 0, keyed.places.len())?;
    write_values(values.items_mut(), keyed, all);
    Ok(values)
}

/// Numbers over a denominator, as a row.
fn row_of(nums: List<i64>, den: &i64) -> Row
    requires positive { pos 0 <ℤ den.now }
    requires narrow { (k : ℕ) → IsNarrow (num nums k) }
    requires narrow_den { IsNarrow den.now }
    requires lowest { IsInLowestTerms (length nums) (num nums) den.now }
    requires short { length nums < 2 ^ 32 }
    ensures nums { result.nums ≡ nums }
    ensures den { result.den ≡ den.now }
{
    Row { nums, den: *den }
}

/// The prices of the links and then those of the demands, in one row.
fn whole_duals(alloc: Global, keyed: &Keyed) -> Result<Row, NoMemory>
    requires { IsShapedBasis (length keyed.now.rows) (length keyed.now.duals) keyed.now }
    ensures nums { IfOk result (λ row. row.nums ≡ keyed.now.prices.nums ++ keyed.now.duals) }
    ensures den { IfOk result (λ row. row.den ≡ keyed.now.prices.den) }
{
    let mut nums = List::new(alloc);
    nums.append(keyed.prices.nums())?;
    nums.append(keyed.duals.items())?;
    Ok(row_of(nums, &keyed.prices.den))
}

/// What an optimum has beside its names.
#[derive(Drop)]
struct Ended {
    den: u64,
    values: List<u128>,
    duals: Row,
}

/// The values and prices of a best basis, unless their denominator is too wide.
fn end_of(alloc: Global, keyed: &Keyed) -> Result<Option<Ended>, NoMemory>
    requires shaped { IsShapedBasis (length keyed.now.rows) (length keyed.now.duals) keyed.now }
    requires apart { AreApartPlaces keyed.now.places }
    requires fit { HasFittingValues keyed.now }
    ensures { IfOk result (λ found. MatchOption found (IsWideEnd keyed.now WideKind.Common) (IsEndOf keyed.now)) }
{
    let Some(den) = common_of_all(keyed.rows.items()) else {
        return Ok(None);
    };
    let values = values_over(alloc, keyed, den)?;
    let duals = whole_duals(alloc, keyed)?;
    Ok(Some(Ended { den, values, duals }))
}

/// The names of a basis.
pub(crate) fn names_of(keyed: Keyed) -> List<RouteColumn>
    ensures { result ≡ keyed.names }
{
    keyed.names
}

/// The optimum at a best basis, unless the denominator of its values is too wide.
pub(crate) fn finish(
    alloc: Global,
    keyed: Keyed,
) -> Result<Optimum<RouteColumn>, SimplexFault<RouteColumn>>
    requires shaped { IsShapedBasis (length keyed.rows) (length keyed.duals) keyed }
    requires apart { AreApartPlaces keyed.places }
    requires fit { HasFittingValues keyed }
    ensures { IsKeyedEnd keyed result }
{
    let found = end_of(alloc, &keyed);
    let basis = names_of(keyed);
    match found {
        Ok(Some(end)) => Ok(Optimum {
            basis,
            den: end.den,
            values: end.values,
            duals: end.duals,
        }),
        Ok(None) => Err(SimplexFault::Wide {
            basis,
            kind: WideKind::Common,
        }),
        Err(NoMemory) => Err(SimplexFault::NoMemory),
    }
}
