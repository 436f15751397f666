ghost use Rattle.std.{specs.Prelude.{◌≡◌, ◌+◌, ◌<◌, ◌≤◌, ◌^◌, ◌*ℤ◌, ◌<ℤ◌, ◌≤ℤ◌, ℤ, ℕ, pos, length, unsigned_abs, IfOk, IfErr, ◌⊎◌}, specs.Option.{ForSome, option_map}};
ghost use Rattle.checked_fraction.specs.Terms.{num, IsNarrow};
ghost use Rattle.simplex_law.specs.Terms.{dot};
ghost use Rattle.simplex_core.{specs.Tables.{nums_at, IsRectangle}, specs.inner.Products.AreBoundedRows, specs.Orders.{HasOrder, ComparesNumbers}, specs.inner.Ratios.{IsPlaced, IsCandidate, HaveRowValues, ComparesRows, IsFirstOf, IsBetter, IsBestBefore, IsLeavingRow}, specs.inner.Values.sizes_of};

use crate::value::row_value;
use checked_fraction::{Row, cmp, is_narrow, narrowed, product};
use net_core::List;
use std::cmp::Ordering;

/// A row that a column may replace: its place, its value, and its product with the column.
#[derive(Clone, Copy)]
struct Candidate {
    row: usize,
    value: u128,
    product: i128,
}

/// A product with a narrow factor.
fn product_with(a: &i64, b: &i128) -> i128
    requires a { IsNarrow a.now }
    requires b { IsNarrow b.now }
    ensures value { result ≡ a.now *ℤ b.now }
{
    product(a, &narrowed(b))
}

/// How two products compare.
fn compare_products(a: &i64, b: &i128, c: &i64, d: &i128) -> Ordering
    requires a { IsNarrow a.now }
    requires b { IsNarrow b.now }
    requires c { IsNarrow c.now }
    requires d { IsNarrow d.now }
    ensures { HasOrder (a.now *ℤ b.now) (c.now *ℤ d.now) result }
{
    let here = product_with(a, b);
    let there = product_with(c, d);
    if here < there {
        Ordering::Less
    } else if there < here {
        Ordering::Greater
    } else {
        Ordering::Equal
    }
}

/// How `a / p` compares with `b / q`.
fn compare_sizes(a: u64, p: &i128, b: u64, q: &i128) -> Ordering
    requires p { pos 0 <ℤ p.now }
    requires q { pos 0 <ℤ q.now }
    ensures { HasOrder (pos a *ℤ q.now) (pos b *ℤ p.now) result }
{
    cmp(a as u128, p.unsigned_abs(), b as u128, q.unsigned_abs())
}

/// How `a / p` compares with `b / q`, for numbers of either sign.
fn compare_fractions(a: &i64, p: &i128, b: &i64, q: &i128) -> Ordering
    requires p { pos 0 <ℤ p.now }
    requires q { pos 0 <ℤ q.now }
    ensures { HasOrder (a.now *ℤ q.now) (b.now *ℤ p.now) result }
{
    if *a < 0 {
        if *b < 0 {
            return compare_sizes(b.unsigned_abs(), q, a.unsigned_abs(), p);
        }
        return Ordering::Less;
    }
    if *b < 0 {
        return Ordering::Greater;
    }
    compare_sizes(a.unsigned_abs(), p, b.unsigned_abs(), q)
}

/// How `a / p` compares with `b / q`, by products where they fit into 128 bits.
fn compare_ratios(a: &i64, p: &i128, b: &i64, q: &i128) -> Ordering
    requires a { IsNarrow a.now }
    requires b { IsNarrow b.now }
    requires p { pos 0 <ℤ p.now }
    requires q { pos 0 <ℤ q.now }
    ensures { HasOrder (a.now *ℤ q.now) (b.now *ℤ p.now) result }
{
    if is_narrow(p) && is_narrow(q) {
        return compare_products(a, q, b, p);
    }
    compare_fractions(a, p, b, q)
}

/// How the numbers `first / p` compare with `second / q`, by the first that differs.
///
/// The numbers 1, 3 over 2 compare with 1, 2 over 2 as greater.
///
/// It is exact and takes no memory. The time grows with the place of the first number that differs; a number costs two
/// products where `p` and `q` are below 2^62, and a few divisions otherwise.
pub fn compare_numbers(first: &[i64], p: &i128, second: &[i64], q: &i128) -> Ordering
    requires equal { length first.now ≡ length second.now }
    requires first { (k : ℕ) → IsNarrow (num first.now k) }
    requires second { (k : ℕ) → IsNarrow (num second.now k) }
    requires p { pos 0 <ℤ p.now }
    requires q { pos 0 <ℤ q.now }
    ensures { ComparesNumbers (length first.now) (λ k. num first.now k *ℤ q.now) (λ k. num second.now k *ℤ p.now) result }
{
    for k in 0..first.len() {
        match compare_ratios(&first[k], p, &second[k], q) {
            Ordering::Equal => {}
            order => return order,
        }
    }
    Ordering::Equal
}

/// How the ratio of the value to the product compares.
fn compare_values(first: &Candidate, second: &Candidate) -> Ordering
    requires first { pos 0 <ℤ first.now.product }
    requires second { pos 0 <ℤ second.now.product }
    ensures { ComparesNumbers 1 (λ k. pos first.now.value *ℤ second.now.product) (λ k. pos second.now.value *ℤ first.now.product) result }
{
    cmp(
        first.value,
        first.product.unsigned_abs(),
        second.value,
        second.product.unsigned_abs(),
    )
}

/// How the ratios of two rows compare.
fn compare_rows(rows: &[Row], first: &Candidate, second: &Candidate) -> Ordering
    requires rectangle { IsRectangle (length rows.now) rows.now }
    requires inside_first { first.now.row < length rows.now }
    requires inside_second { second.now.row < length rows.now }
    requires first { pos 0 <ℤ first.now.product }
    requires second { pos 0 <ℤ second.now.product }
    ensures { ComparesNumbers (length rows.now) (λ k. nums_at rows.now first.now.row k *ℤ second.now.product)
        (λ k. nums_at rows.now second.now.row k *ℤ first.now.product) result }
{
    compare_numbers(
        rows[first.row].nums(),
        &first.product,
        rows[second.row].nums(),
        &second.product,
    )
}

/// How the ratios compare: first those of the values, then those of the rows.
fn compare(rows: &[Row], first: &Candidate, second: &Candidate) -> Ordering
    requires rectangle { IsRectangle (length rows.now) rows.now }
    requires first { IsPlaced (length rows.now) first.now }
    requires second { IsPlaced (length rows.now) second.now }
    ensures { (bound : ℕ → ℤ) → HaveRowValues rows.now bound first.now second.now → ComparesRows rows.now bound first.now second.now result }
{
    match compare_values(first, second) {
        Ordering::Equal => compare_rows(rows, first, second),
        order => order,
    }
}

/// The one of less ratio.
fn lesser(rows: &[Row], best: &Candidate, other: &Candidate) -> Candidate
    requires rectangle { IsRectangle (length rows.now) rows.now }
    requires best { IsPlaced (length rows.now) best.now }
    requires other { IsPlaced (length rows.now) other.now }
    ensures one { (result ≡ best.now) × ((bound : ℕ → ℤ) → HaveRowValues rows.now bound other.now best.now → IsFirstOf rows.now bound best.now other.now)
        ⊎ (result ≡ other.now) × ((bound : ℕ → ℤ) → HaveRowValues rows.now bound other.now best.now → IsFirstOf rows.now bound other.now best.now) }
{
    match compare(rows, other, best) {
        Ordering::Less => *other,
        _ => *best,
    }
}

/// The row of a candidate.
fn row_of(best: &Option<Candidate>) -> Option<usize>
    ensures { result ≡ option_map (λ c. c.row) best.now }
{
    match best {
        Some(best) => Some(best.row),
        None => None,
    }
}

/// Row `i` with its value, unless that is wide.
fn candidate_at(rows: &[Row], bounds: &[i64], products: &[i128], i: usize) -> Result<Candidate, u32>
    requires inside { i < length rows.now }
    requires rows { AreBoundedRows rows.now bounds.now }
    requires products { length products.now ≡ length rows.now }
    requires low { unsigned_abs (num products.now i) < 2 ^ 126 }
    requires positive { pos 0 <ℤ num products.now i }
    requires value { pos 0 ≤ℤ dot (length rows.now) (nums_at rows.now i) (num bounds.now) }
    ensures ok { IfOk result (IsCandidate (length rows.now) rows.now bounds.now products.now) }
    ensures row { IfOk result (λ c. c.row ≡ i) }
    ensures wide { IfErr result (λ k. (k ≡ i) × (2 ^ 126 ≤ sizes_of (length rows.now) (nums_at rows.now i) (num bounds.now))) }
{
    match row_value(rows[i].nums(), bounds) {
        Some(value) => Ok(Candidate {
            row: i,
            value: value.unsigned_abs(),
            product: products[i],
        }),
        None => Err(i as u32),
    }
}

/// The better of those so far and one more.
fn better(rows: &[Row], best: Option<Candidate>, other: Candidate) -> Candidate
    requires rectangle { IsRectangle (length rows.now) rows.now }
    requires best { ForSome best (IsPlaced (length rows.now)) }
    requires other { IsPlaced (length rows.now) other }
    ensures { IsBetter rows.now best other result }
{
    match best {
        Some(best) => lesser(rows, &best, &other),
        None => other,
    }
}

/// The best of the rows up to row `i`, unless the value of that row is wide.
fn next_best(
    rows: &[Row],
    bounds: &[i64],
    products: &[i128],
    best: Option<Candidate>,
    i: usize,
) -> Result<Option<Candidate>, u32>
    requires inside { i < length rows.now }
    requires rows { AreBoundedRows rows.now bounds.now }
    requires products { length products.now ≡ length rows.now }
    requires low { unsigned_abs (num products.now i) < 2 ^ 126 }
    requires value { pos 0 ≤ℤ dot (length rows.now) (nums_at rows.now i) (num bounds.now) }
    requires before { IsBestBefore (length rows.now) rows.now bounds.now products.now i best }
    ensures ok { IfOk result (IsBestBefore (length rows.now) rows.now bounds.now products.now (i + 1)) }
    ensures wide { IfErr result (λ k. (k ≡ i) × (2 ^ 126 ≤ sizes_of (length rows.now) (nums_at rows.now i) (num bounds.now))) }
{
    if products[i] <= 0 {
        return Ok(best);
    }
    let other = candidate_at(rows, bounds, products, i)?;
    Ok(Some(better(rows, best, other)))
}

/// The row that leaves: of those whose product is positive, the first by its ratio. An error names a row whose value is wide.
fn leaving_row(rows: &[Row], bounds: &[i64], products: &[i128]) -> Result<Option<usize>, u32>
    requires rows { AreBoundedRows rows.now bounds.now }
    requires products { length products.now ≡ length rows.now }
    requires low { (k : ℕ) → k < length rows.now → unsigned_abs (num products.now k) < 2 ^ 126 }
    requires values { (k : ℕ) → k < length rows.now → pos 0 ≤ℤ dot (length rows.now) (nums_at rows.now k) (num bounds.now) }
    ensures { IsLeavingRow (length rows.now) rows.now bounds.now products.now result }
{
    let mut best = None;
    for i in 0..rows.len() {
        best = next_best(rows, bounds, products, best, i)?;
    }
    Ok(row_of(&best))
}

/// The row that leaves, of lists.
pub(crate) fn leaving_of(
    rows: &List<Row>,
    bounds: &List<i64>,
    products: &List<i128>,
) -> Result<Option<usize>, u32>
    requires rows { AreBoundedRows rows.now bounds.now }
    requires products { length products.now ≡ length rows.now }
    requires low { (k : ℕ) → k < length rows.now → unsigned_abs (num products.now k) < 2 ^ 126 }
    requires values { (k : ℕ) → k < length rows.now → pos 0 ≤ℤ dot (length rows.now) (nums_at rows.now k) (num bounds.now) }
    ensures { IsLeavingRow (length rows.now) rows.now bounds.now products.now result }
{
    leaving_row(rows.items(), bounds.items(), products.items())
}
