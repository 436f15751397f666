ghost use Rattle.std.{specs.Prelude.{◌≡◌, ◌<◌, ◌≤◌, ◌^◌, ◌/◌, ◌<ℤ◌, ℕ, pos, length, int_div, unsigned_abs, IsTrue, false}, specs.Int.IsGcd};
ghost use Rattle.checked_fraction.specs.Terms.{num, IsNarrow};
ghost use Rattle.simplex_core.{specs.Turned.{IsNarrowOver, FindsWideProduct}, specs.inner.Factors.AreFactorsOf};

use checked_fraction::{gcd, is_narrow, narrowed};

/// What rows are combined by: the product of a row and the pivot, divided by a common divisor.
#[derive(Clone, Copy)]
pub(crate) struct Factors {
    pub(crate) p: i64,
    pub(crate) q: i64,
}

/// The greatest common divisor of a product and the pivot.
fn common_divisor(p: &i128, q: &i128) -> u128
    requires positive { pos 0 <ℤ q.now }
    requires narrow { IsNarrow q.now }
    ensures gcd { IsGcd (unsigned_abs p.now) (unsigned_abs q.now) result }
    ensures some { 0 < result }
    ensures narrow { result < 2 ^ 62 }
{
    gcd(p.unsigned_abs(), q.unsigned_abs())
}

fn quotient(a: &i128, g: u128) -> i128
    requires some { 0 < g }
    requires narrow { g < 2 ^ 62 }
    ensures { result ≡ int_div a.now (pos g) }
{
    *a / g as i128
}

/// A number divided by `g`, where that is narrow.
fn divided(a: &i128, g: u128) -> i64
    requires some { 0 < g }
    requires narrow { g < 2 ^ 62 }
    requires low { unsigned_abs a.now / g < 2 ^ 62 }
    ensures value { result ≡ int_div a.now (pos g) }
    ensures narrow { IsNarrow result }
{
    narrowed(&quotient(a, g))
}

/// Whether a product, divided by its common divisor with the pivot, is narrow.
fn is_narrow_over(p: &i128, q: &i128) -> bool
    requires positive { pos 0 <ℤ q.now }
    requires narrow { IsNarrow q.now }
    ensures yes { IsTrue result → IsNarrowOver q.now p.now }
    ensures no { result ≡ false → 2 ^ 62 ≤ unsigned_abs p.now }
{
    if is_narrow(p) {
        return true;
    }
    p.unsigned_abs() / common_divisor(p, q) < 1 << 62
}

fn plain(p: &i128, q: &i128) -> Factors
    requires p { IsNarrow p.now }
    requires q { IsNarrow q.now }
    ensures p { result.p ≡ p.now }
    ensures q { result.q ≡ q.now }
{
    Factors {
        p: narrowed(p),
        q: narrowed(q),
    }
}

fn over(p: &i128, q: &i128, g: u128) -> Factors
    requires some { 0 < g }
    requires narrow { g < 2 ^ 62 }
    requires p { unsigned_abs p.now / g < 2 ^ 62 }
    requires q { unsigned_abs q.now / g < 2 ^ 62 }
    ensures p { result.p ≡ int_div p.now (pos g) }
    ensures q { result.q ≡ int_div q.now (pos g) }
    ensures narrow_p { IsNarrow result.p }
    ensures narrow_q { IsNarrow result.q }
{
    Factors {
        p: divided(p, g),
        q: divided(q, g),
    }
}

/// A product and the pivot, divided by their common divisor where the product is wide.
pub(crate) fn factors_of(p: &i128, q: &i128) -> Factors
    requires positive { pos 0 <ℤ q.now }
    requires narrow { IsNarrow q.now }
    requires over { IsNarrowOver q.now p.now }
    ensures p { IsNarrow result.p }
    ensures q { IsNarrow result.q }
    ensures positive { pos 0 <ℤ result.q }
    ensures times { AreFactorsOf p.now q.now result }
{
    if is_narrow(p) {
        return plain(p, q);
    }
    let g = common_divisor(p, q);
    over(p, q, g)
}

/// A row whose product with a column stays wide when it and the pivot of row `r` are divided by what they have in common:
/// row `r` itself, the objective row with its reduced cost, numbered by the count of rows, or another row. None where each
/// product gets narrow, which is below 2^62 in absolute value.
///
/// It takes no memory. The time grows with the count of rows, and a row costs a division only where its product is wide.
pub fn wide_product(products: &[i128], cost: &i128, r: usize) -> Option<u32>
    requires short { length products.now < 2 ^ 32 }
    requires inside { r < length products.now }
    requires positive { pos 0 <ℤ num products.now r }
    ensures { FindsWideProduct products.now cost.now r result }
{
    let pivot = &products[r];
    if !is_narrow(pivot) {
        return Some(r as u32);
    }
    if !is_narrow_over(cost, pivot) {
        return Some(products.len() as u32);
    }
    for i in 0..products.len() {
        if !is_narrow_over(&products[i], pivot) {
            return Some(i as u32);
        }
    }
    None
}
