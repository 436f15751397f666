ghost use Rattle.std.{specs.Prelude.{◌≡◌, ◌<◌, ◌*◌, ◌^◌, ◌*ℤ◌, ◌<ℤ◌, ◌↔◌, ◌⊎◌, ℕ, pos, length, false, IsTrue}, specs.Ordering.nat_cmp};
ghost use Rattle.checked_fraction.specs.Terms.{num, IsNarrow};
ghost use Rattle.simplex_core.specs.Terms.{HasOrder};
ghost use Rattle.key_law.specs.Terms.{IsRoleFirst, IsTieFirst};

use checked_fraction::cmp;
use simplex_core::compare_numbers;
use std::cmp::Ordering;

/// A column of the basis that may leave: its role, and its value and its product with the entering column over one
/// common factor.
#[derive(Clone, Copy)]
pub(crate) struct Candidate {
    pub(crate) role: u32,
    pub(crate) value: u128,
    pub(crate) product: i128,
}

fn is_word(a: u128) -> bool
    ensures { IsTrue result ↔ (a < 2 ^ 64) }
{
    a <= u64::MAX as u128
}

fn word_product(a: u64, b: u64) -> u128
    ensures { result ≡ a * b }
{
    a as u128 * b as u128
}

/// How `a / b` compares with `c / d` of numbers of one machine word.
fn compare_words(a: u64, b: u64, c: u64, d: u64) -> Ordering
    ensures { result ≡ nat_cmp (a * d) (c * b) }
{
    word_product(a, d).cmp(&word_product(c, b))
}

/// How `a / b` compares with `c / d`, by products where each is one machine word.
fn compare_fractions(a: u128, b: u128, c: u128, d: u128) -> Ordering
    requires first { 0 < b }
    requires second { 0 < d }
    ensures { result ≡ nat_cmp (a * d) (c * b) }
{
    if is_word(a) && is_word(b) && is_word(c) && is_word(d) {
        return compare_words(a as u64, b as u64, c as u64, d as u64);
    }
    cmp(a, b, c, d)
}

/// How the ratios of the values to the products compare.
pub(crate) fn compare_values(first: &Candidate, second: &Candidate) -> Ordering
    requires first { pos 0 <ℤ first.now.product }
    requires second { pos 0 <ℤ second.now.product }
    ensures { HasOrder (pos first.now.value *ℤ second.now.product) (pos second.now.value *ℤ first.now.product) result }
{
    compare_fractions(
        first.value,
        first.product.unsigned_abs(),
        second.value,
        second.product.unsigned_abs(),
    )
}

/// Whether a role comes before another with which it ties: a row of a link before a key, and the key of a later
/// demand before that of an earlier one.
fn role_first(links: u32, first: u32, second: u32) -> bool
    requires { first ≡ second → first < links }
    ensures yes { IsTrue result → IsRoleFirst links first second }
    ensures no { result ≡ false → IsRoleFirst links second first }
{
    first < links || links <= second && second < first
}

/// Whether the first role comes before the second, where the ratios of their values tie: by the numbers over the products, or else by
/// the roles.
pub(crate) fn tie_first(
    first: u32,
    row: &[i64],
    p: &i128,
    second: u32,
    other: &[i64],
    q: &i128,
) -> bool
    requires equal { length row.now ≡ length other.now }
    requires short { length row.now < 2 ^ 32 }
    requires row { (k : ℕ) → IsNarrow (num row.now k) }
    requires other { (k : ℕ) → IsNarrow (num other.now k) }
    requires p { pos 0 <ℤ p.now }
    requires q { pos 0 <ℤ q.now }
    requires apart { first ≡ second → first < length row.now }
    ensures yes { IsTrue result → IsTieFirst (length row.now) (num row.now) p.now (num other.now) q.now first second }
    ensures no { result ≡ false → IsTieFirst (length row.now) (num other.now) q.now (num row.now) p.now second first }
{
    match compare_numbers(row, p, other, q) {
        Ordering::Less => true,
        Ordering::Greater => false,
        Ordering::Equal => role_first(row.len() as u32, first, second),
    }
}
