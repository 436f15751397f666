ghost use Rattle.std.{specs.Prelude.{◌≡◌, ◌*◌, ◌/◌, ◌<◌, ◌^◌, ℕ, length, IfOk}, specs.Int.◌∣◌};
ghost use Rattle.simplex_core.{specs.Multiples.IsCommonMultiple, specs.inner.Commons.{IsCommonDenominator, fraction_den, value_at}, specs.inner.Shapes.AtEach};

use crate::fraction::Fraction;
use checked_fraction::{Row, gcd};
use net_core::{Copied, List, NoMemory};
use std::alloc::Global;

/// A best basis: how much is taken of each of its columns, as values over one denominator, and the prices of the rows.
#[derive(Drop)]
pub struct Optimum<N> {
    /// The names of the columns, one per row.
    pub basis: List<N>,
    /// The denominator of the values.
    pub den: u64,
    /// The numerators of the values, one per column of the basis.
    pub values: List<u128>,
    /// The prices, one per row, over a denominator of their own.
    pub duals: Row,
}

impl<N: Copied> Copied for Optimum<N> {
    fn copy(&self) -> Result<Optimum<N>, NoMemory> {
        Ok(Optimum {
            basis: self.basis.copy()?,
            den: self.den,
            values: self.values.copy()?,
            duals: self.duals.copy()?,
        })
    }
}

/// The least common multiple of narrow numbers, which need not be narrow.
fn multiple(a: u64, b: u64) -> u128
    requires a { (0 < a) × (a < 2 ^ 62) }
    requires b { (0 < b) × (b < 2 ^ 62) }
    ensures some { 0 < result }
    ensures first { a ∣ result }
    ensures second { b ∣ result }
    ensures least { (c : ℕ) → a ∣ c → b ∣ c → result ∣ c }
{
    (a as u128 / gcd(a as u128, b as u128)) * b as u128
}

/// The least common multiple of two denominators, where it is below 2^62. It takes no memory, and the time of one greatest
/// common divisor.
pub fn common_multiple(a: u64, b: u64) -> Option<u64>
    requires a { (0 < a) × (a < 2 ^ 62) }
    requires b { (0 < b) × (b < 2 ^ 62) }
    ensures { IsCommonMultiple a b result }
{
    let all = multiple(a, b);
    if all < 1 << 62 {
        Some(all as u64)
    } else {
        None
    }
}

/// The denominator of fraction `i`.
fn den_at(fractions: &[Fraction], i: usize) -> u64
    requires { i < length fractions.now }
    ensures value { result ≡ fraction_den fractions.now i }
    ensures some { 0 < result }
    ensures narrow { result < 2 ^ 62 }
{
    fractions[i].den
}

/// The least common multiple of all denominators, where it is narrow.
pub(crate) fn common_denominator(fractions: &[Fraction]) -> Option<u64>
    ensures { IsCommonDenominator fractions.now result }
{
    let mut all = 1;
    for i in 0..fractions.len() {
        let Some(next) = common_multiple(all, den_at(fractions, i)) else {
            return None;
        };
        all = next;
    }
    Some(all)
}

/// The numerator of a fraction over a denominator.
fn numerator_over(fraction: &Fraction, den: u64) -> u128
    requires { fraction.now.num * (den / fraction.now.den) < 2 ^ 124 }
    ensures { result ≡ fraction.now.num * (den / fraction.now.den) }
{
    fraction.num * (den / fraction.den) as u128
}

/// All values over one denominator.
pub(crate) fn values_over(
    alloc: Global,
    fractions: &[Fraction],
    den: u64,
) -> Result<List<u128>, NoMemory>
    requires { (j : ℕ) → j < length fractions.now → value_at fractions.now den j < 2 ^ 124 }
    ensures count { IfOk result (λ values. length values ≡ length fractions.now) }
    ensures values { IfOk result (AtEach (λ j v. v ≡ value_at fractions.now den j)) }
{
    let mut values = List::new(alloc);
    for i in 0..fractions.len() {
        values.push(numerator_over(&fractions[i], den))?;
    }
    Ok(values)
}
