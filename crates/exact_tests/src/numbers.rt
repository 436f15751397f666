ghost use Rattle.std.specs.Prelude.{IsTrue};
ghost use Rattle.checked_fraction.specs.Terms.{IsNarrow};

use checked_fraction::{Sum, cmp, gcd, mul_div};
use std::cmp::Ordering;

/// The greatest number of 128 bits.
const TOP: u128 = u128::MAX;

/// Whether a number is below 2^62 in absolute value.
pub(crate) fn is_narrow(n: i64) -> bool
    ensures { IsTrue result → IsNarrow n }
{
    n.unsigned_abs() < 1 << 62
}

/// Two numbers and their greatest common divisor, which is the other one if one of them is 0.
const DIVISORS: [(u128, u128, u128); 6] = [
    (0, 0, 0),
    (0, 5, 5),
    (7, 0, 7),
    (12, 18, 6),
    (1 << 100, 3 << 90, 1 << 90),
    (TOP, 1 << 127, 1),
];

#[test]
fn common_divisors(rt: HostRuntime) {
    for (a, b, want) in &DIVISORS {
        assert!(rt; gcd(*a, *b) == *want);
    }
}

/// Two fractions, each a numerator and a denominator, and how they compare.
type CompareRow = ([u128; 2], [u128; 2], Ordering);

const COMPARED: [CompareRow; 5] = [
    ([1, 3], [2, 6], Ordering::Equal),
    ([0, 3], [1, TOP], Ordering::Less),
    ([TOP, TOP - 1], [TOP - 1, TOP - 2], Ordering::Less),
    ([TOP - 2, TOP - 1], [TOP - 3, TOP - 2], Ordering::Greater),
    ([1 << 64, 1], [1 << 127, 1 << 63], Ordering::Equal),
];

fn compare_so(row: &CompareRow) -> bool {
    let ([a, b], [c, d], want) = *row;
    b > 0 && d > 0 && cmp(a, b, c, d) == want
}

#[test]
fn fractions_compare(rt: HostRuntime) {
    for i in 0..COMPARED.len() {
        assert!(rt; compare_so(&COMPARED[i]), "row {i}");
    }
}

/// Two factors, a divisor, and the whole part of the quotient of the product.
type QuotientRow = (u64, u64, u128, u128);

const QUOTIENTS: [QuotientRow; 3] = [
    (7, 3, 2, 10),
    (u64::MAX, u64::MAX, 1, TOP - (u64::MAX as u128 * 2)),
    (u64::MAX, 1, TOP, 0),
];

fn is_quotient(row: &QuotientRow) -> bool {
    let (a, b, c, want) = *row;
    c > 0 && mul_div(a, b, c) == want
}

#[test]
fn quotients_of_products(rt: HostRuntime) {
    for i in 0..QUOTIENTS.len() {
        assert!(rt; is_quotient(&QUOTIENTS[i]), "row {i}");
    }
}

/// Whether a sum of more than 2^124 isn't given, and a sum from which that is taken off again is right.
fn is_past_and_back() -> bool {
    let top = (1 << 62) - 1;
    let mut sum = Sum::new();
    sum.add(&top, &top);
    sum.add(&top, &top);
    let past = sum.within();
    sum.subtract(&top, &top);
    sum.subtract(&top, &top);
    sum.add_wide(&-3, &(1 << 70));
    past.is_none() && sum.within() == Some(-3 << 70) && sum.is_negative()
}

/// Whether the size of the sum of -3 and 4 times 2^70 is 2^70.
fn has_size() -> bool {
    let mut sum = Sum::new();
    sum.add_wide(&-3, &(1 << 70));
    sum.add_wide(&4, &(1 << 70));
    sum.size() == 1 << 70
}

#[test]
fn sums_past_128_bits(rt: HostRuntime) {
    assert!(rt; is_past_and_back());
    assert!(rt; has_size());
}
