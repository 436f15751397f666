/// Numbers of a row are below this; with wider ones nothing is decided.
pub(crate) const WIDE: u64 = 1 << 31;

/// More steps than the greatest common divisor of two words takes.
const STEPS: u32 = 96;

/// The greatest common divisor by Euclid's algorithm, over words: that of `checked_fraction` divides numbers of 128 bits, and each turn
/// reduces rows.
pub(crate) fn common(a: u64, b: u64) -> u64 {
    if a == 1 || b == 1 {
        return 1;
    }
    let mut greater = a;
    let mut less = b;
    for _ in 0..STEPS {
        if less == 0 {
            return greater;
        }
        let rest = greater % less;
        greater = less;
        less = rest;
    }
    1
}

/// A word as a number with a sign, unless it is too wide.
pub(crate) fn signed(number: u64) -> Option<i64> {
    if number < WIDE {
        Some(number as i64)
    } else {
        None
    }
}

/// A wide number as a narrower one, unless it is too wide.
pub(crate) fn narrowed(number: i128) -> Option<i64> {
    if number > -(1 << 62) && number < 1 << 62 {
        Some(number as i64)
    } else {
        None
    }
}

/// A quotient by a positive number; by another one the number itself.
pub(crate) fn over(number: i64, by: i64) -> i64 {
    if by > 1 { number / by } else { number }
}

/// A quotient by a positive number; by another one the number itself.
pub(crate) fn wide_over(number: i128, by: i64) -> i128 {
    if by <= 1 {
        return number;
    }
    match narrowed(number) {
        Some(number) => over(number, by) as i128,
        None => number / by as i128,
    }
}

/// The least common multiple of positive numbers, unless it is too wide.
pub(crate) fn common_multiple(a: i64, b: i64) -> Option<i64> {
    if b == 1 || a == b {
        return Some(a);
    }
    let shared = signed(common(a.unsigned_abs(), b.unsigned_abs()))?;
    signed(over(a, shared).wrapping_mul(b).unsigned_abs())
}
