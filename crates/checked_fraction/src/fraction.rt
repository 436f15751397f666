ghost use Rattle.std.{specs.Prelude.{◌≡◌, ◌*◌, ◌/◌, ◌<◌, ◌^◌, ◌↔◌, IsTrue}, specs.Ordering.nat_cmp, specs.Int.IsGcd};

use std::cmp::Ordering;

/// The greatest common divisor of numbers of one machine word.
pub(crate) fn word_gcd(a: u64, b: u64) -> u64
    ensures { IsGcd a b result }
{
    let mut larger = a;
    let mut smaller = b;
    while smaller != 0 {
        let rest = larger % smaller;
        larger = smaller;
        smaller = rest;
    }
    larger
}

fn is_word(a: u128) -> bool
    ensures { IsTrue result ↔ (a < 2 ^ 64) }
{
    a <= u64::MAX as u128
}

/// The greatest common divisor. That of 0 and 0 is 0. It takes no memory, and fewer than 200 divisions.
///
/// ```text
/// gcd(12, 18);    // 6
/// ```
pub fn gcd(a: u128, b: u128) -> u128
    ensures { IsGcd a b result }
{
    let mut x = a;
    let mut y = b;
    while y != 0 {
        if is_word(x) && is_word(y) {
            return word_gcd(x as u64, y as u64) as u128;
        }
        let rest = x % y;
        x = y;
        y = rest;
    }
    x
}

/// How `a / b` compares with `c / d`. It is exact, takes no memory, and fewer than 200 rounds of a few divisions each.
///
/// ```text
/// cmp(2, 3, 3, 4);    // Ordering::Less
/// cmp(1, 3, 2, 6);    // Ordering::Equal
/// ```
pub fn cmp(a: u128, b: u128, c: u128, d: u128) -> Ordering
    requires first { 0 < b }
    requires second { 0 < d }
    ensures { result ≡ nat_cmp (a * d) (c * b) }
{
    let whole = a / b;
    let other = c / d;
    if whole < other {
        return Ordering::Less;
    }
    if other < whole {
        return Ordering::Greater;
    }
    let left = a % b;
    let right = c % d;
    if left == 0 || right == 0 {
        return left.cmp(&right);
    }
    cmp(d, right, b, left)
}

/// `a * b / c`, rounded down, by one product and one division of 128 bits.
///
/// ```text
/// mul_div(12_345, 3, 10);    // 3703, since 37,035 tenths are 3,703.5
/// ```
pub fn mul_div(a: u64, b: u64, c: u128) -> u128
    requires { 0 < c }
    ensures { result ≡ a * b / c }
{
    a as u128 * b as u128 / c
}
