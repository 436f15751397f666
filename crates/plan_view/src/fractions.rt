ghost use Rattle.std.specs.Prelude.{◌≡◌, ◌*◌, ◌<◌, ◌↔◌, ◌+◌, ◌≤◌, IsTrue};
ghost use Rattle.plan_view.specs.Rounding.{IsCeiling, IsNearest};

use checked_fraction::cmp;
use std::cmp::Ordering;

/// Whether `a / b` is less than `c / d`.
pub(crate) fn is_less(a: u128, b: u128, c: u128, d: u128) -> bool
    requires first { 0 < b }
    requires second { 0 < d }
    ensures { IsTrue result ↔ (a * d < c * b) }
{
    cmp(a, b, c, d) == Ordering::Less
}

/// A fraction rounded up to a whole number; 0 over 0 is 0.
pub(crate) fn ceiling(num: u128, den: u128) -> u128
    requires { den ≡ 0 → num ≡ 0 }
    ensures { IsCeiling num den result }
{
    if den == 0 {
        return 0;
    }
    num.div_ceil(den)
}

/// How many thousandths of the whole a part of it is, rounded to the nearest number, and halves up; 0 where the whole is 0.
pub(crate) fn thousandths(part: u128, whole: u128) -> u32
    requires { part ≤ whole }
    ensures near { IsNearest (1000 * part) whole result }
    ensures low { result ≤ 1000 }
{
    if whole == 0 {
        return 0;
    }
    for n in 0..1000u32 {
        if is_less(part, whole, 2 * n as u128 + 1, 2000) {
            return n;
        }
    }
    1000
}
