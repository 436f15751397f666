ghost use Rattle.std.specs.Prelude.{◌≡◌, ◌<◌, ◌^◌, ◌-ℤ◌, ◌*ℤ◌, pos, int_div, length, unsigned_abs};
ghost use Rattle.checked_fraction.{specs.Rows.IsNarrow, specs.inner.Passes.{CanMix, raw, over}};

use crate::divisor::Divisor;
use crate::sum::product;

/// What a row is combined by: `p` times the pivot row is taken from `q` times the row.
#[derive(Clone, Copy)]
pub(crate) struct Mix {
    pub(crate) p: i64,
    pub(crate) q: i64,
}

/// The least size of a wide number.
pub(crate) const WIDE: u128 = 1 << 62;

fn difference(a: i128, b: i128) -> i128
    requires a { unsigned_abs a < 2 ^ 124 }
    requires b { unsigned_abs b < 2 ^ 124 }
    ensures value { result ≡ a -ℤ b }
    ensures bound { unsigned_abs result < 2 ^ 125 }
{
    a - b
}

fn mixed(a: i64, b: i64, p: i64, q: i64) -> i128
    requires a { IsNarrow a }
    requires b { IsNarrow b }
    requires p { IsNarrow p }
    requires q { IsNarrow q }
    ensures value { result ≡ (a *ℤ q) -ℤ (p *ℤ b) }
    ensures bound { unsigned_abs result < 2 ^ 125 }
{
    difference(product(&a, &q), product(&p, &b))
}

/// Number `k` of the combined row.
pub(crate) fn raw_at(nums: &[i64], pivot: &[i64], mix: &Mix, k: usize) -> i128
    requires inside { k < length nums.now }
    requires can_mix { CanMix nums.now pivot.now mix.now }
    ensures value { result ≡ raw nums.now pivot.now mix.now k }
    ensures bound { unsigned_abs result < 2 ^ 125 }
{
    mixed(nums[k], pivot[k], mix.p, mix.q)
}

/// How far number `k` of the combined row is from 0.
pub(crate) fn size_at(nums: &[i64], pivot: &[i64], mix: &Mix, k: usize) -> u128
    requires inside { k < length nums.now }
    requires can_mix { CanMix nums.now pivot.now mix.now }
    ensures { result ≡ unsigned_abs (raw nums.now pivot.now mix.now k) }
{
    raw_at(nums, pivot, mix, k).unsigned_abs()
}

/// A number divided, rounded towards 0.
pub(crate) fn divided(a: i128, divisor: &Divisor) -> i128
    requires { unsigned_abs a < 2 ^ 125 }
    ensures value { result ≡ int_div a (pos divisor.now.value) }
    ensures bound { unsigned_abs result < 2 ^ 125 }
{
    let size = divisor.quotient(a.unsigned_abs()) as i128;
    if a < 0 { -size } else { size }
}

/// Number `k` of the combined row, divided.
pub(crate) fn reduced_at(
    nums: &[i64],
    pivot: &[i64],
    mix: &Mix,
    divisor: &Divisor,
    k: usize,
) -> i128
    requires inside { k < length nums.now }
    requires can_mix { CanMix nums.now pivot.now mix.now }
    ensures value { result ≡ over (raw nums.now pivot.now mix.now) divisor.now.value k }
    ensures bound { unsigned_abs result < 2 ^ 125 }
{
    divided(raw_at(nums, pivot, mix, k), divisor)
}

pub(crate) fn narrowed(a: i128) -> i64
    requires { IsNarrow a }
    ensures { result ≡ a }
{
    a as i64
}

/// Number `k` of the combined row, divided, where it is narrow.
pub(crate) fn narrow_at(nums: &[i64], pivot: &[i64], mix: &Mix, divisor: &Divisor, k: usize) -> i64
    requires inside { k < length nums.now }
    requires can_mix { CanMix nums.now pivot.now mix.now }
    requires narrow { IsNarrow (over (raw nums.now pivot.now mix.now) divisor.now.value k) }
    ensures value { result ≡ over (raw nums.now pivot.now mix.now) divisor.now.value k }
    ensures bound { IsNarrow result }
{
    narrowed(reduced_at(nums, pivot, mix, divisor, k))
}

/// A narrow number divided by `g`.
pub(crate) fn quotient(a: &i64, g: u64) -> i64
    requires some { 0 < g }
    requires low { g < 2 ^ 62 }
    requires bound { IsNarrow a.now }
    ensures value { result ≡ int_div a.now (pos g) }
    ensures bound { IsNarrow result }
{
    *a / g as i64
}
