ghost use Rattle.std.specs.Prelude.{◌≡◌, ◌<◌, ◌≤◌, ◌^◌, ◌<ℤ◌, ◌≤ℤ◌, ◌↔◌, ℕ, pos, length, unsigned_abs, IsTrue, MatchOption, false};
ghost use Rattle.checked_fraction.specs.Rows.{num, IsNarrow};

use crate::row::Row;

/// Whether a number is below 2^62 in absolute value. It takes constant time.
pub fn is_narrow(a: &i128) -> bool
    ensures narrow { IsTrue result ↔ IsNarrow a.now }
    ensures wide { result ≡ false → 2 ^ 62 ≤ unsigned_abs a.now }
{
    a.unsigned_abs() < 1 << 62
}

/// A number below 2^62 in absolute value, in one word. It takes constant time.
pub fn narrowed(a: &i128) -> i64
    requires { IsNarrow a.now }
    ensures value { result ≡ a.now }
    ensures narrow { IsNarrow result }
{
    *a as i64
}

/// The denominator of a row, as a number without a sign. It takes constant time.
pub fn size_of_den(row: &Row) -> u64
    ensures value { result ≡ unsigned_abs row.now.den }
    ensures some { 0 < result }
    ensures narrow { result < 2 ^ 62 }
{
    row.den().unsigned_abs()
}

/// The place of the first number below 0. It takes time in the count.
pub fn first_negative(nums: &[i64]) -> Option<u32>
    requires { length nums.now < 2 ^ 32 }
    ensures { MatchOption result ((k : ℕ) → k < length nums.now → pos 0 ≤ℤ num nums.now k) (λ k. (k < length nums.now) × (num nums.now k <ℤ pos 0)) }
{
    for k in 0..nums.len() {
        if nums[k] < 0 {
            return Some(k as u32);
        }
    }
    None
}
