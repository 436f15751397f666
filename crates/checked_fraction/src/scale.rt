ghost use Rattle.std.specs.Prelude.{◌≡◌, ◌<◌, ◌≤◌, ◌^◌, ◌<ℤ◌, ℕ, pos, length, unsigned_abs};
ghost use Rattle.checked_fraction.{specs.Rows.{num, IsNarrow, IsReduced}, specs.inner.Passes.{over, IsRowGcd}};

use crate::fraction::word_gcd;
use crate::mix::quotient;
use crate::row::Row;
use net_core::list::List;

/// The greatest common divisor of `whole` and all numbers.
fn divisor_of(nums: &[i64], whole: u64) -> u64
    requires { 0 < whole }
    ensures gcd { IsRowGcd (num nums.now) (length nums.now) whole result }
    ensures positive { 0 < result }
    ensures low { result ≤ whole }
{
    let mut common = whole;
    for num in nums {
        if common == 1 {
            return 1;
        }
        common = word_gcd(num.unsigned_abs(), common);
    }
    common
}

/// Divides each number by `g`.
fn divide(nums: &mut [i64], g: u64)
    requires some { 0 < g }
    requires low { g < 2 ^ 62 }
    requires narrow { (k : ℕ) → IsNarrow (num nums.now k) }
    ensures each { (k : ℕ) → k < length nums.old → num nums.new k ≡ over (num nums.old) g k }
    ensures narrow { (k : ℕ) → IsNarrow (num nums.new k) }
{
    for k in 0..nums.len() {
        nums[k] = quotient(&nums[k], g);
    }
}

fn divide_list(nums: &mut List<i64>, g: u64)
    requires some { 0 < g }
    requires low { g < 2 ^ 62 }
    requires narrow { (k : ℕ) → IsNarrow (num nums.old k) }
    ensures length { length nums.new ≡ length nums.old }
    ensures each { (k : ℕ) → k < length nums.old → num nums.new k ≡ over (num nums.old) g k }
    ensures narrow { (k : ℕ) → IsNarrow (num nums.new k) }
{
    divide(nums.items_mut(), g);
}

/// Makes `row` the row `nums / q` in lowest terms, whatever its denominator was. It takes no memory, and a number of steps
/// that grows with the row.
///
/// ```text
/// rescale(&mut row, 8);    // of the numbers 4, 0 and -6: 2, 0 and -3 over 4
/// ```
pub fn rescale(row: &mut Row, q: i64)
    requires narrow { IsNarrow q }
    requires positive { pos 0 <ℤ q }
    ensures length { length row.new.nums ≡ length row.old.nums }
    ensures reduced { IsReduced (length row.old.nums) (num row.old.nums) q (num row.new.nums) row.new.den }
{
    let whole = q.unsigned_abs();
    let common = divisor_of(row.nums.items(), whole);
    divide_list(&mut row.nums, common);
    row.den = (whole / common) as i64;
}
