ghost use Rattle.std.specs.Prelude.{◌≡◌, ◌<◌, ◌≤◌, ◌^◌, ◌<ℤ◌, ℕ, pos, length, unsigned_abs, None, IfSome, OnOk, OnErr, IfErr};
ghost use Rattle.checked_fraction.{specs.Rows.{num, IsNarrow, IsReduced}, specs.Mixed.IsTooWide, specs.inner.Passes.{over, IsRowGcd, IsWithin, IsFirstOver}};

use crate::divisor::Divisor;
use crate::mix::{WIDE, divided, narrowed};
use crate::pivot::joined;
use crate::row::Row;
use crate::wide::WideNumber;
use net_core::list::List;

/// How far a number is from 0.
fn size_of(a: &i128) -> u128
    ensures { result ≡ unsigned_abs a.now }
{
    a.unsigned_abs()
}

fn size_of_whole(whole: &i64) -> u128
    ensures { result ≡ unsigned_abs whole.now }
{
    whole.unsigned_abs() as u128
}

/// The greatest common divisor of `whole` and all numbers.
fn divisor_of(raw: &[i128], whole: u128) -> Divisor
    requires { 0 < whole }
    ensures gcd { IsRowGcd (num raw.now) (length raw.now) whole result.value }
{
    let mut common = Divisor::new(whole);
    for k in 0..raw.len() {
        if common.value == 1 {
            return common;
        }
        common = joined(&common, size_of(&raw[k]));
    }
    common
}

/// Number `k` after the division.
fn over_at(raw: &[i128], divisor: &Divisor, k: usize) -> i128
    requires inside { k < length raw.now }
    requires bound { (k : ℕ) → k < length raw.now → unsigned_abs (num raw.now k) ≤ 2 ^ 124 }
    ensures value { result ≡ over (num raw.now) divisor.now.value k }
{
    divided(raw[k], divisor)
}

/// The first number that is wide after the division.
fn first_wide_over(raw: &[i128], divisor: &Divisor) -> Option<WideNumber>
    requires short { length raw.now < 2 ^ 32 }
    requires bound { (k : ℕ) → k < length raw.now → unsigned_abs (num raw.now k) ≤ 2 ^ 124 }
    ensures none { result ≡ None → IsWithin (over (num raw.now) divisor.now.value) (length raw.now) }
    ensures wide { IfSome result (IsFirstOver (over (num raw.now) divisor.now.value) (length raw.now)) }
{
    for k in 0..raw.len() {
        let value = over_at(raw, divisor, k);
        if value.unsigned_abs() >= WIDE {
            return Some(WideNumber {
                at: k as u32,
                value,
            });
        }
    }
    None
}

/// Number `k` after the division, where that is narrow.
fn narrow_over(raw: &[i128], divisor: &Divisor, k: usize) -> i64
    requires inside { k < length raw.now }
    requires bound { (k : ℕ) → k < length raw.now → unsigned_abs (num raw.now k) ≤ 2 ^ 124 }
    requires within { IsWithin (over (num raw.now) divisor.now.value) (length raw.now) }
    ensures value { result ≡ over (num raw.now) divisor.now.value k }
    ensures narrow { IsNarrow result }
{
    narrowed(over_at(raw, divisor, k))
}

/// Writes the divided numbers.
fn write_over(nums: &mut [i64], raw: &[i128], divisor: &Divisor)
    requires equal { length nums.old ≡ length raw.now }
    requires bound { (k : ℕ) → k < length raw.now → unsigned_abs (num raw.now k) ≤ 2 ^ 124 }
    requires before { (k : ℕ) → IsNarrow (num nums.old k) }
    requires within { IsWithin (over (num raw.now) divisor.now.value) (length raw.now) }
    ensures each { (k : ℕ) → k < length nums.old → num nums.new k ≡ over (num raw.now) divisor.now.value k }
    ensures narrow { (k : ℕ) → IsNarrow (num nums.new k) }
{
    for k in 0..nums.len() {
        nums[k] = narrow_over(raw, divisor, k);
    }
}

fn write_over_list(nums: &mut List<i64>, raw: &[i128], divisor: &Divisor)
    requires equal { length nums.old ≡ length raw.now }
    requires bound { (k : ℕ) → k < length raw.now → unsigned_abs (num raw.now k) ≤ 2 ^ 124 }
    requires before { (k : ℕ) → IsNarrow (num nums.old k) }
    requires within { IsWithin (over (num raw.now) divisor.now.value) (length raw.now) }
    ensures length { length nums.new ≡ length nums.old }
    ensures each { (k : ℕ) → k < length nums.old → num nums.new k ≡ over (num raw.now) divisor.now.value k }
    ensures narrow { (k : ℕ) → IsNarrow (num nums.new k) }
{
    write_over(nums.items_mut(), raw, divisor);
}

/// Makes `row` the numbers `raw` over `whole` in lowest terms, or leaves it as it is and names the first
/// that is too wide. It takes no memory, and a number of steps that grows with the row.
///
/// The numbers 6, -4 over 10 become (3, -2) / 5.
pub fn lower(row: &mut Row, raw: &[i128], whole: &i64) -> Result<(), WideNumber>
    requires equal { length row.old.nums ≡ length raw.now }
    requires narrow { IsNarrow whole.now }
    requires positive { pos 0 <ℤ whole.now }
    requires bound { (k : ℕ) → k < length raw.now → unsigned_abs (num raw.now k) ≤ 2 ^ 124 }
    ensures length { length row.new.nums ≡ length row.old.nums }
    ensures reduced { OnOk result (IsReduced (length raw.now) (num raw.now) whole.now (num row.new.nums) row.new.den) }
    ensures wide { IfErr result (IsTooWide (length raw.now) (num raw.now) whole.now) }
    ensures same { OnErr result (row.new ≡ row.old) }
{
    let size = size_of_whole(whole);
    let divisor = divisor_of(raw, size);
    if let Some(wide) = first_wide_over(raw, &divisor) {
        return Err(wide);
    }
    write_over_list(&mut row.nums, raw, &divisor);
    row.den = (size / divisor.value) as i64;
    Ok(())
}
