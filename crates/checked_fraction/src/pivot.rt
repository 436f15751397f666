ghost use Rattle.std.{specs.Prelude.{◌≡◌, ◌<◌, ◌≤◌, ◌^◌, ◌*◌, ◌*ℤ◌, ◌<ℤ◌, ℕ, pos, length, unsigned_abs, IfSome, None, OnOk, OnErr, IfErr, IfOk}, specs.Int.IsGcd};
ghost use Rattle.checked_fraction.{specs.Rows.{num, IsNarrow, IsReduced}, specs.Mixed.{combined, IsTooWide, IsFirstWide}, specs.inner.Passes.{CanMix, raw, over, IsSurvey, IsWithin, IsTimes, IsFoundDivisor}};

use crate::divisor::Divisor;
use crate::fraction::{gcd, word_gcd};
use crate::mix::{Mix, WIDE, narrow_at, quotient, size_at};
use crate::row::Row;
use crate::wide::{WideNumber, first_wide};
use net_core::list::List;

/// What the first pass finds: the greatest common divisor, and a number that no size exceeds.
#[derive(Clone, Copy)]
struct Survey {
    common: Divisor,
    top: u128,
}

/// What the first pass decides: the divisor, and the denominator after the division.
#[derive(Clone, Copy)]
struct Found {
    common: Divisor,
    den: i64,
}

/// The greatest common divisor, in most cases without a division.
pub(crate) fn joined(common: &Divisor, size: u128) -> Divisor
    ensures { IsGcd common.now.value size result.value }
{
    if common.divides(size) {
        return *common;
    }
    Divisor::new(gcd(size, common.value))
}

fn larger(a: u128, b: u128) -> u128
    ensures first { a ≤ result }
    ensures second { b ≤ result }
{
    if a < b { b } else { a }
}

/// The first pass over a combined row.
fn take_survey(nums: &[i64], pivot: &[i64], mix: &Mix, whole: u128) -> Survey
    requires can_mix { CanMix nums.now pivot.now mix.now }
    requires some { 0 < whole }
    ensures survey { IsSurvey (raw nums.now pivot.now mix.now) (length nums.now) whole result }
    ensures low { result.common.value ≤ whole }
{
    let mut common = Divisor::new(whole);
    let mut top = 0;
    for k in 0..nums.len() {
        let size = size_at(nums, pivot, mix, k);
        common = joined(&common, size);
        top = larger(top, size);
    }
    Survey { common, top }
}

/// The first wide number, with no further pass where the survey rules out each.
fn wide_number(
    nums: &[i64],
    pivot: &[i64],
    mix: &Mix,
    survey: &Survey,
    den: u128,
) -> Option<WideNumber>
    requires can_mix { CanMix nums.now pivot.now mix.now }
    requires short { length nums.now < 2 ^ 32 }
    requires den { den < 2 ^ 126 }
    requires top { (k : ℕ) → k < length nums.now → unsigned_abs (raw nums.now pivot.now mix.now k) ≤ survey.now.top }
    ensures none { result ≡ None → IsWithin (over (raw nums.now pivot.now mix.now) survey.now.common.value) (length nums.now) × (den < 2 ^ 62) }
    ensures wide { IfSome result (IsFirstWide (length nums.now) (over (raw nums.now pivot.now mix.now) survey.now.common.value) (pos den)) }
{
    if survey.common.quotient(survey.top) < WIDE && den < WIDE {
        return None;
    }
    first_wide(nums, pivot, mix, &survey.common, den)
}

/// The second pass: each number becomes that of the combined row divided.
fn write(nums: &mut [i64], pivot: &[i64], mix: &Mix, divisor: &Divisor)
    requires can_mix { CanMix nums.now pivot.now mix.now }
    requires within { IsWithin (over (raw nums.now pivot.now mix.now) divisor.now.value) (length nums.now) }
    ensures each { (k : ℕ) → k < length nums.old → num nums.new k ≡ over (raw nums.old pivot.now mix.now) divisor.now.value k }
    ensures narrow { (k : ℕ) → IsNarrow (num nums.new k) }
{
    for k in 0..nums.len() {
        nums[k] = narrow_at(nums, pivot, mix, divisor, k);
    }
}

/// The denominator of a combined row before it is reduced.
fn whole_of(row: &Row, mix: &Mix) -> u128
    requires narrow { IsNarrow mix.now.q }
    requires positive { pos 0 <ℤ mix.now.q }
    ensures value { pos result ≡ row.now.den *ℤ mix.now.q }
    ensures positive { 0 < result }
    ensures bound { result < 2 ^ 124 }
{
    row.den.unsigned_abs() as u128 * mix.q.unsigned_abs() as u128
}

/// The greatest common divisor of the factors.
fn factor_of(mix: &Mix) -> u64
    requires q { IsNarrow mix.now.q }
    requires positive { pos 0 <ℤ mix.now.q }
    ensures gcd { IsGcd (unsigned_abs mix.now.p) (unsigned_abs mix.now.q) result }
    ensures positive { 0 < result }
    ensures narrow { result < 2 ^ 62 }
{
    word_gcd(mix.p.unsigned_abs(), mix.q.unsigned_abs())
}

/// The factors divided by their greatest common divisor, which leaves the fractions as they are.
fn lowest(mix: &Mix) -> Mix
    requires p { IsNarrow mix.now.p }
    requires q { IsNarrow mix.now.q }
    requires positive { pos 0 <ℤ mix.now.q }
    ensures p { IsNarrow result.p }
    ensures q { IsNarrow result.q }
    ensures positive { pos 0 <ℤ result.q }
    ensures times { IsTimes mix.now result }
{
    let g = factor_of(mix);
    Mix {
        p: quotient(&mix.p, g),
        q: quotient(&mix.q, g),
    }
}

/// What the combined row is divided by, and its denominator after that, unless it is too wide.
fn find(nums: &[i64], pivot: &[i64], mix: &Mix, whole: u128) -> Result<Found, WideNumber>
    requires can_mix { CanMix nums.now pivot.now mix.now }
    requires short { length nums.now < 2 ^ 32 }
    requires some { 0 < whole }
    requires bound { whole < 2 ^ 124 }
    ensures found { IfOk result (IsFoundDivisor (raw nums.now pivot.now mix.now) (length nums.now) whole) }
    ensures wide { IfErr result (IsTooWide (length nums.now) (raw nums.now pivot.now mix.now) (pos whole)) }
{
    let survey = take_survey(nums, pivot, mix, whole);
    let den = survey.common.quotient(whole);
    if let Some(wide) = wide_number(nums, pivot, mix, &survey, den) {
        return Err(wide);
    }
    Ok(Found {
        common: survey.common,
        den: den as i64,
    })
}

/// The second pass over a list.
fn write_list(nums: &mut List<i64>, pivot: &[i64], mix: &Mix, divisor: &Divisor)
    requires can_mix { CanMix nums.old pivot.now mix.now }
    requires within { IsWithin (over (raw nums.old pivot.now mix.now) divisor.now.value) (length nums.old) }
    ensures length { length nums.new ≡ length nums.old }
    ensures each { (k : ℕ) → k < length nums.old → num nums.new k ≡ over (raw nums.old pivot.now mix.now) divisor.now.value k }
    ensures narrow { (k : ℕ) → IsNarrow (num nums.new k) }
{
    write(nums.items_mut(), pivot, mix, divisor);
}

/// The row combined and reduced, or unchanged where it would be too wide.
fn reduce(row: &mut Row, pivot: &[i64], mix: &Mix) -> Result<(), WideNumber>
    requires can_mix { CanMix row.old.nums pivot.now mix.now }
    requires positive { pos 0 <ℤ mix.now.q }
    ensures length { length row.new.nums ≡ length row.old.nums }
    ensures reduced { OnOk result (IsReduced (length row.old.nums) (raw row.old.nums pivot.now mix.now) (row.old.den *ℤ mix.now.q)
        (num row.new.nums) row.new.den) }
    ensures wide { IfErr result (IsTooWide (length row.old.nums) (raw row.old.nums pivot.now mix.now) (row.old.den *ℤ mix.now.q)) }
    ensures same { OnErr result (row.new ≡ row.old) }
{
    let found = find(row.nums.items(), pivot, mix, whole_of(row, mix))?;
    write_list(&mut row.nums, pivot, mix, &found.common);
    row.den = found.den;
    Ok(())
}

/// The row combined and reduced where the factors may have a common divisor, or unchanged where it would be too wide.
fn combine_by(row: &mut Row, pivot: &[i64], mix: &Mix) -> Result<(), WideNumber>
    requires can_mix { CanMix row.old.nums pivot.now mix.now }
    requires positive { pos 0 <ℤ mix.now.q }
    ensures length { length row.new.nums ≡ length row.old.nums }
    ensures reduced { OnOk result (IsReduced (length row.old.nums) (raw row.old.nums pivot.now mix.now) (row.old.den *ℤ mix.now.q)
        (num row.new.nums) row.new.den) }
    ensures wide { IfErr result (IsTooWide (length row.old.nums) (raw row.old.nums pivot.now mix.now) (row.old.den *ℤ mix.now.q)) }
    ensures same { OnErr result (row.new ≡ row.old) }
{
    if mix.p == 0 {
        return Ok(());
    }
    reduce(row, pivot, &lowest(mix))
}

/// Makes `row` the row `(nums * q - p * pivot.nums) / (den * q)` in lowest terms, or leaves it as it is
/// and names the first number of that row that is 2^62 or more in absolute value. It takes no memory,
/// and a number of steps that grows with the row.
///
/// The row (1, 2) / 3 with p = 2 and the pivot row (4, 1) / 1 with q = 6 becomes
/// (1·6 - 2·4, 2·6 - 2·1) / 18 = (-2, 10) / 18,
/// which is (-1, 5) / 9 in lowest terms.
pub fn combine(row: &mut Row, p: i64, pivot: &Row, q: i64) -> Result<(), WideNumber>
    requires equal { length row.old.nums ≡ length pivot.now.nums }
    requires p { IsNarrow p }
    requires q { IsNarrow q }
    requires positive { pos 0 <ℤ q }
    ensures length { length row.new.nums ≡ length row.old.nums }
    ensures reduced { OnOk result (IsReduced (length row.old.nums) (combined (num row.old.nums) p (num pivot.now.nums) q)
        (row.old.den *ℤ q) (num row.new.nums) row.new.den) }
    ensures wide { IfErr result (IsTooWide (length row.old.nums) (combined (num row.old.nums) p (num pivot.now.nums) q) (row.old.den *ℤ q)) }
    ensures same { OnErr result (row.new ≡ row.old) }
{
    combine_by(row, pivot.nums.items(), &Mix { p, q })
}
