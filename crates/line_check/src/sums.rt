ghost use Rattle.std.specs.Prelude.{◌≡◌, ◌-◌, ◌*◌, ◌<◌, ◌^◌, All, length, min};
ghost use Rattle.line_check.{specs.Inequalities.{module_price, summed_need}, specs.Testing.{test_at, weighed}};

use crate::inequality::{Inequality, coefficient};
use crate::tested_lines::Tested;
use master_bound::Multiplier;

/// A product that 128 bits don't hold is the greatest number. It takes constant time.
pub fn times(num: u64, n: u128) -> u128
    ensures { result ≡ min (num * n) (2 ^ 128 - 1) }
{
    (num as u128).saturating_mul(n)
}

/// The line of an index. It takes constant time.
pub fn line_in(tested: &[Tested], i: u32) -> &Inequality
    requires { i < length tested.now }
    ensures { result.now ≡ (test_at tested.now i).line }
{
    &tested[i as usize].line
}

/// The price of a module along lines; a sum that 128 bits don't hold is the greatest number. It takes time in the lines.
#[tactic(auto, using(crate::proofs::WeighedSums::price_more))]
pub fn module_price(tested: &[Tested], lines: &[Multiplier], e: usize, m: usize) -> u128
    requires { All (λ x. x.cut < length tested.now) lines.now }
    ensures { result ≡ min (module_price (weighed tested.now lines.now) e m) (2 ^ 128 - 1) }
{
    let mut sum = 0u128;
    for x in lines {
        let coef = coefficient(line_in(tested, x.cut), e, m);
        sum = sum.saturating_add(times(x.num, coef));
    }
    sum
}

/// What modules have to give for the sum of lines; a sum that 128 bits don't hold is the greatest number.
#[tactic(auto, using(crate::proofs::WeighedSums::need_more))]
pub fn summed_need(tested: &[Tested], lines: &[Multiplier]) -> u128
    requires { All (λ x. x.cut < length tested.now) lines.now }
    ensures { result ≡ min (summed_need (weighed tested.now lines.now)) (2 ^ 128 - 1) }
{
    let mut sum = 0u128;
    for x in lines {
        let line = line_in(tested, x.cut);
        sum = sum.saturating_add(times(x.num, line.right.saturating_sub(line.given)));
    }
    sum
}
