ghost use Rattle.std.specs.Prelude.{◌≡◌, ◌-◌, ◌*◌, ◌<◌, ◌^◌, min};
ghost use Rattle.line_check.specs.Inequalities.{need_of};
ghost use Rattle.table_maker.specs.Made.{given_at};

use crate::kinds::need_of;
use crate::task::Part;
use line_check::Inequality;
use line_check::inequality::coefficient;

/// What the modules of a point give, in parts over its denominator; a sum that 128 bits don't hold is the greatest number.
#[tactic(auto, using(crate::proofs::GivenSums::given_more))]
fn given_at(line: &Inequality, point: &[Part]) -> u128
    ensures { result ≡ min (given_at point.now line.now) (2 ^ 128 - 1) }
{
    let mut sum = 0u128;
    for x in point {
        sum = sum.saturating_add(coefficient(line, x.link, x.module).saturating_mul(x.parts));
    }
    sum
}

/// What a point misses of a line, in parts of ten thousand of its right side, rounded down. It takes time in the point's modules.
pub(crate) fn missed(line: &Inequality, point: &[Part], den: u128) -> u128
    ensures { 0 < result → given_at point.now line.now < need_of line.now * den }
{
    let right = need_of(line).saturating_mul(den);
    let missing = right.saturating_sub(given_at(line, point));
    if missing == 0 {
        return 0;
    }
    missing.saturating_mul(10_000) / right
}
