ghost use Rattle.std.specs.Prelude.{◌≡◌, ◌-◌, ◌*◌, ◌<◌, ◌^◌, ◌↔◌, All, IsTrue, length, min};
ghost use Rattle.line_check.specs.Testing.{weighed};
ghost use Rattle.tree_check.specs.BoxValues.{asked_right, given_free};

use line_check::{Multiplier, Tested, line_in, times};

/// What lines ask for; a sum that 128 bits don't hold is the greatest number.
#[tactic(auto, using(crate::proofs::WeighedSums::asked_more))]
pub(crate) fn asked_right(tested: &[Tested], lines: &[Multiplier]) -> u128
    requires { All (λ m. m.cut < length tested.now) lines.now }
    ensures { result ≡ min (asked_right (weighed tested.now lines.now)) (2 ^ 128 - 1) }
{
    let mut sum = 0u128;
    for m in lines {
        sum = sum.saturating_add(times(m.num, line_in(tested, m.cut).right));
    }
    sum
}

/// What lines are given without modules; a sum that 128 bits don't hold is the greatest number.
#[tactic(auto, using(crate::proofs::WeighedSums::given_more))]
pub(crate) fn given_free(tested: &[Tested], lines: &[Multiplier]) -> u128
    requires { All (λ m. m.cut < length tested.now) lines.now }
    ensures { result ≡ min (given_free (weighed tested.now lines.now)) (2 ^ 128 - 1) }
{
    let mut sum = 0u128;
    for m in lines {
        sum = sum.saturating_add(times(m.num, line_in(tested, m.cut).given));
    }
    sum
}

/// Whether each numerator is below 2^62.
pub(crate) fn are_narrow(lines: &[Multiplier]) -> bool
    ensures { IsTrue result ↔ All (λ m. m.num < 2 ^ 62) lines.now }
{
    lines.iter().all(|m| m.num < 1 << 62)
}
