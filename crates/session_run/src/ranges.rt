ghost use Rattle.std.specs.Prelude.{All};
ghost use Rattle.session_run.specs.inner.Ranges.{IsShortNamed};

use plan_types::Outcome;

/// A name has at most 255 bytes by its type, also one in an outcome, which a proof learns by this call.
fn is_short_named(outcome: &Outcome)
    ensures { IsShortNamed outcome.now }
{
    if let Outcome::Unsurvivable { demand, .. } = outcome {
        let _name = demand.bytes();
    }
}

/// The names of demands in outcomes have at most 255 bytes by their type, which a proof learns by this call. It takes time in the number of
/// outcomes.
pub fn are_short_named(outcomes: &[Outcome])
    ensures { All IsShortNamed outcomes.now }
{
    for outcome in outcomes {
        is_short_named(outcome);
    }
}
