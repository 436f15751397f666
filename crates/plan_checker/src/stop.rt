use crate::finding::Finding;
use net_core::NoMemory;

/// Why a check ends early.
#[derive(Clone, Copy)]
pub enum Stop {
    /// The first finding.
    Found(Finding),
    /// The check ran out of memory.
    NoMemory,
}

/// The result of a test: nothing found, or a reason to stop.
pub type Test = Result<(), Stop>;

impl From<NoMemory> for Stop {
    ghost use Rattle.std.specs.Prelude.{◌≡◌};
    ghost use Rattle.plan_checker.specs.declared.stop.Stop.{Stop};

    ghost from_gives = { λ _ stop. stop ≡ Stop.NoMemory };

    fn from(_error: NoMemory) -> Stop {
        Stop::NoMemory
    }
}
