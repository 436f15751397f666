use net_core::NoMemory;

/// Why a check of a proof ends early.
#[derive(Clone, Copy)]
pub(crate) enum Stop {
    /// A node doesn't hold, one is missing, or the verdict doesn't follow: the number of the answer.
    Fault(u32),
    /// The check ran out of memory.
    NoMemory,
}

impl From<NoMemory> for Stop {
    ghost use Rattle.std.specs.Prelude.{◌≡◌};
    ghost use Rattle.tree_check.specs.declared.stop.Stop.{Stop};

    ghost from_gives = { λ _ stop. stop ≡ Stop.NoMemory };

    fn from(_error: NoMemory) -> Stop {
        Stop::NoMemory
    }
}
