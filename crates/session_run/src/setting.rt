ghost use Rattle.std.specs.Prelude.{◌≡◌, length};
ghost use Rattle.hint_board.specs.Hints.{hint_links};

use hint_board::HintBoard;
use net_core::{Network, NoMemory, States};
use session_script::Command;
use std::alloc::{AllocError, AllocFailed, Global};

/// What all callers of a session share.
#[derive(Clone, Copy)]
pub struct Setting<'s> {
    pub alloc: Global,
    pub net: &'s Network,
    pub states: &'s States,
    pub commands: &'s [Command],
    /// Lengths that the callers' workers show each other.
    pub hints: &'s HintBoard,
    pub ghost links: { hint_links hints.now ≡ length net.now.links },
}

/// Why a caller stops before its last command.
#[derive(Clone, Copy)]
pub enum Stop {
    /// The call ran out of memory.
    NoMemory,
    /// The journal has no room. It has more than a script's commands and a pool's cuts need, so that this never happens in a session.
    Full,
}

impl From<NoMemory> for Stop {
    ghost use Rattle.std.specs.Prelude.{◌≡◌};
    ghost use Rattle.session_run.specs.declared.setting.Stop.{Stop};

    ghost from_gives = { λ _ stop. stop ≡ Stop.NoMemory };

    fn from(_error: NoMemory) -> Stop {
        Stop::NoMemory
    }
}

impl From<AllocError> for Stop {
    ghost use Rattle.std.specs.Prelude.{◌≡◌};
    ghost use Rattle.session_run.specs.declared.setting.Stop.{Stop};

    ghost from_gives = { λ _ stop. stop ≡ Stop.NoMemory };

    fn from(_error: AllocError) -> Stop {
        Stop::NoMemory
    }
}

/// The value that couldn't be stored is dropped.
impl<T: Drop> From<AllocFailed<T>> for Stop {
    ghost use Rattle.std.specs.Prelude.{◌≡◌};
    ghost use Rattle.session_run.specs.declared.setting.Stop.{Stop};

    ghost from_gives = { λ _ stop. stop ≡ Stop.NoMemory };

    fn from(_refused: AllocFailed<T>) -> Stop {
        Stop::NoMemory
    }
}
