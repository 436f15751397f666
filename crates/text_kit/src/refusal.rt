ghost use Rattle.std.specs.Prelude.{◌≡◌};

use net_core::NoMemory;
use std::fmt::Debug;
use thiserror::Error;

/// Why a text was not read; `K` has the format's kinds of faults.
#[derive(Debug, Drop, Error)]
pub enum Refusal<K: std::fmt::Debug> {
    /// The first fault, and the place of its first byte; the length of the file at its end.
    #[error("fault {kind:?} at {at}")]
    Bad { at: u64, kind: K },
    /// The call ran out of memory.
    #[error("out of memory")]
    NoMemory,
}

impl<K: Debug> From<NoMemory> for Refusal<K> {
    ghost use Rattle.std.specs.Prelude.{◌≡◌};
    ghost use Rattle.text_kit.specs.declared.refusal.Refusal.{Refusal};

    ghost from_gives = { λ _ refusal. refusal ≡ Refusal.NoMemory };

    fn from(_error: NoMemory) -> Refusal<K> {
        Refusal::NoMemory
    }
}

impl<K: Debug, T: Drop> From<(T, NoMemory)> for Refusal<K> {
    ghost use Rattle.std.specs.Prelude.{◌≡◌};
    ghost use Rattle.text_kit.specs.declared.refusal.Refusal.{Refusal};

    ghost from_gives = { λ _ refusal. refusal ≡ Refusal.NoMemory };

    fn from(_refused: (T, NoMemory)) -> Refusal<K> {
        Refusal::NoMemory
    }
}

/// The refusal for a fault of a kind at a place. It takes constant time.
pub fn bad<K: Debug>(at: u64, kind: K) -> Refusal<K>
    ensures { result ≡ Refusal.Bad at kind }
{
    Refusal::Bad { at, kind }
}
