use net_core::{Bytes, NoMemory};
use outside_io::Status;

/// A status, and the message of a run that ends with it and prints nothing.
#[derive(Drop)]
pub struct Told {
    pub status: Status,
    pub message: Bytes,
}

/// Why a run prints nothing.
#[derive(Drop)]
pub enum Halt {
    /// Memory ran out.
    NoMemory,
    /// It ends with a message.
    Told(Told),
}

impl From<NoMemory> for Halt {
    ghost use Rattle.std.specs.Prelude.{◌≡◌};
    ghost use Rattle.people_files.specs.declared.stop.Halt.{Halt};

    ghost from_gives = { λ _ halt. halt ≡ Halt.NoMemory };

    fn from(_error: NoMemory) -> Halt {
        Halt::NoMemory
    }
}
