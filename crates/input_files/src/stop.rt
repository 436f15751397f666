use net_core::NoMemory;
use outside_io::Answer;

/// Why a run ends before its plan is made.
#[derive(Drop)]
pub enum Stop {
    /// Reading a file failed.
    ReadFault,
    /// Memory ran out.
    NoMemory,
    /// A file is not read, and the text says why.
    Told(Answer),
}

impl From<NoMemory> for Stop {
    ghost use Rattle.std.specs.Prelude.{◌≡◌};
    ghost use Rattle.input_files.specs.declared.stop.Stop.{Stop};

    ghost from_gives = { λ _ stop. stop ≡ Stop.NoMemory };

    fn from(_error: NoMemory) -> Stop {
        Stop::NoMemory
    }
}
