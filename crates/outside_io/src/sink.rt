ghost use Rattle.std.specs.Prelude.{◌≡◌, ℕ, ◌≤◌, List, Option, OnErr};
ghost use Rattle.outside_io.specs.Outside.{Puts, Rose};

use thiserror::Error;

/// A piece of the output was not taken whole.
#[derive(Clone, Copy, Debug, PartialEq, Eq, Error)]
pub enum Failed {
    /// There is no room left on the disk.
    #[error("a piece of the output was not written: the disk is full")]
    DiskFull,
    /// Any other cause, such as a reader that has gone.
    #[error("a piece of the output was not written")]
    Other,
}

/// Where output goes.
pub trait Sink {
    /// The bytes that were taken so far, where the sink tells them.
    ghost taken: { Self → Option (List ℕ) };

    /// How often the sink has failed.
    ghost faults: { Self → ℕ };

    /// How often the sink has failed. The count stays at the greatest number of its type.
    fn faults(&self) -> u64
        ensures { result ≡ faults self.now };

    /// Takes a piece of the output, or at a fault a prefix of it.
    fn put(&mut self, piece: &[u8]) -> Result<(), Failed>
        ensures bytes { Puts (taken self.old) (taken self.new) result piece.now }
        ensures later { faults self.old ≤ faults self.new }
        ensures failed { OnErr result (Rose (faults self.old) (faults self.new)) };
}
