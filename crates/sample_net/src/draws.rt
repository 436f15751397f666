ghost use Rattle.std.specs.Prelude.{◌≡◌, ◌<◌};
ghost use Rattle.sample_net.specs.Draws.{drawn, next_number};

/// A sequence of draws: each goes one step on from the number of the one before.
#[derive(Drop)]
pub(crate) struct Draws {
    number: u64,
}

impl Draws {
    /// The draws that follow a seed.
    pub(crate) fn new(seed: u64) -> Draws
        ensures { result.number ≡ seed }
    {
        Draws { number: seed }
    }

    /// One step of the sequence.
    fn step(&mut self)
        ensures { self.new.number ≡ next_number self.old.number }
    {
        self.number = self
            .number
            .wrapping_mul(6364136223846793005)
            .wrapping_add(1442695040888963407);
    }

    /// The next draw, which is below `end`.
    pub(crate) fn below(&mut self, end: u32) -> u32
        requires { 0 < end }
        ensures number { self.new.number ≡ next_number self.old.number }
        ensures value { result ≡ drawn self.new.number end }
        ensures below { result < end }
    {
        self.step();
        ((self.number >> 33) % end as u64) as u32
    }
}
