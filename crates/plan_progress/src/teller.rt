/// Someone to whom a planning tells its progress. A line is told at once, by any thread; if telling fails, nothing is said of it, and no
/// answer depends on it. If threads share a teller, it has to be `Sync` too. It is no `Sink`, since a gate is shared and a sink isn't.
pub trait Teller {
    /// Tells a line.
    fn tell(&self, line: &[u8]);
}

/// A teller that drops all lines.
#[derive(Clone, Copy, Debug)]
pub struct NoTeller;

impl Teller for NoTeller {
    fn tell(&self, _line: &[u8]) {}
}
