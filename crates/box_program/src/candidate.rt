ghost use Rattle.std.specs.Prelude.{◌<◌};

/// A column that gains: its place, and what a unit of it gains beyond the prices of its entries, over its weight.
#[derive(Clone, Copy)]
pub(crate) struct Candidate {
    pub at: usize,
    pub surplus: u128,
    pub weight: u128,
    pub ghost positive: { 0 < weight },
}
