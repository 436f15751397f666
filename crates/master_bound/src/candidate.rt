ghost use Rattle.std.specs.Prelude.{◌<◌};

/// A cut that gains, by its place: what a unit of it gains beyond the prices of its entries, over the prices' denominator, and the
/// weight that this is compared by.
#[derive(Clone, Copy)]
pub(crate) struct Candidate {
    pub(crate) cut: usize,
    pub(crate) surplus: u128,
    pub(crate) weight: u128,
    pub ghost positive: { 0 < weight },
}
