use line_check::Tested;
use net_core::Instance;

/// How much a point has of a module, in parts over the point's denominator.
#[derive(Clone, Copy)]
pub struct Part {
    pub link: usize,
    pub module: usize,
    pub parts: u128,
}

/// What table lines are made for: a point that misses some.
#[derive(Clone, Copy)]
pub struct TableTask<'a> {
    pub instance: &'a Instance<'a>,
    /// The lines over which tables are made.
    pub tested: &'a [Tested],
    pub point: &'a [Part],
    /// The point's denominator.
    pub den: u128,
    /// The greatest weight. The right sides are near it: fine weights tell more, and coarse ones keep the numbers of programs narrow.
    pub most_weight: u32,
}
