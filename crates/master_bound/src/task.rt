ghost use Rattle.std.specs.Prelude.{◌≡◌, ◌≤◌, ◌<◌, ◌^◌, All, length};
ghost use Rattle.master_bound.specs.Narrow.{HaveNarrowEntries};

use module_prices::UnitPair;
use net_core::{CutLine, List, Network};

/// Cuts of a network, whose numbers are below 2^62, and the unit pairs of its links.
#[derive(Clone, Copy)]
pub(crate) struct Task<'a> {
    pub(crate) net: &'a Network,
    pub(crate) cuts: &'a List<CutLine>,
    pub(crate) pairs: &'a List<UnitPair>,
    pub ghost few: { length cuts.now ≤ 8192 },
    pub ghost counts: { All (λ cut. length cut.lengths ≡ length net.now.links) cuts.now },
    pub ghost pairs_count: { length pairs.now ≡ length net.now.links },
    pub ghost costs: { All (λ p. p.cost < 2 ^ 40) pairs.now },
    pub ghost rights: { All (λ cut. cut.right < 2 ^ 62) cuts.now },
    pub ghost entries: { All (λ cut. HaveNarrowEntries pairs.now cut.lengths) cuts.now },
}
