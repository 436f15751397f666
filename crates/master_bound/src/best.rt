ghost use Rattle.std.specs.Prelude.{◌≡◌, ◌<◌, ◌^◌, ◌↔◌, All, IfSome, IsNone, [], length};
ghost use Rattle.plan_terms.specs.Terms.{IsBestOwn};
ghost use Rattle.metric_cut.specs.Bounded.{HaveBound};
ghost use Rattle.master_bound.specs.inner.Bests.{IsBestBelow, IsBetterOwn};

use metric_cut::own_bound;
use net_core::{CutLine, List, Network};

/// A cut's place in its list, and its own bound in units of the network.
#[derive(Clone, Copy)]
pub struct GreatestOwn {
    pub cut: u32,
    pub bound: u128,
}

/// The cut of a greater own bound: the one so far, or the cut at place `k`, which has to exceed it.
fn better(net: &Network, best: GreatestOwn, k: u32, cut: &CutLine) -> GreatestOwn
    requires lengths { HaveBound net.now.links cut.now.lengths }
    requires right { cut.now.right < 2 ^ 84 }
    ensures { IsBetterOwn net.now.links best k cut.now result }
{
    let bound = own_bound(net, cut);
    if bound > best.bound {
        GreatestOwn { cut: k, bound }
    } else {
        best
    }
}

/// The first cut of greatest own bound.
fn best_of(net: &Network, cuts: &[CutLine]) -> GreatestOwn
    requires some { 0 < length cuts.now }
    requires few { length cuts.now < 2 ^ 32 }
    requires lengths { All (λ cut. HaveBound net.now.links cut.lengths) cuts.now }
    requires right { All (λ cut. cut.right < 2 ^ 84) cuts.now }
    ensures { IsBestBelow net.now.links cuts.now (length cuts.now) result }
{
    let mut best = GreatestOwn {
        cut: 0,
        bound: own_bound(net, &cuts[0]),
    };
    for k in 1..cuts.len() {
        best = better(net, best, k as u32, &cuts[k]);
    }
    best
}

/// The place of the first cut of greatest own bound, and `None` exactly for no cut. Each cut has lengths that have a bound of
/// their own: one per link, some of them positive, and none on a link without a module. It takes time in the number of cuts
/// and of modules, and no memory.
///
/// Own bounds of 10, 20 and 20: the answer is 1.
pub fn best_own(net: &Network, cuts: &List<CutLine>) -> Option<u32>
    requires few { length cuts.now < 2 ^ 32 }
    requires lengths { All (λ cut. HaveBound net.now.links cut.lengths) cuts.now }
    requires right { All (λ cut. cut.right < 2 ^ 84) cuts.now }
    ensures none { IsNone result ↔ (cuts.now ≡ []) }
    ensures best { IfSome result (IsBestOwn net.now.links cuts.now) }
{
    if cuts.len() == 0 {
        return None;
    }
    Some(best_of(net, cuts.items()).cut)
}
