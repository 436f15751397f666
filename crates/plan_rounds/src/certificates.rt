ghost use Rattle.std.specs.Prelude.{◌≤◌, ◌<◌, ◌^◌, All, AllPairs, length};
ghost use Rattle.metric_cut.specs.Bounded.{HaveBound};
ghost use Rattle.master_law.specs.Terms.{IsSameCut};
ghost use Rattle.master_bound.specs.Answers.{IsMasterAnswer};

use length_master::KeptMaster;
use master_bound::{Best, MasterFault, master};
use net_core::{CutLine, List, Network};
use std::alloc::Global;

/// With fewer links than this the master program is solved from its slacks.
const FEW_LINKS: usize = 24;

/// The best certificate of the cuts so far. With few links the master program is solved from its slacks, which takes little time and makes
/// the certificate depend on the cuts alone. With more links it begins with the basis that the rounds before have left in `kept`.
pub(crate) fn best_so_far(
    alloc: Global,
    net: &Network,
    cuts: &List<CutLine>,
    kept: &mut KeptMaster,
) -> Result<Best, MasterFault>
    requires few { length cuts.now ≤ 8192 }
    requires lengths { All (λ cut. HaveBound net.now.links cut.lengths) cuts.now }
    requires right { All (λ cut. cut.right < 2 ^ 84) cuts.now }
    requires different { AllPairs (λ a b. IsSameCut a b → ⊥) cuts.now }
    ensures { IsMasterAnswer net.now.links cuts.now result }
{
    if net.links().len() < FEW_LINKS {
        master(alloc, net, cuts)
    } else {
        kept.best(alloc, net, cuts)
    }
}
