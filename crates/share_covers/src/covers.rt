ghost use Rattle.std.specs.Prelude.{◌≡◌, ◌<◌, IfOk, length};
ghost use Rattle.share_covers.specs.ShareCovers.{AreShareCovers};

use crate::needs::share_needs;
use module_choice::{cost, cover_needs};
use net_core::{Counts, Network, NoMemory};
use plan_types::Share;
use std::alloc::Global;

/// Counts of modules, and what they cost.
#[derive(Drop)]
pub struct Installed {
    /// One count for each module of each link.
    pub counts: Counts,
    /// What they cost, in units of the network.
    pub cost: u128,
}

/// The cheapest modules that cover what each link needs in a share.
///
/// With modules of 1.00 for 1.00 and a share of 10000 units over the scale 3 a link needs 3.334, and gets four modules. Links with the
/// same modules share one table; it takes time and memory as `cover_needs` does.
pub fn cover_share(alloc: Global, net: &Network, share: &Share) -> Result<Installed, NoMemory>
    requires scale { 0 < share.now.scale }
    requires units { length share.now.units ≡ length net.now.links }
    ensures { IfOk result (AreShareCovers net.now.links share.now) }
{
    let needs = share_needs(alloc, net, share)?;
    let counts = cover_needs(alloc, net, &needs)?;
    let cost = cost(net, &counts);
    Ok(Installed { counts, cost })
}
