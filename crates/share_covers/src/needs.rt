ghost use Rattle.std.specs.Prelude.{◌≡◌, ℕ, ◌*◌, ◌<◌, ◌≤◌, All, IfOk, length};
ghost use Rattle.plan_terms.specs.Terms.{IsModule};
ghost use Rattle.master_law.specs.Terms.{IsShareNeed};
ghost use Rattle.share_covers.specs.ShareCovers.{AreShareNeeds, IsNeedOfLink};

use module_prices::unit_pair;
use net_core::{List, Module, Network, NoMemory};
use plan_types::Share;
use std::alloc::Global;

/// No link needs more, in units of the network: all demands together need less than one more.
const MOST_NEED: u64 = (1 << 44) - 1;

/// A number over a scale, rounded up.
fn whole(number: u128, scale: u64) -> u128
    requires { 0 < scale }
    ensures enough { number ≤ result * scale }
    ensures least { (n : ℕ) → number ≤ n * scale → result ≤ n }
{
    number.div_ceil(scale as u128)
}

/// What units of a capacity, over a scale, need in whole units of the network.
fn need_of(capacity: u64, units: u64, scale: u64) -> u64
    requires { 0 < scale }
    ensures { IsShareNeed scale capacity units result }
{
    let given = capacity as u128 * units as u128;
    whole(given, scale).min(MOST_NEED as u128) as u64
}

/// What a link with these modules needs for a number of units over a scale.
fn link_need(modules: &[Module], units: u64, scale: u64) -> u64
    requires sound { All IsModule modules.now }
    requires scale { 0 < scale }
    ensures { IsNeedOfLink modules.now scale units result }
{
    match unit_pair(modules) {
        Some(pair) => need_of(pair.capacity, units, scale),
        None => 0,
    }
}

/// What each link needs of its modules in a share, in whole units: its units of its unit pair, rounded up, and 2^44 - 1 where that
/// is less. A link without module needs nothing.
///
/// With a unit capacity of 1 and 10000 units over the scale 3 a link needs 3334. It takes time in the number of links and modules.
pub fn share_needs(alloc: Global, net: &Network, share: &Share) -> Result<List<u64>, NoMemory>
    requires scale { 0 < share.now.scale }
    requires units { length share.now.units ≡ length net.now.links }
    ensures { IfOk result (AreShareNeeds net.now.links share.now) }
{
    let links = net.links().items();
    let units = share.units.items();
    let mut needs = List::new(alloc);
    for e in 0..links.len() {
        needs.push(link_need(links[e].modules.items(), units[e], share.scale))?;
    }
    Ok(needs)
}
