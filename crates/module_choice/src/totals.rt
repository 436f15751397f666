ghost use Rattle.std.specs.Prelude.{◌≡◌, ◌+◌, ◌*◌, ◌^◌, ◌≤◌, All, IfOk, length};
ghost use Rattle.plan_terms.specs.Terms.{IsModule, AreCounts, capacities, installs, link_cost, modules_capacity, modules_cost, total_cost};
ghost use Rattle.net_core.specs.Limits.{most_links};

use net_core::{Caps, Counts, Link, List, Module, Network, NoMemory};
use std::alloc::Global;

/// What counts of modules cost by themselves, in units of the network.
#[tactic(auto, using(crate::proofs::Pairs::cost_more))]
fn modules_cost(modules: &[Module], counts: &[u64]) -> u128
    requires shape { length counts.now ≡ length modules.now }
    requires few { length modules.now ≤ 16 }
    requires each { All IsModule modules.now }
    ensures value { result ≡ modules_cost modules.now counts.now }
    ensures bound { result ≤ 16 * 2 ^ 104 }
{
    let mut cost = 0;
    for i in 0..modules.len() {
        cost += modules[i].cost as u128 * counts[i] as u128;
    }
    cost
}

/// What counts of modules carry, in units of the network.
#[tactic(auto, using(crate::proofs::Pairs::capacity_more))]
fn modules_capacity(modules: &[Module], counts: &[u64]) -> u128
    requires shape { length counts.now ≡ length modules.now }
    requires few { length modules.now ≤ 16 }
    requires each { All IsModule modules.now }
    ensures value { result ≡ modules_capacity modules.now counts.now }
    ensures bound { result ≤ 16 * 2 ^ 104 }
{
    let mut capacity = 0;
    for i in 0..modules.len() {
        capacity += modules[i].capacity as u128 * counts[i] as u128;
    }
    capacity
}

/// Whether some count is positive.
fn installs(counts: &[u64]) -> bool
    ensures { result ≡ installs counts.now }
{
    counts.iter().any(|n| *n > 0)
}

/// What counts of the link's modules cost, with its setup once where some count is positive, in units of the network. It takes time in the
/// number of modules, and no memory.
pub fn link_cost(link: &Link, counts: &[u64]) -> u128
    requires shape { length counts.now ≡ length link.now.modules }
    requires few { length link.now.modules ≤ 16 }
    requires each { All IsModule link.now.modules }
    ensures value { result ≡ link_cost link.now counts.now }
    ensures bound { result ≤ 2 ^ 109 }
{
    let setup = if installs(counts) { link.setup } else { 0 };
    modules_cost(link.modules.items(), counts) + setup as u128
}

/// What all counts cost, in units of the network.
#[tactic(auto, using(crate::proofs::Pairs::total_more, crate::proofs::Pairs::counts_long, crate::proofs::Pairs::counts_shape))]
fn total_cost(links: &[Link], counts: &[List<u64>]) -> u128
    requires few { length links.now ≤ most_links }
    requires each { All (λ l. (length l.modules ≤ 16) × All IsModule l.modules) links.now }
    requires shape { AreCounts links.now counts.now }
    ensures { result ≡ total_cost links.now counts.now }
{
    let mut cost = 0;
    for i in 0..links.len() {
        cost += link_cost(&links[i], counts[i].items());
    }
    cost
}

/// The installed capacity of a link: the pre-installed one and that of its modules.
fn link_capacity(l: &Link, counts: &[u64]) -> u128
    requires few { length l.now.modules ≤ 16 }
    requires each { All IsModule l.now.modules }
    requires shape { length counts.now ≡ length l.now.modules }
    ensures { result ≡ l.now.fixed + modules_capacity l.now.modules counts.now }
{
    l.fixed as u128 + modules_capacity(l.modules.items(), counts)
}

/// The installed capacity of each link.
#[tactic(auto, using(crate::proofs::Pairs::capacities_more, crate::proofs::Pairs::counts_long, crate::proofs::Pairs::counts_shape))]
fn all_capacities(
    alloc: Global,
    links: &[Link],
    counts: &[List<u64>],
) -> Result<List<u128>, NoMemory>
    requires each { All (λ l. (length l.modules ≤ 16) × All IsModule l.modules) links.now }
    requires shape { AreCounts links.now counts.now }
    ensures { IfOk result (λ nums. nums ≡ capacities links.now counts.now) }
{
    let mut nums = List::new(alloc);
    for i in 0..links.len() {
        nums.push(link_capacity(&links[i], counts[i].items()))?;
    }
    Ok(nums)
}

/// What counts of modules cost, in units of the network: each module its cost, and each link with a positive count its setup once.
/// It takes no memory.
///
/// On a link with a setup of 3 and modules of 10 for 5, two modules cost 13, and none costs 0.
pub fn cost(net: &Network, counts: &Counts) -> u128
    requires { AreCounts net.now.links counts.now }
    ensures { result ≡ total_cost net.now.links counts.now }
{
    total_cost(net.links().items(), counts.items())
}

/// The capacities that counts of modules install, at the scale 1.
/// It takes time in the number of modules, and 16 bytes a link.
pub fn capacities(alloc: Global, net: &Network, counts: &Counts) -> Result<Caps, NoMemory>
    requires { AreCounts net.now.links counts.now }
    ensures { IfOk result (λ caps. (caps.scale ≡ 1) × (caps.nums ≡ capacities net.now.links counts.now)) }
{
    Ok(Caps {
        scale: 1,
        nums: all_capacities(alloc, net.links().items(), counts.items())?,
    })
}
