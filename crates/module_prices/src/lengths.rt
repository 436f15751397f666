ghost use Rattle.std.specs.Prelude.{◌≡◌, ◌≤◌, ◌<◌, All, IfOk, length};
ghost use Rattle.plan_terms.specs.Terms.{IsModule, Module, ArePriceLengths, HasLeastUnitCost, IsPriceLength, IsSixteenths};
ghost use Rattle.module_prices.specs.inner.Dearest.{ArePriced, IsDearer, IsDearestSoFar, IsGreatest, IsNoDearer};

use crate::cheapest::{cheapest, crossed};
use checked_fraction::mul_div;
use net_core::{Lengths, Link, List, Module, Network, NoMemory};
use std::alloc::Global;

/// The more expensive, per capacity, of a module and the cheapest one of a link, which wins a tie.
fn dearer(other: Module, modules: &[Module]) -> Module
    requires sound { IsModule other }
    requires each { All IsModule modules.now }
    ensures { IsDearer modules.now other result }
{
    if modules.len() == 0 {
        return other;
    }
    let m = cheapest(modules);
    if crossed(&m, &other) < crossed(&other, &m) {
        return other;
    }
    m
}

/// The most expensive, per capacity, of the links' cheapest modules, or a free one where no link has a module.
fn dearest(links: &[Link]) -> Module
    requires { All (λ l. All IsModule l.modules) links.now }
    ensures { IsDearestSoFar links.now (length links.now) result }
{
    let mut dearest = Module {
        capacity: 1,
        cost: 0,
    };
    for e in 0..links.len() {
        dearest = dearer(dearest, links[e].modules.items());
    }
    dearest
}

/// The cost per capacity of a module, in sixteenths of that of the most expensive one.
fn sixteenths(dearest: &Module, m: &Module) -> u32
    requires dearest { IsModule dearest.now }
    requires sound { IsModule m.now }
    requires less { IsNoDearer m.now dearest.now }
    ensures exact { IsSixteenths dearest.now m.now result }
    ensures small { result ≤ 16 }
{
    if dearest.cost == 0 {
        return 0;
    }
    let size = m.capacity as u128 * dearest.cost as u128;
    mul_div(16 * m.cost, dearest.capacity, size) as u32
}

/// The price length of a link with these modules.
fn price_length(dearest: &Module, modules: &[Module]) -> u32
    requires dearest { IsModule dearest.now }
    requires each { All IsModule modules.now }
    requires greatest { (o : Module) → HasLeastUnitCost modules.now o → IsNoDearer o dearest.now }
    ensures exact { IsPriceLength dearest.now modules.now result }
    ensures small { result ≤ 16 }
{
    if modules.len() == 0 {
        return 0;
    }
    sixteenths(dearest, &cheapest(modules))
}

/// The price length of each link.
fn lengths_of(alloc: Global, links: &[Link], dearest: &Module) -> Result<Lengths, NoMemory>
    requires dearest { IsModule dearest.now }
    requires each { All (λ l. All IsModule l.modules) links.now }
    requires greatest { IsGreatest links.now dearest.now }
    ensures { IfOk result (ArePriced links.now dearest.now) }
{
    let mut lengths = List::new(alloc);
    for e in 0..links.len() {
        lengths.push(price_length(dearest, links[e].modules.items()))?;
    }
    Ok(lengths)
}

/// The price length of each link: what a unit of capacity costs there, in sixteenths of the greatest such cost, rounded down;
/// 0 where there is no module. It takes time in the number of modules.
///
/// Links with a module of 10 for 5, of 622 for 250 and of 1 for 1: the third costs 1 a unit, the others 0.5 and 0.4,
/// so the price lengths are 8, 6 and 16.
pub fn price_lengths(alloc: Global, net: &Network) -> Result<Lengths, NoMemory>
    ensures prices { IfOk result (ArePriceLengths net.now.links) }
    ensures small { IfOk result (All (λ n. n ≤ 16)) }
{
    let links = net.links().items();
    lengths_of(alloc, links, &dearest(links))
}
