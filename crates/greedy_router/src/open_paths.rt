ghost use Rattle.std.specs.Prelude.{◌≡◌, ◌<◌, ◌≤◌, ◌^◌, IfOk, MatchOption, length, map, slice_index};
ghost use Rattle.plan_terms.specs.Terms.{Joins, graph_of};
ghost use Rattle.greedy_router.{specs.Blocked.IsBlocked, specs.inner.FullLinks.{IsOpenPath, full_price}};

use net_core::{List, NoMemory, NodeId, Path};
use short_paths::{PathFault, PathFinder, PricedPath};
use std::alloc::Global;

/// The price of a full link. A path of links that aren't full costs less.
const FULL: u64 = 1 << 32;

/// The price of a link by what is left of its capacity.
fn price_of(spare: u128) -> u64
    ensures { result ≡ full_price spare }
{
    if spare == 0 { FULL } else { 1 }
}

/// The prices under which a cheapest path has no full link, if it can, and then the fewest links.
fn full_prices(alloc: Global, spares: &[u128]) -> Result<List<u64>, NoMemory>
    ensures { IfOk result (λ prices. prices ≡ map full_price spares.now) }
{
    let mut prices = List::from_vec(Vec::with_capacity(alloc, spares.len())?);
    for spare in spares {
        prices.push(price_of(*spare))?;
    }
    Ok(prices)
}

/// The path, if it costs less than a full link.
fn cheap_path(priced: PricedPath) -> Option<Path>
    ensures { MatchOption result (2 ^ 32 ≤ priced.total) (λ path. (priced.total < 2 ^ 32) × (path ≡ priced.path)) }
{
    if priced.total < FULL as u128 {
        Some(priced.path)
    } else {
        None
    }
}

/// A path of the fewest links that aren't full, if there is one.
pub fn open_path(
    alloc: Global,
    finder: &mut PathFinder,
    spares: &[u128],
    from: NodeId,
    to: NodeId,
) -> Result<Option<Path>, NoMemory>
    requires spares { length spares.now ≡ length finder.old.graph.net.now.links }
    requires from { from.0 < length finder.old.graph.net.now.nodes }
    requires to { to.0 < length finder.old.graph.net.now.nodes }
    ensures graph { finder.new.graph ≡ finder.old.graph }
    ensures found { let g = graph_of finder.old.graph in IfOk result (λ found. MatchOption found
        (IsBlocked (Joins g) (λ e. 0 < slice_index spares.now e) from.0 to.0)
        (IsOpenPath (Joins g) spares.now from.0 to.0)) }
{
    let prices = full_prices(alloc, spares)?;
    match finder.cheapest_path(prices.items(), from, to) {
        Ok(priced) => Ok(cheap_path(priced)),
        Err(PathFault::Apart) => Ok(None),
        Err(PathFault::NoMemory) => Err(NoMemory),
    }
}
