ghost use Rattle.std.specs.Prelude.{◌≡◌, ℕ, ◌+◌, ◌*◌, ◌^◌, ◌<◌, ◌≤◌, All, IfOk, IsErrOf, length, map};
ghost use Rattle.plan_terms.specs.Terms.{Joins, graph, graph_of, AreApart, length_of};
ghost use Rattle.short_paths.{specs.PricedPaths.IsPricedPath, specs.inner.Scales.scaled};

use crate::path_finder::PathFinder;
use crate::tight_links::PathFault;
use net_core::{Copied, LinkId, List, Network, NoMemory, NodeId, Path, StateId, States, Surviving};
use std::alloc::Global;

/// A path, and the sum of its prices, in their unit.
#[derive(Drop)]
pub struct PricedPath {
    pub path: Path,
    pub total: u128,
}

impl Copied for PricedPath {
    fn copy(&self) -> Result<PricedPath, NoMemory> {
        Ok(PricedPath {
            path: self.path.copy()?,
            total: self.total,
        })
    }
}

/// Lengths above 0, under which a shortest path has the least price: a price counts more than all links of a path. Links of price 0 have
/// one too, so that they can't lead round in a circle.
pub(crate) fn scaled(alloc: Global, prices: &[u64]) -> Result<List<u128>, NoMemory>
    ensures { IfOk result (λ lengths. lengths ≡ map scaled prices.now) }
{
    let mut lengths = List::from_vec(Vec::with_capacity(alloc, prices.len())?);
    for price in prices {
        lengths.push(*price as u128 * (1 << 20) + 1)?;
    }
    Ok(lengths)
}

/// The sum of a path's prices, of which there is one for each link, in their unit. It takes time in the path's links, and no memory.
pub fn total_of(prices: &[u64], path: &[LinkId]) -> u128
    requires known { All (λ e. e.0 < length prices.now) path.now }
    requires few { length path.now < 128 }
    ensures { result ≡ length_of prices.now path.now }
{
    let mut total = 0;
    for e in path {
        total += prices[e.0 as usize] as u128;
    }
    total
}

/// `priced_path` in a surviving graph.
/// It takes the time and the memory of `priced_path`.
pub fn priced_path_in(
    alloc: Global,
    graph: &Surviving,
    prices: &List<u64>,
    from: NodeId,
    to: NodeId,
) -> Result<PricedPath, PathFault>
    requires prices { length prices.now ≡ length graph.now.net.now.links }
    requires low { All (λ p. p < 2 ^ 62) prices.now }
    requires from { from.0 < length graph.now.net.now.nodes }
    requires to { to.0 < length graph.now.net.now.nodes }
    ensures found { let g = graph_of graph.now in IfOk result (IsPricedPath (Joins g) prices.now from.0 to.0) }
    ensures apart { let g = graph_of graph.now in IsErrOf result PathFault.Apart → AreApart (Joins g) from.0 to.0 }
{
    let mut finder = PathFinder::new(alloc, graph)?;
    finder.cheapest_path(prices.items(), from, to)
}

/// A path between two nodes whose prices have the least sum over all paths of links that survive in the state.
///
/// There is one price for each link, in any unit, below 2^62, and a price may be 0. In a triangle AB, BC, AC with the prices 0, 3
/// and 4 the path from A to C is AB, BC, and its total 3. It takes time in the square of the nodes, and in the links times those
/// that the state fails; memory in the nodes and links.
pub fn priced_path(
    alloc: Global,
    net: &Network,
    states: &States,
    state: StateId,
    prices: &List<u64>,
    from: NodeId,
    to: NodeId,
) -> Result<PricedPath, PathFault>
    requires state { state.0 < length states.now.listed + 1 }
    requires prices { length prices.now ≡ length net.now.links }
    requires low { All (λ p. p < 2 ^ 62) prices.now }
    requires from { from.0 < length net.now.nodes }
    requires to { to.0 < length net.now.nodes }
    ensures found { IfOk result (IsPricedPath (Joins (graph net.now states.now state.0)) prices.now from.0 to.0) }
    ensures apart { IsErrOf result PathFault.Apart → AreApart (Joins (graph net.now states.now state.0)) from.0 to.0 }
{
    let graph = Surviving { net, states, state };
    priced_path_in(alloc, &graph, prices, from, to)
}
