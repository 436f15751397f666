ghost use Rattle.std.specs.Prelude.{◌≡◌, ℕ, ◌+◌, ◌<◌, ◌≤◌, ◌++◌, ◌^◌, All, IfOk, OnOk, length, map, slice_index};
ghost use Rattle.plan_terms.specs.Terms.{Joins, graph, graph_of};
ghost use Rattle.short_paths.{specs.DistanceTables.AreAllDistances, specs.inner.ForwardStars.{HasArc, HaveLengths}, specs.inner.Pairs.{AddsRow, ArePairs, narrowed}};

use crate::dijkstra::{FAR, Search, widened};
use crate::distance_table::{DistanceTable, narrowed, pair_count};
use crate::forward_star::ForwardStar;
use net_core::{Lengths, List, Network, NoMemory, NodeId, StateId, States, Surviving};
use std::alloc::Global;

/// Appends the numbers of a search, narrowed.
fn add_narrowed(found: &[u128], pairs: &mut List<u64>) -> Result<(), NoMemory>
    ensures { OnOk result (pairs.new ≡ pairs.old ++ map narrowed found.now) }
{
    for distance in found {
        pairs.push(narrowed(*distance))?;
    }
    Ok(())
}

/// Appends the numbers of one node with each node before it.
fn add_row(
    star: &ForwardStar,
    lengths: &[u128],
    high: u32,
    search: &mut Search,
    pairs: &mut List<u64>,
) -> Result<(), NoMemory>
    requires lengths { HaveLengths star.now.arcs lengths.now }
    requires nodes { length star.now.starts ≡ length search.old.found.items + 1 }
    requires high { high < length search.old.found.items }
    ensures size { length search.new.found.items ≡ length search.old.found.items }
    ensures row { OnOk result (AddsRow (HasArc star.now.arcs) lengths.now FAR high pairs.old pairs.new) }
{
    search.run(star, lengths, NodeId(high));
    add_narrowed(&search.found()[..high as usize], pairs)
}

/// The numbers of each two nodes, one search from each node.
fn pairs_of(
    alloc: Global,
    star: &ForwardStar,
    lengths: &[u128],
    nodes: u32,
) -> Result<List<u64>, NoMemory>
    requires lengths { HaveLengths star.now.arcs lengths.now }
    requires short { (e : ℕ) → slice_index lengths.now e < 2 ^ 32 }
    requires nodes { length star.now.starts ≡ nodes + 1 }
    ensures { IfOk result (ArePairs (HasArc star.now.arcs) lengths.now nodes) }
{
    let mut search = Search::new(alloc, nodes as usize)?;
    let mut pairs = List::from_vec(Vec::with_capacity(alloc, pair_count(nodes))?);
    for high in 0..nodes {
        add_row(star, lengths, high, &mut search, &mut pairs)?;
    }
    Ok(pairs)
}

/// `all_pairs` in a surviving graph.
/// It takes the time and the memory of `all_pairs`.
pub fn all_pairs_in(
    alloc: Global,
    graph: &Surviving,
    lengths: &Lengths,
) -> Result<DistanceTable, NoMemory>
    requires { length lengths.now ≡ length graph.now.net.now.links }
    ensures { let g = graph_of graph.now in IfOk result (AreAllDistances (Joins g) lengths.now (length g.nodes)) }
{
    let star = ForwardStar::new(alloc, graph)?;
    let wide = widened(alloc, lengths)?;
    let nodes = graph.net.nodes().len() as u32;
    let pairs = pairs_of(alloc, &star, wide.items(), nodes)?;
    Ok(DistanceTable::of_pairs(nodes, pairs))
}

/// The least length between each two nodes, over all paths of the links that survive in the state: one search from each
/// node.
///
/// There is one length for each link, in any unit, and a length may be 0. In a triangle AB, BC, AC with the lengths 1, 1 and 5
/// the distance of A and C is 2; in a state that fails BC it is 5, and in one that fails AC as well it is `None`.
///
/// It takes time in the cube of the nodes, in the nodes times the links, and in the links times those that the state fails;
/// memory for the table, and while it runs for each node and each link.
pub fn all_pairs(
    alloc: Global,
    net: &Network,
    states: &States,
    state: StateId,
    lengths: &Lengths,
) -> Result<DistanceTable, NoMemory>
    requires state { state.0 < length states.now.listed + 1 }
    requires lengths { length lengths.now ≡ length net.now.links }
    ensures { IfOk result (AreAllDistances (Joins (graph net.now states.now state.0)) lengths.now (length net.now.nodes)) }
{
    let graph = Surviving { net, states, state };
    all_pairs_in(alloc, &graph, lengths)
}
