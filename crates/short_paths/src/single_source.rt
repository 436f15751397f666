ghost use Rattle.std.specs.Prelude.{◌≡◌, ℕ, ◌+◌, ◌<◌, ◌^◌, All, IfOk, length, map};
ghost use Rattle.plan_terms.specs.Terms.{Joins, graph, graph_of};
ghost use Rattle.short_paths.{specs.DistanceRows.AreDistances, specs.inner.ForwardStars.HaveLengths, specs.inner.Tables.answer_of};

use crate::dijkstra::{FAR, Search, widened};
use crate::forward_star::ForwardStar;
use net_core::{Lengths, List, Network, NoMemory, NodeId, StateId, States, Surviving};
use std::alloc::Global;

/// The distance that a number of a search means.
fn answer(found: u128) -> Option<u64>
    requires { found < FAR → found < 2 ^ 39 }
    ensures { result ≡ answer_of FAR found }
{
    if found == FAR {
        None
    } else {
        Some(found as u64)
    }
}

/// The distance that each number of a search means.
fn answers(alloc: Global, found: &[u128]) -> Result<List<Option<u64>>, NoMemory>
    requires { All (λ d. d < FAR → d < 2 ^ 39) found.now }
    ensures { IfOk result (λ row. row ≡ map (answer_of FAR) found.now) }
{
    let mut row = List::from_vec(Vec::with_capacity(alloc, found.len())?);
    for distance in found {
        row.push(answer(*distance))?;
    }
    Ok(row)
}

/// `distances` in a surviving graph.
/// It takes the time and the memory of `distances`.
pub fn distances_in(
    alloc: Global,
    graph: &Surviving,
    lengths: &Lengths,
    from: NodeId,
) -> Result<List<Option<u64>>, NoMemory>
    requires lengths { length lengths.now ≡ length graph.now.net.now.links }
    requires from { from.0 < length graph.now.net.now.nodes }
    ensures { let g = graph_of graph.now in IfOk result (AreDistances (Joins g) lengths.now from.0 (length g.nodes)) }
{
    let star = ForwardStar::new(alloc, graph)?;
    let wide = widened(alloc, lengths)?;
    let mut search = Search::new(alloc, graph.net.nodes().len())?;
    search.run(&star, wide.items(), from);
    answers(alloc, search.found())
}

/// The least length from one node to each, over all paths of the links that survive in the state.
///
/// There is one length for each link, in any unit, and one answer for each node, in their order: 0 for the node itself, and
/// `None` if no path leads there. It takes time in the square of the nodes, and in the links times those that the state fails;
/// memory in the nodes and links, of which 16 bytes for each node stay.
///
/// ```text
/// // the triangle, where each link fails alone, with the lengths 2, 3 and 4 of AB, BC and AC: from A in state 3, which fails AC
/// distances(alloc, &net, &states, StateId(3), &lengths, NodeId(0))?;    // Some(0), Some(2) and Some(5)
/// ```
pub fn distances(
    alloc: Global,
    net: &Network,
    states: &States,
    state: StateId,
    lengths: &Lengths,
    from: NodeId,
) -> Result<List<Option<u64>>, NoMemory>
    requires state { state.0 < length states.now.listed + 1 }
    requires lengths { length lengths.now ≡ length net.now.links }
    requires from { from.0 < length net.now.nodes }
    ensures { IfOk result (AreDistances (Joins (graph net.now states.now state.0)) lengths.now from.0 (length net.now.nodes)) }
{
    let graph = Surviving { net, states, state };
    distances_in(alloc, &graph, lengths, from)
}
