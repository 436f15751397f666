ghost use Rattle.std.specs.Prelude.{◌≡◌, ℕ, ◌+◌, ◌<◌, ◌^◌, ◌↔◌, IfOk, IsErrOf, length, slice_index};
ghost use Rattle.plan_terms.specs.Terms.{Joins, Survives, graph, graph_of, IsLeastPath, AreApart};
ghost use Rattle.short_paths.{specs.declared.dijkstra.TheConstants.FAR, specs.inner.ForwardStars.{AreArcs, HasArc, HaveLengths}, specs.inner.Tables.IsTable, specs.inner.TightLinks.AreTables};

use crate::dijkstra::{Search, widened};
use crate::forward_star::ForwardStar;
use crate::path_finder::PathFinder;
use crate::tight_links::{PathFault, way_back};
use net_core::{Lengths, List, Network, NoMemory, NodeId, Path, StateId, States, Surviving};
use std::alloc::Global;

/// The least of the shortest paths of a surviving graph, between any two nodes: one search from each node, run once.
///
/// It takes 16 bytes for each node with each node, 262 KB for 128 nodes, and less for each node and each link.
#[derive(Drop)]
pub struct LeastPaths<'n> {
    alloc: Global,
    graph: Surviving<'n>,
    lengths: List<u128>,
    star: ForwardStar,
    rows: List<List<u128>>,
    pub ghost long: { (e : ℕ) → Survives (graph_of graph) e → 0 < slice_index lengths e },
    pub ghost have: { HaveLengths star.arcs lengths },
    pub ghost nodes: { length star.starts ≡ length graph.net.now.nodes + 1 },
    pub ghost arcs_are: { ∥ AreArcs (Joins (graph_of graph)) star.arcs ∥₁ },
    pub ghost rows_are: { ∥ AreTables (HasArc star.arcs) lengths FAR (length graph.net.now.nodes) rows ∥₁ },
}

/// The distances from each node to each.
fn all_rows(
    alloc: Global,
    star: &ForwardStar,
    lengths: &[u128],
    nodes: usize,
) -> Result<List<List<u128>>, NoMemory>
    requires lengths { HaveLengths star.now.arcs lengths.now }
    requires nodes { length star.now.starts ≡ nodes + 1 }
    ensures { IfOk result (AreTables (HasArc star.now.arcs) lengths.now FAR nodes) }
{
    let mut search = Search::new(alloc, nodes)?;
    let mut rows = List::new(alloc);
    for target in 0..nodes {
        search.run(star, lengths, NodeId(target as u32));
        let row = List::from_slice(alloc, search.found())?;
        rows.push(row)?;
    }
    Ok(rows)
}

impl<'n> LeastPaths<'n> {
    /// Runs the searches.
    ///
    /// There is one length for each link, in any unit, and that of each surviving link is 1 or more. It takes time in the cube of
    /// the nodes, in the nodes times the links, and in the links times those that the state fails.
    pub fn new(
        alloc: Global,
        graph: &Surviving<'n>,
        lengths: &Lengths,
    ) -> Result<LeastPaths<'n>, NoMemory>
        requires lengths { length lengths.now ≡ length graph.now.net.now.links }
        requires long { let g = graph_of graph.now in (e : ℕ) → Survives g e → 0 < slice_index lengths.now e }
        ensures graph { let g = graph_of graph.now in IfOk result (λ p. graph_of p.graph ≡ g) }
        ensures lengths { IfOk result (λ p. p.lengths ≡ lengths.now) }
    {
        let wide = widened(alloc, lengths)?;
        LeastPaths::under(alloc, graph, wide)
    }

    /// Runs the searches under lengths in the width of a search.
    pub(crate) fn under(
        alloc: Global,
        graph: &Surviving<'n>,
        lengths: List<u128>,
    ) -> Result<LeastPaths<'n>, NoMemory>
        requires lengths { length lengths ≡ length graph.now.net.now.links }
        requires short { (e : ℕ) → slice_index lengths e < 2 ^ 100 }
        requires long { let g = graph_of graph.now in (e : ℕ) → Survives g e → 0 < slice_index lengths e }
        ensures graph { let g = graph_of graph.now in IfOk result (λ p. graph_of p.graph ≡ g) }
        ensures lengths { IfOk result (λ p. p.lengths ≡ lengths) }
    {
        let star = ForwardStar::new(alloc, graph)?;
        let rows = all_rows(alloc, &star, lengths.items(), graph.net.nodes().len())?;
        Ok(LeastPaths {
            alloc,
            graph: *graph,
            lengths,
            star,
            rows,
        })
    }

    /// The distance from each node to one of them, `FAR` where no path leads.
    fn distances_to(&self, to: NodeId) -> &[u128]
        requires { to.0 < length self.now.graph.net.now.nodes }
        ensures size { length result.now ≡ length self.now.graph.net.now.nodes }
        ensures table { ∥ IsTable (HasArc self.now.star.arcs) self.now.lengths FAR to.0 result.now ∥₁ }
    {
        self.rows.items()[to.0 as usize].items()
    }

    /// The least of the shortest paths between two nodes, by the numbers of its links. From a node to itself it is the
    /// empty path. It takes time in the links that leave the path's nodes, and memory in the links of the path.
    pub fn path(&self, from: NodeId, to: NodeId) -> Result<Path, PathFault>
        requires from { from.0 < length self.now.graph.net.now.nodes }
        requires to { to.0 < length self.now.graph.net.now.nodes }
        ensures found { let g = graph_of self.now.graph in IfOk result (IsLeastPath (Joins g) self.now.lengths from.0 to.0) }
        ensures apart { let g = graph_of self.now.graph in IsErrOf result PathFault.Apart ↔ AreApart (Joins g) from.0 to.0 }
    {
        let back = self.distances_to(to);
        way_back(self.alloc, &self.star, self.lengths.items(), back, from, to)
    }
}

/// The least of the shortest paths between two nodes, by the numbers of its links, over the links that survive in the
/// state. From a node to itself it is the empty path.
///
/// There is one length for each link, in any unit, and that of each surviving link is 1 or more. In a triangle AB, BC, AC with
/// the lengths 1, 1 and 2 both AB, BC and AC lead from A to C at length 2: the answer is AB, BC, whose first link has the
/// lower number. It takes time in the square of the nodes, and in the links times those that the state fails; memory in the nodes
/// and links.
pub fn least_path(
    alloc: Global,
    net: &Network,
    states: &States,
    state: StateId,
    lengths: &Lengths,
    from: NodeId,
    to: NodeId,
) -> Result<Path, PathFault>
    requires state { state.0 < length states.now.listed + 1 }
    requires lengths { length lengths.now ≡ length net.now.links }
    requires long { (e : ℕ) → Survives (graph net.now states.now state.0) e → 0 < slice_index lengths.now e }
    requires from { from.0 < length net.now.nodes }
    requires to { to.0 < length net.now.nodes }
    ensures found { IfOk result (IsLeastPath (Joins (graph net.now states.now state.0)) lengths.now from.0 to.0) }
    ensures apart { IsErrOf result PathFault.Apart → AreApart (Joins (graph net.now states.now state.0)) from.0 to.0 }
{
    let graph = Surviving { net, states, state };
    let wide = widened(alloc, lengths)?;
    let mut finder = PathFinder::new(alloc, &graph)?;
    finder.least_path(wide.items(), from, to)
}
