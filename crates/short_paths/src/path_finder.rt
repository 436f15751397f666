ghost use Rattle.std.specs.Prelude.{◌≡◌, ℕ, ◌+◌, ◌^◌, ◌<◌, All, IfOk, IsErrOf, length, slice_index};
ghost use Rattle.plan_terms.specs.Terms.{Joins, Survives, graph_of, IsLeastPath, AreApart};
ghost use Rattle.short_paths.{specs.PricedPaths.IsPricedPath, specs.inner.ForwardStars.AreArcs};

use crate::dijkstra::Search;
use crate::forward_star::ForwardStar;
use crate::priced_paths::{PricedPath, scaled, total_of};
use crate::tight_links::{PathFault, way_back};
use net_core::{NoMemory, NodeId, Path, Surviving};
use std::alloc::Global;

/// Searches for one path after another in a surviving graph, under other prices each time. The arcs of the links are listed once.
///
/// It takes memory in the nodes and the links.
#[derive(Drop)]
pub struct PathFinder<'n> {
    alloc: Global,
    graph: Surviving<'n>,
    star: ForwardStar,
    search: Search,
    pub ghost nodes: { length star.starts ≡ length graph.net.now.nodes + 1 },
    pub ghost room: { length search.found.items ≡ length graph.net.now.nodes },
    pub ghost links: { All (λ a. a.link.0 < length graph.net.now.links) star.arcs },
    pub ghost arcs_are: { ∥ AreArcs (Joins (graph_of graph)) star.arcs ∥₁ },
}

impl<'n> PathFinder<'n> {
    /// Lists the arcs. It takes time in the nodes, and in the links times those that the state fails.
    pub fn new(alloc: Global, graph: &Surviving<'n>) -> Result<PathFinder<'n>, NoMemory>
        ensures { IfOk result (λ f. f.graph ≡ graph.now) }
    {
        Ok(PathFinder {
            alloc,
            graph: *graph,
            star: ForwardStar::new(alloc, graph)?,
            search: Search::new(alloc, graph.net.nodes().len())?,
        })
    }

    /// The least of the shortest paths between two nodes, under lengths in the width of a search.
    pub(crate) fn least_path(
        &mut self,
        lengths: &[u128],
        from: NodeId,
        to: NodeId,
    ) -> Result<Path, PathFault>
        requires lengths { length lengths.now ≡ length self.old.graph.net.now.links }
        requires short { (e : ℕ) → slice_index lengths.now e < 2 ^ 100 }
        requires long { let g = graph_of self.old.graph in (e : ℕ) → Survives g e → 0 < slice_index lengths.now e }
        requires from { from.0 < length self.old.graph.net.now.nodes }
        requires to { to.0 < length self.old.graph.net.now.nodes }
        ensures graph { self.new.graph ≡ self.old.graph }
        ensures found { let g = graph_of self.old.graph in IfOk result (IsLeastPath (Joins g) lengths.now from.0 to.0) }
        ensures apart { let g = graph_of self.old.graph in IsErrOf result PathFault.Apart → AreApart (Joins g) from.0 to.0 }
    {
        self.search.run(&self.star, lengths, to);
        way_back(
            self.alloc,
            &self.star,
            lengths,
            self.search.found(),
            from,
            to,
        )
    }

    /// A path between two nodes whose prices have the least sum over all paths of surviving links, and of these one of fewest links.
    ///
    /// There is one price for each link, in any unit, below 2^62, and a price may be 0. It takes time in the square of the nodes and in the
    /// links, and memory for a number of each link.
    pub fn cheapest_path(
        &mut self,
        prices: &[u64],
        from: NodeId,
        to: NodeId,
    ) -> Result<PricedPath, PathFault>
        requires prices { length prices.now ≡ length self.old.graph.net.now.links }
        requires low { All (λ p. p < 2 ^ 62) prices.now }
        requires from { from.0 < length self.old.graph.net.now.nodes }
        requires to { to.0 < length self.old.graph.net.now.nodes }
        ensures graph { self.new.graph ≡ self.old.graph }
        ensures found { let g = graph_of self.old.graph in IfOk result (IsPricedPath (Joins g) prices.now from.0 to.0) }
        ensures apart { let g = graph_of self.old.graph in IsErrOf result PathFault.Apart → AreApart (Joins g) from.0 to.0 }
    {
        let lengths = scaled(self.alloc, prices)?;
        match self.least_path(lengths.items(), from, to) {
            Ok(path) => {
                let total = total_of(prices, path.items());
                Ok(PricedPath { path, total })
            }
            Err(fault) => Err(fault),
        }
    }
}
