ghost use Rattle.std.specs.Prelude.{◌≡◌, ◌^◌, ◌<◌, All, IfOk, IsErrOf, length, map};
ghost use Rattle.plan_terms.specs.Terms.{Joins, graph_of, AreApart};
ghost use Rattle.short_paths.{specs.PricedPaths.IsPricedPath, specs.inner.Scales.scaled};

use crate::least_paths::LeastPaths;
use crate::priced_paths::{PricedPath, scaled, total_of};
use crate::tight_links::PathFault;
use net_core::{List, NoMemory, NodeId, Surviving};
use std::alloc::Global;

/// The paths of least price in a surviving graph, between any two nodes: one search from each node, run once.
///
/// It takes 16 bytes for each node with each node, 262 KB for 128 nodes, and less for each node and each link.
#[derive(Drop)]
pub struct CheapestPaths<'n> {
    prices: List<u64>,
    paths: LeastPaths<'n>,
    pub ghost count: { length prices ≡ length paths.graph.net.now.links },
    pub ghost low: { All (λ p. p < 2 ^ 62) prices },
    pub ghost same: { paths.lengths ≡ map scaled prices },
}

impl<'n> CheapestPaths<'n> {
    /// Runs the searches.
    ///
    /// There is one price for each link, in any unit, below 2^62, and a price may be 0. It takes time in the cube of the nodes, in
    /// the nodes times the links, and in the links times those that the state fails.
    pub fn new(
        alloc: Global,
        graph: &Surviving<'n>,
        prices: List<u64>,
    ) -> Result<CheapestPaths<'n>, NoMemory>
        requires prices { length prices ≡ length graph.now.net.now.links }
        requires low { All (λ p. p < 2 ^ 62) prices }
        ensures graph { let g = graph_of graph.now in IfOk result (λ p. graph_of p.paths.graph ≡ g) }
        ensures prices { IfOk result (λ p. p.prices ≡ prices) }
    {
        let lengths = scaled(alloc, prices.items())?;
        let paths = LeastPaths::under(alloc, graph, lengths)?;
        Ok(CheapestPaths { prices, paths })
    }

    /// A path between two nodes whose prices have the least sum, and of these one of fewest links. It takes time in the links
    /// that leave the path's nodes, and memory in the links of the path.
    pub fn path(&self, from: NodeId, to: NodeId) -> Result<PricedPath, PathFault>
        requires from { from.0 < length self.now.paths.graph.net.now.nodes }
        requires to { to.0 < length self.now.paths.graph.net.now.nodes }
        ensures found { let g = graph_of self.now.paths.graph in IfOk result (IsPricedPath (Joins g) self.now.prices from.0 to.0) }
        ensures apart { let g = graph_of self.now.paths.graph in IsErrOf result PathFault.Apart → AreApart (Joins g) from.0 to.0 }
    {
        match self.paths.path(from, to) {
            Ok(path) => {
                let total = total_of(self.prices.items(), path.items());
                Ok(PricedPath { path, total })
            }
            Err(fault) => Err(fault),
        }
    }
}
