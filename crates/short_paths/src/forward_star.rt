ghost use Rattle.std.{specs.Prelude.{◌≡◌, ℕ, ◌+◌, ◌<◌, ◌≤◌, All, IfOk, OnOk, length}, specs.List.Sorted.{IsPermutation, IsNonDecreasingBy}};
ghost use Rattle.plan_terms.specs.Terms.{Joins, graph_of};
ghost use Rattle.short_paths.specs.inner.ForwardStars.{AddsArcs, AreArcs, AreStarts, IsStartOf, HasArc};

use net_core::{LinkId, List, NoMemory, NodeId, Surviving};
use std::alloc::Global;

/// A surviving link, taken from one of its ends to the other.
#[derive(Clone, Copy)]
pub struct Arc {
    pub link: LinkId,
    pub from: NodeId,
    pub to: NodeId,
}

/// The forward star of a surviving graph: both arcs of each link, sorted by the node that they leave, and where those of
/// each node start.
#[derive(Drop)]
pub struct ForwardStar {
    arcs: List<Arc>,
    starts: List<usize>,
    pub ghost few: { length starts ≤ 129 },
    pub ghost sorted: { AreStarts arcs starts },
    pub ghost within: { All (λ a. (a.from.0 + 1 < length starts) × (a.to.0 + 1 < length starts)) arcs },
}

/// Appends the two arcs of a link, if it survives.
fn add_arcs(graph: &Surviving, link: LinkId, arcs: &mut Vec<Arc>) -> Result<(), NoMemory>
    requires { link.0 < length graph.now.net.now.links }
    ensures { let g = graph_of graph.now in OnOk result (AddsArcs (Joins g) link.0 arcs.old.items arcs.new.items) }
{
    if !graph.has(link) {
        return Ok(());
    }
    let ends = &graph.net.links().items()[link.0 as usize];
    let there = Arc {
        link,
        from: ends.a,
        to: ends.b,
    };
    let back = Arc {
        link,
        from: ends.b,
        to: ends.a,
    };
    arcs.extend_from_slice(&[there, back])?;
    Ok(())
}

/// Both arcs of each link that survives, link by link.
fn surviving_arcs(alloc: Global, graph: &Surviving) -> Result<Vec<Arc>, NoMemory>
    ensures { let g = graph_of graph.now in IfOk result (λ arcs. AreArcs (Joins g) arcs.items) }
{
    let links = graph.net.links().len();
    let mut arcs = Vec::with_capacity(alloc, 2 * links)?;
    for e in 0..links {
        add_arcs(graph, LinkId(e as u32), &mut arcs)?;
    }
    Ok(arcs)
}

/// The arcs, sorted by the node that they leave.
fn sorted(mut arcs: Vec<Arc>) -> List<Arc>
    ensures same { IsPermutation arcs.items result }
    ensures sorted { IsNonDecreasingBy (λ a. a.from.0) result }
{
    arcs.sort_unstable_by_key(|a| a.from.0);
    List::from_vec(arcs)
}

/// Where the arcs start that leave node x or a later one.
fn start_of(arcs: &[Arc], x: usize) -> usize
    requires { IsNonDecreasingBy (λ a. a.from.0) arcs.now }
    ensures { IsStartOf arcs.now x result }
{
    arcs.partition_point(|a| (a.from.0 as usize) < x)
}

/// Where the arcs of each node start, and after the last node how many arcs there are.
fn starts_of(alloc: Global, arcs: &[Arc], nodes: usize) -> Result<List<usize>, NoMemory>
    requires sorted { IsNonDecreasingBy (λ a. a.from.0) arcs.now }
    requires few { nodes ≤ 128 }
    ensures count { IfOk result (λ starts. length starts ≡ nodes + 1) }
    ensures starts { IfOk result (AreStarts arcs.now) }
{
    let mut starts = List::new(alloc);
    for x in 0..nodes + 1 {
        starts.push(start_of(arcs, x))?;
    }
    Ok(starts)
}

impl ForwardStar {
    /// The forward star of a surviving graph.
    pub fn new(alloc: Global, graph: &Surviving) -> Result<ForwardStar, NoMemory>
        ensures nodes { IfOk result (λ star. length star.starts ≡ length graph.now.net.now.nodes + 1) }
        ensures links { IfOk result (λ star. All (λ a. a.link.0 < length graph.now.net.now.links) star.arcs) }
        ensures arcs { let g = graph_of graph.now in IfOk result (λ star. AreArcs (Joins g) star.arcs) }
    {
        let unsorted = surviving_arcs(alloc, graph)?;
        let arcs = sorted(unsorted);
        let starts = starts_of(alloc, arcs.items(), graph.net.nodes().len())?;
        Ok(ForwardStar { arcs, starts })
    }

    /// The arcs that leave a node.
    pub fn leaving(&self, at: NodeId) -> &[Arc]
        requires { at.0 + 1 < length self.now.starts }
        ensures here { (e x y : ℕ) → HasArc result.now e x y → (x ≡ at.0) × HasArc self.now.arcs e x y }
        ensures all { (e y : ℕ) → HasArc self.now.arcs e at.0 y → HasArc result.now e at.0 y }
    {
        let starts = self.starts.items();
        let x = at.0 as usize;
        &self.arcs.items()[starts[x]..starts[x + 1]]
    }
}
