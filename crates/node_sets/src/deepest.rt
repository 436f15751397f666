ghost use Rattle.std.specs.Prelude.{◌≤◌, length};

use crate::crossing::Crossing;
use crate::node_set::NodeSet;
use net_core::{LinkId, NoMemory, RouteTask};
use std::alloc::Global;

/// How many sets are kept.
const MOST: usize = 12;

/// A set with what crosses its boundary.
#[derive(Clone, Copy)]
pub(crate) struct Found {
    pub(crate) set: NodeSet,
    pub(crate) boundary: Crossing,
}

/// The violated sets that have least capacity for each unit of demand: up to 12 of those that were offered, the least first, each once.
#[derive(Drop)]
pub(crate) struct Deepest {
    all: NodeSet,
    scale: u64,
    found: Vec<Found>,
}

/// What takes sets as they grow.
pub(crate) trait TakesSets {
    /// Takes a set, with what crosses its boundary.
    fn offer(&mut self, set: NodeSet, boundary: Crossing) -> Result<(), NoMemory>;
}

/// Where a set belongs: before the first that has more capacity for each unit of demand.
fn place_of(found: &[Found], boundary: &Crossing) -> usize
    ensures { result ≤ length found.now }
{
    for k in 0..found.len() {
        if boundary.is_deeper(&found[k].boundary) {
            return k;
        }
    }
    found.len()
}

impl Deepest {
    /// None yet, of this number of nodes, with capacities over a scale.
    pub(crate) fn new(alloc: Global, nodes: u32, scale: u64) -> Deepest
        requires { nodes ≤ 128 }
    {
        Deepest {
            all: NodeSet::of_first(nodes),
            scale,
            found: Vec::new(alloc),
        }
    }

    /// The first set whose boundary a failed link crosses, and the first of all where there is none.
    pub(crate) fn choose(&self, task: &RouteTask) -> Option<NodeSet> {
        let crossed = self.found.iter().find(|f| crosses_failed(task, f.set));
        crossed.or(self.found.first()).map(|f| f.set)
    }
}

impl TakesSets for Deepest {
    /// Keeps a set if it is violated and one of the least.
    fn offer(&mut self, set: NodeSet, boundary: Crossing) -> Result<(), NoMemory> {
        if !boundary.is_short(self.scale) {
            return Ok(());
        }
        let set = set.without_first(self.all);
        if self.found.iter().any(|f| f.set == set) {
            return Ok(());
        }
        let place = place_of(&self.found, &boundary);
        if place < MOST {
            self.found.insert(place, Found { set, boundary })?;
            self.found.truncate(MOST);
        }
        Ok(())
    }
}

/// Whether the state fails a link that crosses the boundary of a set.
fn crosses_failed(task: &RouteTask, set: NodeSet) -> bool {
    let graph = &task.graph;
    let links = graph.net.links().items();
    for e in 0..links.len() {
        if set.is_left_by(&links[e]) && graph.states.fails(graph.state, LinkId(e as u32)) {
            return true;
        }
    }
    false
}
