ghost use Rattle.std.specs.Prelude.{◌≡◌, ◌+◌, ◌*◌, ◌<◌, ◌≤◌, IfOk, length};

use crate::crossing::{Crossing, NOTHING};
use net_core::{Link, LinkId, NoMemory, NodeId, RouteTask};
use std::alloc::Global;

/// What runs between each two nodes of a surviving graph, and between each node and all others. It takes 32 bytes
/// times the square of the nodes.
#[derive(Drop)]
pub(crate) struct PairTable {
    nodes: u32,
    /// Row by row: what runs from a node to each.
    pairs: Vec<Crossing>,
    totals: Vec<Crossing>,
    pub ghost few: { nodes ≤ 128 },
    pub ghost size: { length pairs.items ≡ nodes * nodes },
    pub ghost count: { length totals.items ≡ nodes },
}

/// Where the row of a node begins.
fn row_start(nodes: u32, node: NodeId) -> usize
    requires few { nodes ≤ 128 }
    requires node { node.0 < nodes }
    ensures start { result ≡ node.0 * nodes }
    ensures room { result + nodes ≤ nodes * nodes }
{
    (node.0 * nodes) as usize
}

/// Takes from what runs from one node to another.
fn take_one(nodes: u32, pairs: &mut [Crossing], from: NodeId, to: NodeId, less: &Crossing)
    requires few { nodes ≤ 128 }
    requires size { length pairs.old ≡ nodes * nodes }
    requires from { from.0 < nodes }
    requires to { to.0 < nodes }
    ensures { length pairs.new ≡ length pairs.old }
{
    let place = row_start(nodes, from) + to.0 as usize;
    pairs[place] = pairs[place].minus(less);
}

/// A copy of what runs.
fn copied(alloc: Global, items: &[Crossing]) -> Result<Vec<Crossing>, NoMemory>
    ensures { IfOk result (λ copy. length copy.items ≡ length items.now) }
{
    let mut copy = Vec::with_capacity(alloc, items.len())?;
    copy.extend_from_slice(items)?;
    Ok(copy)
}

/// Adds what runs from one node to another.
fn add_one(nodes: u32, pairs: &mut [Crossing], from: NodeId, to: NodeId, more: &Crossing)
    requires few { nodes ≤ 128 }
    requires size { length pairs.old ≡ nodes * nodes }
    requires from { from.0 < nodes }
    requires to { to.0 < nodes }
    ensures { length pairs.new ≡ length pairs.old }
{
    let place = row_start(nodes, from) + to.0 as usize;
    pairs[place] = pairs[place].plus(more);
}

impl PairTable {
    /// The table of nodes between which nothing runs.
    fn bare(alloc: Global, nodes: u32) -> Result<PairTable, NoMemory>
        requires { nodes ≤ 128 }
        ensures { IfOk result (λ t. t.nodes ≡ nodes) }
    {
        let pairs = vec![in alloc; NOTHING; (nodes * nodes) as usize]?;
        let totals = vec![in alloc; NOTHING; nodes as usize]?;
        Ok(PairTable {
            nodes,
            pairs,
            totals,
        })
    }

    /// Adds what runs between two nodes.
    fn add(&mut self, a: NodeId, b: NodeId, more: Crossing)
        requires first { a.0 < self.old.nodes }
        requires second { b.0 < self.old.nodes }
        ensures { self.new.nodes ≡ self.old.nodes }
    {
        add_one(self.nodes, &mut self.pairs, a, b, &more);
        add_one(self.nodes, &mut self.pairs, b, a, &more);
        let first = a.0 as usize;
        let second = b.0 as usize;
        self.totals[first] = self.totals[first].plus(&more);
        self.totals[second] = self.totals[second].plus(&more);
    }

    /// Adds the surviving links.
    fn add_links(&mut self, task: &RouteTask)
        requires { self.old.nodes ≡ length task.now.graph.net.now.nodes }
        ensures { self.new.nodes ≡ self.old.nodes }
    {
        let links = task.graph.net.links().items();
        let nums = task.caps.nums.items();
        for e in 0..links.len() {
            if task.graph.has(LinkId(e as u32)) {
                let more = Crossing {
                    links: 1,
                    capacity: nums[e],
                    demand: 0,
                };
                self.add(links[e].a, links[e].b, more);
            }
        }
    }

    /// Adds the demands.
    fn add_demands(&mut self, task: &RouteTask)
        requires { self.old.nodes ≡ length task.now.graph.net.now.nodes }
        ensures { self.new.nodes ≡ self.old.nodes }
    {
        for d in task.demands.items() {
            let more = Crossing {
                links: 0,
                capacity: 0,
                demand: d.need,
            };
            self.add(d.from, d.to, more);
        }
    }

    /// The table of a task. It takes time in the links, each by the links that the state fails, and in the demands.
    pub(crate) fn new(alloc: Global, task: &RouteTask) -> Result<PairTable, NoMemory>
        ensures { IfOk result (λ t. t.nodes ≡ length task.now.graph.net.now.nodes) }
    {
        let mut table = PairTable::bare(alloc, task.graph.net.nodes().len() as u32)?;
        table.add_links(task);
        table.add_demands(task);
        Ok(table)
    }

    /// A copy of the table.
    fn copy(&self, alloc: Global) -> Result<PairTable, NoMemory>
        ensures { IfOk result (λ t. t.nodes ≡ self.now.nodes) }
    {
        let pairs = copied(alloc, &self.pairs)?;
        let totals = copied(alloc, &self.totals)?;
        Ok(PairTable {
            nodes: self.nodes,
            pairs,
            totals,
        })
    }

    /// Takes away what runs between two nodes.
    fn take(&mut self, a: NodeId, b: NodeId, less: Crossing)
        requires first { a.0 < self.old.nodes }
        requires second { b.0 < self.old.nodes }
        ensures { self.new.nodes ≡ self.old.nodes }
    {
        take_one(self.nodes, &mut self.pairs, a, b, &less);
        take_one(self.nodes, &mut self.pairs, b, a, &less);
        let first = a.0 as usize;
        let second = b.0 as usize;
        self.totals[first] = self.totals[first].minus(&less);
        self.totals[second] = self.totals[second].minus(&less);
    }

    /// The table without one link. It takes a copy.
    pub(crate) fn without(
        &self,
        alloc: Global,
        link: &Link,
        num: u128,
    ) -> Result<PairTable, NoMemory>
        requires first { link.now.a.0 < self.now.nodes }
        requires second { link.now.b.0 < self.now.nodes }
        ensures { IfOk result (λ t. t.nodes ≡ self.now.nodes) }
    {
        let mut table = self.copy(alloc)?;
        let less = Crossing {
            links: 1,
            capacity: num,
            demand: 0,
        };
        table.take(link.a, link.b, less);
        Ok(table)
    }

    /// How many nodes there are.
    pub(crate) fn nodes(&self) -> u32
        ensures { result ≡ self.now.nodes }
    {
        self.nodes
    }

    /// What runs between a node and each.
    pub(crate) fn row(&self, node: NodeId) -> &[Crossing]
        requires { node.0 < self.now.nodes }
        ensures { length result.now ≡ self.now.nodes }
    {
        let start = row_start(self.nodes, node);
        &self.pairs[start..start + self.nodes as usize]
    }

    /// What runs between a node and all others.
    pub(crate) fn total(&self, node: NodeId) -> Crossing
        requires { node.0 < self.now.nodes }
    {
        self.totals[node.0 as usize]
    }
}
