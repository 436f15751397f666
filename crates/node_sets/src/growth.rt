ghost use Rattle.std.specs.Prelude.{◌≡◌, ◌<◌, IfOk, length};

use crate::crossing::{Crossing, NOTHING};
use crate::node_set::NodeSet;
use crate::pair_table::PairTable;
use net_core::{NoMemory, NodeId};
use std::alloc::Global;

/// A set of nodes that grows, with what crosses its boundary and what runs between it and each node.
#[derive(Drop)]
pub(crate) struct Growth<'t> {
    table: &'t PairTable,
    set: NodeSet,
    boundary: Crossing,
    with_set: Vec<Crossing>,
    pub ghost count: { length with_set.items ≡ table.now.nodes },
}

/// Adds a row to what is there, number by number.
fn add_row(to: &mut [Crossing], row: &[Crossing])
    requires { length row.now ≡ length to.old }
    ensures { length to.new ≡ length to.old }
{
    for k in 0..to.len() {
        to[k] = to[k].plus(&row[k]);
    }
}

impl<'t> Growth<'t> {
    /// The empty set.
    pub(crate) fn empty(alloc: Global, table: &'t PairTable) -> Result<Growth<'t>, NoMemory>
        ensures { IfOk result (λ g. g.table.now ≡ table.now) }
    {
        let with_set = vec![in alloc; NOTHING; table.nodes() as usize]?;
        Ok(Growth {
            table,
            set: NodeSet::empty(),
            boundary: NOTHING,
            with_set,
        })
    }

    /// The set.
    pub(crate) fn set(&self) -> NodeSet {
        self.set
    }

    /// What crosses its boundary.
    pub(crate) fn boundary(&self) -> Crossing {
        self.boundary
    }

    /// Whether a node is outside, and a link joins it to the set.
    pub(crate) fn is_beside(&self, node: NodeId) -> bool
        requires { node.0 < self.now.table.now.nodes }
    {
        !self.set.has(node) && self.with_set[node.0 as usize].links > 0
    }

    /// What would cross the boundary with one node more.
    pub(crate) fn boundary_with(&self, node: NodeId) -> Crossing
        requires { node.0 < self.now.table.now.nodes }
    {
        let inner = self.with_set[node.0 as usize];
        let all = self.boundary.plus(&self.table.total(node));
        all.minus(&inner).minus(&inner)
    }

    /// Takes one node more, which is outside.
    pub(crate) fn add(&mut self, node: NodeId)
        requires { node.0 < self.old.table.now.nodes }
        ensures { self.new.table.now ≡ self.old.table.now }
    {
        self.boundary = self.boundary_with(node);
        self.set = self.set.with(node);
        add_row(&mut self.with_set, self.table.row(node));
    }
}
