ghost use Rattle.std.specs.Prelude.{◌≡◌, ◌≤◌, ◌<◌};
ghost use Rattle.node_sets.{specs.Boundaries.crosses_boundary, specs.inner.Members.is_in};

use net_core::{Link, NodeId};

/// A set of nodes of a network, which has at most 128: node k is in the set where bit k is 1.
#[derive(Clone, Copy, PartialEq, Eq)]
pub(crate) struct NodeSet {
    bits: u128,
}

impl NodeSet {
    /// The set without nodes.
    pub(crate) fn empty() -> NodeSet {
        NodeSet { bits: 0 }
    }

    /// Whether a node is in the set.
    pub(crate) fn has(self, node: NodeId) -> bool
        requires { node.0 < 128 }
        ensures { result ≡ is_in self node.0 }
    {
        (self.bits >> node.0) % 2 == 1
    }

    /// Whether a link crosses the boundary: one of its ends is in the set, and the other isn't.
    pub(crate) fn is_left_by(self, link: &Link) -> bool
        requires first { link.now.a.0 < 128 }
        requires second { link.now.b.0 < 128 }
        ensures { result ≡ crosses_boundary (is_in self) link.now }
    {
        self.has(link.a) != self.has(link.b)
    }

    /// The set with one node more.
    pub(crate) fn with(self, node: NodeId) -> NodeSet
        requires { node.0 < 128 }
    {
        NodeSet {
            bits: self.bits | (1 << node.0),
        }
    }

    /// The set of the first `nodes` nodes.
    pub(crate) fn of_first(nodes: u32) -> NodeSet
        requires { nodes ≤ 128 }
    {
        let mut set = NodeSet::empty();
        for k in 0..nodes {
            set = set.with(NodeId(k));
        }
        set
    }

    /// This set or that of all other nodes, whichever lacks the first node. Both have the same boundary.
    pub(crate) fn without_first(self, all: NodeSet) -> NodeSet {
        if self.bits % 2 == 0 {
            return self;
        }
        NodeSet {
            bits: self.bits ^ all.bits,
        }
    }
}
