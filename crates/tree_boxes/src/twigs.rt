use crate::certs::Valued;
use net_core::Evidence;
use tree_check::{Boxed, Node};

/// A box that isn't settled, with its certificate of greatest value among the known ones.
#[derive(Drop)]
pub struct OpenBox {
    pub boxed: Boxed,
    pub best: Valued,
    /// The optimum of the box's program, in thousandths of a unit of the network. Boxes of least rank are split first.
    pub rank: u128,
    /// Where the cuts ended when the box was looked at: the `cuts_end` of the known entries.
    pub seen: usize,
}

/// A place of a tree: a node, or a box that isn't settled yet.
#[derive(Drop)]
pub enum Twig {
    Settled(Node),
    /// A leaf with a single choice of counts, at which a number of some state's routing program is too wide.
    Stuck(Valued, Evidence),
    Open(OpenBox),
}
