use net_core::{CutLine, List};
use tree_check::{Line, Node, Verdict};

/// What one comment line tells.
#[derive(Drop)]
pub(crate) enum TreeLine {
    Cut(CutLine),
    /// A line over earlier ones.
    Further(Line),
    Branch(Node),
    Last(Verdict),
}

/// What the comment lines up to a place told.
#[derive(Drop)]
pub(crate) struct Sofar {
    pub(crate) cuts: List<CutLine>,
    pub(crate) lines: List<Line>,
    pub(crate) tree: List<Node>,
}
