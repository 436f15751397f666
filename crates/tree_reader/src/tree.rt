use net_core::{CutLine, List};
use tree_check::{Line, Node, Verdict};

/// A branch tree as its comment lines tell it: all of a proof but the plan, which the report above has.
#[derive(Drop)]
pub struct ReadTree {
    pub cuts: List<CutLine>,
    /// Each over earlier lines.
    pub lines: List<Line>,
    pub tree: List<Node>,
    pub verdict: Verdict,
}
