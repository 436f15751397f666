use line_check::{Line, Multiplier};
use net_core::{CutLine, Evidence, LinkId, List};
use plan_types::Plan;

/// A certificate of a box: lines by their index, with numerators over one denominator.
#[derive(Drop)]
pub struct BoxCert {
    pub den: u128,
    pub lines: List<Multiplier>,
}

/// A node of a branch tree. A split has two sides, the other nodes are leaves.
#[derive(Drop)]
pub enum Node {
    /// Up to `at` modules of this kind, then the further ones.
    Split { link: LinkId, module: u32, at: u64 },
    /// The certificate's value for the box is at least the plan's cost.
    Closed(BoxCert),
    /// No counts of the box meet this line.
    Empty { cut: u32 },
    /// An open leaf: the limit of splits was reached.
    Spent(BoxCert),
    /// An open leaf of one choice of counts, of which a number of some state's routing program is too wide.
    Stuck(BoxCert, Evidence),
}

/// What a tree shows.
#[derive(Clone, Copy, Debug, PartialEq, Eq)]
pub enum Verdict {
    /// No counts that carry the demands cost less than the plan.
    Cheapest,
    /// None cost less than this, in units of the network.
    Above(u128),
}

/// A plan with a branch tree in preorder, and the lines that its leaves name by their index: those of the cuts, and then further ones.
#[derive(Drop)]
pub struct Proof {
    pub plan: Plan,
    pub cuts: List<CutLine>,
    /// Each over earlier lines.
    pub lines: List<Line>,
    pub tree: List<Node>,
    pub verdict: Verdict,
}

/// The answer of a check of a proof.
#[derive(Clone, Copy, Debug, PartialEq, Eq)]
pub enum TreeAnswer {
    Accepted,
    /// The first node that doesn't hold; the number of nodes where one is missing, and one more where the verdict doesn't follow.
    Rejected(u32),
    NoMemory,
}
