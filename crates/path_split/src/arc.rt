use net_core::{LinkId, NoMemory, NodeId, Path};
use thiserror::Error;

/// Flow on a link from one of its ends to the other, in units of the network.
#[derive(Clone, Copy, Debug, PartialEq, Eq)]
pub struct Arc {
    pub link: LinkId,
    pub from: NodeId,
    pub num: u64,
}

/// Flow along one path, in units of the network.
#[derive(Drop)]
pub struct PathFlow {
    pub path: Path,
    pub num: u64,
}

/// Why arcs weren't split into paths.
#[derive(Clone, Copy, Debug, PartialEq, Eq, Error)]
pub enum SplitFault {
    /// This node isn't balanced, and it is the first such node.
    #[error("a node isn't balanced")]
    Unbalanced(NodeId),
    /// The call ran out of memory.
    #[error("out of memory")]
    NoMemory,
}

impl From<NoMemory> for SplitFault {
    ghost use Rattle.std.specs.Prelude.{◌≡◌};
    ghost use Rattle.path_split.specs.declared.arc.SplitFault.{SplitFault};

    ghost from_gives = { λ _ fault. fault ≡ SplitFault.NoMemory };

    fn from(_error: NoMemory) -> SplitFault {
        SplitFault::NoMemory
    }
}
