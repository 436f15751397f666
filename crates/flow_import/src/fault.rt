use net_core::{LinkId, NoMemory, NodeId, StateId};

/// Why flows aren't imported.
#[derive(Clone, Copy, Debug, PartialEq, Eq)]
pub enum ImportFault {
    /// In this state a flow uses this link, which doesn't survive.
    Dead(StateId, LinkId),
    /// In this state the flows of the demand of this place don't balance at this node.
    Unbalanced(StateId, u32, NodeId),
    /// In this state the flows on this link, in both directions together, are more than its capacity.
    Overloaded(StateId, LinkId),
    /// The call ran out of memory.
    NoMemory,
}

impl From<NoMemory> for ImportFault {
    ghost use Rattle.std.specs.Prelude.{◌≡◌};
    ghost use Rattle.flow_import.specs.declared.fault.ImportFault.{ImportFault};

    ghost from_gives = { λ _ fault. fault ≡ ImportFault.NoMemory };

    fn from(_error: NoMemory) -> ImportFault {
        ImportFault::NoMemory
    }
}
