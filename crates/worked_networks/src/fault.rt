use net_core::{NetFault, NoMemory, StatesFault};
use thiserror::Error;

/// Why a table gives no network, states or demands.
#[derive(Clone, Copy, Debug, PartialEq, Eq, Error)]
pub enum WorkedFault {
    /// More than 26 nodes, links or demands, or more than 20 listed states.
    #[error("too many rows")]
    TooMany,
    /// The nodes and links are no network.
    #[error("no network: {0}")]
    Network(NetFault),
    /// The states aren't those of the network.
    #[error("no states: {0}")]
    States(StatesFault),
    /// The demands aren't those of the nodes.
    #[error("no demands of the nodes")]
    Demands,
    /// The call ran out of memory.
    #[error("out of memory")]
    NoMemory,
}

impl From<NoMemory> for WorkedFault {
    ghost use Rattle.std.specs.Prelude.{◌≡◌};
    ghost use Rattle.worked_networks.specs.declared.fault.WorkedFault.{WorkedFault};

    ghost from_gives = { λ _ fault. fault ≡ WorkedFault.NoMemory };

    fn from(_error: NoMemory) -> WorkedFault {
        WorkedFault::NoMemory
    }
}
