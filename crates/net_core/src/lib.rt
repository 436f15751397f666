//! Networks, demands and failure states that passed their check, and the lists that they are made of.
#![tactic(auto)]

pub mod columns;
pub mod demand;
pub mod graph;
pub mod ids;
pub mod instance;
pub mod journal;
pub mod limits;
pub mod list;
pub mod name;
pub mod network;
mod ownership;
pub mod places;
pub mod plan;
pub mod problem;
pub mod route_task;
pub mod states;
pub mod surviving;
pub mod word_bytes;

pub use columns::{Evidence, MasterColumn, RouteColumn, WideKind};
pub use demand::{Demand, Demands};
pub use graph::Surviving;
pub use ids::{LinkId, NodeId, StateId};
pub use instance::{Instance, Problem};
pub use journal::{Edit, Entry, Reply};
pub use list::{Copied, List, NoMemory};
pub use name::{Name, NameFault};
pub use network::{Link, Module, NetFault, Network, Notes};
pub use ownership::discard;
pub use places::Places;
pub use plan::{Caps, Counts, CutLine, Flow, Lengths, Path, Routing};
pub use route_task::RouteTask;
pub use states::{Listed, States, StatesFault};

/// Bytes, as of a file.
pub type Bytes = List<u8>;
