use crate::ids::NodeId;
use crate::list::{Copied, List, NoMemory};
use crate::name::Name;

/// A demand between two nodes, in units of the network.
#[derive(Drop)]
pub struct Demand {
    pub name: Name,
    pub from: NodeId,
    pub to: NodeId,
    pub need: u64,
}

/// Demands, in the order of the file.
pub type Demands = List<Demand>;

impl Copied for Demand {
    fn copy(&self) -> Result<Demand, NoMemory> {
        Ok(Demand {
            name: self.name.copy()?,
            from: self.from,
            to: self.to,
            need: self.need,
        })
    }
}
