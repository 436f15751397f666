use crate::ids::{LinkId, StateId};
use crate::list::{Copied, List, NoMemory};

/// The links of a path, from its first node to its last.
pub type Path = List<LinkId>;

/// Part of a demand along one path: `num` over the routing's denominator, in units of the network.
#[derive(Drop)]
pub struct Flow {
    pub demand: u32,
    pub path: Path,
    pub num: u128,
}

/// Flows over one denominator.
#[derive(Drop)]
pub struct Routing {
    pub den: u64,
    pub flows: List<Flow>,
}

/// One capacity for each link: `nums` over `scale`, in units of the network.
#[derive(Drop)]
pub struct Caps {
    pub scale: u64,
    pub nums: List<u128>,
}

/// One count for each module of each link.
pub type Counts = List<List<u64>>;

/// One length for each link.
pub type Lengths = List<u32>;

/// A cut: a state and one length for each link, with its right side. Whatever carries the demands in that state needs as much
/// capacity, in units of the network, along the lengths as the right side says (a metric inequality).
#[derive(Drop)]
pub struct CutLine {
    pub state: StateId,
    pub lengths: Lengths,
    pub right: u128,
}

impl Copied for Flow {
    fn copy(&self) -> Result<Flow, NoMemory> {
        Ok(Flow {
            demand: self.demand,
            path: self.path.copy()?,
            num: self.num,
        })
    }
}

impl Copied for Routing {
    fn copy(&self) -> Result<Routing, NoMemory> {
        Ok(Routing {
            den: self.den,
            flows: self.flows.copy()?,
        })
    }
}

impl Copied for Caps {
    fn copy(&self) -> Result<Caps, NoMemory> {
        Ok(Caps {
            scale: self.scale,
            nums: self.nums.copy()?,
        })
    }
}

impl Copied for CutLine {
    fn copy(&self) -> Result<CutLine, NoMemory> {
        Ok(CutLine {
            state: self.state,
            lengths: self.lengths.copy()?,
            right: self.right,
        })
    }
}
