use crate::certificate::Certificate;
use crate::quality::Quality;
use net_core::{Copied, Counts, Demands, List, NoMemory, Routing};

/// A plan for one version of the demands: module counts with a routing for each state, what they cost, and a lower bound on
/// what such counts cost. Costs and bounds are in units of the network. It takes memory for the links along all flows, and for a length
/// of each link for each line of the certificate; a copy takes as much again, and time in proportion.
#[derive(Drop)]
pub struct Plan {
    /// How many edits had been accepted.
    pub version: u64,
    /// How many entries the journal had when the plan was made.
    pub position: u64,
    pub demands: Demands,
    /// One count for each module of each link.
    pub counts: Counts,
    /// What the modules cost, and the setup of each link with a positive count.
    pub cost: u128,
    /// One routing for each state, in state order.
    pub routings: List<Routing>,
    pub certificate: Certificate,
    /// The raw value of the certificate is `raw_num / raw_den`.
    pub raw_num: u128,
    pub raw_den: u128,
    /// The raw value, rounded up to a multiple of the greatest common divisor of the modules' costs and of the setups of links
    /// with modules.
    pub bound: u128,
    pub quality: Quality,
}

impl Copied for Plan {
    fn copy(&self) -> Result<Plan, NoMemory> {
        Ok(Plan {
            version: self.version,
            position: self.position,
            demands: self.demands.copy()?,
            counts: self.counts.copy()?,
            cost: self.cost,
            routings: self.routings.copy()?,
            certificate: self.certificate.copy()?,
            raw_num: self.raw_num,
            raw_den: self.raw_den,
            bound: self.bound,
            quality: self.quality.copy()?,
        })
    }
}
