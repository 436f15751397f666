use net_core::{Counts, List, Routing};

/// What was imported: counts of modules, what they cost in units of the network, and a routing for each state.
#[derive(Drop)]
pub struct Imported {
    pub counts: Counts,
    pub cost: u128,
    pub routings: List<Routing>,
}
