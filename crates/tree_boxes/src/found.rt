use crate::twigs::Twig;
use net_core::{Counts, List, Routing};

/// Counts that carry the demands and cost less than the plan, with their cost in units of the network and a routing for each state within
/// their capacities.
#[derive(Drop)]
pub struct Cheaper {
    pub counts: Counts,
    pub cost: u128,
    pub routings: List<Routing>,
}

/// What is found at a box.
#[derive(Drop)]
pub enum Found {
    Twig(Twig),
    Cheaper(Cheaper),
}
