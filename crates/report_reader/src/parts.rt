use net_core::{Counts, List, Routing};
use plan_types::{Certificate, Quality};

/// Whose plan command it was, its number among that caller's, both from 1, and for which version of the
/// demands and which position in the journal.
#[derive(Clone, Copy)]
pub struct Head {
    pub caller: u32,
    pub serial: u32,
    pub version: u64,
    pub position: u64,
}

/// What a plan costs and its bound, in units of the network, and the raw value of its certificate, a
/// fraction of units.
#[derive(Clone, Copy)]
pub struct Values {
    pub cost: u128,
    pub bound: u128,
    pub raw_num: u128,
    pub raw_den: u128,
}

/// The routings of a plan, one for each state, and how good its bound is.
#[derive(Drop)]
pub struct Routed {
    pub routings: List<Routing>,
    pub quality: Quality,
}

/// What a plan says after its demands.
#[derive(Drop)]
pub struct PlanParts {
    pub values: Values,
    pub counts: Counts,
    pub certificate: Certificate,
    pub routed: Routed,
}
