use net_core::{LinkId, List, StateId};

/// A link of a plan for people to read. Amounts and costs are in units of the network.
#[derive(Drop)]
pub struct LinkRow {
    pub link: LinkId,
    /// How many modules of each kind it has.
    pub modules: List<u64>,
    /// The pre-installed capacity and that of the modules.
    pub capacity: u128,
    /// The load without failures, rounded up.
    pub normal: u128,
    /// The greatest load over all states, rounded up.
    pub worst: u128,
    /// The first state with that load. The link's use is greatest there too, since its capacity is the same in all states.
    pub state: StateId,
    /// The use of the capacity in that state, in per cent, rounded up; 0 if there is no capacity.
    pub used: u32,
    /// The cost of its modules, and its setup cost if it has modules.
    pub cost: u128,
}

/// A state of a plan for people to read. Amounts are in units of the network.
#[derive(Drop)]
pub struct StateRow {
    pub state: StateId,
    /// The links that it fails, as the failure list gives them.
    pub failed: List<LinkId>,
    /// How much goes along other paths than without failures, rounded up.
    pub rerouted: u128,
    /// The first link with the greatest use; `None` if no link is loaded.
    pub fullest: Option<LinkId>,
    /// The use of that link's capacity, in per cent, rounded up; 0 if there is no such link.
    pub used: u32,
    /// The part of the certificate's raw value that comes from cuts of this state, in tenths of a per cent, rounded to the nearest.
    pub part: u32,
}

/// A link in one state for people to read. Amounts are in units of the network.
#[derive(Clone, Copy, Debug, PartialEq, Eq)]
pub struct LoadRow {
    pub link: LinkId,
    /// How much it carries there, rounded up.
    pub load: u128,
    /// The use of its capacity there, in per cent, rounded up; 0 if there is no capacity.
    pub used: u32,
}

/// A summary of a plan for people to read. Amounts and costs are in units of the network.
#[derive(Clone, Copy, Debug, PartialEq, Eq)]
pub struct PlanSummary {
    /// The cost of all links together.
    pub cost: u128,
    /// The lower bound: no counts of modules that carry the demands cost less.
    pub bound: u128,
    /// The raw value of the certificate, rounded down.
    pub raw: u128,
    /// How far the cost is above the bound, in tenths of a per cent of the cost, rounded to the nearest, but never 0 if it is above.
    pub gap: u32,
    /// The capacity of all links together.
    pub capacity: u128,
    /// The load of all links together without failures, rounded up.
    pub normal: u128,
    /// The number of states, counting the one without failures. The plan carries the demands in all of them.
    pub states: u32,
}
