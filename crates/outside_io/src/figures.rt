/// Where a planning is at the end of a round.
#[derive(Clone, Copy, Debug, PartialEq, Eq)]
pub struct RoundFigures {
    /// The round, from 1 on.
    pub round: u32,
    /// How many cuts its certificate was made of.
    pub cuts: usize,
    /// The certificate is worth `raw_num / raw_den` units of the network, in lowest terms.
    pub raw_num: u128,
    pub raw_den: u128,
    /// The number of the states that were asked in which the certificate's share of capacities carries the demands.
    pub routed: usize,
}

/// Where the growth of a branch tree is.
#[derive(Clone, Copy, Debug, PartialEq, Eq)]
pub struct TreeFigures {
    /// The number of boxes that were split, and the number that may be.
    pub splits: u32,
    pub limit: u32,
    /// What the cheapest plan so far costs, in units of the network.
    pub cost: u128,
    /// No plan costs less, in units of the network.
    pub bound: u128,
    /// The number of boxes that are open.
    pub open: usize,
}
