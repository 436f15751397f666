use net_core::{CutLine, Evidence, Routing, StateId};
use plan_types::Spot;

/// What is found of the demands of a state at some capacities.
#[derive(Drop)]
pub enum Separated {
    /// This routing carries them.
    Routed(Routing),
    /// The capacities violate this cut, whose right side is that of the demands; it is in the pool at that place.
    Violated(CutLine, Spot),
    /// It isn't known: a number of this basis is too wide.
    Wide(Evidence),
}

/// What is found of a state.
#[derive(Drop)]
pub struct StateAnswer {
    pub state: StateId,
    pub answer: Separated,
}
