use metric_cut::Cut;
use net_core::Routing;

/// What is found of the demands of a state at some capacities.
#[derive(Drop)]
pub enum WarmAnswer {
    /// This routing carries them.
    Routed(Routing),
    /// The capacities violate this cut, of a set of nodes or of a row of the basis.
    Violated(Cut),
}
