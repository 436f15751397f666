use metric_cut::Cut;
use net_core::{Evidence, Routing};

/// Whether capacities carry the demands of a state.
#[derive(Drop)]
pub enum RouteAnswer {
    /// They do, by this routing.
    Routed(Routing),
    /// They don't: they violate this cut.
    Violated(Cut),
    /// It isn't known: a number of this basis is too wide.
    Wide(Evidence),
}
