ghost use Rattle.std.specs.Prelude.{length};
ghost use Rattle.net_core.specs.Demands.{AreDemands};

use crate::demand::Demands;
use crate::network::Network;
use crate::states::States;

/// What a plan is made for: a network, its states, and demands of its nodes (the problem instance of SNDlib).
#[derive(Clone, Copy)]
pub struct Instance<'a> {
    pub net: &'a Network,
    pub states: &'a States,
    pub demands: &'a Demands,
    pub ghost belong: { AreDemands (length net.now.nodes) demands.now },
}

/// An instance that owns its parts.
#[derive(Drop)]
pub struct Problem {
    pub net: Network,
    pub states: States,
    pub demands: Demands,
    pub ghost belong: { AreDemands (length net.nodes) demands },
}
