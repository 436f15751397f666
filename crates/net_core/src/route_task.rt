ghost use Rattle.std.specs.Prelude.{◌≡◌, length};
ghost use Rattle.net_core.specs.Demands.{AreDemands};

use crate::demand::Demands;
use crate::graph::Surviving;
use crate::plan::Caps;

/// What is to be routed: demands within capacities, one number for each link, in a surviving graph.
#[derive(Clone, Copy)]
pub struct RouteTask<'a> {
    pub graph: Surviving<'a>,
    pub demands: &'a Demands,
    pub caps: &'a Caps,
    pub ghost belong: { AreDemands (length graph.net.now.nodes) demands.now },
    pub ghost count: { length caps.now.nums ≡ length graph.net.now.links },
}
