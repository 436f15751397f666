ghost use Rattle.std.specs.Prelude.{◌≡◌, ◌<◌, ◌+◌, length};
ghost use Rattle.net_core.{specs.Cases.graph_in, specs.Views.{case, case_of, graph_of}};

use crate::graph::Surviving;
use crate::ids::StateId;
use crate::instance::{Instance, Problem};
use crate::list::{Copied, NoMemory};
use crate::plan::Caps;
use crate::route_task::RouteTask;

impl Problem {
    /// The instance, borrowed. It takes constant time and no memory.
    pub fn instance(&self) -> Instance<'_>
        ensures case { case_of result ≡ case self.now.net self.now.states self.now.demands }
        ensures net { result.net.now ≡ self.now.net }
        ensures states { result.states.now ≡ self.now.states }
        ensures demands { result.demands.now ≡ self.now.demands }
    {
        Instance {
            net: &self.net,
            states: &self.states,
            demands: &self.demands,
        }
    }
}

impl<'a> Instance<'a> {
    /// The network in one of the states. It takes constant time and no memory.
    pub fn in_state(&self, state: StateId) -> Surviving<'a>
        requires { state.0 < length self.now.states.now.listed + 1 }
        ensures graph { graph_of result ≡ graph_in (case_of self.now) state.0 }
        ensures net { result.net.now ≡ self.now.net.now }
    {
        Surviving {
            net: self.net,
            states: self.states,
            state,
        }
    }

    /// What is to be routed in one of the states within capacities, one for each link. It takes constant time and no memory.
    pub fn task(&self, state: StateId, caps: &'a Caps) -> RouteTask<'a>
        requires state { state.0 < length self.now.states.now.listed + 1 }
        requires count { length caps.now.nums ≡ length self.now.net.now.links }
        ensures graph { graph_of result.graph ≡ graph_in (case_of self.now) state.0 }
        ensures net { result.graph.net.now ≡ self.now.net.now }
        ensures demands { result.demands.now ≡ self.now.demands.now }
        ensures caps { result.caps.now ≡ caps.now }
    {
        RouteTask {
            graph: self.in_state(state),
            demands: self.demands,
            caps,
        }
    }
}

impl Copied for Problem {
    fn copy(&self) -> Result<Problem, NoMemory> {
        Ok(Problem {
            net: self.net.copy()?,
            states: self.states.copy()?,
            demands: self.demands.copy()?,
        })
    }
}
