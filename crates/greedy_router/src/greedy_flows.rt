ghost use Rattle.std.{specs.Prelude.{◌≡◌, ◌+◌, ◌<◌, ◌↔◌, All, IfOk, IsTrue, length}, specs.List.range_with_len};
ghost use Rattle.plan_terms.specs.Terms.{AreDemands, IsFlow, Joins, graph, graph_of};
ghost use Rattle.greedy_router.{specs.Left.IsLeft, specs.inner.Drafts.{AreRouted, IsDraft}};

use crate::draft::{Draft, empty_draft};
use crate::order::by_falling_amount;
use crate::routes::route_demand;
use crate::sent_flows::send_again;
use net_core::{
    Caps, Demands, Flow, List, Network, NoMemory, RouteTask, Routing, StateId, States, Surviving,
};
use short_paths::PathFinder;
use std::alloc::Global;

/// A routing, and what it leaves of each demand: the need less the demand's flows, over the scale of the capacities.
#[derive(Drop)]
pub struct Left {
    pub routing: Routing,
    /// One number for each demand.
    pub rest: List<u128>,
}

impl Left {
    /// Whether all demands are carried: nothing is left of any. It takes time in the demands, and no memory.
    pub fn is_whole(&self) -> bool
        ensures { IsTrue result ↔ All (λ r. r ≡ 0) self.now.rest }
    {
        self.rest.items().iter().all(|r| *r == 0)
    }
}

/// What can be sent along the paths of earlier flows, one after another.
fn begin_with(alloc: Global, task: &RouteTask, earlier: &[Flow]) -> Result<Draft, NoMemory>
    requires { All (IsFlow (Joins (graph_of task.now.graph)) task.now.demands.now) earlier.now }
    ensures { IfOk result (IsDraft (Joins (graph_of task.now.graph)) task.now.demands.now task.now.caps.now.scale task.now.caps.now.nums) }
{
    let mut draft = empty_draft(alloc, task.demands.items(), task.caps)?;
    for flow in earlier {
        send_again(flow, &mut draft)?;
    }
    Ok(draft)
}

/// Routes one demand after another, those of which more is missing first.
fn route_missing(alloc: Global, task: &RouteTask, earlier: &[Flow]) -> Result<Draft, NoMemory>
    requires { All (IsFlow (Joins (graph_of task.now.graph)) task.now.demands.now) earlier.now }
    ensures { IfOk result (AreRouted (Joins (graph_of task.now.graph)) task.now.demands.now task.now.caps.now.scale task.now.caps.now.nums
        (range_with_len 0 (length task.now.demands.now))) }
{
    let mut draft = begin_with(alloc, task, earlier)?;
    let demands = task.demands.items();
    let order = by_falling_amount(alloc, draft.rest.items())?;
    let mut finder = PathFinder::new(alloc, &task.graph)?;
    for k in order.items() {
        route_demand(alloc, &mut finder, &demands[*k as usize], *k, &mut draft)?;
    }
    Ok(draft)
}

/// `greedy_in` that begins with the paths of an earlier routing of the demands in the task's graph, whatever the capacities were: along
/// each path, in their order, goes as much as its links have left, up to what is missing of the demand. Then what is missing of the
/// demands is routed as by `greedy_in`, the most first.
///
/// Where the earlier routing still fits, or nearly so, it searches only for few demands, or for none. It takes the time of `greedy_in` for these
/// and time in the links of the earlier paths, and memory for a copy of each path.
///
/// The triangle AB, BC, AC with 4.00 on AB and BC and 2.00 on AC and a demand of 6.00 from A to C, of which 4.00 went over AC and 2.00
/// over AB and BC, gets 2.00 over AC and 4.00 over AB and BC, without a search.
pub fn greedy_after(alloc: Global, task: &RouteTask, earlier: &[Flow]) -> Result<Left, NoMemory>
    requires { All (IsFlow (Joins (graph_of task.now.graph)) task.now.demands.now) earlier.now }
    ensures { IfOk result (IsLeft (Joins (graph_of task.now.graph)) task.now.demands.now task.now.caps.now.scale task.now.caps.now.nums) }
{
    let draft = route_missing(alloc, task, earlier)?;
    Ok(Left {
        routing: Routing {
            den: 1,
            flows: draft.flows,
        },
        rest: draft.rest,
    })
}

/// Routes the demands of a task, those of greater need first and of equal ones the earlier, each along
/// paths of the fewest links that have spare capacity, until it is carried or no such path is left.
///
/// There is one number for each link. A demand that is left with a rest has no path any more on which each link has spare
/// capacity, though another routing may carry more. It takes one search of the paths for each flow and for each demand, and
/// so time in the square of the nodes, times links and demands together.
///
/// The triangle AB, BC, AC with 4.00 on each link and a demand of 12.00 from A to C gets two flows, of 4.00 over AC and of
/// 4.00 over AB and BC, and 4.00 are left.
pub fn greedy_in(alloc: Global, task: &RouteTask) -> Result<Left, NoMemory>
    ensures { IfOk result (IsLeft (Joins (graph_of task.now.graph)) task.now.demands.now task.now.caps.now.scale task.now.caps.now.nums) }
{
    greedy_after(alloc, task, &[])
}

/// `greedy_in` for demands within capacities in a state.
/// It takes the time and the memory of `greedy_in`.
pub fn greedy<'a>(
    alloc: Global,
    net: &'a Network,
    states: &'a States,
    state: StateId,
    demands: &'a Demands,
    caps: &'a Caps,
) -> Result<Left, NoMemory>
    requires state { state.0 < length states.now.listed + 1 }
    requires demands { AreDemands (length net.now.nodes) demands.now }
    requires caps { length caps.now.nums ≡ length net.now.links }
    ensures { IfOk result (IsLeft (Joins (graph net.now states.now state.0)) demands.now caps.now.scale caps.now.nums) }
{
    let task = RouteTask {
        graph: Surviving { net, states, state },
        demands,
        caps,
    };
    greedy_in(alloc, &task)
}
