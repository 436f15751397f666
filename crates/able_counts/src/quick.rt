ghost use Rattle.std.specs.Prelude.{◌≡◌, ◌⊎◌, ◌^◌, ◌<◌, All, IfOk, IfSome};
ghost use Rattle.able_counts.{specs.AbleTests.{IsRoutingOf, IsRoutingWithin, IsStopAt}, specs.inner.Tasks.task_case};

use crate::stop::Stop;
use flow_mending::{is_within, mended};
use net_core::{NoMemory, RouteTask, Routing};
use node_sets::grown_set;
use std::alloc::Global;

/// A cut of a set of nodes that capacities violate in a state, if one is found. It takes time in the cube of the nodes.
pub(crate) fn set_stop(alloc: Global, task: &RouteTask) -> Result<Option<Stop>, NoMemory>
    requires { task.now.caps.now.scale ≡ 1 }
    ensures { IfOk result (λ o. IfSome o (IsStopAt (task_case task.now) task.now.caps.now)) }
{
    match grown_set(alloc, task)? {
        Some(cut) => Ok(Some(Stop::Cut(cut.line(task.demands)?))),
        None => Ok(None),
    }
}

/// A cut of a set of nodes that capacities violate in a state, if the routing isn't within them and can't be mended. If it can be, it
/// becomes one within them. No program is solved.
pub(crate) fn quick_stop(
    alloc: Global,
    task: &RouteTask,
    routing: &mut Routing,
) -> Result<Option<Stop>, NoMemory>
    requires scale { task.now.caps.now.scale ≡ 1 }
    requires narrow { All (λ n. n < 2 ^ 62) task.now.caps.now.nums }
    requires routing { IsRoutingOf (task_case task.now) task.now.graph.state.0 routing.old }
    ensures kept { (routing.new ≡ routing.old) ⊎ IsRoutingWithin (task_case task.now) task.now.graph.state.0 task.now.caps.now.nums routing.new }
    ensures stop { IfOk result (λ o. IfSome o (IsStopAt (task_case task.now) task.now.caps.now)) }
{
    if is_within(alloc, routing, task.caps)? {
        return Ok(None);
    }
    match mended(alloc, task, routing)? {
        Some(found) => {
            *routing = found;
            Ok(None)
        }
        None => set_stop(alloc, task),
    }
}
