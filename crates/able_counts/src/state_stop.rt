ghost use Rattle.std.specs.Prelude.{◌≡◌, ◌⊎◌, ◌^◌, ◌<◌, All, IfOk, IfSome, None};
ghost use Rattle.plan_terms.specs.Terms.{graph_of, IsSurvivable};
ghost use Rattle.route_law.specs.Terms.{AreJoined};
ghost use Rattle.separator.specs.Terms.{IsFinding};
ghost use Rattle.able_counts.{specs.AbleTests.{IsRoutingOf, IsRoutingWithin, IsStopAt}, specs.inner.Tasks.task_case};

use crate::stop::Stop;
use flow_mending::is_within;
use flow_router::RouteAnswer;
use net_core::{Copied, Flow, Instance, List, NoMemory, RouteColumn, RouteTask, Routing};
use separator::{answer_of, separate_state};
use std::alloc::Global;
use warm_routing::WarmRouter;

/// The number of turns that a kept basis gets.
const TURNS: u32 = 1_000;

/// The columns of a routing's flows.
fn columns_of(alloc: Global, flows: &[Flow]) -> Result<List<RouteColumn>, NoMemory> {
    let mut columns = List::new(alloc);
    for f in flows {
        columns.push(RouteColumn::Carry(f.demand, f.path.copy()?))?;
    }
    Ok(columns)
}

/// What a kept basis finds for a routing task; `None` if it finds nothing in its turns.
fn route_warm(task: &RouteTask, warm: &mut WarmRouter) -> Result<Option<RouteAnswer>, NoMemory>
    requires { 0 < task.now.caps.now.scale }
    ensures { IfOk result (λ o. IfSome o (IsFinding (graph_of task.now.graph) task.now.demands.now task.now.caps.now)) }
{
    match warm.ask(task, TURNS)? {
        Some(found) => Ok(Some(answer_of(found))),
        None => Ok(None),
    }
}

/// Whether capacities carry the demands in a state. The kept basis is asked first, and then a routing program that begins with the paths of
/// the earlier flows.
fn route_anew(
    alloc: Global,
    task: &RouteTask,
    earlier: &[Flow],
    warm: &mut WarmRouter,
) -> Result<RouteAnswer, NoMemory>
    requires scale { 0 < task.now.caps.now.scale }
    requires joined { AreJoined (graph_of task.now.graph) task.now.demands.now }
    ensures { IfOk result (IsFinding (graph_of task.now.graph) task.now.demands.now task.now.caps.now) }
{
    if let Some(answer) = route_warm(task, warm)? {
        return Ok(answer);
    }
    let mut known = columns_of(alloc, earlier)?;
    let instance = Instance {
        net: task.graph.net,
        states: task.graph.states,
        demands: task.demands,
    };
    separate_state(alloc, &instance, task.graph.state, task.caps, &mut known)
}

/// Why capacities don't carry the demands in a state. Where they do, the routing becomes one within them.
///
/// If the routing is within them already, it stays, and no program is solved. Else a program begins with its paths.
pub(crate) fn state_stop(
    alloc: Global,
    task: &RouteTask,
    warm: &mut WarmRouter,
    routing: &mut Routing,
) -> Result<Option<Stop>, NoMemory>
    requires survivable { IsSurvivable (task_case task.now) }
    requires scale { task.now.caps.now.scale ≡ 1 }
    requires narrow { All (λ n. n < 2 ^ 62) task.now.caps.now.nums }
    requires routing { IsRoutingOf (task_case task.now) task.now.graph.state.0 routing.old }
    ensures kept { (routing.new ≡ routing.old) ⊎ IsRoutingWithin (task_case task.now) task.now.graph.state.0 task.now.caps.now.nums routing.new }
    ensures carried { IfOk result (λ o. o ≡ None → IsRoutingWithin (task_case task.now) task.now.graph.state.0 task.now.caps.now.nums routing.new) }
    ensures stop { IfOk result (λ o. IfSome o (IsStopAt (task_case task.now) task.now.caps.now)) }
{
    if is_within(alloc, routing, task.caps)? {
        return Ok(None);
    }
    match route_anew(alloc, task, routing.flows.items(), warm)? {
        RouteAnswer::Routed(found) => {
            *routing = found;
            Ok(None)
        }
        RouteAnswer::Violated(cut) => Ok(Some(Stop::Cut(cut.line(task.demands)?))),
        RouteAnswer::Wide(evidence) => Ok(Some(Stop::Wide(evidence))),
    }
}
