ghost use Rattle.std.specs.Prelude.{◌≡◌, ◌<◌, ◌+◌, IfOk, IfSome, List as Seq, OnErr, length};
ghost use Rattle.plan_terms.specs.Terms.{Caps as CapsOf, Demand, Graph, graph_in, case_of, graph_of};
ghost use Rattle.route_law.specs.Terms.{AreJoined};
ghost use Rattle.warm_routing.specs.WarmAnswers.{IsWarmAnswer};
ghost use Rattle.separator.specs.Findings.{IsFinding, IsFoundCutOf};

use crate::question::StateQuestion;
use crate::ranges::are_caps;
use flow_router::{RouteAnswer, route_task};
use metric_cut::Cut;
use net_core::{Caps, Instance, List, NoMemory, RouteColumn, RouteTask, StateId};
use node_sets::{grown_set, threshold_set};
use std::alloc::Global;
use warm_routing::{WarmAnswer, WarmRouter};

/// How many turns a kept basis is given. A first one takes some thousands where there are thousands of demands, and then too that is less work
/// than the routing program.
const TURNS: u32 = 6_000;

/// The cut of a set of nodes that lie near to each other under the lengths of a violated cut, and that cut itself where no such set is
/// violated or memory runs out, so that a call without memory changes nothing that is known of a state.
fn nearest_set(alloc: Global, task: &RouteTask, cut: Cut) -> Cut
    requires scale { 0 < task.now.caps.now.scale }
    requires cut { IsFoundCutOf (graph_of task.now.graph) task.now.demands.now task.now.caps.now cut }
    ensures { IsFoundCutOf (graph_of task.now.graph) task.now.demands.now task.now.caps.now result }
{
    match threshold_set(alloc, task, cut.lengths()) {
        Ok(Some(set)) => set,
        Ok(None) | Err(NoMemory) => cut,
    }
}

/// What routing finds, its cut exchanged for that of a near set if one is violated.
fn route_near(
    alloc: Global,
    task: &RouteTask,
    known: &mut List<RouteColumn>,
) -> Result<RouteAnswer, NoMemory>
    requires scale { 0 < task.now.caps.now.scale }
    requires joined { AreJoined (graph_of task.now.graph) task.now.demands.now }
    ensures found { IfOk result (IsFinding (graph_of task.now.graph) task.now.demands.now task.now.caps.now) }
    ensures same { OnErr result (known.new ≡ known.old) }
{
    are_caps(task.caps);
    match route_task(alloc, task, known)? {
        RouteAnswer::Violated(cut) => Ok(RouteAnswer::Violated(nearest_set(alloc, task, cut))),
        answer => Ok(answer),
    }
}

/// A violated cut of a set of nodes that grow, else what routing finds.
fn separate_task(
    alloc: Global,
    task: &RouteTask,
    known: &mut List<RouteColumn>,
) -> Result<RouteAnswer, NoMemory>
    requires scale { 0 < task.now.caps.now.scale }
    requires joined { AreJoined (graph_of task.now.graph) task.now.demands.now }
    ensures found { IfOk result (IsFinding (graph_of task.now.graph) task.now.demands.now task.now.caps.now) }
    ensures same { OnErr result (known.new ≡ known.old) }
{
    match grown_set(alloc, task)? {
        Some(set) => Ok(RouteAnswer::Violated(set)),
        None => route_near(alloc, task, known),
    }
}

/// What a kept basis finds, as an answer. It takes constant time.
pub fn answer_of(found: WarmAnswer) -> RouteAnswer
    ensures { (g : Graph) (demands : Seq Demand) (caps : CapsOf) → IsWarmAnswer g demands caps found → IsFinding g demands caps result }
{
    match found {
        WarmAnswer::Routed(routing) => RouteAnswer::Routed(routing),
        WarmAnswer::Violated(cut) => RouteAnswer::Violated(cut),
    }
}

/// What routing finds that begins with the paths of a basis; where none is left, with the known columns.
fn route_on(
    alloc: Global,
    task: &RouteTask,
    known: &mut List<RouteColumn>,
    warm: &WarmRouter,
) -> Result<RouteAnswer, NoMemory>
    requires scale { 0 < task.now.caps.now.scale }
    requires joined { AreJoined (graph_of task.now.graph) task.now.demands.now }
    ensures found { IfOk result (IsFinding (graph_of task.now.graph) task.now.demands.now task.now.caps.now) }
    ensures same { OnErr result (known.new ≡ known.old) }
{
    if !warm.has_basis() {
        return route_near(alloc, task, known);
    }
    let mut columns = warm.columns()?;
    let answer = route_near(alloc, task, &mut columns)?;
    *known = columns;
    Ok(answer)
}

/// What a kept basis finds, and where it finds nothing, what routing finds.
fn route_warm(
    alloc: Global,
    task: &RouteTask,
    known: &mut List<RouteColumn>,
    warm: &mut WarmRouter,
) -> Result<RouteAnswer, NoMemory>
    requires scale { 0 < task.now.caps.now.scale }
    requires joined { AreJoined (graph_of task.now.graph) task.now.demands.now }
    ensures found { IfOk result (IsFinding (graph_of task.now.graph) task.now.demands.now task.now.caps.now) }
    ensures same { OnErr result (known.new ≡ known.old) }
{
    match warm.ask(task, TURNS)? {
        Some(found) => Ok(answer_of(found)),
        None => route_on(alloc, task, known, warm),
    }
}

/// A violated cut of a set of nodes that grow, where the question asks for it, else what a kept basis finds, else what routing finds.
fn separate_task_warm(
    alloc: Global,
    task: &RouteTask,
    question: StateQuestion,
    known: &mut List<RouteColumn>,
    warm: &mut WarmRouter,
) -> Result<RouteAnswer, NoMemory>
    requires scale { 0 < task.now.caps.now.scale }
    requires joined { AreJoined (graph_of task.now.graph) task.now.demands.now }
    ensures found { IfOk result (IsFinding (graph_of task.now.graph) task.now.demands.now task.now.caps.now) }
    ensures same { OnErr result (known.new ≡ known.old) }
{
    match question {
        StateQuestion::SetsFirst => match grown_set(alloc, task)? {
            Some(set) => Ok(RouteAnswer::Violated(set)),
            None => route_warm(alloc, task, known, warm),
        },
        StateQuestion::RoutingAlone => route_warm(alloc, task, known, warm),
    }
}

/// Whether capacities, one number for each link over a scale, carry all demands in a state whose surviving links join the ends of
/// each positive demand: a routing, a cut that they violate, or evidence that a number grew too wide.
///
/// A cut is that of a set of nodes where a violated one is found: first of sets that grow from a node, then of sets that are near
/// under the lengths of the cut that routing finds.
///
/// In the triangle AB, BC, AC with 6.00, 1.999 and 10.00 the demands of 12.00 from A to C and of 4.00 from A to B aren't routed: the
/// links at C have 11.999 together, and the cut has the lengths 0, 1, 1.
///
/// `known` are columns that are known, whatever they are. Where a routing program is solved, they become those that it ends with, of which
/// nothing is promised; where memory runs out, they stay as they are.
///
/// It takes the time and memory of `route_task`, and time in the cube of the nodes.
pub fn separate_state<'a>(
    alloc: Global,
    instance: &Instance<'a>,
    state: StateId,
    caps: &'a Caps,
    known: &mut List<RouteColumn>,
) -> Result<RouteAnswer, NoMemory>
    requires state { state.0 < length instance.now.states.now.listed + 1 }
    requires scale { 0 < caps.now.scale }
    requires caps { length caps.now.nums ≡ length instance.now.net.now.links }
    requires joined { AreJoined (graph_in (case_of instance.now) state.0) instance.now.demands.now }
    ensures found { IfOk result (IsFinding (graph_in (case_of instance.now) state.0) instance.now.demands.now caps.now) }
    ensures same { OnErr result (known.new ≡ known.old) }
{
    let task = RouteTask {
        graph: instance.in_state(state),
        demands: instance.demands,
        caps,
    };
    separate_task(alloc, &task, known)
}

/// Answers as `separate_state` does with known columns, and before it routes it asks a basis that is kept from one such question to the
/// next. A question by routing alone looks for no set of nodes that grow.
///
/// All states and all capacities of a network with its demands have one system of equations with other right sides, so that a basis which
/// one question ended with is some turns away from the next answer. One of this state is nearest. Nothing is known of it, and what it
/// finds is counted anew. Where it finds nothing within 6,000 turns, the state is routed from the paths of that basis, which become known
/// columns; where a number of it grew too wide, from the known columns.
///
/// It takes the time and the memory of `separate_state` and of `WarmRouter::ask`.
pub fn separate_from<'a>(
    alloc: Global,
    instance: &Instance<'a>,
    state: StateId,
    caps: &'a Caps,
    question: StateQuestion,
    known: &mut List<RouteColumn>,
    warm: &mut WarmRouter,
) -> Result<RouteAnswer, NoMemory>
    requires state { state.0 < length instance.now.states.now.listed + 1 }
    requires scale { 0 < caps.now.scale }
    requires caps { length caps.now.nums ≡ length instance.now.net.now.links }
    requires joined { AreJoined (graph_in (case_of instance.now) state.0) instance.now.demands.now }
    ensures found { IfOk result (IsFinding (graph_in (case_of instance.now) state.0) instance.now.demands.now caps.now) }
    ensures same { OnErr result (known.new ≡ known.old) }
{
    let task = RouteTask {
        graph: instance.in_state(state),
        demands: instance.demands,
        caps,
    };
    separate_task_warm(alloc, &task, question, known, warm)
}
