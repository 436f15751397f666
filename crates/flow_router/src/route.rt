ghost use Rattle.std.specs.Prelude.{◌≡◌, ◌*◌, ◌+◌, ◌<◌, ◌^◌, ◌≤◌, All, IfOk, OnErr, length, slice_index, true, false, IsTrue, ◌↔◌};
ghost use Rattle.plan_terms.specs.Terms.{AreDemands, Graph, graph, graph_of};
ghost use Rattle.route_law.specs.Terms.{IsRouteEvidence, AreJoined};
ghost use Rattle.key_paths.specs.Tasks.{HasNarrowBounds};
ghost use Rattle.flow_router.{specs.Answers.IsRouteAnswer, specs.inner.Flowing.LeavesNeed, specs.inner.Solutions.{ArePricesBelow, IsSolution}};

use crate::answer::RouteAnswer;
use crate::flows::{basis_flows, leaves_need};
use crate::link_lengths::{LinkLengths, common_price, lengths_of};
use crate::lowest_terms::lowest;
use crate::numbers::wide_row;
use crate::prices::link_prices;
use greedy_router::greedy_in;
use key_paths::{slack_names, slack_of, solve_task};
use metric_cut::Cut;
use net_core::{
    Caps, Copied, Demands, Evidence, Lengths, List, Network, NoMemory, RouteColumn, RouteTask,
    Routing, StateId, States, Surviving, WideKind,
};
use simplex_core::{Optimum, SimplexFault};
use std::alloc::Global;

/// The answer that a number of a basis is too wide.
fn wide(
    task: &RouteTask,
    basis: List<RouteColumn>,
    kind: WideKind<RouteColumn>,
) -> Result<RouteAnswer, NoMemory>
    requires { IsRouteEvidence (graph_of task.now.graph) task.now.demands.now task.now.caps.now basis kind }
    ensures { IfOk result (IsRouteAnswer (graph_of task.now.graph) task.now.demands.now task.now.caps.now) }
{
    let caps = task.caps.copy()?;
    Ok(RouteAnswer::Wide(Evidence::Route {
        state: task.graph.state,
        caps,
        basis,
        kind,
    }))
}

/// The flows of a best basis that leaves nothing of any demand.
fn routed(
    alloc: Global,
    task: &RouteTask,
    best: &Optimum<RouteColumn>,
) -> Result<RouteAnswer, NoMemory>
    requires solution { IsSolution task.now best.now }
    requires met { LeavesNeed best.now.basis best.now.values → ⊥ }
    ensures { IfOk result (IsRouteAnswer (graph_of task.now.graph) task.now.demands.now task.now.caps.now) }
{
    let flows = basis_flows(alloc, best.basis.items(), best.values.items())?;
    let raw = Routing {
        den: best.den,
        flows,
    };
    Ok(RouteAnswer::Routed(lowest(raw)))
}

/// The cut of lengths that are link prices.
fn cut_of(alloc: Global, task: &RouteTask, lengths: Lengths) -> Result<RouteAnswer, NoMemory>
    requires { ArePricesBelow task.now lengths }
    ensures { IfOk result (IsRouteAnswer (graph_of task.now.graph) task.now.demands.now task.now.caps.now) }
{
    let found = Cut::in_graph(alloc, &task.graph, lengths)?;
    match found {
        Some(cut) => Ok(RouteAnswer::Violated(cut)),
        None => unreachable!(),
    }
}

/// The cut of the link prices of a best basis that leaves something of a demand, unless one of them is too long.
fn violated(
    alloc: Global,
    task: &RouteTask,
    best: &Optimum<RouteColumn>,
) -> Result<RouteAnswer, NoMemory>
    requires solution { IsSolution task.now best.now }
    requires left { LeavesNeed best.now.basis best.now.values }
    requires joined { AreJoined (graph_of task.now.graph) task.now.demands.now }
    ensures { IfOk result (IsRouteAnswer (graph_of task.now.graph) task.now.demands.now task.now.caps.now) }
{
    let links = task.graph.net.links().len();
    let prices = link_prices(alloc, best.duals.nums(), links)?;
    let common = common_price(prices.items());
    if common == 0 {
        unreachable!();
    }
    match lengths_of(alloc, prices.items(), common)? {
        LinkLengths::Fit(lengths) => cut_of(alloc, task, lengths),
        LinkLengths::Long(link) => wide(task, best.basis.copy()?, WideKind::Length(link)),
    }
}

/// The answer that a best basis gives.
fn answer_of(
    alloc: Global,
    task: &RouteTask,
    best: &Optimum<RouteColumn>,
) -> Result<RouteAnswer, NoMemory>
    requires solution { IsSolution task.now best.now }
    requires joined { AreJoined (graph_of task.now.graph) task.now.demands.now }
    ensures { IfOk result (IsRouteAnswer (graph_of task.now.graph) task.now.demands.now task.now.caps.now) }
{
    if leaves_need(best.basis.items(), best.values.items()) {
        violated(alloc, task, best)
    } else {
        routed(alloc, task, best)
    }
}

/// The answer that the routing program gives, which begins with known columns. They become those of the optimum, if there is one.
fn solved(
    alloc: Global,
    task: &RouteTask,
    known: &mut List<RouteColumn>,
) -> Result<RouteAnswer, NoMemory>
    requires narrow { HasNarrowBounds (graph_of task.now.graph) task.now.demands.now task.now.caps.now }
    requires joined { AreJoined (graph_of task.now.graph) task.now.demands.now }
    ensures answer { IfOk result (IsRouteAnswer (graph_of task.now.graph) task.now.demands.now task.now.caps.now) }
    ensures same { OnErr result (known.new ≡ known.old) }
{
    match solve_task(alloc, task, known.items()) {
        Ok(best) => {
            let answer = answer_of(alloc, task, &best)?;
            *known = best.basis;
            Ok(answer)
        }
        Err(SimplexFault::Wide { basis, kind }) => wide(task, basis, kind),
        Err(SimplexFault::NoMemory) => Err(NoMemory),
    }
}

/// The answer to numbers that are narrow: a greedy routing that leaves nothing, or that of the routing program.
fn routed_or_solved(
    alloc: Global,
    task: &RouteTask,
    known: &mut List<RouteColumn>,
) -> Result<RouteAnswer, NoMemory>
    requires narrow { HasNarrowBounds (graph_of task.now.graph) task.now.demands.now task.now.caps.now }
    requires joined { AreJoined (graph_of task.now.graph) task.now.demands.now }
    ensures answer { IfOk result (IsRouteAnswer (graph_of task.now.graph) task.now.demands.now task.now.caps.now) }
    ensures same { OnErr result (known.new ≡ known.old) }
{
    let left = greedy_in(alloc, task)?;
    if left.is_whole() {
        return Ok(RouteAnswer::Routed(left.routing));
    }
    solved(alloc, task, known)
}

/// Whether a task's capacities, numbers over a scale, carry all its demands, where surviving links join the ends of each positive one.
///
/// A routing is in lowest terms, with at most as many flows as links and demands together. A cut's right side at the demands is more
/// than the capacities give along its lengths, so that no routing carries them; the lengths are prices of the links at an optimum.
/// Evidence names a basis of the routing program, and what of it is too wide.
///
/// In the triangle AB, BC, AC with 6.00, 2.00 and 10.00 the demands of 12.00 from A to C and of 4.00 from A to B are routed. With
/// 1.999 on BC they aren't: the links at C have 11.999 together, and the cut has the lengths 0, 1, 1.
///
/// It takes time that grows with the turns of the simplex method, each in the square of the count of links at most, with a search from
/// each node where no known path gains, and memory by that square and by the links of one path for each demand.
///
/// `known` are columns of an earlier optimum, whatever they are: those of them that are paths of the demands in this state enter the
/// routing program first, as long as they gain. Where an optimum is found, `known` becomes its columns, which save most of the searches
/// at the state's next capacities; else it stays as it is.
pub fn route_task(
    alloc: Global,
    task: &RouteTask,
    known: &mut List<RouteColumn>,
) -> Result<RouteAnswer, NoMemory>
    requires { AreJoined (graph_of task.now.graph) task.now.demands.now }
    ensures answer { IfOk result (IsRouteAnswer (graph_of task.now.graph) task.now.demands.now task.now.caps.now) }
    ensures same { OnErr result (known.new ≡ known.old) }
{
    match wide_row(task) {
        Some(row) => {
            let names = slack_names(alloc, task)?;
            wide(task, names, WideKind::Number(slack_of(task, row)))
        }
        None => routed_or_solved(alloc, task, known),
    }
}

/// `route_task` for demands within capacities in a state, with no known columns.
/// It takes the time and the memory of `route_task`.
pub fn route_state<'a>(
    alloc: Global,
    net: &'a Network,
    states: &'a States,
    state: StateId,
    demands: &'a Demands,
    caps: &'a Caps,
) -> Result<RouteAnswer, NoMemory>
    requires state { state.0 < length states.now.listed + 1 }
    requires demands { AreDemands (length net.now.nodes) demands.now }
    requires scale { 0 < caps.now.scale }
    requires caps { length caps.now.nums ≡ length net.now.links }
    requires joined { AreJoined (graph net.now states.now state.0) demands.now }
    ensures { IfOk result (IsRouteAnswer (graph net.now states.now state.0) demands.now caps.now) }
{
    let task = RouteTask {
        graph: Surviving { net, states, state },
        demands,
        caps,
    };
    route_task(alloc, &task, &mut List::new(alloc))
}
