ghost use Rattle.std.specs.Prelude.{◌≡◌, ◌<◌, ◌+◌, All, length};
ghost use Rattle.plan_terms.specs.Terms.{AreDemands, graph, graph_of};
ghost use Rattle.route_law.specs.Terms.{route_bound, route_slack};
ghost use Rattle.key_rows.specs.Terms.{IsRoom};
ghost use Rattle.key_paths.{specs.Tasks.{HasNarrowBounds, IsTaskAnswer}, specs.inner.Starts.IsStart, specs.inner.Gaining.IsCarrier};

use crate::carrier::Carrier;
use crate::entering::enter;
use crate::finish::{finish, names_of};
use crate::known_carriers::known_carriers;
use crate::numbers::links_of;
use crate::pricing::price;
use crate::start::{room_of, slack_keyed};
use crate::turns::Turn;
use key_rows::{Keyed, Room};
use net_core::{
    Caps, Demands, List, Network, RouteColumn, RouteTask, StateId, States, Surviving, WideKind,
};
use simplex_core::{Optimum, SimplexFault};
use std::alloc::Global;

/// The answer where a number of a basis is too wide.
fn stopped(keyed: Keyed, kind: WideKind<RouteColumn>) -> SimplexFault<RouteColumn>
    ensures { result ≡ SimplexFault.Wide keyed.names kind }
{
    SimplexFault::Wide {
        basis: names_of(keyed),
        kind,
    }
}

/// An optimum of the program, or a basis on which a number is too wide, by turns from the slack basis on.
fn solved(
    alloc: Global,
    task: &RouteTask,
    mut keyed: Keyed,
    room: &mut Room,
    waiting: &mut List<Carrier>,
) -> Result<Optimum<RouteColumn>, SimplexFault<RouteColumn>>
    requires narrow { HasNarrowBounds (graph_of task.now.graph) task.now.demands.now task.now.caps.now }
    requires start { IsStart (length task.now.graph.net.now.links) (length task.now.demands.now)
        (route_bound (graph_of task.now.graph) task.now.demands.now task.now.caps.now)
        (route_slack (graph_of task.now.graph)) keyed }
    requires room { IsRoom (length keyed.rows) room.old }
    requires waiting { All (IsCarrier (graph_of task.now.graph) task.now.demands.now) waiting.old }
    ensures { IsTaskAnswer (graph_of task.now.graph) task.now.demands.now task.now.caps.now result }
{
    loop {
        let Some(name) = price(alloc, task, &keyed, waiting)? else {
            return finish(alloc, keyed);
        };
        match enter(&mut keyed, room, name) {
            Turn::Again => {}
            Turn::Unbounded => unreachable!(),
            Turn::Wide(kind) => return Err(stopped(keyed, kind)),
        }
    }
}

/// An optimum of the program that routes the demands of a task, or a basis of it, reached by gaining steps, on which a number is too
/// wide.
///
/// The paths of `known` that are paths of the demands in this state enter first, as long as they gain. The columns of an optimum at
/// other capacities save most of the searches. Any other column is passed over.
///
/// A basis keeps as many rows as there are links. A turn takes time that grows with the square of the count of links, and
/// a search from each node where no known path gains.
///
/// The triangle AB, BC, AC with 10.00, 2.00 and 6.00 carries 8.00 of a demand of 12.00 from A to C. The prices of BC
/// and AC are 1.
pub fn solve_task(
    alloc: Global,
    task: &RouteTask,
    known: &[RouteColumn],
) -> Result<Optimum<RouteColumn>, SimplexFault<RouteColumn>>
    requires { HasNarrowBounds (graph_of task.now.graph) task.now.demands.now task.now.caps.now }
    ensures { IsTaskAnswer (graph_of task.now.graph) task.now.demands.now task.now.caps.now result }
{
    let mut waiting = known_carriers(alloc, task, known)?;
    let mut room = room_of(alloc, links_of(task))?;
    let keyed = slack_keyed(alloc, task)?;
    solved(alloc, task, keyed, &mut room, &mut waiting)
}

/// `solve_task` for demands within capacities in a state, with no known paths.
/// It takes the time and the memory of `solve_task`.
pub fn solve_routes<'a>(
    alloc: Global,
    net: &'a Network,
    states: &'a States,
    state: StateId,
    demands: &'a Demands,
    caps: &'a Caps,
) -> Result<Optimum<RouteColumn>, SimplexFault<RouteColumn>>
    requires state { state.0 < length states.now.listed + 1 }
    requires belong { AreDemands (length net.now.nodes) demands.now }
    requires count { length caps.now.nums ≡ length net.now.links }
    requires narrow { HasNarrowBounds (graph net.now states.now state.0) demands.now caps.now }
    ensures { IsTaskAnswer (graph net.now states.now state.0) demands.now caps.now result }
{
    let task = RouteTask {
        graph: Surviving { net, states, state },
        demands,
        caps,
    };
    solve_task(alloc, &task, &[])
}
