ghost use Rattle.std.specs.Prelude.{◌≡◌, ◌+◌, ◌<◌, IfOk, MatchResult, length};
ghost use Rattle.plan_terms.specs.Terms.{AreCounts, IsSurvivable, capacities, case_of};
ghost use Rattle.plan_swaps.specs.Terms.{AreRoutingsWithin, IsRoutingWithin, IsStopAt, whole_caps};

use able_counts::Stop;
use flow_router::RouteAnswer;
use module_choice::capacities;
use net_core::{Caps, Counts, Instance, List, NoMemory, Routing, StateId};
use separator::separate_state;
use std::alloc::Global;

/// A routing of a state within capacities, or why there is none.
fn route_in(
    alloc: Global,
    instance: &Instance,
    state: StateId,
    caps: &Caps,
) -> Result<Result<Routing, Stop>, NoMemory>
    requires state { state.0 < length instance.now.states.now.listed + 1 }
    requires survivable { IsSurvivable (case_of instance.now) }
    requires scale { caps.now.scale ≡ 1 }
    requires count { length caps.now.nums ≡ length instance.now.net.now.links }
    ensures { IfOk result (λ found. MatchResult found (IsRoutingWithin (case_of instance.now) state.0 caps.now.nums)
        (IsStopAt (case_of instance.now) caps.now)) }
{
    let mut known = List::new(alloc);
    match separate_state(alloc, instance, state, caps, &mut known)? {
        RouteAnswer::Routed(routing) => Ok(Ok(routing)),
        RouteAnswer::Violated(cut) => Ok(Err(Stop::Cut(cut.line(instance.demands)?))),
        RouteAnswer::Wide(evidence) => Ok(Err(Stop::Wide(evidence))),
    }
}

/// A routing for each state within the capacities of counts, however large, or why there is none.
pub(crate) fn stop_anywhere(
    alloc: Global,
    instance: &Instance,
    counts: &Counts,
) -> Result<Result<List<Routing>, Stop>, NoMemory>
    requires survivable { IsSurvivable (case_of instance.now) }
    requires shape { AreCounts instance.now.net.now.links counts.now }
    ensures { IfOk result (λ found. MatchResult found (AreRoutingsWithin (case_of instance.now) (capacities instance.now.net.now.links counts.now))
        (IsStopAt (case_of instance.now) (whole_caps (capacities instance.now.net.now.links counts.now)))) }
{
    let caps = capacities(alloc, instance.net, counts)?;
    let mut routings = List::new(alloc);
    for s in 0..instance.states.count() {
        match route_in(alloc, instance, StateId(s), &caps)? {
            Ok(routing) => routings.push(routing)?,
            Err(stop) => return Ok(Err(stop)),
        }
    }
    Ok(Ok(routings))
}
