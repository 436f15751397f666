ghost use Rattle.std.specs.Prelude.{◌≡◌, ◌<◌, IfOk, length};
ghost use Rattle.plan_terms.specs.Terms.{case_of, AreCounts, IsSurvivable};
ghost use Rattle.share_covers.specs.InstalledRoutes.{IsRoutesAnswer, installed_caps};

use flow_router::{RouteAnswer, route_state};
use module_choice::capacities;
use net_core::{Caps, Counts, Evidence, Instance, List, NoMemory, Routing, StateId};
use std::alloc::Global;

/// Whether capacities carry the demands in every state.
#[derive(Drop)]
pub enum InstalledRoutes {
    /// They do: one routing for each state, the one without failures first.
    Routed(List<Routing>),
    /// It isn't known: a number of a state is too wide.
    Wide(Evidence),
    /// They don't in this state.
    Short(StateId),
}

/// Routings in each state within capacities.
fn route_within(
    alloc: Global,
    instance: &Instance,
    caps: &Caps,
) -> Result<InstalledRoutes, NoMemory>
    requires scale { 0 < caps.now.scale }
    requires caps { length caps.now.nums ≡ length instance.now.net.now.links }
    requires survivable { let p = case_of instance.now in IsSurvivable p }
    ensures { let p = case_of instance.now in IfOk result (IsRoutesAnswer p caps.now) }
{
    let mut routings = List::new(alloc);
    for s in 0..instance.states.count() {
        let state = StateId(s);
        match route_state(
            alloc,
            instance.net,
            instance.states,
            state,
            instance.demands,
            caps,
        )? {
            RouteAnswer::Routed(routing) => routings.push(routing)?,
            RouteAnswer::Violated(_) => return Ok(InstalledRoutes::Short(state)),
            RouteAnswer::Wide(evidence) => return Ok(InstalledRoutes::Wide(evidence)),
        }
    }
    Ok(InstalledRoutes::Routed(routings))
}

/// Routings of the demands in each state within the capacities of counts of modules. No state separates a demand.
///
/// On three parallel links with five modules of 1.00 each, a demand of 10.00 is routed in each of the four states; with five, five and
/// four modules it is short in the state that fails the first link. It takes time as `route_state` does, for each state.
pub fn route_installed(
    alloc: Global,
    instance: &Instance,
    counts: &Counts,
) -> Result<InstalledRoutes, NoMemory>
    requires shape { AreCounts instance.now.net.now.links counts.now }
    requires survivable { let p = case_of instance.now in IsSurvivable p }
    ensures { let p = case_of instance.now in IfOk result (IsRoutesAnswer p (installed_caps p.links counts.now)) }
{
    let caps = capacities(alloc, instance.net, counts)?;
    route_within(alloc, instance, &caps)
}
