ghost use Rattle.std.specs.Prelude.{◌≡◌, All, IfNone, IfOk, length};
ghost use Rattle.plan_terms.specs.Terms.{case_of};
ghost use Rattle.plan_report.specs.Terms.{known_of, AreRoutingsInForm};
ghost use Rattle.plan_checker.{specs.Carried.HasBadPath, specs.inner.Routes.FollowPaths, specs.inner.Tests.IsFirstPair};

use crate::paths::first_astray;
use crate::place::Place;
use net_core::{Instance, NoMemory, Routing, StateId, Surviving};
use std::alloc::Global;

/// The first state with a flow that follows no path, and the first such flow. `seen` is room for a mark of each node.
fn first_bad_path(instance: &Instance, routings: &[Routing], seen: &mut [bool]) -> Option<Place>
    requires form { AreRoutingsInForm (known_of instance.now.net.now instance.now.states.now) instance.now.demands.now routings.now }
    requires size { length seen.old ≡ length instance.now.net.now.nodes }
    ensures first { IsFirstPair (HasBadPath (case_of instance.now) routings.now) result }
    ensures paths { IfNone result (FollowPaths (case_of instance.now) routings.now) }
{
    let demands = instance.demands.items();
    for s in 0..routings.len() {
        let graph = Surviving {
            net: instance.net,
            states: instance.states,
            state: StateId(s as u32),
        };
        if let Some(at) = first_astray(&graph, demands, routings[s].flows.items(), seen) {
            return Some(Place {
                group: s as u32,
                at,
            });
        }
    }
    None
}

/// The first state with a flow that follows no path, and the first such flow. It takes room for a mark of each node, and walks
/// along each path once.
pub(crate) fn bad_path(
    alloc: Global,
    instance: &Instance,
    routings: &[Routing],
) -> Result<Option<Place>, NoMemory>
    requires { AreRoutingsInForm (known_of instance.now.net.now instance.now.states.now) instance.now.demands.now routings.now }
    ensures first { IfOk result (IsFirstPair (HasBadPath (case_of instance.now) routings.now)) }
    ensures paths { IfOk result (λ place. IfNone place (FollowPaths (case_of instance.now) routings.now)) }
{
    let mut seen = vec![in alloc; false; instance.net.nodes().len()]?;
    Ok(first_bad_path(instance, routings, &mut seen))
}
