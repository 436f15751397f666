ghost use Rattle.std.specs.Prelude.{◌≡◌, ◌<◌, ◌^◌, ◌↔◌, All, IfNone, IsTrue, length};
ghost use Rattle.plan_terms.specs.Terms.{IsDemand, Joins, graph_of};
ghost use Rattle.plan_report.specs.Terms.{IsFlowInForm};
ghost use Rattle.plan_checker.{specs.Carried.FollowsPath, specs.Places.HoldsAt, specs.inner.Tests.IsFirstPlace};

use net_core::{Demand, Flow, Surviving};
use short_paths::is_path;

/// Whether a flow follows a path between the ends of its demand.
fn follows_path(graph: &Surviving, demands: &[Demand], flow: &Flow, seen: &mut [bool]) -> bool
    requires form { IsFlowInForm graph.now.net.now.links demands.now flow.now }
    requires belong { All (IsDemand (length graph.now.net.now.nodes)) demands.now }
    requires size { length seen.old ≡ length graph.now.net.now.nodes }
    ensures { let g = graph_of graph.now in IsTrue result ↔ FollowsPath (Joins g) demands.now flow.now }
{
    let demand = &demands[flow.demand as usize];
    is_path(graph, flow.path.items(), demand.from, demand.to, seen)
}

/// The first flow that follows no path.
pub(crate) fn first_astray(
    graph: &Surviving,
    demands: &[Demand],
    flows: &[Flow],
    seen: &mut [bool],
) -> Option<u32>
    requires few { length flows.now < 2 ^ 32 }
    requires form { All (IsFlowInForm graph.now.net.now.links demands.now) flows.now }
    requires belong { All (IsDemand (length graph.now.net.now.nodes)) demands.now }
    requires size { length seen.old ≡ length graph.now.net.now.nodes }
    ensures first { let g = graph_of graph.now in IsFirstPlace (λ f. HoldsAt flows.now f (λ flow. FollowsPath (Joins g) demands.now flow → ⊥)) result }
    ensures paths { let g = graph_of graph.now in IfNone result (All (FollowsPath (Joins g) demands.now) flows.now) }
{
    for f in 0..flows.len() {
        if !follows_path(graph, demands, &flows[f], seen) {
            return Some(f as u32);
        }
    }
    None
}
