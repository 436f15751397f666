ghost use Rattle.std.specs.Prelude.{◌≡◌, ℕ, ◌+◌, ◌<◌, ◌++◌, [], ◌∷◌, IfOk, OnOk, Some, length, slice_get, slice_index, sum_by};
ghost use Rattle.plan_terms.specs.Terms.{graph_in, AreDemands, Joins, Survives, case_of, graph_of, Demand, IsLeastRouting, IsLeastPath, AreApart, IsSurvivable};
ghost use Rattle.module_choice.specs.inner.Routes.{TakesDemand};

use net_core::{Demand, Flow, Instance, Lengths, List, NoMemory, NodeId, Path, Routing, StateId};
use short_paths::{LeastPaths, PathFault};
use std::alloc::Global;

/// Appends the flow of a demand's whole need along a path.
fn add_flow(flows: &mut List<Flow>, demand: u32, path: Path, need: u64) -> Result<(), NoMemory>
    ensures { OnOk result (flows.new ≡ flows.old ++ record { demand = demand; path = path; num = need } ∷ []) }
{
    flows.push(Flow {
        demand,
        path,
        num: need as u128,
    })?;
    Ok(())
}

/// The least path between two nodes that aren't apart.
fn path_between(paths: &LeastPaths, from: NodeId, to: NodeId) -> Result<Path, NoMemory>
    requires from { from.0 < length paths.now.graph.net.now.nodes }
    requires to { to.0 < length paths.now.graph.net.now.nodes }
    requires joined { let g = graph_of paths.now.graph in AreApart (Joins g) from.0 to.0 → ⊥ }
    ensures { let g = graph_of paths.now.graph in IfOk result (IsLeastPath (Joins g) paths.now.lengths from.0 to.0) }
{
    match paths.path(from, to) {
        Ok(path) => Ok(path),
        Err(PathFault::NoMemory) => Err(NoMemory),
        Err(PathFault::Apart) => unreachable!(),
    }
}

/// Appends the flow of a demand, if it has a need.
fn take_demand(
    paths: &LeastPaths,
    d: &Demand,
    k: u32,
    flows: &mut List<Flow>,
) -> Result<(), NoMemory>
    requires from { d.now.from.0 < length paths.now.graph.net.now.nodes }
    requires to { d.now.to.0 < length paths.now.graph.net.now.nodes }
    requires joined { let g = graph_of paths.now.graph in 0 < d.now.need → AreApart (Joins g) d.now.from.0 d.now.to.0 → ⊥ }
    ensures { let g = graph_of paths.now.graph in OnOk result (TakesDemand (Joins g) paths.now.lengths d.now k flows.old flows.new) }
{
    if d.need == 0 {
        return Ok(());
    }
    let path = path_between(paths, d.from, d.to)?;
    add_flow(flows, k, path, d.need)
}

/// Takes one demand after another.
fn route_all(alloc: Global, paths: &LeastPaths, demands: &[Demand]) -> Result<Routing, NoMemory>
    requires demands { AreDemands (length paths.now.graph.net.now.nodes) demands.now }
    requires joined { let g = graph_of paths.now.graph in (k : ℕ) (d : Demand) → slice_get demands.now k ≡ Some d → 0 < d.need
        → AreApart (Joins g) d.from.0 d.to.0 → ⊥ }
    ensures routed { let g = graph_of paths.now.graph in IfOk result (IsLeastRouting (Joins g) paths.now.lengths demands.now) }
    ensures total { IfOk result (λ r. sum_by (λ f. f.num) r.flows ≡ sum_by (λ d. d.need) demands.now) }
{
    let mut flows = List::new(alloc);
    for k in 0..demands.len() {
        take_demand(paths, &demands[k], k as u32, &mut flows)?;
    }
    Ok(Routing { den: 1, flows })
}

/// The routing of a state: each demand that has a need takes the least of its shortest paths.
pub(crate) fn route_state(
    alloc: Global,
    instance: &Instance,
    state: StateId,
    lengths: &Lengths,
) -> Result<Routing, NoMemory>
    requires state { state.0 < length instance.now.states.now.listed + 1 }
    requires lengths { length lengths.now ≡ length instance.now.net.now.links }
    requires long { let g = graph_in (case_of instance.now) state.0 in (e : ℕ) → Survives g e → 0 < slice_index lengths.now e }
    requires survivable { let p = case_of instance.now in IsSurvivable p }
    ensures routed { let p = case_of instance.now in IfOk result (IsLeastRouting (Joins (graph_in p state.0)) lengths.now p.demands) }
    ensures total { IfOk result (λ r. sum_by (λ f. f.num) r.flows ≡ sum_by (λ d. d.need) instance.now.demands.now) }
{
    let graph = instance.in_state(state);
    let paths = LeastPaths::new(alloc, &graph, lengths)?;
    route_all(alloc, &paths, instance.demands.items())
}
