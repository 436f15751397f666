ghost use Rattle.std.specs.Prelude.{◌≡◌, ℕ, ◌<◌, ◌≤◌, All, IfOk, IsTrue, MatchOption, false, length, slice_index};
ghost use Rattle.plan_terms.specs.Terms.{Survives, graph_of};
ghost use Rattle.net_core.specs.Limits.{most_flows};
ghost use Rattle.flow_import.{specs.Imports.flow_load, specs.inner.Steps.{AreLoads, IsFirstAbove, IsFirstLost}};

use flow_file::LinkFlow;
use net_core::{LinkId, Network, NoMemory, Surviving};
use std::alloc::Global;

/// What the flows on each link sum to. What the sums were before does not matter.
fn fill_loads(loads: &mut [u128], flows: &[LinkFlow])
    requires known { All (λ f. f.arc.link.0 < length loads.old) flows.now }
    requires few { length flows.now ≤ most_flows }
    ensures size { length loads.new ≡ length loads.old }
    ensures sums { (e : ℕ) → e < length loads.old → slice_index loads.new e ≡ flow_load flows.now e }
{
    loads.fill(0);
    for flow in flows {
        loads[flow.arc.link.0 as usize] += flow.arc.num as u128;
    }
}

/// What the flows on each link of a network sum to, in both directions together.
pub(crate) fn loads_of(
    alloc: Global,
    net: &Network,
    flows: &[LinkFlow],
) -> Result<Vec<u128>, NoMemory>
    requires known { All (λ f. f.arc.link.0 < length net.now.links) flows.now }
    requires few { length flows.now ≤ most_flows }
    ensures { IfOk result (λ v. AreLoads (length net.now.links) flows.now v.items) }
{
    let mut loads = vec![in alloc; 0u128; net.links().len()]?;
    fill_loads(&mut loads, flows);
    Ok(loads)
}

/// Whether a link survives or has no load.
fn is_alive(graph: &Surviving, link: LinkId, load: u128) -> bool
    requires { link.0 < length graph.now.net.now.links }
    ensures yes { IsTrue result → 0 < load → Survives (graph_of graph.now) link.0 }
    ensures no { result ≡ false → (0 < load) × (Survives (graph_of graph.now) link.0 → ⊥) }
{
    load == 0 || graph.has(link)
}

/// The first link with a load that doesn't survive.
pub(crate) fn first_dead(graph: &Surviving, loads: &[u128]) -> Option<LinkId>
    requires sizes { length loads.now ≡ length graph.now.net.now.links }
    requires few { length loads.now ≤ 256 }
    ensures { MatchOption result
        ((e : ℕ) → e < length loads.now → 0 < slice_index loads.now e → Survives (graph_of graph.now) e)
        (λ e. IsFirstLost (graph_of graph.now) loads.now e.0) }
{
    for e in 0..loads.len() {
        let link = LinkId(e as u32);
        if !is_alive(graph, link, loads[e]) {
            return Some(link);
        }
    }
    None
}

/// The first link whose load is more than its capacity.
pub(crate) fn first_above(loads: &[u128], capacities: &[u128]) -> Option<LinkId>
    requires sizes { length capacities.now ≡ length loads.now }
    requires few { length loads.now ≤ 256 }
    ensures { MatchOption result
        ((e : ℕ) → e < length loads.now → slice_index loads.now e ≤ slice_index capacities.now e)
        (λ e. IsFirstAbove loads.now capacities.now e.0) }
{
    for e in 0..loads.len() {
        if loads[e] > capacities[e] {
            return Some(LinkId(e as u32));
        }
    }
    None
}
