ghost use Rattle.std.specs.Prelude.{◌≡◌, ℕ, ◌+◌, ◌*◌, ◌<◌, ◌≤◌, ◌^◌, All, IfOk, IfSome, IsTrue, if◌then◌else◌, ◌==◌, length, slice_index};
ghost use Rattle.plan_terms.specs.Terms.{graph_of, load, sent};
ghost use Rattle.route_law.specs.Terms.{IsLowestRouting};
ghost use Rattle.flow_router.specs.Answers.{IsRouted};
ghost use Rattle.flow_mending.specs.inner.Counting.{AreMet, HasForm, IsCountedFlow, needs_over};

use crate::loads::is_within;
use flow_router::common_divisor;
use metric_cut::are_narrow;
use net_core::{Demand, Flow, List, NoMemory, RouteTask, Routing};
use short_paths::{are_links, is_path};
use std::alloc::Global;

/// Whether a flow is positive and follows a path of its demand. `seen` is room for a mark of each node.
fn is_flow(task: &RouteTask, flow: &Flow, seen: &mut [bool]) -> bool
    requires { length seen.old ≡ length task.now.graph.net.now.nodes }
    ensures { IsTrue result → IsCountedFlow (graph_of task.now.graph) task.now.demands.now flow.now }
{
    let Some(d) = task.demands.items().get(flow.demand as usize) else {
        return false;
    };
    let path = flow.path.items();
    flow.num > 0
        && flow.num < 1 << 124
        && are_links(path, task.graph.net.links().len())
        && is_path(&task.graph, path, d.from, d.to, seen)
}

/// Whether all are.
fn are_flows(task: &RouteTask, flows: &[Flow], seen: &mut [bool]) -> bool
    requires { length seen.old ≡ length task.now.graph.net.now.nodes }
    ensures { IsTrue result → All (IsCountedFlow (graph_of task.now.graph) task.now.demands.now) flows.now }
{
    for f in flows {
        if !is_flow(task, f, seen) {
            return false;
        }
    }
    true
}

/// What the demands need over a scale and a denominator, unless a number is too wide.
fn all_needs(
    alloc: Global,
    demands: &[Demand],
    scale: u64,
    den: u64,
) -> Result<Option<List<u128>>, NoMemory>
    ensures { IfOk result (λ o. IfSome o (λ needs. needs ≡ needs_over scale den demands.now)) }
{
    let mut needs = List::from_vec(Vec::with_capacity(alloc, demands.len())?);
    for d in demands {
        match (d.need as u128 * scale as u128).checked_mul(den as u128) {
            Some(need) => needs.push(need)?,
            None => return Ok(None),
        }
    }
    Ok(Some(needs))
}

/// Takes an amount from what a demand needs, unless it needs less.
fn take_one(needs: &mut [u128], demand: u32, num: u128) -> bool
    ensures { IsTrue result → (k : ℕ) → slice_index needs.new k + (if demand == k then num else 0) ≡ slice_index needs.old k }
{
    let at = demand as usize;
    if at >= needs.len() || needs[at] < num {
        return false;
    }
    needs[at] -= num;
    true
}

/// Takes all flows from what the demands need, unless one needs less.
fn take_all(needs: &mut [u128], flows: &[Flow]) -> bool
    ensures { IsTrue result → (k : ℕ) → slice_index needs.new k + sent flows.now k ≡ slice_index needs.old k }
{
    for f in flows {
        if !take_one(needs, f.demand, f.num) {
            return false;
        }
    }
    true
}

/// Whether nothing is left.
fn are_zero(needs: &[u128]) -> bool
    ensures { IsTrue result → All (λ n. n ≡ 0) needs.now }
{
    needs.iter().all(|need| *need == 0)
}

/// Whether flows sum to these amounts of the demands.
fn are_all(needs: &mut [u128], flows: &[Flow]) -> bool
    ensures { IsTrue result → (k : ℕ) → sent flows.now k ≡ slice_index needs.old k }
{
    take_all(needs, flows) && are_zero(needs)
}

/// Whether the flows of each demand sum to what it needs.
fn are_met(alloc: Global, task: &RouteTask, routing: &Routing) -> Result<bool, NoMemory>
    ensures { IfOk result (λ b. IsTrue b → AreMet task.now.demands.now task.now.caps.now.scale routing.now) }
{
    match all_needs(alloc, task.demands.items(), task.caps.scale, routing.den)? {
        Some(mut needs) => Ok(are_all(needs.items_mut(), routing.flows.items())),
        None => Ok(false),
    }
}

/// Whether a routing is in lowest terms.
fn is_lowest(routing: &Routing) -> bool
    requires { 0 < routing.now.den }
    ensures { IsTrue result → IsLowestRouting routing.now }
{
    common_divisor(routing.den as u128, routing.flows.items()) == 1
}

/// Whether a routing is in lowest terms, with few flows.
fn has_form(routing: &Routing, links: usize, demands: usize) -> bool
    requires links { links < 2 ^ 32 }
    requires demands { demands < 2 ^ 32 }
    ensures { IsTrue result → HasForm links demands routing.now }
{
    routing.den > 0
        && routing.den < 1 << 62
        && routing.flows.len() <= links + demands
        && is_lowest(routing)
}

/// Whether the flows of a routing bring no more onto any link than its capacity.
fn fits(alloc: Global, task: &RouteTask, routing: &Routing) -> Result<bool, NoMemory>
    ensures { IfOk result (λ b. IsTrue b → (e : ℕ) → load routing.now.flows e ≤ slice_index task.now.caps.now.nums e * routing.now.den) }
{
    if are_narrow(task.caps.nums.items()) {
        is_within(alloc, routing, task.caps)
    } else {
        Ok(false)
    }
}

/// Whether the flows of a routing follow paths of their demands.
fn follows_paths(alloc: Global, task: &RouteTask, routing: &Routing) -> Result<bool, NoMemory>
    ensures { IfOk result (λ b. IsTrue b → All (IsCountedFlow (graph_of task.now.graph) task.now.demands.now) routing.now.flows) }
{
    let mut seen = List::filled(alloc, false, task.graph.net.nodes().len())?;
    Ok(are_flows(task, routing.flows.items(), seen.items_mut()))
}

/// Whether a routing carries the demands within the capacities, in lowest terms and with few flows. It takes time in the links of its paths.
fn is_routed(alloc: Global, task: &RouteTask, routing: &Routing) -> Result<bool, NoMemory>
    ensures { IfOk result (λ b. IsTrue b → IsRouted (graph_of task.now.graph) task.now.demands.now task.now.caps.now routing.now) }
{
    let links = task.graph.net.links().len();
    Ok(
        has_form(routing, links, task.demands.len())
            && are_met(alloc, task, routing)?
            && fits(alloc, task, routing)?
            && follows_paths(alloc, task, routing)?,
    )
}

/// The routing, if it carries the demands within the capacities, in lowest terms and with few flows. It takes time in the links of the paths, and
/// memory for a number of each link and each demand and a mark of each node.
pub fn if_routed(
    alloc: Global,
    task: &RouteTask,
    routing: Routing,
) -> Result<Option<Routing>, NoMemory>
    ensures { IfOk result (λ o. IfSome o (IsRouted (graph_of task.now.graph) task.now.demands.now task.now.caps.now)) }
{
    if is_routed(alloc, task, &routing)? {
        Ok(Some(routing))
    } else {
        Ok(None)
    }
}
