ghost use Rattle.std.specs.Prelude.{◌≡◌, ℕ, ◌+◌, ◌^◌, ◌<◌, ◌≤◌, [], All, IfOk, OnOk, Some, length, slice_get, slice_index};
ghost use Rattle.plan_terms.specs.Terms.{graph_in, AreDemands, Survives, IsModule, case, case_of, Link, AreWithinLimits, IsFallback, raised, IsSurvivable};
ghost use Rattle.module_choice.specs.inner.Routes.{AreCovered, AreRouted};

use crate::alike::cover_links;
use crate::loads::{loads_of, raise};
use crate::routes::route_state;
use crate::totals::cost;
use module_prices::price_lengths;
use net_core::{
    Counts, Demands, Instance, Lengths, Link, List, Network, NoMemory, Routing, StateId, States,
};
use std::alloc::Global;

/// The plan of one path for each demand in each state.
#[derive(Drop)]
pub struct Fallback {
    /// One count for each module of each link.
    pub counts: Counts,
    /// One routing for each state, the one without failures first.
    pub routings: List<Routing>,
    /// What the counts cost, in units of the network.
    pub cost: u128,
}

/// The routings of states, and the greatest load of each link over them, in units of the network.
#[derive(Drop)]
struct Routed {
    routings: List<Routing>,
    peaks: List<u64>,
}

/// Price lengths, each plus 1.
fn raised(alloc: Global, prices: &[u32]) -> Result<Lengths, NoMemory>
    requires { All (λ n. n ≤ 16) prices.now }
    ensures { IfOk result (λ lengths. lengths ≡ raised prices.now) }
{
    let mut lengths = List::new(alloc);
    for n in prices {
        lengths.push(*n + 1)?;
    }
    Ok(lengths)
}

/// Routes the next state, and raises the greatest loads to those that it brings.
fn route_next(
    alloc: Global,
    instance: &Instance,
    lengths: &Lengths,
    routings: &mut List<Routing>,
    peaks: &mut [u64],
) -> Result<(), NoMemory>
    requires state { length routings.old < length instance.now.states.now.listed + 1 }
    requires lengths { length lengths.now ≡ length instance.now.net.now.links }
    requires long { let p = case_of instance.now in (s e : ℕ) → Survives (graph_in p s) e → 0 < slice_index lengths.now e }
    requires survivable { let p = case_of instance.now in IsSurvivable p }
    requires routed { let p = case_of instance.now in AreRouted p lengths.now (length routings.old) routings.old peaks.old }
    ensures { let p = case_of instance.now in OnOk result (AreRouted p lengths.now (length routings.old + 1) routings.new peaks.new) }
{
    let state = StateId(routings.len() as u32);
    let routing = route_state(alloc, instance, state, lengths)?;
    let loads = loads_of(alloc, instance.net.links().len(), routing.flows.items())?;
    raise(peaks, &loads);
    routings.push(routing)?;
    Ok(())
}

/// Routes one state after another.
fn route_states(alloc: Global, instance: &Instance, lengths: &Lengths) -> Result<Routed, NoMemory>
    requires lengths { length lengths.now ≡ length instance.now.net.now.links }
    requires long { let p = case_of instance.now in (s e : ℕ) → Survives (graph_in p s) e → 0 < slice_index lengths.now e }
    requires survivable { let p = case_of instance.now in IsSurvivable p }
    ensures { let p = case_of instance.now in IfOk result (λ r. AreRouted p lengths.now (length p.listed + 1) r.routings r.peaks) }
{
    let mut routings = List::new(alloc);
    let mut peaks = List::filled(alloc, 0, instance.net.links().len())?;
    for _ in 0..instance.states.count() {
        route_next(alloc, instance, lengths, &mut routings, peaks.items_mut())?;
    }
    Ok(Routed { routings, peaks })
}

/// The fallback plan of an instance.
fn fallback_of(alloc: Global, instance: &Instance) -> Result<Fallback, NoMemory>
    requires { let p = case_of instance.now in IsSurvivable p }
    ensures fallback { let p = case_of instance.now in IfOk result (λ f. IsFallback p f.counts f.routings f.cost) }
    ensures narrow { IfOk result (λ f. AreWithinLimits instance.now.net.now.links f.counts) }
{
    let prices = price_lengths(alloc, instance.net)?;
    let lengths = raised(alloc, prices.items())?;
    let routed = route_states(alloc, instance, &lengths)?;
    let counts = cover_links(alloc, instance.net.links().items(), routed.peaks.items())?;
    let cost = cost(instance.net, &counts);
    Ok(Fallback {
        counts,
        routings: routed.routings,
        cost,
    })
}

/// The fallback plan: one path for each demand in each state, and modules that cover each link's load at the least cost.
///
/// No state separates a demand. The flows of each routing are in the order of the demands. On a triangle AB, BC, AC with
/// modules of 10 for 5, with every single-link failure, a demand of 12 from A to C takes AC, and AB, BC where AC fails: each link gets
/// two modules, and the plan costs 30. It takes a search from each node for each state,
/// and for each different list of modules one table of up to 100,001 entries at a time.
pub fn fallback_plan(
    alloc: Global,
    net: &Network,
    states: &States,
    demands: &Demands,
) -> Result<Fallback, NoMemory>
    requires demands { AreDemands (length net.now.nodes) demands.now }
    requires survivable { IsSurvivable (case net.now states.now demands.now) }
    ensures fallback { IfOk result (λ f. IsFallback (case net.now states.now demands.now) f.counts f.routings f.cost) }
    ensures narrow { IfOk result (λ f. AreWithinLimits net.now.links f.counts) }
{
    let instance = Instance {
        net,
        states,
        demands,
    };
    fallback_of(alloc, &instance)
}
