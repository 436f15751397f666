//! Tests of trimmed plans, against least costs that another solver found, or that were worked out by hand.
ghost use Rattle.std.specs.Prelude.{◌≡◌};
ghost use Rattle.plan_terms.specs.Terms.{case_of, IsSurvivable};
ghost use Rattle.trim_plan.specs.Trimmed.{IsRoutedPlan};

use crate::blocked::are_blocked;
use crate::planned::planned;
use crate::searches::{LEAST, sample_problem};
use net_core::{Instance, Network, Problem};
use plan_types::Plan;
use std::alloc::Global;
use std::sync::Wait;
use std::thread::Threads;
use trim_plan::{Trimmed, trim};
use worked_networks::{DemandRow, LinkRow, PARALLEL, TEN, network, problem};

/// A plan with all modules taken off that can be spared.
pub fn trimmed_plan(alloc: Global, instance: &Instance, plan: Plan) -> Option<Trimmed>
    requires survivable { IsSurvivable (case_of instance.now) }
    requires demands { plan.demands ≡ instance.now.demands.now }
    requires routed { IsRoutedPlan (case_of instance.now) plan }
{
    trim(alloc, instance.net, instance.states, plan).ok()
}

/// The cost of a trimmed plan, and the number of its blocks; `None` if plain arithmetic finds a block wrong.
fn judged(net: &Network, trimmed: &Trimmed) -> Option<(u128, usize)> {
    if are_blocked(net, trimmed) {
        Some((trimmed.plan.cost, trimmed.blocks.len()))
    } else {
        None
    }
}

/// The cost of a plan once it is trimmed, and the number of its blocks; `None` if plain arithmetic finds a block wrong.
fn judged_plan(alloc: Global, instance: &Instance, plan: Plan) -> Option<(u128, usize)>
    requires survivable { IsSurvivable (case_of instance.now) }
    requires demands { plan.demands ≡ instance.now.demands.now }
    requires routed { IsRoutedPlan (case_of instance.now) plan }
{
    match trimmed_plan(alloc, instance, plan) {
        Some(trimmed) => judged(instance.net, &trimmed),
        None => None,
    }
}

/// A plan's cost, and what `judged` says of the plan once it is trimmed.
fn trimmed<R: Threads + Wait + Sync>(
    rt: &R,
    alloc: Global,
    instance: &Instance,
) -> Option<(u128, u128, usize)> {
    let plan = planned(rt, alloc, instance)?;
    let before = plan.cost;
    let (after, blocks) = judged_plan(alloc, instance, plan)?;
    Some((before, after, blocks))
}

/// The costs of a sample network's plan and of the trimmed plan, and the number of its blocks.
fn on_sample<R: Threads + Wait + Sync>(
    rt: &R,
    alloc: Global,
    seed: u64,
) -> Option<(u128, u128, usize)> {
    let problem = sample_problem(alloc, seed)?;
    trimmed(rt, alloc, &problem.instance())
}

/// Whether the trimmed plan of a sample network costs between the least cost and that of the plan.
fn costs_between<R: Threads + Wait + Sync>(rt: &R, alloc: Global, seed: u64, least: u128) -> bool {
    match on_sample(rt, alloc, seed) {
        Some((before, after, _)) => least <= after && after <= before,
        None => false,
    }
}

#[test]
fn trimmed_samples_cost_between_the_least_and_the_plan(rt: HostRuntime) {
    for (seed, least) in &LEAST {
        assert!(rt; costs_between(&rt, rt.alloc(), *seed, *least));
    }
}

/// Links, a demand, the costs of the plan and of the trimmed plan in units of the network, and the number of its blocks, where each link
/// may fail.
type Worked = (
    usize,
    &'static [LinkRow<'static>],
    DemandRow,
    u128,
    u128,
    usize,
);

/// The triangle with 10.00 installed on each link. If AC fails, AB and BC need 12.00 each, and if AB fails, AC does: a module on each.
const FIXED: [LinkRow; 3] = [
    (0, 1, 10000, &TEN),
    (1, 2, 10000, &TEN),
    (0, 2, 10000, &TEN),
];

/// Four links. Covers take a module of each, for 20.00; the fallback plan, a path with its detour, takes modules of two of them.
const WIDE_MODULES: [LinkRow; 4] = [
    (0, 1, 0, &TEN),
    (0, 1, 0, &TEN),
    (0, 1, 0, &TEN),
    (0, 1, 0, &TEN),
];

const WORKED: [Worked; 3] = [
    (3, &FIXED, (0, 2, 12000), 15000, 15000, 3),
    (2, &WIDE_MODULES, (0, 1, 10000), 10000, 10000, 2),
    (2, &PARALLEL, (0, 1, 10000), 16000, 14000, 4),
];

/// The problem of a row.
fn worked_problem(alloc: Global, row: &Worked) -> Option<Problem> {
    let net = network(alloc, row.0, row.1).ok()?;
    problem(alloc, net, &[row.2]).ok()
}

/// The cost of a plan and of the trimmed plan, and the number of its blocks.
fn worked<R: Threads + Wait + Sync>(
    rt: &R,
    alloc: Global,
    row: &Worked,
) -> Option<(u128, u128, usize)> {
    let problem = worked_problem(alloc, row)?;
    trimmed(rt, alloc, &problem.instance())
}

#[test]
fn trimmed_plans_have_a_block_for_each_module(rt: HostRuntime) {
    for row in &WORKED {
        assert!(rt; worked(&rt, rt.alloc(), row) == Some((row.3, row.4, row.5)));
    }
}
