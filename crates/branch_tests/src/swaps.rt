//! Tests of exchanges of modules, against costs that were worked out by hand.
ghost use Rattle.std.specs.Prelude.{◌≡◌};
ghost use Rattle.plan_terms.specs.Terms.{case_of, IsSurvivable};
ghost use Rattle.trim_plan.specs.Trimmed.{IsRoutedPlan};

use crate::planned::planned;
use crate::searches::{parallel_problem, triangle_problem};
use net_core::{Instance, NoMemory};
use plan_swaps::swap;
use plan_types::Plan;
use std::alloc::Global;
use std::sync::Wait;
use std::thread::Threads;

/// What a plan costs after modules are exchanged, in units of the network.
fn swapped_cost(alloc: Global, instance: &Instance, plan: Plan) -> Option<u128>
    requires survivable { IsSurvivable (case_of instance.now) }
    requires demands { plan.demands ≡ instance.now.demands.now }
    requires routed { IsRoutedPlan (case_of instance.now) plan }
{
    match swap(alloc, instance, plan) {
        Ok(swapped) => Some(swapped.cost),
        Err(NoMemory) => None,
    }
}

/// What the plan of an instance costs before and after modules are exchanged, in units of the network.
fn costs<R: Threads + Wait + Sync>(
    rt: &R,
    alloc: Global,
    instance: &Instance,
) -> Option<(u128, u128)> {
    let plan = planned(rt, alloc, instance)?;
    let before = plan.cost;
    let after = swapped_cost(alloc, instance, plan)?;
    Some((before, after))
}

/// The costs on the triangle with a demand of 12.00 from A to C, where each link may fail.
fn on_triangle<R: Threads + Wait + Sync>(rt: &R, alloc: Global) -> Option<(u128, u128)> {
    let problem = triangle_problem(alloc)?;
    costs(rt, alloc, &problem.instance())
}

/// The costs on four parallel links of modules of 1.00 for 1.00 with a demand of 10.00, where each link may fail.
fn on_parallel_links<R: Threads + Wait + Sync>(rt: &R, alloc: Global) -> Option<(u128, u128)> {
    let problem = parallel_problem(alloc)?;
    costs(rt, alloc, &problem.instance())
}

#[test]
fn exchanged_modules_cost_the_least(rt: HostRuntime) {
    assert!(rt; on_triangle(&rt, rt.alloc()) == Some((30000, 30000)));
    assert!(rt; on_parallel_links(&rt, rt.alloc()) == Some((16000, 14000)));
}
