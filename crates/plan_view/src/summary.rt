ghost use Rattle.std.specs.Prelude.{◌≡◌, ℕ, ◌*◌, ◌<◌, ◌≤◌, ◌^◌, All, IfOk, length, sum_by};
ghost use Rattle.plan_terms.specs.Terms.{case_of, load, sum_below};
ghost use Rattle.plan_view.{specs.Rows.IsPlanSummary, specs.Sound.IsSoundPlan};

use crate::fractions::ceiling;
use crate::loads::load_of;
use crate::parts::gap_of;
use crate::rows::PlanSummary;
use module_choice::capacities;
use net_core::{Flow, Instance, LinkId, NoMemory};
use plan_types::Plan;
use std::alloc::Global;

/// What flows bring onto this many links together, over their denominator.
fn total_load(flows: &[Flow], links: usize) -> u128
    requires few { links ≤ 256 }
    requires low { (e : ℕ) → load flows.now e ≤ 2 ^ 108 }
    ensures { result ≡ sum_below links (load flows.now) }
{
    let mut total = 0;
    for e in 0..links {
        total += load_of(flows, LinkId(e as u32));
    }
    total
}

/// The capacity of all links together.
fn total_capacity(capacities: &[u128]) -> u128
    requires few { length capacities.now ≤ 256 }
    requires low { All (λ n. n < 2 ^ 46) capacities.now }
    ensures { result ≡ sum_by (λ n. n) capacities.now }
{
    let mut total = 0;
    for n in capacities {
        total += *n;
    }
    total
}

/// The summary of a plan: its cost, the bound that no plan undercuts, and what it installs and carries. The plan is one that a check
/// accepted for this instance. It takes time in the links of all paths without failures times the number of links, and memory for a
/// capacity of each link.
///
/// ```text
/// // the triangle: cost 30.000, bound 20.000, raw value 18.000, a gap of 33.3 per cent, 60.000 installed, 4 states
/// let whole = plan_summary(alloc, &instance, &plan)?;
/// ```
pub fn plan_summary(
    alloc: Global,
    instance: &Instance,
    plan: &Plan,
) -> Result<PlanSummary, NoMemory>
    requires { IsSoundPlan (case_of instance.now) plan.now }
    ensures { IfOk result (IsPlanSummary (case_of instance.now) plan.now) }
{
    let caps = capacities(alloc, instance.net, &plan.counts)?;
    let normal = &plan.routings.items()[0];
    let load = total_load(normal.flows.items(), instance.net.links().len());
    Ok(PlanSummary {
        cost: plan.cost,
        bound: plan.bound,
        raw: plan.raw_num / plan.raw_den,
        gap: gap_of(plan.cost, plan.bound),
        capacity: total_capacity(caps.nums.items()),
        normal: ceiling(load, normal.den as u128),
        states: instance.states.count(),
    })
}
