ghost use Rattle.std.specs.Prelude.{◌≡◌, ◌<◌, ◌*◌, ◌^◌, ◌↔◌, All, IfOk, IsTrue, length};
ghost use Rattle.plan_terms.specs.Terms.{case_of};
ghost use Rattle.plan_report.specs.Terms.{known_of, AreRoutingsInForm, IsQualityInForm, IsShareInForm};
ghost use Rattle.plan_checker.{specs.Shares.{AreCarried, HoldsNotTight, IsTight}, specs.inner.Tests.Tells};

use crate::finding::Finding;
use crate::overloads::{overloaded, uncarried};
use crate::routes::bad_path;
use crate::share::whole_share;
use crate::stop::{Stop, Test};
use checked_fraction::cmp;
use net_core::{Instance, NoMemory, Routing};
use plan_types::{Fractional, Plan, Quality};
use std::alloc::Global;
use std::cmp::Ordering;

/// Whether routings carry the demands in each state within capacities over a scale.
fn are_carried(
    alloc: Global,
    instance: &Instance,
    scale: u64,
    nums: &[u128],
    routings: &[Routing],
) -> Result<bool, NoMemory>
    requires form { AreRoutingsInForm (known_of instance.now.net.now instance.now.states.now) instance.now.demands.now routings.now }
    requires count { length nums.now ≡ length instance.now.net.now.links }
    requires low { All (λ n. n < 2 ^ 127) nums.now }
    ensures { IfOk result (λ t. IsTrue t ↔ AreCarried (case_of instance.now) scale nums.now routings.now) }
{
    let astray = bad_path(alloc, instance, routings)?;
    if let Some(_) = astray {
        return Ok(false);
    }
    let unmet = uncarried(alloc, instance, scale, routings)?;
    if let Some(_) = unmet {
        return Ok(false);
    }
    let over = overloaded(alloc, instance, nums, routings)?;
    match over {
        Some(_) => Ok(false),
        None => Ok(true),
    }
}

/// Whether `cost / scale` is `num / den`.
fn costs_raw(cost: u128, scale: u64, num: u128, den: u128) -> bool
    requires scale { 0 < scale }
    requires den { 0 < den }
    ensures { IsTrue result ↔ (cost * den ≡ num * scale) }
{
    cmp(cost, scale as u128, num, den) == Ordering::Equal
}

/// Whether a share costs the plan's raw value, and its routings carry the demands within it.
fn is_tight(
    alloc: Global,
    instance: &Instance,
    plan: &Plan,
    fractional: &Fractional,
) -> Result<bool, NoMemory>
    requires raw { 0 < plan.now.raw_den }
    requires share { IsShareInForm instance.now.net.now.links fractional.now.share }
    requires routings { AreRoutingsInForm (known_of instance.now.net.now instance.now.states.now) instance.now.demands.now fractional.now.routings }
    ensures { IfOk result (λ t. IsTrue t ↔ IsTight (case_of instance.now) plan.now fractional.now) }
{
    let share = &fractional.share;
    let whole = whole_share(alloc, instance.net.links().items(), share)?;
    if !costs_raw(whole.cost, share.scale, plan.raw_num, plan.raw_den) {
        return Ok(false);
    }
    let routings = fractional.routings.items();
    are_carried(alloc, instance, share.scale, whole.nums.items(), routings)
}

/// Whether a plan that claims to be tight is.
pub(crate) fn check_tight(alloc: Global, instance: &Instance, plan: &Plan) -> Test
    requires raw { 0 < plan.now.raw_den }
    requires form { IsQualityInForm (known_of instance.now.net.now instance.now.states.now) instance.now.demands.now plan.now.quality }
    ensures { Tells (HoldsNotTight (case_of instance.now) plan.now) result }
{
    let Quality::Tight(fractional) = &plan.quality else {
        return Ok(());
    };
    if !is_tight(alloc, instance, plan, fractional)? {
        return Err(Stop::Found(Finding::NotTight));
    }
    Ok(())
}
