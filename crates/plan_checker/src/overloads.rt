ghost use Rattle.std.specs.Prelude.{◌≡◌, ◌≢◌, ℕ, ◌*◌, ◌^◌, ◌<◌, All, IfOk, length};
ghost use Rattle.plan_terms.specs.Terms.{case_of, load, sent};
ghost use Rattle.plan_report.specs.Terms.{known_of, AreRoutingsInForm, IsRoutingInForm};
ghost use Rattle.module_choice.specs.inner.Routes.{weight};
ghost use Rattle.plan_checker.{specs.Carried.{IsOverloaded, IsUncarried}, specs.Places.HoldsAt, specs.inner.Routes.FollowPaths, specs.inner.Tests.{IsFirstPair, IsFirstPlace}};

use crate::place::Place;
use crate::sums::{first_other, first_over, loads_of, sums_of};
use net_core::{Demand, Instance, NoMemory, Routing};
use std::alloc::Global;

/// The first demand whose flows don't sum to its need at the scale.
fn first_uncarried(
    alloc: Global,
    demands: &[Demand],
    scale: u64,
    routing: &Routing,
) -> Result<Option<u32>, NoMemory>
    requires few { length demands.now < 2 ^ 32 }
    requires some { 0 < routing.now.den }
    requires den { routing.now.den < 2 ^ 62 }
    requires known { All (λ f. f.demand < length demands.now) routing.now.flows }
    ensures { IfOk result (IsFirstPlace (λ k. HoldsAt demands.now k (λ d. sent routing.now.flows k ≢ d.need * scale * routing.now.den))) }
{
    let sums = sums_of(alloc, demands.len(), routing.flows.items(), routing.den)?;
    Ok(first_other(demands, scale, &sums))
}

/// The first link whose flows are more than its number.
fn first_overloaded(
    alloc: Global,
    nums: &[u128],
    routing: &Routing,
) -> Result<Option<u32>, NoMemory>
    requires few { length nums.now < 2 ^ 32 }
    requires low { All (λ n. n < 2 ^ 127) nums.now }
    requires some { 0 < routing.now.den }
    requires den { routing.now.den < 2 ^ 62 }
    requires known { All (λ f. All (λ e. e.0 < length nums.now) f.path) routing.now.flows }
    requires once { (e : ℕ) → load routing.now.flows e ≡ weight routing.now.flows e }
    ensures { IfOk result (IsFirstPlace (λ e. HoldsAt nums.now e (λ n. n * routing.now.den < load routing.now.flows e))) }
{
    let loads = loads_of(alloc, nums.len(), routing.flows.items(), routing.den)?;
    Ok(first_over(nums, &loads))
}

/// The first state with a demand whose flows don't sum to its need at the scale, and its first such demand. It takes room for a
/// sum of each demand, and time in the flows and demands.
pub(crate) fn uncarried(
    alloc: Global,
    instance: &Instance,
    scale: u64,
    routings: &[Routing],
) -> Result<Option<Place>, NoMemory>
    requires { AreRoutingsInForm (known_of instance.now.net.now instance.now.states.now) instance.now.demands.now routings.now }
    ensures { IfOk result (IsFirstPair (IsUncarried (case_of instance.now) scale routings.now)) }
{
    for s in 0..routings.len() {
        let first = first_uncarried(alloc, instance.demands.items(), scale, &routings[s])?;
        if let Some(at) = first {
            return Ok(Some(Place {
                group: s as u32,
                at,
            }));
        }
    }
    Ok(None)
}

/// The first state with a link whose flows are more than its number, and its first such link. The flows follow paths. It takes
/// room for a load of each link, and time in the links of all paths.
pub(crate) fn overloaded(
    alloc: Global,
    instance: &Instance,
    nums: &[u128],
    routings: &[Routing],
) -> Result<Option<Place>, NoMemory>
    requires form { AreRoutingsInForm (known_of instance.now.net.now instance.now.states.now) instance.now.demands.now routings.now }
    requires paths { FollowPaths (case_of instance.now) routings.now }
    requires count { length nums.now ≡ length instance.now.net.now.links }
    requires low { All (λ n. n < 2 ^ 127) nums.now }
    ensures { IfOk result (IsFirstPair (IsOverloaded nums.now routings.now)) }
{
    for s in 0..routings.len() {
        let first = first_overloaded(alloc, nums, &routings[s])?;
        if let Some(at) = first {
            return Ok(Some(Place {
                group: s as u32,
                at,
            }));
        }
    }
    Ok(None)
}
