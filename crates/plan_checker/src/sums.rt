ghost use Rattle.std.specs.Prelude.{◌≡◌, ◌≢◌, ℕ, ◌+◌, ◌*◌, ◌^◌, ◌<◌, ◌≤◌, All, IfOk, length, ◌==◌, if◌then◌else◌};
ghost use Rattle.plan_terms.specs.Terms.{sent};
ghost use Rattle.module_choice.specs.inner.Routes.{times, weight};
ghost use Rattle.plan_checker.{specs.Places.HoldsAt, specs.inner.Mixed.{AreMixed, IsMixed}, specs.inner.Tests.IsFirstPlace};

use crate::mixed::Mixed;
use net_core::{Demand, Flow, LinkId, NoMemory};
use std::alloc::Global;

/// Adds a number to the one at a place.
fn add_at(sums: &mut [Mixed], at: usize, by: Mixed, den: u64)
    requires at { at < length sums.old }
    requires den { den < 2 ^ 62 }
    requires each { All (λ m. m.rest < den) sums.old }
    requires by { by.rest < den }
    ensures each { All (λ m. m.rest < den) sums.new }
    ensures sum { (n : ℕ → ℕ) (m : ℕ) → AreMixed den n sums.old → IsMixed den m by → AreMixed den (λ k. n k + (if at == k then m else 0)) sums.new }
{
    sums[at] = sums[at].plus(by, den);
}

/// Adds each flow to its demand.
fn add_flows(sums: &mut [Mixed], flows: &[Flow], den: u64)
    requires some { 0 < den }
    requires den { den < 2 ^ 62 }
    requires known { All (λ f. f.demand < length sums.old) flows.now }
    requires each { All (λ m. m.rest < den) sums.old }
    requires zero { AreMixed den (λ k. 0) sums.old }
    ensures { AreMixed den (sent flows.now) sums.new }
{
    for f in flows {
        add_at(sums, f.demand as usize, Mixed::of(f.num, den), den);
    }
}

/// Adds a number to each link of a path.
fn add_path(sums: &mut [Mixed], path: &[LinkId], by: Mixed, den: u64)
    requires known { All (λ e. e.0 < length sums.old) path.now }
    requires den { den < 2 ^ 62 }
    requires each { All (λ m. m.rest < den) sums.old }
    requires by { by.rest < den }
    ensures each { All (λ m. m.rest < den) sums.new }
    ensures sum { (n : ℕ → ℕ) (m : ℕ) → AreMixed den n sums.old → IsMixed den m by → AreMixed den (λ e. n e + m * times e path.now) sums.new }
{
    for e in path {
        add_at(sums, e.0 as usize, by, den);
    }
}

/// Adds each flow to the links of its path.
fn add_loads(sums: &mut [Mixed], flows: &[Flow], den: u64)
    requires some { 0 < den }
    requires den { den < 2 ^ 62 }
    requires known { All (λ f. All (λ e. e.0 < length sums.old) f.path) flows.now }
    requires each { All (λ m. m.rest < den) sums.old }
    requires zero { AreMixed den (λ e. 0) sums.old }
    ensures { AreMixed den (weight flows.now) sums.new }
{
    for f in flows {
        add_path(sums, f.path.items(), Mixed::of(f.num, den), den);
    }
}

/// This many zeros, each over the denominator.
fn zeros(alloc: Global, count: usize, den: u64) -> Result<Vec<Mixed>, NoMemory>
    requires { 0 < den }
    ensures { IfOk result (λ v. (length v.items ≡ count) × All (λ m. m.rest < den) v.items × AreMixed den (λ k. 0) v.items) }
{
    let zero = Mixed::of(0, den);
    Ok(vec![in alloc; zero; count]?)
}

/// The sum of each demand's flows, over the denominator.
pub(crate) fn sums_of(
    alloc: Global,
    demands: usize,
    flows: &[Flow],
    den: u64,
) -> Result<Vec<Mixed>, NoMemory>
    requires some { 0 < den }
    requires den { den < 2 ^ 62 }
    requires known { All (λ f. f.demand < demands) flows.now }
    ensures { IfOk result (λ v. (length v.items ≡ demands) × AreMixed den (sent flows.now) v.items) }
{
    let mut sums = zeros(alloc, demands, den)?;
    add_flows(&mut sums, flows, den);
    Ok(sums)
}

/// What flows bring onto each link, over the denominator.
pub(crate) fn loads_of(
    alloc: Global,
    links: usize,
    flows: &[Flow],
    den: u64,
) -> Result<Vec<Mixed>, NoMemory>
    requires some { 0 < den }
    requires den { den < 2 ^ 62 }
    requires known { All (λ f. All (λ e. e.0 < links) f.path) flows.now }
    ensures { IfOk result (λ v. (length v.items ≡ links) × AreMixed den (weight flows.now) v.items) }
{
    let mut loads = zeros(alloc, links, den)?;
    add_loads(&mut loads, flows, den);
    Ok(loads)
}

/// The first demand whose sum isn't its need times the scale.
pub(crate) fn first_other(demands: &[Demand], scale: u64, sums: &[Mixed]) -> Option<u32>
    requires few { length demands.now < 2 ^ 32 }
    requires count { length sums.now ≡ length demands.now }
    ensures { (den : ℕ) (n : ℕ → ℕ) → AreMixed den n sums.now → IsFirstPlace (λ k. HoldsAt demands.now k (λ d. n k ≢ d.need * scale * den)) result }
{
    for k in 0..demands.len() {
        if !sums[k].is(demands[k].need as u128 * scale as u128) {
            return Some(k as u32);
        }
    }
    None
}

/// The first link whose load is more than its number.
pub(crate) fn first_over(nums: &[u128], loads: &[Mixed]) -> Option<u32>
    requires few { length nums.now < 2 ^ 32 }
    requires low { All (λ n. n < 2 ^ 127) nums.now }
    requires count { length loads.now ≡ length nums.now }
    ensures { (den : ℕ) (n : ℕ → ℕ) → AreMixed den n loads.now → IsFirstPlace (λ e. HoldsAt nums.now e (λ num. num * den < n e)) result }
{
    for e in 0..nums.len() {
        if loads[e].exceeds(nums[e]) {
            return Some(e as u32);
        }
    }
    None
}
