ghost use Rattle.std.specs.Prelude.{◌≡◌, ℕ, ◌+◌, ◌*◌, ◌^◌, ◌<◌, ◌≤◌, All, IfOk, length, max, slice_index};
ghost use Rattle.module_choice.specs.inner.Routes.{times, weight};

use net_core::{Flow, LinkId, NoMemory};
use std::alloc::Global;

/// Adds an amount to each link of a path.
fn add_path(loads: &mut [u64], path: &[LinkId], by: u64)
    requires known { All (λ x. x.0 < length loads.old) path.now }
    requires fits { (e : ℕ) → e < length loads.old → slice_index loads.old e + by * length path.now < 2 ^ 64 }
    ensures { (e : ℕ) → e < length loads.old → slice_index loads.new e ≡ slice_index loads.old e + by * times e path.now }
{
    for x in path {
        loads[x.0 as usize] += by;
    }
}

/// Adds each flow to the links of its path.
fn add_flows(loads: &mut [u64], flows: &[Flow])
    requires few { length flows.now ≤ 2 ^ 11 }
    requires known { All (λ f. All (λ x. x.0 < length loads.old) f.path) flows.now }
    requires small { All (λ f. (f.num < 2 ^ 40) × (length f.path < 2 ^ 8)) flows.now }
    requires zero { (e : ℕ) → e < length loads.old → slice_index loads.old e ≡ 0 }
    ensures { (e : ℕ) → e < length loads.old → slice_index loads.new e ≡ weight flows.now e }
{
    for i in 0..flows.len() {
        let f = &flows[i];
        add_path(loads, f.path.items(), f.num as u64);
    }
}

/// A list of this many zeros.
fn zeros(alloc: Global, count: usize) -> Result<Vec<u64>, NoMemory>
    ensures { IfOk result (λ v. (length v.items ≡ count) × ((e : ℕ) → e < count → slice_index v.items e ≡ 0)) }
{
    Ok(vec![in alloc; 0; count]?)
}

/// What the flows bring onto each link, in units of the network.
pub(crate) fn loads_of(alloc: Global, links: usize, flows: &[Flow]) -> Result<Vec<u64>, NoMemory>
    requires few { length flows.now ≤ 2 ^ 11 }
    requires known { All (λ f. All (λ x. x.0 < links) f.path) flows.now }
    requires small { All (λ f. (f.num < 2 ^ 40) × (length f.path < 2 ^ 8)) flows.now }
    ensures { IfOk result (λ v. (length v.items ≡ links) × ((e : ℕ) → e < links → slice_index v.items e ≡ weight flows.now e)) }
{
    let mut loads = zeros(alloc, links)?;
    add_flows(&mut loads, flows);
    Ok(loads)
}

/// Raises each peak to the load, where that is greater.
pub(crate) fn raise(peaks: &mut [u64], loads: &[u64])
    requires { length loads.now ≡ length peaks.old }
    ensures { (e : ℕ) → e < length peaks.old → slice_index peaks.new e ≡ max (slice_index peaks.old e) (slice_index loads.now e) }
{
    for e in 0..loads.len() {
        peaks[e] = peaks[e].max(loads[e]);
    }
}
