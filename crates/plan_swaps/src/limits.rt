ghost use Rattle.std.specs.Prelude.{◌≡◌, ◌↔◌, ◌^◌, ◌<◌, All, IfOk, IsTrue};
ghost use Rattle.plan_terms.specs.Terms.{AreCounts, AreWithinLimits};

use module_choice::capacities;
use net_core::{Counts, List, Network, NoMemory};
use std::alloc::Global;

/// Whether all numbers are below 2^44.
fn are_few(counts: &[u64]) -> bool
    ensures { IsTrue result ↔ All (λ n. n < 2 ^ 44) counts.now }
{
    counts.iter().all(|n| *n < 1 << 44)
}

/// Whether all counts are below 2^44.
fn are_all_few(counts: &[List<u64>]) -> bool
    ensures { IsTrue result ↔ All (λ c. All (λ n. n < 2 ^ 44) c) counts.now }
{
    counts.iter().all(|c| are_few(c.items()))
}

/// Whether all capacities are below 2^46.
fn are_small(capacities: &[u128]) -> bool
    ensures { IsTrue result ↔ All (λ n. n < 2 ^ 46) capacities.now }
{
    capacities.iter().all(|n| *n < 1 << 46)
}

/// Whether counts are within the limits of plans: each below 2^44, and each link's capacity below 2^46 units. It takes time in the number
/// of modules, and memory for one number per link.
pub fn are_within_limits(alloc: Global, net: &Network, counts: &Counts) -> Result<bool, NoMemory>
    requires { AreCounts net.now.links counts.now }
    ensures { IfOk result (λ b. IsTrue b ↔ AreWithinLimits net.now.links counts.now) }
{
    let caps = capacities(alloc, net, counts)?;
    Ok(are_all_few(counts.items()) && are_small(caps.nums.items()))
}
