ghost use Rattle.std.{specs.Prelude.{◌≡◌, ℕ, ◌+◌, ◌<◌, ◌≤◌, IfOk, length, slice_index}, specs.List.Sorted.IsNonDecreasingBy};
ghost use Rattle.path_split.specs.inner.Legs.{IsStartPlace, IsStar, leaves, leg_at, nums, picked};

use crate::leg::Leg;
use net_core::{NoMemory, NodeId};
use std::alloc::Global;

/// Where the legs start that leave node x or a later one.
fn start_of(legs: &[Leg], x: usize) -> usize
    requires { IsNonDecreasingBy (λ g. g.from.0) legs.now }
    ensures { IsStartPlace legs.now x result }
{
    legs.partition_point(|g| (g.from.0 as usize) < x)
}

/// Where the legs of each node start.
pub fn starts_of(alloc: Global, legs: &[Leg], nodes: usize) -> Result<Vec<usize>, NoMemory>
    requires { IsNonDecreasingBy (λ g. g.from.0) legs.now }
    ensures count { IfOk result (λ starts. length starts.items ≡ nodes) }
    ensures starts { IfOk result (λ starts. (x : ℕ) → x < nodes → IsStartPlace legs.now x (slice_index starts.items x)) }
{
    let mut starts = Vec::with_capacity(alloc, nodes)?;
    for x in 0..nodes {
        starts.push(start_of(legs, x))?;
    }
    Ok(starts)
}

/// The whole flow of each leg.
pub fn lefts_of(alloc: Global, legs: &[Leg]) -> Result<Vec<u64>, NoMemory>
    ensures { IfOk result (λ lefts. lefts.items ≡ nums legs.now) }
{
    let mut lefts = Vec::with_capacity(alloc, legs.len())?;
    for leg in legs {
        lefts.push(leg.num)?;
    }
    Ok(lefts)
}

/// A leg with flow left that leaves a node. The node's place moves on past empty legs, and never back.
pub fn next_leg(legs: &[Leg], lefts: &[u64], places: &mut [usize], at: NodeId) -> usize
    requires star { IsStar legs.now lefts.now places.old }
    requires long { length lefts.now ≡ length legs.now }
    requires at { at.0 < length places.old }
    requires some { 0 < picked (leaves at.0) legs.now lefts.now }
    ensures star { IsStar legs.now lefts.now places.new }
    ensures size { length places.new ≡ length places.old }
    ensures place { result < length legs.now }
    ensures left { 0 < slice_index lefts.now result }
    ensures from { (leg_at legs.now result).from.0 ≡ at.0 }
{
    let mut k = places[at.0 as usize];
    while lefts[k] == 0 {
        k += 1;
    }
    places[at.0 as usize] = k;
    k
}
