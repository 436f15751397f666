ghost use Rattle.std.specs.Prelude.{◌≡◌, ℕ, ◌+◌, ◌<◌, ◌≤◌, All, IfOk, MatchOption, length, slice_index};
ghost use Rattle.path_split.specs.inner.Legs.{IsEven, IsFirstOther, IsFirstUneven, arrives, due, leaves, leg_sum};

use crate::leg::Leg;
use net_core::{List, NoMemory, NodeId};
use std::alloc::Global;

/// What leaves each node, and the need at one of them. What the sums were before does not matter.
fn fill_leaving(sums: &mut [u128], legs: &[Leg], at: NodeId, need: u64)
    requires at { at.0 < length sums.old }
    requires known { All (λ g. g.from.0 < length sums.old) legs.now }
    requires few { length legs.now ≤ 65536 }
    ensures size { length sums.new ≡ length sums.old }
    ensures sums { (x : ℕ) → x < length sums.old → slice_index sums.new x ≡ leg_sum (leaves x) legs.now + due at.0 need x }
{
    sums.fill(0);
    sums[at.0 as usize] = need as u128;
    for leg in legs {
        sums[leg.from.0 as usize] += leg.num as u128;
    }
}

/// What arrives at each node, and the need at one of them. What the sums were before does not matter.
fn fill_arriving(sums: &mut [u128], legs: &[Leg], at: NodeId, need: u64)
    requires at { at.0 < length sums.old }
    requires known { All (λ g. g.to.0 < length sums.old) legs.now }
    requires few { length legs.now ≤ 65536 }
    ensures size { length sums.new ≡ length sums.old }
    ensures sums { (x : ℕ) → x < length sums.old → slice_index sums.new x ≡ leg_sum (arrives x) legs.now + due at.0 need x }
{
    sums.fill(0);
    sums[at.0 as usize] = need as u128;
    for leg in legs {
        sums[leg.to.0 as usize] += leg.num as u128;
    }
}

/// The first place at which the sums differ.
fn first_other(leaving: &[u128], arriving: &[u128]) -> Option<NodeId>
    requires sizes { length arriving.now ≡ length leaving.now }
    requires few { length leaving.now ≤ 128 }
    ensures { MatchOption result
        ((x : ℕ) → x < length leaving.now → slice_index leaving.now x ≡ slice_index arriving.now x)
        (λ n. IsFirstOther leaving.now arriving.now n.0) }
{
    for x in 0..leaving.len() {
        if leaving[x] != arriving[x] {
            return Some(NodeId(x as u32));
        }
    }
    None
}

/// The first node that isn't balanced.
pub fn first_uneven(
    alloc: Global,
    legs: &[Leg],
    nodes: usize,
    from: NodeId,
    to: NodeId,
    need: u64,
) -> Result<Option<NodeId>, NoMemory>
    requires nodes { nodes ≤ 128 }
    requires from { from.0 < nodes }
    requires to { to.0 < nodes }
    requires known { All (λ g. (g.from.0 < nodes) × (g.to.0 < nodes)) legs.now }
    requires few { length legs.now ≤ 65536 }
    ensures { IfOk result (λ r. MatchOption r
        ((x : ℕ) → x < nodes → IsEven legs.now from.0 to.0 need x)
        (λ n. IsFirstUneven nodes legs.now from.0 to.0 need n.0)) }
{
    let mut leaving = vec![in alloc; 0u128; nodes]?;
    fill_leaving(&mut leaving, legs, to, need);
    let mut arriving = vec![in alloc; 0u128; nodes]?;
    fill_arriving(&mut arriving, legs, from, need);
    Ok(first_other(&leaving, &arriving))
}
