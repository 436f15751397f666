ghost use Rattle.std.specs.Prelude.{◌≡◌, ℕ, ◌+◌, ◌<◌, ◌≤◌, ◌^◌, All, IfOk, length, slice_index, take};
ghost use Rattle.line_check.{specs.CoverWeights.IsLeastWeight, specs.inner.Rows.IsNextRow};

use net_core::{List, NoMemory};
use std::alloc::Global;

/// The number where no cover is known: more than any weighs.
const NONE: u64 = 1 << 45;

/// The least weights of the covers of 0, 1, 2 and more that have one kind more; these are those without it.
fn next_row(alloc: Global, row: &[u64], size: u32, weight: u32) -> Result<List<u64>, NoMemory>
    requires some { 0 < length row.now }
    requires positive { 0 < size }
    requires small { All (λ n. n ≤ 2 ^ 45) row.now }
    ensures next { IfOk result (IsNextRow row.now size weight) }
    ensures small { IfOk result (All (λ n. n ≤ 2 ^ 45)) }
{
    let mut next = List::from_vec(Vec::with_capacity(alloc, row.len())?);
    next.push(0)?;
    for r in 1..row.len() {
        let before = next.items()[r.saturating_sub(size as usize)];
        next.push(row[r].min(before + weight as u64))?;
    }
    Ok(next)
}

/// The least weight of numbers of the first kinds that cover a need: of the first kind alone, of the first two, and so on.
///
/// A kind has a size, one that covers at least 1, and a weight below 2^32; the need is at most 4,096. With sizes 2 and 5 of the weights
/// 3 and 4 a need of 6 weighs 9 by the first kind alone, and 7 by both.
///
/// It takes time in the need times the kinds, and memory for two numbers for each up to the need.
pub fn least_weights(
    alloc: Global,
    sizes: &[u32],
    weights: &[u32],
    need: u32,
) -> Result<List<u64>, NoMemory>
    requires same { length weights.now ≡ length sizes.now }
    requires positive { All (λ size. 0 < size) sizes.now }
    requires few { need ≤ 4096 }
    ensures same { IfOk result (λ least. length least ≡ length sizes.now) }
    ensures least { IfOk result (λ least. (k : ℕ) → k < length sizes.now
        → IsLeastWeight (take (k + 1) sizes.now) (take (k + 1) weights.now) need (slice_index least k)) }
{
    let mut least = List::new(alloc);
    let mut row = List::filled(alloc, NONE, need as usize + 1)?;
    for k in 0..sizes.len() {
        row = next_row(alloc, row.items(), sizes[k], weights[k])?;
        least.push(row.items()[need as usize])?;
    }
    Ok(least)
}
