ghost use Rattle.std.specs.Prelude.{◌≡◌, ◌<◌, IfOk, IfSome, length, pos};
ghost use Rattle.checked_fraction.specs.Terms.{num};
ghost use Rattle.row_cuts.specs.inner.Tests.{AreLowestNumbers, AreNumbers};

use metric_cut::divisor_of_lengths;
use net_core::{Lengths, List, NoMemory};
use std::alloc::Global;

/// A number as a length, if it is one.
fn length_of(number: i64) -> Option<u32>
    ensures { IfSome result (λ l. number ≡ pos l) }
{
    if number >= 0 && number < 1 << 32 {
        Some(number as u32)
    } else {
        None
    }
}

/// The numbers of a row as lengths, if none is below 0 or 2^32 or more.
pub(crate) fn lengths_of(alloc: Global, nums: &[i64]) -> Result<Option<Lengths>, NoMemory>
    ensures { IfOk result (λ o. IfSome o (AreNumbers nums.now)) }
{
    let mut lengths = List::from_vec(Vec::with_capacity(alloc, nums.len())?);
    for e in 0..nums.len() {
        match length_of(nums[e]) {
            Some(length) => lengths.push(length)?,
            None => return Ok(None),
        }
    }
    Ok(Some(lengths))
}

/// The numbers of a row as lengths, without a common divisor above 1; none where there isn't one for each of the links, or one is no length.
pub(crate) fn lowest_of(
    alloc: Global,
    nums: &[i64],
    links: usize,
) -> Result<Option<Lengths>, NoMemory>
    ensures { IfOk result (λ o. IfSome o (AreLowestNumbers links nums.now)) }
{
    if nums.len() != links {
        return Ok(None);
    }
    match lengths_of(alloc, nums)? {
        Some(lengths) if divisor_of_lengths(lengths.items()) == 1 => Ok(Some(lengths)),
        _ => Ok(None),
    }
}
