ghost use Rattle.std.{specs.Prelude.{◌≡◌, ◌<◌, ◌^◌, IfOk, length, slice_index}, specs.List.range_with_len, specs.List.Sorted.IsPermutation};
ghost use Rattle.greedy_router.specs.inner.Orders.{AreFalling};

use net_core::{List, NoMemory};
use std::alloc::Global;
use std::cmp::Reverse;

/// The key of a place by which greater amounts come first. Past the last amount there are 0.
fn key_of(amounts: &[u128], place: u32) -> Reverse<u128>
    ensures { result ≡ record { 0 = slice_index amounts.now place } }
{
    match amounts.get(place as usize) {
        Some(amount) => Reverse(*amount),
        None => Reverse(0),
    }
}

/// The places 0, 1 and so on.
fn places(alloc: Global, count: usize) -> Result<Vec<u32>, NoMemory>
    requires { count < 2 ^ 32 }
    ensures { IfOk result (λ all. all.items ≡ range_with_len 0 count) }
{
    let mut all = Vec::with_capacity(alloc, count)?;
    for place in 0..count {
        all.push(place as u32)?;
    }
    Ok(all)
}

/// The places of amounts, from the greatest to the least; of equal ones the earlier comes first.
pub fn by_falling_amount(alloc: Global, amounts: &[u128]) -> Result<List<u32>, NoMemory>
    requires { length amounts.now < 2 ^ 32 }
    ensures places { IfOk result (IsPermutation (range_with_len 0 (length amounts.now))) }
    ensures falling { IfOk result (AreFalling amounts.now) }
{
    let mut order = places(alloc, amounts.len())?;
    order.sort_by_key(|place| key_of(amounts, *place))?;
    Ok(List::from_vec(order))
}
