ghost use Rattle.std.specs.Prelude.{◌≡◌, ℕ, ◌+◌, ◌<◌, ◌≤◌, ◌⊎◌, All, Any, IfOk, length, slice_index};
ghost use Rattle.path_split.specs.inner.Trails.{AreEnough, less, trail_links};

use crate::leg::Leg;
use net_core::{List, NoMemory, Path};
use std::alloc::Global;

/// The least of an amount and of what is left of the legs at these places.
pub fn least_left(lefts: &[u64], trail: &[usize], most: u64) -> u64
    requires known { All (λ k. k < length lefts.now) trail.now }
    ensures most { result ≤ most }
    ensures left { All (λ k. result ≤ slice_index lefts.now k) trail.now }
    ensures reached { (result ≡ most) ⊎ Any (λ k. result ≡ slice_index lefts.now k) trail.now }
{
    let mut least = most;
    for k in trail {
        least = least.min(lefts[*k]);
    }
    least
}

/// Takes an amount off the legs at these places.
pub fn take_off(lefts: &mut [u64], trail: &[usize], num: u64)
    requires { AreEnough lefts.old trail.now num }
    ensures { lefts.new ≡ less lefts.old trail.now num }
{
    for k in trail {
        lefts[*k] -= num;
    }
}

/// The links of the legs at these places.
pub fn trail_links(alloc: Global, legs: &[Leg], trail: &[usize]) -> Result<Path, NoMemory>
    requires { All (λ k. k < length legs.now) trail.now }
    ensures { IfOk result (λ path. path ≡ trail_links legs.now trail.now) }
{
    let mut path = List::from_vec(Vec::with_capacity(alloc, trail.len())?);
    for k in trail {
        path.push(legs[*k].link)?;
    }
    Ok(path)
}
