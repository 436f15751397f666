ghost use Rattle.std.specs.Prelude.{◌≡◌, ◌≤◌, ◌<◌, ◌^◌, ◌≤ℤ◌, ◌<ℤ◌, ℕ, All, IfOk, length, pos, sum_by, zip, ◌*◌};
ghost use Rattle.checked_fraction.specs.Terms.{num};
ghost use Rattle.plan_terms.specs.Terms.{IsLowest};
ghost use Rattle.master_law.specs.Terms.{share_cost};
ghost use Rattle.master_bound.specs.inner.Shares.{IsShareOfDuals};

use crate::pricing::price_at;
use checked_fraction::{Row, gcd};
use module_prices::UnitPair;
use net_core::{List, NoMemory};
use plan_types::Share;
use std::alloc::Global;

/// `num / den` units of the network, in lowest terms.
#[derive(Clone, Copy)]
pub(crate) struct RawValue {
    pub(crate) num: u128,
    pub(crate) den: u128,
}

/// The share of an objective row.
pub(crate) fn share_of(alloc: Global, duals: &Row) -> Result<Share, NoMemory>
    requires positive { (k : ℕ) → k < length duals.now.nums → pos 0 ≤ℤ num duals.now.nums k }
    ensures { IfOk result (IsShareOfDuals duals.now) }
{
    let nums = duals.nums();
    let mut units = List::from_vec(Vec::with_capacity(alloc, nums.len())?);
    for e in 0..nums.len() {
        units.push(price_at(nums, e))?;
    }
    Ok(Share {
        scale: duals.den.unsigned_abs(),
        units,
    })
}

/// What a share costs, over its scale.
fn cost_of(pairs: &[UnitPair], units: &[u64]) -> u128
    requires few { length pairs.now ≤ 256 }
    requires count { length units.now ≡ length pairs.now }
    requires small { All (λ p. p.cost < 2 ^ 40) pairs.now }
    ensures { result ≡ sum_by (λ p. p.0.cost * p.1) (zip pairs.now units.now) }
{
    let mut cost = 0;
    for e in 0..pairs.len() {
        cost += pairs[e].cost as u128 * units[e] as u128;
    }
    cost
}

/// What a share costs, in lowest terms.
pub(crate) fn raw_value(pairs: &[UnitPair], share: &Share) -> RawValue
    requires few { length pairs.now ≤ 256 }
    requires count { length share.now.units ≡ length pairs.now }
    requires small { All (λ p. p.cost < 2 ^ 40) pairs.now }
    requires scale { 0 < share.now.scale }
    ensures { IsLowest (share_cost pairs.now share.now) share.now.scale result.num result.den }
{
    let cost = cost_of(pairs, share.units.items());
    let common = gcd(cost, share.scale as u128);
    RawValue {
        num: cost / common,
        den: share.scale as u128 / common,
    }
}
