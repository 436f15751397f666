ghost use Rattle.std.specs.Prelude.{◌≡◌, ◌<◌, ◌≤◌, ◌/◌, ◌^◌, IfOk, length, map, slice_index};
ghost use Rattle.plan_terms.specs.Terms.{IsGreatestDivisor};
ghost use Rattle.flow_router.specs.inner.Lengths.{AreWhole};

use checked_fraction::gcd;
use net_core::{Lengths, LinkId, List, NoMemory};
use std::alloc::Global;

/// The lengths of all links, or one that is too long.
#[derive(Drop)]
pub(crate) enum LinkLengths {
    Fit(Lengths),
    Long(LinkId),
}

/// The greatest common divisor of prices. It is 0 where all are 0.
pub(crate) fn common_price(prices: &[u64]) -> u128
    ensures { IsGreatestDivisor prices.now result }
{
    let mut common = 0;
    for price in prices {
        common = gcd(common, *price as u128);
    }
    common
}

/// The prices over a common divisor, as lengths, unless one of them is 2^32 or more.
pub(crate) fn lengths_of(
    alloc: Global,
    prices: &[u64],
    common: u128,
) -> Result<LinkLengths, NoMemory>
    requires few { length prices.now < 2 ^ 32 }
    requires positive { 0 < common }
    ensures { IfOk result (AreWhole common prices.now) }
{
    let mut lengths = List::from_vec(Vec::with_capacity(alloc, prices.len())?);
    for e in 0..prices.len() {
        let whole = prices[e] as u128 / common;
        if whole >= 1 << 32 {
            return Ok(LinkLengths::Long(LinkId(e as u32)));
        }
        lengths.push(whole as u32)?;
    }
    Ok(LinkLengths::Fit(lengths))
}
