ghost use Rattle.std.specs.Prelude.{◌≡◌, ◌<◌, ◌≤◌, ◌≤ℤ◌, ℕ, pos, length, IfOk};
ghost use Rattle.checked_fraction.specs.Terms.{num};
ghost use Rattle.flow_router.specs.inner.Lengths.{AreLinkCosts};

use net_core::{List, NoMemory};
use std::alloc::Global;

/// A price that isn't negative.
fn price_at(duals: &[i64], row: usize) -> u64
    requires row { row < length duals.now }
    requires positive { pos 0 ≤ℤ num duals.now row }
    ensures { num duals.now row ≡ pos result }
{
    duals[row].unsigned_abs()
}

/// The prices of the links, which are those of the first rows.
pub(crate) fn link_prices(alloc: Global, duals: &[i64], links: usize) -> Result<List<u64>, NoMemory>
    requires links { links ≤ length duals.now }
    requires positive { (k : ℕ) → k < length duals.now → pos 0 ≤ℤ num duals.now k }
    ensures { IfOk result (AreLinkCosts links (num duals.now)) }
{
    let mut prices = List::from_vec(Vec::with_capacity(alloc, links)?);
    for e in 0..links {
        prices.push(price_at(duals, e))?;
    }
    Ok(prices)
}
