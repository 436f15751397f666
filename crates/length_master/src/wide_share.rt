ghost use Rattle.std.specs.Prelude.{◌≡◌, ◌≤◌, ◌<◌, ◌^◌, All, IfOk, IfSome, length, unsigned_abs};
ghost use Rattle.checked_fraction.specs.Terms.{num};
ghost use Rattle.metric_cut.specs.Bounded.{HaveBound};
ghost use Rattle.master_law.specs.Terms.{AreUnitPairs};
ghost use Rattle.length_master.{specs.WideShares.AreLeastCaps, specs.inner.Capacities.{capacities_over, given_by}};

use crate::amounts::Numbers;
use crate::guess::{are_prices, are_values, lowered};
use crate::row::KeptRow;
use checked_fraction::{Row, size_of_den};
use module_prices::UnitPair;
use net_core::{Caps, CutLine, Link, List, Network, NoMemory};
use std::alloc::Global;

/// The prices of the links' capacity as a row, where they fit.
pub(crate) fn price_row(alloc: Global, prices: &KeptRow) -> Result<Option<Row>, NoMemory> {
    let mut raw = List::from_vec(Vec::with_capacity(alloc, prices.nums.len())?);
    for num in prices.nums.items() {
        raw.push(*num as i128)?;
    }
    lowered(alloc, raw.items(), prices.den)
}

/// The price of link `e`, which isn't negative.
fn price_at(prices: &Row, e: usize) -> u64
    requires { e < length prices.now.nums }
    ensures { result ≡ unsigned_abs (num prices.now.nums e) }
{
    prices.nums()[e].unsigned_abs()
}

/// What a link has over the denominator: its pre-installed capacity, and its price where it has a unit pair.
fn capacity_of(link: &Link, pair: &UnitPair, price: u64, den: u64) -> u128
    requires fixed { link.now.fixed < 2 ^ 40 }
    ensures { result ≡ given_by link.now.fixed pair.now.capacity price den }
{
    let given = link.fixed as u128 * den as u128;
    if pair.capacity == 0 {
        given
    } else {
        given + price as u128
    }
}

/// What each link has over the prices' denominator.
fn capacities_at(
    alloc: Global,
    links: &[Link],
    pairs: &[UnitPair],
    prices: &Row,
) -> Result<Caps, NoMemory>
    requires sound { All (λ l. l.fixed < 2 ^ 40) links.now }
    requires pairs { length pairs.now ≡ length links.now }
    requires prices { length prices.now.nums ≡ length links.now }
    ensures { IfOk result (λ caps. caps ≡ capacities_over links.now pairs.now prices.now) }
{
    let scale = size_of_den(prices);
    let mut nums = List::from_vec(Vec::with_capacity(alloc, links.len())?);
    for e in 0..links.len() {
        let price = price_at(prices, e);
        nums.push(capacity_of(&links[e], &pairs[e], price, scale))?;
    }
    Ok(Caps { scale, nums })
}

/// The capacities of a least share of the cuts, if rows, values and the prices of the links' capacity are those of a best basis.
pub(crate) fn least_caps(
    alloc: Global,
    net: &Network,
    cuts: &List<CutLine>,
    pairs: &List<UnitPair>,
    rows: &[KeptRow],
    values: &Numbers,
    prices: &Row,
) -> Result<Option<Caps>, NoMemory>
    requires few { length cuts.now ≤ 8192 }
    requires lengths { All (λ cut. HaveBound net.now.links cut.lengths) cuts.now }
    requires right { All (λ cut. cut.right < 2 ^ 84) cuts.now }
    requires units { AreUnitPairs net.now.links pairs.now }
    ensures { IfOk result (λ found. IfSome found (AreLeastCaps net.now.links cuts.now)) }
{
    let one = UnitPair {
        capacity: 1,
        cost: 0,
    };
    let ones = List::filled(alloc, one, net.links().len())?;
    if !are_values(net, cuts.items(), pairs.items(), rows, values) {
        return Ok(None);
    }
    if !are_prices(net, cuts.items(), ones.items(), rows, prices) {
        return Ok(None);
    }
    let caps = capacities_at(alloc, net.links().items(), pairs.items(), prices)?;
    Ok(Some(caps))
}
