ghost use Rattle.std.specs.Prelude.{◌≡◌, length};

use flow_mending::reach::{Arc, FAR, Reach};
use net_core::{Demand, List, NoMemory, NodeId, Path, RouteTask};
use std::alloc::Global;
use warm_basis::{Share, Shortage, along, need_of};

/// The most paths that wait.
const MOST: usize = 64;

/// A path of a demand that may enter.
#[derive(Drop)]
pub(crate) struct Waiting {
    pub demand: usize,
    pub path: Path,
    /// What it took off what was short, over its denominator, if it carried all of its demand.
    gain: i128,
}

/// Paths that may enter, and what the demands need along the distances under the slopes.
#[derive(Drop)]
pub(crate) struct Found {
    pub waiting: List<Waiting>,
    /// The place of the waiting path of least gain, once as many wait as may.
    least: usize,
    pub asked: i128,
}

/// A demand for which there may be a cheaper path than its key.
#[derive(Clone, Copy)]
struct Ask {
    demand: usize,
    from: NodeId,
    to: NodeId,
    need: i128,
    /// What the key counts under the slopes.
    price: i64,
}

/// Demands, of which the first `count` are still to be asked, and how many of these end at each node.
#[derive(Drop)]
struct Asking {
    asks: List<Ask>,
    count: usize,
    ends: List<i64>,
}

/// The slopes as lengths.
pub(crate) fn set_lengths(lengths: &mut [u32], slopes: &[i64])
    ensures { length lengths.new ≡ length lengths.old }
{
    for e in 0..lengths.len() {
        if e < slopes.len() {
            lengths[e] = slopes[e].unsigned_abs().min(u32::MAX as u64) as u32;
        }
    }
}

/// What capacities give along the slopes.
pub(crate) fn given(slopes: &[i64], bounds: &[i128]) -> i128 {
    let mut sum = 0i128;
    for e in 0..slopes.len() {
        if e < bounds.len() && slopes[e] != 0 {
            sum = sum.wrapping_add((slopes[e] as i128).wrapping_mul(bounds[e]));
        }
    }
    sum
}

/// Gives each link its slope as its length in searches, and of paths of equal slopes those of fewer links the shorter length.
fn set_arcs(arcs: &mut [Arc], slopes: &[i64]) {
    for arc in arcs {
        let at = arc.link.0 as usize;
        if at < slopes.len() {
            let slope = slopes[at].unsigned_abs().min(1 << 40);
            arc.length = slope * 256 + 1;
        }
    }
}

/// Takes an amount from the prices of the keys that count as short.
fn lower_short(prices: &mut [i64], shares: &[Share], amount: i64) {
    for share in shares {
        if share.counts && share.demand < prices.len() {
            prices[share.demand] = prices[share.demand].wrapping_sub(amount);
        }
    }
}

/// What each key counts under the slopes, less than that by `den` where it is short.
fn prices_of(
    alloc: Global,
    shortage: &Shortage,
    keys: &[Path],
    shares: &[Share],
) -> Result<List<i64>, NoMemory> {
    let mut prices = List::from_vec(Vec::with_capacity(alloc, keys.len())?);
    for key in keys {
        prices.push(along(shortage.slopes.items(), key.items()))?;
    }
    lower_short(prices.items_mut(), shares, shortage.den);
    Ok(prices)
}

/// Adds to the count of a node.
fn count_at(ends: &mut [i64], node: NodeId, by: i64) {
    let at = node.0 as usize;
    if at < ends.len() {
        ends[at] = ends[at].wrapping_add(by);
    }
}

/// The demands for which there may be a cheaper path than the key.
fn asks_of(
    alloc: Global,
    demands: &[Demand],
    prices: &[i64],
    needs: &[i128],
) -> Result<List<Ask>, NoMemory> {
    let mut asks = List::from_vec(Vec::with_capacity(alloc, demands.len())?);
    for k in 0..demands.len() {
        let need = need_of(needs, k);
        if k < prices.len() && prices[k] > 0 && need > 0 {
            asks.push(Ask {
                demand: k,
                from: demands[k].from,
                to: demands[k].to,
                need,
                price: prices[k],
            })?;
        }
    }
    Ok(asks)
}

/// Counts at each node how many demands end there.
fn count_ends(ends: &mut [i64], asks: &[Ask]) {
    for ask in asks {
        count_at(ends, ask.from, 1);
        count_at(ends, ask.to, 1);
    }
}

/// What is to be asked under the slopes: all demands for which there may be a cheaper path than the key.
fn asking_of(
    alloc: Global,
    task: &RouteTask,
    shortage: &Shortage,
    keys: &[Path],
    shares: &[Share],
    needs: &[i128],
) -> Result<Asking, NoMemory> {
    let prices = prices_of(alloc, shortage, keys, shares)?;
    let asks = asks_of(alloc, task.demands.items(), prices.items(), needs)?;
    let mut ends = List::filled(alloc, 0i64, task.graph.net.nodes().len())?;
    count_ends(ends.items_mut(), asks.items());
    let count = asks.len();
    Ok(Asking { asks, count, ends })
}

/// The node at which most demands end, if some do.
fn busiest(ends: &[i64]) -> Option<NodeId> {
    let mut at = 0;
    let mut most = 0;
    for k in 0..ends.len() {
        if ends[k] > most {
            at = k;
            most = ends[k];
        }
    }
    if most > 0 && at < 1 << 32 {
        Some(NodeId(at as u32))
    } else {
        None
    }
}

/// The place of the path of least gain.
fn least_of(waiting: &[Waiting]) -> usize {
    let mut at = 0;
    for k in 1..waiting.len() {
        if at < waiting.len() && waiting[k].gain < waiting[at].gain {
            at = k;
        }
    }
    at
}

/// Whether a path of this gain is to wait: fewer wait than may, or one of less gain does.
fn may_wait(found: &Found, gain: i128) -> bool {
    let waiting = found.waiting.items();
    waiting.len() < MOST || (found.least < waiting.len() && waiting[found.least].gain < gain)
}

/// Lets a path wait, in the place of the one of least gain where too many would.
fn let_wait(found: &mut Found, path: Waiting) -> Result<(), NoMemory> {
    if found.waiting.len() < MOST {
        found.waiting.push(path)?;
    } else {
        let all = found.waiting.items_mut();
        if found.least < all.len() {
            all[found.least] = path;
        }
    }
    if found.waiting.len() >= MOST {
        found.least = least_of(found.waiting.items());
    }
    Ok(())
}

/// Adds a demand's cheapest path to or from the root of a search, if it is cheaper than the key.
fn offer(
    alloc: Global,
    reach: &Reach,
    root: NodeId,
    ask: &Ask,
    found: &mut Found,
) -> Result<(), NoMemory> {
    let ends_there = ask.to.0 == root.0;
    let far = reach.far(if ends_there { ask.from } else { ask.to });
    if far == FAR {
        return Ok(());
    }
    let cheapest = (far / 256) as i64;
    let asked = (cheapest as i128).wrapping_mul(ask.need);
    found.asked = found.asked.wrapping_add(asked);
    if cheapest >= ask.price {
        return Ok(());
    }
    let gain = (ask.price.wrapping_sub(cheapest) as i128).wrapping_mul(ask.need);
    if may_wait(found, gain) {
        let path = if ends_there {
            reach.path(alloc, ask.from)?
        } else {
            reach.path_back(alloc, ask.to)?
        };
        let demand = ask.demand;
        if let Some(path) = path {
            let_wait(found, Waiting { demand, path, gain })?;
        }
    }
    Ok(())
}

/// Asks the demands that end at the root of a search, and keeps the others.
fn ask_at(
    alloc: Global,
    reach: &Reach,
    root: NodeId,
    asking: &mut Asking,
    found: &mut Found,
) -> Result<(), NoMemory> {
    let mut kept = 0usize;
    let asks = asking.asks.items_mut();
    for i in 0..asking.count {
        if i < asks.len() && kept < asks.len() {
            let ask = asks[i];
            if ask.to.0 == root.0 || ask.from.0 == root.0 {
                count_at(asking.ends.items_mut(), ask.from, -1);
                count_at(asking.ends.items_mut(), ask.to, -1);
                offer(alloc, reach, root, &ask, found)?;
            } else {
                asks[kept] = ask;
                kept += 1;
            }
        }
    }
    asking.count = kept;
    Ok(())
}

/// Asks all demands, by a search from one node after another, at which most of those end that are left.
fn ask_all(
    alloc: Global,
    reach: &mut Reach,
    asking: &mut Asking,
    found: &mut Found,
) -> Result<(), NoMemory> {
    for _ in 0..asking.ends.len() {
        let Some(root) = busiest(asking.ends.items()) else {
            return Ok(());
        };
        reach.search(root, None);
        ask_at(alloc, reach, root, asking, found)?;
    }
    Ok(())
}

/// The paths that take most off what is short of those that are cheaper than the keys of their demands, under slopes none of which is
/// below 0. It takes a search from each of some nodes, at which all demands end for which there may be such a path.
pub(crate) fn collect(
    alloc: Global,
    task: &RouteTask,
    shortage: &Shortage,
    keys: &[Path],
    shares: &[Share],
    needs: &[i128],
    reach: &mut Reach,
) -> Result<Found, NoMemory> {
    let mut asking = asking_of(alloc, task, shortage, keys, shares, needs)?;
    set_arcs(reach.arcs_mut(), shortage.slopes.items());
    let mut found = Found {
        waiting: List::new(alloc),
        least: 0,
        asked: 0,
    };
    ask_all(alloc, reach, &mut asking, &mut found)?;
    Ok(found)
}
