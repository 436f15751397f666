ghost use Rattle.std.specs.Prelude.{◌≡◌, ◌<◌, ◌^◌, All, length};

use crate::row::part;
use checked_fraction::gcd;
use master_bound::gain_of;
use module_prices::UnitPair;
use net_core::{CutLine, List, Network, NoMemory};
use std::alloc::Global;

/// A length that isn't 0.
#[derive(Clone, Copy)]
pub(crate) struct Entry {
    pub(crate) link: usize,
    pub(crate) length: u32,
}

/// A cut as turns see it: what a unit of it gains, what it takes of the rows of links, and the weight that its surplus is compared by.
#[derive(Drop)]
pub(crate) struct Line {
    pub(crate) gain: i128,
    pub(crate) entries: List<Entry>,
    pub(crate) weight: u128,
}

/// A least common multiple of the capacities of unit pairs is below this.
const WIDE: u128 = 1 << 62;

/// The least common multiple of the capacities, where it isn't too wide; a link without a unit pair has none.
pub(crate) fn multiple_of(pairs: &[UnitPair]) -> Option<u128> {
    let mut all = 1u128;
    for pair in pairs {
        let capacity = pair.capacity.max(1) as u128;
        all = part(all, gcd(all, capacity)).wrapping_mul(capacity);
        if all >= WIDE {
            return None;
        }
    }
    Some(all)
}

/// The bounds of the rows over the common multiple: what a unit of capacity costs.
pub(crate) fn bounds_of(
    alloc: Global,
    pairs: &[UnitPair],
    all: u128,
) -> Result<List<i128>, NoMemory> {
    let mut bounds = List::from_vec(Vec::with_capacity(alloc, pairs.len())?);
    for pair in pairs {
        let times = part(all, pair.capacity as u128).min(WIDE);
        bounds.push((times as i128).wrapping_mul(pair.cost as i128))?;
    }
    Ok(bounds)
}

/// What a length takes of a unit's cost, in units of 2^-20.
fn weight_at(pair: &UnitPair, length: u32) -> u128 {
    let taken = (length as u128 * pair.capacity as u128).wrapping_mul(1 << 20);
    part(taken, pair.cost.max(1) as u128)
}

/// The entries of lengths, and their weight.
fn line_of(
    alloc: Global,
    pairs: &[UnitPair],
    lengths: &[u32],
    gain: i128,
) -> Result<Line, NoMemory> {
    let mut entries = List::new(alloc);
    let mut weight = 1u128;
    for e in 0..lengths.len() {
        if e < pairs.len() && lengths[e] > 0 {
            entries.push(Entry {
                link: e,
                length: lengths[e],
            })?;
            weight = weight.wrapping_add(weight_at(&pairs[e], lengths[e]));
        }
    }
    Ok(Line {
        gain,
        entries,
        weight,
    })
}

/// All cuts as lines.
pub(crate) fn lines_of(
    alloc: Global,
    net: &Network,
    pairs: &[UnitPair],
    cuts: &[CutLine],
) -> Result<List<Line>, NoMemory>
    requires counts { All (λ cut. length cut.lengths ≡ length net.now.links) cuts.now }
    requires right { All (λ cut. cut.right < 2 ^ 84) cuts.now }
{
    let mut lines = List::from_vec(Vec::with_capacity(alloc, cuts.len())?);
    for cut in cuts {
        let gain = gain_of(net.links().items(), cut);
        lines.push(line_of(alloc, pairs, cut.lengths.items(), gain)?)?;
    }
    Ok(lines)
}
