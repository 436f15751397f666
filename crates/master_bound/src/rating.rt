ghost use Rattle.std.specs.Prelude.{◌≡◌, ◌*◌, ◌≤◌, ◌<◌, ◌^◌, All, IfOk, length, map};
ghost use Rattle.checked_fraction.specs.Terms.{IsNarrow};
ghost use Rattle.master_law.specs.Terms.{cut_gain};
ghost use Rattle.net_core.specs.Limits.{most_links};
ghost use Rattle.master_bound.specs.Narrow.{HaveNarrowEntries, IsNarrowCut};

use crate::numbers::{entry_of, gain_of};
use module_prices::UnitPair;
use net_core::{CutLine, Link, List, NoMemory};
use std::alloc::Global;

/// What a unit of a cut gains, and the weight that its surplus is compared by.
#[derive(Clone, Copy)]
pub(crate) struct Rating {
    pub(crate) gain: i64,
    pub(crate) weight: u128,
    pub ghost narrow: { IsNarrow gain },
    pub ghost positive: { 0 < weight },
}

/// An entry over its row's bound, in units of 2^-20, rounded up; 2^100 over a bound of 0.
fn part_of_bound(entry: u128, bound: u64) -> u128
    requires { entry < 2 ^ 62 }
    ensures { result ≤ 2 ^ 100 }
{
    if entry == 0 {
        return 0;
    }
    if bound == 0 {
        return 1 << 100;
    }
    (entry * (1 << 20)).div_ceil(bound as u128)
}

/// The sum of a cut's entries, each over its row's bound.
fn weight_of(pairs: &[UnitPair], lengths: &[u32]) -> u128
    requires few { length lengths.now ≤ 256 }
    requires count { length lengths.now ≡ length pairs.now }
    requires narrow { HaveNarrowEntries pairs.now lengths.now }
    ensures { 0 < result }
{
    let mut weight = 0;
    for e in 0..lengths.len() {
        weight += part_of_bound(entry_of(pairs, lengths, e), pairs[e].cost);
    }
    weight.max(1)
}

/// The rating of a cut.
fn rating_of(links: &[Link], pairs: &[UnitPair], cut: &CutLine) -> Rating
    requires few { length links.now ≤ most_links }
    requires sound { All (λ l. l.fixed < 2 ^ 40) links.now }
    requires count { length cut.now.lengths ≡ length links.now }
    requires pairs { length pairs.now ≡ length links.now }
    requires narrow { IsNarrowCut links.now pairs.now cut.now }
    ensures { result.gain ≡ cut_gain links.now cut.now }
{
    Rating {
        gain: gain_of(links, cut) as i64,
        weight: weight_of(pairs, cut.lengths.items()),
    }
}

/// The ratings of all cuts.
pub(crate) fn ratings_of(
    alloc: Global,
    links: &[Link],
    pairs: &[UnitPair],
    cuts: &[CutLine],
) -> Result<List<Rating>, NoMemory>
    requires few { length links.now ≤ most_links }
    requires sound { All (λ l. l.fixed < 2 ^ 40) links.now }
    requires counts { All (λ cut. length cut.lengths ≡ length links.now) cuts.now }
    requires pairs { length pairs.now ≡ length links.now }
    requires narrow { All (IsNarrowCut links.now pairs.now) cuts.now }
    ensures { IfOk result (λ ratings. map (λ r. r.gain) ratings ≡ map (cut_gain links.now) cuts.now) }
{
    let mut ratings = List::from_vec(Vec::with_capacity(alloc, cuts.len())?);
    for cut in cuts {
        ratings.push(rating_of(links, pairs, cut))?;
    }
    Ok(ratings)
}
