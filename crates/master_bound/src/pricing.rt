ghost use Rattle.std.specs.Prelude.{◌≡◌, ◌<◌, ◌^◌, ◌*ℤ◌, ◌≤ℤ◌, ◌⊎◌, ℕ, None, length, pos};
ghost use Rattle.checked_fraction.specs.Terms.{num, IsNarrow};
ghost use Rattle.master_bound.{specs.Narrow.{length_entry, HaveNarrowEntries}, specs.inner.Gaining.{IsSurplus, IsCandidate, IsCandidateAt}};

use crate::candidate::Candidate;
use crate::numbers::entry_of;
use crate::program::MasterProgram;
use crate::rating::Rating;
use checked_fraction::{Row, cmp};
use module_prices::UnitPair;
use std::cmp::Ordering;

/// A price that isn't negative.
pub(crate) fn price_at(duals: &[i64], e: usize) -> u64
    requires inside { e < length duals.now }
    requires positive { pos 0 ≤ℤ num duals.now e }
    requires narrow { IsNarrow (num duals.now e) }
    ensures same { num duals.now e ≡ pos result }
    ensures low { result < 2 ^ 62 }
{
    duals[e].unsigned_abs()
}

/// The size of a number that isn't negative.
fn size_of(number: &i64) -> u64
    requires positive { pos 0 ≤ℤ number.now }
    requires narrow { IsNarrow number.now }
    ensures same { pos result ≡ number.now }
    ensures low { result < 2 ^ 62 }
{
    number.unsigned_abs()
}

/// What the entry of a cut in the row of link `e` costs.
fn cost_at(duals: &[i64], pairs: &[UnitPair], lengths: &[u32], e: usize) -> u128
    requires duals { e < length duals.now }
    requires pairs { e < length pairs.now }
    requires lengths { e < length lengths.now }
    requires positive { pos 0 ≤ℤ num duals.now e }
    requires narrow { IsNarrow (num duals.now e) }
    requires entry { length_entry pairs.now lengths.now e < 2 ^ 62 }
    ensures cost { pos result ≡ num duals.now e *ℤ pos (length_entry pairs.now lengths.now e) }
{
    price_at(duals, e) as u128 * entry_of(pairs, lengths, e)
}

/// What a unit of a cut gains beyond what its entries cost, if it does.
fn surplus_of(duals: &Row, pairs: &[UnitPair], lengths: &[u32], rating: &Rating) -> Option<u128>
    requires duals { length duals.now.nums ≡ length lengths.now }
    requires pairs { length pairs.now ≡ length lengths.now }
    requires positive { (k : ℕ) → k < length lengths.now → pos 0 ≤ℤ num duals.now.nums k }
    requires narrow { HaveNarrowEntries pairs.now lengths.now }
    ensures { IsSurplus duals.now pairs.now lengths.now rating.now.gain result }
{
    if rating.gain <= 0 {
        return None;
    }
    let mut rest = size_of(&rating.gain) as u128 * size_of(&duals.den) as u128;
    for e in 0..lengths.len() {
        let cost = cost_at(duals.nums(), pairs, lengths, e);
        if cost >= rest {
            return None;
        }
        rest -= cost;
    }
    Some(rest)
}

/// The cut at place `k`, if it gains.
fn candidate_at(program: &MasterProgram, duals: &Row, k: usize) -> Option<Candidate>
    requires inside { k < length program.now.task.cuts.now }
    requires duals { length duals.now.nums ≡ length program.now.task.net.now.links }
    requires positive { (e : ℕ) → e < length program.now.task.net.now.links → pos 0 ≤ℤ num duals.now.nums e }
    ensures { IsCandidateAt program.now.task.net.now.links program.now.task.pairs.now program.now.task.cuts.now duals.now k result }
{
    let rating = &program.ratings.items()[k];
    let lengths = program.task.cuts.items()[k].lengths.items();
    match surplus_of(duals, program.task.pairs.items(), lengths, rating) {
        Some(surplus) => Some(Candidate {
            cut: k,
            surplus,
            weight: rating.weight,
        }),
        None => None,
    }
}

/// The one of greater surplus per weight; the first at a tie.
fn greater(best: Candidate, next: Candidate) -> Candidate
    ensures { (result ≡ best) ⊎ (result ≡ next) }
{
    if cmp(next.surplus, next.weight, best.surplus, best.weight) == Ordering::Greater {
        next
    } else {
        best
    }
}

/// The candidate of greater surplus per weight where there may be none; the first at a tie.
fn better(best: Option<Candidate>, next: Option<Candidate>) -> Option<Candidate>
    ensures is { (result ≡ best) ⊎ (result ≡ next) }
    ensures none { result ≡ None → (best ≡ None) × (next ≡ None) }
{
    match (best, next) {
        (Some(b), Some(n)) => Some(greater(b, n)),
        (None, _) => next,
        (_, None) => best,
    }
}

/// A cut that gains at these prices: that of greatest surplus per weight, the first at a tie.
pub(crate) fn best_candidate(program: &MasterProgram, duals: &Row) -> Option<Candidate>
    requires duals { length duals.now.nums ≡ length program.now.task.net.now.links }
    requires positive { (e : ℕ) → e < length program.now.task.net.now.links → pos 0 ≤ℤ num duals.now.nums e }
    ensures { IsCandidate program.now.task.net.now.links program.now.task.pairs.now program.now.task.cuts.now duals.now
        (length program.now.task.cuts.now) result }
{
    let mut best = None;
    for k in 0..program.task.cuts.len() {
        best = better(best, candidate_at(program, duals, k));
    }
    best
}
