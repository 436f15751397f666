ghost use Rattle.std.{specs.Prelude.{◌<◌, ◌^◌, All, IfOk, OnOk, length}, specs.List.Sorted.IsPermutation};
ghost use Rattle.line_check.specs.Testing.{IsSoundAt};
ghost use Rattle.line_maker.specs.inner.Candidates.{AreFewTerms, AreTwoTerms, IsSumCandidate};

use crate::divisors::{divisors_of, kinds_at, kinds_of};
use crate::known::Known;
use crate::numbers::{Lowest, Numbers, are_same, in_lowest};
use crate::pairs::{Pair, pairs_among, sum_of};
use crate::point::Point;
use crate::score::best_divisor;
use line_check::tested_lines::is_sound;
use line_check::{Multiplier, Tested};
use net_core::{List, NoMemory};
use std::alloc::Global;

/// A line that a point doesn't meet: numerators of earlier lines, and the divisor with its score.
#[derive(Drop)]
pub(crate) struct Candidate {
    pub terms: List<Multiplier>,
    pub lowest: Lowest,
    pub score: u128,
}

/// One line, once.
fn single_term(alloc: Global, tested: &[Tested], i: u32) -> Result<List<Multiplier>, NoMemory>
    requires { IsSoundAt tested.now i }
    ensures { IfOk result (AreFewTerms tested.now) }
{
    let mut terms = List::new(alloc);
    terms.push(Multiplier { num: 1, cut: i })?;
    Ok(terms)
}

/// Two lines.
fn both_terms(alloc: Global, tested: &[Tested], pair: &Pair) -> Result<List<Multiplier>, NoMemory>
    requires { AreTwoTerms tested.now pair.now }
    ensures { IfOk result (AreFewTerms tested.now) }
{
    let mut terms = List::new(alloc);
    terms.push(pair.first)?;
    terms.push(pair.second)?;
    Ok(terms)
}

/// Puts the line over terms with these numbers last whose divisor is the best of some, if the point misses it.
fn push_best(
    alloc: Global,
    found: &mut List<Candidate>,
    tested: &[Tested],
    terms: List<Multiplier>,
    numbers: &Numbers,
    point: &Point,
    divisors: &[u128],
) -> Result<(), NoMemory>
    requires found { All (IsSumCandidate tested.now) found.old }
    requires terms { AreFewTerms tested.now terms }
    ensures { OnOk result (All (IsSumCandidate tested.now) found.new) }
{
    let Some(best) = best_divisor(numbers, point, divisors) else {
        return Ok(());
    };
    let lowest = in_lowest(alloc, numbers, best.divisor)?;
    let score = best.score;
    found.push(Candidate {
        terms,
        lowest,
        score,
    })?;
    Ok(())
}

/// Puts the best line over one earlier line last, if the point misses it.
fn push_single(
    alloc: Global,
    found: &mut List<Candidate>,
    known: &Known,
    i: usize,
    point: &Point,
) -> Result<(), NoMemory>
    requires found { All (IsSumCandidate known.now.tested.now) found.old }
    requires inside { i < length known.now.numbers.now }
    requires few { i < 2 ^ 31 }
    ensures { OnOk result (All (IsSumCandidate known.now.tested.now) found.new) }
{
    let (tested, numbers) = (known.tested, &known.numbers[i]);
    if !is_sound(tested, i as u32) {
        return Ok(());
    }
    let kinds = kinds_of(alloc, numbers)?;
    let divisors = divisors_of(alloc, numbers.need, kinds.items())?;
    let terms = single_term(alloc, tested, i as u32)?;
    push_best(
        alloc,
        found,
        tested,
        terms,
        numbers,
        point,
        divisors.items(),
    )
}

/// Puts the best line over the sum of two earlier ones last, if the point misses it.
fn push_pair(
    alloc: Global,
    found: &mut List<Candidate>,
    known: &Known,
    pair: &Pair,
    point: &Point,
) -> Result<(), NoMemory>
    requires found { All (IsSumCandidate known.now.tested.now) found.old }
    requires pair { AreTwoTerms known.now.tested.now pair.now }
    ensures { OnOk result (All (IsSumCandidate known.now.tested.now) found.new) }
{
    let (i, j) = (pair.first.cut as usize, pair.second.cut as usize);
    let (tested, numbers) = (known.tested, known.numbers);
    if i >= numbers.len() || j >= numbers.len() {
        return Ok(());
    }
    let sum = sum_of(alloc, &numbers[i], &numbers[j], pair)?;
    let kinds = kinds_at(alloc, &sum, point)?;
    let divisors = divisors_of(alloc, sum.need, kinds.items())?;
    let terms = both_terms(alloc, tested, pair)?;
    push_best(alloc, found, tested, terms, &sum, point, divisors.items())
}

/// Puts the best lines over two of some lines last.
fn push_pairs(
    alloc: Global,
    found: &mut List<Candidate>,
    known: &Known,
    active: &[Multiplier],
    point: &Point,
) -> Result<(), NoMemory>
    requires found { All (IsSumCandidate known.now.tested.now) found.old }
    ensures { OnOk result (All (IsSumCandidate known.now.tested.now) found.new) }
{
    for pair in pairs_among(alloc, known, active)?.items() {
        push_pair(alloc, found, known, pair, point)?;
    }
    Ok(())
}

/// Of more lines the first ones are taken.
const MOST_LINES: usize = 1 << 31;

/// The best lines over single lines, and over two of some.
pub(crate) fn candidates_of(
    alloc: Global,
    known: &Known,
    active: &[Multiplier],
    point: &Point,
) -> Result<List<Candidate>, NoMemory>
    ensures { IfOk result (All (IsSumCandidate known.now.tested.now)) }
{
    let mut found = List::new(alloc);
    for i in 0..known.numbers.len().min(MOST_LINES) {
        push_single(alloc, &mut found, known, i, point)?;
    }
    push_pairs(alloc, &mut found, known, active, point)?;
    Ok(found)
}

/// How late a candidate is taken.
fn lateness(candidate: &Candidate) -> u128 {
    u128::MAX - candidate.score
}

/// The best scores first.
pub(crate) fn best_first(alloc: Global, found: List<Candidate>) -> Result<List<Candidate>, NoMemory>
    ensures { IfOk result (IsPermutation found) }
{
    let mut found = found;
    found.items_mut().sort_by_key(alloc, |c| lateness(c))?;
    Ok(found)
}

/// Whether a candidate's numbers are those of a line that is known.
pub(crate) fn is_known(known: &[Numbers], candidate: &Candidate) -> bool {
    known
        .iter()
        .any(|numbers| are_same(numbers, &candidate.lowest.numbers))
}
