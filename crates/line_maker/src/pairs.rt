ghost use Rattle.std.specs.Prelude.{All, IfOk, OnOk};
ghost use Rattle.line_check.specs.Testing.{IsSoundAt};
ghost use Rattle.line_maker.specs.inner.Candidates.{AreTwoTerms, IsTermOf};

use crate::known::Known;
use crate::numbers::Numbers;
use checked_fraction::gcd;
use line_check::Tested;
use line_check::tested_lines::is_sound;
use master_bound::Multiplier;
use net_core::{List, NoMemory};
use std::alloc::Global;

/// Numerators are at most this.
const NARROW: u128 = 1 << 35;

/// How many ways of choosing two lines are tried at most.
const MOST_CHOICES: usize = 2_000;

/// Two lines, each with a numerator.
#[derive(Clone, Copy)]
pub(crate) struct Pair {
    pub first: Multiplier,
    pub second: Multiplier,
}

/// A product, or the greatest number where it is greater.
fn times(number: u128, num: u64) -> u128 {
    number.saturating_mul(num as u128)
}

/// The sum of two lines, each times its numerator.
pub(crate) fn sum_of(
    alloc: Global,
    a: &Numbers,
    b: &Numbers,
    pair: &Pair,
) -> Result<Numbers, NoMemory> {
    let (n, m) = (pair.first.num, pair.second.num);
    let (first, second) = (a.coefs.items(), b.coefs.items());
    let mut coefs = List::new(alloc);
    for place in 0..first.len().min(second.len()) {
        coefs.push(times(first[place], n).saturating_add(times(second[place], m)))?;
    }
    Ok(Numbers {
        coefs,
        need: times(a.need, n).saturating_add(times(b.need, m)),
    })
}

/// A line that holds, with a numerator, which is kept in its limits.
fn term_of(tested: &[Tested], cut: u32, num: u128) -> Multiplier
    requires { IsSoundAt tested.now cut }
    ensures { IsTermOf tested.now result }
{
    let num = num.max(1).min(NARROW) as u64;
    Multiplier { num, cut }
}

/// Puts two lines with these numerators last.
fn push_pair(
    pairs: &mut List<Pair>,
    tested: &[Tested],
    lines: (u32, u32),
    nums: (u128, u128),
) -> Result<(), NoMemory>
    requires pairs { All (AreTwoTerms tested.now) pairs.old }
    requires first { IsSoundAt tested.now lines.0 }
    requires second { IsSoundAt tested.now lines.1 }
    ensures { OnOk result (All (AreTwoTerms tested.now) pairs.new) }
{
    let first = term_of(tested, lines.0, nums.0);
    let second = term_of(tested, lines.1, nums.1);
    pairs.push(Pair { first, second })?;
    Ok(())
}

/// The numerators by which two lines need equally much, if they are small and not both 1.
fn even_nums(a: u128, b: u128) -> Option<(u128, u128)> {
    let common = gcd(a, b).max(1);
    let (n, m) = (b / common, a / common);
    let small = (1..NARROW).contains(&n) && (1..NARROW).contains(&m);
    if small && n != m { Some((n, m)) } else { None }
}

/// Puts the ways of adding two lines last that are tried: once each, and so that both need equally much.
fn push_ways(pairs: &mut List<Pair>, known: &Known, i: u32, j: u32) -> Result<(), NoMemory>
    requires { All (AreTwoTerms known.now.tested.now) pairs.old }
    ensures { OnOk result (All (AreTwoTerms known.now.tested.now) pairs.new) }
{
    let tested = known.tested;
    if !is_sound(tested, i) || !is_sound(tested, j) {
        return Ok(());
    }
    push_pair(pairs, tested, (i, j), (1, 1))?;
    match even_nums(known.need_of(i), known.need_of(j)) {
        None => Ok(()),
        Some(nums) => push_pair(pairs, tested, (i, j), nums),
    }
}

/// Two of a list of lines.
#[derive(Clone, Copy)]
struct Choice {
    first: u32,
    second: u32,
}

/// The first ways of choosing two of a list of lines.
fn choices_of(alloc: Global, lines: &[Multiplier]) -> Result<List<Choice>, NoMemory> {
    let mut choices = List::new(alloc);
    for k in 0..lines.len() {
        for l in k + 1..lines.len() {
            if choices.len() < MOST_CHOICES {
                choices.push(Choice {
                    first: lines[k].cut,
                    second: lines[l].cut,
                })?;
            }
        }
    }
    Ok(choices)
}

/// The ways of adding two of a list of lines that are tried.
pub(crate) fn pairs_among(
    alloc: Global,
    known: &Known,
    lines: &[Multiplier],
) -> Result<List<Pair>, NoMemory>
    ensures { IfOk result (All (AreTwoTerms known.now.tested.now)) }
{
    let mut pairs = List::new(alloc);
    for choice in choices_of(alloc, lines)?.items() {
        push_ways(&mut pairs, known, choice.first, choice.second)?;
    }
    Ok(pairs)
}
