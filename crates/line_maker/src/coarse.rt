ghost use Rattle.std.specs.Prelude.{◌≡◌, ◌+◌, ◌<◌, ◌≤◌, All, IfOk, IfSome, OnOk, length};
ghost use Rattle.line_check.specs.Testing.{IsSoundAt, test_at};
ghost use Rattle.line_maker.{specs.Made.IsCoarseLine, specs.inner.Candidates.{HasSmallRight, once}, specs.inner.Divisors.IsLineDivisor};

use crate::divisors::{divisors_of, kinds_of};
use crate::numbers::{
    Lowest, Numbers, are_same, divided, divided_up, in_limits, in_lowest, numbers_of,
};
use crate::sums::is_narrow;
use checked_fraction::cmp;
use line_check::tested_lines::is_sound;
use line_check::{Inequality, Line, Multiplier, Tested, line_in};
use net_core::{Link, List, NoMemory};
use std::alloc::Global;
use std::cmp::Ordering;

/// The right side of a coarse line is at most this.
const COARSE: u128 = 64;

/// Of more lines the first ones are taken.
const MOST_LINES: usize = 1 << 31;

/// A fraction.
#[derive(Clone, Copy)]
struct Worth {
    num: u128,
    den: u128,
    ghost some: { 0 < den },
}

/// Puts the costs of a link's modules last.
fn push_costs(costs: &mut List<u64>, link: &Link) -> Result<(), NoMemory> {
    for module in link.modules.items() {
        costs.push(module.cost)?;
    }
    Ok(())
}

/// The costs of all modules, link by link.
fn costs_of(alloc: Global, links: &[Link]) -> Result<List<u64>, NoMemory> {
    let mut costs = List::new(alloc);
    for link in links {
        push_costs(&mut costs, link)?;
    }
    Ok(costs)
}

/// The lesser of two fractions, where there may be none yet.
fn lesser(best: Option<Worth>, next: Worth) -> Worth {
    match best {
        None => next,
        Some(known) => {
            if cmp(next.num, next.den, known.num, known.den) == Ordering::Less {
                next
            } else {
                known
            }
        }
    }
}

/// What a line over a divisor is worth by itself: its right side at the least cost for a unit of it. None where no module gives any.
fn worth_of(numbers: &Numbers, costs: &[u64], divisor: u128) -> Option<Worth>
    requires { 0 < divisor }
{
    let coefs = numbers.coefs.items();
    let right = divided_up(numbers.need, divisor);
    let mut least = None;
    for place in 0..coefs.len().min(costs.len()) {
        let coef = divided(coefs[place], numbers.need, divisor);
        if coef > 0 {
            let num = right.saturating_mul(costs[place] as u128);
            least = Some(lesser(least, Worth { num, den: coef }));
        }
    }
    least
}

/// Whether a fraction is more than another one, if there is one.
fn is_more(next: &Worth, best: &Option<Worth>) -> bool {
    match best {
        None => true,
        Some(known) => cmp(next.num, next.den, known.num, known.den) == Ordering::Greater,
    }
}

/// What a line over a divisor is worth by itself, if its right side is small.
fn small_worth(numbers: &Numbers, costs: &[u64], divisor: u128) -> Option<Worth>
    requires { 0 < divisor }
{
    if divided_up(numbers.need, divisor) > COARSE {
        return None;
    }
    worth_of(numbers, costs, divisor)
}

/// The divisor whose line is worth most by itself, of those that leave a small right side.
fn coarse_divisor(numbers: &Numbers, costs: &[u64], divisors: &[u128]) -> Option<u128>
    ensures { IfSome result IsLineDivisor }
{
    let mut best = None;
    let mut found = None;
    for divisor in divisors {
        let divisor = in_limits(*divisor);
        if let Some(worth) = small_worth(numbers, costs, divisor) {
            if is_more(&worth, &best) {
                best = Some(worth);
                found = Some(divisor);
            }
        }
    }
    found
}

/// A row of numbers, if what it needs is more than 0 and small.
fn if_small(lowest: Lowest) -> Option<Lowest>
    ensures { IfSome result (λ small. (small ≡ lowest) × (1 ≤ small.numbers.need) × (small.numbers.need ≤ 64)) }
{
    if (1..=COARSE).contains(&lowest.numbers.need) {
        Some(lowest)
    } else {
        None
    }
}

/// The numbers of a line over its coarse divisor, with that divisor; none where it has none.
fn coarse_of(
    alloc: Global,
    links: &[Link],
    costs: &[u64],
    line: &Inequality,
) -> Result<Option<Lowest>, NoMemory>
    ensures { IfOk result (λ o. IfSome o (HasSmallRight line.now)) }
{
    let numbers = numbers_of(alloc, links, line)?;
    let kinds = kinds_of(alloc, &numbers)?;
    let divisors = divisors_of(alloc, numbers.need, kinds.items())?;
    let Some(divisor) = coarse_divisor(&numbers, costs, divisors.items()) else {
        return Ok(None);
    };
    Ok(if_small(in_lowest(alloc, &numbers, divisor)?))
}

/// One line, once.
fn single_term(alloc: Global, i: u32) -> Result<List<Multiplier>, NoMemory>
    ensures { IfOk result (λ terms. terms ≡ once i) }
{
    let mut terms = List::new(alloc);
    terms.push(Multiplier { num: 1, cut: i })?;
    Ok(terms)
}

/// Puts the coarse line of a line last, unless it is there or too wide.
fn push_coarse(
    alloc: Global,
    lines: &mut List<Line>,
    known: &mut List<Numbers>,
    links: &[Link],
    tested: &[Tested],
    i: u32,
    coarse: Lowest,
) -> Result<(), NoMemory>
    requires lines { All (IsCoarseLine links.now tested.now) lines.old }
    requires sound { IsSoundAt tested.now i }
    requires coarse { HasSmallRight (test_at tested.now i).line coarse }
    ensures lines { OnOk result (All (IsCoarseLine links.now tested.now) lines.new) }
    ensures count { OnOk result (length lines.new ≤ length lines.old + 1) }
{
    let terms = single_term(alloc, i)?;
    let is_there = known.items().iter().any(|n| are_same(n, &coarse.numbers));
    if is_there || !is_narrow(links, tested, terms.items()) {
        return Ok(());
    }
    let Lowest { divisor, numbers } = coarse;
    known.push(numbers)?;
    lines.push(Line::Divided { divisor, terms })?;
    Ok(())
}

/// Puts the coarse line of the line of an index last, if it holds and has one that isn't there.
fn add_coarse(
    alloc: Global,
    lines: &mut List<Line>,
    known: &mut List<Numbers>,
    links: &[Link],
    costs: &[u64],
    tested: &[Tested],
    i: u32,
) -> Result<(), NoMemory>
    requires { All (IsCoarseLine links.now tested.now) lines.old }
    ensures lines { OnOk result (All (IsCoarseLine links.now tested.now) lines.new) }
    ensures count { OnOk result (length lines.new ≤ length lines.old + 1) }
{
    if !is_sound(tested, i) {
        return Ok(());
    }
    match coarse_of(alloc, links, costs, line_in(tested, i))? {
        None => Ok(()),
        Some(coarse) => push_coarse(alloc, lines, known, links, tested, i, coarse),
    }
}

/// Lines with small numbers, which a program can take in place of the ones that were tested: each over the divisor that makes it worth
/// most by itself, of those that leave a right side of at most 64. None twice.
///
/// What is promised is that each of them holds, so that counts which carry the demands meet it, and that its right side is from 1 to 64.
/// Which divisor it has is left free, and so is whether an earlier line has a coarse one.
///
/// It takes time in the lines times the kinds of modules times the modules, and memory for a number for each line and module.
pub fn coarse_lines(
    alloc: Global,
    links: &[Link],
    tested: &[Tested],
) -> Result<List<Line>, NoMemory>
    ensures few { IfOk result (λ lines. length lines ≤ length tested.now) }
    ensures lines { IfOk result (All (IsCoarseLine links.now tested.now)) }
{
    let costs = costs_of(alloc, links)?;
    let mut known = List::new(alloc);
    let mut lines = List::new(alloc);
    for i in 0..tested.len().min(MOST_LINES) {
        add_coarse(
            alloc,
            &mut lines,
            &mut known,
            links,
            costs.items(),
            tested,
            i as u32,
        )?;
    }
    Ok(lines)
}
