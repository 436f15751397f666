ghost use Rattle.std.{specs.Prelude.{◌≡◌, ◌≤◌, ◌<◌, ◌^◌, ◌↔◌, ℕ, All, IfOk, IfSome, IsTrue, MatchOption, map, slice_index}, specs.List.Sorted.IsPermutation};
ghost use Rattle.tree_check.specs.Terms.{IsFixedBox, IsFixedSpan, module_costs};
ghost use Rattle.line_check.specs.Inequalities.{entry};
ghost use Rattle.tree_boxes.specs.Terms.{HasFreeValue, AreLow, IsSearchBox, IsKnown, aimed};
ghost use Rattle.tree_search.{specs.inner.Choosing.{HasFreePlace, IsCheapChoice, IsFreeSpan, IsSplittable, IsTriable}, specs.inner.Growing.IsChoiceOf};

use box_program::spans::is_fixed;
use box_program::{Amount, Solution};
use net_core::{List, Module, NoMemory};
use std::alloc::Global;
use tree_boxes::{Aim, Known, OpenBox};
use tree_check::boxes::{is_split, lower_side, span_at, upper_side};
use tree_check::{Boxed, Span};
use trim_plan::Place;

/// How many choices are compared by their programs at each split.
const TRIED: usize = 8;

/// A box isn't split at this number or a greater one, unless it is a least count.
const LARGE: u128 = 1 << 44;

/// Where a box is split: at a module, and a number of it.
#[derive(Clone, Copy)]
pub(crate) struct Choice {
    pub place: Place,
    pub at: u64,
}

/// A choice with its score.
#[derive(Clone, Copy)]
struct Scored {
    choice: Choice,
    score: u128,
}

/// The cost of the module at a place of a list; 0 past its end.
fn cost_in(modules: &[Module], m: usize) -> u64
    ensures { result ≡ slice_index (map (λ m. m.cost) modules.now) m }
{
    if m < modules.len() {
        modules[m].cost
    } else {
        0
    }
}

/// The cost of a module, in units of the network; 0 where there is none.
fn module_cost(aim: &Aim, place: Place) -> u64
    ensures { result ≡ entry (module_costs (aimed aim.now).links) place.link place.module }
{
    let links = aim.instance.net.links().items();
    if place.link < links.len() {
        cost_in(links[place.link].modules.items(), place.module)
    } else {
        0
    }
}

/// Whether a box may be split at a choice: its number of modules costs less than the plan.
fn is_choice(aim: &Aim, boxed: &Boxed, choice: Choice) -> bool
    ensures { IsTrue result ↔ IsCheapChoice (aimed aim.now).links aim.now.plan.now.cost boxed.now choice }
{
    let Place { link, module } = choice.place;
    is_split(boxed.items(), link, module, choice.at)
        && module_cost(aim, choice.place) as u128 * (choice.at as u128) < aim.plan.cost
}

/// The choice of an amount. Its score is the distance to the nearest whole number, in parts over the denominator, times the cost of a
/// module.
fn score_of(aim: &Aim, amount: &Amount, den: u128) -> Scored
    ensures { result.choice.at ≤ 2 ^ 44 }
{
    let part = amount.part.min(den.saturating_sub(amount.part));
    let place = Place {
        link: amount.link,
        module: amount.module,
    };
    Scored {
        choice: Choice {
            place,
            at: amount.whole.min(LARGE) as u64,
        },
        score: part.saturating_mul(module_cost(aim, place) as u128),
    }
}

/// The choice of an amount that isn't whole, if the box may be split there.
fn choice_of(aim: &Aim, boxed: &Boxed, amount: &Amount, den: u128) -> Option<Scored>
    ensures { IfSome result (λ s. IsTriable (aimed aim.now).links aim.now.plan.now.cost boxed.now s.choice) }
{
    if amount.part == 0 || amount.whole >= LARGE {
        return None;
    }
    let next = score_of(aim, amount, den);
    if !is_choice(aim, boxed, next.choice) {
        return None;
    }
    Some(next)
}

/// The choices of a program's point: those of its amounts that aren't whole.
fn choices(
    alloc: Global,
    aim: &Aim,
    boxed: &Boxed,
    solution: &Solution,
) -> Result<List<Scored>, NoMemory>
    ensures { IfOk result (All (λ s. IsTriable (aimed aim.now).links aim.now.plan.now.cost boxed.now s.choice)) }
{
    let mut all = List::new(alloc);
    for amount in solution.amounts.items() {
        if let Some(next) = choice_of(aim, boxed, amount, solution.den) {
            all.push(next)?;
        }
    }
    Ok(all)
}

/// The rank of a choice by its score: the greater the score, the less.
fn lateness(scored: &Scored) -> u128 {
    u128::MAX - scored.score
}

/// The choices in the order of their scores, the greatest first.
fn best_first(alloc: Global, all: List<Scored>) -> Result<List<Scored>, NoMemory>
    ensures { IfOk result (IsPermutation all) }
{
    let mut all = all;
    all.items_mut().sort_by_key(alloc, |s| lateness(s))?;
    Ok(all)
}

/// What a side of a split is worth, in thousandths of a unit of the network: the optimum of its program, but no more than the plan's cost,
/// and that cost if a cut or line empties the side. 0 if a number of its program is too wide.
fn worth(alloc: Global, aim: &Aim, known: &Known, side: &Boxed) -> Result<u128, NoMemory>
    requires { IsKnown (aimed aim.now) known.now }
{
    let most = aim.plan.cost.saturating_mul(1000);
    if known.emptied_by(aim, side).is_some() {
        return Ok(most);
    }
    match known.solved(alloc, aim, side)? {
        None => Ok(0),
        Some(solution) => Ok(solution.rank.min(most)),
    }
}

/// The product of the rises of a box's two sides. A side's rise is by how much it is worth more than the box, at least 1.
fn rises(
    alloc: Global,
    aim: &Aim,
    known: &Known,
    boxed: &Boxed,
    rank: u128,
    choice: Choice,
) -> Result<u128, NoMemory>
    requires known { IsKnown (aimed aim.now) known.now }
    requires choice { IsCheapChoice (aimed aim.now).links aim.now.plan.now.cost boxed.now choice }
{
    let Place { link, module } = choice.place;
    let lower = lower_side(boxed, link, module, choice.at)?;
    let upper = upper_side(boxed, link, module, choice.at)?;
    let first = worth(alloc, aim, known, &lower)?
        .saturating_sub(rank)
        .max(1);
    let second = worth(alloc, aim, known, &upper)?
        .saturating_sub(rank)
        .max(1);
    Ok(first.saturating_mul(second))
}

/// Among the first choices, the one with the greatest product of rises.
fn best_tried(
    alloc: Global,
    aim: &Aim,
    known: &Known,
    boxed: &Boxed,
    rank: u128,
    all: &[Scored],
) -> Result<Option<Choice>, NoMemory>
    requires known { IsKnown (aimed aim.now) known.now }
    requires all { All (λ s. IsTriable (aimed aim.now).links aim.now.plan.now.cost boxed.now s.choice) all.now }
    ensures { IfOk result (λ o. IfSome o (IsTriable (aimed aim.now).links aim.now.plan.now.cost boxed.now)) }
{
    if all.len() == 1 {
        return Ok(Some(all[0].choice));
    }
    let mut best = None;
    let mut most = 0;
    for i in 0..all.len().min(TRIED) {
        let product = rises(alloc, aim, known, boxed, rank, all[i].choice)?;
        if product > most {
            most = product;
            best = Some(all[i].choice);
        }
    }
    Ok(best)
}

/// The choice by the optimum of a box's program; `None` if that is too wide, or leaves no choice.
fn by_program(
    alloc: Global,
    aim: &Aim,
    known: &Known,
    boxed: &Boxed,
) -> Result<Option<Choice>, NoMemory>
    requires { IsKnown (aimed aim.now) known.now }
    ensures { IfOk result (λ o. IfSome o (IsTriable (aimed aim.now).links aim.now.plan.now.cost boxed.now)) }
{
    let Some(solution) = known.solved(alloc, aim, boxed)? else {
        return Ok(None);
    };
    let found = choices(alloc, aim, boxed, &solution)?;
    let all = best_first(alloc, found)?;
    best_tried(alloc, aim, known, boxed, solution.rank, all.items())
}

/// The index of the first span of several counts.
fn first_unfixed(spans: &[Span]) -> Option<usize>
    ensures { MatchOption result (All IsFixedSpan spans.now) (IsFreeSpan spans.now) }
{
    spans.iter().position(|s| !is_fixed(s))
}

/// The first module with a span of several counts.
fn first_free(boxed: &[List<Span>]) -> Option<Place>
    ensures { MatchOption result (IsFixedBox boxed.now) (HasFreePlace boxed.now) }
{
    for link in 0..boxed.len() {
        if let Some(module) = first_unfixed(boxed[link].items()) {
            return Some(Place { link, module });
        }
    }
    None
}

/// The first module with a span of several counts, at its least count.
fn at_least(aim: &Aim, boxed: &Boxed) -> Choice
    requires { IsSplittable (aimed aim.now).links aim.now.plan.now.cost boxed.now }
    ensures { IsTriable (aimed aim.now).links aim.now.plan.now.cost boxed.now result }
{
    let Some(place) = first_free(boxed.items()) else {
        unreachable!()
    };
    let at = span_at(boxed.items(), place.link, place.module).least as u64;
    Choice { place, at }
}

/// Where an open box is split: by the optimum of its program if that leaves a choice, else at the first module with several counts.
#[tactic(auto, using(crate::proofs::Choices::choice_of))]
pub(crate) fn choose(
    alloc: Global,
    aim: &Aim,
    known: &Known,
    open: &OpenBox,
) -> Result<Choice, NoMemory>
    requires known { IsKnown (aimed aim.now) known.now }
    requires search_box { IsSearchBox (aimed aim.now).links (2 ^ 14) open.now.boxed }
    requires unfixed { IsFixedBox open.now.boxed → ⊥ }
    requires by_none { (value : ℕ) → HasFreeValue (aimed aim.now).links open.now.boxed value → value < aim.now.plan.now.cost }
    ensures { IfOk result (λ c. (n : ℕ) → AreLow n open.now.boxed → IsChoiceOf (aimed aim.now).links aim.now.plan.now.cost n open.now.boxed c) }
{
    if let Some(choice) = by_program(alloc, aim, known, &open.boxed)? {
        return Ok(choice);
    }
    Ok(at_least(aim, &open.boxed))
}
