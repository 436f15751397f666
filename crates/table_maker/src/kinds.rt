ghost use Rattle.std.specs.Prelude.{◌≡◌, ◌≤◌, All, IfOk};
ghost use Rattle.line_check.specs.Inequalities.{need_of};

use line_check::Inequality;
use line_check::inequality::coefficient;
use net_core::{Link, List, Module, NoMemory};
use std::alloc::Global;

/// The greatest weight. Costs up to it are weights as they are.
const GREATEST: u128 = u32::MAX as u128;

/// What the modules have to give.
pub(crate) fn need_of(line: &Inequality) -> u128
    ensures { result ≡ need_of line.now }
{
    line.right.saturating_sub(line.given)
}

/// A kind of module: those of one coefficient.
#[derive(Clone, Copy)]
struct Kind {
    /// What each gives, no more than what is needed.
    gives: u128,
    /// What they cost together.
    cost: u128,
    count: u128,
}

/// The place of the kind that gives this number; past the end where it isn't there.
fn place_of(kinds: &[Kind], gives: u128) -> usize {
    for k in 0..kinds.len() {
        if kinds[k].gives == gives {
            return k;
        }
    }
    kinds.len()
}

/// Counts a module in.
fn count_in(kinds: &mut List<Kind>, gives: u128, cost: u128) -> Result<(), NoMemory> {
    let k = place_of(kinds.items(), gives);
    if k < kinds.len() {
        let kind = kinds.items()[k];
        kinds.items_mut()[k] = Kind {
            gives,
            cost: kind.cost.saturating_add(cost),
            count: kind.count.saturating_add(1),
        };
        return Ok(());
    }
    kinds.push(Kind {
        gives,
        cost,
        count: 1,
    })?;
    Ok(())
}

/// Counts the modules of a link in that give something.
fn count_link(
    kinds: &mut List<Kind>,
    line: &Inequality,
    e: usize,
    modules: &[Module],
) -> Result<(), NoMemory> {
    let need = need_of(line);
    for m in 0..modules.len() {
        let gives = coefficient(line, e, m).min(need);
        if gives > 0 {
            count_in(kinds, gives, modules[m].cost as u128)?;
        }
    }
    Ok(())
}

/// What a kind gives.
fn gives_of(kind: &Kind) -> u128 {
    kind.gives
}

/// The kinds of modules of a line, the one first that gives least.
fn kinds_of(alloc: Global, links: &[Link], line: &Inequality) -> Result<List<Kind>, NoMemory> {
    let mut kinds = List::new(alloc);
    for e in 0..links.len() {
        count_link(&mut kinds, line, e, links[e].modules.items())?;
    }
    kinds.items_mut().sort_by_key(alloc, |kind| gives_of(kind))?;
    Ok(kinds)
}

/// What a module of a kind costs in the mean.
fn mean_cost(kind: &Kind) -> u128 {
    kind.cost / kind.count.max(1)
}

/// The greatest mean cost.
fn greatest_cost(kinds: &[Kind]) -> u128 {
    let mut greatest = 0;
    for kind in kinds {
        greatest = mean_cost(kind).max(greatest);
    }
    greatest
}

/// A cost as a weight: as it is, or in parts of the greatest cost where that is too wide.
fn as_weight(cost: u128, greatest: u128) -> u32 {
    let weight = if greatest <= GREATEST {
        cost
    } else {
        cost.saturating_mul(GREATEST) / greatest
    };
    weight.min(GREATEST) as u32
}

/// The mean cost of each kind of module of a line as a weight, the kind first that gives least.
/// It takes time in the modules times the kinds, and memory for a few numbers for each kind.
pub(crate) fn costs_of(
    alloc: Global,
    links: &[Link],
    line: &Inequality,
) -> Result<List<u32>, NoMemory> {
    let kinds = kinds_of(alloc, links, line)?;
    let greatest = greatest_cost(kinds.items());
    let mut costs = List::new(alloc);
    for kind in kinds.items() {
        costs.push(as_weight(mean_cost(kind), greatest))?;
    }
    Ok(costs)
}

/// A weight in parts of a right side, rounded up.
fn in_parts(weight: u32, right: u128, most: u32) -> u32
    ensures { result ≤ most }
{
    let part = (weight as u128 * most as u128).div_ceil(right.max(1));
    part.min(most as u128) as u32
}

/// Weights in parts of a right side, rounded up: none is more than all of it.
pub(crate) fn weights_of(
    alloc: Global,
    costs: &[u32],
    right: u128,
    most: u32,
) -> Result<List<u32>, NoMemory>
    ensures { IfOk result (All (λ weight. weight ≤ most)) }
{
    let mut weights = List::new(alloc);
    for cost in costs {
        weights.push(in_parts(*cost, right, most))?;
    }
    Ok(weights)
}
