ghost use Rattle.std.specs.Prelude.{◌≡◌, List, IfOk, IfSome, length};
ghost use Rattle.plan_terms.specs.Terms.{AreCounts, Link};
ghost use Rattle.tree_boxes.specs.Searches.{aimed};

use crate::aim::Aim;
use box_program::Solution;
use net_core::{Counts, Link, List, NoMemory};
use std::alloc::Global;
use tree_check::boxes::span_at;
use tree_check::{Boxed, Span};

/// The least count of each of a link's modules.
fn least_of_link(
    alloc: Global,
    boxed: &[List<Span>],
    e: usize,
    modules: usize,
) -> Result<List<u64>, NoMemory>
    ensures { IfOk result (λ numbers. length numbers ≡ modules) }
{
    let mut numbers = List::new(alloc);
    for m in 0..modules {
        let least = span_at(boxed, e, m).least;
        numbers.push(least.min(u64::MAX as u128) as u64)?;
    }
    Ok(numbers)
}

/// The least count of each module.
fn least_of_box(alloc: Global, links: &[Link], boxed: &[List<Span>]) -> Result<Counts, NoMemory>
    ensures { IfOk result (AreCounts links.now) }
{
    let mut counts = List::new(alloc);
    for e in 0..links.len() {
        counts.push(least_of_link(alloc, boxed, e, links[e].modules.len())?)?;
    }
    Ok(counts)
}

/// Sets a count, if there is such a module.
fn set_number(numbers: &mut [u64], m: usize, n: u64)
    ensures { length numbers.new ≡ length numbers.old }
{
    if m < numbers.len() {
        numbers[m] = n;
    }
}

/// Sets a count in the list of a link, if there is such a link and module.
fn set_count(counts: &mut [List<u64>], e: usize, m: usize, n: u64)
    ensures { (links : List Link) → AreCounts links counts.old → AreCounts links counts.new }
{
    if e < counts.len() {
        set_number(counts[e].items_mut(), m, n);
    }
}

/// The counts of the program's point; `None` if some amount isn't whole.
pub(crate) fn whole_counts(
    alloc: Global,
    aim: &Aim,
    boxed: &Boxed,
    solution: &Solution,
) -> Result<Option<Counts>, NoMemory>
    ensures { IfOk result (λ o. IfSome o (AreCounts (aimed aim.now).links)) }
{
    let links = aim.instance.net.links().items();
    let mut counts = least_of_box(alloc, links, boxed.items())?;
    for a in solution.amounts.items() {
        if a.part > 0 || a.whole > u64::MAX as u128 {
            return Ok(None);
        }
        set_count(counts.items_mut(), a.link, a.module, a.whole as u64);
    }
    Ok(Some(counts))
}
