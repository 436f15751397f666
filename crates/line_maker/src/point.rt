use box_program::{Amount, Solution};
use net_core::{Link, List, NoMemory};
use std::alloc::Global;
use tree_check::Span;
use tree_check::boxes::span_at;

/// Amounts of modules over one denominator.
#[derive(Drop)]
pub(crate) struct Point {
    /// A numerator for each module of each link, link by link.
    pub nums: List<u128>,
    pub den: u128,
}

/// Puts the least counts of a link's modules last, over a denominator.
fn push_least(
    nums: &mut List<u128>,
    boxed: &[List<Span>],
    e: usize,
    modules: usize,
    den: u128,
) -> Result<(), NoMemory> {
    for m in 0..modules {
        nums.push(span_at(boxed, e, m).least.saturating_mul(den))?;
    }
    Ok(())
}

/// The least counts of a box, over a denominator, and the place of each link's first module.
fn least_of(
    alloc: Global,
    links: &[Link],
    boxed: &[List<Span>],
    den: u128,
    firsts: &mut List<usize>,
) -> Result<List<u128>, NoMemory> {
    let mut nums = List::new(alloc);
    for e in 0..links.len() {
        firsts.push(nums.len())?;
        push_least(&mut nums, boxed, e, links[e].modules.len(), den)?;
    }
    Ok(nums)
}

/// Sets the numerator of an amount, if its module is there.
fn set_amount(nums: &mut [u128], firsts: &[usize], amount: &Amount, den: u128) {
    if amount.link >= firsts.len() {
        return;
    }
    let place = firsts[amount.link].saturating_add(amount.module);
    if place < nums.len() {
        nums[place] = amount.whole.saturating_mul(den).saturating_add(amount.part);
    }
}

/// The point of a box's program.
pub(crate) fn point_of(
    alloc: Global,
    links: &[Link],
    boxed: &[List<Span>],
    solution: &Solution,
) -> Result<Point, NoMemory> {
    let mut firsts = List::new(alloc);
    let mut nums = least_of(alloc, links, boxed, solution.den, &mut firsts)?;
    for amount in solution.amounts.items() {
        set_amount(nums.items_mut(), firsts.items(), amount, solution.den);
    }
    Ok(Point {
        nums,
        den: solution.den,
    })
}

/// The numerator at a place; 0 past the end.
pub(crate) fn num_at(point: &Point, place: usize) -> u128 {
    let nums = point.nums.items();
    if place < nums.len() { nums[place] } else { 0 }
}
