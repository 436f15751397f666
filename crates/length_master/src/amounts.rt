use crate::line::{Entry, Line};
use crate::row::{KeptRow, part};
use crate::slot::Slot;
use checked_fraction::gcd;
use module_prices::UnitPair;
use net_core::{List, NoMemory};
use std::alloc::Global;

/// Numbers over a common denominator, and that one, are below this.
const WIDE: u128 = 1 << 62;

/// A fraction in lowest terms.
#[derive(Clone, Copy)]
struct Fraction {
    num: u128,
    den: u128,
}

/// Numbers over one denominator.
#[derive(Drop)]
pub(crate) struct Numbers {
    pub(crate) nums: List<u128>,
    pub(crate) den: u128,
}

/// `num / (first * second)` in lowest terms.
fn lowest(num: u128, first: u128, second: u128) -> Fraction {
    let one = gcd(num, first);
    let rest = part(num, one);
    let two = gcd(rest, second);
    Fraction {
        num: part(rest, two),
        den: part(first, one).wrapping_mul(part(second, two)),
    }
}

/// The least common multiple, where it isn't too wide.
fn multiple(a: u128, b: u128) -> Option<u128> {
    if a >= WIDE || b >= WIDE {
        return None;
    }
    let all = part(a, gcd(a, b)).wrapping_mul(b);
    if all < WIDE { Some(all) } else { None }
}

/// Fractions over their least common denominator, where no number is too wide.
fn over_one(alloc: Global, fractions: &[Fraction]) -> Result<Option<Numbers>, NoMemory> {
    let mut den = 1;
    for fraction in fractions {
        match multiple(den, fraction.den) {
            Some(next) => den = next,
            None => return Ok(None),
        }
    }
    let mut nums = List::from_vec(Vec::with_capacity(alloc, fractions.len())?);
    for fraction in fractions {
        nums.push(fraction.num.wrapping_mul(part(den, fraction.den)))?;
    }
    Ok(Some(Numbers { nums, den }))
}

/// What is taken of the cuts of a basis, and 0 of its slacks.
pub(crate) fn amounts_of(
    alloc: Global,
    rows: &[KeptRow],
    all: u128,
) -> Result<Option<Numbers>, NoMemory> {
    let mut fractions = List::from_vec(Vec::with_capacity(alloc, rows.len())?);
    for row in rows {
        fractions.push(match row.slot {
            Slot::Slack(_) => Fraction { num: 0, den: 1 },
            Slot::Cut(_) => lowest(
                row.value.unsigned_abs(),
                row.den.unsigned_abs() as u128,
                all,
            ),
        })?;
    }
    over_one(alloc, fractions.items())
}

/// The units of a share, from the prices of capacity.
pub(crate) fn units_of(
    alloc: Global,
    prices: &KeptRow,
    pairs: &[UnitPair],
) -> Result<Option<Numbers>, NoMemory> {
    let nums = prices.nums.items();
    let den = prices.den.unsigned_abs() as u128;
    let mut fractions = List::from_vec(Vec::with_capacity(alloc, nums.len())?);
    for e in 0..nums.len() {
        if e < pairs.len() {
            let capacity = pairs[e].capacity.max(1) as u128;
            fractions.push(lowest(nums[e].unsigned_abs() as u128, den, capacity))?;
        }
    }
    over_one(alloc, fractions.items())
}

/// What the cuts take of the capacity of link `e`.
fn taken_at(rows: &[KeptRow], lines: &[Line], amounts: &[u128], e: usize) -> u128 {
    let mut sum = 0u128;
    for i in 0..rows.len() {
        if let Slot::Cut(k) = rows[i].slot {
            if k < lines.len() && i < amounts.len() {
                sum = sum.wrapping_add(amounts[i].wrapping_mul(length_at(
                    lines[k].entries.items(),
                    e,
                )));
            }
        }
    }
    sum
}

/// The length of a link.
fn length_at(entries: &[Entry], e: usize) -> u128 {
    for entry in entries {
        if entry.link == e {
            return entry.length as u128;
        }
    }
    0
}

/// What is left of a unit's cost at link `e`, over the amounts' denominator.
fn left_at(
    rows: &[KeptRow],
    lines: &[Line],
    pairs: &[UnitPair],
    amounts: &Numbers,
    e: usize,
) -> u128 {
    if e >= pairs.len() {
        return 0;
    }
    let taken = taken_at(rows, lines, amounts.nums.items(), e);
    let cost = amounts.den.wrapping_mul(pairs[e].cost as u128);
    cost.wrapping_sub(taken.wrapping_mul(pairs[e].capacity as u128))
}

/// Puts beside the amounts of the cuts what is left for the slacks.
pub(crate) fn fill_slacks(
    rows: &[KeptRow],
    lines: &[Line],
    pairs: &[UnitPair],
    amounts: &mut Numbers,
) {
    for i in 0..rows.len() {
        if let Slot::Slack(e) = rows[i].slot {
            let left = left_at(rows, lines, pairs, amounts, e);
            let nums = amounts.nums.items_mut();
            if i < nums.len() {
                nums[i] = left;
            }
        }
    }
}
