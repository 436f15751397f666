use crate::slot::Slot;
use checked_fraction::gcd;
use net_core::{List, NoMemory};
use std::alloc::Global;
use warm_basis::{bits_of, divide, mix};

/// Numbers of a row are below this; with wider ones nothing is found.
const WIDE: u128 = 1 << 62;

/// The product of two numbers below this fits into a word, and so does the sum of two such products.
const NARROW: u64 = 1 << 31;

/// A column of the basis with its row of the inverse over lengths, whole numbers over `den`. They may wrap: a row is a hint, and only the
/// basis that turns end with is tested.
#[derive(Drop)]
pub struct KeptRow {
    pub slot: Slot,
    /// One number for each link.
    pub nums: List<i64>,
    pub den: i64,
    /// What is taken of the column, over `den` and the common multiple of the capacities.
    pub value: i128,
    /// What it loses to a unit of the column that enters, over `den`.
    pub product: i128,
}

/// The row of a link's slack in the basis of all slacks.
pub(crate) fn unit_row(alloc: Global, links: usize, at: usize) -> Result<KeptRow, NoMemory> {
    let mut nums = List::filled(alloc, 0, links)?;
    let all = nums.items_mut();
    if at < all.len() {
        all[at] = 1;
    }
    Ok(KeptRow {
        slot: Slot::Slack(at),
        nums,
        den: 1,
        value: 0,
        product: 0,
    })
}

/// A quotient by a positive number; by another one the number itself.
pub(crate) fn over(number: i128, by: u128) -> i128 {
    if by > 1 && by < 1 << 126 {
        number / by as i128
    } else {
        number
    }
}

/// A wide number in one word, and 0 for one that doesn't fit.
pub(crate) fn word(number: i128) -> i64 {
    if number > -(1 << 62) && number < 1 << 62 {
        number as i64
    } else {
        0
    }
}

/// A quotient by a positive number; by 0 the number itself.
pub(crate) fn part(number: u128, by: u128) -> u128 {
    if by > 1 { number / by } else { number }
}

/// A number of the row less that of another, each taken some times.
fn mixed(number: i64, times: i128, other: i64, less: i128) -> i128 {
    (number as i128)
        .wrapping_mul(times)
        .wrapping_sub((other as i128).wrapping_mul(less))
}

/// The greatest common divisor of a denominator and of mixed numbers, where each of them is narrow over it.
fn common_of(nums: &[i64], times: i128, other: &[i64], less: i128, whole: u128) -> Option<u128> {
    let mut shared = whole;
    let mut most = whole;
    for e in 0..nums.len() {
        if e < other.len() {
            let size = mixed(nums[e], times, other[e], less).unsigned_abs();
            most = most.max(size);
            if shared != 1 && size != 0 {
                shared = gcd(size, shared);
            }
        }
    }
    if part(most, shared) < WIDE {
        Some(shared)
    } else {
        None
    }
}

/// Takes `less` times another row from `times` this row, over a common divisor.
fn mix_wide(nums: &mut [i64], times: i128, other: &[i64], less: i128, shared: u128) {
    for e in 0..nums.len() {
        if e < other.len() {
            nums[e] = word(over(mixed(nums[e], times, other[e], less), shared));
        }
    }
}

/// The greatest common divisor of two words below 2^62.
fn common(a: u64, b: u64) -> u64 {
    if b != 0 && a % b == 0 {
        b
    } else {
        gcd(a as u128, b as u128).min(WIDE) as u64
    }
}

/// Mixes rows of narrow numbers, and answers the divisor that they and the denominator have lost; `None` where a number stays too wide.
fn combine_words(row: &mut KeptRow, times: i64, other: &[i64], less: i64) -> Option<u128> {
    mix(row.nums.items_mut(), times, less, other);
    let whole = row.den.wrapping_mul(times);
    let shared = shared_of(row.nums.items(), whole.unsigned_abs());
    let by = word(shared as i128);
    row.den = whole;
    if by > 1 {
        divide(row.nums.items_mut(), by);
        row.den = whole / by;
    }
    if (bits_of(row.nums.items()) as u128) < WIDE {
        Some(shared as u128)
    } else {
        None
    }
}

/// Mixes rows of any numbers, and answers the divisor that they and the denominator have lost; `None` where a number stays too wide.
fn combine_wide(row: &mut KeptRow, times: i128, other: &[i64], less: i128) -> Option<u128> {
    let whole = (row.den as i128).wrapping_mul(times);
    let shared = common_of(row.nums.items(), times, other, less, whole.unsigned_abs())?;
    mix_wide(row.nums.items_mut(), times, other, less, shared);
    row.den = word(over(whole, shared));
    Some(shared)
}

/// Whether the products of all numbers of two rows with these fit into a word.
fn are_narrow(row: &KeptRow, pivot: &KeptRow, times: i128, less: i128) -> bool {
    let bits = bits_of(row.nums.items()) | bits_of(pivot.nums.items()) | row.den.unsigned_abs();
    bits < NARROW && times.unsigned_abs() < NARROW as u128 && less.unsigned_abs() < NARROW as u128
}

/// A row after a turn at another one, whose product is positive; `None` where a number is too wide. Narrow rows are mixed in words, since
/// divisions of 128 bits took a fifth of a planning where links have many different capacities.
pub(crate) fn combine(row: &mut KeptRow, pivot: &KeptRow) -> Option<()> {
    if row.product == 0 {
        return Some(());
    }
    let shared = gcd(row.product.unsigned_abs(), pivot.product.unsigned_abs());
    let (less, times) = (over(row.product, shared), over(pivot.product, shared));
    if less.unsigned_abs() >= WIDE || times.unsigned_abs() >= WIDE {
        return None;
    }
    let value = row
        .value
        .wrapping_mul(times)
        .wrapping_sub(pivot.value.wrapping_mul(less));
    let other = pivot.nums.items();
    let lost = if are_narrow(row, pivot, times, less) {
        combine_words(row, word(times), other, word(less))?
    } else {
        combine_wide(row, times, other, less)?
    };
    row.value = over(value, lost);
    Some(())
}

/// The greatest common divisor of numbers and one more.
fn shared_of(nums: &[i64], one: u64) -> u64 {
    let mut shared = one;
    for num in nums {
        if shared == 1 {
            return 1;
        }
        shared = common(num.unsigned_abs(), shared);
    }
    shared
}

/// The row of the column that has entered; `None` where its product is too wide.
pub(crate) fn enter(row: &mut KeptRow, slot: Slot) -> Option<()> {
    let whole = row.product.unsigned_abs();
    let shared = gcd(shared_of(row.nums.items(), 0) as u128, whole);
    if shared >= WIDE || part(whole, shared) >= WIDE {
        return None;
    }
    divide(row.nums.items_mut(), word(shared as i128));
    row.slot = slot;
    row.den = word(over(row.product, shared));
    row.value = over(row.value, shared);
    Some(())
}
