use crate::leaving_role::fixed_point;
use crate::numbers::{common_multiple, over};
use crate::row::BasisRow;
use crate::share::Share;
use net_core::{List, NoMemory};
use std::alloc::Global;

/// How all that is short together depends on the links' capacities.
#[derive(Drop)]
pub struct Shortage {
    /// What a unit of each link's capacity takes off, over `den`.
    pub slopes: List<i64>,
    /// A common denominator of the rows that count.
    pub den: i64,
}

/// How often a row's value counts.
fn weight_of(row: &BasisRow, shares: &[Share]) -> i64 {
    let own = if row.value < 0 { 1 } else { 0 };
    if row.share < shares.len() && shares[row.share].counts {
        own - 1
    } else {
        own
    }
}

/// Whether some value is negative. It takes time in the rows and the shares.
pub fn is_short(rows: &[BasisRow], shares: &[Share]) -> bool {
    rows.iter().any(|row| row.value < 0) || shares.iter().any(|share| share.value < 0)
}

/// Lets all values count that are negative.
pub(crate) fn weigh_all(rows: &mut [BasisRow], shares: &mut [Share]) {
    for k in 0..shares.len() {
        shares[k].counts = shares[k].value < 0;
    }
    for i in 0..rows.len() {
        rows[i].weight = weight_of(&rows[i], shares);
    }
}

/// What a value is below 0, with 20 bits after the point.
fn missing(value: i128, den: i64) -> u128 {
    if value < 0 {
        fixed_point(value, den).unsigned_abs()
    } else {
        0
    }
}

/// How much is short in all rows and keys, with 20 bits after the point. It takes time in the rows and the shares.
pub fn short_in_all(rows: &[BasisRow], shares: &[Share]) -> u128 {
    let mut sum = 0u128;
    for row in rows {
        sum = sum.saturating_add(missing(row.value, row.den));
    }
    for share in shares {
        sum = sum.saturating_add(missing(share.value, share.den));
    }
    sum
}

/// The least common denominator of the rows that count.
fn common_den(rows: &[BasisRow]) -> Option<i64> {
    let mut den = 1;
    for row in rows {
        if row.weight != 0 {
            den = common_multiple(den, row.den)?;
        }
    }
    Some(den)
}

/// Adds numbers some times.
fn add(slopes: &mut [i64], nums: &[i64], times: i64) {
    for e in 0..slopes.len() {
        if e < nums.len() {
            slopes[e] = slopes[e].wrapping_add(nums[e].wrapping_mul(times));
        }
    }
}

/// How what is short depends on the capacities, by the weights of the rows; `None` where a number is too wide.
///
/// It takes time in the links for each row that counts, and a number for each link.
pub fn shortage_of(
    alloc: Global,
    rows: &[BasisRow],
    links: usize,
) -> Result<Option<Shortage>, NoMemory> {
    let Some(den) = common_den(rows) else {
        return Ok(None);
    };
    let mut slopes = List::filled(alloc, 0, links)?;
    for row in rows {
        if row.weight != 0 {
            let times = over(den, row.den).wrapping_mul(row.weight);
            add(slopes.items_mut(), row.nums.items(), times);
        }
    }
    Ok(Some(Shortage { slopes, den }))
}
