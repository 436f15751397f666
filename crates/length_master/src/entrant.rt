use crate::line::{Entry, Line};
use crate::row::{KeptRow, part};
use crate::slot::Slot;

/// A column that gains: what it gains beyond the prices of its entries, over their denominator.
#[derive(Clone, Copy)]
pub(crate) struct Entrant {
    pub(crate) slot: Slot,
    pub(crate) surplus: i128,
}

/// The slack of least price, if that is below 0.
fn slack_of(prices: &[i64]) -> Option<Entrant> {
    let mut least = 0;
    let mut found = None;
    for e in 0..prices.len() {
        if prices[e] < least {
            least = prices[e];
            found = Some(Entrant {
                slot: Slot::Slack(e),
                surplus: 0i128.wrapping_sub(least as i128),
            });
        }
    }
    found
}

/// The product of a row's numbers with a line's entries.
pub(crate) fn product_of(nums: &[i64], entries: &[Entry]) -> i128 {
    let mut sum = 0i128;
    for entry in entries {
        if entry.link < nums.len() {
            sum = sum.wrapping_add((nums[entry.link] as i128).wrapping_mul(entry.length as i128));
        }
    }
    sum
}

/// The line of greatest surplus by weight, if one gains.
fn line_of(prices: &KeptRow, lines: &[Line]) -> Option<Entrant> {
    let mut most = 0;
    let mut found = None;
    for k in 0..lines.len() {
        let line = &lines[k];
        let cost = product_of(prices.nums.items(), line.entries.items());
        let surplus = line
            .gain
            .wrapping_mul(prices.den as i128)
            .wrapping_sub(cost);
        if surplus > 0 {
            let size = surplus.unsigned_abs().min(1 << 104).wrapping_mul(1 << 20);
            let rate = part(size, line.weight).max(1);
            if rate > most {
                most = rate;
                found = Some(Entrant {
                    slot: Slot::Cut(k),
                    surplus,
                });
            }
        }
    }
    found
}

/// A column that gains at these prices: a slack while a price is below 0, else the cut of greatest surplus by its weight.
pub(crate) fn entering(prices: &KeptRow, lines: &[Line]) -> Option<Entrant> {
    match slack_of(prices.nums.items()) {
        Some(found) => Some(found),
        None => line_of(prices, lines),
    }
}

/// The product of a row's numbers with a column.
fn product_with(nums: &[i64], lines: &[Line], slot: Slot) -> i128 {
    match slot {
        Slot::Slack(e) => { if e < nums.len() { nums[e] as i128 } else { 0 } }
        Slot::Cut(k) => {
            if k < lines.len() {
                product_of(nums, lines[k].entries.items())
            } else {
                0
            }
        }
    }
}

/// Sets the products of the rows with a column that enters.
pub(crate) fn set_products(rows: &mut [KeptRow], lines: &[Line], slot: Slot) {
    for i in 0..rows.len() {
        rows[i].product = product_with(rows[i].nums.items(), lines, slot);
    }
}
