use crate::column::Column;
use crate::numbers::{common, over, signed, wide_over};
use crate::whole_numbers::{bits_of, divide, mix, worth};
use net_core::{Copied, List, NoMemory};
use std::alloc::Global;

/// A column of the basis with its row of the inverse, whole numbers over `den`.
#[derive(Drop)]
pub struct BasisRow {
    /// What the row is of.
    pub column: Column,
    /// One number for each link.
    pub nums: List<i64>,
    /// The denominator of the numbers.
    pub den: i64,
    /// What the column carries, over `den`; below 0 that much is short.
    pub(crate) value: i128,
    /// What it loses to a unit of the column that enters, over `den`.
    pub(crate) product: i64,
    /// How often its value counts in what is short.
    pub(crate) weight: i64,
    /// The place of its demand's share, past the end where it has none.
    pub(crate) share: usize,
}

impl BasisRow {
    /// The row of a link's slack.
    pub(crate) fn of_slack(alloc: Global, links: usize, at: usize) -> Result<BasisRow, NoMemory> {
        let mut nums = List::filled(alloc, 0, links)?;
        let all = nums.items_mut();
        if at < all.len() {
            all[at] = 1;
        }
        Ok(BasisRow {
            column: Column::Slack(at),
            nums,
            den: 1,
            value: 0,
            product: 0,
            weight: 0,
            share: usize::MAX,
        })
    }

    /// A copy.
    pub(crate) fn copy(&self) -> Result<BasisRow, NoMemory> {
        Ok(BasisRow {
            column: self.column.copy()?,
            nums: self.nums.copy()?,
            den: self.den,
            value: self.value,
            product: self.product,
            weight: self.weight,
            share: self.share,
        })
    }
}

/// The values at what the keys leave of the links.
pub(crate) fn set_values(rows: &mut [BasisRow], rest: &[i128]) {
    for i in 0..rows.len() {
        rows[i].value = worth(rows[i].nums.items(), rest);
    }
}

/// The greatest common divisor of numbers and a denominator.
fn common_of(nums: &[i64], den: u64) -> u64 {
    let mut shared = den;
    for e in 0..nums.len() {
        if shared == 1 {
            return 1;
        }
        if nums[e] != 0 {
            shared = common(nums[e].unsigned_abs(), shared);
        }
    }
    shared
}

/// Brings a row to lowest terms; `None` where its numbers are too wide.
pub(crate) fn lower(row: &mut BasisRow) -> Option<()> {
    let shared = common_of(row.nums.items(), row.den.unsigned_abs());
    if shared > 1 {
        let by = signed(shared)?;
        divide(row.nums.items_mut(), by);
        row.den = over(row.den, by);
        row.value = wide_over(row.value, by);
        row.product = over(row.product, by);
    }
    signed(bits_of(row.nums.items()) | row.den.unsigned_abs())?;
    Some(())
}

/// A row after a turn at another one, whose product is positive.
pub(crate) fn combine(row: &mut BasisRow, pivot: &BasisRow) -> Option<()> {
    if row.product == 0 {
        return Some(());
    }
    let size = row.product.unsigned_abs();
    let shared = signed(common(size, pivot.product.unsigned_abs()))?;
    signed(size)?;
    let (less, times) = (over(row.product, shared), over(pivot.product, shared));
    mix(row.nums.items_mut(), times, less, pivot.nums.items());
    row.den = row.den.wrapping_mul(times);
    row.value = row
        .value
        .wrapping_mul(times as i128)
        .wrapping_sub(pivot.value.wrapping_mul(less as i128));
    lower(row)
}

/// A row with its sign changed where its product is below 0.
fn turn_sign(row: &mut BasisRow) {
    if row.product < 0 {
        let nums = row.nums.items_mut();
        for e in 0..nums.len() {
            nums[e] = 0i64.wrapping_sub(nums[e]);
        }
        row.product = 0i64.wrapping_sub(row.product);
        row.value = 0i128.wrapping_sub(row.value);
    }
}

/// The row at which a turn is made, with a positive product; `None` where it has none or too wide a one.
pub(crate) fn ready(row: &mut BasisRow) -> Option<()> {
    turn_sign(row);
    if row.product == 0 {
        return None;
    }
    signed(row.product.unsigned_abs())?;
    Some(())
}

/// The row of the column that has entered.
pub(crate) fn entered(row: &mut BasisRow, column: Column) -> Option<()> {
    row.column = column;
    row.den = row.product;
    row.weight = 0;
    lower(row)
}
