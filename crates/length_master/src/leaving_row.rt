use crate::row::KeptRow;
use checked_fraction::cmp;
use std::cmp::Ordering;

/// The order of two rows by their numbers over their products, from the first that differs.
fn order_by_nums(row: &KeptRow, other: &KeptRow) -> Ordering {
    let (nums, others) = (row.nums.items(), other.nums.items());
    for e in 0..nums.len() {
        if e < others.len() {
            let left = (nums[e] as i128).wrapping_mul(other.product);
            let right = (others[e] as i128).wrapping_mul(row.product);
            if left < right {
                return Ordering::Less;
            }
            if right < left {
                return Ordering::Greater;
            }
        }
    }
    Ordering::Equal
}

/// Whether a row with a positive product leaves before another one: its value over its product is less, or its numbers' are.
fn is_before(row: &KeptRow, other: &KeptRow) -> bool {
    let (size, sizes) = (row.product.unsigned_abs(), other.product.unsigned_abs());
    if size == 0 || sizes == 0 {
        return sizes == 0;
    }
    match cmp(
        row.value.unsigned_abs(),
        size,
        other.value.unsigned_abs(),
        sizes,
    ) {
        Ordering::Less => true,
        Ordering::Greater => false,
        Ordering::Equal => order_by_nums(row, other) == Ordering::Less,
    }
}

/// The one of two rows that leaves first; the row of place `i` where there is no other one.
fn earlier(rows: &[KeptRow], first: Option<usize>, i: usize) -> usize {
    if let Some(r) = first {
        if r < rows.len() && i < rows.len() && !is_before(&rows[i], &rows[r]) {
            return r;
        }
    }
    i
}

/// The row that leaves: the first by value, and then by numbers, over the product, of those with a positive product.
pub(crate) fn leaving(rows: &[KeptRow]) -> Option<usize> {
    let mut first = None;
    for i in 0..rows.len() {
        if rows[i].product > 0 {
            first = Some(earlier(rows, first, i));
        }
    }
    first
}
