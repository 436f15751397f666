use crate::basis::Basis;
use crate::column::{Column, product_with};
use crate::leaving_role::Role;
use crate::numbers::{narrowed, over};
use crate::row::{BasisRow, combine, entered, lower, ready};
use crate::share::Share;
use net_core::{List, NoMemory, Path};
use std::alloc::Global;
use std::mem;

/// The products of the rows with a column that enters.
pub(crate) fn set_products(basis: &mut Basis, column: &Column) {
    let rows = basis.rows.items_mut();
    for i in 0..rows.len() {
        rows[i].product = product_with(rows[i].nums.items(), basis.keys.items(), column);
    }
}

/// A turn at a row; `None` where a number is too wide.
fn turn_row(rows: &mut List<BasisRow>, at: usize, column: Column) -> Result<Option<()>, NoMemory> {
    if at >= rows.len() {
        return Ok(None);
    }
    let mut pivot = rows.remove(at);
    let mut fits = ready(&mut pivot);
    for row in rows.items_mut() {
        if fits.is_some() {
            fits = combine(row, &pivot);
        }
    }
    if fits.is_some() {
        fits = entered(&mut pivot, column);
    }
    rows.push(pivot)?;
    Ok(fits)
}

/// Takes what a demand's new key carries from the values.
fn move_values(rows: &mut [BasisRow], need: i128) {
    for i in 0..rows.len() {
        let moved = (rows[i].product as i128).wrapping_mul(need);
        rows[i].value = rows[i].value.wrapping_sub(moved);
    }
}

/// The place of a demand's row of least denominator.
pub(crate) fn row_of(rows: &[BasisRow], demand: usize) -> Option<usize> {
    let mut found = None;
    let mut least = i64::MAX;
    for i in 0..rows.len() {
        if rows[i].column.demand() == Some(demand) && rows[i].den < least {
            least = rows[i].den;
            found = Some(i);
        }
    }
    found
}

/// Takes numbers some times.
fn take(nums: &mut [i64], other: &[i64], times: i64) {
    for e in 0..nums.len() {
        if e < other.len() {
            nums[e] = nums[e].wrapping_sub(other[e].wrapping_mul(times));
        }
    }
}

/// The row of a demand's key, where it is a column of the block and one of the demand's rows isn't.
pub(crate) fn key_row(
    alloc: Global,
    rows: &[BasisRow],
    share: &Share,
) -> Result<List<i64>, NoMemory> {
    let mut nums = List::filled(alloc, 0, rows.len())?;
    for row in rows {
        if row.column.demand() == Some(share.demand) {
            let times = over(share.den, row.den);
            take(nums.items_mut(), row.nums.items(), times);
        }
    }
    Ok(nums)
}

/// Exchanges the path of a row and its demand's key.
pub(crate) fn exchange(
    row: &mut BasisRow,
    keys: &mut [Path],
    nums: List<i64>,
    share: &Share,
) -> Option<()> {
    let at = share.demand;
    if let Column::Carry(_, path) = &mut row.column {
        if at < keys.len() {
            mem::swap(path, &mut keys[at]);
        }
    }
    row.nums = nums;
    row.den = share.den;
    row.value = share.value;
    row.product = narrowed(share.product)?;
    lower(row)
}

/// A turn at a demand's key.
fn turn_key(
    alloc: Global,
    basis: &mut Basis,
    share: &Share,
    column: Column,
    need: i128,
) -> Result<Option<()>, NoMemory> {
    match row_of(basis.rows.items(), share.demand) {
        Some(at) => {
            let nums = key_row(alloc, basis.rows.items(), share)?;
            let rows = basis.rows.items_mut();
            if at >= rows.len()
                || exchange(&mut rows[at], basis.keys.items_mut(), nums, share).is_none()
            {
                return Ok(None);
            }
            turn_row(&mut basis.rows, at, column)
        }
        None => {
            move_values(basis.rows.items_mut(), need);
            let keys = basis.keys.items_mut();
            let at = share.demand;
            if let Column::Carry(_, path) = column {
                if at < keys.len() {
                    keys[at] = path;
                }
            }
            Ok(Some(()))
        }
    }
}

/// A turn: the column enters for what leaves. `None` where a number is too wide.
pub(crate) fn turn(
    alloc: Global,
    basis: &mut Basis,
    role: &Role,
    column: Column,
) -> Result<Option<()>, NoMemory> {
    match role {
        Role::Row(at) => turn_row(&mut basis.rows, *at, column),
        Role::Key(share) => turn_key(alloc, basis, share, column, share.value),
    }
}
