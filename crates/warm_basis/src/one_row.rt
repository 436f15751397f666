use crate::basis::Basis;
use crate::basis_turn::{exchange, key_row, row_of};
use crate::leaving_role::fixed_point;
use crate::row::BasisRow;
use crate::share::Share;
use crate::shortage::weigh_all;
use net_core::NoMemory;
use std::alloc::Global;

/// What came of letting rows count.
#[derive(Clone, Copy)]
pub enum Aim {
    /// Those count that are to.
    Set,
    /// A short key has become a row.
    Exchanged,
    /// A number is too wide.
    Wide,
}

/// Lets no row count. It takes time in the rows.
pub fn clear(rows: &mut [BasisRow]) {
    for i in 0..rows.len() {
        rows[i].weight = 0;
    }
}

/// The place of the row that counts and is still short. It takes time in the rows.
pub fn aimed(rows: &[BasisRow]) -> Option<usize> {
    for i in 0..rows.len() {
        if rows[i].weight != 0 && rows[i].value < 0 {
            return Some(i);
        }
    }
    None
}

/// The place of the row that is short of most.
fn shortest(rows: &[BasisRow]) -> Option<usize> {
    let mut found = None;
    let mut least = 0;
    for i in 0..rows.len() {
        let value = fixed_point(rows[i].value, rows[i].den);
        if value < least {
            least = value;
            found = Some(i);
        }
    }
    found
}

/// A key that is short.
fn short_key(shares: &[Share]) -> Option<Share> {
    for share in shares {
        if share.value < 0 {
            return Some(*share);
        }
    }
    None
}

/// Lets a short key and a row of its demand change places.
fn make_row(alloc: Global, basis: &mut Basis, share: &Share) -> Result<Aim, NoMemory> {
    let Some(at) = row_of(basis.rows.items(), share.demand) else {
        return Ok(Aim::Wide);
    };
    let nums = key_row(alloc, basis.rows.items(), share)?;
    let rows = basis.rows.items_mut();
    if at < rows.len() && exchange(&mut rows[at], basis.keys.items_mut(), nums, share).is_some() {
        rows[at].weight = 1;
        return Ok(Aim::Exchanged);
    }
    Ok(Aim::Wide)
}

/// Lets one short row count alone: the one that did, while it is short, else the one that is short of most.
fn count_one(alloc: Global, basis: &mut Basis, shares: &[Share]) -> Result<Aim, NoMemory> {
    let rows = basis.rows.items_mut();
    if aimed(rows).is_some() {
        return Ok(Aim::Set);
    }
    clear(rows);
    if let Some(at) = shortest(rows) {
        if at < rows.len() {
            rows[at].weight = 1;
            return Ok(Aim::Set);
        }
    }
    match short_key(shares) {
        Some(share) => make_row(alloc, basis, &share),
        None => Ok(Aim::Wide),
    }
}

/// Lets one short row count alone, or all short rows and keys. A short key that is to count alone changes places with a row of its demand.
///
/// It takes time in the rows, and where a key changes places also in the square of the links.
pub fn set_weights(
    alloc: Global,
    basis: &mut Basis,
    shares: &mut [Share],
    alone: bool,
) -> Result<Aim, NoMemory> {
    if alone {
        return count_one(alloc, basis, shares);
    }
    weigh_all(basis.rows.items_mut(), shares);
    Ok(Aim::Set)
}
