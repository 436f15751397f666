use crate::entrant::{Entrant, entering, set_products};
use crate::leaving_row::leaving;
use crate::line::Line;
use crate::row::{KeptRow, combine, enter, unit_row};
use net_core::{List, NoMemory};
use std::alloc::Global;
use warm_basis::worth;

/// The most turns that are taken in a call.
const MOST_TURNS: usize = 20_000;

/// A basis of the program over lengths.
#[derive(Drop)]
pub(crate) struct Basis {
    /// A row for each link.
    pub(crate) rows: List<KeptRow>,
    /// The prices of the links' capacity; its slot, value and product mean nothing to others.
    pub(crate) prices: KeptRow,
    /// Whether the last turns ended since no column gains.
    pub(crate) settled: bool,
}

/// The basis of all slacks.
pub(crate) fn slack_basis(alloc: Global, links: usize) -> Result<Basis, NoMemory> {
    let mut rows = List::new(alloc);
    for e in 0..links {
        rows.push(unit_row(alloc, links, e)?)?;
    }
    let prices = unit_row(alloc, links, links)?;
    Ok(Basis {
        rows,
        prices,
        settled: false,
    })
}

/// Sets what is taken of each column at these bounds.
pub(crate) fn set_values(rows: &mut [KeptRow], bounds: &[i128]) {
    for i in 0..rows.len() {
        rows[i].value = worth(rows[i].nums.items(), bounds);
    }
}

/// A column enters at a row; `None` where a number is too wide.
fn turn(basis: &mut Basis, entrant: Entrant, at: usize) -> Result<Option<()>, NoMemory> {
    if at >= basis.rows.len() {
        return Ok(None);
    }
    let mut pivot = basis.rows.remove(at);
    let mut fits = combine(&mut basis.prices, &pivot);
    for row in basis.rows.items_mut() {
        if fits.is_some() {
            fits = combine(row, &pivot);
        }
    }
    if fits.is_some() {
        fits = enter(&mut pivot, entrant.slot);
    }
    basis.rows.push(pivot)?;
    Ok(fits)
}

/// Turns until no column gains. False where a number is too wide, no row leaves, or too many turns were taken.
pub(crate) fn settle(basis: &mut Basis, lines: &[Line]) -> Result<bool, NoMemory> {
    for _ in 0..MOST_TURNS {
        let Some(entrant) = entering(&basis.prices, lines) else {
            return Ok(true);
        };
        set_products(basis.rows.items_mut(), lines, entrant.slot);
        basis.prices.product = 0i128.wrapping_sub(entrant.surplus);
        let Some(at) = leaving(basis.rows.items()) else {
            return Ok(false);
        };
        if turn(basis, entrant, at)?.is_none() {
            return Ok(false);
        }
    }
    Ok(false)
}
