use crate::basis::Basis;
use crate::basis_turn::{set_products, turn};
use crate::column::Column;
use crate::leaving_role::{fixed_point, leaving, points_of};
use crate::share::{Share, set_losses};
use net_core::NoMemory;
use std::alloc::Global;

/// A column that enters.
#[derive(Drop)]
pub struct Entrant {
    /// What enters.
    pub column: Column,
    /// What is short changes by this with each unit of it, over the shortage's `den`; it is below 0.
    pub slope: i64,
}

/// Lets a column enter, by the shortage's `den`; `false` where nothing leaves or a number is too wide, and then the basis is given up.
/// Where one row counts `alone`, what isn't short is to stay so.
///
/// It takes time in the square of the links, and memory in the rows and the shares.
pub fn enter(
    alloc: Global,
    basis: &mut Basis,
    shares: &mut [Share],
    needs: &[i128],
    entrant: Entrant,
    den: i64,
    alone: bool,
) -> Result<bool, NoMemory> {
    let Entrant { column, slope } = entrant;
    set_products(basis, &column);
    let entering = column.demand();
    set_losses(shares, basis.rows.items(), entering);
    let mut points = points_of(alloc, basis.rows.items(), shares, needs, entering, alone)?;
    let falls = if alone {
        0
    } else {
        fixed_point(slope as i128, den)
    };
    let Some(role) = leaving(&mut points, falls) else {
        return Ok(false);
    };
    let turned = turn(alloc, basis, &role, column)?.is_some();
    if !turned {
        basis.rows.clear();
    }
    Ok(turned)
}
