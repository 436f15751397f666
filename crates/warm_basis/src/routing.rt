use crate::basis::Basis;
use crate::column::Column;
use crate::numbers::{common_multiple, over};
use crate::row::BasisRow;
use crate::share::{Share, place_of, whole_share};
use net_core::{Copied, Flow, LinkId, List, NoMemory, Path, Routing};
use std::alloc::Global;

/// A common denominator of all values.
fn common_den(rows: &[BasisRow], shares: &[Share]) -> Option<i64> {
    let mut den = 1;
    for row in rows {
        den = common_multiple(den, row.den)?;
    }
    for share in shares {
        den = common_multiple(den, share.den)?;
    }
    Some(den)
}

/// Adds a flow, unless nothing runs there.
fn push_flow(
    flows: &mut List<Flow>,
    demand: usize,
    path: &Path,
    value: i128,
    times: i64,
) -> Result<(), NoMemory> {
    if value > 0 && demand < 1 << 32 {
        flows.push(Flow {
            demand: demand as u32,
            path: path.copy()?,
            num: value.wrapping_mul(times as i128).unsigned_abs(),
        })?;
    }
    Ok(())
}

/// The flows of the keys and of the paths of the rows, over the denominator.
fn flows_of(
    alloc: Global,
    basis: &Basis,
    shares: &[Share],
    needs: &[i128],
    den: i64,
) -> Result<List<Flow>, NoMemory> {
    let mut flows = List::new(alloc);
    let keys = basis.keys.items();
    for k in 0..keys.len() {
        let at = place_of(shares, k);
        let share = if at < shares.len() {
            shares[at]
        } else {
            whole_share(needs, k, None)
        };
        push_flow(
            &mut flows,
            share.demand,
            &keys[k],
            share.value,
            over(den, share.den),
        )?;
    }
    for row in basis.rows.items() {
        if let Column::Carry(demand, path) = &row.column {
            push_flow(&mut flows, *demand, path, row.value, over(den, row.den))?;
        }
    }
    Ok(flows)
}

/// The routing of a basis in which nothing is short; `None` where its denominator is too wide. It may not be in lowest terms.
///
/// It takes time in the demands times the shares, and copies the paths that carry something.
pub fn routing_of(
    alloc: Global,
    basis: &Basis,
    shares: &[Share],
    needs: &[i128],
) -> Result<Option<Routing>, NoMemory> {
    let Some(den) = common_den(basis.rows.items(), shares) else {
        return Ok(None);
    };
    let flows = flows_of(alloc, basis, shares, needs, den)?;
    Ok(Some(Routing {
        den: den.unsigned_abs(),
        flows,
    }))
}
