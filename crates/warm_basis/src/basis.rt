use crate::column::Column;
use crate::row::{BasisRow, set_values};
use net_core::{Copied, LinkId, List, NoMemory, Path, RouteColumn};
use std::alloc::Global;

/// A basis of the equations that the demands are carried within the capacities: a key path for each demand, and as many further columns as
/// there are links, each with its row of the inverse. It is one of every state and of all capacities, which are right sides alone.
#[derive(Drop)]
pub struct Basis {
    /// One path for each demand, without links where none is known.
    pub keys: List<Path>,
    /// The rows of the further columns.
    pub rows: List<BasisRow>,
}

/// Takes an amount along a path.
fn take_along(rest: &mut [i128], path: &[LinkId], amount: i128) {
    for link in path {
        let at = link.0 as usize;
        if at < rest.len() {
            rest[at] = rest[at].wrapping_sub(amount);
        }
    }
}

/// Adds a copy of a path of a demand.
fn push_carrier(
    columns: &mut List<RouteColumn>,
    demand: usize,
    path: &Path,
) -> Result<(), NoMemory> {
    if demand < 1 << 32 {
        columns.push(RouteColumn::Carry(demand as u32, path.copy()?))?;
    }
    Ok(())
}

/// A copy of rows.
fn rows_of(alloc: Global, rows: &[BasisRow]) -> Result<List<BasisRow>, NoMemory> {
    let mut copies = List::from_vec(Vec::with_capacity(alloc, rows.len())?);
    for row in rows {
        copies.push(row.copy()?)?;
    }
    Ok(copies)
}

impl Basis {
    /// No keys and no rows. It asks for no memory.
    pub fn new(alloc: Global) -> Basis {
        Basis {
            keys: List::new(alloc),
            rows: List::new(alloc),
        }
    }

    /// These keys, and the slacks of the links. It takes time and memory in the square of the links.
    pub fn of_slacks(alloc: Global, keys: List<Path>, links: usize) -> Result<Basis, NoMemory> {
        let mut rows = List::new(alloc);
        for e in 0..links {
            rows.push(BasisRow::of_slack(alloc, links, e)?)?;
        }
        Ok(Basis { keys, rows })
    }

    /// A copy. It takes time and memory in the square of the links, and in the links of the paths.
    pub fn copy(&self, alloc: Global) -> Result<Basis, NoMemory> {
        Ok(Basis {
            keys: self.keys.copy()?,
            rows: rows_of(alloc, self.rows.items())?,
        })
    }

    /// The keys and the paths of the rows, as columns of a routing program. It copies each of them, in time and memory of their links.
    pub fn carriers(&self, alloc: Global) -> Result<List<RouteColumn>, NoMemory> {
        let mut columns = List::new(alloc);
        let keys = self.keys.items();
        for k in 0..keys.len() {
            push_carrier(&mut columns, k, &keys[k])?;
        }
        for row in self.rows.items() {
            if let Column::Carry(demand, path) = &row.column {
                push_carrier(&mut columns, *demand, path)?;
            }
        }
        Ok(columns)
    }

    /// What the keys leave of the links where they carry all demands.
    fn rest(&self, alloc: Global, bounds: &[i128], needs: &[i128]) -> Result<List<i128>, NoMemory> {
        let mut rest = List::from_slice(alloc, bounds)?;
        let keys = self.keys.items();
        for k in 0..keys.len() {
            if k < needs.len() {
                take_along(rest.items_mut(), keys[k].items(), needs[k]);
            }
        }
        Ok(rest)
    }

    /// Sets what the columns carry where the links have these capacities, and the demands these needs over the same scale.
    ///
    /// It takes time in the square of the links, and in the links of the keys.
    pub fn set_values(
        &mut self,
        alloc: Global,
        bounds: &[i128],
        needs: &[i128],
    ) -> Result<(), NoMemory> {
        let rest = self.rest(alloc, bounds, needs)?;
        set_values(self.rows.items_mut(), rest.items());
        Ok(())
    }
}
