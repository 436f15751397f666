ghost use Rattle.std.specs.Prelude.{◌≡◌, ◌≤◌, ◌<◌, ◌+◌, ◌⊎◌, [], ◌∷◌, IfOk, IfErr, List as Seq, length, map};
ghost use Rattle.net_core.{specs.declared.demand.Demand.{Demand as D}, specs.Terms.AreDemands};
ghost use Rattle.worked_networks.specs.Tables.{row_of};

use crate::belonging::belong;
use crate::fault::WorkedFault;
use crate::names::letter;
use net_core::{Demand, Demands, List, NoMemory, NodeId};
use std::alloc::Global;

/// A demand: the places of its ends among the nodes, and its need in units.
pub type DemandRow = (u32, u32, u64);

/// The demands A, B and so on of the rows.
fn listed(alloc: Global, rows: &[DemandRow]) -> Result<Demands, NoMemory>
    requires { length rows.now ≤ 26 }
    ensures { IfOk result (λ demands. map row_of demands ≡ rows.now) }
{
    let mut demands = List::new(alloc);
    for k in 0..rows.len() {
        let (from, to, need) = rows[k];
        demands.push(Demand {
            name: letter(alloc, b'A', k)?,
            from: NodeId(from),
            to: NodeId(to),
            need,
        })?;
    }
    Ok(demands)
}

/// Up to 26 demands A, B and so on of this number of nodes, one for each row: each joins two of them, and the needs, in units, are
/// below 2^40 each and below 2^44 together.
///
/// It takes time in the square of the rows, and memory in the rows.
pub fn demands(alloc: Global, nodes: usize, rows: &[DemandRow]) -> Result<Demands, WorkedFault>
    ensures belong { IfOk result (AreDemands nodes) }
    ensures count { IfOk result (λ demands. length demands ≡ length rows.now) }
    ensures rows { IfOk result (λ demands. map row_of demands ≡ rows.now) }
    ensures refused { IfErr result (λ fault. (fault ≡ WorkedFault.NoMemory)
        ⊎ ((fault ≡ WorkedFault.TooMany) × (26 < length rows.now))
        ⊎ ((fault ≡ WorkedFault.Demands) × (demands : Seq D) × (map row_of demands ≡ rows.now) × (AreDemands nodes demands → ⊥))) }
{
    if rows.len() > 26 {
        return Err(WorkedFault::TooMany);
    }
    let demands = listed(alloc, rows)?;
    if belong(nodes, demands.items()) {
        Ok(demands)
    } else {
        Err(WorkedFault::Demands)
    }
}
