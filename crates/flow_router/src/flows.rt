ghost use Rattle.std.specs.Prelude.{◌≡◌, ◌<◌, ◌+◌, ℕ, Some, ◌++◌, ◌∷◌, [], IfOk, OnOk, MatchOption, length, get_or, slice_get, true, false};
ghost use Rattle.plan_terms.specs.Terms.{DemandSlack};
ghost use Rattle.flow_router.specs.inner.Flowing.{AreBasisFlows, IsFlowOfColumn, LeavesNeed};

use net_core::{Copied, Flow, List, NoMemory, RouteColumn};
use std::alloc::Global;

/// Whether a column is what isn't carried of a demand, in some amount.
fn is_left(column: &RouteColumn, value: u128) -> bool
    ensures yes { result ≡ true → (k : ℕ) × (column.now ≡ DemandSlack k) × (0 < value) }
    ensures no { result ≡ false → (k : ℕ) → column.now ≡ DemandSlack k → value ≡ 0 }
{
    match column {
        RouteColumn::DemandSlack(_) => value > 0,
        _ => false,
    }
}

/// Whether something of a demand isn't carried.
pub(crate) fn leaves_need(basis: &[RouteColumn], values: &[u128]) -> bool
    requires { length values.now ≡ length basis.now }
    ensures yes { result ≡ true → LeavesNeed basis.now values.now }
    ensures no { result ≡ false → (j k : ℕ) → slice_get basis.now j ≡ Some (DemandSlack k) → get_or values.now j 0 ≡ 0 }
{
    for j in 0..basis.len() {
        if is_left(&basis[j], values[j]) {
            return true;
        }
    }
    false
}

/// The flow of a column that carries something.
fn flow_of(column: &RouteColumn, num: u128) -> Result<Option<Flow>, NoMemory>
    ensures { IfOk result (IsFlowOfColumn column.now num) }
{
    if num == 0 {
        return Ok(None);
    }
    match column {
        RouteColumn::Carry(demand, path) => Ok(Some(Flow {
            demand: *demand,
            path: path.copy()?,
            num,
        })),
        _ => Ok(None),
    }
}

/// Puts a flow last, if there is one.
fn push_flow(flows: &mut List<Flow>, flow: Option<Flow>) -> Result<(), NoMemory>
    ensures { OnOk result (MatchOption flow (flows.new ≡ flows.old) (λ f. flows.new ≡ flows.old ++ f ∷ [])) }
{
    if let Some(f) = flow {
        flows.push(f)?;
    }
    Ok(())
}

/// The flows of a basis.
pub(crate) fn basis_flows(
    alloc: Global,
    basis: &[RouteColumn],
    values: &[u128],
) -> Result<List<Flow>, NoMemory>
    requires { length values.now ≡ length basis.now }
    ensures { IfOk result (AreBasisFlows basis.now values.now (length basis.now)) }
{
    let mut flows = List::new(alloc);
    for j in 0..basis.len() {
        push_flow(&mut flows, flow_of(&basis[j], values[j])?)?;
    }
    Ok(flows)
}
