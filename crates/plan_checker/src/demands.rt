ghost use Rattle.std.specs.Prelude.{◌≡◌, ◌↔◌, IsTrue, OnOk};
ghost use Rattle.plan_terms.specs.Terms.{case_of};
ghost use Rattle.plan_checker.{specs.PlanFindings.HoldsDemandsDiffer, specs.inner.Tests.Tells};

use crate::finding::Finding;
use crate::stop::{Stop, Test};
use net_core::{Demand, Instance};
use plan_types::Plan;

/// Whether two demands are one.
fn is_same(a: &Demand, b: &Demand) -> bool
    ensures { IsTrue result ↔ (a.now ≡ b.now) }
{
    a.name.same(&b.name) && a.from == b.from && a.to == b.to && a.need == b.need
}

/// Whether two lists of demands are one.
fn are_same(a: &[Demand], b: &[Demand]) -> bool
    ensures { IsTrue result ↔ (a.now ≡ b.now) }
{
    if a.len() != b.len() {
        return false;
    }
    for k in 0..a.len() {
        if !is_same(&a[k], &b[k]) {
            return false;
        }
    }
    true
}

/// Whether the plan's demands are those of the instance.
pub(crate) fn check_demands(instance: &Instance, plan: &Plan) -> Test
    ensures told { Tells (HoldsDemandsDiffer (case_of instance.now) plan.now) result }
    ensures same { OnOk result (plan.now.demands ≡ instance.now.demands.now) }
{
    if !are_same(plan.demands.items(), instance.demands.items()) {
        return Err(Stop::Found(Finding::DemandsDiffer));
    }
    Ok(())
}
