ghost use Rattle.std.specs.Prelude.{◌≡◌, OnOk};
ghost use Rattle.plan_terms.specs.Terms.{case_of, AreCounts};
ghost use Rattle.plan_types.specs.Terms.{IsCostedPlan};
ghost use Rattle.plan_checker.{specs.Certified.HoldsCostDiffers, specs.inner.Tests.Tells};

use crate::finding::Finding;
use crate::stop::{Stop, Test};
use module_choice::cost;
use net_core::Instance;
use plan_types::Plan;

/// Whether the cost is what the counts cost, setups included.
pub(crate) fn check_cost(instance: &Instance, plan: &Plan) -> Test
    requires { AreCounts instance.now.net.now.links plan.now.counts }
    ensures told { Tells (HoldsCostDiffers (case_of instance.now) plan.now) result }
    ensures costed { OnOk result (IsCostedPlan (case_of instance.now) plan.now) }
{
    let own = cost(instance.net, &plan.counts);
    if plan.cost != own {
        return Err(Stop::Found(Finding::CostDiffers(plan.cost, own)));
    }
    Ok(())
}
