ghost use Rattle.std.specs.Prelude.{◌≡◌, ℕ, List, ◌≤◌, OnOk, length};
ghost use Rattle.plan_terms.specs.Terms.{AreDemands, case, case_of, IsAble, total_cost};
ghost use Rattle.plan_report.specs.Terms.{known_of, IsPlanInForm};
ghost use Rattle.plan_checker.{specs.PlanFindings.{AnswersPlan, IsAcceptedPlan, own_findings, plan_findings}, specs.inner.Tests.TellFirst};

use crate::certificate::check_certificate;
use crate::cost::check_cost;
use crate::demands::check_demands;
use crate::finding::CheckAnswer;
use crate::routings::check_routings;
use crate::stop::{Stop, Test};
use crate::tight::check_tight;
use net_core::{Demands, Instance, Network, States};
use plan_types::Plan;
use std::alloc::Global;

/// Whether a plan is right for its own demands: that they are the instance's was tested before, as the first finding.
fn check_own(alloc: Global, instance: &Instance, plan: &Plan, full: bool) -> Test
    requires form { IsPlanInForm (known_of instance.now.net.now instance.now.states.now) plan.now }
    requires demands { plan.now.demands ≡ instance.now.demands.now }
    ensures told { TellFirst (own_findings (case_of instance.now) full plan.now) result }
    ensures sound { OnOk result (IsAcceptedPlan (case_of instance.now) plan.now) }
{
    check_routings(alloc, instance, &plan.counts, plan.routings.items())?;
    check_cost(instance, plan)?;
    check_certificate(alloc, instance, plan, full)?;
    check_tight(alloc, instance, plan)
}

/// Whether a plan in form is right for the demands of an instance, as `check_plan` says it: nothing found, or the first finding, in
/// their order. `full` says that the pool has no room. It takes the time and the memory of `check_plan`.
///
/// ```text
/// check_instance(alloc, &instance, &plan, false)?;
/// // Err(Stop::Found(Finding::CostDiffers(20000, 15000)))
/// ```
pub fn check_instance(alloc: Global, instance: &Instance, plan: &Plan, full: bool) -> Test
    requires form { IsPlanInForm (known_of instance.now.net.now instance.now.states.now) plan.now }
    ensures told { TellFirst (plan_findings (case_of instance.now) full plan.now) result }
    ensures sound { OnOk result (IsAcceptedPlan (case_of instance.now) plan.now) }
{
    check_demands(instance, plan)?;
    check_own(alloc, instance, plan, full)
}

/// Checks a plan in form for demands, trusting nothing of whoever made it: each demand is carried in each state within the
/// capacities of the counts, the cost is theirs, and the bound is certified by cuts that the plan lists. `pool_full` says that
/// the pool has no room, so that a cut of the certificate may be outside it.
///
/// It takes a search from each node for each line of the certificate, the links times these lines, and else time in the size of
/// the plan. At one time it takes memory for one line's lengths and the distances between its nodes, or for two numbers of each
/// link and one of each demand.
///
/// ```text
/// let answer = check_plan(alloc, &net, &states, &demands, &plan, false);
/// // CheckAnswer::Accepted, or Rejected { outcome: 0, finding: Finding::CostDiffers(20000, 15000) }
/// ```
pub fn check_plan(
    alloc: Global,
    net: &Network,
    states: &States,
    demands: &Demands,
    plan: &Plan,
    pool_full: bool,
) -> CheckAnswer
    requires belong { AreDemands (length net.now.nodes) demands.now }
    requires form { IsPlanInForm (known_of net.now states.now) plan.now }
    ensures told { AnswersPlan (plan_findings (case net.now states.now demands.now) pool_full plan.now) result }
    ensures sound { result ≡ CheckAnswer.Accepted → IsAcceptedPlan (case net.now states.now demands.now) plan.now }
    ensures bound { result ≡ CheckAnswer.Accepted → (counts : List (List ℕ)) → IsAble (case net.now states.now demands.now) counts
        → plan.now.bound ≤ total_cost net.now.links counts }
{
    let instance = Instance {
        net,
        states,
        demands,
    };
    match check_instance(alloc, &instance, plan, pool_full) {
        Ok(()) => CheckAnswer::Accepted,
        Err(Stop::Found(finding)) => CheckAnswer::Rejected {
            outcome: 0,
            finding,
        },
        Err(Stop::NoMemory) => CheckAnswer::NoMemory,
    }
}
