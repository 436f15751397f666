//! The plans with which the tests begin.
ghost use Rattle.std.specs.Prelude.{◌≡◌, IfSome};
ghost use Rattle.plan_terms.specs.Terms.{case_of, IsSurvivable};
ghost use Rattle.proof_report.specs.Terms.{IsTranscript, plan_commands, whole_report};
ghost use Rattle.trim_plan.specs.Trimmed.{IsRoutedPlan};

use net_core::{Instance, NoMemory};
use outside_io::OpenGate;
use plan_reports::{LonePlan, PlannedReport, plan_once};
use plan_types::Plan;
use std::alloc::Global;
use std::sync::Wait;
use std::thread::Threads;

/// The plan of a report.
fn plan_of(instance: &Instance, planned: PlannedReport) -> Plan
    requires { IsTranscript (case_of instance.now) instance.now.net.now.notes plan_commands (whole_report planned) }
    ensures survivable { IsSurvivable (case_of instance.now) }
    ensures demands { result.demands ≡ instance.now.demands.now }
    ensures routed { IsRoutedPlan (case_of instance.now) result }
{
    planned.plan
}

/// The plan of an instance in which no state separates a demand.
pub fn planned<R: Threads + Wait + Sync>(rt: &R, alloc: Global, instance: &Instance) -> Option<Plan>
    ensures survivable { IfSome result (λ _. IsSurvivable (case_of instance.now)) }
    ensures demands { IfSome result (λ plan. plan.demands ≡ instance.now.demands.now) }
    ensures routed { IfSome result (IsRoutedPlan (case_of instance.now)) }
{
    match plan_once(rt, alloc, instance, &OpenGate) {
        Ok(LonePlan::Planned(planned)) => Some(plan_of(instance, planned)),
        Ok(LonePlan::Separated { .. }) => None,
        Err(NoMemory) => None,
    }
}
