ghost use Rattle.std.specs.Prelude.{IfOk};
ghost use Rattle.plan_terms.specs.Terms.{Case, case_of, Notes as Noted};
ghost use Rattle.acceptance.specs.Terms.{IsTranscript};
ghost use Rattle.plan_reports.specs.LonePlans.{IsLoneAnswer, plan_commands};

use crate::planned_report::PlannedReport;
use net_core::{Copied, Instance, Name, NoMemory, StateId};
use outside_io::Gate;
use plan_types::{Outcome, Report};
use session_run::{run_session, single_plan};
use std::alloc::Global;
use std::sync::Wait;
use std::thread::Threads;

/// The result of one plan command.
#[derive(Drop)]
pub enum LonePlan {
    /// A plan, in the report of its command.
    Planned(PlannedReport),
    /// The first state that separates a demand with a need, and the name of the first such demand.
    Separated { state: StateId, demand: Name },
}

/// The only outcome of a report of one plan command: its plan, or the separation.
fn lone_of(report: Report) -> LonePlan
    requires { (p : Case) × (notes : Noted) × IsTranscript p notes plan_commands report }
    ensures { (p : Case) (notes : Noted) → IsTranscript p notes plan_commands report → IsLoneAnswer p notes result }
{
    let mut outcomes = report.outcomes;
    match outcomes.remove(0) {
        Outcome::Planned { plan, .. } => LonePlan::Planned(PlannedReport {
            notes: report.notes,
            entries: report.entries,
            pool: report.pool,
            plan,
        }),
        Outcome::Unsurvivable { state, demand, .. } => LonePlan::Separated { state, demand },
    }
}

/// Runs one plan command, and gives its report. It may never return.
fn lone_report<R: Threads + Wait + Sync, G: Gate + Sync>(
    rt: &R,
    alloc: Global,
    instance: &Instance,
    gate: &G,
) -> Result<Report, NoMemory>
    ensures { IfOk result (IsTranscript (case_of instance.now) instance.now.net.now.notes plan_commands) }
{
    let script = single_plan(alloc)?;
    let demands = instance.demands.copy()?;
    run_session(
        rt,
        alloc,
        instance.net,
        instance.states,
        demands,
        &script,
        gate,
    )
}

/// Plans an instance, by a session with one plan command of caller 1. It may never return.
///
/// It takes the time and the memory of `run_session`, and memory for a copy of the demands. It fails only where memory runs out.
pub fn plan_once<R: Threads + Wait + Sync, G: Gate + Sync>(
    rt: &R,
    alloc: Global,
    instance: &Instance,
    gate: &G,
) -> Result<LonePlan, NoMemory>
    ensures { IfOk result (IsLoneAnswer (case_of instance.now) instance.now.net.now.notes) }
{
    let report = lone_report(rt, alloc, instance, gate)?;
    Ok(lone_of(report))
}
