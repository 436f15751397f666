ghost use Rattle.std.specs.Prelude.{◌≡◌, IfOk};
ghost use Rattle.plan_terms.specs.Terms.{case_of};
ghost use Rattle.acceptance.specs.Terms.{IsTranscript};
ghost use Rattle.plan_reports.{specs.LonePlans.{plan_commands, whole_report}, specs.TrimmedReports.IsTrimEnding};

use crate::lone::{LonePlan, plan_once};
use crate::planned_report::PlannedReport;
use net_core::{Instance, List, Name, NoMemory, StateId};
use outside_io::Gate;
use std::alloc::Global;
use std::sync::Wait;
use std::thread::Threads;
use trim_plan::{Block, trim};

/// The result of a trimming.
#[derive(Drop)]
pub enum TrimEnding {
    /// The report of a plan from which no module can be spared, and a block for each module of positive count, in link and module order.
    Trimmed {
        report: PlannedReport,
        blocks: List<Block>,
    },
    /// The first state that separates a demand with a need, and the name of the first such demand.
    Separated {
        state: StateId,
        demand: Name,
    },
}

/// Trims the plan of a report.
fn trim_planned(
    alloc: Global,
    instance: &Instance,
    planned: PlannedReport,
) -> Result<TrimEnding, NoMemory>
    requires { IsTranscript (case_of instance.now) instance.now.net.now.notes plan_commands (whole_report planned) }
    ensures { IfOk result (IsTrimEnding (case_of instance.now) instance.now.net.now.notes) }
{
    let trimmed = trim(alloc, instance.net, instance.states, planned.plan)?;
    Ok(TrimEnding::Trimmed {
        report: PlannedReport {
            notes: planned.notes,
            entries: planned.entries,
            pool: planned.pool,
            plan: trimmed.plan,
        },
        blocks: trimmed.blocks,
    })
}

/// Plans an instance as `plan_once` does, and takes modules off the plan until none can be spared. It may never return.
///
/// It takes the time and the memory of `plan_once` and then of `trim`. It fails only where memory runs out.
pub fn trim_once<R: Threads + Wait + Sync, G: Gate + Sync>(
    rt: &R,
    alloc: Global,
    instance: &Instance,
    gate: &G,
) -> Result<TrimEnding, NoMemory>
    ensures { IfOk result (IsTrimEnding (case_of instance.now) instance.now.net.now.notes) }
{
    match plan_once(rt, alloc, instance, gate) {
        Ok(LonePlan::Planned(planned)) => trim_planned(alloc, instance, planned),
        Ok(LonePlan::Separated { state, demand }) => { Ok(TrimEnding::Separated { state, demand }) }
        Err(NoMemory) => Err(NoMemory),
    }
}
