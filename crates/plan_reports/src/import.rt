ghost use Rattle.std.specs.Prelude.{◌≡◌, ◌≢◌, IfOk};
ghost use Rattle.plan_terms.specs.Terms.{case_of};
ghost use Rattle.plan_report.specs.Terms.{known_of};
ghost use Rattle.flow_file.specs.FlowFiles.{IsFlowFile};
ghost use Rattle.flow_import.specs.declared.fault.ImportFault.TheVariants.{NoMemory as WantOfMemory};
ghost use Rattle.acceptance.specs.Terms.{IsTranscript};
ghost use Rattle.plan_reports.{specs.LonePlans.{plan_commands, whole_report}, specs.ImportedPlans.{IsImportEnding, with_design}, specs.declared.import.ImportEnding.TheVariants.Faulty};

use crate::lone::{LonePlan, plan_once};
use crate::planned_report::PlannedReport;
use flow_file::FlowFile;
use flow_import::{ImportFault, Imported, import_instance};
use net_core::{Instance, Name, NoMemory, StateId, discard};
use outside_io::Gate;
use plan_types::Plan;
use std::alloc::Global;
use std::sync::Wait;
use std::thread::Threads;

/// The result of an import.
#[derive(Drop)]
pub enum ImportEnding {
    /// The report of a plan with the imported design in the place of its own.
    Imported(PlannedReport),
    /// The first fault of the file's flows. It isn't want of memory, which is an error of the call.
    Faulty(ImportFault),
    /// The first state that separates a demand with a need, and the name of the first such demand.
    Separated { state: StateId, demand: Name },
}

/// The report with the imported counts, cost and routings in the place of its plan's own.
fn with_design(planned: PlannedReport, imported: Imported) -> PlannedReport
    ensures { result ≡ with_design planned imported }
{
    let plan = planned.plan;
    PlannedReport {
        notes: planned.notes,
        entries: planned.entries,
        pool: planned.pool,
        plan: Plan {
            version: plan.version,
            position: plan.position,
            demands: plan.demands,
            counts: imported.counts,
            cost: imported.cost,
            routings: imported.routings,
            certificate: plan.certificate,
            raw_num: plan.raw_num,
            raw_den: plan.raw_den,
            bound: plan.bound,
            quality: plan.quality,
        },
    }
}

/// The result for a fault: an error where memory ran out, else the fault.
fn ended_by(fault: ImportFault) -> Result<ImportEnding, NoMemory>
    ensures { IfOk result (λ e. (e ≡ Faulty fault) × (fault ≢ WantOfMemory)) }
{
    match fault {
        ImportFault::NoMemory => Err(NoMemory),
        _ => Ok(ImportEnding::Faulty(fault)),
    }
}

/// Puts the design of a file into the report of a plan.
fn import_into(
    alloc: Global,
    instance: &Instance,
    planned: PlannedReport,
    file: FlowFile,
) -> Result<ImportEnding, NoMemory>
    requires planned { IsTranscript (case_of instance.now) instance.now.net.now.notes plan_commands (whole_report planned) }
    requires file { IsFlowFile (known_of instance.now.net.now instance.now.states.now) instance.now.demands.now file }
    ensures { IfOk result (IsImportEnding (case_of instance.now) instance.now.net.now.notes file) }
{
    match import_instance(alloc, instance, file) {
        Ok(imported) => Ok(ImportEnding::Imported(with_design(planned, imported))),
        Err(fault) => {
            discard(planned);
            ended_by(fault)
        }
    }
}

/// Plans an instance as `plan_once` does, and puts the design of a file into the plan: the file's counts, what they cost, and its flows as
/// routings. The certificate, the bound and the quality stay the planner's. It may never return.
///
/// It takes the time and the memory of `plan_once` and then of `import_instance`. It fails only where memory runs out.
pub fn import_plan<R: Threads + Wait + Sync, G: Gate + Sync>(
    rt: &R,
    alloc: Global,
    instance: &Instance,
    file: FlowFile,
    gate: &G,
) -> Result<ImportEnding, NoMemory>
    requires { IsFlowFile (known_of instance.now.net.now instance.now.states.now) instance.now.demands.now file }
    ensures { IfOk result (IsImportEnding (case_of instance.now) instance.now.net.now.notes file) }
{
    match plan_once(rt, alloc, instance, gate) {
        Ok(LonePlan::Planned(planned)) => import_into(alloc, instance, planned, file),
        Ok(LonePlan::Separated { state, demand }) => {
            Ok(ImportEnding::Separated { state, demand })
        }
        Err(NoMemory) => Err(NoMemory),
    }
}
