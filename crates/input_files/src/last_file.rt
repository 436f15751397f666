ghost use Rattle.std.specs.Prelude.{◌≡◌, IfErr, IfOk, IsErrOf};
ghost use Rattle.plan_report.specs.Terms.{known_of, SpellsReport};
ghost use Rattle.flow_file.specs.FlowFiles.{IsFlowFile, SpellsFlows};
ghost use Rattle.session_script.specs.Terms.{SpellsScript};
ghost use Rattle.input_files.{specs.Inputs.{Fetched, RefusesFlowFile, RefusesReportFile, RefusesScriptFile, StopsAtFile, input_limit, report_limit}, specs.Shelves.KeepsShelf, specs.Stops.Stops};

use crate::inputs::{INPUT_LIMIT, fetch_file};
use crate::refusal::refused;
use crate::stop::Stop;
use flow_file::{FlowFile, FlowsRefusal, read_flows};
use net_core::{Places, Problem};
use outside_io::{Shelf, Status};
use plan_types::Report;
use report_reader::{ReportRefusal, read_report};
use session_script::{Script, ScriptRefusal, read_script};
use std::alloc::Global;

/// How many bytes a report may have.
pub const REPORT_LIMIT: u64 = 1 << 28;

/// The script that bytes spell, with amounts of these places.
fn script_of(alloc: Global, places: Places, bytes: &[u8]) -> Result<Script, Stop>
    ensures spelled { IfOk result (SpellsScript places bytes.now) }
    ensures refused { IfErr result (Stops (λ s text. (s ≡ Status.BadScript) × RefusesScriptFile places bytes.now text)) }
{
    match read_script(alloc, places, bytes) {
        Ok(script) => Ok(script),
        Err(ScriptRefusal::Bad { at, kind }) => {
            Err(refused(alloc, Status::BadScript, b"script", &kind, at))
        }
        Err(ScriptRefusal::NoMemory) => Err(Stop::NoMemory),
    }
}

/// The script of a file, with amounts of these places. It takes the time and the memory of the reader, as the other calls here.
pub fn load_script<S: Shelf>(
    alloc: Global,
    places: Places,
    name: &str,
    shelf: &mut S,
) -> Result<Script, Stop>
    ensures has { IfOk result (Fetched (S.files shelf.old) input_limit name.now (SpellsScript places)) }
    ensures ends { IfErr result (Stops (StopsAtFile (S.files shelf.old) input_limit name.now Status.BadScript (RefusesScriptFile places))) }
    ensures shelf { KeepsShelf S.files S.faults (IsErrOf result Stop.ReadFault) shelf.old shelf.new }
{
    let bytes = fetch_file(alloc, INPUT_LIMIT, name, shelf)?;
    script_of(alloc, places, bytes.items())
}

/// The report that bytes spell, of plans for this network and these states.
fn report_of(alloc: Global, problem: &Problem, bytes: &[u8]) -> Result<Report, Stop>
    ensures spelled { IfOk result (SpellsReport (known_of problem.now.net problem.now.states) bytes.now) }
    ensures refused { IfErr result (Stops (λ s text. (s ≡ Status.BadReport) × RefusesReportFile (known_of problem.now.net problem.now.states) bytes.now text)) }
{
    match read_report(alloc, &problem.net, &problem.states, bytes) {
        Ok(report) => Ok(report),
        Err(ReportRefusal::Bad { at, kind }) => {
            Err(refused(alloc, Status::BadReport, b"report", &kind, at))
        }
        Err(ReportRefusal::NoMemory) => Err(Stop::NoMemory),
    }
}

/// The report of a file, of plans for this network and these states. It takes time and memory in the file.
pub fn load_report<S: Shelf>(
    alloc: Global,
    problem: &Problem,
    name: &str,
    shelf: &mut S,
) -> Result<Report, Stop>
    ensures has { IfOk result (Fetched (S.files shelf.old) report_limit name.now (SpellsReport (known_of problem.now.net problem.now.states))) }
    ensures ends { IfErr result (Stops (StopsAtFile (S.files shelf.old) report_limit name.now Status.BadReport
        (RefusesReportFile (known_of problem.now.net problem.now.states)))) }
    ensures shelf { KeepsShelf S.files S.faults (IsErrOf result Stop.ReadFault) shelf.old shelf.new }
{
    let bytes = fetch_file(alloc, REPORT_LIMIT, name, shelf)?;
    report_of(alloc, problem, bytes.items())
}

/// The counts and the flows that bytes spell, for a problem.
fn flows_of(alloc: Global, problem: &Problem, bytes: &[u8]) -> Result<FlowFile, Stop>
    ensures spelled { IfOk result (SpellsFlows (known_of problem.now.net problem.now.states) problem.now.demands bytes.now) }
    ensures form { IfOk result (IsFlowFile (known_of problem.now.net problem.now.states) problem.now.demands) }
    ensures refused { IfErr result (Stops (λ s text. (s ≡ Status.BadFlows)
        × RefusesFlowFile (known_of problem.now.net problem.now.states) problem.now.demands bytes.now text)) }
{
    match read_flows(
        alloc,
        &problem.net,
        &problem.states,
        &problem.demands,
        bytes,
    ) {
        Ok(file) => Ok(file),
        Err(FlowsRefusal::Bad { at, kind }) => {
            Err(refused(alloc, Status::BadFlows, b"flows", &kind, at))
        }
        Err(FlowsRefusal::NoMemory) => Err(Stop::NoMemory),
    }
}

/// The counts and the flows of a file, for a problem. It takes time and memory in the file.
pub fn load_flows<S: Shelf>(
    alloc: Global,
    problem: &Problem,
    name: &str,
    shelf: &mut S,
) -> Result<FlowFile, Stop>
    ensures has { IfOk result (Fetched (S.files shelf.old) input_limit name.now
        (SpellsFlows (known_of problem.now.net problem.now.states) problem.now.demands)) }
    ensures form { IfOk result (IsFlowFile (known_of problem.now.net problem.now.states) problem.now.demands) }
    ensures ends { IfErr result (Stops (StopsAtFile (S.files shelf.old) input_limit name.now Status.BadFlows
        (RefusesFlowFile (known_of problem.now.net problem.now.states) problem.now.demands))) }
    ensures shelf { KeepsShelf S.files S.faults (IsErrOf result Stop.ReadFault) shelf.old shelf.new }
{
    let bytes = fetch_file(alloc, INPUT_LIMIT, name, shelf)?;
    flows_of(alloc, problem, bytes.items())
}
