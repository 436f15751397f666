ghost use Rattle.std.specs.Prelude.{◌≡◌, IfErr, IfOk};
ghost use Rattle.plan_report.specs.Terms.{SpellsReport, known_of};
ghost use Rattle.plan_view.specs.Terms.{problem_case};
ghost use Rattle.people_files.specs.Endings.{Halts};
ghost use Rattle.people_views.specs.ReportEnds.{ShowsReportFault};

use fault_messages::{report_notes, report_sentence};
use net_core::Problem;
use outside_io::Status;
use people_files::{FaultyFile, Halt, place_in, refused};
use plan_types::Report;
use report_reader::{ReportRefusal, read_report};
use std::alloc::Global;

/// The report that bytes spell, of plans for this network and these states.
pub(crate) fn spelled_report(
    alloc: Global,
    problem: &Problem,
    name: &str,
    bytes: &[u8],
) -> Result<Report, Halt>
    ensures spelled { IfOk result (λ r. SpellsReport (known_of problem.now.net problem.now.states) bytes.now r) }
    ensures refused { IfErr result (Halts (λ s message. (s ≡ Status.BadReport)
        × ShowsReportFault (problem_case problem.now) name.now bytes.now message)) }
{
    match read_report(alloc, &problem.net, &problem.states, bytes) {
        Ok(report) => Ok(report),
        Err(ReportRefusal::Bad { at, kind }) => {
            let notes = report_notes(alloc, problem, bytes, place_in(bytes, at), kind)?;
            let file = FaultyFile {
                status: Status::BadReport,
                file: b"report",
                name,
                bytes,
                at,
            };
            let sentence = report_sentence(problem.net.places(), kind);
            Err(refused(alloc, &file, &kind, sentence, notes.items()))
        }
        Err(ReportRefusal::NoMemory) => Err(Halt::NoMemory),
    }
}
