ghost use Rattle.std.specs.Prelude.{◌≡◌, ◌++◌, IfOk, OnOk};
ghost use Rattle.plan_terms.specs.Terms.{case_of};
ghost use Rattle.plan_report.specs.Terms.{known_of, report_text, SpellsReport};
ghost use Rattle.report_comments.specs.Comments.{AddsLines};
ghost use Rattle.plan_reports.specs.Terms.{whole_report};
ghost use Rattle.tree_lines.specs.TreeLines.{IsToldProof, proof_lines};
ghost use Rattle.proof_report.specs.ProvedReports.{IsLinedReport, proved_report, proof_text};

use crate::ending::ProvedReport;
use net_core::{Bytes, Copied, Instance, NoMemory};
use plan_report::write_report;
use plan_reports::PlannedReport;
use std::alloc::Global;
use tree_check::Proof;
use tree_lines::put_proof;

/// The parts of a proved report: the report with the proof's plan, and the proof.
fn parted(report: ProvedReport) -> Result<(PlannedReport, Proof), NoMemory>
    ensures { IfOk result (λ r. (r.0 ≡ proved_report report) × (r.1 ≡ report.proof)) }
{
    let plan = report.proof.plan.copy()?;
    let planned = PlannedReport {
        notes: report.notes,
        entries: report.entries,
        pool: report.pool,
        plan,
    };
    Ok((planned, report.proof))
}

/// Appends the comment lines of a proof of an instance's plan.
fn put_lines(text: &mut Bytes, instance: &Instance, proof: &Proof) -> Result<(), NoMemory>
    requires { IsToldProof proof.now }
    ensures { OnOk result (AddsLines text.old
        (proof_lines instance.now.net.now.links instance.now.demands.now instance.now.net.now.places proof.now) text.new) }
{
    put_proof(
        text,
        instance.net.links().items(),
        instance.demands.items(),
        instance.net.places(),
        proof,
    )
}

/// The text of a report with its branch tree: the report, then comment lines for each cut of the tree, for each line that is made of cuts,
/// for each node in preorder, and for what the tree shows, such as `# cheapest`. Reading the text gives the report again.
///
/// It takes time and memory in the number of the text's bytes, and memory for a copy of the plan.
pub fn write_lined(
    alloc: Global,
    instance: &Instance,
    report: ProvedReport,
    limit: u32,
) -> Result<Bytes, NoMemory>
    requires { IsLinedReport (case_of instance.now) instance.now.net.now.notes limit report }
    ensures text { IfOk result (λ text. text
        ≡ report_text (known_of instance.now.net.now instance.now.states.now) (whole_report (proved_report report))
        ++ proof_text (case_of instance.now) report.proof) }
    ensures spelled { IfOk result (λ text. SpellsReport (known_of instance.now.net.now instance.now.states.now) text (whole_report (proved_report report))) }
{
    let (planned, proof) = parted(report)?;
    let whole = planned.into_report(alloc)?;
    let mut text = write_report(alloc, instance.net, instance.states, &whole)?;
    put_lines(&mut text, instance, &proof)?;
    Ok(text)
}
