ghost use Rattle.plan_view.specs.Terms.{problem_case};
ghost use Rattle.plan_report.specs.Terms.{IsReportInForm, known_of};
ghost use Rattle.people_files.specs.Endings.{HasCauseForPeople};
ghost use Rattle.people_views.{specs.Forms.IsFormOf, specs.AcceptedReports.IsAcceptedReport, specs.ReportEnds.{EndsReport, ViewsAccepted, ViewsReport}};

use crate::ViewForm;
use crate::accepted_form::put_accepted_form;
use crate::plan_proof::read_proof;
use crate::report_check::accept;
use crate::spelled_report::spelled_report;
use net_core::{Bytes, List, Problem};
use people_files::Halt;
use plan_types::Report;
use std::alloc::Global;

/// The view of an accepted report, whose bytes these are, with what the lines below it show.
fn accepted_view(
    alloc: Global,
    network: &str,
    name: &str,
    problem: &Problem,
    report: &Report,
    bytes: &[u8],
    form: ViewForm,
) -> Result<Bytes, Halt>
    requires accepted { IsAcceptedReport (problem_case problem.now) problem.now.net.notes report.now }
    requires form { IsFormOf (problem_case problem.now) form }
    ensures { HasCauseForPeople (ViewsAccepted form.entry network.now name.now (problem_case problem.now) report.now bytes.now) result }
{
    let proof = read_proof(alloc, name, problem, report.outcomes.items(), bytes)?;
    let mut text = List::new(alloc);
    put_accepted_form(
        &mut text,
        alloc,
        network.as_bytes(),
        problem,
        report,
        proof,
        form,
    )?;
    Ok(text)
}

/// The view of a report in form, which is checked first.
fn checked_view(
    alloc: Global,
    network: &str,
    name: &str,
    problem: &Problem,
    report: &Report,
    bytes: &[u8],
    form: ViewForm,
) -> Result<Bytes, Halt>
    requires known { IsReportInForm (known_of problem.now.net problem.now.states) report.now }
    requires form { IsFormOf (problem_case problem.now) form }
    ensures { HasCauseForPeople (ViewsReport form.entry network.now name.now (problem_case problem.now) problem.now.net.notes report.now bytes.now) result }
{
    accept(alloc, name, problem, report)?;
    accepted_view(alloc, network, name, problem, report, bytes, form)
}

/// The view of a report of plans for a problem in a form, from the bytes of its file: the report is read and checked, and a branch tree below
/// the report of a single plan, too. A network's file of the first name and a report's file of the second are named in the view and in a
/// message.
///
/// Where the bytes spell no report, or lines that begin as those of a branch tree spell none, it ends with `BadReport`; where the report has a
/// finding, or the tree doesn't hold, with `Rejected`. Each message ends in a line for programs. Other comments are let be.
///
/// It takes the time and the memory of `read_report`, `check_report` and `put_form`, and of `read_tree` and `check_tree` where there is a tree.
///
/// ```text
/// let text = view_report(alloc, "data/triangle.txt", "report.txt", &problem, bytes, ViewForm::Tables)?;
/// ```
pub fn view_report(
    alloc: Global,
    network: &str,
    name: &str,
    problem: &Problem,
    bytes: &[u8],
    form: ViewForm,
) -> Result<Bytes, Halt>
    requires { IsFormOf (problem_case problem.now) form }
    ensures { HasCauseForPeople (EndsReport form.entry network.now name.now (problem_case problem.now) problem.now.net.notes bytes.now) result }
{
    let report = spelled_report(alloc, problem, name, bytes)?;
    checked_view(alloc, network, name, problem, &report, bytes, form)
}
