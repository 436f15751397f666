ghost use Rattle.std.specs.Prelude.{◌≡◌, IfOk, length};
ghost use Rattle.plan_terms.specs.Terms.{case};
ghost use Rattle.plan_report.specs.Terms.{known_of, IsReportInForm};
ghost use Rattle.check_answers.{specs.Findings.{accepted_line, rejected_line}, specs.Checks.IsJudged};

use crate::finding::{accepted_line, rejected_line};
use net_core::{NoMemory, Problem};
use outside_io::{Answer, Status};
use plan_checker::{CheckAnswer, Finding};
use plan_types::Report;
use report_checker::check_report;
use std::alloc::Global;

/// The answer to a report without a finding.
fn accepted(alloc: Global, report: &Report) -> Result<Answer, NoMemory>
    ensures status { IfOk result (λ a. a.status ≡ Status.Done) }
    ensures text { IfOk result (λ a. a.text ≡ accepted_line (length report.now.outcomes)) }
{
    Ok(Answer {
        status: Status::Done,
        text: accepted_line(alloc, report.outcomes.len())?,
    })
}

/// The answer to a report with this first finding, on the outcome of this number.
fn rejected(
    alloc: Global,
    problem: &Problem,
    report: &Report,
    outcome: u32,
    finding: Finding,
) -> Result<Answer, NoMemory>
    ensures status { IfOk result (λ a. a.status ≡ Status.Rejected) }
    ensures text { IfOk result (λ a. a.text ≡ rejected_line problem.now.net.places problem.now.net.links report.now.outcomes outcome finding) }
{
    let places = problem.net.places();
    let links = problem.net.links().items();
    let outcomes = report.outcomes.items();
    Ok(Answer {
        status: Status::Rejected,
        text: rejected_line(alloc, places, links, outcomes, outcome, finding)?,
    })
}

/// Whether a report has a finding, as a line. It takes the time and the memory of `check_report`, and memory for the line.
pub fn answer_check(alloc: Global, problem: &Problem, report: &Report) -> Result<Answer, NoMemory>
    requires { IsReportInForm (known_of problem.now.net problem.now.states) report.now }
    ensures { IfOk result (λ a. IsJudged (case problem.now.net problem.now.states problem.now.demands) problem.now.net.notes report.now a.status a.text) }
{
    match check_report(
        alloc,
        &problem.net,
        &problem.states,
        &problem.demands,
        report,
    ) {
        CheckAnswer::Accepted => accepted(alloc, report),
        CheckAnswer::Rejected { outcome, finding } => {
            rejected(alloc, problem, report, outcome, finding)
        }
        CheckAnswer::NoMemory => Err(NoMemory),
    }
}
