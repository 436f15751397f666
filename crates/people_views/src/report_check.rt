ghost use Rattle.std.specs.Prelude.{◌≡◌, ◌++◌, IfErr, IfOk, OnOk};
ghost use Rattle.plan_report.specs.Terms.{IsReportInForm, known_of};
ghost use Rattle.report_checker.specs.ReportFindings.{HasNoFinding};
ghost use Rattle.check_answers.specs.Checks.{IsJudged};
ghost use Rattle.plan_view.specs.Terms.{problem_case};
ghost use Rattle.people_files.specs.Endings.{Halts};
ghost use Rattle.people_views.{specs.AcceptedReports.IsAcceptedReport, specs.ReportEnds.{SaysFinding, TellsFinding, said_text}};

use check_answers::answer_check;
use fault_messages::finding_sentence;
use fault_texts::{Sentence, put_note};
use net_core::{Bytes, List, NoMemory, Problem};
use outside_io::Status;
use people_files::{Halt, told};
use plan_checker::{CheckAnswer, Finding};
use plan_types::Report;
use report_checker::check_report;
use std::alloc::Global;

/// Puts a sentence on a file last.
fn put_said(text: &mut Bytes, name: &str, sentence: Sentence) -> Result<(), NoMemory>
    ensures { OnOk result (text.new ≡ text.old ++ said_text name.now (sentence.wrong.now, sentence.help.now)) }
{
    text.append(name.as_bytes())?;
    text.append(b": ")?;
    text.append(sentence.wrong.as_bytes())?;
    text.append(b"\n")?;
    put_note(text, sentence.help)
}

/// The planner's own line of a report that has a finding.
fn rejected_line(alloc: Global, problem: &Problem, report: &Report) -> Result<Bytes, NoMemory>
    requires form { IsReportInForm (known_of problem.now.net problem.now.states) report.now }
    requires unclean { HasNoFinding problem.now.net.notes (problem_case problem.now) report.now → ⊥ }
    ensures { IfOk result (IsJudged (problem_case problem.now) problem.now.net.notes report.now Status.Rejected) }
{
    let judged = answer_check(alloc, problem, report)?;
    Ok(judged.text)
}

/// What is said of a report with this first finding, and last the planner's own line.
fn finding_message(
    alloc: Global,
    name: &str,
    problem: &Problem,
    report: &Report,
    finding: Finding,
) -> Result<Bytes, NoMemory>
    requires form { IsReportInForm (known_of problem.now.net problem.now.states) report.now }
    requires unclean { HasNoFinding problem.now.net.notes (problem_case problem.now) report.now → ⊥ }
    ensures { IfOk result (SaysFinding name.now (problem_case problem.now) problem.now.net.notes report.now finding) }
{
    let line = rejected_line(alloc, problem, report)?;
    let mut text = List::new(alloc);
    put_said(&mut text, name, finding_sentence(finding))?;
    text.append(line.items())?;
    Ok(text)
}

/// Ends the run where a report in form has a finding. Such a report is checked once more, for the planner's own line.
pub(crate) fn accept(
    alloc: Global,
    name: &str,
    problem: &Problem,
    report: &Report,
) -> Result<(), Halt>
    requires { IsReportInForm (known_of problem.now.net problem.now.states) report.now }
    ensures accepted { OnOk result (IsAcceptedReport (problem_case problem.now) problem.now.net.notes report.now) }
    ensures rejected { IfErr result (Halts (λ s message. (s ≡ Status.Rejected)
        × TellsFinding name.now (problem_case problem.now) problem.now.net.notes report.now message)) }
{
    match check_report(
        alloc,
        &problem.net,
        &problem.states,
        &problem.demands,
        report,
    ) {
        CheckAnswer::Accepted => Ok(()),
        CheckAnswer::Rejected { finding, .. } => Err(told(
            Status::Rejected,
            finding_message(alloc, name, problem, report, finding),
        )),
        CheckAnswer::NoMemory => Err(Halt::NoMemory),
    }
}
