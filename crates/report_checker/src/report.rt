ghost use Rattle.std.specs.Prelude.{◌≡◌, ◌≤◌, All, OnOk, length};
ghost use Rattle.plan_terms.specs.Terms.{AreDemands, case, case_of};
ghost use Rattle.plan_report.specs.Terms.{known_of, IsReportInForm};
ghost use Rattle.plan_checker.specs.Terms.{TellFirst};
ghost use Rattle.report_checker.{specs.Outcomes.{IsAcceptedOutcome, IsBelowAllAble}, specs.ReportFindings.{AnswersReport, whole_findings}, specs.inner.Outcomes.{TellOutcomes, answer_to}};

use crate::journal::{check_entries, check_notes};
use crate::outcomes_along::check_outcomes;
use crate::pool::{check_count, check_cuts, check_rights};
use net_core::{Demands, Instance, Network, States};
use plan_checker::{CheckAnswer, Stop, Test};
use plan_types::Report;
use std::alloc::Global;

/// Checks the notes, the journal and the pool.
fn check_whole(alloc: Global, instance: &Instance, report: &Report) -> Test
    requires { IsReportInForm (known_of instance.now.net.now instance.now.states.now) report.now }
    ensures { TellFirst (whole_findings instance.now.net.now.notes (case_of instance.now) report.now) result }
{
    check_notes(instance.net.notes(), report.notes)?;
    let walk = check_entries(instance, report.entries.items())?;
    check_count(report.pool.len() as u32, walk.cuts)?;
    check_cuts(instance, report.pool.items())?;
    let end = Instance {
        net: instance.net,
        states: instance.states,
        demands: walk.book.demands(),
    };
    check_rights(alloc, &end, report.pool.items())
}

/// The answer to a reason to stop, where it concerns the whole report.
fn answer_of(stop: Stop) -> CheckAnswer
    ensures { result ≡ answer_to stop }
{
    match stop {
        Stop::Found(finding) => CheckAnswer::Rejected {
            outcome: 0,
            finding,
        },
        Stop::NoMemory => CheckAnswer::NoMemory,
    }
}

/// Checks a report in form, trusting nothing of whoever made it: its journal, its pool, and what each outcome says of the demands
/// at its position. The demands are those before the first entry.
///
/// It takes a search from each node for each line of the pool and of each certificate, a comparison of each line of the pool with
/// those before it, two walks through the journal, on which each edit looks its demand up through the list, and else time in the
/// size of the report. It takes memory for a copy of the demands, and for what the check of one plan takes.
///
/// ```text
/// let answer = check_report(alloc, &net, &states, &opening, &report);
/// // CheckAnswer::Accepted, or Rejected { outcome: 1, finding: Finding::RightDiffers(0, 24001, 24000) }
/// ```
pub fn check_report(
    alloc: Global,
    net: &Network,
    states: &States,
    opening: &Demands,
    report: &Report,
) -> CheckAnswer
    requires belong { AreDemands (length net.now.nodes) opening.now }
    requires form { IsReportInForm (known_of net.now states.now) report.now }
    ensures told { AnswersReport net.now.notes (case net.now states.now opening.now) report.now result }
    ensures sound { result ≡ CheckAnswer.Accepted → All (IsAcceptedOutcome (case net.now states.now opening.now) report.now) report.now.outcomes }
    ensures bound { result ≡ CheckAnswer.Accepted → All (IsBelowAllAble (case net.now states.now opening.now) report.now) report.now.outcomes }
{
    let instance = Instance {
        net,
        states,
        demands: opening,
    };
    match check_whole(alloc, &instance, report) {
        Ok(()) => check_outcomes(alloc, &instance, report),
        Err(stop) => answer_of(stop),
    }
}
