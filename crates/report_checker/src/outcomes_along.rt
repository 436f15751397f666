ghost use Rattle.std.specs.Prelude.{◌≡◌, ◌+◌, ◌≤◌, All, IfOk, length, take};
ghost use Rattle.plan_terms.specs.Terms.{Case, case_of};
ghost use Rattle.plan_checker.specs.declared.finding.CheckAnswer.TheVariants.{Accepted};
ghost use Rattle.plan_report.specs.Terms.{known_of, IsReportInForm};
ghost use Rattle.plan_types.specs.declared.report.Report.{Report as Whole};
ghost use Rattle.report_checker.{specs.Outcomes.IsAcceptedOutcome, specs.inner.Along.AreChecked, specs.inner.Outcomes.TellOutcomes, specs.inner.Walks.HasPassed};

use crate::outcomes::check_outcome_if_here;
use crate::walk::{Walk, walk_from};
use net_core::{Instance, NoMemory};
use plan_checker::{CheckAnswer, Finding, Stop};
use plan_types::Report;
use std::alloc::Global;

/// What a walk through the journal has shown of the outcomes that it has met: none of the first `clean` ones has a finding, and
/// the next one has this, if there is one.
#[derive(Clone, Copy)]
pub struct Checked {
    pub clean: usize,
    pub finding: Option<Finding>,
}

/// Checks the outcomes of this place of the journal, as far as they come before the first finding.
fn check_outcomes_at(
    alloc: Global,
    instance: &Instance,
    walk: &Walk,
    report: &Report,
    place: usize,
    checked: Checked,
) -> Result<Checked, NoMemory>
    requires form { IsReportInForm (known_of instance.now.net.now instance.now.states.now) report.now }
    requires passed { HasPassed (case_of instance.now) (take place report.now.entries) walk.now }
    requires checked { AreChecked (case_of instance.now) report.now place checked }
    ensures { IfOk result (AreChecked (case_of instance.now) report.now (place + 1)) }
{
    let outcomes = report.outcomes.items();
    for j in 0..checked.clean {
        match check_outcome_if_here(alloc, instance, walk, report, &outcomes[j], place) {
            Ok(()) => {}
            Err(Stop::Found(finding)) => {
                return Ok(Checked {
                    clean: j,
                    finding: Some(finding),
                });
            }
            Err(Stop::NoMemory) => return Err(NoMemory),
        }
    }
    Ok(checked)
}

/// Checks all outcomes along one walk through the journal.
fn check_along(alloc: Global, instance: &Instance, report: &Report) -> Result<Checked, NoMemory>
    requires { IsReportInForm (known_of instance.now.net.now instance.now.states.now) report.now }
    ensures { IfOk result (AreChecked (case_of instance.now) report.now (length report.now.entries + 1)) }
{
    let entries = report.entries.items();
    let mut walk = walk_from(instance)?;
    let mut checked = Checked {
        clean: report.outcomes.len(),
        finding: None,
    };
    for k in 0..entries.len() {
        checked = check_outcomes_at(alloc, instance, &walk, report, k, checked)?;
        walk.pass(&entries[k])?;
    }
    check_outcomes_at(alloc, instance, &walk, report, entries.len(), checked)
}

/// The answer of the checks of all outcomes.
fn answer_of_all(checked: Checked) -> CheckAnswer
    requires { checked.clean ≤ 64 }
    ensures told { (p : Case) (r : Whole) → AreChecked p r (length r.entries + 1) checked → TellOutcomes p r result }
    ensures sound { (p : Case) (r : Whole) → AreChecked p r (length r.entries + 1) checked → result ≡ Accepted → All (IsAcceptedOutcome p r) r.outcomes }
{
    match checked.finding {
        None => CheckAnswer::Accepted,
        Some(finding) => CheckAnswer::Rejected {
            outcome: checked.clean as u32 + 1,
            finding,
        },
    }
}

/// Checks the outcomes, which takes one walk through the journal, and tells of the first one that has a finding.
pub fn check_outcomes(alloc: Global, instance: &Instance, report: &Report) -> CheckAnswer
    requires { IsReportInForm (known_of instance.now.net.now instance.now.states.now) report.now }
    ensures told { TellOutcomes (case_of instance.now) report.now result }
    ensures sound { result ≡ Accepted → All (IsAcceptedOutcome (case_of instance.now) report.now) report.now.outcomes }
{
    match check_along(alloc, instance, report) {
        Ok(checked) => answer_of_all(checked),
        Err(NoMemory) => CheckAnswer::NoMemory,
    }
}
