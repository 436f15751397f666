ghost use Rattle.std.specs.Prelude.{◌≡◌, IfOk};
ghost use Rattle.plan_terms.specs.Terms.{case, case_of};
ghost use Rattle.plan_report.specs.Terms.{known_of, IsReportInForm, SpellsReport, report_text};
ghost use Rattle.plan_reports.specs.Terms.{IsTranscript, IsLoneAnswer, plan_commands};
ghost use Rattle.proof_report.specs.Terms.{IsSeparationOf, whole_report};
ghost use Rattle.check_answers.specs.Separations.{NamesFirstSeparation};
ghost use Rattle.command_answers.specs.Answers.{EndsPlan};

use failure_texts::separated_line;
use net_core::{Instance, Name, Network, NoMemory, Problem, StateId, States};
use outside_io::{Answer, Gate, Status};
use plan_report::write_report;
use plan_reports::{LonePlan, PlannedReport, plan_once};
use plan_types::Report;
use std::alloc::Global;
use std::sync::Wait;
use std::thread::Threads;

/// The answer to an instance without a plan: the line of the first demand that a state separates.
pub fn separated(
    alloc: Global,
    instance: &Instance,
    state: StateId,
    demand: &Name,
) -> Result<Answer, NoMemory>
    requires { IsSeparationOf (case_of instance.now) state.0 demand.now }
    ensures { IfOk result (λ a. (a.status ≡ Status.NotSurvivable) × NamesFirstSeparation (case_of instance.now) a.text) }
{
    Ok(Answer {
        status: Status::NotSurvivable,
        text: separated_line(alloc, instance.states, state, demand.bytes())?,
    })
}

/// The answer with a report that is in form.
pub fn reported(
    alloc: Global,
    net: &Network,
    states: &States,
    report: &Report,
) -> Result<Answer, NoMemory>
    requires { IsReportInForm (known_of net.now states.now) report.now }
    ensures status { IfOk result (λ a. a.status ≡ Status.Done) }
    ensures text { IfOk result (λ a. a.text ≡ report_text (known_of net.now states.now) report.now) }
    ensures spelled { IfOk result (λ a. SpellsReport (known_of net.now states.now) a.text report.now) }
{
    let text = write_report(alloc, net, states, report)?;
    Ok(Answer {
        status: Status::Done,
        text,
    })
}

/// The answer with the report of a plan.
pub fn planned(
    alloc: Global,
    net: &Network,
    states: &States,
    plan: PlannedReport,
) -> Result<Answer, NoMemory>
    requires { IsReportInForm (known_of net.now states.now) (whole_report plan) }
    ensures status { IfOk result (λ a. a.status ≡ Status.Done) }
    ensures text { IfOk result (λ a. a.text ≡ report_text (known_of net.now states.now) (whole_report plan)) }
    ensures spelled { IfOk result (λ a. SpellsReport (known_of net.now states.now) a.text (whole_report plan)) }
{
    let report = plan.into_report(alloc)?;
    reported(alloc, net, states, &report)
}

/// The answer with the report of a plan of an instance.
fn answer_planned(
    alloc: Global,
    instance: &Instance,
    report: PlannedReport,
) -> Result<Answer, NoMemory>
    requires { IsTranscript (case_of instance.now) instance.now.net.now.notes plan_commands (whole_report report) }
    ensures { IfOk result (λ a. EndsPlan (case_of instance.now) instance.now.net.now.notes a.status a.text) }
{
    planned(alloc, instance.net, instance.states, report)
}

/// The answer to the result of one plan command.
fn answer_lone(alloc: Global, instance: &Instance, lone: LonePlan) -> Result<Answer, NoMemory>
    requires { IsLoneAnswer (case_of instance.now) instance.now.net.now.notes lone }
    ensures { IfOk result (λ a. EndsPlan (case_of instance.now) instance.now.net.now.notes a.status a.text) }
{
    match lone {
        LonePlan::Planned(report) => answer_planned(alloc, instance, report),
        LonePlan::Separated { state, demand } => separated(alloc, instance, state, &demand),
    }
}

/// The answer to an instance: the report of a plan, or the line of the first demand that a state separates. It may never return.
fn answer_instance<R: Threads + Wait + Sync, G: Gate + Sync>(
    rt: &R,
    alloc: Global,
    instance: &Instance,
    gate: &G,
) -> Result<Answer, NoMemory>
    ensures { IfOk result (λ a. EndsPlan (case_of instance.now) instance.now.net.now.notes a.status a.text) }
{
    let lone = plan_once(rt, alloc, instance, gate)?;
    answer_lone(alloc, instance, lone)
}

/// The answer to a problem: the report of a plan, or the line of the first demand that a state separates. It takes the time and the memory
/// of `plan_once`, and those of the report's text. It may never return, and fails only where memory runs out.
pub fn answer_plan<R: Threads + Wait + Sync, G: Gate + Sync>(
    rt: &R,
    alloc: Global,
    problem: Problem,
    gate: &G,
) -> Result<Answer, NoMemory>
    ensures { IfOk result (λ a. EndsPlan (case problem.net problem.states problem.demands) problem.net.notes a.status a.text) }
{
    let instance = Instance {
        net: &problem.net,
        states: &problem.states,
        demands: &problem.demands,
    };
    answer_instance(rt, alloc, &instance, gate)
}
