ghost use Rattle.std.specs.Prelude.{◌≡◌, ◌++◌, ◌<◌, ◌^◌, All, IfOk, false, length, true};
ghost use Rattle.plan_report.specs.Terms.{SpellsReport, known_to, report_text};
ghost use Rattle.proof_report.{specs.Terms.whole_report, specs.ProvedReports.{IsLinedReport, proof_text, proved_report}};
ghost use Rattle.plan_view.specs.Terms.{HasSoundPlan, problem_case};
ghost use Rattle.view_text.specs.Terms.{HoldsOfSingle, IsFirstBlock, IsReportView};
ghost use Rattle.outside_io.specs.declared.status.Status.{Status};
ghost use Rattle.people_plans.specs.PlansForPeople.{PrintsPlan, told_outcomes, told_of_proof};

use crate::answer::PlanAnswer;
use net_core::{Bytes, Copied, Instance, List, NoMemory, Problem};
use outside_io::Status;
use plan_types::Outcome;
use proof_report::{ProvedReport, write_lined};
use std::alloc::Global;
use tree_check::{Proof, Verdict};
use view_text::{CostProof, put_first_block, put_view};

/// What a proof tells about the cost of its plan.
fn told(proof: &Proof) -> CostProof
    requires { length proof.now.tree < 2 ^ 32 }
    ensures { result ≡ told_of_proof proof.now }
{
    let boxes = proof.tree.len() as u32;
    match proof.verdict {
        Verdict::Cheapest => CostProof::Cheapest(boxes),
        Verdict::Above(least) => CostProof::Above(boxes, least),
    }
}

/// The outcomes of a report with a proved plan.
fn report_outcomes(alloc: Global, report: &ProvedReport) -> Result<List<Outcome>, NoMemory>
    ensures { IfOk result (λ outcomes. outcomes ≡ told_outcomes report.now) }
{
    let plan = report.proof.plan.copy()?;
    let mut outcomes = List::new(alloc);
    outcomes.push(Outcome::Planned {
        caller: 1,
        serial: 1,
        plan,
    })?;
    Ok(outcomes)
}

/// The view of these outcomes.
fn view_of(
    alloc: Global,
    network: &[u8],
    problem: &Problem,
    outcomes: &[Outcome],
    cost: CostProof,
) -> Result<Bytes, NoMemory>
    requires sound { All (HasSoundPlan (problem_case problem.now)) outcomes.now }
    requires holds { HoldsOfSingle (problem_case problem.now) cost outcomes.now }
    ensures { IfOk result (IsReportView network.now (problem_case problem.now) outcomes.now cost) }
{
    let mut text = List::new(alloc);
    put_view(&mut text, alloc, network, problem, outcomes, cost)?;
    Ok(text)
}

/// The first block of the view of these outcomes.
fn block_of(
    alloc: Global,
    network: &[u8],
    problem: &Problem,
    outcomes: &[Outcome],
    cost: CostProof,
) -> Result<Bytes, NoMemory>
    requires sound { All (HasSoundPlan (problem_case problem.now)) outcomes.now }
    requires holds { HoldsOfSingle (problem_case problem.now) cost outcomes.now }
    ensures { IfOk result (IsFirstBlock network.now (problem_case problem.now) outcomes.now cost) }
{
    let mut text = List::new(alloc);
    put_first_block(&mut text, alloc, network, problem, outcomes, cost)?;
    Ok(text)
}

/// The view of a report's plan.
fn viewed(
    alloc: Global,
    network: &[u8],
    problem: &Problem,
    report: &ProvedReport,
    limit: u32,
) -> Result<Bytes, NoMemory>
    requires { IsLinedReport (problem_case problem.now) problem.now.net.notes limit report.now }
    ensures { IfOk result (IsReportView network.now (problem_case problem.now) (told_outcomes report.now) (told_of_proof report.now.proof)) }
{
    let _ = limit;
    let cost = told(&report.proof);
    let outcomes = report_outcomes(alloc, report)?;
    view_of(alloc, network, problem, outcomes.items(), cost)
}

/// The first block of the view of a report's plan.
fn brief(
    alloc: Global,
    network: &[u8],
    problem: &Problem,
    report: &ProvedReport,
    limit: u32,
) -> Result<Bytes, NoMemory>
    requires { IsLinedReport (problem_case problem.now) problem.now.net.notes limit report.now }
    ensures { IfOk result (IsFirstBlock network.now (problem_case problem.now) (told_outcomes report.now) (told_of_proof report.now.proof)) }
{
    let _ = limit;
    let cost = told(&report.proof);
    let outcomes = report_outcomes(alloc, report)?;
    block_of(alloc, network, problem, outcomes.items(), cost)
}

/// The answer with the view of a report.
fn shown(
    alloc: Global,
    network: &[u8],
    problem: &Problem,
    report: &ProvedReport,
    limit: u32,
) -> Result<PlanAnswer, NoMemory>
    requires { IsLinedReport (problem_case problem.now) problem.now.net.notes limit report.now }
    ensures { IfOk result (λ a. (a.status ≡ Status.Done)
        × PrintsPlan network.now limit false (problem_case problem.now) problem.now.net.notes a.text a.message) }
{
    let text = viewed(alloc, network, problem, report, limit)?;
    Ok(PlanAnswer {
        status: Status::Done,
        text,
        message: List::new(alloc),
    })
}

/// The text of a report, with the comment lines of its proof.
fn report_bytes(
    alloc: Global,
    problem: &Problem,
    report: ProvedReport,
    limit: u32,
) -> Result<Bytes, NoMemory>
    requires { IsLinedReport (problem_case problem.now) problem.now.net.notes limit report }
    ensures text { IfOk result (λ text. text ≡ report_text (known_to (problem_case problem.now)) (whole_report (proved_report report))
        ++ proof_text (problem_case problem.now) report.proof) }
    ensures spelled { IfOk result (λ text. SpellsReport (known_to (problem_case problem.now)) text (whole_report (proved_report report))) }
{
    let instance = Instance {
        net: &problem.net,
        states: &problem.states,
        demands: &problem.demands,
    };
    write_lined(alloc, &instance, report, limit)
}

/// The answer with a report itself; the first block of its view is the message.
fn reported(
    alloc: Global,
    network: &[u8],
    problem: &Problem,
    report: ProvedReport,
    limit: u32,
) -> Result<PlanAnswer, NoMemory>
    requires { IsLinedReport (problem_case problem.now) problem.now.net.notes limit report }
    ensures { IfOk result (λ a. (a.status ≡ Status.Done)
        × PrintsPlan network.now limit true (problem_case problem.now) problem.now.net.notes a.text a.message) }
{
    let message = brief(alloc, network, problem, &report, limit)?;
    let text = report_bytes(alloc, problem, report, limit)?;
    Ok(PlanAnswer {
        status: Status::Done,
        text,
        message,
    })
}

/// The answer for a report of a plan: the report if it is `wanted`, else its view.
pub(crate) fn planned_answer(
    alloc: Global,
    network: &[u8],
    problem: &Problem,
    report: ProvedReport,
    limit: u32,
    wanted: bool,
) -> Result<PlanAnswer, NoMemory>
    requires { IsLinedReport (problem_case problem.now) problem.now.net.notes limit report }
    ensures { IfOk result (λ a. (a.status ≡ Status.Done)
        × PrintsPlan network.now limit wanted (problem_case problem.now) problem.now.net.notes a.text a.message) }
{
    if wanted {
        reported(alloc, network, problem, report, limit)
    } else {
        shown(alloc, network, problem, &report, limit)
    }
}
