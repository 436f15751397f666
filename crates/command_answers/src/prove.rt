ghost use Rattle.std.specs.Prelude.{◌≡◌, ◌≤◌, IfOk};
ghost use Rattle.plan_terms.specs.Terms.{case, case_of};
ghost use Rattle.proof_report.{specs.Terms.AreCharged, specs.ProvedReports.{IsProofEnding, IsProvedReport}};
ghost use Rattle.outside_io.specs.declared.status.Status.{Status};
ghost use Rattle.command_answers.specs.Answers.{EndsProve, EndsCharged, free_module_line};

use crate::plan::separated;
use net_core::{Instance, List, NoMemory, Problem};
use outside_io::{Answer, Gate, Status};
use proof_report::{ProofEnding, ProvedReport, are_charged, prove_once, write_lined};
use std::alloc::Global;
use std::sync::Wait;
use std::thread::Threads;

/// The answer to a network in which a module costs nothing.
fn free_module(alloc: Global) -> Result<Answer, NoMemory>
    ensures { IfOk result (λ a. (a.status ≡ Status.BadNetwork) × (a.text ≡ free_module_line)) }
{
    Ok(Answer {
        status: Status::BadNetwork,
        text: List::from_slice(alloc, b"refused network free-module at 0\n")?,
    })
}

/// The answer with a plan and its branch tree: the report, and the comment lines of the tree.
fn answer_proved(
    alloc: Global,
    instance: &Instance,
    report: ProvedReport,
    limit: u32,
) -> Result<Answer, NoMemory>
    requires { IsProvedReport (case_of instance.now) instance.now.net.now.notes limit report }
    ensures { IfOk result (λ a. EndsCharged limit (case_of instance.now) instance.now.net.now.notes a.status a.text) }
{
    Ok(Answer {
        status: Status::Done,
        text: write_lined(alloc, instance, report, limit)?,
    })
}

/// The answer to the result of a proof.
fn answer_ending(
    alloc: Global,
    instance: &Instance,
    ending: ProofEnding,
    limit: u32,
) -> Result<Answer, NoMemory>
    requires { IsProofEnding (case_of instance.now) instance.now.net.now.notes limit ending }
    ensures { IfOk result (λ a. EndsCharged limit (case_of instance.now) instance.now.net.now.notes a.status a.text) }
{
    match ending {
        ProofEnding::Proved(report) => answer_proved(alloc, instance, report, limit),
        ProofEnding::Separated { state, demand } => separated(alloc, instance, state, &demand),
    }
}

/// The answer to an instance: the report of a plan with a branch tree of at most `limit` splits, or the line of the first demand that a
/// state separates. It may never return.
fn answer_instance<R: Threads + Wait + Sync, G: Gate + Sync>(
    rt: &R,
    alloc: Global,
    instance: &Instance,
    limit: u32,
    gate: &G,
) -> Result<Answer, NoMemory>
    requires limit { limit ≤ 9999 }
    requires charged { AreCharged instance.now.net.now.links }
    ensures { IfOk result (λ a. EndsCharged limit (case_of instance.now) instance.now.net.now.notes a.status a.text) }
{
    let ending = prove_once(rt, alloc, instance, limit, gate)?;
    answer_ending(alloc, instance, ending, limit)
}

/// The answer to a problem: the report of a plan with a branch tree of at most `limit` splits, which is at most 9,999; or the line of the
/// first demand that a state separates, or of a module that costs nothing. It takes the time and the memory of a plan, a trim and a branch
/// tree, and those of the report's text. It may never return, and fails only where memory runs out.
pub fn answer_prove<R: Threads + Wait + Sync, G: Gate + Sync>(
    rt: &R,
    alloc: Global,
    problem: Problem,
    limit: u32,
    gate: &G,
) -> Result<Answer, NoMemory>
    requires { limit ≤ 9999 }
    ensures { IfOk result (λ a. EndsProve limit (case problem.net problem.states problem.demands) problem.net.notes a.status a.text) }
{
    if !are_charged(problem.net.links().items()) {
        return free_module(alloc);
    }
    let instance = Instance {
        net: &problem.net,
        states: &problem.states,
        demands: &problem.demands,
    };
    answer_instance(rt, alloc, &instance, limit, gate)
}
