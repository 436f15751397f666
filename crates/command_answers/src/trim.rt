ghost use Rattle.std.specs.Prelude.{IfOk};
ghost use Rattle.plan_terms.specs.Terms.{case, case_of};
ghost use Rattle.proof_report.specs.Terms.{IsTrimEnding, IsTrimmedReport};
ghost use Rattle.command_answers.specs.Answers.{EndsTrim};

use crate::plan::separated;
use net_core::{Instance, List, NoMemory, Problem};
use outside_io::{Answer, Gate, Status};
use plan_reports::{PlannedReport, TrimEnding, trim_once, write_trimmed};
use std::alloc::Global;
use std::sync::Wait;
use std::thread::Threads;
use trim_plan::Block;

/// The answer with a trimmed plan: the report, and a comment line for each block.
fn answer_trimmed(
    alloc: Global,
    instance: &Instance,
    report: PlannedReport,
    blocks: &List<Block>,
) -> Result<Answer, NoMemory>
    requires { IsTrimmedReport (case_of instance.now) instance.now.net.now.notes report blocks.now }
    ensures { IfOk result (λ a. EndsTrim (case_of instance.now) instance.now.net.now.notes a.status a.text) }
{
    Ok(Answer {
        status: Status::Done,
        text: write_trimmed(alloc, instance, report, blocks)?,
    })
}

/// The answer to the result of a trimming.
fn answer_ending(alloc: Global, instance: &Instance, ending: TrimEnding) -> Result<Answer, NoMemory>
    requires { IsTrimEnding (case_of instance.now) instance.now.net.now.notes ending }
    ensures { IfOk result (λ a. EndsTrim (case_of instance.now) instance.now.net.now.notes a.status a.text) }
{
    match ending {
        TrimEnding::Trimmed { report, blocks } => answer_trimmed(alloc, instance, report, &blocks),
        TrimEnding::Separated { state, demand } => separated(alloc, instance, state, &demand),
    }
}

/// The answer to an instance: the report of a trimmed plan with what keeps each module, or the line of the first demand that a state
/// separates. It may never return.
fn answer_instance<R: Threads + Wait + Sync, G: Gate + Sync>(
    rt: &R,
    alloc: Global,
    instance: &Instance,
    gate: &G,
) -> Result<Answer, NoMemory>
    ensures { IfOk result (λ a. EndsTrim (case_of instance.now) instance.now.net.now.notes a.status a.text) }
{
    let ending = trim_once(rt, alloc, instance, gate)?;
    answer_ending(alloc, instance, ending)
}

/// The answer to a problem: the report of a trimmed plan with what keeps each module, or the line of the first demand that a state
/// separates. It takes the time and the memory of a plan and of its trim, and those of the report's text. It may never return, and fails
/// only where memory runs out.
pub fn answer_trim<R: Threads + Wait + Sync, G: Gate + Sync>(
    rt: &R,
    alloc: Global,
    problem: Problem,
    gate: &G,
) -> Result<Answer, NoMemory>
    ensures { IfOk result (λ a. EndsTrim (case problem.net problem.states problem.demands) problem.net.notes a.status a.text) }
{
    let instance = Instance {
        net: &problem.net,
        states: &problem.states,
        demands: &problem.demands,
    };
    answer_instance(rt, alloc, &instance, gate)
}
