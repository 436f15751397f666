ghost use Rattle.std.specs.Prelude.{◌≤◌, IfOk, IfSome};
ghost use Rattle.plan_view.specs.Terms.{problem_case};
ghost use Rattle.proof_report.specs.Terms.{AreCharged};
ghost use Rattle.people_plans.specs.PlansForPeople.{EndsPlanForPeople, EndsPlanWithin};

use crate::answer::PlanAnswer;
use crate::free::{first_free, free_answer};
use crate::planned_answer::planned_answer;
use crate::separated_answer::separated_answer;
use crate::splits::limit_of;
use net_core::{Instance, NoMemory, Problem};
use outside_io::Gate;
use proof_report::{ProofEnding, prove_once_by_lines};
use std::alloc::Global;
use std::sync::Wait;
use std::thread::Threads;

/// The answer to a problem in which all modules cost something.
fn answer_charged<R: Threads + Wait + Sync, G: Gate + Sync>(
    rt: &R,
    alloc: Global,
    network: &[u8],
    problem: &Problem,
    limit: u32,
    wanted: bool,
    gate: &G,
) -> Result<PlanAnswer, NoMemory>
    requires limit { limit ≤ 9999 }
    requires charged { AreCharged problem.now.net.links }
    ensures { IfOk result (λ a. EndsPlanWithin network.now limit wanted (problem_case problem.now) problem.now.net.notes a.status a.text a.message) }
{
    let instance = Instance {
        net: &problem.net,
        states: &problem.states,
        demands: &problem.demands,
    };
    let ending = prove_once_by_lines(rt, alloc, &instance, limit, gate)?;
    match ending {
        ProofEnding::Proved(report) => {
            planned_answer(alloc, network, problem, report, limit, wanted)
        }
        ProofEnding::Separated { state, demand } => {
            separated_answer(alloc, network, &instance, state, &demand)
        }
    }
}

/// A plan of a problem for people; `network` is the name of the network's file. It is planned by one plan command of caller 1, trimmed and
/// made cheaper, and a branch tree over cuts and lines made of them tells how near to the cheapest it is. The tree has at most `splits`
/// splits, at most 9,999, or `default_splits` if that is `None`; with 0 it is its root alone. It may never return.
///
/// The text is the view of the plan. If the report is `wanted`, the text is the report with the comment lines of the tree, and the message
/// is the first block of the view. If demands can't be carried, the message names each of them with the state that separates it; if a
/// module costs nothing, it names the first link with such a module. Both messages end with the planner's own line.
///
/// It takes the time and the memory of `prove_once_by_lines` and of `put_view` or `write_lined`; if there is no plan, those of
/// `separations`. It fails only where memory runs out.
pub fn plan_for_people<R: Threads + Wait + Sync, G: Gate + Sync>(
    rt: &R,
    alloc: Global,
    network: &[u8],
    problem: &Problem,
    splits: Option<u32>,
    wanted: bool,
    gate: &G,
) -> Result<PlanAnswer, NoMemory>
    requires { IfSome splits (λ n. n ≤ 9999) }
    ensures { IfOk result (λ a. EndsPlanForPeople network.now splits wanted (problem_case problem.now) problem.now.net.notes a.status a.text a.message) }
{
    let limit = limit_of(splits, problem.net.nodes().len());
    match first_free(problem.net.links().items()) {
        Some(link) => free_answer(alloc, network, link.name.bytes()),
        None => answer_charged(rt, alloc, network, problem, limit, wanted, gate),
    }
}
