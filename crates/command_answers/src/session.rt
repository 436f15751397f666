ghost use Rattle.std.specs.Prelude.{◌≡◌, IfOk};
ghost use Rattle.plan_terms.specs.Terms.{case};
ghost use Rattle.plan_report.specs.Terms.{known_of, SpellsReport};
ghost use Rattle.session_script.specs.Terms.{IsScript};
ghost use Rattle.plan_types.specs.declared.report.Report.{Report as Rep};
ghost use Rattle.command_answers.specs.Answers.{IsPrintedReport};

use crate::plan::reported;
use net_core::{NoMemory, Problem};
use outside_io::{Answer, Gate, Status};
use session_run::run_session;
use session_script::Script;
use std::alloc::Global;
use std::sync::Wait;
use std::thread::Threads;

/// The report of a script's commands. It takes the time and the memory of `run_session`, and those of the report's text. It may never
/// return, and fails only where memory runs out.
pub fn answer_session<R: Threads + Wait + Sync, G: Gate + Sync>(
    rt: &R,
    alloc: Global,
    problem: Problem,
    script: &Script,
    gate: &G,
) -> Result<Answer, NoMemory>
    requires { IsScript script.now.commands }
    ensures status { IfOk result (λ a. a.status ≡ Status.Done) }
    ensures report { IfOk result (λ a. (r : Rep)
        × IsPrintedReport (case problem.net problem.states problem.demands) problem.net.notes script.now.commands r a.text
        × SpellsReport (known_of problem.net problem.states) a.text r) }
{
    let Problem {
        net,
        states,
        demands,
    } = problem;
    let report = run_session(rt, alloc, &net, &states, demands, script, gate)?;
    reported(alloc, &net, &states, &report)
}
