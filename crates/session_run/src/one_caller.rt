ghost use Rattle.std.specs.Prelude.{◌≡◌, ◌≤◌, ◌+◌, length};
ghost use Rattle.board_desk.specs.Turns.{IsSameCaller, caller_seen};
ghost use Rattle.session_script.specs.Terms.{IsCommandInForm};
ghost use Rattle.session_run.{specs.inner.Running.{CanRun, EndsRun, IsOfSetting, case_made, commands_of}, specs.inner.Turns.{EndsAct, KeepsOutcome, progress_of}};

use crate::edits::run_edit;
use crate::plans::{Asked, run_plan};
use crate::setting::{Setting, Stop};
use board_desk::Caller;
use net_core::Copied;
use outside_io::Gate;
use plan_types::Outcome;
use session_script::{Act, Command};
use std::sync::Wait;
use std::thread::Threads;

/// Adds the outcome of a plan command to the earlier ones.
fn keep(outcome: Outcome, outcomes: &mut Vec<Outcome>) -> Result<(), Stop>
    ensures { KeepsOutcome outcome outcomes.old.items outcomes.new.items result }
{
    outcomes.push(outcome)?;
    Ok(())
}

/// Runs a caller's next command. `outcomes` has those of its plan commands so far.
fn run_command<R: Threads + Wait, G: Gate>(
    rt: &R,
    gate: &G,
    setting: &Setting,
    command: &Command,
    caller: &mut Caller,
    outcomes: &mut Vec<Outcome>,
) -> Result<(), Stop>
    requires of { IsOfSetting setting.now caller.old }
    requires number { caller.old.number ≡ command.now.caller }
    requires form { IsCommandInForm command.now }
    requires few { length outcomes.old.items ≤ 1000 }
    ensures same { IsSameCaller caller.old caller.new }
    ensures act { EndsAct (case_made caller.old) command.now (progress_of caller.old outcomes.old.items) (progress_of caller.new outcomes.new.items) result }
{
    match &command.act {
        Act::Change(edit) => run_edit(rt, gate, edit.copy()?, caller),
        Act::Plan => {
            let asked = Asked {
                caller: command.caller,
                serial: outcomes.len() as u32 + 1,
            };
            let outcome = run_plan(rt, gate, setting, asked, caller)?;
            keep(outcome, outcomes)
        }
    }
}

/// Runs the commands of one caller, in their order, and gives the outcomes of its plan commands. It may never return.
pub fn run_caller<R: Threads + Wait, G: Gate>(
    rt: &R,
    gate: &G,
    setting: &Setting,
    caller: &mut Caller,
) -> Result<Vec<Outcome>, Stop>
    requires { CanRun setting.now caller.old }
    ensures same { IsSameCaller caller.old caller.new }
    ensures run { EndsRun (case_made caller.old) (commands_of caller.old.number (caller.old.number + 1) setting.now.commands.now)
        (caller_seen caller.new) result }
{
    let number = caller.number();
    let mut outcomes = Vec::new(setting.alloc);
    for command in setting.commands {
        if command.caller == number {
            run_command(rt, gate, setting, command, caller, &mut outcomes)?;
        }
    }
    Ok(outcomes)
}
