ghost use Rattle.std.{specs.Prelude.{◌≡◌, ◌≤◌, ◌<◌, ◌+◌, Ok}, specs.List.list_any, specs.Thread.IsSync};
ghost use Rattle.board_desk.specs.Turns.{AreAtOneDesk, caller_seen, caller_units};
ghost use Rattle.session_run.specs.inner.Running.{AreBoth, CanRun, EndsRun, case_made, commands_of, is_of};

use crate::one_caller::run_caller;
use crate::setting::{Setting, Stop};
use board_desk::Caller;
use net_core::discard;
use outside_io::Gate;
use plan_types::Outcome;
use session_script::Command;
use std::sync::Wait;
use std::thread;
use std::thread::Threads;

/// Whether the command is of a caller in `low..high`.
fn is_of(command: &Command, low: u32, high: u32) -> bool
    ensures { result ≡ is_of low high command.now }
{
    low <= command.caller && command.caller < high
}

/// Whether any command is of a caller in `low..high`.
fn names_any(commands: &[Command], low: u32, high: u32) -> bool
    ensures { result ≡ list_any (is_of low high) commands.now }
{
    commands.iter().any(|command| is_of(command, low, high))
}

/// The outcomes of one group, and after them those of another.
fn joined(one: Vec<Outcome>, two: Vec<Outcome>) -> Result<Vec<Outcome>, Stop>
    ensures { AreBoth (Ok one) (Ok two) result }
{
    let mut all = one;
    let mut more = two;
    all.append(&mut more)?;
    Ok(all)
}

/// The outcomes of two groups, or why one of them stopped.
fn both(
    one: Result<Vec<Outcome>, Stop>,
    two: Result<Vec<Outcome>, Stop>,
) -> Result<Vec<Outcome>, Stop>
    ensures { AreBoth one two result }
{
    match one {
        Ok(first) => match two {
            Ok(second) => joined(first, second),
            Err(stop) => {
                discard(first);
                Err(stop)
            }
        },
        Err(stop) => {
            discard(two);
            Err(stop)
        }
    }
}

/// Runs the commands of one caller, under its number: each thread goes through the whole script and takes its own. It may never return.
fn run_one<'d, 'a, R: Threads + Wait, G: Gate>(
    rt: &R,
    gate: &G,
    setting: &Setting,
    number: u32,
    caller: Caller<'d, 'a>,
) -> (Result<Vec<Outcome>, Stop>, Caller<'d, 'a>)
    requires { CanRun setting.now caller }
    ensures desk { AreAtOneDesk caller.entry result.1 }
    ensures units { caller_units result.1 ≡ caller_units caller.entry }
    ensures run { EndsRun (case_made caller.entry) (commands_of number (number + 1) setting.now.commands.now) (caller_seen result.1) result.0 }
{
    let mut caller = caller;
    caller.set_number(number);
    let ran = run_caller(rt, gate, setting, &mut caller);
    (ran, caller)
}

/// Runs the callers in `low..high`, each one that a command names on a thread of its own, and gives their outcomes and the caller with all
/// their entries. Where a thread can't be started, the thread that would have started it does its work. It may never return.
pub fn run_callers<'d, 'a, R: Threads + Wait + Sync, G: Gate + Sync>(
    rt: &R,
    gate: &G,
    setting: &Setting,
    low: u32,
    high: u32,
    caller: Caller<'d, 'a>,
) -> (Result<Vec<Outcome>, Stop>, Caller<'d, 'a>)
    requires some { low < high }
    requires units { high ≤ low + caller_units caller }
    requires ready { CanRun setting.now caller }
    ensures desk { AreAtOneDesk caller.entry result.1 }
    ensures units { caller_units result.1 ≡ caller_units caller.entry }
    ensures run { EndsRun (case_made caller.entry) (commands_of low high setting.now.commands.now) (caller_seen result.1) result.0 }
{
    if high - low <= 1 {
        return run_one(rt, gate, setting, low, caller);
    }
    let middle = high - (high - low) / 2;
    if !names_any(setting.commands, middle, high) {
        return run_callers(rt, gate, setting, low, middle, caller);
    }
    if !names_any(setting.commands, low, middle) {
        return run_callers(rt, gate, setting, middle, high, caller);
    }
    let (one, two) = caller.split(middle);
    let ((first, one), (second, two)) = thread::join(
        rt,
        move || -> (Result<Vec<Outcome>, Stop>, Caller)
            requires sync { IsSync R.row × IsSync G.row }
            requires some { low < middle }
            requires units { middle ≤ low + caller_units one }
            requires ready { CanRun setting.now one }
            ensures desk { AreAtOneDesk one.entry result.1 }
            ensures units { caller_units result.1 ≡ caller_units one.entry }
            ensures run { EndsRun (case_made one.entry) (commands_of low middle setting.entry.now.commands.now) (caller_seen result.1) result.0 }
        { run_callers(rt, gate, setting, low, middle, one) },
        move || -> (Result<Vec<Outcome>, Stop>, Caller)
            requires sync { IsSync R.row × IsSync G.row }
            requires some { middle < high }
            requires units { high ≤ middle + caller_units two }
            requires ready { CanRun setting.now two }
            ensures desk { AreAtOneDesk two.entry result.1 }
            ensures units { caller_units result.1 ≡ caller_units two.entry }
            ensures run { EndsRun (case_made two.entry) (commands_of middle high setting.entry.now.commands.now) (caller_seen result.1) result.0 }
        { run_callers(rt, gate, setting, middle, high, two) },
    );
    (both(first, second), one.meet(two))
}
