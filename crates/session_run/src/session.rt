ghost use Rattle.std.specs.Prelude.{◌≡◌, ◌≢◌, [], ◌∷◌, IfOk, length};
ghost use Rattle.plan_terms.specs.Terms.{AreDemands, case};
ghost use Rattle.cut_pool.specs.Terms.{opening_case, origin_of};
ghost use Rattle.session_script.{specs.Terms.IsScript, specs.declared.script.Act.TheVariants.Plan};
ghost use Rattle.session_run.{specs.Transcripts.IsTranscript, specs.inner.Running.{HaveRun, all_own}};

use crate::boards::board_for;
use crate::groups::run_callers;
use crate::reports::report;
use crate::setting::{Setting, Stop};
use board_desk::Caller;
use cut_pool::Board;
use hint_board::HintBoard;
use net_core::{Demands, List, Network, NoMemory, States, discard};
use outside_io::Gate;
use plan_types::{Outcome, Report};
use session_script::{Act, Command, Script};
use std::alloc::Global;
use std::sync::Wait;
use std::thread::Threads;
use turn_lock::Desk;

/// Why a session fails: callers stop where memory runs out, and for no other reason.
fn no_memory(stop: Stop) -> NoMemory
    requires { stop ≢ Stop.Full }
{
    match stop {
        Stop::NoMemory => NoMemory,
        Stop::Full => unreachable!(),
    }
}

/// Runs the commands on a new board, those of each caller in their order, and gives the outcomes and the board at the end.
fn run_on<'a, R: Threads + Wait + Sync, G: Gate + Sync>(
    rt: &R,
    gate: &G,
    setting: &Setting,
    board: Board<'a>,
) -> Result<(List<Outcome>, Board<'a>), NoMemory>
    requires net { board.net.now ≡ setting.now.net.now }
    requires states { board.states.now ≡ setting.now.states.now }
    requires empty { board.entries ≡ [] }
    requires script { IsScript setting.now.commands.now }
    ensures origin { IfOk result (λ ran. origin_of ran.1 ≡ origin_of board.entry) }
    ensures run { IfOk result (λ ran. HaveRun (opening_case ran.1) (all_own ran.1.entries) setting.now.commands.now ran.0) }
{
    let (desk, pass) = Desk::new(setting.alloc, board)?;
    let (outcomes, caller) = run_callers(rt, gate, setting, 1, 9, Caller::new(1, &desk, pass));
    let pass = caller.into_pass();
    let board = desk.close(pass);
    match outcomes {
        Ok(outcomes) => Ok((List::from_vec(outcomes), board)),
        Err(stop) => {
            discard(board);
            Err(no_memory(stop))
        }
    }
}

/// Runs the commands of a setting on a new board of the opening demands, and reports.
fn run_setting<R: Threads + Wait + Sync, G: Gate + Sync>(
    rt: &R,
    gate: &G,
    setting: &Setting,
    opening: Demands,
) -> Result<Report, NoMemory>
    requires opening { AreDemands (length setting.now.net.now.nodes) opening }
    requires script { IsScript setting.now.commands.now }
    ensures { IfOk result (IsTranscript (case setting.now.net.now setting.now.states.now opening) setting.now.net.now.notes setting.now.commands.now) }
{
    let (alloc, net, commands) = (setting.alloc, setting.net, setting.commands);
    let board = board_for(alloc, net, setting.states, opening, commands)?;
    let (outcomes, board) = run_on(rt, gate, setting, board)?;
    report(rt, alloc, net, &board, outcomes, commands)
}

/// Runs the commands of a script on one board of the network's opening demands, and reports the journal, the pool with its right sides at
/// the end, and the outcomes, by caller and then by serial. It may never return.
///
/// Each caller that the script names has a thread of its own, and its commands run in their order. The order in which callers come to the
/// board is open; the journal tells it. An edit is a turn at the board. A plan is of a snapshot, which its caller takes in a turn that
/// commits nothing. Each cut that goes into the pool for a plan is a turn of its own, so that other callers edit and plan meanwhile. The
/// gate is told of edits and plans. Where a thread can't be started, the thread that would have started it does its work.
///
/// The script's callers, needs and numbers of commands are in their ranges. A plan that isn't possible is an outcome of the report, and
/// only want of memory is an error. An edit takes time in the number of cuts in the pool times the demands, and a plan as much time as
/// `plan_snapshot`.
///
/// On the triangle with a demand D1 of 12 from A to C the commands `caller 1 set D1 24` and `caller 1 plan` give a journal of the edit,
/// accepted as version 1, and of the opening cut, and a tight plan of version 1 at position 1, which costs 15.
pub fn run_session<R: Threads + Wait + Sync, G: Gate + Sync>(
    rt: &R,
    alloc: Global,
    net: &Network,
    states: &States,
    opening: Demands,
    script: &Script,
    gate: &G,
) -> Result<Report, NoMemory>
    requires opening { AreDemands (length net.now.nodes) opening }
    requires script { IsScript script.now.commands }
    ensures { IfOk result (IsTranscript (case net.now states.now opening) net.now.notes script.now.commands) }
{
    let hints = HintBoard::new(alloc, net.links().len() as u32)?;
    let setting = Setting {
        alloc,
        net,
        states,
        commands: script.commands.items(),
        hints: &hints,
    };
    run_setting(rt, gate, &setting, opening)
}

/// A script with one plan command, of caller 1. It takes constant time, and memory for the command.
pub fn single_plan(alloc: Global) -> Result<Script, NoMemory>
    ensures script { IfOk result (λ s. s.commands ≡ record { caller = 1; act = Plan } ∷ []) }
    ensures form { IfOk result (λ s. IsScript s.commands) }
{
    let mut commands = List::new(alloc);
    commands.push(Command {
        caller: 1,
        act: Act::Plan,
    })?;
    Ok(Script { commands })
}
