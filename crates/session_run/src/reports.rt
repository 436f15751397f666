ghost use Rattle.std.specs.Prelude.{◌≡◌, ◌≤◌, ℕ, All, AllPairs, IfOk, length};
ghost use Rattle.plan_terms.specs.Terms.{AreDemands, HasShortLengths};
ghost use Rattle.cut_pool.{specs.Boards.AreLinesNow, specs.Terms.opening_case};
ghost use Rattle.session_script.specs.Terms.{IsScript};
ghost use Rattle.session_run.{specs.Transcripts.{IsTranscript, outcome_caller, outcomes_of}, specs.inner.Running.{HaveRun, all_own}};

use crate::ranges::are_short_named;
use cut_pool::Board;
use net_core::{CutLine, Entry, List, Network, NoMemory, discard};
use plan_types::{Outcome, Report};
use planner::ranges::are_short_cuts;
use session_script::Command;
use std::alloc::Global;
use std::thread::Threads;

/// The caller of an outcome. It takes constant time, and no memory.
pub fn caller_of(outcome: &Outcome) -> u32
    ensures { result ≡ outcome_caller outcome.now }
{
    match outcome {
        Outcome::Planned { caller, .. } => *caller,
        Outcome::Unsurvivable { caller, .. } => *caller,
    }
}

/// Sorts outcomes by caller. Those of one caller stay in their order.
fn by_caller(alloc: Global, outcomes: List<Outcome>) -> Result<List<Outcome>, NoMemory>
    ensures ordered { IfOk result (AllPairs (λ a b. outcome_caller a ≤ outcome_caller b)) }
    ensures same { IfOk result (λ sorted. (caller : ℕ) → outcomes_of caller sorted ≡ outcomes_of caller outcomes) }
    ensures count { IfOk result (λ sorted. length sorted ≡ length outcomes) }
{
    let mut sorted = outcomes;
    sorted.items_mut().sort_by_key(alloc, |o| caller_of(o))?;
    Ok(sorted)
}

/// The journal of a board, and its pool with right sides that are computed again from the demands.
fn journal_and_pool<R: Threads + Sync>(
    rt: &R,
    alloc: Global,
    board: &Board,
) -> Result<(List<Entry>, List<CutLine>), NoMemory>
    ensures entries { IfOk result (λ both. both.0 ≡ board.now.entries) }
    ensures pool { IfOk result (λ both. AreLinesNow board.now both.1) }
    ensures short { IfOk result (λ both. All HasShortLengths both.1) }
{
    let entries = List::from_slice(alloc, board.entries())?;
    match board.audited_lines(rt) {
        Ok(pool) => {
            are_short_cuts(pool.items());
            Ok((entries, pool))
        }
        Err(no_memory) => {
            discard(entries);
            Err(no_memory)
        }
    }
}

/// The report of a board and the outcomes of its plans. The right sides of the pool are computed again from the demands.
pub fn report<R: Threads + Sync>(
    rt: &R,
    alloc: Global,
    net: &Network,
    board: &Board,
    outcomes: List<Outcome>,
    commands: &[Command],
) -> Result<Report, NoMemory>
    requires opening { AreDemands (length board.now.net.now.nodes) board.now.opening.value }
    requires script { IsScript commands.now }
    requires run { HaveRun (opening_case board.now) (all_own board.now.entries) commands.now outcomes }
    ensures { IfOk result (IsTranscript (opening_case board.now) net.now.notes commands.now) }
{
    are_short_named(outcomes.items());
    let sorted = by_caller(alloc, outcomes)?;
    match journal_and_pool(rt, alloc, board) {
        Ok((entries, pool)) => Ok(Report {
            notes: net.notes(),
            entries,
            pool,
            outcomes: sorted,
        }),
        Err(no_memory) => {
            discard(sorted);
            Err(no_memory)
        }
    }
}
