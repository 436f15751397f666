//! Tests of callers at a desk with a board.
ghost use Rattle.std.{specs.Prelude.{◌≡◌, ◌≤◌, ◌^◌, [], IfSome, length}, specs.Thread.IsSync};
ghost use Rattle.plan_terms.specs.Terms.{graph};
ghost use Rattle.metric_cut.specs.Cuts.{IsCutOf};
ghost use Rattle.turn_lock.specs.Passes.{IsPassOf, opening_of, own_places, own_units};
ghost use Rattle.board_desk.specs.Turns.{AreAtOneDesk, IsAtDesk, IsSameCaller, board_made, caller_places, caller_units};

use crate::changes::{Change, edit_of};
use crate::cuts::unit_cut;
use board_desk::Caller;
use cut_pool::{AdmitAnswer, Board, Snapshot};
use metric_cut::Cut;
use net_core::{Copied, Entry, NoMemory, Problem, discard};
use std::alloc::Global;
use std::sync::Wait;
use std::thread;
use std::thread::Threads;
use turn_lock::{Desk, Pass};
use worked_networks::{problem, triangle};

/// The triangle, whose links each fail alone, with a demand A of 12.00 from A to C.
fn one_demand(alloc: Global) -> Option<Problem> {
    problem(alloc, triangle(alloc, 0).ok()?, &[(0, 2, 12000)]).ok()
}

/// A desk with a new board of the problem, and the pass with all units.
fn open_desk(alloc: Global, problem: &Problem) -> Option<(Desk<Board<'_>>, Pass<Board<'_>>)>
    ensures own { IfSome result (λ d. IsPassOf d.0 d.1) }
    ensures pass { IfSome result (λ d. (own_places d.1 ≡ []) × (own_units d.1 ≡ 2 ^ 32)) }
    ensures net { IfSome result (λ d. (opening_of d.0).net.now ≡ problem.now.net) }
    ensures states { IfSome result (λ d. (opening_of d.0).states.now ≡ problem.now.states) }
{
    let opening = problem.demands.copy().ok()?;
    let board = Board::new(alloc, &problem.net, &problem.states, opening).ok()?;
    Desk::new(alloc, board).ok()
}

/// Sets the need of A in a turn. If memory runs out, no edit is made.
fn edit_once<R: Wait>(rt: &R, alloc: Global, caller: &mut Caller, need: u32)
    requires { IsAtDesk caller.old }
    ensures { IsSameCaller caller.old caller.new }
{
    if let Some(edit) = edit_of(alloc, &Change::Set(b'A', need)) {
        discard(caller.edit(rt, edit));
    }
}

/// Sets the need of A this many times, each in a turn of its own.
fn edit_often<R: Wait>(rt: &R, alloc: Global, caller: &mut Caller, edits: u32)
    requires { IsAtDesk caller.old }
    ensures { IsSameCaller caller.old caller.new }
{
    for need in 0..edits {
        edit_once(rt, alloc, caller, need);
    }
}

/// The caller after it has made this many edits.
fn edited<'d, 'a, R: Wait>(
    rt: &R,
    alloc: Global,
    caller: Caller<'d, 'a>,
    edits: u32,
) -> Caller<'d, 'a>
    requires { IsAtDesk caller }
    ensures desk { AreAtOneDesk caller.entry result }
    ensures units { caller_units result ≡ caller_units caller.entry }
{
    let mut caller = caller;
    edit_often(rt, alloc, &mut caller, edits);
    caller
}

/// Lets this many threads make this many edits each.
fn edit_by<'d, 'a, R: Threads + Wait + Sync>(
    rt: &R,
    alloc: Global,
    caller: Caller<'d, 'a>,
    threads: u32,
    edits: u32,
) -> Caller<'d, 'a>
    requires own { IsAtDesk caller }
    requires units { threads ≤ caller_units caller }
    ensures desk { AreAtOneDesk caller.entry result }
    ensures units { caller_units result ≡ caller_units caller.entry }
{
    if threads <= 1 {
        return edited(rt, alloc, caller, edits);
    }
    let some = threads / 2;
    let rest = threads - some;
    let (one, two) = caller.split(2);
    let (one, two) = thread::join(
        rt,
        move || -> Caller
            requires sync { IsSync R.row }
            requires own { IsAtDesk one }
            requires units { rest ≤ caller_units one }
            ensures desk { AreAtOneDesk one.entry result }
            ensures units { caller_units result ≡ caller_units one.entry }
        { edit_by(rt, alloc, one, rest, edits) },
        move || -> Caller
            requires sync { IsSync R.row }
            requires own { IsAtDesk two }
            requires units { some ≤ caller_units two }
            ensures desk { AreAtOneDesk two.entry result }
            ensures units { caller_units result ≡ caller_units two.entry }
        { edit_by(rt, alloc, two, some, edits) },
    );
    one.meet(two)
}

/// How many entries are edits of this caller.
fn edits_of(entries: &[Entry], number: u32) -> usize {
    entries
        .iter()
        .filter(|entry| matches!(entry, Entry::Edited { caller, .. } if *caller == number))
        .count()
}

/// After this many threads have each made this many edits on a new board of the problem: the number of entries, of those of caller 1, and
/// of those of caller 2.
fn entries_by<R: Threads + Wait + Sync>(
    rt: &R,
    alloc: Global,
    problem: &Problem,
    threads: u32,
    edits: u32,
) -> Option<(usize, usize, usize)>
    requires { threads ≤ 8 }
{
    let (desk, pass) = open_desk(alloc, problem)?;
    let caller = Caller::new(1, &desk, pass);
    let pass = edit_by(rt, alloc, caller, threads, edits).into_pass();
    let board = desk.close(pass);
    let entries = board.entries();
    Some((entries.len(), edits_of(entries, 1), edits_of(entries, 2)))
}

/// Whether two threads commit a hundred edits each, and eight all of their thousand.
fn commit_all<R: Threads + Wait + Sync>(rt: &R, alloc: Global, problem: &Problem) -> bool {
    entries_by(rt, alloc, problem, 2, 100) == Some((200, 100, 100))
        && matches!(entries_by(rt, alloc, problem, 8, 125), Some((1000, _, _)))
}

/// Whether two threads commit a hundred edits each, and eight all of their thousand, on new boards of one demand.
fn commit_all_on_new<R: Threads + Wait + Sync>(rt: &R, alloc: Global) -> bool {
    match one_demand(alloc) {
        Some(problem) => commit_all(rt, alloc, &problem),
        None => false,
    }
}

#[test]
fn threads_commit_all_their_edits(rt: HostRuntime) {
    assert!(rt; commit_all_on_new(&rt, rt.alloc()));
}

/// A caller without entries splits in two. The first one admits a cut; the second one only looks, and then takes the first one in. The
/// second caller, which now names the first one's entry; `None` if memory runs out.
fn met_by_another<'d, 'a, R: Wait>(
    rt: &R,
    caller: Caller<'d, 'a>,
    cut: Cut,
) -> Option<Caller<'d, 'a>>
    requires own { IsAtDesk caller }
    requires units { 2 ≤ caller_units caller }
    requires none { caller_places caller ≡ [] }
    requires cut { IsCutOf (graph (board_made caller).net.now (board_made caller).states.now cut.state.0) cut }
    ensures desk { IfSome result (AreAtOneDesk caller.entry) }
    ensures units { IfSome result (λ met. caller_units met ≡ caller_units caller.entry) }
    ensures named { IfSome result (λ met. length (caller_places met) ≡ 1) }
{
    let (mut one, mut other) = caller.split(2);
    let answer = one.admit(rt, cut);
    discard(other.snapshot(rt));
    match answer {
        AdmitAnswer::Admitted { .. } => Some(other.meet(one)),
        refused => {
            discard(refused);
            discard(one);
            discard(other);
            None
        }
    }
}

/// After a caller took in another one that had admitted a cut: how many entries and cuts a board of the problem has.
fn counts_when_met<R: Wait>(rt: &R, alloc: Global, problem: &Problem) -> Option<(usize, u32)> {
    let cut = unit_cut(alloc, problem, 0)?;
    let (desk, pass) = open_desk(alloc, problem)?;
    let caller = met_by_another(rt, Caller::new(1, &desk, pass), cut)?;
    let pass = caller.into_pass();
    let board = desk.close(pass);
    Some((board.entries().len(), board.cuts()))
}

/// Whether a board of one demand has one entry and one cut after a caller took in another one that had admitted a cut.
fn is_met_on_new<R: Wait>(rt: &R, alloc: Global) -> bool {
    match one_demand(alloc) {
        Some(problem) => counts_when_met(rt, alloc, &problem) == Some((1, 1)),
        None => false,
    }
}

#[test]
fn a_caller_that_takes_another_in_has_its_entry(rt: HostRuntime) {
    assert!(rt; is_met_on_new(&rt, rt.alloc()));
}

/// Whether a cut is the first one, and the first entry.
fn is_first(answer: &AdmitAnswer) -> bool {
    matches!(
        answer,
        AdmitAnswer::Admitted {
            index: 0,
            position: 1,
        }
    )
}

/// The position, the version and the number of cuts of a snapshot.
fn counts_in(found: &Result<Snapshot, NoMemory>) -> Option<(u64, u64, usize)> {
    match found {
        Ok(found) => Some((found.position, found.version, found.cuts.len())),
        Err(_) => None,
    }
}

/// A caller admits a cut, as the first entry, and splits in two. The position, the version and the number of cuts in the snapshot of the
/// second one.
fn found_by_a_second<R: Wait>(rt: &R, caller: Caller, cut: Cut) -> Option<(u64, u64, usize)>
    requires own { IsAtDesk caller }
    requires units { 2 ≤ caller_units caller }
    requires cut { IsCutOf (graph (board_made caller).net.now (board_made caller).states.now cut.state.0) cut }
{
    let mut caller = caller;
    let answer = caller.admit(rt, cut);
    let is_first = is_first(&answer);
    discard(answer);
    let (first, mut second) = caller.split(2);
    discard(first);
    let found = second.snapshot(rt);
    let counts = counts_in(&found);
    discard(found);
    discard(second);
    if is_first { counts } else { None }
}

/// The position, the version and the number of cuts that a second caller finds on a new board of the problem, after the first one admitted
/// a cut.
fn found_on_new<R: Wait>(rt: &R, alloc: Global, problem: &Problem) -> Option<(u64, u64, usize)> {
    let cut = unit_cut(alloc, problem, 0)?;
    let (desk, pass) = open_desk(alloc, problem)?;
    found_by_a_second(rt, Caller::new(1, &desk, pass), cut)
}

/// Whether the second caller finds the first entry, the opening version and one cut, on a board of one demand.
fn is_found_on_new<R: Wait>(rt: &R, alloc: Global) -> bool {
    match one_demand(alloc) {
        Some(problem) => found_on_new(rt, alloc, &problem) == Some((1, 0, 1)),
        None => false,
    }
}

#[test]
fn a_second_caller_finds_what_the_first_had_seen(rt: HostRuntime) {
    assert!(rt; is_found_on_new(&rt, rt.alloc()));
}
