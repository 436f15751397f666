//! Tests of the pool of cuts, and of the history that cuts and edits have together.
ghost use Rattle.std.specs.Prelude.{◌≡◌};

use crate::changes::{Change, edit_of};
use crate::cuts::unit_cut;
use cut_pool::{AdmitAnswer, Board, EditAnswer, Snapshot};
use net_core::{Copied, CutLine, List, NoMemory, Problem, Reply, discard};
use std::alloc::Global;
use std::thread::Threads;
use turn_lock::Chronicle;
use worked_networks::{DemandRow, problem, triangle};

/// A demand of 12.00 from A to C.
const ONE: [DemandRow; 1] = [(0, 2, 12000)];

/// Sixteen demands of the greatest need, which leave 15 thousandths up to the greatest total.
const GREAT: [DemandRow; 16] = [(0, 2, 1099511627775); 16];

/// A step: what is done with a board, and what it answers.
#[derive(Clone, Copy)]
enum Step {
    /// The edit is the last entry then, with this reply, and the version is this one.
    Edit(Change, Reply, u64),
    /// The unit cut of this state gets this index, was known or is admitted now, and the journal has this many entries then.
    Admit(u32, bool, u32, u64),
    /// The right sides in the pool's order, both the kept ones and those that are computed again.
    Sides(&'static [u128]),
    /// Takes memory for this many edits.
    Reserve(u32),
    /// There is memory for this many edits.
    Spare(u32),
}

/// A board of the triangle, whose links each fail alone.
#[derive(Drop)]
struct Given<'a> {
    problem: &'a Problem,
    board: Board<'a>,
    ghost net: { board.net.now ≡ problem.now.net },
    ghost states: { board.states.now ≡ problem.now.states },
}

/// A new board of the problem.
fn open_board(alloc: Global, problem: &Problem) -> Option<Given<'_>> {
    let opening = problem.demands.copy().ok()?;
    let board = Board::new(alloc, &problem.net, &problem.states, opening).ok()?;
    Some(Given { problem, board })
}

/// The reply of an edit that is at this position.
fn reply_at(answer: &EditAnswer, count: u64) -> Option<Reply> {
    match answer {
        EditAnswer::At { position, reply } if *position == count => Some(*reply),
        _ => None,
    }
}

/// Makes an edit. Its reply, if the edit is the last entry then.
fn edit(alloc: Global, given: &mut Given, change: &Change) -> Option<Reply> {
    let edit = edit_of(alloc, change)?;
    let answer = given.board.edit(1, edit);
    let reply = reply_at(&answer, given.board.count());
    discard(answer);
    reply
}

/// Takes memory for edits. Tells whether there is as much then.
fn reserve(given: &mut Given, edits: u32) -> bool {
    given.board.reserve(edits).is_ok()
}

/// Whether a cut was known, and its index.
fn index_at(answer: &AdmitAnswer) -> Option<(bool, u32)> {
    match answer {
        AdmitAnswer::Admitted { index, .. } => Some((false, *index)),
        AdmitAnswer::Known(index, _) => Some((true, *index)),
        _ => None,
    }
}

/// Admits the unit cut of a state. Tells whether it was known, and its index.
fn admit(alloc: Global, given: &mut Given, state: u32) -> Option<(bool, u32)> {
    let cut = unit_cut(alloc, given.problem, state)?;
    let answer = given.board.admit(cut);
    let index = index_at(&answer);
    discard(answer);
    index
}

/// Whether the lines have these right sides.
fn have_sides(lines: &[CutLine], want: &[u128]) -> bool {
    lines.len() == want.len()
        && lines
            .iter()
            .zip(want)
            .all(|(line, right)| line.right == *right)
}

/// Whether the lines are there, with these right sides.
fn are_lines(lines: Result<List<CutLine>, NoMemory>, want: &[u128]) -> bool {
    match lines {
        Ok(lines) => have_sides(lines.items(), want),
        Err(_) => false,
    }
}

/// Whether the right sides are there, and are these.
fn are_sides(sides: Result<List<u128>, NoMemory>, want: &[u128]) -> bool {
    match sides {
        Ok(sides) => sides.items() == want,
        Err(_) => false,
    }
}

/// Whether the right sides are these, both the kept ones and those that are computed again.
fn has_sides<R: Threads + Sync>(rt: &R, board: &Board, want: &[u128]) -> bool {
    are_lines(board.lines(), want)
        && are_sides(board.audit(rt), want)
        && are_lines(board.audited_lines(rt), want)
}

/// Whether a step is answered as it says.
fn takes<R: Threads + Sync>(rt: &R, alloc: Global, given: &mut Given, step: &Step) -> bool {
    match step {
        Step::Edit(change, reply, version) => {
            edit(alloc, given, change) == Some(*reply) && given.board.version() == *version
        }
        Step::Admit(state, known, index, count) => {
            admit(alloc, given, *state) == Some((*known, *index)) && given.board.count() == *count
        }
        Step::Sides(want) => has_sides(rt, &given.board, want),
        Step::Reserve(edits) => reserve(given, *edits),
        Step::Spare(edits) => given.board.spare() == *edits,
    }
}

/// Whether each step is answered as it says.
fn takes_each<R: Threads + Sync>(rt: &R, alloc: Global, given: &mut Given, steps: &[Step]) -> bool {
    for step in steps {
        if !takes(rt, alloc, given, step) {
            return false;
        }
    }
    true
}

/// The triangle, whose links each fail alone, with these demands.
fn problem_of(alloc: Global, opening: &[DemandRow]) -> Option<Problem> {
    problem(alloc, triangle(alloc, 0).ok()?, opening).ok()
}

/// Whether a new board of the problem takes each step as it says.
fn is_taken<R: Threads + Sync>(rt: &R, alloc: Global, problem: &Problem, steps: &[Step]) -> bool {
    match open_board(alloc, problem) {
        Some(mut given) => takes_each(rt, alloc, &mut given, steps),
        None => false,
    }
}

/// Whether a new board of these demands takes each step as it says.
fn takes_all<R: Threads + Sync>(
    rt: &R,
    alloc: Global,
    opening: &[DemandRow],
    steps: &[Step],
) -> bool {
    match problem_of(alloc, opening) {
        Some(problem) => is_taken(rt, alloc, &problem, steps),
        None => false,
    }
}

/// A single edit of a new board of these demands.
const ALONE: [(&[DemandRow], Step); 5] = [
    (
        &ONE,
        Step::Edit(Change::Add(b'D', b'A', b'B', 5000), Reply::Accepted(1), 1),
    ),
    (
        &ONE,
        Step::Edit(Change::Add(b'D', b'A', b'X', 1000), Reply::UnknownNode, 0),
    ),
    (
        &ONE,
        Step::Edit(Change::Add(b'D', b'A', b'A', 1000), Reply::SelfDemand, 0),
    ),
    (
        &GREAT,
        Step::Edit(
            Change::Add(b'Q', b'A', b'B', 16),
            Reply::TooMuch(17592186044416),
            0,
        ),
    ),
    (
        &GREAT,
        Step::Edit(Change::Add(b'Q', b'A', b'B', 15), Reply::Accepted(1), 1),
    ),
];

#[test]
fn each_edit_is_an_entry_with_its_reply(rt: HostRuntime) {
    for (opening, step) in &ALONE {
        assert!(rt; takes_all(&rt, rt.alloc(), opening, &[*step]));
    }
}

/// A demand is added twice, and an unknown one dropped.
const ADDED: [Step; 3] = [
    Step::Edit(Change::Add(b'D', b'A', b'B', 5000), Reply::Accepted(1), 1),
    Step::Edit(Change::Add(b'D', b'A', b'B', 5000), Reply::KnownDemand, 1),
    Step::Edit(Change::Drop(b'Z'), Reply::UnknownDemand, 1),
];

#[test]
fn an_added_demand_is_known(rt: HostRuntime) {
    assert!(rt; takes_all(&rt, rt.alloc(), &ONE, &ADDED));
}

/// Two cuts, one of them three times.
const EQUAL: [Step; 4] = [
    Step::Admit(0, false, 0, 1),
    Step::Admit(0, true, 0, 1),
    Step::Admit(3, false, 1, 2),
    Step::Admit(0, true, 0, 2),
];

#[test]
fn an_equal_cut_is_known(rt: HostRuntime) {
    assert!(rt; takes_all(&rt, rt.alloc(), &ONE, &EQUAL));
}

/// The cuts of all states, and edits of the demand A. From A to C there is one link, and a way of two links for the state in which it
/// fails.
const FOLLOWED: [Step; 10] = [
    Step::Admit(0, false, 0, 1),
    Step::Admit(1, false, 1, 2),
    Step::Admit(2, false, 2, 3),
    Step::Admit(3, false, 3, 4),
    Step::Edit(Change::Set(b'A', 24000), Reply::Accepted(1), 1),
    Step::Sides(&[24000, 24000, 24000, 48000]),
    Step::Edit(Change::Set(b'A', 0), Reply::Accepted(2), 2),
    Step::Sides(&[0, 0, 0, 0]),
    Step::Edit(Change::Drop(b'A'), Reply::Accepted(3), 3),
    Step::Sides(&[0, 0, 0, 0]),
];

#[test]
fn each_right_side_follows_by_the_distance_in_its_state(rt: HostRuntime) {
    assert!(rt; takes_all(&rt, rt.alloc(), &ONE, &FOLLOWED));
}

/// Memory for two edits is taken, and edits leave some of it.
const SPARED: [Step; 16] = [
    Step::Spare(0),
    Step::Reserve(2),
    Step::Edit(Change::Set(b'A', 24000), Reply::Accepted(1), 1),
    Step::Spare(1),
    Step::Edit(Change::Set(b'Z', 24000), Reply::UnknownDemand, 1),
    Step::Spare(1),
    Step::Edit(Change::Add(b'D', b'A', b'B', 5000), Reply::Accepted(2), 2),
    Step::Spare(1),
    Step::Edit(Change::Drop(b'D'), Reply::Accepted(3), 3),
    Step::Spare(1),
    Step::Edit(Change::Add(b'D', b'A', b'B', 5000), Reply::Accepted(4), 4),
    Step::Spare(1),
    Step::Edit(Change::Set(b'A', 24000), Reply::Accepted(5), 5),
    Step::Spare(0),
    Step::Edit(Change::Set(b'A', 24000), Reply::Accepted(6), 6),
    Step::Spare(0),
];

#[test]
fn each_set_of_a_known_demand_takes_one_of_the_spare(rt: HostRuntime) {
    assert!(rt; takes_all(&rt, rt.alloc(), &ONE, &SPARED));
}

/// Memory is taken for three edits and then for two, and then cuts are admitted.
const KEPT: [Step; 5] = [
    Step::Reserve(3),
    Step::Reserve(2),
    Step::Admit(0, false, 0, 1),
    Step::Admit(0, true, 0, 1),
    Step::Spare(3),
];

#[test]
fn a_cut_leaves_the_spare_as_it_was(rt: HostRuntime) {
    assert!(rt; takes_all(&rt, rt.alloc(), &ONE, &KEPT));
}

/// Two cuts, and then an edit.
const TWO_CUTS: [Step; 2] = [Step::Admit(0, false, 0, 1), Step::Admit(3, false, 1, 2)];

const THEN_SET: [Step; 1] = [Step::Edit(Change::Set(b'A', 24000), Reply::Accepted(1), 1)];

/// Whether a snapshot is of this version and position, with these right sides.
fn is_of(snapshot: &Snapshot, version: u64, position: u64, sides: &[u128]) -> bool {
    (snapshot.version, snapshot.position) == (version, position)
        && have_sides(snapshot.cuts.items(), sides)
}

/// Whether a snapshot is the one before the edit, and a copy of it too.
fn is_before(snapshot: &Snapshot) -> bool {
    let is_copied = match snapshot.copy() {
        Ok(copy) => is_of(&copy, 0, 2, &[12000, 24000]),
        Err(_) => false,
    };
    is_copied && is_of(snapshot, 0, 2, &[12000, 24000])
}

/// Whether the board's snapshot is now the one after the edit.
fn is_after(board: &Board) -> bool {
    match board.snapshot() {
        Ok(after) => is_of(&after, 1, 3, &[24000, 48000]),
        Err(_) => false,
    }
}

/// Whether a snapshot that is taken before an edit stays as it was, and one that is taken after it has the new right sides.
fn stays<R: Threads + Sync>(rt: &R, alloc: Global, given: &mut Given) -> bool {
    match given.board.snapshot() {
        Ok(before) => {
            takes_each(rt, alloc, given, &THEN_SET) && is_after(&given.board) && is_before(&before)
        }
        Err(_) => false,
    }
}

/// Whether a snapshot from before an edit stays as it was, and one from after it has the new right sides, on a new board of the problem
/// with two cuts.
fn stays_on_board<R: Threads + Sync>(rt: &R, alloc: Global, problem: &Problem) -> bool {
    match open_board(alloc, problem) {
        Some(mut given) => {
            takes_each(rt, alloc, &mut given, &TWO_CUTS) && stays(rt, alloc, &mut given)
        }
        None => false,
    }
}

/// Whether a snapshot from before an edit stays as it was, and one from after it has the new right sides, on a new board of one demand.
fn stays_on_new<R: Threads + Sync>(rt: &R, alloc: Global) -> bool {
    match problem_of(alloc, &ONE) {
        Some(problem) => stays_on_board(rt, alloc, &problem),
        None => false,
    }
}

#[test]
fn right_sides_follow_edits(rt: HostRuntime) {
    assert!(rt; stays_on_new(&rt, rt.alloc()));
}
