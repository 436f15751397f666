//! Tests of a separator for a caller at a desk, whose workers run in parallel.
ghost use Rattle.std.{specs.Prelude.{◌≡◌, ◌≤◌, ◌^◌, IfSome, length}, specs.Thread.IsSync};
ghost use Rattle.hint_board.specs.Hints.{hint_links};
ghost use Rattle.turn_lock.specs.Passes.{IsPassOf, opening_of, own_units};
ghost use Rattle.board_desk.specs.Turns.{AreAtOneDesk, IsAtDesk, IsSameCaller, board_made, caller_units};

use crate::checked::separate_checked;
use crate::problems::{one_demand, open_board};
use board_desk::Caller;
use cut_pool::{Board, Snapshot};
use hint_board::HintBoard;
use net_core::{Caps, CutLine, List, NoMemory, Problem, discard};
use outside_io::OpenGate;
use plan_types::Spot;
use separation_workers::{Hold, Workers};
use separator::{OneByOne, Separated, StateAnswer};
use std::alloc::Global;
use std::sync::Wait;
use std::thread;
use std::thread::Threads;
use turn_lock::{Desk, Pass};
use worked_networks::{DemandRow, LinkRow, TEN, network, problem};

/// A problem, with a hint board for its network.
#[derive(Drop)]
struct Fixture {
    problem: Problem,
    hints: HintBoard,
    ghost links: { hint_links hints ≡ length problem.net.links },
}

/// A problem, with an empty hint board.
fn fixture_of(alloc: Global, problem: Problem) -> Option<Fixture> {
    let hints = HintBoard::new(alloc, problem.net.links().len() as u32).ok()?;
    Some(Fixture { problem, hints })
}

/// The triangle, with an empty hint board.
fn of_triangle(alloc: Global) -> Option<Fixture> {
    fixture_of(alloc, one_demand(alloc)?)
}

/// Capacities with these numbers, over the scale 1.
fn caps_of(alloc: Global, numbers: &[u128]) -> Option<Caps> {
    let nums = List::from_slice(alloc, numbers).ok()?;
    Some(Caps { scale: 1, nums })
}

/// A desk with a new board of the problem, and the pass with all units.
fn open_desk(alloc: Global, problem: &Problem) -> Option<(Desk<Board<'_>>, Pass<Board<'_>>)>
    ensures own { IfSome result (λ d. IsPassOf d.0 d.1) }
    ensures units { IfSome result (λ d. own_units d.1 ≡ 2 ^ 32) }
    ensures net { IfSome result (λ d. (opening_of d.0).net.now ≡ problem.now.net) }
    ensures states { IfSome result (λ d. (opening_of d.0).states.now ≡ problem.now.states) }
{
    Desk::new(alloc, open_board(alloc, problem)?).ok()
}

/// What a caller is answered at capacities, after a look at the board. A hold may keep one of its workers waiting.
fn answered<R: Threads + Wait>(
    rt: &R,
    alloc: Global,
    hold: &Hold,
    fixture: &Fixture,
    caps: &Caps,
    caller: &mut Caller,
) -> Option<List<StateAnswer>>
    requires own { IsAtDesk caller.old }
    requires net { fixture.now.problem.net ≡ (board_made caller.old).net.now }
    requires states { fixture.now.problem.states ≡ (board_made caller.old).states.now }
    ensures { IsSameCaller caller.old caller.new }
{
    discard(caller.snapshot(rt));
    let mut separator = Workers::new(rt, alloc, &OpenGate, hold, &fixture.hints, caller.take());
    let answers = separate_checked(alloc, &mut separator, &fixture.problem, caps);
    *caller = separator.into_caller();
    answers.ok().flatten()
}

/// What a caller alone is answered at a new desk.
fn at_new_desk<R: Threads + Wait>(
    rt: &R,
    alloc: Global,
    hold: &Hold,
    fixture: &Fixture,
    caps: &Caps,
) -> Option<List<StateAnswer>> {
    let (desk, pass) = open_desk(alloc, &fixture.problem)?;
    let mut caller = Caller::new(1, &desk, pass);
    answered(rt, alloc, hold, fixture, caps, &mut caller)
}

/// What a caller alone is answered at a new desk, at capacities of these numbers.
fn at_numbers<R: Threads + Wait>(
    rt: &R,
    alloc: Global,
    hold: &Hold,
    fixture: &Fixture,
    numbers: &[u128],
) -> Option<List<StateAnswer>> {
    let caps = caps_of(alloc, numbers)?;
    at_new_desk(rt, alloc, hold, fixture, &caps)
}

/// Whether two cuts are of the same state and lengths.
fn are_same(one: &CutLine, two: &CutLine) -> bool {
    one.state == two.state && one.lengths.items() == two.lengths.items()
}

/// Whether two answers are of the same state and kind, and of the same cut at the same spot.
fn are_alike(a: &StateAnswer, b: &StateAnswer) -> bool {
    if a.state != b.state {
        return false;
    }
    match (&a.answer, &b.answer) {
        (Separated::Routed(_), Separated::Routed(_)) => true,
        (Separated::Violated(one, here), Separated::Violated(two, there)) => {
            here == there && are_same(one, two) && one.right == two.right
        }
        (Separated::Wide(_), Separated::Wide(_)) => true,
        _ => false,
    }
}

/// What a new board answers at these capacities.
fn on_board(alloc: Global, problem: &Problem, caps: &Caps) -> Option<List<StateAnswer>> {
    let mut separator = OneByOne::new(alloc, open_board(alloc, problem)?);
    separate_checked(alloc, &mut separator, problem, caps)
        .ok()
        .flatten()
}

/// Whether there are as many answers of the one as of the other, and all are alike.
fn are_all_alike(one: &Option<List<StateAnswer>>, two: &Option<List<StateAnswer>>) -> bool {
    let (Some(one), Some(two)) = (one, two) else {
        return false;
    };
    for (a, b) in one.items().iter().zip(two.items()) {
        if !are_alike(a, b) {
            return false;
        }
    }
    one.len() == two.len()
}

/// Whether a caller alone is answered as a board.
fn agree<R: Threads + Wait>(rt: &R, alloc: Global, fixture: &Fixture, caps: &Caps) -> bool {
    let one = on_board(alloc, &fixture.problem, caps);
    let two = at_new_desk(rt, alloc, &Hold::open(), fixture, caps);
    are_all_alike(&one, &two)
}

/// Whether a caller alone is answered as a board is, on the triangle at capacities of these numbers and with an empty hint board.
fn agree_at_triangle<R: Threads + Wait>(rt: &R, alloc: Global, numbers: &[u128]) -> bool {
    let fixture = of_triangle(alloc);
    let caps = caps_of(alloc, numbers);
    let is_so = match (&fixture, &caps) {
        (Some(fixture), Some(caps)) => agree(rt, alloc, fixture, caps),
        _ => false,
    };
    discard(fixture);
    is_so
}

/// Numbers of the triangle's links, in thousandths. They carry the demand in all states, in all but the one where AC fails, and in none; and
/// in the last row a number is too wide.
const ROWS: [[u128; 3]; 4] = [
    [12000, 12000, 12000],
    [11999, 12000, 12000],
    [0, 0, 0],
    [12000, 12000, 1 << 62],
];

/// Whether a caller alone is answered as a board at the numbers of each row.
fn all_agree<R: Threads + Wait>(rt: &R, alloc: Global, rows: &[[u128; 3]]) -> bool {
    for numbers in rows {
        if !agree_at_triangle(rt, alloc, numbers) {
            return false;
        }
    }
    true
}

#[test]
fn a_caller_alone_is_answered_as_a_board(rt: HostRuntime) {
    assert!(rt; all_agree(&rt, rt.alloc(), &ROWS));
}

/// Whether the answer names a cut that is in the pool at its spot.
fn is_pooled(answer: &StateAnswer, cuts: &[CutLine]) -> bool {
    match &answer.answer {
        Separated::Violated(line, Spot::Pool(index)) => match cuts.get(*index as usize) {
            Some(cut) => are_same(cut, line),
            None => false,
        },
        _ => false,
    }
}

/// How many answers name a cut that is at its spot in the pool that was looked at.
fn pooled_count(
    answers: &Option<List<StateAnswer>>,
    snapshot: &Result<Snapshot, NoMemory>,
) -> usize {
    let (Some(answers), Ok(snapshot)) = (answers, snapshot) else {
        return 0;
    };
    let cuts = snapshot.cuts.items();
    answers
        .items()
        .iter()
        .filter(|answer| is_pooled(answer, cuts))
        .count()
}

/// How many states have a cut at its spot, as the caller then sees the pool; and the caller.
fn pooled_states<'d, 'a, R: Threads + Wait>(
    rt: &R,
    alloc: Global,
    fixture: &'a Fixture,
    caps: &Caps,
    caller: Caller<'d, 'a>,
) -> (usize, Caller<'d, 'a>)
    requires own { IsAtDesk caller }
    requires net { fixture.now.problem.net ≡ (board_made caller).net.now }
    requires states { fixture.now.problem.states ≡ (board_made caller).states.now }
    ensures desk { AreAtOneDesk caller.entry result.1 }
    ensures units { caller_units result.1 ≡ caller_units caller.entry }
{
    let mut caller = caller;
    let answers = answered(rt, alloc, &Hold::open(), fixture, caps, &mut caller);
    let snapshot = caller.snapshot(rt);
    (pooled_count(&answers, &snapshot), caller)
}

/// Lets a caller split in two, which separate at once. For each of them, the number of states that have a cut at its spot.
fn at_once<'d, 'a, R: Threads + Wait + Sync>(
    rt: &R,
    alloc: Global,
    fixture: &'a Fixture,
    caps: &Caps,
    caller: Caller<'d, 'a>,
) -> (usize, usize, Caller<'d, 'a>)
    requires own { IsAtDesk caller }
    requires units { 2 ≤ caller_units caller }
    requires net { fixture.now.problem.net ≡ (board_made caller).net.now }
    requires states { fixture.now.problem.states ≡ (board_made caller).states.now }
    ensures desk { AreAtOneDesk caller.entry result.2 }
    ensures units { caller_units result.2 ≡ caller_units caller.entry }
{
    let (one, two) = caller.split(2);
    let ((of_one, one), (of_two, two)) = thread::join(
        rt,
        move || -> (usize, Caller)
            requires sync { IsSync R.row }
            requires own { IsAtDesk one }
            requires net { fixture.now.problem.net ≡ (board_made one).net.now }
            requires states { fixture.now.problem.states ≡ (board_made one).states.now }
            ensures desk { AreAtOneDesk one.entry result.1 }
            ensures units { caller_units result.1 ≡ caller_units one.entry }
        { pooled_states(rt, alloc, fixture, caps, one) },
        move || -> (usize, Caller)
            requires sync { IsSync R.row }
            requires own { IsAtDesk two }
            requires net { fixture.now.problem.net ≡ (board_made two).net.now }
            requires states { fixture.now.problem.states ≡ (board_made two).states.now }
            ensures desk { AreAtOneDesk two.entry result.1 }
            ensures units { caller_units result.1 ≡ caller_units two.entry }
        { pooled_states(rt, alloc, fixture, caps, two) },
    );
    (of_one, of_two, one.meet(two))
}

/// For two callers that separate at once at capacities of nothing: how many states have a cut at its spot for each of them, and how many
/// entries and cuts the board has then.
fn counts_by_two<R: Threads + Wait + Sync>(
    rt: &R,
    alloc: Global,
    fixture: &Fixture,
) -> Option<(usize, usize, usize, u32)> {
    let caps = caps_of(alloc, &[0, 0, 0])?;
    let (desk, pass) = open_desk(alloc, &fixture.problem)?;
    let caller = Caller::new(1, &desk, pass);
    let (of_one, of_two, caller) = at_once(rt, alloc, fixture, &caps, caller);
    let pass = caller.into_pass();
    let board = desk.close(pass);
    Some((of_one, of_two, board.entries().len(), board.cuts()))
}

/// Whether each of two callers on the triangle has a cut of each state, which the board has once.
fn are_pooled_once<R: Threads + Wait + Sync>(rt: &R, alloc: Global) -> bool {
    let fixture = of_triangle(alloc);
    let is_so = match &fixture {
        Some(fixture) => counts_by_two(rt, alloc, fixture) == Some((4, 4, 4, 4)),
        None => false,
    };
    discard(fixture);
    is_so
}

#[test]
fn callers_at_once_pool_each_cut_once(rt: HostRuntime) {
    assert!(rt; are_pooled_once(&rt, rt.alloc()));
}

/// While a worker is held: how many states are answered, how many of them workers have solved, and whether another state was solved
/// meanwhile.
fn answered_beside<R: Threads + Wait>(
    rt: &R,
    alloc: Global,
    fixture: &Fixture,
) -> Option<(usize, u64, bool)> {
    let hold = Hold::until(1, 2);
    let answers = at_numbers(rt, alloc, &hold, fixture, &[0, 0, 0])?;
    Some((answers.len(), hold.solved(), hold.was_kept()))
}

/// Whether all states of the triangle are answered, and another one was solved while a worker was held.
fn goes_on<R: Threads + Wait>(rt: &R, alloc: Global) -> bool {
    let fixture = of_triangle(alloc);
    let is_so = match &fixture {
        Some(fixture) => answered_beside(rt, alloc, fixture) == Some((4, 4, true)),
        None => false,
    };
    discard(fixture);
    is_so
}

#[test]
fn a_worker_goes_on_while_another_is_held(rt: HostRuntime) {
    assert!(rt; goes_on(&rt, rt.alloc()));
}

/// Whether the hint board has the lengths.
fn is_shown(hints: &HintBoard, lengths: &[u32]) -> bool {
    for at in 0..100 {
        if let Some(shown) = hints.get(at) {
            if shown.items() == lengths {
                return true;
            }
        }
    }
    false
}

/// The lengths of the cut that is found of a state; empty if none is.
fn lengths_found(answer: &StateAnswer) -> &[u32] {
    match &answer.answer {
        Separated::Violated(line, _) => line.lengths.items(),
        _ => &[],
    }
}

/// Whether all lengths are 0 or 1.
fn are_ones(lengths: &[u32]) -> bool {
    for length in lengths {
        if *length > 1 {
            return false;
        }
    }
    true
}

/// Whether the answer has a cut of lengths of 0 and 1, which are on the hint board.
fn has_shown(hints: &HintBoard, answer: &StateAnswer) -> bool {
    let lengths = lengths_found(answer);
    lengths.len() > 0 && are_ones(lengths) && is_shown(hints, lengths)
}

/// Whether the answer has a cut of other lengths, which aren't on the hint board.
fn has_other(hints: &HintBoard, answer: &StateAnswer) -> bool {
    let lengths = lengths_found(answer);
    !are_ones(lengths) && !is_shown(hints, lengths)
}

/// How many states have a cut of lengths of 0 and 1 that are on the hint board, and how many one of other lengths that aren't.
fn count_shown(hints: &HintBoard, answers: &[StateAnswer]) -> (usize, usize) {
    let ones = answers.iter().filter(|answer| has_shown(hints, answer));
    let others = answers.iter().filter(|answer| has_other(hints, answer));
    (ones.count(), others.count())
}

/// Two nodes, A and B, with a link to each of three others, and a link between two of these.
const BESIDE: [LinkRow; 7] = [
    (0, 2, 0, &TEN),
    (0, 3, 0, &TEN),
    (0, 4, 0, &TEN),
    (1, 2, 0, &TEN),
    (1, 3, 0, &TEN),
    (1, 4, 0, &TEN),
    (2, 3, 0, &TEN),
];

/// Demands between A and B, and among the three other nodes. Along lengths of 1, and 2 on the last link, each has a distance of 2.
const OVER_TWO: [DemandRow; 4] = [(0, 1, 12000), (2, 3, 12000), (3, 4, 12000), (2, 4, 12000)];

/// The seven links with these demands, and an empty hint board.
fn of_seven(alloc: Global) -> Option<Fixture> {
    let net = network(alloc, 5, &BESIDE).ok()?;
    fixture_of(alloc, problem(alloc, net, &OVER_TWO).ok()?)
}

/// After one separation: how many states have a cut whose lengths are on the hint board, and how many one whose lengths aren't.
fn shown_at_once<R: Threads + Wait>(
    rt: &R,
    alloc: Global,
    fixture: &Fixture,
    numbers: &[u128],
) -> Option<(usize, usize)> {
    let answers = at_numbers(rt, alloc, &Hold::open(), fixture, numbers)?;
    Some(count_shown(&fixture.hints, answers.items()))
}

/// Capacities of the triangle that carry nothing.
const NOTHING: [u128; 3] = [0, 0, 0];

/// Capacities of the seven links, in thousandths, that are too little along lengths of 1 and 2, though enough around any set of nodes.
const TOO_LITTLE: [u128; 7] = [12000, 12000, 12000, 12000, 12000, 12000, 1000];

/// Whether these numbers of states have, after one separation, a cut whose lengths are on the hint board and one whose lengths aren't.
fn are_shown<R: Threads + Wait>(
    rt: &R,
    alloc: Global,
    fixture: &Option<Fixture>,
    numbers: &[u128],
    want: (usize, usize),
) -> bool {
    match fixture {
        Some(fixture) => shown_at_once(rt, alloc, fixture, numbers) == Some(want),
        None => false,
    }
}

/// Whether all four states of the triangle have a cut whose lengths are on the hint board.
fn shows_three<R: Threads + Wait>(rt: &R, alloc: Global) -> bool {
    let fixture = of_triangle(alloc);
    let is_so = are_shown(rt, alloc, &fixture, &NOTHING, (4, 0));
    discard(fixture);
    is_so
}

/// Whether seven states of the seven links have a cut whose lengths are on the hint board, and one has a cut whose lengths aren't.
fn shows_seven<R: Threads + Wait>(rt: &R, alloc: Global) -> bool {
    let fixture = of_seven(alloc);
    let is_so = are_shown(rt, alloc, &fixture, &TOO_LITTLE, (7, 1));
    discard(fixture);
    is_so
}

#[test]
fn lengths_of_0_and_1_are_shown(rt: HostRuntime) {
    assert!(rt; shows_three(&rt, rt.alloc()));
    assert!(rt; shows_seven(&rt, rt.alloc()));
}

/// Whether the first answer has a cut of these lengths.
fn is_first(answers: &Option<List<StateAnswer>>, want: &[u32]) -> bool {
    let Some(answers) = answers else {
        return false;
    };
    match answers.items() {
        [first, ..] => lengths_found(first) == want,
        [] => false,
    }
}

/// Whether the state without failures has a cut of these lengths at capacities of nothing, after a caller at another desk with the same
/// hint board has separated at other numbers.
fn has_lengths<R: Threads + Wait>(
    rt: &R,
    alloc: Global,
    fixture: &Fixture,
    before: &[u128],
    want: &[u32],
) -> bool {
    let before = at_numbers(rt, alloc, &Hold::open(), fixture, before);
    let after = at_numbers(rt, alloc, &Hold::open(), fixture, &NOTHING);
    before.is_some() && is_first(&after, want)
}

/// Numbers at which one caller separates first, and the lengths of the cut that another caller is then answered: those around A if the hint
/// board is empty, and those around C if these are on it.
type Shown = ([u128; 3], [u32; 3]);

const SHOWN: [Shown; 2] = [
    ([12000, 12000, 12000], [1, 0, 1]),
    ([12000, 0, 0], [0, 1, 1]),
];

/// Whether the other caller is answered with the row's lengths, on a triangle whose hint board is empty at first.
fn is_tried_first<R: Threads + Wait>(rt: &R, alloc: Global, row: &Shown) -> bool {
    let fixture = of_triangle(alloc);
    let is_so = match &fixture {
        Some(fixture) => has_lengths(rt, alloc, fixture, &row.0, &row.1),
        None => false,
    };
    discard(fixture);
    is_so
}

/// Whether the lengths of each row are tried first.
fn are_tried_first<R: Threads + Wait>(rt: &R, alloc: Global, rows: &[Shown]) -> bool {
    for row in rows {
        if !is_tried_first(rt, alloc, row) {
            return false;
        }
    }
    true
}

#[test]
fn lengths_that_are_shown_are_tried_first(rt: HostRuntime) {
    assert!(rt; are_tried_first(&rt, rt.alloc(), &SHOWN));
}
