//! Tests of the hint board.
ghost use Rattle.std.{specs.Prelude.{◌≡◌, ◌≤◌, IfOk}, specs.Thread.IsSync};
ghost use Rattle.hint_board.{specs.Hints.{IsHintOf, hint_links}, specs.Priced.AreHintLengths};

use hint_board::{Hint, HintBoard};
use net_core::{Lengths, List, NoMemory};
use route_law::law::zeros_and_ones_are_priced;
use std::alloc::Global;
use std::sync::Wait;
use std::test::Fail;
use std::thread;
use std::thread::Threads;

/// Lengths of three links, each 0 or 1, of which the last is 1.
fn lengths_of(alloc: Global, first: u32, second: u32) -> Result<Lengths, NoMemory>
    requires { (first ≤ 1) × (second ≤ 1) }
    ensures { IfOk result (AreHintLengths 3) }
{
    zeros_and_ones_are_priced();
    List::from_slice(alloc, &[first, second, 1])
}

/// Posts lengths of three links once.
fn post_one<R: Wait>(
    rt: &R,
    alloc: Global,
    board: &HintBoard,
    numbers: (u32, u32),
) -> Result<Hint, NoMemory>
    requires links { hint_links board.now ≡ 3 }
    requires numbers { (numbers.0 ≤ 1) × (numbers.1 ≤ 1) }
    ensures { IfOk result (IsHintOf board.now) }
{
    Ok(board.post(rt, lengths_of(alloc, numbers.0, numbers.1)?)?)
}

/// Posts lengths of these numbers this many times. Tells whether each time both the hint and its index show what was posted.
fn are_posted<R: Wait>(
    rt: &R,
    alloc: Global,
    board: &HintBoard,
    numbers: (u32, u32),
    times: u32,
) -> bool
    requires links { hint_links board.now ≡ 3 }
    requires numbers { (numbers.0 ≤ 1) × (numbers.1 ≤ 1) }
{
    let posted = [numbers.0, numbers.1, 1];
    for _ in 0..times {
        let Ok(hint) = post_one(rt, alloc, board, numbers) else {
            return false;
        };
        let found = board.get(hint.at());
        let is_found = found.is_some_and(|lengths| lengths.items() == posted.as_slice());
        if !is_found || board.seen(&hint).items() != posted.as_slice() {
            return false;
        }
    }
    true
}

/// Whether the vector at an index is shown, and its first length is this number.
fn begins_with(board: &HintBoard, at: u64, first: u32) -> bool {
    match board.get(at) {
        Some(lengths) => lengths.items().first() == Some(&first),
        None => false,
    }
}

/// How many vectors whose first length is this number are shown below an index.
fn shown_with(board: &HintBoard, below: u64, first: u32) -> u64 {
    let mut count = 0u64;
    for at in 0..below {
        if begins_with(board, at, first) {
            count = count.wrapping_add(1);
        }
    }
    count
}

/// How many vectors whose first length is 0, and how many whose first length is 1, are shown below an index.
fn shown(board: &HintBoard, below: u64) -> (u64, u64) {
    (shown_with(board, below, 0), shown_with(board, below, 1))
}

/// Whether a board of three links shows nothing at first, and then all three vectors that are posted.
fn shows_all<R: Wait>(rt: &R, alloc: Global, board: &HintBoard) -> bool
    requires { hint_links board.now ≡ 3 }
{
    board.get(0).is_none()
        && are_posted(rt, alloc, board, (1, 0), 1)
        && are_posted(rt, alloc, board, (0, 1), 1)
        && are_posted(rt, alloc, board, (1, 1), 1)
        && shown(board, 10) == (1, 2)
}

#[test]
fn a_hint_and_its_index_show_the_posted_lengths(rt: HostRuntime) -> Result<(), Fail> {
    let board = HintBoard::new(rt.alloc(), 3)?;
    assert!(rt; shows_all(&rt, rt.alloc(), &board));
    Ok(())
}

/// Lets two threads post lengths this many times each. Tells whether each time the lengths were shown to the thread that posted them.
fn are_posted_by_two<R: Threads + Wait + Sync>(
    rt: &R,
    alloc: Global,
    board: &HintBoard,
    times: u32,
) -> bool
    requires { hint_links board.now ≡ 3 }
{
    let (one, other) = thread::join(
        rt,
        move || -> bool
            requires sync { IsSync R.row }
            requires links { hint_links board.now ≡ 3 }
        { are_posted(rt, alloc, board, (1, 0), times) },
        move || -> bool
            requires sync { IsSync R.row }
            requires links { hint_links board.now ≡ 3 }
        { are_posted(rt, alloc, board, (0, 1), times) },
    );
    one && other
}

#[test]
fn two_threads_post_and_look_at_once(rt: HostRuntime) -> Result<(), Fail> {
    let board = HintBoard::new(rt.alloc(), 3)?;
    assert!(rt; are_posted_by_two(&rt, rt.alloc(), &board, 100));
    assert!(rt; shown(&board, 250) == (100, 100));
    Ok(())
}

/// Lets two threads post lengths once each, and hand their hints to the caller. Tells whether it sees what they posted.
fn are_seen_from_two<R: Threads + Wait + Sync>(rt: &R, alloc: Global, board: &HintBoard) -> bool
    requires { hint_links board.now ≡ 3 }
{
    let (one, other) = thread::join(
        rt,
        move || -> Result<Hint, NoMemory>
            requires sync { IsSync R.row }
            requires links { hint_links board.now ≡ 3 }
            ensures { IfOk result (IsHintOf board.entry.now) }
        { post_one(rt, alloc, board, (1, 0)) },
        move || -> Result<Hint, NoMemory>
            requires sync { IsSync R.row }
            requires links { hint_links board.now ≡ 3 }
            ensures { IfOk result (IsHintOf board.entry.now) }
        { post_one(rt, alloc, board, (0, 1)) },
    );
    let (Ok(one), Ok(other)) = (one, other) else {
        return false;
    };
    board.seen(&one).items() == [1, 0, 1].as_slice()
        && board.seen(&other).items() == [0, 1, 1].as_slice()
}

#[test]
fn a_hint_from_another_thread_shows_what_was_posted(rt: HostRuntime) -> Result<(), Fail> {
    let board = HintBoard::new(rt.alloc(), 3)?;
    assert!(rt; are_seen_from_two(&rt, rt.alloc(), &board));
    Ok(())
}
