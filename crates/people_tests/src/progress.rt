use net_core::Places;
use outside_io::{Gate, RoundFigures, TreeFigures};
use plan_progress::{Teller, TellingGate};
use std::alloc::Global;
use std::cell::Cell;

/// A teller that counts the lines that it is told, and how many of them are one expected line.
#[derive(Drop)]
struct Listener {
    line: &'static [u8],
    lines: Cell<u64>,
    same: Cell<u64>,
}

impl Teller for Listener {
    fn tell(&self, line: &[u8]) {
        self.lines.set(self.lines.get().saturating_add(1));
        if line == self.line {
            self.same.set(self.same.get().saturating_add(1));
        }
    }
}

/// A teller that expects this line.
fn waiting_for(line: &'static [u8]) -> Listener {
    Listener {
        line,
        lines: Cell::new(0),
        same: Cell::new(0),
    }
}

/// The figures at the end of a round with two cuts that are worth 18.000.
const ROUND: RoundFigures = RoundFigures {
    round: 1,
    cuts: 2,
    raw_num: 18000,
    raw_den: 1,
    routed: 4,
};

/// The line of that round.
const ROUND_LINE: &[u8] = b"round 1: 2 cuts, worth 18.000, 4 states carried\n";

/// How many splits a tree may have, how many it makes, whether the gate is quiet, how many lines are told of them, and one of these lines.
type SplitRow = (u32, u32, bool, u64, &'static [u8]);

/// A line is told at each tenth: at each tenth split of 100, at each of 5, and at the splits 1,000, 2,000 and so on to 9,000, and 9,999 of
/// 9,999. The gap of a plan of 30.000 with a bound of 28.000 is two thirtieths.
const SPLITS: [SplitRow; 8] = [
    (100, 9, false, 0, b""),
    (
        100,
        10,
        false,
        1,
        b"tree: 10 of 100 splits, cost 30.000, at least 28.000, gap 6.7 %, 5 boxes open\n",
    ),
    (
        100,
        100,
        false,
        10,
        b"tree: 100 of 100 splits, cost 30.000, at least 28.000, gap 6.7 %, 5 boxes open\n",
    ),
    (
        5,
        5,
        false,
        5,
        b"tree: 2 of 5 splits, cost 30.000, at least 28.000, gap 6.7 %, 5 boxes open\n",
    ),
    (
        1,
        1,
        false,
        1,
        b"tree: 1 of 1 split, cost 30.000, at least 28.000, gap 6.7 %, 5 boxes open\n",
    ),
    (
        9999,
        9999,
        false,
        10,
        b"tree: 1000 of 9999 splits, cost 30.000, at least 28.000, gap 6.7 %, 5 boxes open\n",
    ),
    (100, 100, true, 0, b""),
    (0, 0, false, 0, b""),
];

/// Whether as many lines are told of the splits as the row says, among them the line of the row, if it has one.
fn is_told(alloc: Global, row: &SplitRow) -> bool {
    let listener = waiting_for(row.4);
    let gate = TellingGate::new(alloc, Places::Three, row.2, &listener);
    for before in 0..row.1 {
        gate.split(TreeFigures {
            splits: before + 1,
            limit: row.0,
            cost: 30000,
            bound: 28000,
            open: 5,
        });
    }
    listener.lines.get() == row.3 && (listener.same.get() == 1) == (row.3 > 0)
}

/// How many lines are told of the round.
fn rounds_told(alloc: Global, quiet: bool) -> u64 {
    let listener = waiting_for(ROUND_LINE);
    let gate = TellingGate::new(alloc, Places::Three, quiet, &listener);
    gate.rounded(1, ROUND);
    listener.same.get()
}

#[test]
fn each_tenth_of_the_splits_is_told(rt: HostRuntime) {
    for row in &SPLITS {
        assert!(rt; is_told(rt.alloc(), row), "{} of {}", row.1, row.0);
    }
}

#[test]
fn rounds_are_told_unless_quiet(rt: HostRuntime) {
    assert!(rt; rounds_told(rt.alloc(), false) == 1);
    assert!(rt; rounds_told(rt.alloc(), true) == 0);
}
