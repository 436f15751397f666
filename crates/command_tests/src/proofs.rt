use crate::plans::USAGE;
use crate::runs::{comes_to, run_words};
use planner_commands::Status;
use std::sync::Wait;
use std::thread::Threads;

/// Words of a proof, the words that check its report, the cost, the least and the greatest number of splits, and the last lines that are
/// right.
type Proof = (
    &'static str,
    &'static str,
    &'static str,
    (usize, usize),
    &'static [&'static str],
);

/// Plans with their branch trees. For each of the triangle's three modules six numbers, from 0 on, cost less than 30.000, so that a tree
/// has fewer splits than 7 times 7 times 7. For four parallel links the bound of 14.000 closes the whole box. With one split of the
/// triangle there is a leaf that no certificate closes.
const PROOFS: [Proof; 3] = [
    (
        "prove 343 triangle reconfigure",
        "check triangle reconfigure default report",
        "cost 30.000 bound 20.000 ",
        (1, 342),
        &["# cheapest"],
    ),
    (
        "prove 1 four default single",
        "check four default single report",
        "cost 14.000 bound 14.000 ",
        (0, 0),
        &["# cheapest"],
    ),
    (
        "prove 1 triangle reconfigure",
        "check triangle reconfigure default report",
        "cost 30.000 bound 20.000 ",
        (1, 1),
        &["# above 20.000", "# above 25.000"],
    ),
];

/// How many lines begin with this.
fn lines_with(text: &str, front: &str) -> usize {
    text.lines().filter(|line| line.starts_with(front)).count()
}

/// Whether the last line is one of these.
fn ends_with(text: &str, lasts: &[&str]) -> bool {
    match text.lines().last() {
        Some(line) => lasts.iter().any(|last| line == *last),
        None => false,
    }
}

/// Whether the text of a row contains what the row says, and its report is accepted.
fn proves<R: AllocGlobal + Threads + Wait + Sync>(rt: &R, row: &Proof) -> bool {
    let (words, check, cost, (least, most), lasts) = *row;
    let Some(run) = run_words(rt, words, &[], &[], &[]) else {
        return false;
    };
    let files = [("report", run.out.bytes())];
    let answer = (Status::Done, "accepted 1\n");
    let text = run.text();
    let splits = lines_with(text, "# split ");
    run.status == Status::Done
        && text.contains(cost)
        && least <= splits
        && splits <= most
        && ends_with(text, lasts)
        && comes_to(rt, check, &files, 4, answer)
}

#[test]
fn plans_are_proved_cheapest(rt: HostRuntime) {
    for row in &PROOFS {
        assert!(rt; proves(&rt, row), "{}", row.0);
    }
}

/// Words of a proof that fails, how many files they fetch, and the status and the text with which they end.
type Row = (&'static str, u32, Status, &'static str);

const REFUSALS: [Row; 9] = [
    ("prove", 0, Status::BadWords, USAGE),
    ("prove triangle", 0, Status::BadWords, USAGE),
    ("prove 0 triangle", 0, Status::BadWords, USAGE),
    ("prove 00001 triangle", 0, Status::BadWords, USAGE),
    ("prove 10000 triangle", 0, Status::BadWords, USAGE),
    ("prove 1 X", 1, Status::NoFile, "no file X\n"),
    (
        "prove 1 free reconfigure",
        2,
        Status::BadNetwork,
        "refused network free-module at 0\n",
    ),
    ("prove 1 free X", 2, Status::NoFile, "no file X\n"),
    (
        "prove 1 chain reconfigure last",
        3,
        Status::NotSurvivable,
        "not survivable: state 1 f demand D1\n",
    ),
];

#[test]
fn proofs_are_refused(rt: HostRuntime) {
    for (words, fetched, status, text) in &REFUSALS {
        assert!(rt;
            comes_to(&rt, words, &[], *fetched, (*status, text)),
            "{words}"
        );
    }
}
