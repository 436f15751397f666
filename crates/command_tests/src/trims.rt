use crate::runs::{comes_to, run_words};
use planner_commands::Status;
use std::sync::Wait;
use std::thread::Threads;

/// Words of a trimming, words that check its report, the cost with the bound and the raw value, and how the comment lines begin.
type Trim = (
    &'static str,
    &'static str,
    &'static str,
    &'static [&'static str],
);

/// Trimmed plans. On four parallel links, each of which may fail, 10 units need 14 modules: with 13 of them at most 9 are left when the
/// link with most fails. On the triangle one module of two is too few for 12 units. With large modules two links are enough.
const TRIMS: [Trim; 7] = [
    (
        "trim triangle",
        "check triangle default default report",
        "cost 10.000 bound 10.000 raw 6000 1 ",
        &["# blocked AC 0 cut 0 right 12000 lengths "],
    ),
    (
        "trim four default single",
        "check four default single report",
        "cost 14.000 bound 14.000 raw 40000 3 ",
        &[
            "# blocked L1 0 cut ",
            "# blocked L2 0 cut ",
            "# blocked L3 0 cut ",
            "# blocked L4 0 cut ",
        ],
    ),
    (
        "trim empty",
        "check empty default default report",
        "cost 0.000 bound 0.000 raw 0 1 ",
        &[],
    ),
    (
        "trim fixed plain",
        "check fixed plain default report",
        "cost 0.000 bound 0.000 raw 0 1 ",
        &[],
    ),
    (
        "trim setups charge",
        "check setups charge default report",
        "cost 13.000 bound 6.000 raw 6000 1 ",
        &["# blocked AC 0 cut 0 right 12000 lengths "],
    ),
    (
        "trim large default single",
        "check large default single report",
        "cost 2.000 bound 1.000 raw 150 1 ",
        &["# blocked L1 0 cut ", "# blocked L2 0 cut "],
    ),
    (
        "trim finer",
        "check finer default default report",
        "cost 10.000000 bound 10.000000 raw 6000050 1 ",
        &["# blocked AC 0 cut 0 right 12000100 lengths "],
    ),
];

/// Whether the lines that begin with `#` begin like this, one after another.
fn comments_begin(text: &str, commands: &[&str]) -> bool {
    let mut found = 0;
    for line in text.lines() {
        if line.starts_with("#") {
            if found >= commands.len() || !line.starts_with(commands[found]) {
                return false;
            }
            found += 1;
        }
    }
    found == commands.len()
}

/// Whether the text of a row contains what the row says, and its report is accepted.
fn trims<R: AllocGlobal + Threads + Wait + Sync>(rt: &R, row: &Trim) -> bool {
    let (words, check, cost, commands) = *row;
    let Some(run) = run_words(rt, words, &[], &[], &[]) else {
        return false;
    };
    let files = [("report", run.out.bytes())];
    let answer = (Status::Done, "accepted 1\n");
    let text = run.text();
    run.status == Status::Done
        && text.contains(cost)
        && comments_begin(text, commands)
        && comes_to(rt, check, &files, 4, answer)
}

#[test]
fn trimmed_plans_are_accepted(rt: HostRuntime) {
    for row in &TRIMS {
        assert!(rt; trims(&rt, row), "{}", row.0);
    }
}

/// Words of a trimming that gives no plan, how many files they fetch, and the status and the text with which they end.
type Row = (&'static str, u32, Status, &'static str);

const REFUSALS: [Row; 4] = [
    (
        "trim chain reconfigure last",
        3,
        Status::NotSurvivable,
        "not survivable: state 1 f demand D1\n",
    ),
    (
        "trim stuck",
        1,
        Status::BadNetwork,
        "refused network fixed-link at 93\n",
    ),
    (
        "trim triangle plain last",
        2,
        Status::BadFailures,
        "refused failures unused at 0\n",
    ),
    ("trim X", 1, Status::NoFile, "no file X\n"),
];

#[test]
fn trimmings_are_refused(rt: HostRuntime) {
    for (words, fetched, status, text) in &REFUSALS {
        assert!(rt;
            comes_to(&rt, words, &[], *fetched, (*status, text)),
            "{words}"
        );
    }
}
