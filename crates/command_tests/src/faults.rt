use crate::runs::{Ended, run_words};
use planner_commands::Status;
use std::sync::Wait;
use std::test::Fail;
use std::thread::Threads;

/// Words, how many files they fetch, and the status with which they end if nothing fails.
type Row = (&'static str, u32, Status);

/// Commands of each kind, and some that are refused.
const COMMANDS: [Row; 15] = [
    ("plan triangle", 1, Status::Done),
    ("plan triangle reconfigure single", 3, Status::Done),
    ("plan towns reconfigure single", 3, Status::Done),
    ("plan chain reconfigure last", 3, Status::NotSurvivable),
    ("plan stuck", 1, Status::BadNetwork),
    ("plan X", 1, Status::NoFile),
    ("session triangle reconfigure single set", 4, Status::Done),
    ("session towns default single set", 3, Status::Done),
    ("check triangle reconfigure single report", 4, Status::Done),
    (
        "check towns reconfigure single report",
        4,
        Status::BadReport,
    ),
    ("import triangle default default circle", 2, Status::Done),
    (
        "import triangle reconfigure single circle",
        4,
        Status::BadFlows,
    ),
    ("import idle default last circle", 3, Status::BadFlows),
    ("sample 1 6", 0, Status::Done),
    ("sample", 0, Status::BadWords),
];

/// What a sink holds if its put of this number fails: all pieces before, and half of this one.
fn taken_until(text: &[u8], put: u32) -> Option<&[u8]> {
    let begin = put as usize * 4096;
    let rest = text.get(begin..)?;
    if rest.is_empty() {
        return None;
    }
    text.get(..begin + rest.len().min(4096) / 2)
}

/// Runs the words where the fetches and puts of these numbers fail. A report is among the files.
fn with_report<R: AllocGlobal + Threads + Wait + Sync>(
    rt: &R,
    words: &str,
    report: &[u8],
    fetches: &[u32],
    puts: &[u32],
) -> Option<Ended> {
    run_words(rt, words, &[("report", report)], fetches, puts)
}

/// Whether the words end with nothing written, whichever of their fetches fails.
fn each_fetch_fails<R: AllocGlobal + Threads + Wait + Sync>(
    rt: &R,
    words: &str,
    fetches: u32,
    report: &[u8],
) -> bool {
    for fetch in 0..fetches {
        let fails = match with_report(rt, words, report, &[fetch], &[]) {
            Some(run) => run.is(Status::ReadFault, b"", (1, 0)),
            None => false,
        };
        if !fails {
            return false;
        }
    }
    true
}

/// Whether the words end with the pieces before and half of one, whichever put of this text fails.
fn each_put_fails<R: AllocGlobal + Threads + Wait + Sync>(
    rt: &R,
    words: &str,
    text: &[u8],
    report: &[u8],
) -> bool {
    for put in 0..250 {
        let Some(taken) = taken_until(text, put) else {
            return true;
        };
        let fails = match with_report(rt, words, report, &[], &[put]) {
            Some(run) => run.is(Status::WriteFault, taken, (0, 1)),
            None => false,
        };
        if !fails {
            return false;
        }
    }
    false
}

/// Whether a command ends with its status, and ends as it should whichever of its fetches and puts fails.
fn each_fails<R: AllocGlobal + Threads + Wait + Sync>(rt: &R, row: &Row, report: &[u8]) -> bool {
    let (words, fetches, status) = *row;
    let Some(run) = with_report(rt, words, report, &[fetches], &[]) else {
        return false;
    };
    run.status == status
        && run.faults == (0, 0)
        && each_fetch_fails(rt, words, fetches, report)
        && each_put_fails(rt, words, run.out.bytes(), report)
}

#[test]
fn each_fetch_and_each_put_fails_in_turn(rt: HostRuntime) -> Result<(), Fail> {
    let plan = run_words(&rt, "plan triangle reconfigure single", &[], &[], &[]).ok_or("no run")?;
    for row in &COMMANDS {
        assert!(rt; each_fails(&rt, row, plan.out.bytes()), "{}", row.0);
    }
    Ok(())
}
