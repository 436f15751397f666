use crate::files::TRIANGLE;
use crate::plans::TRIANGLE_REPORT;
use crate::runs::{Ended, comes_to, run_words};
use net_core::{Bytes, List};
use planner_commands::Status;
use std::alloc::Global;
use std::sync::Wait;
use std::thread::Threads;

/// What the network of the long names begins with, what comes after each name, and what it ends with.
const NETWORK: (&[u8], &[u8], &[u8]) = (
    b"?SNDlib native format; type: network; version: 1.0
NODES ( A B )
LINKS ( ",
    b" ( A B ) 0 0 0 0 ( 1.00 1.00 )\n",
    b")\nDEMANDS ( )\n",
);

/// What the report of a plan of the network of the long names begins with, what comes after each name, and what the report ends with.
const REPORT: (&[u8], &[u8], &[u8]) = (
    b"?planner report; version: 1
NOTES ( )
JOURNAL ( ( 1 cut 0 )
)
POOL ( ( 0 state 0 right 0 ( 1 1 1 1 1 1 1 1 1 1 1 1 1 1 1 1 1 1 1 1 )
)
)
OUTCOMES ( PLAN ( caller 1 plan 1 version 0 position 0 DEMANDS ( )
cost 0.000 bound 0.000 raw 0 1 MODULES ( ",
    b" ( 0 )\n",
    b")
CERTIFICATE ( 1 )
ROUTES ( state 0 none 1 ( )
)
tight 1 ( 0 0 0 0 0 0 0 0 0 0 0 0 0 0 0 0 0 0 0 0 )
( state 0 none 1 ( )
)
)
)
",
);

/// Adds a name of 250 equal letters.
fn put_long_name(text: &mut Bytes, letter: u8) -> Option<()> {
    text.append(&[letter; 250]).ok()
}

/// Adds the names of 20 links, and after each name the same text.
fn put_long_names(text: &mut Bytes, after: &[u8]) -> Option<()> {
    for n in 0..20u8 {
        put_long_name(text, b'a' + n)?;
        text.append(after).ok()?;
    }
    Some(())
}

/// A text with the names of 20 links, each of 250 equal letters.
fn with_long_names(alloc: Global, parts: (&[u8], &[u8], &[u8])) -> Option<Bytes> {
    let (front, after, end) = parts;
    let mut text = List::from_slice(alloc, front).ok()?;
    put_long_names(&mut text, after)?;
    text.append(end).ok()?;
    Some(text)
}

/// Whether a run has this status and this many faults, and wrote this many bytes of a text.
fn wrote(run: &Ended, text: &[u8], taken: usize, status: Status, faults: u64) -> bool {
    match text.get(..taken) {
        Some(front) => run.is(status, front, (0, faults)),
        None => false,
    }
}

/// Whether a run wrote this many of the 5,514 bytes of the report of the long names.
fn wrote_report(
    alloc: Global,
    run: &Ended,
    taken: usize,
    status: Status,
    faults: u64,
) -> Option<bool> {
    let report = with_long_names(alloc, REPORT)?;
    Some(report.len() == 5514 && wrote(run, report.items(), taken, status, faults))
}

/// Whether a plan of the network of the long names ends with this status if the puts of these numbers fail, and wrote this many of the
/// 5,514 bytes of its report.
fn long_plan_ends<R: AllocGlobal + Threads + Wait + Sync>(
    rt: &R,
    puts: &[u32],
    status: Status,
    taken: usize,
) -> Option<bool> {
    let net = with_long_names(rt.alloc(), NETWORK)?;
    let run = run_words(rt, "plan long", &[("long", net.items())], &[], puts)?;
    wrote_report(rt.alloc(), &run, taken, status, puts.len() as u64)
}

#[test]
fn a_long_text_is_put_in_pieces(rt: HostRuntime) {
    assert!(rt; long_plan_ends(&rt, &[], Status::Done, 5514) == Some(true));
    let half = 4096 + (5514 - 4096) / 2;
    assert!(rt; long_plan_ends(&rt, &[1], Status::WriteFault, half) == Some(true));
}

/// The triangle's network file with spaces at its end, so that it has this many bytes.
fn padded_triangle(alloc: Global, len: usize) -> Option<Bytes> {
    let mut text = List::from_slice(alloc, TRIANGLE).ok()?;
    let spaces = len.saturating_sub(text.len());
    text.append(List::filled(alloc, b' ', spaces).ok()?.items())
        .ok()?;
    Some(text)
}

/// Whether a plan of the triangle in a file of this many bytes ends with this status and this text.
fn padded_comes_to<R: AllocGlobal + Threads + Wait + Sync>(
    rt: &R,
    len: usize,
    answer: (Status, &str),
) -> bool {
    match padded_triangle(rt.alloc(), len) {
        Some(text) => comes_to(rt, "plan long", &[("long", text.items())], 1, answer),
        None => false,
    }
}

/// The number of bytes of a file, and the status and the text with which a plan of it ends: for the longest file that is read, and for one
/// byte more.
const LENGTHS: [(usize, (Status, &str)); 2] = [
    (16777216, (Status::Done, TRIANGLE_REPORT)),
    (16777217, (Status::TooLong, "too long long\n")),
];

#[test]
fn a_file_is_read_up_to_its_limit(rt: HostRuntime) {
    for (len, answer) in &LENGTHS {
        assert!(rt; padded_comes_to(&rt, *len, *answer), "{len}");
    }
}
