use crate::texts::{FINE_JOURNAL, JOURNAL, fault_of, joined, places_of};
use net_core::{Bytes, List, Module};
use std::alloc::Global;
use text_kit::write::put_decimal;

const POOL: &[u8] = b"?planner report; version: 1\nNOTES()JOURNAL()POOL(";

const OUTCOMES: &[u8] = b"?planner report; version: 1\nNOTES()JOURNAL()POOL()OUTCOMES(";

const DEMANDS: &[u8] =
    b"?planner report; version: 1\nNOTES()JOURNAL()POOL((0 state 0 right 0(0)))OUTCOMES(PLAN(caller 1 plan 1 version 0 position 0 DEMANDS(";

/// What a report of a network with six decimal places begins with, up to its first demand.
const FINE_DEMANDS: &[u8] =
    b"?planner report; version: 2\nNOTES()JOURNAL()POOL((0 state 0 right 0(0)))OUTCOMES(PLAN(caller 1 plan 1 version 0 position 0 DEMANDS(";

const MODULES: &[u8] =
    b"?planner report; version: 1\nNOTES()JOURNAL()POOL((0 state 0 right 0(0)))OUTCOMES(PLAN(caller 1 plan 1 version 0 position 0 DEMANDS(D(A B)1)cost 0 bound 0 raw 0 1 MODULES(a(";

const CERTIFICATE: &[u8] =
    b"?planner report; version: 1\nNOTES()JOURNAL()POOL((0 state 0 right 0(0)))OUTCOMES(PLAN(caller 1 plan 1 version 0 position 0 DEMANDS(D(A B)1)cost 0 bound 0 raw 0 1 MODULES(a(0 0))CERTIFICATE(";

const ROUTES: &[u8] =
    b"?planner report; version: 1\nNOTES()JOURNAL()POOL((0 state 0 right 0(0)))OUTCOMES(PLAN(caller 1 plan 1 version 0 position 0 DEMANDS(D(A B)1)cost 0 bound 0 raw 0 1 MODULES(a(0 0))CERTIFICATE(1)ROUTES(";

const QUALITY: &[u8] =
    b"?planner report; version: 1\nNOTES()JOURNAL()POOL((0 state 0 right 0(0)))OUTCOMES(PLAN(caller 1 plan 1 version 0 position 0 DEMANDS(D(A B)1)cost 0 bound 0 raw 0 1 MODULES(a(0 0))CERTIFICATE(1)ROUTES(state 0 none 1())";

/// A module of 0.001 and one of 10.00.
const TWO: [Module; 2] = [
    Module {
        capacity: 1,
        cost: 5000,
    },
    Module {
        capacity: 10000,
        cost: 5000,
    },
];

/// Numbers of the journal. Here and below a line has what comes between a front and a number, the last token that is taken there, and one
/// that is outside the range.
const IN_JOURNAL: &str = "(|1|2
(|1|0
(1 caller |8|9
(1 caller |1|0
(1 caller 1 drop D accepted |65536|65537
(1 caller 1 drop D too-much |35184372088.831|35184372088.832
(1 cut |4095|4096
";

/// Numbers of the pool, with those around 2^84 and 2^32.
const IN_POOL: &str = "(|0|1
(0 state |0|1
(0 state 0 right |19342813113834066795298815|19342813113834066795298816
(0 state 0 right 0(|4294967295|4294967296
(0 state 0 right 0(|0|)
(0 state 0 right 0(0 |)|0
";

/// Numbers of what begins an outcome.
const IN_OUTCOMES: &str = "PLAN(caller |8|9
PLAN(caller |1|0
PLAN(caller 1 plan |64|65
PLAN(caller 1 plan |1|0
PLAN(caller 1 plan 1 version |65536|65537
PLAN(caller 1 plan 1 version 0 position |65536|65537
UNSURVIVABLE(caller |8|9
UNSURVIVABLE(caller 1 plan |64|65
UNSURVIVABLE(caller 1 plan 1 version 0 position |65536|65537
UNSURVIVABLE(caller 1 plan 1 version 0 position 0 state |0|1
";

/// The denominator of a raw value, with the numbers around 2^72.
const IN_DEMANDS: &str = ")cost 0 bound 0 raw 0 |4722366482869645213695|4722366482869645213696
)cost 0 bound 0 raw 0 |1|0
";

/// Counts of modules.
const IN_MODULES: &str = "|17592186044415|17592186044416
7663 |7036874417|7036874418
7664 |7036874416|7036874417
0 |0|)
0 0 |)|0
";

/// Numbers of a certificate, with those around 2^72, 2^62, 2^32 and 2^84.
const IN_CERTIFICATE: &str = "|1|0
|4722366482869645213695|4722366482869645213696
1(|4611686018427387903|4611686018427387904
1(0 pool |0|1
1(0 local |0|1
1(0 local 0(|4294967295|4294967296
1(0 local 0(0)right |19342813113834066795298815|19342813113834066795298816
1(0 pool 0 right |19342813113834066795298815|19342813113834066795298816
";

/// Numbers of the routes, with those around 2^62 and 2^124.
const IN_ROUTES: &str = "|state|)
state |0|1
state 0 none |1|0
state 0 none |4611686018427387903|4611686018427387904
state 0 none 1(D |1|0
state 0 none 1(D |21267647932558653966460912964485513215|21267647932558653966460912964485513216
state 0 none 1()|)|state
";

/// Numbers of what a plan says of its bound, with those around 2^62 and 2^32.
const IN_QUALITY: &str = "tight |1|0
tight |4611686018427387903|4611686018427387904
tight 1(|4611686018427387903|4611686018427387904
tight 1(|0|)
tight 1(0 |)|0
loose wide route |0|1
loose wide route 0 |1|0
loose wide route 0 |4611686018427387903|4611686018427387904
loose wide route 0 1(0 |)|0
loose wide route 0 1(0)(link a |demand|)
loose wide route 0 1(0)(link a demand D |)|flow
loose wide route 0 1(0)(link a demand D)row |2|3
loose wide route 0 1(0)(link a demand D)sum |2|3
loose wide route 0 1(0)(link a demand D)entry |2|3
loose wide master(|link|)
loose wide master(link a |)|cut
loose wide master(cut |0|1
loose wide master(cut 0(|4294967295|4294967296
loose wide master(link a)row |1|2
loose wide master(link a)entry |1|2
";

/// Needs of the journal, whose range is that of their notation: up to the greatest amount.
const LARGE_IN_JOURNAL: &str = "(1 caller 1 set D |1099511627.775|1099511627.776
(1 caller 1 add D(A B)|1099511627.775|1099511627.776
";

/// A need, a cost, a bound and a raw value, of the same kind, with the greatest cost and the numbers around 2^126.
const LARGE_IN_DEMANDS: &str = "D(A B)|1099511627.775|1099511627.776
)cost |85070591730234615865843651857942052.863|85070591730234615865843651857942052.864
)cost 0 bound |85070591730234615865843651857942052.863|85070591730234615865843651857942052.864
)cost 0 bound 0 raw |85070591730234615865843651857942052863|85070591730234615865843651857942052864
";

/// A total with six places.
const FINE_IN_JOURNAL: &str = "(1 caller 1 drop D too-much |35184372.088831|35184372.088832
";

/// Needs of the journal with six places. The greatest amount is the same number of units.
const LARGE_FINE_IN_JOURNAL: &str = "(1 caller 1 set D |1099511.627775|1099511.627776
(1 caller 1 add D(A B)|1099511.627775|1099511.627776
";

/// A need, a cost and a bound with six places. The greatest cost is the same number of units.
const LARGE_FINE_IN_DEMANDS: &str = "D(A B)|1099511.627775|1099511.627776
)cost |85070591730234615865843651857942.052863|85070591730234615865843651857942.052864
)cost 0 bound |85070591730234615865843651857942.052863|85070591730234615865843651857942.052864
";

/// A need and a cost with six places, and one with seven.
const TOO_FINE_IN_DEMANDS: &str = "D(A B)|0.000001|0.0000001
)cost |0.000001|0.0000001
";

/// A capacity, of the same kind, with the numbers around 2^126.
const LARGE_IN_QUALITY: &str =
    "loose wide route 0 1(|85070591730234615865843651857942052863|85070591730234615865843651857942052864
";

/// Whether the first fault of a text in three parts has this place and this kind.
fn faults_at(alloc: Global, parts: (&[u8], &[u8], &[u8]), at: u64, kind: &str) -> bool {
    let (front, rest, last) = parts;
    match joined(alloc, front, rest, last) {
        Some(text) => fault_of(alloc, places_of(front), &TWO, text.items()) == Some((at, kind)),
        None => false,
    }
}

/// Whether the text goes on after the last token, and the one past it is refused at its place as this kind.
fn ends_at(alloc: Global, front: &[u8], rest: &[u8], tokens: (&[u8], &[u8]), kind: &str) -> bool {
    let (last, past) = tokens;
    let at = front.len() as u64 + rest.len() as u64;
    let end = at.saturating_add(last.len() as u64);
    faults_at(alloc, (front, rest, last), end, "ended")
        && faults_at(alloc, (front, rest, past), at, kind)
}

/// Whether the range of a line ends at its last number.
fn line_ends(alloc: Global, front: &[u8], line: &str, kind: &str) -> Option<bool> {
    let (rest, tokens) = line.split_once('|')?;
    let (last, past) = tokens.split_once('|')?;
    let tokens = (last.as_bytes(), past.as_bytes());
    Some(ends_at(alloc, front, rest.as_bytes(), tokens, kind))
}

/// Whether each range of these lines ends at its last number.
fn each_ends(alloc: Global, front: &[u8], lines: &str, kind: &str) -> bool {
    for line in lines.lines() {
        if line_ends(alloc, front, line, kind) != Some(true) {
            return false;
        }
    }
    true
}

/// What the texts of some lines begin with, these lines, and the kind of what is past each last number.
type Ranges = (&'static [u8], &'static str, &'static str);

/// The ranges of what may be one too many.
const RANGES: [Ranges; 8] = [
    (JOURNAL, IN_JOURNAL, "limit"),
    (POOL, IN_POOL, "limit"),
    (OUTCOMES, IN_OUTCOMES, "limit"),
    (DEMANDS, IN_DEMANDS, "limit"),
    (MODULES, IN_MODULES, "limit"),
    (CERTIFICATE, IN_CERTIFICATE, "limit"),
    (ROUTES, IN_ROUTES, "limit"),
    (QUALITY, IN_QUALITY, "limit"),
];

/// The ranges of notations.
const NOTATIONS: [Ranges; 3] = [
    (JOURNAL, LARGE_IN_JOURNAL, "number-large"),
    (DEMANDS, LARGE_IN_DEMANDS, "number-large"),
    (QUALITY, LARGE_IN_QUALITY, "number-large"),
];

/// The ranges of amounts and money with six places.
const FINE_RANGES: [Ranges; 4] = [
    (FINE_JOURNAL, FINE_IN_JOURNAL, "limit"),
    (FINE_JOURNAL, LARGE_FINE_IN_JOURNAL, "number-large"),
    (FINE_DEMANDS, LARGE_FINE_IN_DEMANDS, "number-large"),
    (FINE_DEMANDS, TOO_FINE_IN_DEMANDS, "number-fine"),
];

/// Whether all these ranges end at their last numbers.
fn all_end(alloc: Global, ranges: &[Ranges]) -> bool {
    for (front, lines, kind) in ranges {
        if !each_ends(alloc, front, lines, kind) {
            return false;
        }
    }
    true
}

#[test]
fn ranges_end_at_their_last_numbers(rt: HostRuntime) {
    assert!(rt; all_end(rt.alloc(), &RANGES));
}

#[test]
fn notations_end_at_their_last_numbers(rt: HostRuntime) {
    assert!(rt; all_end(rt.alloc(), &NOTATIONS));
}

#[test]
fn six_places_end_at_the_same_units(rt: HostRuntime) {
    assert!(rt; all_end(rt.alloc(), &FINE_RANGES));
}

/// What comes before a list, in two parts, the last count of its elements, what comes before the number of an element, the number of the
/// first one, what comes after the number, and the word or parenthesis with which one more would begin.
type Many = (
    &'static [u8],
    &'static [u8],
    u32,
    &'static [u8],
    u32,
    &'static [u8],
    &'static [u8],
);

/// The lists of a report whose counts have a limit.
const COUNTS: [Many; 5] = [
    (JOURNAL, b"", 65536, b"(", 1, b" cut 0)", b"("),
    (POOL, b"", 4096, b"(", 0, b" state 0 right 0(0))", b"("),
    (
        OUTCOMES,
        b"",
        64,
        b"UNSURVIVABLE(caller 1 plan 1 version 0 position ",
        0,
        b" state 0 none demand D)",
        b"PLAN",
    ),
    (CERTIFICATE, b"1", 256, b"(", 0, b" pool 0 right 0)", b"("),
    (ROUTES, b"state 0 none 1(", 65536, b"D ", 1, b"(a)", b"D"),
];

/// Appends an element with its number.
fn put_element(text: &mut Bytes, before: &[u8], number: u32, after: &[u8]) -> Option<()> {
    text.append(before).ok()?;
    put_decimal(text, u128::from(number)).ok()?;
    text.append(after).ok()
}

/// The list of a row, with the last count of its elements.
fn list_of(alloc: Global, many: &Many) -> Option<Bytes> {
    let (front, rest, count, before, first, after, _) = *many;
    let mut text = joined(alloc, front, rest, b"")?;
    for i in 0..count {
        put_element(&mut text, before, first.saturating_add(i), after)?;
    }
    Some(text)
}

/// Whether a list of the last count is taken, and one element more is refused where it begins.
fn list_ends(alloc: Global, many: &Many) -> bool {
    match list_of(alloc, many) {
        Some(full) => ends_at(alloc, full.items(), b"", (b"", many.6), "limit"),
        None => false,
    }
}

/// The place of the first row whose list ends elsewhere.
fn first_list_missed(alloc: Global, rows: &[Many]) -> Option<usize> {
    for (i, many) in rows.iter().enumerate() {
        if !list_ends(alloc, many) {
            return Some(i);
        }
    }
    None
}

#[test]
fn each_count_ends_at_its_last_number(rt: HostRuntime) {
    assert_eq!(rt; first_list_missed(rt.alloc(), &COUNTS), None);
}

/// What comes before a name that is free or new, in two parts.
const AROUND_NAMES: [(&'static [u8], &'static [u8]); 6] = [
    (JOURNAL, b"(1 caller 1 set "),
    (JOURNAL, b"(1 caller 1 add "),
    (JOURNAL, b"(1 caller 1 add D("),
    (JOURNAL, b"(1 caller 1 add D(A "),
    (
        OUTCOMES,
        b"UNSURVIVABLE(caller 1 plan 1 version 0 position 0 state 0 none demand ",
    ),
    (DEMANDS, b""),
];

/// Whether a name of 255 bytes is taken, and one of 256 is refused at its place.
fn name_ends(alloc: Global, front: &[u8], rest: &[u8]) -> bool {
    let Ok(past) = List::filled(alloc, b'n', 256) else {
        return false;
    };
    match past.items().split_last() {
        Some((_, last)) => ends_at(alloc, front, rest, (last, past.items()), "limit-name"),
        None => false,
    }
}

#[test]
fn names_end_at_255_bytes(rt: HostRuntime) {
    for (front, rest) in &AROUND_NAMES {
        assert!(rt; name_ends(rt.alloc(), front, rest));
    }
}
