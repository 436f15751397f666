use crate::texts::{JOURNAL, fault_of, joined};
use net_core::Places;
use std::alloc::Global;
use worked_networks::TEN;

const NOTHING: &[u8] = b"";

const START: &[u8] = b"?planner report; version: 1\n";

/// The first line with six places.
const FINE: &[u8] = b"?planner report; version: 2\n";

const OUTCOMES: &[u8] = b"?planner report; version: 1\nNOTES()JOURNAL()POOL()OUTCOMES(";

const DEMANDS: &[u8] =
    b"?planner report; version: 1\nNOTES()JOURNAL()POOL()OUTCOMES(PLAN(caller 1 plan 1 version 0 position 0 DEMANDS(";

const MODULES: &[u8] =
    b"?planner report; version: 1\nNOTES()JOURNAL()POOL()OUTCOMES(PLAN(caller 1 plan 1 version 0 position 0 DEMANDS()cost 0.000 bound 0.000 raw 0 1 MODULES(";

/// What a text begins with, what comes after it up to its first fault, and the place and the kind of that.
type Refused = (&'static [u8], &'static [u8], u64, &'static str);

/// Texts that end with their first fault.
const REFUSED: [Refused; 16] = [
    (FINE, b"NOTES()JOURNAL()POOL()OUTCOMES()", 0, "header"),
    (START, b"NOTES()POOL", 35, "section"),
    (OUTCOMES, b")NOTES", 60, "section"),
    (START, b"NOTES(routing fixed", 42, "token"),
    (JOURNAL, b"", 43, "ended"),
    (JOURNAL, b"(01", 44, "number-not"),
    (JOURNAL, b"(1 caller 1 set D 0.0001", 61, "number-fine"),
    (
        JOURNAL,
        b"(1 cut 85070591730234615865843651857942052864",
        50,
        "number-large",
    ),
    (
        OUTCOMES,
        b"UNSURVIVABLE(caller 1 plan 1 version 0 position 0 state 0 all",
        117,
        "unknown-name",
    ),
    (MODULES, b"a(0)a", 153, "unknown-name"),
    (DEMANDS, b"D(A B)1 D", 117, "double-name"),
    (
        JOURNAL,
        b"(1 caller 1 drop nnnnnnnnnnnnnnnnnnnnnnnnnnnnnnnnnnnnnnnnnnnnnnnnnnnnnnnnnnnnnnnnnnnnnnnnnnnnnnnnnnnnnnnnnnnnnnnnnnnnnnnnnnnnnnnnnnnnnnnnnnnnnnnnnnnnnnnnnnnnnnnnnnnnnnnnnnnnnnnnnnnnnnnnnnnnnnnnnnnnnnnnnnnnnnnnnnnnnnnnnnnnnnnnnnnnnnnnnnnnnnnnnnnnnnnnnnnnnnnnnnnnnnnnnnnnnnnn",
        60,
        "limit-name",
    ),
    (JOURNAL, b"(2", 44, "limit"),
    (MODULES, b")", 149, "limit"),
    (MODULES, b"a(0))CERTIFICATE(1(0 pool 0", 175, "limit"),
    (
        MODULES,
        b"a(0))CERTIFICATE(1)ROUTES(state 0 none 1())unsolved",
        192,
        "token",
    ),
];

/// Texts for a network with six places, whose first line is that of another.
const REFUSED_IN_SIX: [Refused; 2] = [
    (START, b"NOTES()JOURNAL()POOL()OUTCOMES()", 0, "header"),
    (NOTHING, b"?planner report; version: 3\n", 0, "header"),
];

/// Whether the first fault of a text has the place and the kind of its row.
fn is_refused(alloc: Global, places: Places, row: &Refused) -> bool {
    let (front, rest, at, kind) = *row;
    match joined(alloc, front, rest, b"") {
        Some(text) => fault_of(alloc, places, &TEN, text.items()) == Some((at, kind)),
        None => false,
    }
}

#[test]
fn each_kind_of_fault_at_its_place(rt: HostRuntime) {
    for row in &REFUSED {
        assert!(rt; is_refused(rt.alloc(), Places::Three, row), "at {}", row.2);
    }
}

#[test]
fn the_version_is_that_of_the_places(rt: HostRuntime) {
    for row in &REFUSED_IN_SIX {
        assert!(rt; is_refused(rt.alloc(), Places::Six, row));
    }
}
