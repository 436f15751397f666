use crate::plans::{CHARGED_REPORT, FINER_REPORT, NOTED_REPORT, RAISED_REPORT, TRIANGLE_REPORT};
use crate::runs::{replaced, run_words};
use planner_commands::Status;
use std::sync::Wait;
use std::test::Fail;
use std::thread::Threads;

/// A part of a report, what replaces it, and the line that a check then gives, without its beginning.
type Change = (&'static str, &'static str, &'static str);

/// Changes of the notes, the journal and the pool, which are found.
const JOURNALS: [Change; 8] = [
    ("NOTES ( )", "NOTES ( fixed )", "notes-differ"),
    (
        "right 12000 ( 1",
        "right 12001 ( 1",
        "pool-differs 0 12001 12000",
    ),
    ("( 1 cut 0 )", "( 1 cut 1 )", "entry-differs 1"),
    (
        "( 1 cut 0 )",
        "( 1 caller 1 drop D1 unknown-demand )",
        "entry-differs 1",
    ),
    ("( 1 cut 0 )", "", "pool-count 1 0"),
    ("( 1 1 1 )", "( 2 2 2 )", "bad-cut 0"),
    ("( 1 1 1 )", "( 0 0 0 )", "bad-cut 0"),
    (
        "state 0 right 12000",
        "state 0 right 1200",
        "pool-differs 0 1200 12000",
    ),
];

/// Changes of the plan and its routings, which are found.
const PLANS: [Change; 10] = [
    ("version 0", "version 1", "version-differs 1 0"),
    ("12.000 )", "13.000 )", "demands-differ"),
    ("cost 10.000", "cost 5.000", "cost-differs 5.000 10.000"),
    (
        "version 0 position 0",
        "version 0 position 2",
        "version-differs 0 0",
    ),
    ("D1 ( A C )", "D1 ( C A )", "demands-differ"),
    (
        "PLAN ( caller 1 plan 1 version 0 position 0 DEMANDS",
        "UNSURVIVABLE ( caller 1 plan 1 version 0 position 0 state 0 none demand D1 ) PLAN ( caller 1 plan 2 version 0 position 0 DEMANDS",
        "survivable",
    ),
    ("AC ( 2 )", "AC ( 3 )", "cost-differs 10.000 15.000"),
    ("12.000 )", "2.000 )", "demands-differ"),
    ("cost 10.000", "cost 0.000", "cost-differs 0.000 10.000"),
    ("cost 10.000", "cost 110.000", "cost-differs 110.000 10.000"),
];

/// Changes of the plan's counts, costs and routings, which are found.
const COUNTS_AND_ROUTINGS: [Change; 10] = [
    ("AB ( 0 )", "AB ( 1 )", "cost-differs 10.000 15.000"),
    ("AC ( 2 )", "AC ( 22 )", "cost-differs 10.000 110.000"),
    ("D1 12000 ( AC )", "D1 12000 ( AB )", "bad-path 0 0"),
    ("AC ( 2 )", "AC ( 1 )", "overloaded 0 AC"),
    ("D1 12000 ( AC )", "D1 12000 ( AB BC AC )", "bad-path 0 0"),
    ("D1 12000 ( AC )", "", "not-carried 0 D1"),
    ("D1 12000 ( AC )", "D1 11999 ( AC )", "not-carried 0 D1"),
    (
        "D1 12000 ( AC )",
        "D1 6000 ( AB BC ) D1 6000 ( AC )",
        "overloaded 0 AB",
    ),
    ("none 1 ( D1", "none 11 ( D1", "not-carried 0 D1"),
    ("D1 12000 ( AC )", "D1 112000 ( AC )", "not-carried 0 D1"),
];

/// Changes of the plan's bound, of its certificate and of what shows how tight it is, which are found.
const BOUNDS: [Change; 9] = [
    (
        "bound 10.000",
        "bound 15.000",
        "bound-differs 15.000 10.000",
    ),
    (
        "1 pool 0 right 12000",
        "1 local 0 ( 1 1 1 ) right 12000",
        "local-cut 0",
    ),
    (
        "1 pool 0 right 12000",
        "1 pool 0 right 12001",
        "right-differs 0 12001 12000",
    ),
    ("2 ( 1 pool 0", "1 ( 1 pool 0", "price-exceeded AB 0"),
    ("2 ( 1 pool 0", "3 ( 1 pool 0", "raw-differs"),
    ("raw 6000 1", "raw 12000 2", "raw-differs"),
    ("tight 1 ( 0 0 6000 )", "tight 1 ( 0 0 6001 )", "not-tight"),
    ("tight 1 ( 0 0 6000 )", "tight 2 ( 0 0 6000 )", "not-tight"),
    ("bound 10.000", "bound 1.000", "bound-differs 1.000 10.000"),
];

/// More changes of numbers in the plan's bound, in its certificate and in what shows how tight it is, which are found.
const BOUNDS_AND_PROOFS: [Change; 9] = [
    ("bound 10.000", "bound 9.999", "bound-differs 9.999 10.000"),
    ("raw 6000 1", "raw 600 1", "raw-differs"),
    ("raw 6000 1", "raw 6000 11", "raw-differs"),
    ("CERTIFICATE ( 2", "CERTIFICATE ( 22", "raw-differs"),
    ("2 ( 1 pool 0", "2 ( 0 pool 0", "raw-differs"),
    ("2 ( 1 pool 0", "2 ( 11 pool 0", "price-exceeded AB 0"),
    (
        "pool 0 right 12000",
        "pool 0 right 2000",
        "right-differs 0 2000 12000",
    ),
    ("tight 1 ( 0 0 6000 )", "tight 1 ( 0 0 600 )", "not-tight"),
    ("tight 1 ( 0 0 6000 )", "tight 1 ( 0 1 6000 )", "not-tight"),
];

/// Changes of words and parentheses, after which the text is no report.
const FORMS: [Change; 14] = [
    ("version: 1", "version: 2", "header at 0"),
    ("NOTES (", "NOTE (", "section at 28"),
    ("JOURNAL (", "JOURNAL )", "section at 46"),
    ("NOTES ( )", "NOTES ( setup fixed )", "token at 42"),
    ("( 1 cut", "( 1 cuts", "token at 52"),
    ("caller 1 plan", "caller 1 plans", "token at 134"),
    ("D1 12000 ( AC )", "D1 12000 ( )", "token at 347"),
    ("tight", "loose many tight", "token at 362"),
    (")\n)\n)\n)\n", ")\n)\n)\n", "ended at 418"),
    ("( 1 cut", "( 1 cu", "token at 52"),
    ("( 0 state", "( 0 stat", "token at 73"),
    ("PLAN (", "PLA (", "token at 118"),
    ("caller 1", "calle 1", "token at 125"),
    ("plan 1", "pla 1", "token at 134"),
];

/// More changes of words, after which the text is no report.
const FURTHER_FORMS: [Change; 14] = [
    ("version 0", "versio 0", "token at 141"),
    ("position 0", "positio 0", "token at 151"),
    ("DEMANDS", "DEMAND", "token at 162"),
    ("cost", "cos", "token at 192"),
    ("bound", "boun", "token at 204"),
    ("raw", "ra", "token at 217"),
    ("MODULES", "MODULE", "token at 228"),
    ("CERTIFICATE", "CERTIFICAT", "token at 267"),
    ("pool 0 right", "poo 0 right", "token at 287"),
    ("ROUTES", "ROUTE", "token at 310"),
    ("ROUTES ( state", "ROUTES ( stat", "token at 319"),
    ("tight", "tigh", "token at 356"),
    ("state 0 right", "state 0 righ", "token at 81"),
    ("POOL (", "POO (", "section at 62"),
];

/// Changes of numbers, names and counts, after which the text is no report of the triangle.
const VALUES: [Change; 15] = [
    ("( 1 cut 0 )", "( 2 cut 0 )", "limit at 50"),
    ("cut 0", "cut 4096", "limit at 56"),
    ("( 0 state", "( 1 state", "limit at 71"),
    (
        "state 0 right 12000 (",
        "state 1 right 12000 (",
        "limit at 79",
    ),
    ("( 1 1 1 )", "( 1 1 )", "limit at 99"),
    ("( 1 1 1 )", "( 1 1 1 1 )", "limit at 101"),
    ("( 1 1 1 )", "( 1 1 4294967296 )", "limit at 99"),
    ("caller 1 plan", "caller 9 plan", "limit at 132"),
    ("plan 1 version", "plan 65 version", "limit at 139"),
    ("version 0", "version 65537", "limit at 149"),
    ("D1 ( A C )", "D1 ( A Z )", "unknown-name at 179"),
    ("12.000 )", "12.000 D1 ( A B ) 1 )", "double-name at 190"),
    ("12.000", "12.0001", "number-fine at 183"),
    ("12.000", "12,000", "number-not at 183"),
    ("12.000", "1099511627.776", "number-large at 183"),
];

/// More changes of numbers, names and counts, after which the text is no report of the triangle.
const FURTHER_VALUES: [Change; 14] = [
    ("raw 6000 1", "raw 6000 0", "limit at 226"),
    ("raw 6000 1", "raw 06000 1", "number-not at 221"),
    ("AB ( 0 )", "BC ( 0 )", "unknown-name at 238"),
    ("AC ( 2 )", "AC ( )", "limit at 261"),
    ("AC ( 2 )", "AC ( 2 2 )", "limit at 263"),
    (
        "AC ( 2 )\n)",
        "AC ( 2 )\nXX ( 2 )\n)",
        "unknown-name at 265",
    ),
    ("2 ( 1 pool 0", "2 ( 1 pool 1", "limit at 292"),
    ("2 ( 1 pool 0", "0 ( 1 pool 0", "limit at 281"),
    ("D1 12000 ( AC )", "D2 12000 ( AC )", "unknown-name at 336"),
    ("D1 12000 ( AC )", "D1 0 ( AC )", "limit at 339"),
    ("state 0 none", "state 0 AB", "unknown-name at 327"),
    ("tight 1", "tight 0", "limit at 362"),
    ("none 1", "non 1", "unknown-name at 327"),
    ("MODULES ( AB", "MODULES ( A", "unknown-name at 238"),
];

/// Changes of spelling, and of the caller and the serial of the only plan, after which the report is accepted.
const SPELLINGS: [Change; 5] = [
    ("NOTES ( )", "NOTES  (\t)", "1"),
    ("NOTES ( )", "# a note\nNOTES()", "1"),
    ("12.000 )", "0012.00000 )", "1"),
    ("cost 10.000", "cost 10", "1"),
    ("caller 1 plan 1", "caller 8 plan 64", "1"),
];

/// A report of the triangle in which each link fails alone.
const RECONFIGURED: &str = "?planner report; version: 1
NOTES ( ) JOURNAL ( ( 1 cut 0 ) ( 2 cut 1 ) ( 3 cut 2 ) ( 4 cut 3 ) )
POOL ( ( 0 state 0 right 12000 ( 1 1 1 ) ) ( 1 state 1 right 12000 ( 0 1 1 ) ) ( 2 state 2 right 12000 ( 1 0 1 ) ) ( 3 state 3 right 24000 ( 1 1 0 ) ) )
OUTCOMES ( PLAN ( caller 1 plan 1 version 0 position 0 DEMANDS ( D1 ( A C ) 12.000 ) cost 30.000 bound 15.000 raw 12000 1
MODULES ( AB ( 2 ) BC ( 2 ) AC ( 2 ) ) CERTIFICATE ( 2 ( 1 pool 3 right 24000 ) )
ROUTES ( state 0 none 1 ( D1 12000 ( AC ) ) state 1 AB 1 ( D1 12000 ( AC ) ) state 2 BC 1 ( D1 12000 ( AC ) ) state 3 AC 1 ( D1 12000 ( AB BC ) ) )
loose cuts ) )
";

/// Changes of the bound and the certificate of that report, which are found.
const CERTIFICATES: [Change; 3] = [
    (
        "pool 3 right 24000",
        "pool 3 right 24001",
        "right-differs 0 24001 24000",
    ),
    ("CERTIFICATE ( 2", "CERTIFICATE ( 1", "price-exceeded AB 0"),
    (
        "bound 15.000",
        "bound 20.000",
        "bound-differs 20.000 15.000",
    ),
];

/// Changes of a report whose setup costs are charged, which are found: a setup too many or too few, another module that pays a setup, and
/// another bound.
const CHARGED: [Change; 4] = [
    ("cost 13.000", "cost 16.000", "cost-differs 16.000 13.000"),
    ("cost 13.000", "cost 10.000", "cost-differs 10.000 13.000"),
    ("AB ( 0 )", "AB ( 1 )", "cost-differs 13.000 21.000"),
    ("bound 6.000", "bound 10.000", "bound-differs 10.000 6.000"),
];

/// A change of a note of setup costs that are charged, which is found.
const CHARGED_NOTES: [Change; 1] = [("NOTES ( )", "NOTES ( setup )", "notes-differ")];

/// Changes of a report whose setup costs are noted, which are found.
const NOTED: [Change; 1] = [("cost 10.000", "cost 13.000", "cost-differs 13.000 10.000")];

/// Changes of a report in millionths, which are found.
const FINER: [Change; 2] = [
    (
        "cost 10.000000",
        "cost 10.000001",
        "cost-differs 10.000001 10.000000",
    ),
    (
        "D1 12000100 ( AC )",
        "D1 12000099 ( AC )",
        "not-carried 0 D1",
    ),
];

/// Changes after which a text is no report of a network in millionths.
const FINER_FORMS: [Change; 3] = [
    ("version: 2", "version: 1", "header at 0"),
    ("12.000100", "12.0001001", "number-fine at 186"),
    ("12.000100", "1099511.627776", "number-large at 186"),
];

/// Changes of the cost of a link's first module in the second of two plans, which are found: without its setup, and with two.
const RAISED: [Change; 2] = [
    ("cost 8.000", "cost 5.000", "cost-differs 5.000 8.000"),
    ("cost 8.000", "cost 11.000", "cost-differs 11.000 8.000"),
];

/// A report of one plan, unchanged.
const UNCHANGED: [Change; 1] = [("", "", "1")];

/// A report of two plans, unchanged.
const BOTH_UNCHANGED: [Change; 1] = [("", "", "2")];

/// An unchanged report whose notes lack the one of the setup costs.
const UNCHANGED_NOTES: [Change; 1] = [("", "", "notes-differ")];

/// An unchanged report of a network with another number of decimal places.
const OTHER_PLACES: [Change; 1] = [("", "", "header at 0")];

/// The words of a check, and how many files they fetch.
type Check = (&'static str, u32);

const OF_TRIANGLE: Check = ("check triangle default default report", 2);

const OF_RECONFIGURED: Check = ("check triangle reconfigure default report", 3);

const OF_CHARGED: Check = ("check setups charge default report", 3);

const OF_NOTED: Check = ("check setups default default report", 2);

const OF_HELD: Check = ("check held charge default report", 3);

const OF_FINER: Check = ("check finer default default report", 2);

const OF_PARALLEL: Check = ("check parallel default single report", 3);

/// The beginning of the line that a check gives, and its status.
type Line = (&'static str, Status);

const WHOLE: Line = ("rejected ", Status::Rejected);

const FIRST: Line = ("rejected outcome 1 ", Status::Rejected);

const SECOND: Line = ("rejected outcome 2 ", Status::Rejected);

const REFUSED: Line = ("refused report ", Status::BadReport);

const ACCEPTED: Line = ("accepted ", Status::Done);

/// A check of a report after each of some changes, and the beginning and status of its line.
type Damages = (Check, &'static str, &'static [Change], Line);

/// Damages of reports with more states and with setup costs.
const DAMAGES: [Damages; 6] = [
    (OF_RECONFIGURED, RECONFIGURED, &UNCHANGED, ACCEPTED),
    (OF_RECONFIGURED, RECONFIGURED, &CERTIFICATES, FIRST),
    (OF_CHARGED, CHARGED_REPORT, &CHARGED, FIRST),
    (OF_CHARGED, CHARGED_REPORT, &CHARGED_NOTES, WHOLE),
    (OF_NOTED, NOTED_REPORT, &NOTED, FIRST),
    (OF_NOTED, CHARGED_REPORT, &UNCHANGED_NOTES, WHOLE),
];

/// Damages of reports with two plans, and of reports with another number of decimal places.
const FURTHER_DAMAGES: [Damages; 5] = [
    (OF_HELD, RAISED_REPORT, &BOTH_UNCHANGED, ACCEPTED),
    (OF_HELD, RAISED_REPORT, &RAISED, SECOND),
    (OF_FINER, FINER_REPORT, &FINER, FIRST),
    (OF_FINER, FINER_REPORT, &FINER_FORMS, REFUSED),
    (OF_FINER, TRIANGLE_REPORT, &OTHER_PLACES, REFUSED),
];

/// Whether a check of a changed report, whose words fetch this many files, ends with this status and a line that begins with this.
fn says<R: AllocGlobal + Threads + Wait + Sync>(
    rt: &R,
    check: Check,
    report: &str,
    change: &Change,
    line: Line,
) -> bool {
    let (part, by, end) = *change;
    let Some(text) = replaced(rt.alloc(), report, part, by) else {
        return false;
    };
    let files = [("report", text.items())];
    match run_words(rt, check.0, &files, &[check.1], &[]) {
        Some(run) => run.is_line(line.1, line.0, end),
        None => false,
    }
}

/// The first change after which a check of a report, whose words fetch this many files, doesn't end with this status and a line that begins
/// with this.
fn first_unlike<R: AllocGlobal + Threads + Wait + Sync>(
    rt: &R,
    check: Check,
    report: &str,
    changes: &[Change],
    line: Line,
) -> Option<&'static str> {
    for change in changes {
        if !says(rt, check, report, change, line) {
            return Some(change.1);
        }
    }
    None
}

/// The first change of the triangle's report after which a check doesn't end with this line.
fn first_of_triangle<R: AllocGlobal + Threads + Wait + Sync>(
    rt: &R,
    changes: &[Change],
    line: Line,
) -> Option<&'static str> {
    first_unlike(rt, OF_TRIANGLE, TRIANGLE_REPORT, changes, line)
}

#[test]
fn a_changed_journal_is_found_out(rt: HostRuntime) {
    assert!(rt; first_of_triangle(&rt, &JOURNALS, WHOLE).is_none());
}

#[test]
fn a_changed_plan_is_found_out(rt: HostRuntime) {
    assert!(rt; first_of_triangle(&rt, &PLANS, FIRST).is_none());
}

#[test]
fn changed_counts_and_routings_are_found_out(rt: HostRuntime) {
    assert!(rt; first_of_triangle(&rt, &COUNTS_AND_ROUTINGS, FIRST).is_none());
}

#[test]
fn a_changed_bound_is_found_out(rt: HostRuntime) {
    assert!(rt; first_of_triangle(&rt, &BOUNDS, FIRST).is_none());
}

#[test]
fn further_changed_bounds_are_found_out(rt: HostRuntime) {
    assert!(rt; first_of_triangle(&rt, &BOUNDS_AND_PROOFS, FIRST).is_none());
}

#[test]
fn a_report_of_other_words_is_refused(rt: HostRuntime) {
    assert!(rt; first_of_triangle(&rt, &FORMS, REFUSED).is_none());
}

#[test]
fn reports_of_further_words_are_refused(rt: HostRuntime) {
    assert!(rt; first_of_triangle(&rt, &FURTHER_FORMS, REFUSED).is_none());
}

#[test]
fn a_report_of_other_values_is_refused(rt: HostRuntime) {
    assert!(rt; first_of_triangle(&rt, &VALUES, REFUSED).is_none());
}

#[test]
fn reports_of_further_values_are_refused(rt: HostRuntime) {
    assert!(rt; first_of_triangle(&rt, &FURTHER_VALUES, REFUSED).is_none());
}

#[test]
fn another_spelling_is_accepted(rt: HostRuntime) {
    assert!(rt; first_of_triangle(&rt, &SPELLINGS, ACCEPTED).is_none());
}

/// The first change of a table whose check doesn't end as its row says.
fn first_of_all<R: AllocGlobal + Threads + Wait + Sync>(
    rt: &R,
    damages: &[Damages],
) -> Option<&'static str> {
    for (check, report, changes, line) in damages {
        let unlike = first_unlike(rt, *check, report, changes, *line);
        if unlike.is_some() {
            return unlike;
        }
    }
    None
}

#[test]
fn a_changed_report_is_found_out_refused_or_accepted(rt: HostRuntime) {
    assert!(rt; first_of_all(&rt, &DAMAGES).is_none());
}

#[test]
fn further_changed_reports_are_found_out_refused_or_accepted(rt: HostRuntime) {
    assert!(rt; first_of_all(&rt, &FURTHER_DAMAGES).is_none());
}

/// The certificate of three parallel links that each fail alone.
const PARALLEL_CERTIFICATE: &str = "CERTIFICATE ( 2 ( 1 pool 2 right 10000 )
( 1 pool 3 right 10000 )
( 1 pool 1 right 10000 )
";

/// Certificates in place of that one, which are found.
const OTHER_CERTIFICATES: [Change; 2] = [
    (
        PARALLEL_CERTIFICATE,
        "CERTIFICATE ( 6 ( 3 pool 2 right 10000 ) ( 3 pool 3 right 10000 ) ( 4 pool 1 right 10000 ) ",
        "price-exceeded L2 0",
    ),
    (
        PARALLEL_CERTIFICATE,
        "CERTIFICATE ( 2 ( 1 pool 2 right 10001 ) ( 1 pool 3 right 10000 ) ( 1 pool 1 right 10000 ) ",
        "right-differs 0 10001 10000",
    ),
];

#[test]
fn a_damaged_certificate_is_rejected(rt: HostRuntime) -> Result<(), Fail> {
    let plan = run_words(&rt, "plan parallel default single", &[], &[], &[]).ok_or("no run")?;
    let unlike = first_unlike(&rt, OF_PARALLEL, plan.text(), &OTHER_CERTIFICATES, FIRST);
    assert!(rt; unlike.is_none());
    Ok(())
}
