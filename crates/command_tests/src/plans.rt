use crate::runs::{comes_to, run_words};
use planner_commands::Status;
use std::sync::Wait;
use std::thread::Threads;

/// The line that answers words outside the grammar.
pub(crate) const USAGE: &str =
    "usage: plan NET [MODEL [FAILURES]] | session NET MODEL FAILURES SCRIPT | check NET MODEL FAILURES REPORT | sample SEED N | trim NET [MODEL [FAILURES]] | prove LIMIT NET [MODEL [FAILURES]] | import NET MODEL FAILURES FLOWS\n";

/// Words, how many files they fetch, and the status and the text with which they end.
type Row = (&'static str, u32, Status, &'static str);

/// The report of the triangle without demands.
const EMPTY_REPORT: &str = "?planner report; version: 1
NOTES ( )
JOURNAL ( ( 1 cut 0 )
)
POOL ( ( 0 state 0 right 0 ( 1 1 1 )
)
)
OUTCOMES ( PLAN ( caller 1 plan 1 version 0 position 0 DEMANDS ( )
cost 0.000 bound 0.000 raw 0 1 MODULES ( AB ( 0 )
BC ( 0 )
AC ( 0 )
)
CERTIFICATE ( 1 )
ROUTES ( state 0 none 1 ( )
)
tight 1 ( 0 0 0 )
( state 0 none 1 ( )
)
)
)
";

/// The report of the triangle without failures.
pub(crate) const TRIANGLE_REPORT: &str = "?planner report; version: 1
NOTES ( )
JOURNAL ( ( 1 cut 0 )
)
POOL ( ( 0 state 0 right 12000 ( 1 1 1 )
)
)
OUTCOMES ( PLAN ( caller 1 plan 1 version 0 position 0 DEMANDS ( D1 ( A C )
12.000 )
cost 10.000 bound 10.000 raw 6000 1 MODULES ( AB ( 0 )
BC ( 0 )
AC ( 2 )
)
CERTIFICATE ( 2 ( 1 pool 0 right 12000 )
)
ROUTES ( state 0 none 1 ( D1 12000 ( AC )
)
)
tight 1 ( 0 0 6000 )
( state 0 none 1 ( D1 12000 ( AC )
)
)
)
)
";

/// The report of a session in which D1 is raised to 24 before the plan.
const SESSION_REPORT: &str = "?planner report; version: 1
NOTES ( )
JOURNAL ( ( 1 caller 1 set D1 24.000 accepted 1 )
( 2 cut 0 )
( 3 caller 1 add D2 ( A X )
1.000 unknown-node )
)
POOL ( ( 0 state 0 right 24000 ( 1 1 1 )
)
)
OUTCOMES ( PLAN ( caller 1 plan 1 version 1 position 1 DEMANDS ( D1 ( A C )
24.000 )
cost 15.000 bound 15.000 raw 12000 1 MODULES ( AB ( 0 )
BC ( 0 )
AC ( 3 )
)
CERTIFICATE ( 2 ( 1 pool 0 right 24000 )
)
ROUTES ( state 0 none 1 ( D1 24000 ( AC )
)
)
tight 1 ( 0 0 12000 )
( state 0 none 1 ( D1 24000 ( AC )
)
)
)
)
";

/// The report of the triangle with setup costs that are charged: two modules and one setup.
pub(crate) const CHARGED_REPORT: &str = "?planner report; version: 1
NOTES ( )
JOURNAL ( ( 1 cut 0 )
)
POOL ( ( 0 state 0 right 12000 ( 1 1 1 )
)
)
OUTCOMES ( PLAN ( caller 1 plan 1 version 0 position 0 DEMANDS ( D1 ( A C )
12.000 )
cost 13.000 bound 6.000 raw 6000 1 MODULES ( AB ( 0 )
BC ( 0 )
AC ( 2 )
)
CERTIFICATE ( 2 ( 1 pool 0 right 12000 )
)
ROUTES ( state 0 none 1 ( D1 12000 ( AC )
)
)
tight 1 ( 0 0 6000 )
( state 0 none 1 ( D1 12000 ( AC )
)
)
)
)
";

/// The report of the triangle with setup costs that the model doesn't charge.
pub(crate) const NOTED_REPORT: &str = "?planner report; version: 1
NOTES ( setup )
JOURNAL ( ( 1 cut 0 )
)
POOL ( ( 0 state 0 right 12000 ( 1 1 1 )
)
)
OUTCOMES ( PLAN ( caller 1 plan 1 version 0 position 0 DEMANDS ( D1 ( A C )
12.000 )
cost 10.000 bound 10.000 raw 6000 1 MODULES ( AB ( 0 )
BC ( 0 )
AC ( 2 )
)
CERTIFICATE ( 2 ( 1 pool 0 right 12000 )
)
ROUTES ( state 0 none 1 ( D1 12000 ( AC )
)
)
tight 1 ( 0 0 6000 )
( state 0 none 1 ( D1 12000 ( AC )
)
)
)
)
";

/// The report of the triangle with setup costs that are charged, where each link fails alone: two modules and one setup on each.
const CHARGED_IN_FAILURES: &str = "?planner report; version: 1
NOTES ( )
JOURNAL ( ( 1 cut 0 )
( 2 cut 1 )
( 3 cut 2 )
( 4 cut 3 )
( 5 cut 4 )
( 6 cut 5 )
( 7 cut 6 )
)
POOL ( ( 0 state 0 right 12000 ( 1 1 1 )
)
( 1 state 1 right 12000 ( 0 1 1 )
)
( 2 state 2 right 12000 ( 1 0 1 )
)
( 3 state 3 right 24000 ( 1 1 0 )
)
( 4 state 1 right 12000 ( 0 0 1 )
)
( 5 state 2 right 12000 ( 0 0 1 )
)
( 6 state 3 right 12000 ( 1 0 0 )
)
)
OUTCOMES ( PLAN ( caller 1 plan 1 version 0 position 0 DEMANDS ( D1 ( A C )
12.000 )
cost 39.000 bound 18.000 raw 18000 1 MODULES ( AB ( 2 )
BC ( 2 )
AC ( 2 )
)
CERTIFICATE ( 2 ( 1 pool 3 right 24000 )
( 1 pool 4 right 12000 )
)
ROUTES ( state 0 none 1 ( D1 12000 ( AC )
)
state 1 AB 1 ( D1 12000 ( AC )
)
state 2 BC 1 ( D1 12000 ( AC )
)
state 3 AC 1 ( D1 12000 ( AB BC )
)
)
tight 1 ( 6000 6000 6000 )
( state 0 none 1 ( D1 12000 ( AB BC )
)
state 1 AB 1 ( D1 12000 ( AC )
)
state 2 BC 1 ( D1 12000 ( AC )
)
state 3 AC 1 ( D1 12000 ( AB BC )
)
)
)
)
";

/// The report of the triangle in millionths.
pub(crate) const FINER_REPORT: &str = "?planner report; version: 2
NOTES ( )
JOURNAL ( ( 1 cut 0 )
)
POOL ( ( 0 state 0 right 12000100 ( 1 1 1 )
)
)
OUTCOMES ( PLAN ( caller 1 plan 1 version 0 position 0 DEMANDS ( D1 ( A C )
12.000100 )
cost 10.000000 bound 10.000000 raw 6000050 1 MODULES ( AB ( 0 )
BC ( 0 )
AC ( 2 )
)
CERTIFICATE ( 2 ( 1 pool 0 right 12000100 )
)
ROUTES ( state 0 none 1 ( D1 12000100 ( AC )
)
)
tight 1 ( 0 0 6000050 )
( state 0 none 1 ( D1 12000100 ( AC )
)
)
)
)
";

/// The report of a session in which D1 is raised to 24.000002 before the plan.
const FINER_SESSION_REPORT: &str = "?planner report; version: 2
NOTES ( )
JOURNAL ( ( 1 caller 1 set D1 24.000002 accepted 1 )
( 2 cut 0 )
( 3 caller 1 add D2 ( A X )
0.000001 unknown-node )
)
POOL ( ( 0 state 0 right 24000002 ( 1 1 1 )
)
)
OUTCOMES ( PLAN ( caller 1 plan 1 version 1 position 1 DEMANDS ( D1 ( A C )
24.000002 )
cost 15.000000 bound 15.000000 raw 12000001 1 MODULES ( AB ( 0 )
BC ( 0 )
AC ( 3 )
)
CERTIFICATE ( 2 ( 1 pool 0 right 24000002 )
)
ROUTES ( state 0 none 1 ( D1 24000002 ( AC )
)
)
tight 1 ( 0 0 12000001 )
( state 0 none 1 ( D1 24000002 ( AC )
)
)
)
)
";

/// The report of a session in which a demand outgrows the pre-installed capacity of its link, which then needs a module and pays for its
/// setup.
pub(crate) const RAISED_REPORT: &str = "?planner report; version: 1
NOTES ( )
JOURNAL ( ( 1 cut 0 )
( 2 caller 1 set D1 13.000 accepted 1 )
)
POOL ( ( 0 state 0 right 13000 ( 1 1 1 )
)
)
OUTCOMES ( PLAN ( caller 1 plan 1 version 0 position 0 DEMANDS ( D1 ( A C )
12.000 )
cost 0.000 bound 0.000 raw 0 1 MODULES ( AB ( 0 )
BC ( 0 )
AC ( 0 )
)
CERTIFICATE ( 1 )
ROUTES ( state 0 none 1 ( D1 12000 ( AC )
)
)
tight 1 ( 0 0 0 )
( state 0 none 1 ( D1 12000 ( AC )
)
)
)
PLAN ( caller 1 plan 2 version 1 position 2 DEMANDS ( D1 ( A C )
13.000 )
cost 8.000 bound 1.000 raw 500 1 MODULES ( AB ( 0 )
BC ( 0 )
AC ( 1 )
)
CERTIFICATE ( 2 ( 1 pool 0 right 13000 )
)
ROUTES ( state 0 none 1 ( D1 13000 ( AC )
)
)
tight 1 ( 0 0 500 )
( state 0 none 1 ( D1 13000 ( AC )
)
)
)
)
";

/// Networks with and without a plan, and scripts.
const PLANS: [Row; 15] = [
    (
        "session held charge default raised",
        3,
        Status::Done,
        RAISED_REPORT,
    ),
    (
        "plan setups charge-all",
        2,
        Status::Done,
        CHARGED_IN_FAILURES,
    ),
    ("plan setups charge", 2, Status::Done, CHARGED_REPORT),
    ("plan setups", 1, Status::Done, NOTED_REPORT),
    ("plan setups plain", 2, Status::Done, NOTED_REPORT),
    ("plan finer", 1, Status::Done, FINER_REPORT),
    (
        "session finer default default finer-script",
        2,
        Status::Done,
        FINER_SESSION_REPORT,
    ),
    ("plan triangle", 1, Status::Done, TRIANGLE_REPORT),
    ("plan triangle default", 1, Status::Done, TRIANGLE_REPORT),
    ("plan empty", 1, Status::Done, EMPTY_REPORT),
    (
        "plan chain reconfigure last",
        3,
        Status::NotSurvivable,
        "not survivable: state 1 f demand D1\n",
    ),
    (
        "plan bare",
        1,
        Status::NotSurvivable,
        "not survivable: state 0 none demand D1\n",
    ),
    (
        "session triangle default default set",
        2,
        Status::Done,
        SESSION_REPORT,
    ),
    (
        "session triangle reconfigure single idle-script",
        4,
        Status::Done,
        "?planner report; version: 1\nNOTES ( )\nJOURNAL ( )\nPOOL ( )\nOUTCOMES ( )\n",
    ),
    (
        "session triangle plain default ninth",
        3,
        Status::BadScript,
        "refused script caller at 35\n",
    ),
];

/// Files that are refused or missing.
const REFUSALS: [Row; 16] = [
    (
        "plan large-then-fine",
        1,
        Status::BadNetwork,
        "refused network number-large at 93\n",
    ),
    (
        "session triangle default default finer-script",
        2,
        Status::BadScript,
        "refused script number-fine at 44\n",
    ),
    (
        "plan stuck",
        1,
        Status::BadNetwork,
        "refused network fixed-link at 93\n",
    ),
    (
        "plan stuck reconfigure single",
        1,
        Status::BadNetwork,
        "refused network fixed-link at 93\n",
    ),
    (
        "plan cut",
        1,
        Status::BadNetwork,
        "refused network ended at 78\n",
    ),
    (
        "plan hops",
        1,
        Status::BadNetwork,
        "refused network header at 0\n",
    ),
    (
        "plan chain hops",
        2,
        Status::BadModel,
        "refused model unsupported-HOP_LIMIT_MODEL at 67\n",
    ),
    (
        "plan chain chain",
        2,
        Status::BadModel,
        "refused model header at 0\n",
    ),
    (
        "plan triangle plain last",
        2,
        Status::BadFailures,
        "refused failures unused at 0\n",
    ),
    (
        "plan triangle plain nowhere",
        2,
        Status::BadFailures,
        "refused failures unused at 0\n",
    ),
    (
        "plan parallel default last",
        2,
        Status::BadFailures,
        "refused failures unknown-link at 45\n",
    ),
    ("plan X", 1, Status::NoFile, "no file X\n"),
    ("plan triangle X last", 2, Status::NoFile, "no file X\n"),
    ("plan triangle default X", 2, Status::NoFile, "no file X\n"),
    (
        "check triangle default default set",
        2,
        Status::BadReport,
        "refused report header at 0\n",
    ),
    (
        "session triangle default default X",
        2,
        Status::NoFile,
        "no file X\n",
    ),
];

/// Words outside the grammar.
const WRONG_WORDS: [Row; 12] = [
    ("check triangle default set", 0, Status::BadWords, USAGE),
    ("sample 7", 0, Status::BadWords, USAGE),
    ("sample 7 3", 0, Status::BadWords, USAGE),
    ("sample 7 41", 0, Status::BadWords, USAGE),
    ("sample +7 8", 0, Status::BadWords, USAGE),
    ("sample 18446744073709551616 8", 0, Status::BadWords, USAGE),
    ("plan", 0, Status::BadWords, USAGE),
    ("plan triangle -reconfigure", 0, Status::BadWords, USAGE),
    (
        "plan triangle default default default",
        0,
        Status::BadWords,
        USAGE,
    ),
    ("plans triangle", 0, Status::BadWords, USAGE),
    ("trim", 0, Status::BadWords, USAGE),
    (
        "trim triangle default default default",
        0,
        Status::BadWords,
        USAGE,
    ),
];

#[test]
fn plans_are_written(rt: HostRuntime) {
    for (words, fetched, status, text) in &PLANS {
        assert!(rt;
            comes_to(&rt, words, &[], *fetched, (*status, text)),
            "{words}"
        );
    }
}

#[test]
fn refusals_are_written_and_no_further_file_is_fetched(rt: HostRuntime) {
    for (words, fetched, status, text) in &REFUSALS {
        assert!(rt;
            comes_to(&rt, words, &[], *fetched, (*status, text)),
            "{words}"
        );
    }
}

#[test]
fn words_outside_the_grammar_are_answered_by_the_usage(rt: HostRuntime) {
    for (words, fetched, status, text) in &WRONG_WORDS {
        assert!(rt;
            comes_to(&rt, words, &[], *fetched, (*status, text)),
            "{words}"
        );
    }
}

/// The first half of the triangle's report, 210 of its 420 bytes.
const HALF_OF_THE_REPORT: &str = "?planner report; version: 1
NOTES ( )
JOURNAL ( ( 1 cut 0 )
)
POOL ( ( 0 state 0 right 12000 ( 1 1 1 )
)
)
OUTCOMES ( PLAN ( caller 1 plan 1 version 0 position 0 DEMANDS ( D1 ( A C )
12.000 )
cost 10.000 bound ";

/// Words, the numbers of a fetch and a put that fail, and the status, the text and the counts of faults at the end.
type Faulty = (&'static str, u32, u32, Status, &'static str, (u64, u64));

/// Runs in which one fetch or one put fails.
const FAULTY: [Faulty; 3] = [
    ("plan triangle", 0, 0, Status::ReadFault, "", (1, 0)),
    (
        "plan triangle reconfigure single",
        2,
        0,
        Status::ReadFault,
        "",
        (1, 0),
    ),
    (
        "plan triangle",
        1,
        0,
        Status::WriteFault,
        HALF_OF_THE_REPORT,
        (0, 1),
    ),
];

/// Whether a run ends as its row says.
fn ends_so<R: AllocGlobal + Threads + Wait + Sync>(rt: &R, row: &Faulty) -> bool {
    let (words, fetch, put, status, text, faults) = *row;
    match run_words(rt, words, &[], &[fetch], &[put]) {
        Some(run) => run.is(status, text.as_bytes(), faults),
        None => false,
    }
}

#[test]
fn faults_end_a_run(rt: HostRuntime) {
    for row in &FAULTY {
        assert!(rt; ends_so(&rt, row), "{}", row.0);
    }
}
