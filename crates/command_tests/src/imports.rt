use crate::plans::TRIANGLE_REPORT;
use crate::runs::{comes_to, run_words};
use planner_commands::Status;
use std::sync::Wait;
use std::thread::Threads;

/// Words of an import, the bytes of its file of flows, how many files are fetched, and the status and the text with which it ends.
type Row = (&'static str, &'static str, u32, Status, &'static str);

/// Imports into the triangle and into a chain. The triangle's demand goes from A to C, its links have modules of 10, and each link fails
/// alone.
const IMPORTS: [Row; 15] = [
    (
        "import triangle default default flows",
        "?planner flows; version: 1\nMODULES ( AB ( 0 ) BC ( 0 ) AC ( 2 ) )\nFLOWS ( none ( D1 AC A 12 ) )\n",
        2,
        Status::Done,
        TRIANGLE_REPORT,
    ),
    (
        "import triangle default default flows",
        "?planner flows; version: 1\nMODULES ( AB ( 0 ) BC ( 0 ) AC ( 1 ) )\nFLOWS ( none ( D1 AC A 12 ) )\n",
        2,
        Status::BadImport,
        "rejected import overloaded none AC\n",
    ),
    (
        "import triangle default default flows",
        "?planner flows; version: 1\nMODULES ( AB ( 0 ) BC ( 0 ) AC ( 2 ) )\nFLOWS ( none ( D1 AC A 11 ) )\n",
        2,
        Status::BadImport,
        "rejected import unbalanced none D1 A\n",
    ),
    (
        "import triangle default default flows",
        "?planner flows; version: 1\nMODULES ( AB ( 0 ) BC ( 0 ) AC ( 2 ) )\nFLOWS ( none ( ) )\n",
        2,
        Status::BadImport,
        "rejected import unbalanced none D1 A\n",
    ),
    (
        "import triangle default default flows",
        "?planner flows; version: 1\nMODULES ( AB ( 2 ) BC ( 0 ) AC ( 2 ) )\nFLOWS ( none ( D1 AC A 12 D1 AB B 1 ) )\n",
        2,
        Status::BadImport,
        "rejected import unbalanced none D1 A\n",
    ),
    (
        "import triangle default default flows",
        "?planner flows; version: 1\nMODULES ( AB ( 2 ) BC ( 0 ) AC ( 2 ) )\nFLOWS ( none ( D1 AC A 12 D1 AC A 5 D1 AC C 5 ) )\n",
        2,
        Status::BadImport,
        "rejected import overloaded none AC\n",
    ),
    (
        "import triangle reconfigure default flows",
        "?planner flows; version: 1\nMODULES ( AB ( 2 ) BC ( 2 ) AC ( 2 ) )\nFLOWS ( none ( D1 AC A 12 ) AB ( D1 AC A 12 ) BC ( D1 AC A 12 ) AC ( D1 AC A 12 ) )\n",
        3,
        Status::BadImport,
        "rejected import dead AC AC\n",
    ),
    (
        "import triangle reconfigure default flows",
        "?planner flows; version: 1\nMODULES ( AB ( 2 ) BC ( 1 ) AC ( 2 ) )\nFLOWS ( none ( D1 AC A 12 ) AB ( D1 AC A 12 ) BC ( D1 AC A 12 ) AC ( D1 AB A 12 D1 BC B 12 ) )\n",
        3,
        Status::BadImport,
        "rejected import overloaded AC BC\n",
    ),
    (
        "import chain default last flows",
        "?planner flows; version: 1\nMODULES ( AB ( 0 ) BC ( 0 ) )\nFLOWS ( none ( ) f ( ) )\n",
        3,
        Status::NotSurvivable,
        "not survivable: state 1 f demand D1\n",
    ),
    (
        "import triangle default default flows",
        "?planner flows; version: 1\nMODULES ( AB ( 0 ) BC ( 0 ) AC ( 2 ) )\n( none ( D1 AC A 12 ) )\n",
        2,
        Status::BadFlows,
        "refused flows section at 66\n",
    ),
    (
        "import triangle default default flows",
        "?planner flows; version: 1\nMODULES ( AB ( 0 ) BC ( 0 ) AC ( 2 ) )\n",
        2,
        Status::BadFlows,
        "refused flows ended at 66\n",
    ),
    (
        "import triangle default default flows",
        "?planner flows; version: 1\nMODULES ( AB ( 0 ) BC ( 0 ) AC ( 2 ) )\nFLOWS ( none ( D1 AC B 12 ) )\n",
        2,
        Status::BadFlows,
        "refused flows unknown-name at 87\n",
    ),
    (
        "import triangle default default missing",
        "",
        2,
        Status::NoFile,
        "no file missing\n",
    ),
    (
        "import triangle plain single flows",
        "",
        2,
        Status::BadFailures,
        "refused failures unused at 0\n",
    ),
    (
        "import stuck default default flows",
        "",
        1,
        Status::BadNetwork,
        "refused network fixed-link at 93\n",
    ),
];

/// Whether the import of a row ends as the row says.
fn imports<R: AllocGlobal + Threads + Wait + Sync>(rt: &R, row: &Row) -> bool {
    let (words, flows, fetched, status, text) = *row;
    comes_to(
        rt,
        words,
        &[("flows", flows.as_bytes())],
        fetched,
        (status, text),
    )
}

#[test]
fn each_import_comes_to_its_answer(rt: HostRuntime) {
    for row in &IMPORTS {
        assert!(rt; imports(&rt, row), "{} {}", row.0, row.1);
    }
}

/// Whether an import of the demand's flow beside one that goes round has the counts of its file, their cost, the planner's bound and one
/// flow over AC, and is accepted.
fn a_circle_is_imported<R: AllocGlobal + Threads + Wait + Sync>(rt: &R) -> Option<bool> {
    let run = run_words(rt, "import triangle default default circle", &[], &[], &[])?;
    let files = [("report", run.out.bytes())];
    let answer = (Status::Done, "accepted 1\n");
    let checked = comes_to(
        rt,
        "check triangle default default report",
        &files,
        2,
        answer,
    );
    let text = run.text();
    let counts = text.contains("MODULES ( AB ( 2 )\nBC ( 2 )\nAC ( 2 )\n)\n");
    let worth = text.contains("cost 30.000 bound 10.000 raw 6000 1 ");
    let routes = text.contains("ROUTES ( state 0 none 1 ( D1 12000 ( AC )\n)\n)\ntight ");
    Some(run.status == Status::Done && checked && counts && worth && routes)
}

#[test]
fn a_flow_that_goes_round_is_dropped(rt: HostRuntime) {
    assert!(rt; a_circle_is_imported(&rt) == Some(true));
}
