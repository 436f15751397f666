use crate::answers::{Case, Change, Checked, accepts_on, right_changes};
use plan_checker::Finding;

/// A report of the triangle where a state fails the links AB and AC, and 12.00 have to be carried from A to C at first. The first
/// outcome is of the first edit, and the second is of the second, which leaves no demand.
const SOUND: &str = "?planner report; version: 1
NOTES ( )
JOURNAL (
  ( 1 caller 1 set A 24.000 accepted 1 )
  ( 2 cut 0 )
  ( 3 caller 2 drop Q unknown-demand )
  ( 4 caller 2 drop A accepted 2 )
  ( 5 caller 1 add B ( B C ) 5.000 accepted 3 )
  ( 6 cut 1 )
)
POOL (
  ( 0 state 0 right 5000 ( 1 1 1 ) )
  ( 1 state 1 right 5000 ( 0 1 0 ) )
)
OUTCOMES (
  UNSURVIVABLE ( caller 1 plan 1 version 1 position 1 state 1 f demand A )
  PLAN ( caller 2 plan 1 version 2 position 4 DEMANDS ( ) cost 0.000 bound 0.000 raw 0 1
    MODULES ( AB ( 0 ) BC ( 0 ) AC ( 0 ) )
    CERTIFICATE ( 1 )
    ROUTES ( state 0 none 1 ( ) state 1 f 1 ( ) )
    loose cuts
  )
)
";

/// Changes of a reply, an edit or an index of the journal, and what is found first.
const EDITS: [Change; 8] = [
    ("accepted 1", "accepted 2", 0, Finding::EntryDiffers(1)),
    ("unknown-demand", "accepted 2", 0, Finding::EntryDiffers(3)),
    (
        "drop A accepted 2",
        "drop A unknown-demand",
        0,
        Finding::EntryDiffers(4),
    ),
    ("drop A", "drop Q", 0, Finding::EntryDiffers(4)),
    (
        ") 5.000 accepted",
        ") 6.000 accepted",
        0,
        Finding::PoolDiffers(0, 5000, 6000),
    ),
    ("24.000", "0.000", 1, Finding::Survivable),
    ("( 2 cut 0 )", "( 2 cut 1 )", 0, Finding::EntryDiffers(2)),
    ("( 6 cut 1 )", "( 6 cut 0 )", 0, Finding::EntryDiffers(6)),
];

/// Changes of the journal by which an entry is left out or two are exchanged, and what is found first.
const ORDERS: [Change; 6] = [
    (
        "( 1 caller 1 set A 24.000 accepted 1 )
  ( 2 cut 0 )
  ( 3 caller 2 drop Q unknown-demand )
  ( 4 caller 2 drop A accepted 2 )
  ( 5 caller 1 add B ( B C ) 5.000 accepted 3 )
  ( 6 cut 1 )",
        "( 1 cut 0 ) ( 2 caller 2 drop Q unknown-demand ) ( 3 caller 2 drop A accepted 2 )
( 4 caller 1 add B ( B C ) 5.000 accepted 3 ) ( 5 cut 1 )",
        0,
        Finding::EntryDiffers(3),
    ),
    (
        "( 2 cut 0 )
  ( 3 caller 2 drop Q unknown-demand )
  ( 4 caller 2 drop A accepted 2 )
  ( 5 caller 1 add B ( B C ) 5.000 accepted 3 )
  ( 6 cut 1 )",
        "( 2 caller 2 drop Q unknown-demand ) ( 3 caller 2 drop A accepted 2 )
( 4 caller 1 add B ( B C ) 5.000 accepted 3 ) ( 5 cut 1 )",
        0,
        Finding::EntryDiffers(5),
    ),
    (
        "( 3 caller 2 drop Q unknown-demand )
  ( 4 caller 2 drop A accepted 2 )
  ( 5 caller 1 add B ( B C ) 5.000 accepted 3 )
  ( 6 cut 1 )",
        "( 3 caller 2 drop A accepted 2 ) ( 4 caller 1 add B ( B C ) 5.000 accepted 3 ) ( 5 cut 1 )",
        2,
        Finding::VersionDiffers(2, 3),
    ),
    ("( 6 cut 1 )", "", 0, Finding::PoolCount(2, 1)),
    (
        "( 4 caller 2 drop A accepted 2 )
  ( 5 caller 1 add B ( B C ) 5.000 accepted 3 )",
        "( 4 caller 1 add B ( B C ) 5.000 accepted 3 ) ( 5 caller 2 drop A accepted 2 )",
        0,
        Finding::EntryDiffers(4),
    ),
    (
        "( 1 caller 1 set A 24.000 accepted 1 )
  ( 2 cut 0 )",
        "( 1 cut 0 ) ( 2 caller 1 set A 24.000 accepted 1 )",
        1,
        Finding::VersionDiffers(1, 0),
    ),
];

/// Pools with a cut left out, doubled, or changed, and what is found first.
const POOLS: [Change; 9] = [
    (
        "( 1 state 1 right 5000 ( 0 1 0 ) )",
        "",
        0,
        Finding::PoolCount(1, 2),
    ),
    (
        "( 0 1 0 ) )",
        "( 0 1 0 ) ) ( 2 state 0 right 5000 ( 1 1 1 ) )",
        0,
        Finding::PoolCount(3, 2),
    ),
    (
        "( 1 state 1 right 5000 ( 0 1 0 ) )",
        "( 1 state 0 right 5000 ( 1 1 1 ) )",
        0,
        Finding::BadCut(1),
    ),
    ("5000 ( 0 1 0 )", "10000 ( 0 2 0 )", 0, Finding::BadCut(1)),
    ("( 0 1 0 )", "( 0 1 1 )", 0, Finding::BadCut(1)),
    ("5000 ( 1 1 1 )", "0 ( 0 0 0 )", 0, Finding::BadCut(0)),
    (
        "5000 ( 0 1 0 )",
        "5001 ( 0 1 0 )",
        0,
        Finding::PoolDiffers(1, 5001, 5000),
    ),
    (
        "5000 ( 1 1 1 )",
        "12000 ( 1 1 1 )",
        0,
        Finding::PoolDiffers(0, 12000, 5000),
    ),
    (
        "( 1 state 1 right",
        "( 1 state 0 right",
        0,
        Finding::PoolDiffers(1, 5000, 0),
    ),
];

/// Changes of the notes and of the outcomes, and what is found first.
const OUTCOMES: [Change; 8] = [
    ("NOTES ( )", "NOTES ( fixed )", 0, Finding::NotesDiffer),
    (
        "version 1 position 1",
        "version 2 position 1",
        1,
        Finding::VersionDiffers(2, 1),
    ),
    (
        "version 1 position 1",
        "version 1 position 0",
        1,
        Finding::VersionDiffers(1, 0),
    ),
    (
        "state 1 f demand",
        "state 0 none demand",
        1,
        Finding::Survivable,
    ),
    ("demand A )", "demand Q )", 1, Finding::Survivable),
    (
        "version 2 position 4",
        "version 3 position 7",
        2,
        Finding::VersionDiffers(3, 3),
    ),
    (
        "version 2 position 4",
        "version 1 position 3",
        2,
        Finding::DemandsDiffer,
    ),
    ("cost 0.000", "cost 5.000", 2, Finding::CostDiffers(5000, 0)),
];

/// AB and AC fail together.
const CASE: Case = Case {
    setups: [0, 0, 0],
    failed: &[0, 2],
    opening: &[(0, 2, 12000)],
};

#[test]
fn a_report_with_one_entry_changed_has_its_finding(rt: HostRuntime) {
    let alloc = rt.alloc();
    assert!(rt; accepts_on(alloc, &CASE, SOUND, ("", ""), Checked::Report));
    assert_eq!(rt;
        right_changes(alloc, &CASE, SOUND, &EDITS, Checked::Report),
        8
    );
    assert_eq!(rt;
        right_changes(alloc, &CASE, SOUND, &ORDERS, Checked::Report),
        6
    );
}

#[test]
fn a_report_with_one_cut_or_outcome_changed_has_its_finding(rt: HostRuntime) {
    let alloc = rt.alloc();
    assert_eq!(rt;
        right_changes(alloc, &CASE, SOUND, &POOLS, Checked::Report),
        9
    );
    assert_eq!(rt;
        right_changes(alloc, &CASE, SOUND, &OUTCOMES, Checked::Report),
        8
    );
}
