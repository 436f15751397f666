use crate::answers::{Case, Change, Checked, accepts_on, answer_to, rejects, right_changes};
use net_core::{LinkId, Module, Problem, StateId, States};
use plan_checker::{CheckAnswer, Finding};
use std::alloc::Global;
use worked_networks::{network, problem};

/// A plan of the triangle where a state fails the link AC, 12.00 have to be carried from A to C, and 5.00 from A to B. Both demands
/// go over AB, and the first over BC. The one cut asks for 2 * 12 + 5, at half of which no module is worth more than it costs.
const SOUND: &str = "?planner report; version: 1
NOTES ( ) JOURNAL ( ) POOL ( ( 0 state 1 right 29000 ( 1 1 0 ) ) )
OUTCOMES ( PLAN ( caller 1 plan 1 version 0 position 0
  DEMANDS ( A ( A C ) 12.000 B ( A B ) 5.000 )
  cost 20.000 bound 15.000 raw 14500 1
  MODULES ( AB ( 2 ) BC ( 2 ) AC ( 0 ) )
  CERTIFICATE ( 2 ( 1 pool 0 right 29000 ) )
  ROUTES (
    state 0 none 1 ( A 12000 ( AB BC ) B 5000 ( AB ) )
    state 1 f 1 ( A 12000 ( AB BC ) B 5000 ( AB ) )
  )
  tight 1 ( 8500 6000 0 ) (
    state 0 none 1 ( A 12000 ( AB BC ) B 5000 ( AB ) )
    state 1 f 1 ( A 12000 ( AB BC ) B 5000 ( AB ) )
  )
) )
";

/// The cut of the certificate.
const POOLED: &str = "pool 0 right";

/// The cut of the certificate, said to be outside the pool.
const LOCAL: &str = "local 1 ( 1 1 0 ) right";

/// Changes of the sound plan, and what is found first.
const CHANGES: [Change; 22] = [
    ("5.000 )", "5.001 )", 0, Finding::DemandsDiffer),
    (
        "none 1 ( A 12000 ( AB BC )",
        "none 1 ( A 12000 ( AB BC AC AB BC )",
        0,
        Finding::BadPath(StateId(0), 0),
    ),
    (
        "f 1 ( A 12000 ( AB BC )",
        "f 1 ( A 12000 ( AC )",
        0,
        Finding::BadPath(StateId(1), 0),
    ),
    (
        "f 1 ( A 12000 ( AB BC ) B 5000",
        "f 1 ( A 12000 ( AB BC ) B 4999",
        0,
        Finding::NotCarried(StateId(1), 1),
    ),
    (
        "f 1 ( A 12000 ( AB BC ) B 5000",
        "f 1 ( A 12000 ( AB BC ) B 5001",
        0,
        Finding::NotCarried(StateId(1), 1),
    ),
    (
        "none 1 ( A 12000 ( AB BC )",
        "none 1 ( A 12000 ( AC )",
        0,
        Finding::Overloaded(StateId(0), LinkId(2)),
    ),
    (
        "BC ( 2 )",
        "BC ( 1 )",
        0,
        Finding::Overloaded(StateId(0), LinkId(1)),
    ),
    (
        "BC ( 2 )",
        "BC ( 3 )",
        0,
        Finding::CostDiffers(20000, 25000),
    ),
    (
        "cost 20.000",
        "cost 20.001",
        0,
        Finding::CostDiffers(20001, 20000),
    ),
    (POOLED, LOCAL, 0, Finding::LocalCut(0)),
    ("( 1 1 0 )", "( 2 2 0 )", 0, Finding::LocalCut(0)),
    ("( 1 1 0 )", "( 1 1 1 )", 0, Finding::LocalCut(0)),
    (
        "( 1 1 0 )",
        "( 1 2 0 )",
        0,
        Finding::RightDiffers(0, 29000, 41000),
    ),
    (
        "pool 0 right 29000",
        "pool 0 right 29001",
        0,
        Finding::RightDiffers(0, 29001, 29000),
    ),
    (
        "CERTIFICATE ( 2",
        "CERTIFICATE ( 1",
        0,
        Finding::PriceExceeded(LinkId(0), 0),
    ),
    ("CERTIFICATE ( 2", "CERTIFICATE ( 4", 0, Finding::RawDiffers),
    ("raw 14500 1", "raw 14501 1", 0, Finding::RawDiffers),
    ("raw 14500 1", "raw 29000 2", 0, Finding::RawDiffers),
    (
        "bound 15.000",
        "bound 14.500",
        0,
        Finding::BoundDiffers(14500, 15000),
    ),
    (
        "bound 15.000",
        "bound 20.000",
        0,
        Finding::BoundDiffers(20000, 15000),
    ),
    ("8500 6000 0", "8500 6001 0", 0, Finding::NotTight),
    ("8500 6000 0", "8501 5999 0", 0, Finding::NotTight),
];

/// AC fails.
const CASE: Case = Case {
    setups: [0, 0, 0],
    failed: &[2],
    opening: &[(0, 2, 12000), (0, 1, 5000)],
};

/// A pool with room.
const ROOM: Checked = Checked::Plan { full: false };

#[test]
fn a_plan_with_one_part_changed_has_its_finding(rt: HostRuntime) {
    let alloc = rt.alloc();
    let full = Checked::Plan { full: true };
    assert!(rt; accepts_on(alloc, &CASE, SOUND, ("", ""), ROOM));
    assert!(rt; accepts_on(alloc, &CASE, SOUND, (POOLED, LOCAL), full));
    assert_eq!(rt; right_changes(alloc, &CASE, SOUND, &CHANGES, ROOM), 22);
}

/// AC fails, and each link has a setup of 3.00.
const CHARGED: Case = Case {
    setups: [3000, 3000, 3000],
    failed: &[2],
    opening: &[(0, 2, 12000), (0, 1, 5000)],
};

/// The two links on which something is installed pay their setups once, and AC pays none.
const CHARGED_COST: (&str, &str) = ("cost 20.000", "cost 26.000");

/// Costs without setups, with one too few, with one of a link on which nothing is installed, and with one for each module.
const OTHER_COSTS: [Change; 4] = [
    (
        "cost 20.000",
        "cost 20.000",
        0,
        Finding::CostDiffers(20000, 26000),
    ),
    (
        "cost 20.000",
        "cost 23.000",
        0,
        Finding::CostDiffers(23000, 26000),
    ),
    (
        "cost 20.000",
        "cost 29.000",
        0,
        Finding::CostDiffers(29000, 26000),
    ),
    (
        "cost 20.000",
        "cost 32.000",
        0,
        Finding::CostDiffers(32000, 26000),
    ),
];

/// Setups that differ, one of them 0, and the largest on AC, on which nothing is installed.
const UNLIKE: Case = Case {
    setups: [1000, 0, 7000],
    failed: &[2],
    opening: &[(0, 2, 12000), (0, 1, 5000)],
};

/// A setup that makes the common divisor of all charges smaller, though nothing is installed on its link.
const FINER: Case = Case {
    setups: [0, 0, 700],
    failed: &[2],
    opening: &[(0, 2, 12000), (0, 1, 5000)],
};

/// The bound is the least multiple of 0.100 then.
const FINER_BOUND: (&str, &str) = ("bound 15.000", "bound 14.500");

#[test]
fn a_plan_pays_each_setup_once(rt: HostRuntime) {
    let alloc = rt.alloc();
    assert!(rt; accepts_on(alloc, &CHARGED, SOUND, CHARGED_COST, ROOM));
    assert_eq!(rt;
        right_changes(alloc, &CHARGED, SOUND, &OTHER_COSTS, ROOM),
        4
    );
    assert!(rt; accepts_on(alloc, &UNLIKE, SOUND, ("cost 20.000", "cost 21.000"), ROOM));
    assert!(rt; accepts_on(alloc, &FINER, SOUND, FINER_BOUND, ROOM));
}

/// A module of the least capacity at a high cost.
const STEEP: [Module; 1] = [Module {
    capacity: 1,
    cost: 1 << 39,
}];

/// A plan of two links in a row, both with the capacity that the demand needs. Its certificate has a cut that is large in all its
/// numbers: it asks for 2^71 units, 2^61 times.
const LARGE: &str = "?planner report; version: 1
NOTES ( ) JOURNAL ( ) POOL ( ( 0 state 0 right 0 ( 1 4294967295 ) ) )
OUTCOMES ( PLAN ( caller 1 plan 1 version 0 position 0
  DEMANDS ( A ( A C ) 549755813.888 )
  cost 0.000 bound 0.000 raw 0 1
  MODULES ( a ( 0 ) b ( 0 ) )
  CERTIFICATE ( 2361183241434822606848 ( 2305843009213693952 pool 0 right 2361183241434822606848 ) )
  ROUTES ( state 0 none 1 ( A 549755813888 ( a b ) ) )
  loose cuts
) )
";

/// Their network and the demand.
fn large_problem(alloc: Global) -> Option<Problem> {
    let rows = [
        (0, 1, 1 << 39, STEEP.as_slice()),
        (1, 2, 1 << 39, STEEP.as_slice()),
    ];
    let net = network(alloc, 3, &rows).ok()?;
    let p = problem(alloc, net, &[(0, 2, 1 << 39)]).ok()?;
    Some(Problem {
        states: States::only_none(alloc),
        net: p.net,
        demands: p.demands,
    })
}

/// What a check says of that plan.
fn large_answer(alloc: Global) -> Option<CheckAnswer> {
    let problem = large_problem(alloc)?;
    answer_to(alloc, &problem, LARGE.as_bytes(), ROOM)
}

#[test]
fn a_certificate_of_large_numbers_is_too_wide(rt: HostRuntime) {
    assert!(rt; rejects(large_answer(rt.alloc()), 0, Finding::CertificateWide));
}
