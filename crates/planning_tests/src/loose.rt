//! Tests of plannings that end loose: each report is read again by the checker.
ghost use Rattle.std.specs.Prelude.{length};
ghost use Rattle.net_core.specs.Terms.{AreDemands};
ghost use Rattle.session_script.specs.Terms.{IsScript};

use crate::problems::{Place, place_of};
use net_core::{Copied, Demands, LinkId, List, Listed, Module, Name, States};
use outside_io::OpenGate;
use plan_checker::CheckAnswer;
use plan_types::{Cause, Outcome, Plan, Quality, Report};
use report_checker::check_report;
use session_run::{run_session, single_plan};
use session_script::Script;
use std::alloc::Global;
use std::sync::Wait;
use std::thread::Threads;
use worked_networks::{DemandRow, LinkRow, TEN, demands, network};

/// The report of a script, if the checker accepts it.
#[tactic(auto, using(crate::proofs::Forms::in_form))]
fn accepted<R: Threads + Wait + Sync>(
    rt: &R,
    alloc: Global,
    place: &Place,
    opening: &Demands,
    script: &Script,
) -> Option<Report>
    requires opening { AreDemands (length place.now.net.nodes) opening.now }
    requires script { IsScript script.now.commands }
{
    let Place { net, states } = place;
    let copy = opening.copy().ok()?;
    let report = run_session(rt, alloc, net, states, copy, script, &OpenGate).ok()?;
    match check_report(alloc, net, states, opening, &report) {
        CheckAnswer::Accepted => Some(report),
        _ => None,
    }
}

/// The report of one plan for these demands, if the checker accepts it.
fn report_of<R: Threads + Wait + Sync>(
    rt: &R,
    alloc: Global,
    place: &Place,
    rows: &[DemandRow],
) -> Option<Report> {
    let opening = demands(alloc, place.net.nodes().len(), rows).ok()?;
    let script = single_plan(alloc).ok()?;
    accepted(rt, alloc, place, &opening, &script)
}

/// The plan of a report that has a single outcome.
fn only_plan(report: &Report) -> Option<&Plan> {
    match report.outcomes.items() {
        [Outcome::Planned { plan, .. }] => Some(plan),
        _ => None,
    }
}

/// A module close to the greatest capacity, for 1.000.
const LARGE: [Module; 1] = [Module {
    capacity: 1099511627689,
    cost: 1000,
}];

/// A larger module, for 1.001. The two capacities have no common divisor.
const LARGER: [Module; 1] = [Module {
    capacity: 1099511627773,
    cost: 1001,
}];

/// A chain of two links, whose shares have a common scale of about 2^80.
const WIDE: [LinkRow; 2] = [(0, 1, 0, &LARGE), (1, 2, 0, &LARGER)];

/// The report of a plan for a demand along each of these links.
fn report_of_wide<R: Threads + Wait + Sync>(rt: &R, alloc: Global) -> Option<Report> {
    let place = place_of(alloc, 3, &WIDE, &[])?;
    report_of(rt, alloc, &place, &[(0, 1, 12000), (1, 2, 7000)])
}

/// Whether the plan costs one module of each link and ends loose by width.
fn is_loose_by_width(report: &Option<Report>) -> bool {
    let Some(report) = report else {
        return false;
    };
    let Some(plan) = only_plan(report) else {
        return false;
    };
    plan.cost == 2001 && matches!(&plan.quality, Quality::Loose(Cause::Wide(_)))
}

/// Whether the planning for a demand along each of the wide links costs one module of each and ends loose by width.
fn ends_loose_by_width<R: Threads + Wait + Sync>(rt: &R, alloc: Global) -> bool {
    let report = report_of_wide(rt, alloc);
    is_loose_by_width(&report)
}

#[test]
fn a_planning_ends_loose_by_width(rt: HostRuntime) {
    assert!(rt; ends_loose_by_width(&rt, rt.alloc()));
}

/// A chain of nineteen links, and a second link beside each of the first two. These second links fail together.
const LONG: [LinkRow; 21] = [
    (0, 1, 0, &TEN),
    (1, 2, 0, &TEN),
    (2, 3, 0, &TEN),
    (3, 4, 0, &TEN),
    (4, 5, 0, &TEN),
    (5, 6, 0, &TEN),
    (6, 7, 0, &TEN),
    (7, 8, 0, &TEN),
    (8, 9, 0, &TEN),
    (9, 10, 0, &TEN),
    (10, 11, 0, &TEN),
    (11, 12, 0, &TEN),
    (12, 13, 0, &TEN),
    (13, 14, 0, &TEN),
    (14, 15, 0, &TEN),
    (15, 16, 0, &TEN),
    (16, 17, 0, &TEN),
    (17, 18, 0, &TEN),
    (18, 19, 0, &TEN),
    (0, 1, 0, &TEN),
    (1, 2, 0, &TEN),
];

/// A demand along each link of the chain.
const ALONG: [DemandRow; 19] = [
    (0, 1, 11000),
    (1, 2, 12000),
    (2, 3, 13000),
    (3, 4, 14000),
    (4, 5, 15000),
    (5, 6, 16000),
    (6, 7, 17000),
    (7, 8, 18000),
    (8, 9, 19000),
    (9, 10, 20000),
    (10, 11, 21000),
    (11, 12, 22000),
    (12, 13, 23000),
    (13, 14, 24000),
    (14, 15, 25000),
    (15, 16, 26000),
    (16, 17, 27000),
    (17, 18, 28000),
    (18, 19, 29000),
];

/// One of 256 states, each of which fails the second links of the first two.
fn state_of(alloc: Global, k: usize) -> Option<Listed> {
    let bytes = [b'A' + (k / 16 % 16) as u8, b'A' + (k % 16) as u8];
    Some(Listed {
        name: Name::new(alloc, &bytes).ok()?,
        links: List::from_slice(alloc, &[LinkId(19), LinkId(20)]).ok()?,
    })
}

/// The chain with these states.
fn long_place(alloc: Global) -> Option<Place> {
    let mut listed = List::new(alloc);
    for k in 0..256 {
        listed.push(state_of(alloc, k)?).ok()?;
    }
    let net = network(alloc, 20, &LONG).ok()?;
    let states = States::new(&net, listed).ok()?;
    Some(Place { net, states })
}

/// Whether the pool is full and the plan ends loose by cuts.
fn is_loose_by_cuts(report: &Option<Report>) -> bool {
    let Some(report) = report else {
        return false;
    };
    let Some(plan) = only_plan(report) else {
        return false;
    };
    report.pool.len() == 4096 && matches!(&plan.quality, Quality::Loose(Cause::Cuts))
}

/// The report of a plan for the demands along the chain.
fn report_of_long<R: Threads + Wait + Sync>(rt: &R, alloc: Global) -> Option<Report> {
    let place = long_place(alloc)?;
    report_of(rt, alloc, &place, &ALONG)
}

/// Whether the planning for the demands along the chain fills the pool and ends loose by cuts.
fn ends_loose_by_cuts<R: Threads + Wait + Sync>(rt: &R, alloc: Global) -> bool {
    let report = report_of_long(rt, alloc);
    is_loose_by_cuts(&report)
}

#[test]
fn a_planning_ends_loose_by_cuts(rt: HostRuntime) {
    assert!(rt; ends_loose_by_cuts(&rt, rt.alloc()));
}
