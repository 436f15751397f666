ghost use Rattle.std.specs.Prelude.{IsTrue};
ghost use Rattle.plan_terms.specs.Terms.{case_of};
ghost use Rattle.plan_report.specs.Terms.{IsPlanInForm, known_to};
ghost use Rattle.plan_view.specs.Terms.{IsSoundPlan};

use crate::rows::{LinkWant, LoadWant, StateWant, are_link_rows, are_load_rows, are_state_rows};
use net_core::{Instance, LinkId, Problem};
use plan_checker::{CheckAnswer, check_plan};
use plan_types::{Outcome, Plan};
use plan_view::{PlanSummary, gap_of, link_rows, load_rows, plan_summary, state_rows};
use report_reader::read_report;
use std::alloc::Global;
use worked_networks::{failing, problem, triangle};

/// A plan of the triangle, whose links each have this capacity in place, for one demand from A to C, and what people read of it.
#[derive(Clone, Copy)]
struct Worked {
    fixed: u64,
    need: u64,
    failed: &'static [&'static [u32]],
    report: &'static str,
    links: [LinkWant; 3],
    states: &'static [StateWant],
    /// What the links carry in the first failure.
    loads: [LoadWant; 3],
    whole: PlanSummary,
}

const WORKED: [Worked; 4] = [
    // each link fails alone; the demand goes along AC, and along AB and BC where AC fails
    Worked {
        fixed: 0,
        need: 12000,
        failed: &[&[0], &[1], &[2]],
        report: "?planner report; version: 1
NOTES ( ) JOURNAL ( ) POOL ( ( 0 state 3 right 24000 ( 1 1 0 ) ) ( 1 state 1 right 12000 ( 0 0 1 ) ) )
OUTCOMES ( PLAN ( caller 1 plan 1 version 0 position 0
  DEMANDS ( A ( A C ) 12.000 )
  cost 30.000 bound 20.000 raw 18000 1
  MODULES ( AB ( 2 ) BC ( 2 ) AC ( 2 ) )
  CERTIFICATE ( 2 ( 1 pool 0 right 24000 ) ( 1 pool 1 right 12000 ) )
  ROUTES (
    state 0 none 1 ( A 12000 ( AC ) )
    state 1 f 1 ( A 12000 ( AC ) )
    state 2 g 1 ( A 12000 ( AC ) )
    state 3 h 1 ( A 12000 ( AB BC ) )
  )
  loose cuts
) )
",
        links: [
            (20000, 0, 12000, 3, 60, 10000),
            (20000, 0, 12000, 3, 60, 10000),
            (20000, 12000, 12000, 0, 60, 10000),
        ],
        states: &[
            (&[], 0, Some(LinkId(2)), 60, 0),
            (&[LinkId(0)], 0, Some(LinkId(2)), 60, 333),
            (&[LinkId(1)], 0, Some(LinkId(2)), 60, 0),
            (&[LinkId(2)], 12000, Some(LinkId(0)), 60, 667),
        ],
        loads: [(0, 0), (0, 0), (12000, 60)],
        whole: PlanSummary {
            cost: 30000,
            bound: 20000,
            raw: 18000,
            gap: 333,
            capacity: 60000,
            normal: 12000,
            states: 4,
        },
    },
    // a duct with AB and BC fails; a third of the demand goes along AC before, and all of it then, each way in two flows or one. There is
    // no certificate.
    Worked {
        fixed: 5000,
        need: 10000,
        failed: &[&[0, 1]],
        report: "?planner report; version: 1
NOTES ( ) JOURNAL ( ) POOL ( )
OUTCOMES ( PLAN ( caller 1 plan 1 version 0 position 0
  DEMANDS ( A ( A C ) 10.000 )
  cost 15.000 bound 0.000 raw 0 1
  MODULES ( AB ( 1 ) BC ( 1 ) AC ( 1 ) )
  CERTIFICATE ( 1 )
  ROUTES (
    state 0 none 3 ( A 5000 ( AB BC ) A 10000 ( AC ) A 15000 ( AB BC ) )
    state 1 f 1 ( A 4000 ( AC ) A 6000 ( AC ) )
  )
  loose cuts
) )
",
        links: [
            (15000, 6667, 6667, 0, 45, 5000),
            (15000, 6667, 6667, 0, 45, 5000),
            (15000, 3334, 10000, 1, 67, 5000),
        ],
        states: &[
            (&[], 0, Some(LinkId(0)), 45, 0),
            (&[LinkId(0), LinkId(1)], 6667, Some(LinkId(2)), 67, 0),
        ],
        loads: [(0, 0), (0, 0), (10000, 67)],
        whole: PlanSummary {
            cost: 15000,
            bound: 0,
            raw: 0,
            gap: 1000,
            capacity: 45000,
            normal: 16667,
            states: 2,
        },
    },
    // AC fails, on which nothing is installed; of the 24.000 that the cut asks for, 10.000 are in place
    Worked {
        fixed: 5000,
        need: 12000,
        failed: &[&[2]],
        report: "?planner report; version: 1
NOTES ( ) JOURNAL ( ) POOL ( ( 0 state 1 right 24000 ( 1 1 0 ) ) )
OUTCOMES ( PLAN ( caller 1 plan 1 version 0 position 0
  DEMANDS ( A ( A C ) 12.000 )
  cost 10.000 bound 10.000 raw 7000 1
  MODULES ( AB ( 1 ) BC ( 1 ) AC ( 0 ) )
  CERTIFICATE ( 2 ( 1 pool 0 right 24000 ) )
  ROUTES (
    state 0 none 1 ( A 12000 ( AB BC ) )
    state 1 f 1 ( A 12000 ( AB BC ) )
  )
  loose cuts
) )
",
        links: [
            (15000, 12000, 12000, 0, 80, 5000),
            (15000, 12000, 12000, 0, 80, 5000),
            (5000, 0, 0, 0, 0, 0),
        ],
        states: &[
            (&[], 0, Some(LinkId(0)), 80, 0),
            (&[LinkId(2)], 0, Some(LinkId(0)), 80, 1000),
        ],
        loads: [(12000, 80), (12000, 80), (0, 0)],
        whole: PlanSummary {
            cost: 10000,
            bound: 10000,
            raw: 7000,
            gap: 0,
            capacity: 35000,
            normal: 24000,
            states: 2,
        },
    },
    // nothing is asked for, and nothing is carried
    Worked {
        fixed: 5000,
        need: 0,
        failed: &[&[0]],
        report: "?planner report; version: 1
NOTES ( ) JOURNAL ( ) POOL ( )
OUTCOMES ( PLAN ( caller 1 plan 1 version 0 position 0
  DEMANDS ( A ( A C ) 0.000 )
  cost 0.000 bound 0.000 raw 0 1
  MODULES ( AB ( 0 ) BC ( 0 ) AC ( 0 ) )
  CERTIFICATE ( 1 )
  ROUTES ( state 0 none 1 ( ) state 1 f 1 ( ) )
  loose cuts
) )
",
        links: [
            (5000, 0, 0, 0, 0, 0),
            (5000, 0, 0, 0, 0, 0),
            (5000, 0, 0, 0, 0, 0),
        ],
        states: &[(&[], 0, None, 0, 0), (&[LinkId(0)], 0, None, 0, 0)],
        loads: [(0, 0), (0, 0), (0, 0)],
        whole: PlanSummary {
            cost: 0,
            bound: 0,
            raw: 0,
            gap: 0,
            capacity: 15000,
            normal: 0,
            states: 2,
        },
    },
];

/// The triangle with the states and the demand of a row.
fn problem_of(alloc: Global, worked: &Worked) -> Option<Problem> {
    let net = triangle(alloc, worked.fixed).ok()?;
    let states = failing(alloc, &net, worked.failed).ok()?;
    let p = problem(alloc, net, &[(0, 2, worked.need)]).ok()?;
    Some(Problem {
        net: p.net,
        states,
        demands: p.demands,
    })
}

/// Whether a check accepts the plan.
fn is_accepted(alloc: Global, instance: &Instance, plan: &Plan) -> bool
    requires { IsPlanInForm (known_to (case_of instance.now)) plan.now }
    ensures { IsTrue result → IsSoundPlan (case_of instance.now) plan.now }
{
    match check_plan(
        alloc,
        instance.net,
        instance.states,
        instance.demands,
        plan,
        false,
    ) {
        CheckAnswer::Accepted => true,
        _ => false,
    }
}

/// Whether the rows of a sound plan are the expected ones.
fn are_seen(alloc: Global, instance: &Instance, plan: &Plan, worked: &Worked) -> Option<bool>
    requires { IsSoundPlan (case_of instance.now) plan.now }
{
    if instance.states.count() < 2 {
        return None;
    }
    let links = link_rows(alloc, instance, plan).ok()?;
    let states = state_rows(alloc, instance, plan).ok()?;
    let loads = load_rows(alloc, instance, plan, 1).ok()?;
    let whole = plan_summary(alloc, instance, plan).ok()?;
    Some(
        are_link_rows(links.items(), &worked.links)
            && are_state_rows(states.items(), worked.states)
            && are_load_rows(loads.items(), &worked.loads)
            && whole == worked.whole,
    )
}

/// Whether a check accepts the plan, and its rows are the expected ones.
fn is_seen(alloc: Global, instance: &Instance, plan: &Plan, worked: &Worked) -> Option<bool>
    requires { IsPlanInForm (known_to (case_of instance.now)) plan.now }
{
    if is_accepted(alloc, instance, plan) {
        are_seen(alloc, instance, plan, worked)
    } else {
        Some(false)
    }
}

/// Whether what people read of a row's plan for an instance is the expected one.
fn is_right_for(alloc: Global, instance: &Instance, worked: &Worked) -> Option<bool> {
    let text = worked.report.as_bytes();
    let report = read_report(alloc, instance.net, instance.states, text).ok()?;
    match report.outcomes.items().first()? {
        Outcome::Planned { plan, .. } => is_seen(alloc, instance, plan, worked),
        Outcome::Unsurvivable { .. } => None,
    }
}

/// Whether what people read of a row's plan is the expected one.
fn is_right(alloc: Global, worked: &Worked) -> Option<bool> {
    let p = problem_of(alloc, worked)?;
    is_right_for(alloc, &p.instance(), worked)
}

/// How many rows are right, up to the first that isn't.
fn right_rows(alloc: Global) -> usize {
    for (i, worked) in WORKED.iter().enumerate() {
        if is_right(alloc, worked) != Some(true) {
            return i;
        }
    }
    WORKED.len()
}

#[test]
fn rows_of_plans_have_the_numbers_worked_out_by_hand(rt: HostRuntime) {
    assert_eq!(rt; right_rows(rt.alloc()), 4);
}

/// A cost, a bound, and the gap in tenths of a per cent of the cost.
const GAPS: [(u128, u128, u32); 11] = [
    (30000, 20000, 333),
    (3, 1, 667),
    (16, 15, 63),
    (400, 399, 3),
    (2000, 1999, 1),
    (2001, 2000, 1),
    (100000, 99999, 1),
    (1000, 1000, 0),
    (1000, 2000, 0),
    (0, 0, 0),
    (1 << 126, 0, 1000),
];

/// The first gap that isn't as wanted.
fn first_wrong() -> Option<usize> {
    GAPS.iter()
        .position(|(cost, bound, gap)| gap_of(*cost, *bound) != *gap)
}

#[test]
fn gaps_are_to_the_nearest_and_never_hidden(rt: HostRuntime) {
    let wrong = first_wrong();
    assert!(rt; wrong.is_none(), "row {}", wrong.unwrap_or(0));
}
