use net_core::{Bytes, Module, Problem};
use outside_io::{OpenGate, Status};
use people_plans::{PlanAnswer, plan_for_people};
use people_views::{ViewForm, view_report};
use std::alloc::Global;
use std::sync::Wait;
use std::thread::Threads;
use worked_networks::{DemandRow, LinkRow, TEN, network, problem};

/// A module that costs nothing.
const FREE: [Module; 1] = [Module {
    capacity: 10000,
    cost: 0,
}];

/// A module of 10.00 for 5.00.
const FIVE: [Module; 1] = [Module {
    capacity: 10000,
    cost: 5000,
}];

/// The number of nodes; links, each of which may fail; demands; how many splits are asked for; and the answer with a report: its status,
/// how its text begins, and the message.
type AnswerRow = (
    usize,
    &'static [LinkRow<'static>],
    &'static [DemandRow],
    Option<u32>,
    Status,
    &'static [u8],
    &'static [u8],
);

/// How a report begins.
const HEAD: &[u8] = b"?planner report; version: 1\n";

/// The first block of the view of the triangle's plan.
const BLOCK: &[u8] = b"n.txt   3 nodes, 3 links, 1 demand of 12.000; 3 failures, all survived

  cost        30.000   cheapest (branch tree of 1 box)
  at least    20.000   by one certificate of cuts; gap 33.3 %
  fractional  18.000   no certificate of cuts gives more
";

/// What is said of the network with a bridge.
const SEPARATED: &[u8] = b"n.txt: there is no plan, since some demands can't be carried
  where d fails, no path joins the ends of demand A
  where d fails, no path joins the ends of demand C
not survivable: state 4 d demand A
";

/// What is said of the network with a free module.
const COSTS_NOTHING: &[u8] = b"n.txt: a module of link b costs nothing
  a plan is shown to be cheap only where each module costs something; give it a cost, as 0.001
refused network free-module at 0
";

/// A bridge that two of three demands cross; a link whose module costs nothing; and the triangle with links a, b and c, each of which needs
/// two modules: a and b if c fails, and c if a fails. The certificate of its plan has half of the cut of two links that asks for 24.00 in
/// the last state, and half of one that asks for 12.00. The root of its tree alone shows that each link needs two modules.
const ANSWERS: [AnswerRow; 4] = [
    (
        4,
        &[
            (0, 1, 0, &TEN),
            (1, 2, 0, &TEN),
            (0, 2, 0, &TEN),
            (2, 3, 0, &TEN),
        ],
        &[(0, 3, 12000), (0, 1, 5000), (3, 1, 2000)],
        None,
        Status::NotSurvivable,
        b"",
        SEPARATED,
    ),
    (
        2,
        &[(0, 1, 0, &FIVE), (0, 1, 0, &FREE)],
        &[(0, 1, 12000)],
        None,
        Status::BadNetwork,
        b"",
        COSTS_NOTHING,
    ),
    (
        3,
        &[(0, 1, 0, &FIVE), (1, 2, 0, &FIVE), (0, 2, 0, &FIVE)],
        &[(0, 2, 12000)],
        None,
        Status::Done,
        HEAD,
        BLOCK,
    ),
    (
        3,
        &[(0, 1, 0, &FIVE), (1, 2, 0, &FIVE), (0, 2, 0, &FIVE)],
        &[(0, 2, 12000)],
        Some(0),
        Status::Done,
        HEAD,
        BLOCK,
    ),
];

/// The problem of a row.
fn problem_of(alloc: Global, row: &AnswerRow) -> Option<Problem> {
    let net = network(alloc, row.0, row.1).ok()?;
    problem(alloc, net, row.2).ok()
}

/// The answer to a row, with a report or with a view.
fn answer<R: Threads + Wait + Sync>(
    rt: &R,
    alloc: Global,
    problem: &Problem,
    splits: u32,
    wanted: bool,
) -> Option<PlanAnswer> {
    let splits = if splits <= 9999 { Some(splits) } else { None };
    plan_for_people(rt, alloc, b"n.txt", problem, splits, wanted, &OpenGate).ok()
}

/// Whether an answer has the status and the message of a row, and a text that begins like the row's, and is empty if that is.
fn is_as_in(answer: &PlanAnswer, row: &AnswerRow) -> bool {
    answer.status == row.4
        && answer.message.items() == row.6
        && answer.text.items().starts_with(row.5)
        && (answer.text.len() > 0) == (row.5.len() > 0)
}

/// Whether the answer to a row is the expected one.
fn is_right<R: Threads + Wait + Sync>(rt: &R, alloc: Global, row: &AnswerRow) -> bool {
    let Some(problem) = problem_of(alloc, row) else {
        return false;
    };
    match answer(rt, alloc, &problem, row.3.unwrap_or(10000), true) {
        Some(answer) => is_as_in(&answer, row),
        None => false,
    }
}

/// The first row whose answer isn't the expected one.
fn first_wrong<R: Threads + Wait + Sync>(rt: &R, alloc: Global) -> Option<usize> {
    for i in 0..ANSWERS.len() {
        if !is_right(rt, alloc, &ANSWERS[i]) {
            return Some(i);
        }
    }
    None
}

/// The view of a printed report, if a check accepts the report and its tree.
fn viewed(alloc: Global, problem: &Problem, report: &[u8]) -> Option<Bytes> {
    view_report(alloc, "n.txt", "r.txt", problem, report, ViewForm::Tables).ok()
}

/// Whether the report of a row's plan is accepted, and its view is the one that is printed in place of the report.
fn is_viewed<R: Threads + Wait + Sync>(rt: &R, alloc: Global, row: &AnswerRow) -> Option<bool> {
    let problem = problem_of(alloc, row)?;
    let report = answer(rt, alloc, &problem, 0, true)?;
    let view = answer(rt, alloc, &problem, 0, false)?;
    let read = viewed(alloc, &problem, report.text.items())?;
    Some(read.items() == view.text.items() && view.message.len() == 0)
}

#[test]
fn plans_for_people_are_answered(rt: HostRuntime) {
    let wrong = first_wrong(&rt, rt.alloc());
    assert!(rt; wrong.is_none(), "row {}", wrong.unwrap_or(0));
}

#[test]
fn reports_for_people_are_accepted_and_viewed(rt: HostRuntime) {
    assert!(rt; is_viewed(&rt, rt.alloc(), &ANSWERS[2]) == Some(true));
}
