use crate::texts::joined;
use net_core::{Bytes, Copied, Link, List, Network, Notes, Places, Problem};
use plan_checker::{CheckAnswer, Finding, check_plan};
use plan_types::Outcome;
use report_checker::check_report;
use report_reader::read_report;
use std::alloc::Global;
use worked_networks::{DemandRow, failing, problem, triangle};

/// What is checked of a report.
#[derive(Clone, Copy)]
pub(crate) enum Checked {
    Report,
    /// The plan of its first outcome, where the pool is full or has room.
    Plan { full: bool },
}

/// The setups of the triangle's links, the links of its one failing state, and the demands before the first entry.
pub(crate) struct Case {
    pub(crate) setups: [u64; 3],
    pub(crate) failed: &'static [u32],
    pub(crate) opening: &'static [DemandRow],
}

/// The links of the triangle with these setups.
fn links_with(net: &Network, setups: &[u64]) -> Option<List<Link>> {
    let mut links = net.links().copy().ok()?;
    let items = links.items_mut();
    for e in 0..items.len() {
        if let Some(setup) = setups.get(e) {
            items[e].setup = *setup;
        }
    }
    Some(links)
}

/// The triangle with these setups, which are charged.
fn charged(alloc: Global, setups: &[u64]) -> Option<Network> {
    let plain = triangle(alloc, 0).ok()?;
    let links = links_with(&plain, setups)?;
    let notes = Notes {
        fixed_cost: false,
        routing_cost: false,
        setup_cost: false,
    };
    Network::check(plain.nodes().copy().ok()?, links, notes, Places::Three).ok()
}

/// The network, the states and the demands of a case.
fn problem_of(alloc: Global, case: &Case) -> Option<Problem> {
    let net = charged(alloc, &case.setups)?;
    let states = failing(alloc, &net, &[case.failed]).ok()?;
    let p = problem(alloc, net, case.opening).ok()?;
    Some(Problem {
        net: p.net,
        states,
        demands: p.demands,
    })
}

/// What a check says of a report with the problem's demands before its first entry.
pub(crate) fn answer_to(
    alloc: Global,
    problem: &Problem,
    text: &[u8],
    checked: Checked,
) -> Option<CheckAnswer> {
    let (net, states, demands) = (&problem.net, &problem.states, &problem.demands);
    let report = read_report(alloc, net, states, text).ok()?;
    match (checked, report.outcomes.items().first()) {
        (Checked::Report, _) => Some(check_report(alloc, net, states, demands, &report)),
        (Checked::Plan { full }, Some(Outcome::Planned { plan, .. })) => {
            Some(check_plan(alloc, net, states, demands, plan, full))
        }
        _ => None,
    }
}

/// A part of a text, what replaces it, the outcome that is found wrong, and how.
pub(crate) type Change = (&'static str, &'static str, u32, Finding);

/// The text with the first occurrence of a part replaced by another.
fn replaced(alloc: Global, text: &str, part: &str, by: &str) -> Option<Bytes> {
    let (front, rest) = text.split_once(part)?;
    joined(alloc, front.as_bytes(), by.as_bytes(), rest.as_bytes())
}

/// What a check says of a report with one part in place of another.
fn answer_after(
    alloc: Global,
    problem: &Problem,
    report: &str,
    change: (&str, &str),
    checked: Checked,
) -> Option<CheckAnswer> {
    let text = replaced(alloc, report, change.0, change.1)?;
    answer_to(alloc, problem, text.items(), checked)
}

/// Whether a check rejects this outcome for this finding.
pub(crate) fn rejects(answer: Option<CheckAnswer>, at: u32, wrong: Finding) -> bool {
    match answer {
        Some(CheckAnswer::Rejected { outcome, finding }) => outcome == at && finding == wrong,
        _ => false,
    }
}

/// Whether a check accepts.
fn accepts(answer: Option<CheckAnswer>) -> bool {
    matches!(answer, Some(CheckAnswer::Accepted))
}

/// Whether a check accepts a case's report with one part in place of another.
pub(crate) fn accepts_on(
    alloc: Global,
    case: &Case,
    report: &str,
    change: (&str, &str),
    checked: Checked,
) -> bool {
    match problem_of(alloc, case) {
        Some(problem) => accepts(answer_after(alloc, &problem, report, change, checked)),
        None => false,
    }
}

/// How many changes have their findings, up to the first that hasn't.
fn count_right(
    alloc: Global,
    problem: &Problem,
    report: &str,
    changes: &[Change],
    checked: Checked,
) -> usize {
    for (i, (part, by, outcome, finding)) in changes.iter().enumerate() {
        let answer = answer_after(alloc, problem, report, (part, by), checked);
        if !rejects(answer, *outcome, *finding) {
            return i;
        }
    }
    changes.len()
}

/// How many changes of a case's report have their findings, up to the first that hasn't.
pub(crate) fn right_changes(
    alloc: Global,
    case: &Case,
    report: &str,
    changes: &[Change],
    checked: Checked,
) -> usize {
    match problem_of(alloc, case) {
        Some(problem) => count_right(alloc, &problem, report, changes, checked),
        None => 0,
    }
}
