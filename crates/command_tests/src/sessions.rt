use crate::runs::{Ended, comes_to, run_words};
use net_core::{Bytes, List};
use planner_commands::Status;
use sample_net::{network_text, sample};
use std::alloc::Global;
use std::sync::Wait;
use std::thread::Threads;

/// What each caller's commands begin with.
const CALLERS: [&[u8]; 8] = [
    b"caller 1 ",
    b"caller 2 ",
    b"caller 3 ",
    b"caller 4 ",
    b"caller 5 ",
    b"caller 6 ",
    b"caller 7 ",
    b"caller 8 ",
];

/// Edits of the four towns' demands. Which of them are refused depends on the ones before.
const EDITS: [&[u8]; 7] = [
    b"set D1 24\n",
    b"add D4 ( Bonn Ulm ) 7.25\n",
    b"set D2 36.5\n",
    b"drop D4\n",
    b"add D4 ( Ulm Jena ) 0\n",
    b"set D3 0.001\n",
    b"set D4 12\n",
];

/// A script of 1,000 commands of eight callers, 64 of which are plans.
fn eight_callers(alloc: Global) -> Option<Bytes> {
    let mut text = List::from_slice(alloc, b"?planner script; version: 1\n").ok()?;
    for i in 0..1000usize {
        text.append(CALLERS[i % 8]).ok()?;
        let plans = i % 15 == 14 && i < 960;
        text.append(if plans { b"plan\n" } else { EDITS[i % 7] })
            .ok()?;
    }
    Some(text)
}

/// Whether the report of the four towns' session is accepted, with 64 plans.
fn eight_callers_are_accepted<R: AllocGlobal + Threads + Wait + Sync>(rt: &R) -> Option<bool> {
    let script = eight_callers(rt.alloc())?;
    let files = [("eight", script.items())];
    let session = run_words(rt, "session towns default single eight", &files, &[], &[])?;
    let files = [("report", session.out.bytes())];
    let answer = (Status::Done, "accepted 64\n");
    let checked = comes_to(rt, "check towns default single report", &files, 3, answer);
    Some(checked && session.status == Status::Done)
}

#[test]
fn a_report_of_eight_callers_is_accepted(rt: HostRuntime) {
    assert!(rt; eight_callers_are_accepted(&rt) == Some(true));
}

/// Twenty plans of four callers.
const TWENTY_PLANS: &[u8] = b"?planner script; version: 1
caller 1 plan\ncaller 2 plan\ncaller 3 plan\ncaller 4 plan
caller 1 plan\ncaller 2 plan\ncaller 3 plan\ncaller 4 plan
caller 1 plan\ncaller 2 plan\ncaller 3 plan\ncaller 4 plan
caller 1 plan\ncaller 2 plan\ncaller 3 plan\ncaller 4 plan
caller 1 plan\ncaller 2 plan\ncaller 3 plan\ncaller 4 plan
";

/// The network of `sample 7 8`.
fn sample_network(alloc: Global) -> Option<Bytes> {
    let (net, demands) = sample(alloc, 7, 8).ok()?;
    network_text(alloc, &net, &demands).ok()
}

/// Whether the text of a run has twenty tight plans with the raw value that a plan alone has.
fn has_twenty_plans(run: &Ended) -> bool {
    let raw = run.text().matches(" raw 3869385800 9641 ").count();
    let tight = run.text().matches("\ntight ").count();
    run.status == Status::Done && raw == 20 && tight == 20
}

/// Whether twenty plans at once of the sample have the raw value that a plan alone has, and the report is accepted.
fn twenty_plans_agree<R: AllocGlobal + Threads + Wait + Sync>(rt: &R) -> Option<bool> {
    let net = sample_network(rt.alloc())?;
    let files = [("sample", net.items()), ("twenty", TWENTY_PLANS)];
    let session = run_words(rt, "session sample default single twenty", &files, &[], &[])?;
    let files = [("sample", net.items()), ("report", session.out.bytes())];
    let answer = (Status::Done, "accepted 20\n");
    let checked = comes_to(rt, "check sample default single report", &files, 3, answer);
    Some(checked && has_twenty_plans(&session))
}

#[test]
fn plans_at_once_have_the_value_of_a_plan_alone(rt: HostRuntime) {
    assert!(rt; twenty_plans_agree(&rt) == Some(true));
}

/// A script of one plan.
const ONE_PLAN: &[u8] = b"?planner script; version: 1\ncaller 1 plan\n";

/// Whether a session of one plan reports the same as a plan.
fn one_plan_agrees<R: AllocGlobal + Threads + Wait + Sync>(rt: &R) -> Option<bool> {
    let plan = run_words(rt, "plan parallel default single", &[], &[], &[])?;
    let files = [("one", ONE_PLAN)];
    let answer = (Status::Done, plan.text());
    let words = "session parallel default single one";
    Some(comes_to(rt, words, &files, 3, answer))
}

#[test]
fn a_session_of_one_plan_reports_what_a_plan_does(rt: HostRuntime) {
    assert!(rt; one_plan_agrees(&rt) == Some(true));
}
