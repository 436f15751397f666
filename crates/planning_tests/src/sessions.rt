//! Tests of sessions on the triangle.
ghost use Rattle.std.specs.Prelude.{IfSome};
ghost use Rattle.session_script.specs.Terms.{IsScript};

use crate::gates::{EditAmidPlan, LateEdit};
use crate::problems::{Place, TRIANGLE, place_of};
use net_core::{Entry, List, Places, Reply};
use outside_io::{Gate, OpenGate};
use plan_types::{Outcome, Report};
use session_run::{run_session, single_plan};
use session_script::{Script, read_script};
use std::alloc::Global;
use std::sync::Wait;
use std::thread::Threads;
use worked_networks::{DemandRow, demands};

/// A demand of 12.00 from A to C.
const ONE: [DemandRow; 1] = [(0, 2, 12000)];

/// Sixteen demands of the greatest need, which leave 15 thousandths up to the greatest total.
const GREAT: [DemandRow; 16] = [(0, 2, 1099511627775); 16];

/// The script of these commands.
fn script_of(alloc: Global, commands: &[u8]) -> Option<Script>
    ensures { IfSome result (λ script. IsScript script.commands) }
{
    let mut text = List::new(alloc);
    text.append(b"?planner script; version: 1\n").ok()?;
    text.append(commands).ok()?;
    match read_script(alloc, Places::Three, text.items()) {
        Ok(script) => Some(script),
        Err(_) => None,
    }
}

/// The report of a script.
fn report_at<R: Threads + Wait + Sync, G: Gate + Sync>(
    rt: &R,
    alloc: Global,
    place: &Place,
    opening: &[DemandRow],
    script: &Script,
    gate: &G,
) -> Option<Report>
    requires { IsScript script.now.commands }
{
    let opening = demands(alloc, place.net.nodes().len(), opening).ok()?;
    run_session(rt, alloc, &place.net, &place.states, opening, script, gate).ok()
}

/// The report of a script's commands on the triangle, where a state fails the links of each row. The gate may hold callers.
fn report<R: Threads + Wait + Sync, G: Gate + Sync>(
    rt: &R,
    alloc: Global,
    fail: &[&[u32]],
    opening: &[DemandRow],
    commands: &[u8],
    gate: &G,
) -> Option<Report> {
    let script = script_of(alloc, commands)?;
    let place = place_of(alloc, 3, &TRIANGLE, fail)?;
    report_at(rt, alloc, &place, opening, &script, gate)
}

/// What a row expects of a plan: caller, serial, version, position, cost and bound in thousandths, and the right side of its certificate's
/// first line.
type Looked = (u32, u32, u64, u64, u128, u128, u128);

fn look(outcome: &Outcome) -> Option<Looked> {
    let Outcome::Planned {
        caller,
        serial,
        plan,
    } = outcome
    else {
        return None;
    };
    let right = match plan.certificate.lines.items() {
        [line, ..] => line.cut.right,
        [] => 0,
    };
    Some((
        *caller,
        *serial,
        plan.version,
        plan.position,
        plan.cost,
        plan.bound,
        right,
    ))
}

/// Whether the outcomes are these plans, in this order.
fn are_plans(report: &Report, want: &[Looked]) -> bool {
    let outcomes = report.outcomes.items();
    for (outcome, want) in outcomes.iter().zip(want) {
        if look(outcome) != Some(*want) {
            return false;
        }
    }
    outcomes.len() == want.len()
}

/// Commands, the plans that are expected, how many entries there are, and the right side of the first cut at the end.
type Session = (&'static [u8], &'static [Looked], usize, Option<u128>);

const SESSIONS: [Session; 3] = [
    (b"", &[], 0, None),
    (
        b"caller 2 set A 24\ncaller 2 plan\ncaller 2 plan\n",
        &[
            (2, 1, 1, 1, 15000, 15000, 24000),
            (2, 2, 1, 2, 15000, 15000, 24000),
        ],
        2,
        Some(24000),
    ),
    (
        b"caller 1 plan\ncaller 1 set A 24\ncaller 1 plan\n",
        &[
            (1, 1, 0, 0, 10000, 10000, 12000),
            (1, 2, 1, 2, 15000, 15000, 24000),
        ],
        2,
        Some(24000),
    ),
];

/// The right side of the pool's first cut.
fn first_right(report: &Report) -> Option<u128> {
    match report.pool.items() {
        [line, ..] => Some(line.right),
        [] => None,
    }
}

/// Whether a report is what the row expects.
fn is_of_session(report: &Option<Report>, session: &Session) -> bool {
    let Some(report) = report else {
        return false;
    };
    are_plans(report, session.1)
        && report.entries.len() == session.2
        && first_right(report) == session.3
}

/// Whether a row's commands have the report that it expects.
fn is_as_wanted<R: Threads + Wait + Sync>(rt: &R, alloc: Global, session: &Session) -> bool {
    let report = report(rt, alloc, &[], &ONE, session.0, &OpenGate);
    is_of_session(&report, session)
}

/// Whether each row's commands have the report that it expects.
fn are_as_wanted<R: Threads + Wait + Sync>(rt: &R, alloc: Global, sessions: &[Session]) -> bool {
    for session in sessions {
        if !is_as_wanted(rt, alloc, session) {
            return false;
        }
    }
    true
}

#[test]
fn plans_belong_to_their_versions(rt: HostRuntime) {
    assert!(rt; are_as_wanted(&rt, rt.alloc(), &SESSIONS));
}

/// Whether caller 1 plans after its edit, and the plan of caller 2 is from before the edit or from after it.
fn is_either_way(report: &Option<Report>) -> bool {
    let Some(report) = report else {
        return false;
    };
    let [first, second] = report.outcomes.items() else {
        return false;
    };
    let of_first = matches!(look(first), Some((1, 1, 1, _, 15000, _, _)));
    let of_second = matches!(
        look(second),
        Some((2, 1, 0, _, 10000, _, _)) | Some((2, 1, 1, _, 15000, _, _))
    );
    of_first && of_second
}

/// Whether caller 2 may plan before or after an edit of caller 1, where the two run at once.
fn plan_beside_an_edit<R: Threads + Wait + Sync>(rt: &R, alloc: Global) -> bool {
    let commands = b"caller 2 plan\ncaller 1 set A 24\ncaller 1 plan\n";
    let report = report(rt, alloc, &[], &ONE, commands, &OpenGate);
    is_either_way(&report)
}

#[test]
fn another_caller_may_plan_before_an_edit_or_after_it(rt: HostRuntime) {
    assert!(rt; plan_beside_an_edit(&rt, rt.alloc()));
}

/// Whether the edits of the journal are by these callers, in this order.
fn are_editors(report: &Option<Report>, want: &[u32]) -> bool {
    let Some(report) = report else {
        return false;
    };
    let mut rest = want.iter();
    for entry in report.entries.items() {
        if let Entry::Edited { caller, .. } = entry {
            match rest.next() {
                Some(next) if *next == *caller => {}
                _ => return false,
            }
        }
    }
    rest.next().is_none()
}

/// Whether an edit of one caller that is held until another caller has edited comes after that one's edit.
fn edits_late<R: Threads + Wait + Sync>(rt: &R, alloc: Global, held: u32, by: u32) -> bool {
    let commands = b"caller 1 set A 24\ncaller 2 set A 36\n";
    let gate = LateEdit::new(held, by);
    let report = report(rt, alloc, &[], &ONE, commands, &gate);
    are_editors(&report, &[by, held])
}

#[test]
fn callers_run_at_the_same_time(rt: HostRuntime) {
    assert!(rt; edits_late(&rt, rt.alloc(), 1, 2));
    assert!(rt; edits_late(&rt, rt.alloc(), 2, 1));
}

/// Whether the edit of caller 2 is the fifth entry, after the opening cuts of caller 1's plan, and the right sides of these follow it.
fn is_amid(report: &Option<Report>) -> bool {
    let Some(report) = report else {
        return false;
    };
    let [plan] = report.outcomes.items() else {
        return false;
    };
    let is_planned = matches!(look(plan), Some((1, 1, 0, 0, 30000, 20000, _)));
    let is_fifth = matches!(
        report.entries.items(),
        [_, _, _, _, Entry::Edited { caller: 2, .. }, ..]
    );
    let [a, b, c, d, ..] = report.pool.items() else {
        return false;
    };
    let states = [a.state.0, b.state.0, c.state.0, d.state.0];
    let rights = [a.right, b.right, c.right, d.right];
    is_planned && is_fifth && states == [0, 1, 2, 3] && rights == [24000, 24000, 24000, 48000]
}

/// States that fail each link of the triangle alone.
const EACH_ALONE: [&[u32]; 3] = [&[0], &[1], &[2]];

/// Whether an edit of caller 2 comes amid the cuts of a plan of caller 1.
fn edits_amid<R: Threads + Wait + Sync>(rt: &R, alloc: Global) -> bool {
    let commands = b"caller 1 plan\ncaller 2 set A 24\n";
    let gate = EditAmidPlan::new();
    let report = report(rt, alloc, &EACH_ALONE, &ONE, commands, &gate);
    is_amid(&report)
}

#[test]
fn an_edit_comes_amid_the_cuts_of_a_plan(rt: HostRuntime) {
    assert!(rt; edits_amid(&rt, rt.alloc()));
}

/// The demands, commands, and the replies that are expected.
type Replies = (&'static [DemandRow], &'static [u8], &'static [Reply]);

const REPLIES: [Replies; 2] = [
    (
        &ONE,
        b"caller 3 add D2 ( A X ) 1\ncaller 3 add D2 ( A A ) 1\ncaller 3 drop Z\n\
caller 3 add D2 ( A B ) 5\ncaller 3 add D2 ( A B ) 5\ncaller 3 drop D2\n",
        &[
            Reply::UnknownNode,
            Reply::SelfDemand,
            Reply::UnknownDemand,
            Reply::Accepted(1),
            Reply::KnownDemand,
            Reply::Accepted(2),
        ],
    ),
    (
        &GREAT,
        b"caller 1 add Q ( A B ) 0.016\ncaller 1 add Q ( A B ) 0.015\n",
        &[Reply::TooMuch(17592186044416), Reply::Accepted(1)],
    ),
];

/// Whether the edits of the journal have these replies, in this order.
fn are_replies(report: &Option<Report>, want: &[Reply]) -> bool {
    let Some(report) = report else {
        return false;
    };
    let mut rest = want.iter();
    for entry in report.entries.items() {
        if let Entry::Edited { reply, .. } = entry {
            match rest.next() {
                Some(next) if *next == *reply => {}
                _ => return false,
            }
        }
    }
    rest.next().is_none()
}

/// Whether a row's commands have its replies.
fn is_replied<R: Threads + Wait + Sync>(rt: &R, alloc: Global, row: &Replies) -> bool {
    let report = report(rt, alloc, &[], row.0, row.1, &OpenGate);
    are_replies(&report, row.2)
}

/// Whether each row's commands have its replies.
fn are_replied<R: Threads + Wait + Sync>(rt: &R, alloc: Global, rows: &[Replies]) -> bool {
    for row in rows {
        if !is_replied(rt, alloc, row) {
            return false;
        }
    }
    true
}

#[test]
fn edits_have_replies_in_their_order(rt: HostRuntime) {
    assert!(rt; are_replied(&rt, rt.alloc(), &REPLIES));
}

/// Whether the first outcome names the demand A, which state 2 separates at version 1, and the second one is a plan for a demand of 0.
fn names_separated(report: &Option<Report>) -> bool {
    let Some(report) = report else {
        return false;
    };
    let [first, second] = report.outcomes.items() else {
        return false;
    };
    let Outcome::Unsurvivable {
        caller: 7,
        serial: 1,
        version: 1,
        position: 1,
        state,
        demand,
    } = first
    else {
        return false;
    };
    state.0 == 2 && demand.bytes() == b"A".as_slice() && look(second) == Some((7, 2, 2, 2, 0, 0, 0))
}

/// States of which the second fails two links of the triangle.
const TWO_AT_ONCE: [&[u32]; 2] = [&[1], &[0, 2]];

/// Whether the outcome names the demand that two links failing at once separate.
fn names_at_two<R: Threads + Wait + Sync>(rt: &R, alloc: Global) -> bool {
    let commands = b"caller 7 set A 24\ncaller 7 plan\ncaller 7 set A 0\ncaller 7 plan\n";
    let report = report(rt, alloc, &TWO_AT_ONCE, &ONE, commands, &OpenGate);
    names_separated(&report)
}

#[test]
fn an_outcome_names_the_separated_demand(rt: HostRuntime) {
    assert!(rt; names_at_two(&rt, rt.alloc()));
}

/// The report of one plan, on the triangle without failures.
fn report_on_triangle<R: Threads + Wait + Sync>(rt: &R, alloc: Global) -> Option<Report> {
    let script = single_plan(alloc).ok()?;
    let place = place_of(alloc, 3, &TRIANGLE, &[])?;
    report_at(rt, alloc, &place, &ONE, &script, &OpenGate)
}

/// What is expected of the plan of that report.
const ONLY: [Looked; 1] = [(1, 1, 0, 0, 10000, 10000, 12000)];

/// Whether the report has that plan and no other outcome.
fn is_one_plan<R: Threads + Wait + Sync>(rt: &R, alloc: Global) -> bool {
    let report = report_on_triangle(rt, alloc);
    match &report {
        Some(report) => are_plans(report, &ONLY),
        None => false,
    }
}

#[test]
fn a_script_may_be_one_plan(rt: HostRuntime) {
    assert!(rt; is_one_plan(&rt, rt.alloc()));
}
