ghost use Rattle.std.specs.Prelude.{◌≡◌, ◌≤◌, ◌++◌, All, OnOk, codes, length};
ghost use Rattle.plan_terms.specs.Terms.{AreDemands};
ghost use Rattle.plan_view.specs.Terms.{IsSoundPlan, HasSoundPlan, case_of_plan, problem_case};
ghost use Rattle.text_kit.specs.Terms.{AddsText};
ghost use Rattle.view_state.specs.StateViews.{AreStateTexts, HasStateTables, IsStateView, ShowsPlanState, ShowsState, outcome_line};

use crate::heading::put_heading;
use crate::tables::put_tables;
use net_core::{Bytes, Instance, NoMemory, Problem};
use plan_types::{Outcome, Plan};
use std::alloc::Global;
use text_kit::write::put_decimal;

/// Puts the tables of a plan in a state last, with demands of its own.
fn put_planned(
    text: &mut Bytes,
    alloc: Global,
    problem: &Problem,
    plan: &Plan,
    state: u32,
) -> Result<(), NoMemory>
    requires belong { AreDemands (length problem.now.net.nodes) plan.now.demands }
    requires sound { IsSoundPlan (case_of_plan (problem_case problem.now) plan.now) plan.now }
    requires state { state ≤ length problem.now.states.listed }
    ensures { OnOk result (AddsText (HasStateTables (case_of_plan (problem_case problem.now) plan.now) plan.now state) text.old text.new) }
{
    let instance = Instance {
        net: &problem.net,
        states: &problem.states,
        demands: &plan.demands,
    };
    put_tables(text, alloc, &instance, plan, state)
}

/// Puts the line above an outcome last, with this end.
fn put_line(text: &mut Bytes, caller: u32, serial: u32, end: &[u8]) -> Result<(), NoMemory>
    ensures { OnOk result (text.new ≡ text.old ++ outcome_line caller serial end.now) }
{
    text.append(b"\n  Caller ")?;
    put_decimal(text, caller as u128)?;
    text.append(b", plan ")?;
    put_decimal(text, serial as u128)?;
    text.append(end)
}

/// Puts a plan in a state last, below the line of its numbers.
fn put_plan_state(
    text: &mut Bytes,
    alloc: Global,
    problem: &Problem,
    caller: u32,
    serial: u32,
    plan: &Plan,
    state: u32,
) -> Result<(), NoMemory>
    requires belong { AreDemands (length problem.now.net.nodes) plan.now.demands }
    requires sound { IsSoundPlan (case_of_plan (problem_case problem.now) plan.now) plan.now }
    requires state { state ≤ length problem.now.states.listed }
    ensures { OnOk result (AddsText (ShowsPlanState (problem_case problem.now) state caller serial plan.now) text.old text.new) }
{
    put_line(text, caller, serial, b"\n\n")?;
    put_planned(text, alloc, problem, plan, state)
}

/// Puts the line of an outcome without a plan last.
fn put_no_plan(text: &mut Bytes, caller: u32, serial: u32) -> Result<(), NoMemory>
    ensures { OnOk result (AddsText (λ t. t ≡ outcome_line caller serial (codes ": no plan\n")) text.old text.new) }
{
    put_line(text, caller, serial, b": no plan\n")
}

/// Puts an outcome in a state last.
fn put_outcome(
    text: &mut Bytes,
    alloc: Global,
    problem: &Problem,
    outcome: &Outcome,
    state: u32,
) -> Result<(), NoMemory>
    requires sound { HasSoundPlan (problem_case problem.now) outcome.now }
    requires state { state ≤ length problem.now.states.listed }
    ensures { OnOk result (AddsText (ShowsState (problem_case problem.now) state outcome.now) text.old text.new) }
{
    match outcome {
        Outcome::Planned {
            caller,
            serial,
            plan,
        } => put_plan_state(text, alloc, problem, *caller, *serial, plan, state),
        Outcome::Unsurvivable { caller, serial, .. } => put_no_plan(text, *caller, *serial),
    }
}

/// Puts all outcomes in a state last.
fn put_each(
    text: &mut Bytes,
    alloc: Global,
    problem: &Problem,
    outcomes: &[Outcome],
    state: u32,
) -> Result<(), NoMemory>
    requires sound { All (HasSoundPlan (problem_case problem.now)) outcomes.now }
    requires state { state ≤ length problem.now.states.listed }
    ensures { OnOk result (AddsText (AreStateTexts (problem_case problem.now) state outcomes.now) text.old text.new) }
{
    for outcome in outcomes {
        put_outcome(text, alloc, problem, outcome, state)?;
    }
    Ok(())
}

/// Puts the view of an accepted report in one state last, of a network whose file has this name: what each link carries there, and the nodes of
/// each path that a demand takes. State 0 is the one without failures, and the others are those of the failure list. Where memory runs out, the
/// text may end in part of the view. It takes time in the links of the state's paths times the number of links, and memory for the text and the
/// rows of one plan.
///
/// ```text
/// // the triangle, where AC fails: AB and BC carry 12.000, 60 per cent, and the demand goes A - B - C
/// put_state_view(&mut text, alloc, b"triangle.txt", &problem, report.outcomes.items(), 3)?;
/// ```
pub fn put_state_view(
    text: &mut Bytes,
    alloc: Global,
    network: &[u8],
    problem: &Problem,
    outcomes: &[Outcome],
    state: u32,
) -> Result<(), NoMemory>
    requires sound { All (HasSoundPlan (problem_case problem.now)) outcomes.now }
    requires state { state ≤ length problem.now.states.listed }
    ensures { OnOk result (AddsText (IsStateView network.now (problem_case problem.now) state outcomes.now) text.old text.new) }
{
    put_heading(text, network, problem, state)?;
    put_each(text, alloc, problem, outcomes, state)
}
