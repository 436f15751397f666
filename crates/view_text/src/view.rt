ghost use Rattle.std.specs.Prelude.{◌≡◌, ◌++◌, All, OnOk, length};
ghost use Rattle.plan_terms.specs.Terms.{AreDemands};
ghost use Rattle.plan_view.specs.Terms.{IsSoundPlan, case_of_plan, HasSoundPlan, problem_case};
ghost use Rattle.text_kit.specs.Terms.{AddsText};
ghost use Rattle.view_text.{specs.CostProofs.HoldsProof, specs.OutcomeCells.{HasOutcomes, separation_text}, specs.PlanViews.{IsCostView, IsPlanView}, specs.Reports.{AreOutcomeViews, IsBody, IsBrief, IsFirstBlock, IsNumberedView, IsOutcomeView, IsReportView, IsSessionView, IsShortView, HoldsOfOutcome, HoldsOfSingle, no_outcome_text}};

use crate::heading::put_heading;
use crate::outcomes::{put_numbers, put_outcomes, put_separation};
use crate::plan::{put_plan, put_plan_costs};
use crate::proof::CostProof;
use net_core::{Bytes, Instance, Listed, Name, NoMemory, Problem, StateId};
use plan_types::{Outcome, Plan};
use std::alloc::Global;

/// Puts the view of a plan last, with demands of its own.
fn put_planned(
    text: &mut Bytes,
    alloc: Global,
    problem: &Problem,
    plan: &Plan,
    proof: CostProof,
) -> Result<(), NoMemory>
    requires belong { AreDemands (length problem.now.net.nodes) plan.now.demands }
    requires sound { IsSoundPlan (case_of_plan (problem_case problem.now) plan.now) plan.now }
    requires holds { HoldsProof (case_of_plan (problem_case problem.now) plan.now) plan.now proof }
    ensures { OnOk result (AddsText (IsPlanView (case_of_plan (problem_case problem.now) plan.now) plan.now proof) text.old text.new) }
{
    let instance = Instance {
        net: &problem.net,
        states: &problem.states,
        demands: &plan.demands,
    };
    put_plan(text, alloc, &instance, plan, proof)
}

/// Puts the costs of a plan last, with demands of its own.
fn put_planned_costs(
    text: &mut Bytes,
    alloc: Global,
    problem: &Problem,
    plan: &Plan,
    proof: CostProof,
) -> Result<(), NoMemory>
    requires belong { AreDemands (length problem.now.net.nodes) plan.now.demands }
    requires sound { IsSoundPlan (case_of_plan (problem_case problem.now) plan.now) plan.now }
    requires holds { HoldsProof (case_of_plan (problem_case problem.now) plan.now) plan.now proof }
    ensures { OnOk result (AddsText (IsCostView (case_of_plan (problem_case problem.now) plan.now) plan.now proof) text.old text.new) }
{
    let instance = Instance {
        net: &problem.net,
        states: &problem.states,
        demands: &plan.demands,
    };
    put_plan_costs(text, alloc, &instance, plan, proof)
}

/// Puts the line of a separation last.
fn put_apart(
    text: &mut Bytes,
    listed: &[Listed],
    state: StateId,
    demand: &Name,
) -> Result<(), NoMemory>
    ensures { OnOk result (AddsText (λ t. t ≡ separation_text listed.now state.0 demand.now) text.old text.new) }
{
    put_separation(text, listed, state, demand)
}

/// Puts the view of one outcome last.
fn put_outcome(
    text: &mut Bytes,
    alloc: Global,
    problem: &Problem,
    outcome: &Outcome,
    proof: CostProof,
) -> Result<(), NoMemory>
    requires sound { HasSoundPlan (problem_case problem.now) outcome.now }
    requires holds { HoldsOfOutcome (problem_case problem.now) proof outcome.now }
    ensures { OnOk result (AddsText (IsOutcomeView (problem_case problem.now) proof outcome.now) text.old text.new) }
{
    match outcome {
        Outcome::Planned { plan, .. } => put_planned(text, alloc, problem, plan, proof),
        Outcome::Unsurvivable { state, demand, .. } => {
            put_apart(text, problem.states.listed().items(), *state, demand)
        }
    }
}

/// Puts the view of one outcome of several last, below the line of its numbers.
fn put_numbered(
    text: &mut Bytes,
    alloc: Global,
    problem: &Problem,
    outcome: &Outcome,
) -> Result<(), NoMemory>
    requires { HasSoundPlan (problem_case problem.now) outcome.now }
    ensures { OnOk result (AddsText (IsNumberedView (problem_case problem.now) outcome.now) text.old text.new) }
{
    put_numbers(text, outcome)?;
    put_outcome(text, alloc, problem, outcome, CostProof::Nothing)
}

/// Puts the views of several outcomes last, each below the line of its numbers.
fn put_each(
    text: &mut Bytes,
    alloc: Global,
    problem: &Problem,
    outcomes: &[Outcome],
) -> Result<(), NoMemory>
    requires { All (HasSoundPlan (problem_case problem.now)) outcomes.now }
    ensures { OnOk result (AddsText (AreOutcomeViews (problem_case problem.now) outcomes.now) text.old text.new) }
{
    for outcome in outcomes {
        put_numbered(text, alloc, problem, outcome)?;
    }
    Ok(())
}

/// Puts the table of several outcomes last.
fn put_table(
    text: &mut Bytes,
    alloc: Global,
    problem: &Problem,
    outcomes: &[Outcome],
) -> Result<(), NoMemory>
    ensures { OnOk result (AddsText (HasOutcomes problem.now.net.places outcomes.now) text.old text.new) }
{
    put_outcomes(text, alloc, problem.net.places(), outcomes)
}

/// Puts the table of several outcomes last, and the view of each.
fn put_session(
    text: &mut Bytes,
    alloc: Global,
    problem: &Problem,
    outcomes: &[Outcome],
) -> Result<(), NoMemory>
    requires { All (HasSoundPlan (problem_case problem.now)) outcomes.now }
    ensures { OnOk result (AddsText (IsSessionView (problem_case problem.now) outcomes.now) text.old text.new) }
{
    put_table(text, alloc, problem, outcomes)?;
    put_each(text, alloc, problem, outcomes)
}

/// Puts last that there is no outcome.
fn put_none(text: &mut Bytes) -> Result<(), NoMemory>
    ensures { OnOk result (AddsText (λ t. t ≡ no_outcome_text) text.old text.new) }
{
    text.append(b"  the report has no plan\n")
}

/// Puts what is below the first line last.
fn put_body(
    text: &mut Bytes,
    alloc: Global,
    problem: &Problem,
    outcomes: &[Outcome],
    proof: CostProof,
) -> Result<(), NoMemory>
    requires sound { All (HasSoundPlan (problem_case problem.now)) outcomes.now }
    requires holds { HoldsOfSingle (problem_case problem.now) proof outcomes.now }
    ensures { OnOk result (AddsText (IsBody (problem_case problem.now) proof outcomes.now) text.old text.new) }
{
    match outcomes {
        [] => put_none(text),
        [outcome] => put_outcome(text, alloc, problem, outcome, proof),
        [_, _, ..] => put_session(text, alloc, problem, outcomes),
    }
}

/// Puts the first block of one outcome last.
fn put_short(
    text: &mut Bytes,
    alloc: Global,
    problem: &Problem,
    outcome: &Outcome,
    proof: CostProof,
) -> Result<(), NoMemory>
    requires sound { HasSoundPlan (problem_case problem.now) outcome.now }
    requires holds { HoldsOfOutcome (problem_case problem.now) proof outcome.now }
    ensures { OnOk result (AddsText (IsShortView (problem_case problem.now) proof outcome.now) text.old text.new) }
{
    match outcome {
        Outcome::Planned { plan, .. } => put_planned_costs(text, alloc, problem, plan, proof),
        Outcome::Unsurvivable { state, demand, .. } => {
            put_apart(text, problem.states.listed().items(), *state, demand)
        }
    }
}

/// Puts what is below the first line in the first block last.
fn put_brief(
    text: &mut Bytes,
    alloc: Global,
    problem: &Problem,
    outcomes: &[Outcome],
    proof: CostProof,
) -> Result<(), NoMemory>
    requires sound { All (HasSoundPlan (problem_case problem.now)) outcomes.now }
    requires holds { HoldsOfSingle (problem_case problem.now) proof outcomes.now }
    ensures { OnOk result (AddsText (IsBrief (problem_case problem.now) proof outcomes.now) text.old text.new) }
{
    match outcomes {
        [] => put_none(text),
        [outcome] => put_short(text, alloc, problem, outcome, proof),
        [_, _, ..] => put_table(text, alloc, problem, outcomes),
    }
}

/// Puts the view of an accepted report's outcomes last, of a network whose file has this name: the first line, with the size of the network, and
/// below it the tables of a single plan, or the table of several outcomes and the view of each. What is known of a plan's cost is told of a
/// single plan. Where memory runs out, the text may end in part of the view.
///
/// It takes time in the links of all paths times the number of links, and in the square of the flows of each state, and memory for the text
/// and the rows of one plan.
///
/// ```text
/// // the triangle, where each link fails alone: a cost of 30.000, which a branch tree of 1 box shows to be the least
/// put_view(&mut text, alloc, b"data/triangle.txt", &problem, report.outcomes.items(), CostProof::Cheapest(1))?;
/// ```
pub fn put_view(
    text: &mut Bytes,
    alloc: Global,
    network: &[u8],
    problem: &Problem,
    outcomes: &[Outcome],
    proof: CostProof,
) -> Result<(), NoMemory>
    requires sound { All (HasSoundPlan (problem_case problem.now)) outcomes.now }
    requires holds { HoldsOfSingle (problem_case problem.now) proof outcomes.now }
    ensures { OnOk result (AddsText (IsReportView network.now (problem_case problem.now) outcomes.now proof) text.old text.new) }
{
    put_heading(text, network, problem, outcomes)?;
    put_body(text, alloc, problem, outcomes, proof)
}

/// Puts the first block of that view last: the first line, and below it the costs of a single plan, the line of a single outcome without one, or
/// the table of several outcomes. Where memory runs out, the text may end in part of the block.
///
/// It takes time in the links of the paths without failures times the number of links, and memory for the text and a capacity of each link.
///
/// ```text
/// // the triangle, where each link fails alone: the lines of its size, its cost, its bound and its fractional value
/// put_first_block(&mut text, alloc, b"data/triangle.txt", &problem, report.outcomes.items(), CostProof::Cheapest(1))?;
/// ```
pub fn put_first_block(
    text: &mut Bytes,
    alloc: Global,
    network: &[u8],
    problem: &Problem,
    outcomes: &[Outcome],
    proof: CostProof,
) -> Result<(), NoMemory>
    requires sound { All (HasSoundPlan (problem_case problem.now)) outcomes.now }
    requires holds { HoldsOfSingle (problem_case problem.now) proof outcomes.now }
    ensures { OnOk result (AddsText (IsFirstBlock network.now (problem_case problem.now) outcomes.now proof) text.old text.new) }
{
    put_heading(text, network, problem, outcomes)?;
    put_brief(text, alloc, problem, outcomes, proof)
}
