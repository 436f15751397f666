ghost use Rattle.std.specs.Prelude.{◌≡◌, ◌++◌, IfOk, OnOk, codes};
ghost use Rattle.plan_terms.specs.Terms.{case_of};
ghost use Rattle.plan_report.specs.Terms.{known_of};
ghost use Rattle.plan_view.specs.Terms.{IsSoundPlan};
ghost use Rattle.text_kit.specs.Terms.{AddsText};
ghost use Rattle.view_text.{specs.CostProofs.HoldsProof, specs.PlanViews.{IsCostView, IsPlanView, ShowsRows, accepted_text, states_line}, specs.inner.Numbers.AreNumbers};

use crate::costs::{costs_text, put_least};
use crate::links::links_text;
use crate::proof::CostProof;
use crate::states::states_text;
use net_core::{Bytes, Instance, List, NoMemory, Places};
use plan_types::{Plan, Quality};
use plan_view::{LinkRow, PlanSummary, StateRow, link_rows, plan_summary, state_rows};
use std::alloc::Global;
use text_kit::write::put_decimal;

/// The rows of a plan.
#[derive(Drop)]
pub(crate) struct PlanNumbers {
    links: List<LinkRow>,
    states: List<StateRow>,
    whole: PlanSummary,
}

/// The rows of a plan: of each link, of each state, and of the whole.
fn numbers_of(alloc: Global, instance: &Instance, plan: &Plan) -> Result<PlanNumbers, NoMemory>
    requires { IsSoundPlan (case_of instance.now) plan.now }
    ensures { IfOk result (AreNumbers (case_of instance.now) plan.now) }
{
    let links = link_rows(alloc, instance, plan)?;
    let states = state_rows(alloc, instance, plan)?;
    let whole = plan_summary(alloc, instance, plan)?;
    Ok(PlanNumbers {
        links,
        states,
        whole,
    })
}

/// Puts last in how many states the modules of an accepted plan carry the demands: in all of them.
fn put_states(text: &mut Bytes, states: u32) -> Result<(), NoMemory>
    ensures { OnOk result (text.new ≡ text.old ++ states_line states) }
{
    text.append(b"  accepted: the modules carry every demand in ")?;
    put_decimal(text, states as u128)?;
    text.append(b" of ")?;
    put_decimal(text, states as u128)?;
    text.append(b" states, and ")
}

/// Puts the line of an accepted plan last.
fn put_accepted(
    text: &mut Bytes,
    places: Places,
    whole: &PlanSummary,
    proof: CostProof,
) -> Result<(), NoMemory>
    ensures { OnOk result (text.new ≡ text.old ++ accepted_text places whole.now proof) }
{
    put_states(text, whole.states)?;
    put_least(text, places, whole, proof)?;
    text.append(b"\n")
}

/// Puts a text last, and an empty line.
fn put_part(text: &mut Bytes, part: &Bytes) -> Result<(), NoMemory>
    ensures { OnOk result (text.new ≡ (text.old ++ part.now) ++ codes "\n") }
{
    text.append(part.items())?;
    text.append(b"\n")
}

/// Puts the texts of a plan's rows last: its costs, its links, its states, and the line of an accepted plan.
fn put_rows(
    text: &mut Bytes,
    alloc: Global,
    instance: &Instance,
    quality: &Quality,
    numbers: &PlanNumbers,
    proof: CostProof,
) -> Result<(), NoMemory>
    ensures { OnOk result (AddsText (ShowsRows (known_of instance.now.net.now instance.now.states.now) quality.now proof
        numbers.now.links numbers.now.states numbers.now.whole) text.old text.new) }
{
    let net = instance.net;
    let whole = &numbers.whole;
    let costs = costs_text(alloc, net.places(), whole, quality, proof)?;
    let links = links_text(alloc, net, instance.states, numbers.links.items(), whole)?;
    let below = states_text(alloc, net, instance.states, numbers.states.items())?;
    put_part(text, &costs)?;
    put_part(text, &links)?;
    put_part(text, &below)?;
    put_accepted(text, net.places(), whole, proof)
}

/// Puts the view of a plan last.
pub(crate) fn put_plan(
    text: &mut Bytes,
    alloc: Global,
    instance: &Instance,
    plan: &Plan,
    proof: CostProof,
) -> Result<(), NoMemory>
    requires sound { IsSoundPlan (case_of instance.now) plan.now }
    requires holds { HoldsProof (case_of instance.now) plan.now proof }
    ensures { OnOk result (AddsText (IsPlanView (case_of instance.now) plan.now proof) text.old text.new) }
{
    let numbers = numbers_of(alloc, instance, plan)?;
    put_rows(text, alloc, instance, &plan.quality, &numbers, proof)
}

/// Puts the costs of a plan last.
pub(crate) fn put_plan_costs(
    text: &mut Bytes,
    alloc: Global,
    instance: &Instance,
    plan: &Plan,
    proof: CostProof,
) -> Result<(), NoMemory>
    requires sound { IsSoundPlan (case_of instance.now) plan.now }
    requires holds { HoldsProof (case_of instance.now) plan.now proof }
    ensures { OnOk result (AddsText (IsCostView (case_of instance.now) plan.now proof) text.old text.new) }
{
    let whole = plan_summary(alloc, instance, plan)?;
    let costs = costs_text(alloc, instance.net.places(), &whole, &plan.quality, proof)?;
    text.append(costs.items())?;
    Ok(())
}
