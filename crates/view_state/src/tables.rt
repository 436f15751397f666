ghost use Rattle.std.specs.Prelude.{◌≡◌, ◌≤◌, IfOk, OnOk, length, map};
ghost use Rattle.plan_view.specs.Terms.{flow_row, IsSoundPlan};
ghost use Rattle.plan_terms.specs.Terms.{case_of};
ghost use Rattle.text_kit.specs.Terms.{AddsText};
ghost use Rattle.view_state.specs.StateViews.{HasStateTables, ShowsStateRows, state_flows};

use crate::loads::loads_text;
use crate::paths::paths_text;
use net_core::{Bytes, Instance, List, NoMemory, Routing};
use plan_types::Plan;
use plan_view::{FlowRow, LoadRow, flow_rows, load_rows};
use std::alloc::Global;

/// The rows of the flows of a routing.
fn routing_rows(
    alloc: Global,
    instance: &Instance,
    routing: &Routing,
) -> Result<List<FlowRow>, NoMemory>
    ensures { IfOk result (λ rows. rows ≡ map (flow_row instance.now.net.now.links instance.now.demands.now routing.now.den) routing.now.flows) }
{
    let links = instance.net.links().items();
    flow_rows(alloc, links, instance.demands.items(), routing)
}

/// The rows of a plan's flows in a state; none where the plan has no routing for it.
fn state_flows(
    alloc: Global,
    instance: &Instance,
    plan: &Plan,
    state: u32,
) -> Result<List<FlowRow>, NoMemory>
    ensures { IfOk result (λ rows. rows ≡ state_flows (case_of instance.now) plan.now state) }
{
    match plan.routings.items().get(state as usize) {
        Some(routing) => routing_rows(alloc, instance, routing),
        None => Ok(List::new(alloc)),
    }
}

/// Puts the tables of these rows last, with an empty line between them.
fn put_rows(
    text: &mut Bytes,
    alloc: Global,
    instance: &Instance,
    loads: &[LoadRow],
    flows: &[FlowRow],
) -> Result<(), NoMemory>
    ensures { OnOk result (AddsText (ShowsStateRows (case_of instance.now) loads.now flows.now) text.old text.new) }
{
    let above = loads_text(alloc, instance.net, loads)?;
    let below = paths_text(alloc, instance.net, instance.demands.items(), flows)?;
    text.append(above.items())?;
    text.append(b"\n")?;
    text.append(below.items())
}

/// Puts the tables of a plan in a state last.
pub(crate) fn put_tables(
    text: &mut Bytes,
    alloc: Global,
    instance: &Instance,
    plan: &Plan,
    state: u32,
) -> Result<(), NoMemory>
    requires sound { IsSoundPlan (case_of instance.now) plan.now }
    requires state { state ≤ length instance.now.states.now.listed }
    ensures { OnOk result (AddsText (HasStateTables (case_of instance.now) plan.now state) text.old text.new) }
{
    let loads = load_rows(alloc, instance, plan, state)?;
    let flows = state_flows(alloc, instance, plan, state)?;
    put_rows(text, alloc, instance, loads.items(), flows.items())
}
