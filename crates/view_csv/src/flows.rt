ghost use Rattle.std.specs.Prelude.{◌≡◌, ◌+◌, ◌++◌, ◌∷◌, [], IfOk, OnOk, length, map};
ghost use Rattle.plan_view.specs.Terms.{flow_row};
ghost use Rattle.plan_report.specs.Terms.{demand_name, known_of, state_name};
ghost use Rattle.plan_terms.specs.Terms.{case_of};
ghost use Rattle.text_kit.specs.Terms.{money_word};
ghost use Rattle.view_csv.{specs.Fields.{ends_fields, flow_fields, link_names, node_names, with_plan}, specs.Sheets.{flows_of_state, flows_of_states, flows_of_routing}};

use crate::names::{push_links, push_nodes};
use crate::sheet::{PlanNumber, numbered};
use net_core::{Demand, Instance, List, Name, Network, NoMemory, Routing, StateId};
use plan_report::{demand_name, node_name, state_name};
use plan_types::Plan;
use plan_view::{FlowRow, flow_rows};
use std::alloc::Global;
use text_layout::Row;
use view_cells::cells::{push_money, push_pair, push_words};

/// Puts the fields of a demand's ends last; empty ones where there is no such demand.
fn push_ends(
    fields: &mut Row,
    alloc: Global,
    nodes: &[Name],
    demands: &[Demand],
    k: u32,
) -> Result<(), NoMemory>
    ensures { OnOk result (fields.new ≡ fields.old ++ ends_fields nodes.now demands.now k) }
{
    match demands.get(k as usize) {
        Some(demand) => push_pair(
            fields,
            alloc,
            node_name(nodes, demand.from),
            node_name(nodes, demand.to),
        ),
        None => push_pair(fields, alloc, b"", b""),
    }
}

/// Puts the fields of a flow's state, its demand and the demand's ends last.
fn push_front(
    fields: &mut Row,
    alloc: Global,
    instance: &Instance,
    state: u32,
    row: &FlowRow,
) -> Result<(), NoMemory>
    ensures { OnOk result (fields.new ≡ fields.old ++ state_name instance.now.states.now.listed state
        ∷ demand_name instance.now.demands.now row.now.demand ∷ ends_fields instance.now.net.now.nodes instance.now.demands.now row.now.demand) }
{
    let demands = instance.demands.items();
    let listed = instance.states.listed().items();
    push_words(fields, alloc, state_name(listed, StateId(state)))?;
    push_words(fields, alloc, demand_name(demands, row.demand))?;
    push_ends(
        fields,
        alloc,
        instance.net.nodes().items(),
        demands,
        row.demand,
    )
}

/// Puts the fields of a flow's amount and path last.
fn push_rest(fields: &mut Row, alloc: Global, net: &Network, row: &FlowRow) -> Result<(), NoMemory>
    ensures { OnOk result (fields.new ≡ fields.old ++ money_word net.now.places row.now.amount ∷ node_names net.now.nodes row.now.nodes
        ∷ link_names net.now.links row.now.path ∷ []) }
{
    push_money(fields, alloc, net.places(), row.amount)?;
    push_nodes(fields, alloc, net.nodes().items(), row.nodes.items())?;
    push_links(fields, alloc, net.links().items(), row.path.items())
}

/// The fields of the row of a flow.
fn flow_fields(
    alloc: Global,
    number: PlanNumber,
    instance: &Instance,
    state: u32,
    row: &FlowRow,
) -> Result<Row, NoMemory>
    ensures { IfOk result (λ fields. fields ≡ with_plan number.caller number.serial
        (flow_fields (known_of instance.now.net.now instance.now.states.now) instance.now.demands.now state row.now)) }
{
    let mut fields = numbered(alloc, number)?;
    push_front(&mut fields, alloc, instance, state, row)?;
    push_rest(&mut fields, alloc, instance.net, row)?;
    Ok(fields)
}

/// Puts the fields of flows of a state last.
fn put_rows(
    all: &mut List<Row>,
    alloc: Global,
    number: PlanNumber,
    instance: &Instance,
    state: u32,
    rows: &[FlowRow],
) -> Result<(), NoMemory>
    ensures { OnOk result (all.new ≡ all.old ++ map (λ row. with_plan number.caller number.serial
        (flow_fields (known_of instance.now.net.now instance.now.states.now) instance.now.demands.now state row)) rows.now) }
{
    for row in rows {
        all.push(flow_fields(alloc, number, instance, state, row)?)?;
    }
    Ok(())
}

/// The rows of the flows of a routing.
fn rows_of(alloc: Global, instance: &Instance, routing: &Routing) -> Result<List<FlowRow>, NoMemory>
    ensures { IfOk result (λ rows. rows ≡ map (flow_row instance.now.net.now.links instance.now.demands.now routing.now.den) routing.now.flows) }
{
    let links = instance.net.links().items();
    flow_rows(alloc, links, instance.demands.items(), routing)
}

/// Puts the fields of the flows of a state's routing last.
fn put_routing(
    all: &mut List<Row>,
    alloc: Global,
    number: PlanNumber,
    instance: &Instance,
    state: u32,
    routing: &Routing,
) -> Result<(), NoMemory>
    ensures { OnOk result (all.new ≡ all.old ++ flows_of_routing (case_of instance.now) number.caller number.serial state routing.now) }
{
    let rows = rows_of(alloc, instance, routing)?;
    put_rows(all, alloc, number, instance, state, rows.items())
}

/// Puts the fields of the flows of a state last; nothing where the plan has no routing for it.
fn put_state(
    all: &mut List<Row>,
    alloc: Global,
    number: PlanNumber,
    instance: &Instance,
    plan: &Plan,
    state: u32,
) -> Result<(), NoMemory>
    ensures { OnOk result (all.new ≡ all.old ++ flows_of_state (case_of instance.now) number.caller number.serial plan.now state) }
{
    match plan.routings.items().get(state as usize) {
        Some(routing) => put_routing(all, alloc, number, instance, state, routing),
        None => Ok(()),
    }
}

/// Puts the fields of a plan's flows last, state by state.
#[tactic(auto, using(crate::proofs::StateFlows::next_state))]
pub(crate) fn put_flows(
    all: &mut List<Row>,
    alloc: Global,
    number: PlanNumber,
    instance: &Instance,
    plan: &Plan,
) -> Result<(), NoMemory>
    ensures { OnOk result (all.new ≡ all.old ++ flows_of_states (case_of instance.now) number.caller number.serial plan.now
        (length instance.now.states.now.listed + 1)) }
{
    for state in 0..instance.states.count() {
        put_state(all, alloc, number, instance, plan, state)?;
    }
    Ok(())
}
