ghost use Rattle.std.specs.Prelude.{◌≡◌, ◌++◌, ◌∷◌, [], IfOk, OnOk, codes, decimal, map};
ghost use Rattle.plan_report.specs.Terms.{known_of, node_name, state_name};
ghost use Rattle.plan_terms.specs.Terms.{case_of};
ghost use Rattle.plan_view.specs.Terms.{IsSoundPlan};
ghost use Rattle.text_kit.specs.Terms.{money_word};
ghost use Rattle.view_cells.specs.Terms.{joined_words, kinds_words};
ghost use Rattle.view_csv.{specs.Fields.{fields_of_link, link_fields, with_plan}, specs.Sheets.{AddsRows, AreLinkFields}};

use crate::sheet::{PlanNumber, numbered};
use net_core::{Instance, Link, List, Network, NoMemory, Places, States};
use plan_report::{node_name, state_name};
use plan_types::Plan;
use plan_view::{LinkRow, link_rows};
use std::alloc::Global;
use text_layout::Row;
use view_cells::cells::{push_money, push_number, push_three, push_words};
use view_cells::modules::push_modules;

/// Puts the fields of a link last that its network and its counts tell.
fn push_front(
    fields: &mut Row,
    alloc: Global,
    net: &Network,
    link: &Link,
    counts: &[u64],
) -> Result<(), NoMemory>
    ensures { OnOk result (fields.new ≡ fields.old ++ link.now.name ∷ node_name net.now.nodes link.now.a ∷ node_name net.now.nodes link.now.b
        ∷ joined_words (codes " + ") (kinds_words net.now.places link.now.modules counts.now) ∷ []) }
{
    let nodes = net.nodes().items();
    let from = node_name(nodes, link.a);
    let to = node_name(nodes, link.b);
    push_three(fields, alloc, link.name.bytes(), from, to)?;
    push_modules(fields, alloc, net.places(), link.modules.items(), counts)
}

/// Puts the fields of a link's capacity and loads last.
fn push_amounts(
    fields: &mut Row,
    alloc: Global,
    places: Places,
    row: &LinkRow,
) -> Result<(), NoMemory>
    ensures { OnOk result (fields.new ≡ fields.old ++ money_word places row.now.capacity ∷ money_word places row.now.normal
        ∷ money_word places row.now.worst ∷ []) }
{
    push_money(fields, alloc, places, row.capacity)?;
    push_money(fields, alloc, places, row.normal)?;
    push_money(fields, alloc, places, row.worst)
}

/// Puts the fields of a link's use, the state of it, and its cost last.
fn push_rest(
    fields: &mut Row,
    alloc: Global,
    places: Places,
    states: &States,
    row: &LinkRow,
) -> Result<(), NoMemory>
    ensures { OnOk result (fields.new ≡ fields.old ++ decimal row.now.used ∷ state_name states.now.listed row.now.state.0
        ∷ money_word places row.now.cost ∷ []) }
{
    push_number(fields, alloc, row.used as u128)?;
    push_words(
        fields,
        alloc,
        state_name(states.listed().items(), row.state),
    )?;
    push_money(fields, alloc, places, row.cost)
}

/// Puts the fields of a link last.
fn push_link(
    fields: &mut Row,
    alloc: Global,
    net: &Network,
    states: &States,
    link: &Link,
    row: &LinkRow,
) -> Result<(), NoMemory>
    ensures { OnOk result (fields.new ≡ fields.old ++ fields_of_link (known_of net.now states.now) link.now row.now) }
{
    push_front(fields, alloc, net, link, row.modules.items())?;
    push_amounts(fields, alloc, net.places(), row)?;
    push_rest(fields, alloc, net.places(), states, row)
}

/// The fields of the row of a link; its plan's alone where the network has no such link.
fn link_fields(
    alloc: Global,
    number: PlanNumber,
    net: &Network,
    states: &States,
    row: &LinkRow,
) -> Result<Row, NoMemory>
    ensures { IfOk result (λ fields. fields ≡ with_plan number.caller number.serial (link_fields (known_of net.now states.now) row.now)) }
{
    let mut fields = numbered(alloc, number)?;
    match net.links().items().get(row.link.0 as usize) {
        Some(link) => {
            push_link(&mut fields, alloc, net, states, link, row)?;
            Ok(fields)
        }
        None => Ok(fields),
    }
}

/// Puts the fields of all links last.
fn put_link_rows(
    all: &mut List<Row>,
    alloc: Global,
    number: PlanNumber,
    net: &Network,
    states: &States,
    rows: &[LinkRow],
) -> Result<(), NoMemory>
    ensures { OnOk result (all.new ≡ all.old ++ map (λ row. with_plan number.caller number.serial (link_fields (known_of net.now states.now) row)) rows.now) }
{
    for row in rows {
        all.push(link_fields(alloc, number, net, states, row)?)?;
    }
    Ok(())
}

/// Puts the fields of a plan's links last.
pub(crate) fn put_links(
    all: &mut List<Row>,
    alloc: Global,
    number: PlanNumber,
    instance: &Instance,
    plan: &Plan,
) -> Result<(), NoMemory>
    requires { IsSoundPlan (case_of instance.now) plan.now }
    ensures { OnOk result (AddsRows (AreLinkFields (case_of instance.now) number.caller number.serial plan.now) all.old all.new) }
{
    let rows = link_rows(alloc, instance, plan)?;
    put_link_rows(
        all,
        alloc,
        number,
        instance.net,
        instance.states,
        rows.items(),
    )
}
