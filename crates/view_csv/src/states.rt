ghost use Rattle.std.specs.Prelude.{◌≡◌, ◌++◌, ◌∷◌, [], IfOk, OnOk, decimal, map};
ghost use Rattle.plan_report.specs.Terms.{known_of, state_name};
ghost use Rattle.plan_terms.specs.Terms.{case_of};
ghost use Rattle.plan_view.specs.Terms.{IsSoundPlan};
ghost use Rattle.text_kit.specs.Terms.{money_word};
ghost use Rattle.view_csv.{specs.Fields.{fullest_field, link_names, with_plan, state_fields, tenths_word}, specs.Sheets.{AddsRows, AreStateFields}};

use crate::names::push_links;
use crate::sheet::{PlanNumber, numbered};
use net_core::{Bytes, Instance, Link, LinkId, List, Network, NoMemory, States};
use plan_report::{link_name, state_name};
use plan_types::Plan;
use plan_view::{StateRow, state_rows};
use std::alloc::Global;
use text_kit::write::put_decimal;
use text_layout::Row;
use view_cells::cells::{push_cell, push_money, push_number, push_words};

/// Puts tenths as a number with one place last.
fn put_tenths_word(text: &mut Bytes, n: u32) -> Result<(), NoMemory>
    ensures { OnOk result (text.new ≡ text.old ++ tenths_word n) }
{
    put_decimal(text, (n / 10) as u128)?;
    text.append(b".")?;
    put_decimal(text, (n % 10) as u128)
}

/// Puts a field of tenths last.
fn push_tenths(fields: &mut Row, alloc: Global, n: u32) -> Result<(), NoMemory>
    ensures { OnOk result (fields.new ≡ fields.old ++ tenths_word n ∷ []) }
{
    let mut text = List::new(alloc);
    put_tenths_word(&mut text, n)?;
    push_cell(fields, text)
}

/// Puts a field of the name of the fullest link last; an empty one where no link has a load.
fn push_fullest(
    fields: &mut Row,
    alloc: Global,
    links: &[Link],
    fullest: Option<LinkId>,
) -> Result<(), NoMemory>
    ensures { OnOk result (fields.new ≡ fields.old ++ fullest_field links.now fullest ∷ []) }
{
    match fullest {
        Some(e) => push_words(fields, alloc, link_name(links, e)),
        None => push_words(fields, alloc, b""),
    }
}

/// Puts the fields of a state's name, its failed links and the rerouted amount last.
fn push_front(
    fields: &mut Row,
    alloc: Global,
    net: &Network,
    states: &States,
    row: &StateRow,
) -> Result<(), NoMemory>
    ensures { OnOk result (fields.new ≡ fields.old ++ state_name states.now.listed row.now.state.0 ∷ link_names net.now.links row.now.failed
        ∷ money_word net.now.places row.now.rerouted ∷ []) }
{
    push_words(
        fields,
        alloc,
        state_name(states.listed().items(), row.state),
    )?;
    push_links(fields, alloc, net.links().items(), row.failed.items())?;
    push_money(fields, alloc, net.places(), row.rerouted)
}

/// Puts the fields of a state's fullest link, its use, and the part of the bound last.
fn push_rest(fields: &mut Row, alloc: Global, net: &Network, row: &StateRow) -> Result<(), NoMemory>
    ensures { OnOk result (fields.new ≡ fields.old ++ fullest_field net.now.links row.now.fullest ∷ decimal row.now.used
        ∷ tenths_word row.now.part ∷ []) }
{
    push_fullest(fields, alloc, net.links().items(), row.fullest)?;
    push_number(fields, alloc, row.used as u128)?;
    push_tenths(fields, alloc, row.part)
}

/// The fields of the row of a state.
fn state_fields(
    alloc: Global,
    number: PlanNumber,
    net: &Network,
    states: &States,
    row: &StateRow,
) -> Result<Row, NoMemory>
    ensures { IfOk result (λ fields. fields ≡ with_plan number.caller number.serial (state_fields (known_of net.now states.now) row.now)) }
{
    let mut fields = numbered(alloc, number)?;
    push_front(&mut fields, alloc, net, states, row)?;
    push_rest(&mut fields, alloc, net, row)?;
    Ok(fields)
}

/// Puts the fields of all states last.
fn put_state_rows(
    all: &mut List<Row>,
    alloc: Global,
    number: PlanNumber,
    net: &Network,
    states: &States,
    rows: &[StateRow],
) -> Result<(), NoMemory>
    ensures { OnOk result (all.new ≡ all.old ++ map (λ row. with_plan number.caller number.serial (state_fields (known_of net.now states.now) row)) rows.now) }
{
    for row in rows {
        all.push(state_fields(alloc, number, net, states, row)?)?;
    }
    Ok(())
}

/// Puts the fields of a plan's states last.
pub(crate) fn put_states(
    all: &mut List<Row>,
    alloc: Global,
    number: PlanNumber,
    instance: &Instance,
    plan: &Plan,
) -> Result<(), NoMemory>
    requires { IsSoundPlan (case_of instance.now) plan.now }
    ensures { OnOk result (AddsRows (AreStateFields (case_of instance.now) number.caller number.serial plan.now) all.old all.new) }
{
    let rows = state_rows(alloc, instance, plan)?;
    put_state_rows(
        all,
        alloc,
        number,
        instance.net,
        instance.states,
        rows.items(),
    )
}
