ghost use Rattle.std.specs.Prelude.{◌≡◌, ◌≤◌, ◌++◌, ◌∷◌, [], All, IfOk, OnOk, decimal, length, map};
ghost use Rattle.text_kit.specs.Terms.{AddsText};
ghost use Rattle.view_cells.specs.Terms.{HasRows};
ghost use Rattle.view_text.specs.OutcomeCells.{HasOutcomes, outcome_cells, outcome_heads, failure_text, numbers_line, numbers_text, separation_text, unlinked_text};

use net_core::{Bytes, List, Listed, Name, NoMemory, Places, StateId};
use plan_report::state_name;
use plan_types::Outcome;
use std::alloc::Global;
use text_kit::write::put_decimal;
use text_layout::{Column, Row};
use view_cells::cells::{push_money, push_number, push_pair, push_three};
use view_cells::tables::{fitting, table};

/// The columns of the table of outcomes: caller, number, version, cost, and bound.
const COLUMNS: [Column; 5] = [
    Column {
        gap: 2,
        width: 6,
        right: true,
    },
    Column {
        gap: 3,
        width: 4,
        right: true,
    },
    Column {
        gap: 3,
        width: 7,
        right: true,
    },
    Column {
        gap: 3,
        width: 8,
        right: true,
    },
    Column {
        gap: 3,
        width: 8,
        right: true,
    },
];

/// Puts the cells of an outcome's numbers last.
fn push_numbers(
    cells: &mut Row,
    alloc: Global,
    caller: u32,
    serial: u32,
    version: u64,
) -> Result<(), NoMemory>
    ensures { OnOk result (cells.new ≡ cells.old ++ decimal caller ∷ decimal serial ∷ decimal version ∷ []) }
{
    push_number(cells, alloc, caller as u128)?;
    push_number(cells, alloc, serial as u128)?;
    push_number(cells, alloc, version as u128)
}

/// Puts the cells of an outcome last. One without a plan has neither cost nor bound.
fn push_outcome(
    cells: &mut Row,
    alloc: Global,
    places: Places,
    outcome: &Outcome,
) -> Result<(), NoMemory>
    ensures { OnOk result (cells.new ≡ cells.old ++ outcome_cells places outcome.now) }
{
    match outcome {
        Outcome::Planned {
            caller,
            serial,
            plan,
        } => {
            push_numbers(cells, alloc, *caller, *serial, plan.version)?;
            push_money(cells, alloc, places, plan.cost)?;
            push_money(cells, alloc, places, plan.bound)
        }
        Outcome::Unsurvivable {
            caller,
            serial,
            version,
            ..
        } => {
            push_numbers(cells, alloc, *caller, *serial, *version)?;
            push_pair(cells, alloc, b"-", b"-")
        }
    }
}

/// The cells of an outcome.
fn outcome_row(alloc: Global, places: Places, outcome: &Outcome) -> Result<Row, NoMemory>
    ensures { IfOk result (λ cells. cells ≡ outcome_cells places outcome.now) }
{
    let mut cells = List::new(alloc);
    push_outcome(&mut cells, alloc, places, outcome)?;
    Ok(cells)
}

/// The heads of the columns.
fn outcome_heads(alloc: Global) -> Result<Row, NoMemory>
    ensures { IfOk result (λ cells. cells ≡ outcome_heads) }
{
    let mut heads = List::new(alloc);
    push_three(&mut heads, alloc, b"Caller", b"Plan", b"Version")?;
    push_pair(&mut heads, alloc, b"Cost", b"Bound")?;
    Ok(heads)
}

/// The rows of all outcomes, below the heads of the columns.
fn outcome_table(alloc: Global, places: Places, outcomes: &[Outcome]) -> Result<List<Row>, NoMemory>
    ensures { IfOk result (λ all. all ≡ outcome_heads ∷ map (outcome_cells places) outcomes.now) }
{
    let mut all = List::new(alloc);
    all.push(outcome_heads(alloc)?)?;
    for outcome in outcomes {
        all.push(outcome_row(alloc, places, outcome)?)?;
    }
    Ok(all)
}

/// The text of rows of five cells.
fn outcome_lines(alloc: Global, rows: &[Row]) -> Result<Bytes, NoMemory>
    requires { All (λ row. length row ≤ 5) rows.now }
    ensures { IfOk result (HasRows rows.now) }
{
    let wide = fitting(alloc, &COLUMNS, rows)?;
    table(alloc, wide.items(), rows)
}

/// Puts the table of several outcomes last.
pub(crate) fn put_outcomes(
    text: &mut Bytes,
    alloc: Global,
    places: Places,
    outcomes: &[Outcome],
) -> Result<(), NoMemory>
    ensures { OnOk result (AddsText (HasOutcomes places outcomes.now) text.old text.new) }
{
    let rows = outcome_table(alloc, places, outcomes)?;
    let lines = outcome_lines(alloc, rows.items())?;
    text.append(lines.items())?;
    Ok(())
}

/// Puts the line above one outcome of several last, between empty lines.
fn put_numbers_line(text: &mut Bytes, caller: u32, serial: u32) -> Result<(), NoMemory>
    ensures { OnOk result (text.new ≡ text.old ++ numbers_line caller serial) }
{
    text.append(b"\n  Caller ")?;
    put_decimal(text, caller as u128)?;
    text.append(b", plan ")?;
    put_decimal(text, serial as u128)?;
    text.append(b"\n\n")
}

/// Puts the line above an outcome of several last.
pub(crate) fn put_numbers(text: &mut Bytes, outcome: &Outcome) -> Result<(), NoMemory>
    ensures { OnOk result (text.new ≡ text.old ++ numbers_text outcome.now) }
{
    match outcome {
        Outcome::Planned { caller, serial, .. } => put_numbers_line(text, *caller, *serial),
        Outcome::Unsurvivable { caller, serial, .. } => put_numbers_line(text, *caller, *serial),
    }
}

/// Puts last that a failure separates the ends of a demand.
fn put_failure(
    text: &mut Bytes,
    listed: &[Listed],
    state: StateId,
    demand: &Name,
) -> Result<(), NoMemory>
    ensures { OnOk result (text.new ≡ text.old ++ failure_text listed.now state.0 demand.now) }
{
    text.append(b"  no plan: the failure ")?;
    text.append(state_name(listed, state))?;
    text.append(b" separates the ends of demand ")?;
    text.append(demand.bytes())?;
    text.append(b"\n")
}

/// Puts last that the ends of a demand are apart even where nothing fails.
fn put_unlinked(text: &mut Bytes, demand: &Name) -> Result<(), NoMemory>
    ensures { OnOk result (text.new ≡ text.old ++ unlinked_text demand.now) }
{
    text.append(b"  no plan: without any failure the ends of demand ")?;
    text.append(demand.bytes())?;
    text.append(b" are apart\n")
}

/// Puts the line of an outcome without a plan last: the state separates the ends of the demand.
pub(crate) fn put_separation(
    text: &mut Bytes,
    listed: &[Listed],
    state: StateId,
    demand: &Name,
) -> Result<(), NoMemory>
    ensures { OnOk result (text.new ≡ text.old ++ separation_text listed.now state.0 demand.now) }
{
    if state.0 == 0 {
        put_unlinked(text, demand)
    } else {
        put_failure(text, listed, state, demand)
    }
}
