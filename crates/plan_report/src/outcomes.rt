ghost use Rattle.std.specs.Prelude.{◌≤◌, List, All, OnOk, flat_map, length};
ghost use Rattle.plan_terms.specs.Terms.{CutLine};
ghost use Rattle.text_kit.specs.Terms.{enclosed, AddsItems};
ghost use Rattle.plan_report.{specs.Forms.IsOutcomeInForm, specs.Items.{head_items, outcome_items, separation_items}, specs.inner.Naming.known_in};

use crate::names::{Names, put_state_name};
use crate::plans::put_plan;
use net_core::{Bytes, Listed, Name, NoMemory, StateId};
use plan_types::Outcome;
use text_kit::puts::{put_close, put_field, put_keyword, put_name, put_open};

/// Puts last which plan command an outcome is of, and for which version and position.
fn put_head(
    text: &mut Bytes,
    caller: u32,
    serial: u32,
    version: u64,
    position: u64,
) -> Result<(), NoMemory>
    ensures { OnOk result (AddsItems text.old (head_items caller serial version position) text.new) }
{
    put_field(text, b"caller", caller as u64)?;
    put_field(text, b"plan", serial as u64)?;
    put_field(text, b"version", version)?;
    put_field(text, b"position", position)
}

/// Puts last which state separates which demand.
fn put_separation(
    text: &mut Bytes,
    listed: &[Listed],
    state: StateId,
    demand: &Name,
) -> Result<(), NoMemory>
    requires { state.0 ≤ length listed.now }
    ensures { OnOk result (AddsItems text.old (separation_items listed.now state demand.now) text.new) }
{
    put_field(text, b"state", state.0 as u64)?;
    put_state_name(text, listed, state.0 as usize)?;
    put_keyword(text, b"demand")?;
    put_name(text, demand)
}

/// Puts an outcome last.
fn put_outcome(text: &mut Bytes, names: &Names<'_>, outcome: &Outcome) -> Result<(), NoMemory>
    requires { (pool : List CutLine) × IsOutcomeInForm (known_in names.now) pool outcome.now }
    ensures { OnOk result (AddsItems text.old (outcome_items (known_in names.now) outcome.now) text.new) }
{
    match outcome {
        Outcome::Planned {
            caller,
            serial,
            plan,
        } => {
            put_keyword(text, b"PLAN")?;
            put_open(text)?;
            put_head(text, *caller, *serial, plan.version, plan.position)?;
            put_plan(text, names, plan)?;
            put_close(text)
        }
        Outcome::Unsurvivable {
            caller,
            serial,
            version,
            position,
            state,
            demand,
        } => {
            put_keyword(text, b"UNSURVIVABLE")?;
            put_open(text)?;
            put_head(text, *caller, *serial, *version, *position)?;
            put_separation(text, names.listed, *state, demand)?;
            put_close(text)
        }
    }
}

/// Puts outcomes last, between parentheses.
pub(crate) fn put_outcomes(
    text: &mut Bytes,
    names: &Names<'_>,
    outcomes: &[Outcome],
) -> Result<(), NoMemory>
    requires { (pool : List CutLine) × All (IsOutcomeInForm (known_in names.now) pool) outcomes.now }
    ensures { OnOk result (AddsItems text.old (enclosed (flat_map (outcome_items (known_in names.now)) outcomes.now)) text.new) }
{
    put_open(text)?;
    for outcome in outcomes {
        put_outcome(text, names, outcome)?;
    }
    put_close(text)
}
