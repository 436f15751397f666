ghost use Rattle.std.specs.Prelude.{◌≡◌, ◌++◌, ◌∷◌, [], IfOk, OnOk, codes, decimal};
ghost use Rattle.plan_terms.specs.Terms.{case_of};
ghost use Rattle.plan_report.specs.Terms.{state_name};
ghost use Rattle.failure_texts.specs.AllSeparations.{separation_line, separation_lines, state_words};

use failure_states::Separation;
use net_core::{Bytes, Instance, List, NoMemory, StateId, States};
use plan_report::{demand_name, state_name};
use std::alloc::Global;
use text_kit::write::put_decimal;

/// Puts the words for a state last.
fn put_state_words(text: &mut Bytes, instance: &Instance, state: StateId) -> Result<(), NoMemory>
    ensures { OnOk result (text.new ≡ text.old ++ state_words (case_of instance.now) state.0) }
{
    if state.0 == 0 {
        return text.append(b"without any failure");
    }
    text.append(b"where ")?;
    text.append(state_name(instance.states.listed().items(), state))?;
    text.append(b" fails,")
}

/// Puts the line of a separation last.
fn put_separation(text: &mut Bytes, instance: &Instance, found: &Separation) -> Result<(), NoMemory>
    ensures { OnOk result (text.new ≡ text.old ++ separation_line (case_of instance.now) found.now) }
{
    text.append(b"  ")?;
    put_state_words(text, instance, found.state)?;
    text.append(b" no path joins the ends of demand ")?;
    text.append(demand_name(instance.demands.items(), found.demand))?;
    text.append(b"\n")
}

/// Puts a line for each of these separations last, as `  where AB fails, no path joins the ends of demand D1`. It takes time and memory in
/// the number of bytes.
pub fn put_separations(
    text: &mut Bytes,
    instance: &Instance,
    found: &[Separation],
) -> Result<(), NoMemory>
    ensures { OnOk result (text.new ≡ text.old ++ separation_lines (case_of instance.now) found.now) }
{
    for separation in found {
        put_separation(text, instance, separation)?;
    }
    Ok(())
}

/// The planner's line of a demand that a state separates, as `not survivable: state 1 AB demand D1`. It takes time and memory in the number
/// of bytes.
pub fn separated_line(
    alloc: Global,
    states: &States,
    state: StateId,
    demand: &[u8],
) -> Result<Bytes, NoMemory>
    ensures { IfOk result (λ text. text ≡ codes "not survivable: state " ++ decimal state.0 ++ 32
        ∷ state_name states.now.listed state.0 ++ codes " demand " ++ demand.now ++ 10 ∷ []) }
{
    let name = state_name(states.listed().items(), state);
    let mut text = List::new(alloc);
    text.append(b"not survivable: state ")?;
    put_decimal(&mut text, state.0 as u128)?;
    text.append(b" ")?;
    text.append(name)?;
    text.append(b" demand ")?;
    text.append(demand)?;
    text.append(b"\n")?;
    Ok(text)
}
