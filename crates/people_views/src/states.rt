ghost use Rattle.std.specs.Prelude.{◌≡◌, ◌++◌, ℕ, List, IfOk, MatchResult, OnOk, codes};
ghost use Rattle.fault_texts.specs.Quotes.{IsQuote};
ghost use Rattle.people_files.specs.Endings.{Halts};
ghost use Rattle.view_state.specs.Terms.{IsNamedState};
ghost use Rattle.plan_view.specs.Terms.{problem_case};
ghost use Rattle.people_views.{specs.Forms.IsFormOf, specs.StateForms.{IsStateMessage, LacksState, NamesState, PicturesState, state_hint, state_names}};

use crate::ViewForm;
use fault_messages::put_nearest_note;
use fault_texts::put_quote;
use net_core::{Bytes, List as Items, Listed, NoMemory, Problem, States};
use node_places::Place;
use outside_io::Status;
use people_files::{Halt, told};
use std::alloc::Global;
use view_state::named_state;

/// The names of all states, the one without failures first.
fn state_names(alloc: Global, listed: &[Listed]) -> Result<Items<Bytes>, NoMemory>
    ensures { IfOk result (λ names. names ≡ state_names listed.now) }
{
    let mut names = Items::new(alloc);
    names.push(Items::from_slice(alloc, b"none")?)?;
    for state in listed {
        names.push(Items::from_slice(alloc, state.name.bytes())?)?;
    }
    Ok(names)
}

/// The names of all states of a problem.
fn names_of(alloc: Global, states: &States) -> Result<Items<Bytes>, NoMemory>
    ensures { IfOk result (λ names. names ≡ state_names states.now.listed) }
{
    state_names(alloc, states.listed().items())
}

/// Puts what is said of a name that no state has last.
fn put_unknown(text: &mut Bytes, name: &[u8]) -> Result<(), NoMemory>
    ensures { OnOk result ((quote : List ℕ) × IsQuote name.now quote × (text.new ≡ text.old ++ (codes "no state has the name " ++ quote ++ state_hint))) }
{
    text.append(b"no state has the name ")?;
    put_quote(text, name)?;
    text.append(b"\n  a state is none, where nothing fails, or one of the failures by its name\n")
}

/// What is said of a name that no state has, with a near one.
fn unknown_text(alloc: Global, states: &States, name: &[u8]) -> Result<Bytes, NoMemory>
    ensures { IfOk result (IsStateMessage states.now.listed name.now) }
{
    let names = names_of(alloc, states)?;
    let mut text = Items::new(alloc);
    put_unknown(&mut text, name)?;
    put_nearest_note(&mut text, alloc, name, names.items())?;
    Ok(text)
}

/// The end of a run at a name that no state has.
fn unknown(alloc: Global, states: &States, name: &[u8]) -> Halt
    requires { (s : ℕ) → IsNamedState states.now.listed name.now s → ⊥ }
    ensures { Halts (LacksState states.now.listed name.now) result }
{
    told(Status::BadWords, unknown_text(alloc, states, name))
}

/// The state of a name, the first one that has it.
fn state_of(alloc: Global, states: &States, name: &[u8]) -> Result<u32, Halt>
    ensures { MatchResult result (IsNamedState states.now.listed name.now) (Halts (LacksState states.now.listed name.now)) }
{
    match named_state(states, name) {
        Some(state) => Ok(state),
        None => Err(unknown(alloc, states, name)),
    }
}

/// The form in which the state of a name is shown, the first one that has it; `none` is the one without failures. Where no state has the name,
/// it ends with `BadWords`, and the message tells a near one. It takes time in the names of all states, and memory for them.
///
/// ```text
/// let form = state_form(alloc, &problem, "AC")?;   // ViewForm::State(3) in the triangle, where each link fails alone
/// ```
pub fn state_form(alloc: Global, problem: &Problem, name: &str) -> Result<ViewForm<'static>, Halt>
    ensures named { MatchResult result (NamesState problem.now.states.listed name.now) (Halts (LacksState problem.now.states.listed name.now)) }
    ensures form { IfOk result (IsFormOf (problem_case problem.now)) }
{
    match state_of(alloc, &problem.states, name.as_bytes()) {
        Ok(state) => Ok(ViewForm::State(state)),
        Err(halt) => Err(halt),
    }
}

/// The form of a picture of the state of a name, with the nodes at these places; else as `state_form`, with the same time and memory.
pub fn picture_form<'p>(
    alloc: Global,
    problem: &Problem,
    name: &str,
    places: &'p [Option<Place>],
) -> Result<ViewForm<'p>, Halt>
    ensures named { MatchResult result (PicturesState problem.now.states.listed name.now) (Halts (LacksState problem.now.states.listed name.now)) }
    ensures form { IfOk result (IsFormOf (problem_case problem.now)) }
{
    match state_of(alloc, &problem.states, name.as_bytes()) {
        Ok(state) => Ok(ViewForm::Picture(state, places)),
        Err(halt) => Err(halt),
    }
}
