ghost use Rattle.std.specs.Prelude.{◌≡◌};
ghost use Rattle.snd_tokens.specs.Terms.{left};
ghost use Rattle.text_kit.specs.Terms.{ReadsAs};
ghost use Rattle.session_script.specs.ScriptReading.{act_at, command_at};
ghost use Rattle.session_script.specs.declared.script.Verb.TheVariants as verbs;

use crate::fault::{ScriptKind, ScriptRefusal};
use crate::script::{Act, Command, Verb};
use crate::words::{begin, caller, name, need, verb};
use net_core::{Edit, Places};
use snd_tokens::Cursor;
use std::alloc::Global;
use text_kit::steps::{close, open};

/// Takes the name and the new need of a demand.
#[tactic(auto, unfolding(crate::specs::ScriptReading::act_at))]
fn set(alloc: Global, places: Places, text: &mut Cursor) -> Result<Act, ScriptRefusal>
    ensures { ReadsAs (λ a. a) result (left text.new) (act_at places verbs.Set (left text.old)) }
{
    let name = name(alloc, text)?;
    let need = need(places, text)?;
    Ok(Act::Change(Edit::Set { name, need }))
}

/// Takes the name, the two nodes and the need of a new demand.
#[tactic(auto, unfolding(crate::specs::ScriptReading::act_at))]
fn add(alloc: Global, places: Places, text: &mut Cursor) -> Result<Act, ScriptRefusal>
    ensures { ReadsAs (λ a. a) result (left text.new) (act_at places verbs.Add (left text.old)) }
{
    let demand = name(alloc, text)?;
    open(ScriptKind::Token, ScriptKind::Ended, text)?;
    let from = name(alloc, text)?;
    let to = name(alloc, text)?;
    close(ScriptKind::Token, ScriptKind::Ended, text)?;
    let need = need(places, text)?;
    Ok(Act::Change(Edit::Add {
        name: demand,
        from,
        to,
        need,
    }))
}

/// Takes the name of a demand that goes.
#[tactic(auto, unfolding(crate::specs::ScriptReading::act_at))]
fn drop_demand(alloc: Global, text: &mut Cursor) -> Result<Act, ScriptRefusal>
    ensures { (p : Places) → ReadsAs (λ a. a) result (left text.new) (act_at p verbs.Drop (left text.old)) }
{
    let name = name(alloc, text)?;
    Ok(Act::Change(Edit::Drop { name }))
}

/// Takes what comes after the word that says what is asked for.
#[tactic(auto, unfolding(crate::specs::ScriptReading::act_at))]
fn act(alloc: Global, places: Places, verb: Verb, text: &mut Cursor) -> Result<Act, ScriptRefusal>
    ensures { ReadsAs (λ a. a) result (left text.new) (act_at places verb (left text.old)) }
{
    match verb {
        Verb::Set => set(alloc, places, text),
        Verb::Add => add(alloc, places, text),
        Verb::Drop => drop_demand(alloc, text),
        Verb::Plan => Ok(Act::Plan),
    }
}

/// Takes a command after these ones.
#[tactic(auto, unfolding(crate::specs::ScriptReading::command_at))]
pub(crate) fn command(
    alloc: Global,
    places: Places,
    sofar: &[Command],
    text: &mut Cursor,
) -> Result<Command, ScriptRefusal>
    ensures { ReadsAs (λ c. c) result (left text.new) (command_at places sofar.now (left text.old)) }
{
    begin(sofar, text)?;
    let caller = caller(text)?;
    let verb = verb(sofar, text)?;
    let act = act(alloc, places, verb, text)?;
    Ok(Command { caller, act })
}
