ghost use Rattle.std.specs.Prelude.{◌≡◌, ◌<◌, [], IsTrue, IfOk, IfErr, Ok};
ghost use Rattle.snd_tokens.specs.Terms.{left, size};
ghost use Rattle.text_kit.specs.Terms.{AnswersAs, ReadsAllAs, ReadsAs, TakesElement, IsNotTooEarly, TheEnd, list_at, no_fault};
ghost use Rattle.session_script.{specs.declared.script.Script.{Script as Scr}, specs.Scripts.SpellsScript, specs.ScriptReading.{command_at, script_of}};

use crate::command::command;
use crate::fault::{ScriptKind, ScriptRefusal};
use crate::script::{Command, Script};
use net_core::{List, Places};
use snd_tokens::Cursor;
use std::alloc::Global;
use text_kit::steps::{ends, text_after_header};

const HEADER: &[u8] = b"?planner script; version: 1";

/// Takes one command more, and says whether there was one.
fn take_command(
    alloc: Global,
    places: Places,
    all: &mut List<Command>,
    text: &mut Cursor,
) -> Result<bool, ScriptRefusal>
    ensures turn { TakesElement result (list_at TheEnd no_fault (command_at places) all.old (left text.old))
        (list_at TheEnd no_fault (command_at places) all.new (left text.new)) (Ok (all.new, left text.new)) }
    ensures shorter { IfOk result (λ more. IsTrue more → size (left text.new) < size (left text.old)) }
{
    if let Some(_) = ends(text) {
        return Ok(false);
    }
    let command = command(alloc, places, all.items(), text)?;
    all.push(command)?;
    Ok(true)
}

/// Takes commands, up to the end.
fn commands(
    alloc: Global,
    places: Places,
    text: &mut Cursor,
) -> Result<List<Command>, ScriptRefusal>
    ensures { ReadsAs (λ l. l) result (left text.new) (list_at TheEnd no_fault (command_at places) [] (left text.old)) }
{
    let mut all = List::new(alloc);
    while take_command(alloc, places, &mut all, text)? {}
    Ok(all)
}

/// The whole file.
fn file(alloc: Global, places: Places, bytes: &[u8]) -> Result<Script, ScriptRefusal>
    ensures { ReadsAllAs (λ s. s) result (script_of places bytes.now) }
{
    let mut text = text_after_header(ScriptKind::Header, bytes, HEADER)?;
    let commands = commands(alloc, places, &mut text)?;
    Ok(Script { commands })
}

/// The script that a file spells, for a network of these places. Needs are in units of the network.
/// It takes memory for the commands and their names, and time in proportion to the bytes, with one
/// pass over the earlier commands at each word `plan`.
///
/// After the header, the line `caller 1 set D1 2.5` is one command: caller 1 asks that the demand
/// D1 need 2,500 units with three places, and 2,500,000 with six. A need of 0.0005 is refused as
/// `number-fine` with three places, and is 500 units with six. A line `caller 9 plan` there is
/// refused as `caller` at the place of the 9.
pub fn read_script(alloc: Global, places: Places, bytes: &[u8]) -> Result<Script, ScriptRefusal>
    // What is read is spelled.
    ensures found { IfOk result (λ s. SpellsScript places bytes.now s) }
    // What is spelled is read, unless memory runs out.
    ensures only { (s : Scr) → SpellsScript places bytes.now s → AnswersAs (λ x. x) result s }
    // A fault is the first one that reading from left to right meets.
    ensures exact { ReadsAllAs (λ s. s) result (script_of places bytes.now) }
    // It isn't too early: no bytes that agree past it are spelled right.
    ensures not_early { IfErr result (IsNotTooEarly (SpellsScript places) bytes.now) }
{
    file(alloc, places, bytes)
}
