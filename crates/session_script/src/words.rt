ghost use Rattle.std.specs.Prelude.{◌≡◌, count_by};
ghost use Rattle.snd_tokens.specs.Terms.{left};
ghost use Rattle.text_kit.specs.Terms.{ReadsAs, any_name, word_at};
ghost use Rattle.session_script.{specs.Scripts.is_plan, specs.ScriptReading.{begun_command, caller_of, need_in_script, verb_after, verb_of}};

use crate::fault::{ScriptKind, ScriptRefusal};
use crate::script::{Command, Verb};
use net_core::{Name, Places};
use snd_tokens::{Cursor, amount, whole};
use std::alloc::Global;
use text_kit::names::{long_name_fault, named};
use text_kit::steps::{placed, word};

const CALLER: &[u8] = b"caller";

const SET: &[u8] = b"set";

const ADD: &[u8] = b"add";

const DROP: &[u8] = b"drop";

const PLAN: &[u8] = b"plan";

const MAX_CALLER: u128 = 8;

const MAX_COMMANDS: usize = 1000;

const MAX_PLANS: usize = 64;

/// Tests the word of a command, after these ones.
fn begun_command(sofar: &[Command], word: &[u8]) -> Result<(), ScriptKind>
    ensures { result ≡ begun_command sofar.now word.now }
{
    if word != CALLER {
        return Err(ScriptKind::Token);
    }
    if sofar.len() >= MAX_COMMANDS {
        return Err(ScriptKind::LimitCommands);
    }
    Ok(())
}

/// Takes the word of a command, after these ones.
pub(crate) fn begin(sofar: &[Command], text: &mut Cursor) -> Result<(), ScriptRefusal>
    ensures { ReadsAs (λ _. tt) result (left text.new) (word_at ScriptKind.Token ScriptKind.Ended (begun_command sofar.now) (left text.old)) }
{
    let (at, word) = word(ScriptKind::Token, ScriptKind::Ended, text)?;
    placed(at, begun_command(sofar, word))
}

/// The caller of a word.
fn caller_of(word: &[u8]) -> Result<u32, ScriptKind>
    ensures { result ≡ caller_of word.now }
{
    match whole(word) {
        Ok(number) => {
            if 0 < number && number <= MAX_CALLER {
                return Ok(number as u32);
            }
            Err(ScriptKind::Caller)
        }
        Err(_) => Err(ScriptKind::Caller),
    }
}

/// Takes a caller.
pub(crate) fn caller(text: &mut Cursor) -> Result<u32, ScriptRefusal>
    ensures { ReadsAs (λ n. n) result (left text.new) (word_at ScriptKind.Token ScriptKind.Ended caller_of (left text.old)) }
{
    let (at, word) = word(ScriptKind::Token, ScriptKind::Ended, text)?;
    placed(at, caller_of(word))
}

/// What a word asks for.
fn verb_of(word: &[u8]) -> Result<Verb, ScriptKind>
    ensures { result ≡ verb_of word.now }
{
    if word == SET {
        return Ok(Verb::Set);
    }
    if word == ADD {
        return Ok(Verb::Add);
    }
    if word == DROP {
        return Ok(Verb::Drop);
    }
    if word == PLAN {
        return Ok(Verb::Plan);
    }
    Err(ScriptKind::Token)
}

/// How many of these commands ask for a plan.
fn plans(commands: &[Command]) -> usize
    ensures { result ≡ count_by is_plan commands.now }
{
    commands.iter().filter(|c| c.is_plan()).count()
}

/// What a word asks for after these commands.
fn verb_after(sofar: &[Command], word: &[u8]) -> Result<Verb, ScriptKind>
    ensures { result ≡ verb_after sofar.now word.now }
{
    match verb_of(word) {
        Ok(Verb::Plan) => {
            if plans(sofar) >= MAX_PLANS {
                return Err(ScriptKind::LimitPlans);
            }
            Ok(Verb::Plan)
        }
        Ok(Verb::Set) => Ok(Verb::Set),
        Ok(Verb::Add) => Ok(Verb::Add),
        Ok(Verb::Drop) => Ok(Verb::Drop),
        Err(kind) => Err(kind),
    }
}

/// Takes the word that says what is asked for, after these commands.
pub(crate) fn verb(sofar: &[Command], text: &mut Cursor) -> Result<Verb, ScriptRefusal>
    ensures { ReadsAs (λ v. v) result (left text.new) (word_at ScriptKind.Token ScriptKind.Ended (verb_after sofar.now) (left text.old)) }
{
    let (at, word) = word(ScriptKind::Token, ScriptKind::Ended, text)?;
    placed(at, verb_after(sofar, word))
}

/// Takes a name.
pub(crate) fn name(alloc: Global, text: &mut Cursor) -> Result<Name, ScriptRefusal>
    ensures { ReadsAs (λ n. n) result (left text.new) (word_at ScriptKind.Token ScriptKind.Ended (any_name ScriptKind.LimitName) (left text.old)) }
{
    let (at, word) = word(ScriptKind::Token, ScriptKind::Ended, text)?;
    let fault = long_name_fault(ScriptKind::LimitName, word);
    named(alloc, at, word, fault)
}

/// The need of a word, in units of the network.
fn need_of(places: Places, word: &[u8]) -> Result<u64, ScriptKind>
    ensures { result ≡ need_in_script places word.now }
{
    match amount(word, places) {
        Ok(need) => Ok(need),
        Err(fault) => Err(ScriptKind::Number(fault)),
    }
}

/// Takes a need, in units of the network.
pub(crate) fn need(places: Places, text: &mut Cursor) -> Result<u64, ScriptRefusal>
    ensures { ReadsAs (λ n. n) result (left text.new) (word_at ScriptKind.Token ScriptKind.Ended (need_in_script places) (left text.old)) }
{
    let (at, word) = word(ScriptKind::Token, ScriptKind::Ended, text)?;
    placed(at, need_of(places, word))
}
