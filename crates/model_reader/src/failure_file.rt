ghost use Rattle.std.specs.Prelude.{◌≡◌, ◌≤◌, length, List, IfOk, IfErr};
ghost use Rattle.net_core.{specs.declared.states.Listed.{Listed as State}, specs.Limits.most_links};
ghost use Rattle.snd_tokens.specs.Terms.{left};
ghost use Rattle.text_kit.specs.Terms.{AnswersAs, ReadsAllAs, ReadsAs, IsNotTooEarly, word_at};
ghost use Rattle.model_reader.{specs.Failures.{IsListInForm, SpellsFailures, states_of}, specs.FailuresReading.{failure_list_at, failures_at, failures_of, is_list}};

use crate::failure_list::states;
use crate::failure_singles::single_links;
use crate::failures::{FailureList, FailuresKind, FailuresRefusal};
use net_core::{Link, Network, NoMemory, States};
use snd_tokens::Cursor;
use std::alloc::Global;
use text_kit::steps::{end, open, placed, text_after_header, word};

const HEADER: &[u8] = b"?planner failures; version: 1";

const FAILURES: &[u8] = b"FAILURES";

const ALL_SINGLE_LINKS: &[u8] = b"ALL_SINGLE_LINKS";

/// Whether a word begins states one by one.
fn is_list(word: &[u8]) -> Result<bool, FailuresKind>
    ensures { result ≡ is_list word.now }
{
    if word == FAILURES {
        return Ok(true);
    }
    if word == ALL_SINGLE_LINKS {
        return Ok(false);
    }
    Err(FailuresKind::Section)
}

/// Takes the word that says how the states are given.
fn first_word(text: &mut Cursor) -> Result<bool, FailuresRefusal>
    ensures { ReadsAs (λ b. b) result (left text.new) (word_at FailuresKind.Section FailuresKind.Ended is_list (left text.old)) }
{
    let (at, word) = word(FailuresKind::Section, FailuresKind::Ended, text)?;
    placed(at, is_list(word))
}

/// Takes what the file says, up to its end or something else.
#[tactic(auto, unfolding(crate::specs::FailuresReading::after_word))]
fn list(alloc: Global, links: &[Link], text: &mut Cursor) -> Result<FailureList, FailuresRefusal>
    requires { length links.now ≤ most_links }
    ensures { ReadsAs (λ l. l) result (left text.new) (failure_list_at links.now (left text.old)) }
{
    if !first_word(text)? {
        return Ok(FailureList::EverySingleLink);
    }
    open(FailuresKind::Section, FailuresKind::Ended, text)?;
    let listed = states(alloc, links, text)?;
    Ok(FailureList::OneByOne(listed))
}

/// Takes what the file says, after which nothing is left.
fn whole_list(
    alloc: Global,
    links: &[Link],
    text: &mut Cursor,
) -> Result<FailureList, FailuresRefusal>
    requires { length links.now ≤ most_links }
    ensures { ReadsAs (λ l. l) result (left text.new) (failures_at links.now (left text.old)) }
{
    let list = list(alloc, links, text)?;
    end(FailuresKind::Section, text)?;
    Ok(list)
}

/// The states of what a file says.
fn states_of(alloc: Global, net: &Network, list: FailureList) -> Result<States, NoMemory>
    requires { IsListInForm net.now.links list }
    ensures { IfOk result (λ s. s.listed ≡ states_of net.now.links list) }
{
    match list {
        FailureList::EverySingleLink => single_links(alloc, net),
        FailureList::OneByOne(listed) => match States::new(net, listed) {
            Ok(states) => Ok(states),
            Err(_) => unreachable!(),
        },
    }
}

/// The whole file.
fn file(alloc: Global, net: &Network, bytes: &[u8]) -> Result<States, FailuresRefusal>
    ensures { ReadsAllAs (λ s. s.listed) result (failures_of net.now.links bytes.now) }
{
    let mut text = text_after_header(FailuresKind::Header, bytes, HEADER)?;
    let list = whole_list(alloc, net.links().items(), &mut text)?;
    Ok(states_of(alloc, net, list)?)
}

/// The states of the network that a file spells. It takes memory for the states and their names, and time in
/// proportion to the bytes, with one pass over the network's links at each link that a state names and one over the
/// earlier states at each new state.
///
/// ```text
/// let states = read_failures(alloc, &net, bytes)?;    // of the triangle, and FAILURES ( AB ( AB ) west ( BC AC ) ) after the header:
/// // state 1, named AB, fails link 0, and state 2, named west, fails links 1 and 2
/// ```
pub fn read_failures(alloc: Global, net: &Network, bytes: &[u8]) -> Result<States, FailuresRefusal>
    // What is read is spelled.
    ensures found { IfOk result (λ s. SpellsFailures net.now.links bytes.now s.listed) }
    // What is spelled is read, unless memory runs out.
    ensures only { (states : List State) → SpellsFailures net.now.links bytes.now states → AnswersAs (λ s. s.listed) result states }
    // A fault is the first one that reading from left to right meets.
    ensures exact { ReadsAllAs (λ s. s.listed) result (failures_of net.now.links bytes.now) }
    // It isn't too early: no bytes that agree past it are spelled right.
    ensures not_early { IfErr result (IsNotTooEarly (SpellsFailures net.now.links) bytes.now) }
{
    file(alloc, net, bytes)
}
