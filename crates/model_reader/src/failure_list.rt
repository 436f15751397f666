ghost use Rattle.std.specs.Prelude.{◌≡◌, ◌≤◌, ◌<◌, [], None, length, position, IsTrue, IfOk, Ok};
ghost use Rattle.net_core.{specs.Terms.{are_same, is_named}, specs.Limits.{most_failures, most_links, name_bytes}};
ghost use Rattle.snd_tokens.specs.Terms.{left, size};
ghost use Rattle.text_kit.specs.Terms.{ReadsAs, TakesElement, sound, word_at, named_place, new_name, Parenthesis, list_at, no_fault};
ghost use Rattle.model_reader.specs.FailuresReading.{failing_link_at, links_at, state_at};

use crate::failures::{FailuresKind, FailuresRefusal};
use net_core::limits::MOST_FAILURES;
use net_core::{Link, LinkId, List, Listed, Name};
use snd_tokens::Cursor;
use std::alloc::Global;
use text_kit::names::{is_long, named, new_name_fault};
use text_kit::refusal::bad;
use text_kit::steps::{closes, open, placed, word};

/// The place of a name among the links.
fn place_of(links: &[Link], name: &[u8]) -> Option<usize>
    ensures { result ≡ position (λ l. are_same l.name name.now) links.now }
{
    links.iter().position(|l| l.name.bytes() == name)
}

/// The place of the link that a word names.
fn link_named(links: &[Link], word: &[u8]) -> Result<u32, FailuresKind>
    requires { length links.now ≤ most_links }
    ensures { result ≡ named_place (λ l. l.name) FailuresKind.LimitName FailuresKind.UnknownLink links.now word.now }
{
    if is_long(word) {
        return Err(FailuresKind::LimitName);
    }
    match place_of(links, word) {
        Some(place) => Ok(place as u32),
        None => Err(FailuresKind::UnknownLink),
    }
}

/// Takes a link.
fn link(links: &[Link], text: &mut Cursor) -> Result<LinkId, FailuresRefusal>
    requires { length links.now ≤ most_links }
    ensures { ReadsAs (λ e. e) result (left text.new) (failing_link_at links.now (left text.old)) }
{
    let (at, word) = word(FailuresKind::Token, FailuresKind::Ended, text)?;
    let place = placed(at, link_named(links, word))?;
    Ok(LinkId(place))
}

/// Takes one link more of a state, and says whether there was one.
fn take_link(
    links: &[Link],
    all: &mut List<LinkId>,
    text: &mut Cursor,
) -> Result<bool, FailuresRefusal>
    requires { length links.now ≤ most_links }
    ensures turn { TakesElement result (links_at links.now all.old (left text.old)) (links_at links.now all.new (left text.new)) (Ok (all.new, left text.new)) }
    ensures shorter { IfOk result (λ more. IsTrue more → size (left text.new) < size (left text.old)) }
{
    if let Some(at) = closes(text) {
        if all.len() == 0 {
            return Err(bad(at, FailuresKind::Token));
        }
        return Ok(false);
    }
    let link = link(links, text)?;
    all.push(link)?;
    Ok(true)
}

/// Takes the links of a state, up to the closing parenthesis.
fn failing(
    alloc: Global,
    links: &[Link],
    text: &mut Cursor,
) -> Result<List<LinkId>, FailuresRefusal>
    requires { length links.now ≤ most_links }
    ensures { ReadsAs (λ l. l) result (left text.new) (links_at links.now [] (left text.old)) }
{
    let mut all = List::new(alloc);
    while take_link(links, &mut all, text)? {}
    Ok(all)
}

/// Whether one of these states has the name.
fn is_listed(name: &[u8], listed: &[Listed]) -> bool
    ensures { result ≡ is_named (λ s. s.name) name.now listed.now }
{
    listed.iter().any(|state| state.name.bytes() == name)
}

/// What is wrong with a word as the name of a state after these ones.
fn name_fault(listed: &[Listed], word: &[u8]) -> Option<FailuresKind>
    ensures value { sound word.now result ≡ new_name (λ s. s.name) most_failures FailuresKind.LimitName FailuresKind.DoubleState
        FailuresKind.LimitStates listed.now word.now }
    ensures short { result ≡ None → length word.now ≤ name_bytes }
{
    new_name_fault(
        FailuresKind::LimitName,
        FailuresKind::DoubleState,
        FailuresKind::LimitStates,
        MOST_FAILURES,
        listed.len(),
        is_listed(word, listed),
        word,
    )
}

/// Takes the name of a state after these ones.
fn name(alloc: Global, listed: &[Listed], text: &mut Cursor) -> Result<Name, FailuresRefusal>
    ensures { ReadsAs (λ n. n) result (left text.new)
        (word_at FailuresKind.Token FailuresKind.Ended
        (new_name (λ s. s.name) most_failures FailuresKind.LimitName FailuresKind.DoubleState FailuresKind.LimitStates
        listed.now) (left text.old)) }
{
    let (at, word) = word(FailuresKind::Token, FailuresKind::Ended, text)?;
    named(alloc, at, word, name_fault(listed, word))
}

/// Takes a state after these ones.
#[tactic(auto, unfolding(crate::specs::FailuresReading::state_at))]
fn state(
    alloc: Global,
    links: &[Link],
    listed: &[Listed],
    text: &mut Cursor,
) -> Result<Listed, FailuresRefusal>
    requires { length links.now ≤ most_links }
    ensures { ReadsAs (λ s. s) result (left text.new) (state_at links.now listed.now (left text.old)) }
{
    let name = name(alloc, listed, text)?;
    open(FailuresKind::Token, FailuresKind::Ended, text)?;
    let links = failing(alloc, links, text)?;
    Ok(Listed { name, links })
}

/// Takes one state more, and says whether there was one.
fn take_state(
    alloc: Global,
    links: &[Link],
    all: &mut List<Listed>,
    text: &mut Cursor,
) -> Result<bool, FailuresRefusal>
    requires { length links.now ≤ most_links }
    ensures turn { TakesElement result (list_at Parenthesis no_fault (state_at links.now) all.old (left text.old))
        (list_at Parenthesis no_fault (state_at links.now) all.new (left text.new)) (Ok (all.new, left text.new)) }
    ensures shorter { IfOk result (λ more. IsTrue more → size (left text.new) < size (left text.old)) }
{
    if let Some(_) = closes(text) {
        return Ok(false);
    }
    let state = state(alloc, links, all.items(), text)?;
    all.push(state)?;
    Ok(true)
}

/// Takes states, up to the closing parenthesis.
pub(crate) fn states(
    alloc: Global,
    links: &[Link],
    text: &mut Cursor,
) -> Result<List<Listed>, FailuresRefusal>
    requires { length links.now ≤ most_links }
    ensures { ReadsAs (λ l. l) result (left text.new) (list_at Parenthesis no_fault (state_at links.now) [] (left text.old)) }
{
    let mut all = List::new(alloc);
    while take_state(alloc, links, &mut all, text)? {}
    Ok(all)
}
