ghost use Rattle.std.specs.Prelude.{◌≡◌, ◌≤◌, ◌<◌, None, false, IsTrue, IfOk, OnOk, Ok, [], length};
ghost use Rattle.net_core.{specs.Terms.is_named, specs.Limits.{most_nodes, name_bytes}};
ghost use Rattle.snd_tokens.specs.Terms.{left, size};
ghost use Rattle.text_kit.specs.Terms.{ReadsAs, TakesElement, word_at};
ghost use Rattle.sndlib_reader.{specs.Reading.{ends_at, node_fault, node_named, native_nodes_at, other_node}, specs.inner.Nodes.parts_so_far};

use crate::fault::{Limited, ReadKind, ReadRefusal};
use crate::names::Names;
use crate::skip::skip;
use net_core::limits::MOST_NODES;
use net_core::{List, Name, NodeId};
use snd_tokens::{Cursor, Next};
use std::alloc::Global;
use text_kit::names::{is_long, new_name_fault};
use text_kit::refusal::bad;
use text_kit::steps::{close, open, placed, word};

/// What is wrong with a word as the name of a node after these ones.
fn node_fault(nodes: &Names, word: &[u8]) -> Option<ReadKind>
    ensures value { result ≡ node_fault nodes.now word.now }
    ensures short { result ≡ None → length word.now ≤ name_bytes }
    ensures free { result ≡ None → is_named (λ n. n) word.now nodes.now ≡ false }
{
    new_name_fault(
        ReadKind::Limit(Limited::Name),
        ReadKind::DoubleName,
        ReadKind::Limit(Limited::Nodes),
        MOST_NODES,
        nodes.len(),
        nodes.has(word),
        word,
    )
}

/// Takes a node's name or coordinates after these nodes, which have these names; `after_name` says
/// that a name was taken last. It says whether there was one, or the closing parenthesis.
fn take_part<'a>(
    alloc: Global,
    nodes: &mut List<Name>,
    names: &mut Names<'a>,
    after_name: &mut bool,
    text: &mut Cursor<'a>,
) -> Result<bool, ReadRefusal>
    requires some { IsTrue after_name.now → 1 ≤ length nodes.now }
    requires named { names.now ≡ nodes.now }
    ensures turn { TakesElement result (native_nodes_at (parts_so_far nodes.old after_name.old) (left text.old))
        (native_nodes_at (parts_so_far nodes.new after_name.new) (left text.new)) (Ok (nodes.new, left text.new)) }
    ensures shorter { IfOk result (λ more. IsTrue more → size (left text.new) < size (left text.old)) }
    ensures some { OnOk result (IsTrue after_name.new → 1 ≤ length nodes.new) }
    ensures named { OnOk result (names.new ≡ nodes.new) }
{
    match text.next() {
        Next::Word(at, word) => {
            let name = names.put(alloc, at, word, node_fault(names, word))?;
            nodes.push(name)?;
            *after_name = true;
            Ok(true)
        }
        Next::Open(at) => {
            if !*after_name {
                return Err(bad(at, ReadKind::Token));
            }
            skip(text)?;
            *after_name = false;
            Ok(true)
        }
        Next::Close(_) => Ok(false),
        Next::End(at) => Err(bad(at, ReadKind::Ended)),
    }
}

/// Takes nodes, up to the closing parenthesis. It gives their names for look-ups too.
pub(crate) fn nodes<'a>(
    alloc: Global,
    text: &mut Cursor<'a>,
) -> Result<(List<Name>, Names<'a>), ReadRefusal>
    ensures reads { ReadsAs (λ r. r.0) result (left text.new) (native_nodes_at [] (left text.old)) }
    ensures named { IfOk result (λ r. r.1 ≡ r.0) }
{
    let mut nodes = List::new(alloc);
    let mut names = Names::new(alloc);
    let mut after_name = false;
    while take_part(alloc, &mut nodes, &mut names, &mut after_name, text)? {}
    Ok((nodes, names))
}

/// The place of the node that a word names.
fn node_named(nodes: &Names, word: &[u8]) -> Result<u32, ReadKind>
    requires { length nodes.now ≤ most_nodes }
    ensures { result ≡ node_named nodes.now word.now }
{
    if is_long(word) {
        return Err(ReadKind::Limit(Limited::Name));
    }
    match nodes.place(word) {
        Some(place) => Ok(place as u32),
        None => Err(ReadKind::UnknownName),
    }
}

/// Takes a node's name, and gives its place.
fn node(nodes: &Names, text: &mut Cursor) -> Result<u32, ReadRefusal>
    requires { length nodes.now ≤ most_nodes }
    ensures { ReadsAs (λ a. a) result (left text.new) (word_at ReadKind.Token ReadKind.Ended (node_named nodes.now) (left text.old)) }
{
    let (at, word) = word(ReadKind::Token, ReadKind::Ended, text)?;
    placed(at, node_named(nodes, word))
}

/// The place of the node that a word names, where that is another one than `a`.
fn other_of(kind: ReadKind, nodes: &Names, a: u32, word: &[u8]) -> Result<u32, ReadKind>
    requires { length nodes.now ≤ most_nodes }
    ensures { result ≡ other_node kind nodes.now a word.now }
{
    let b = node_named(nodes, word)?;
    if a == b {
        return Err(kind);
    }
    Ok(b)
}

/// Takes another node's name than that of `a`, and gives its place.
fn other_node(kind: ReadKind, nodes: &Names, a: u32, text: &mut Cursor) -> Result<u32, ReadRefusal>
    requires { length nodes.now ≤ most_nodes }
    ensures { ReadsAs (λ b. b) result (left text.new) (word_at ReadKind.Token ReadKind.Ended (other_node kind nodes.now a) (left text.old)) }
{
    let (at, word) = word(ReadKind::Token, ReadKind::Ended, text)?;
    placed(at, other_of(kind, nodes, a, word))
}

/// Takes two nodes between parentheses; two equal ones have a fault of this kind.
#[tactic(auto, unfolding(crate::specs::Reading::ends_at))]
pub(crate) fn ends(
    kind: ReadKind,
    nodes: &Names,
    text: &mut Cursor,
) -> Result<(NodeId, NodeId), ReadRefusal>
    requires { length nodes.now ≤ most_nodes }
    ensures { ReadsAs (λ ends. ends) result (left text.new) (ends_at kind nodes.now (left text.old)) }
{
    open(ReadKind::Token, ReadKind::Ended, text)?;
    let a = node(nodes, text)?;
    let b = other_node(kind, nodes, a, text)?;
    close(ReadKind::Token, ReadKind::Ended, text)?;
    Ok((NodeId(a), NodeId(b)))
}
