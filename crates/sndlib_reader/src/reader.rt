ghost use Rattle.std.specs.Prelude.{◌≡◌, ◌≤◌, ℕ, List, [], length, map, IfOk, IfErr, Ok, Err, codes};
ghost use Rattle.snd_tokens.specs.Terms.{Text, left};
ghost use Rattle.net_core.{specs.Terms.IsNetwork, specs.declared.network.Network.{Network as Net}, specs.declared.demand.Demand.{Demand as Dem}, specs.Limits.most_nodes};
ghost use Rattle.text_kit.{specs.Terms.{ReadsAllAs, ReadsAs, word_at}, specs.declared.refusal.Refusal.Refusal};
ghost use Rattle.sndlib_reader.{specs.declared.fault.ReadKind.ReadKind, specs.NetworkFiles.{IsNoEarlyFault, Spells, network_in, network_of}, specs.inner.Refused.was_too_fine, specs.Spelling.parts_of, specs.Reading.{after_links_at, after_nodes_at, native_demands_at, is_meta, costed_links_at, parts, native_nodes_at, native_section_at, native_sections_at, node_section_at, start_at}};

use crate::costs::{CostedLink, links_of, notes_of};
use crate::demand::demands;
use crate::fault::{ReadKind, ReadRefusal};
use crate::link::links;
use crate::names::Names;
use crate::node::nodes;
use crate::paths::paths;
use crate::skip::skip;
use net_core::{Demands, List, Name, Network, NoMemory, Places, discard};
use snd_tokens::{Cursor, NumberFault};
use std::alloc::Global;
use text_kit::Refusal;
use text_kit::steps::{expect, open, placed, text_after_header, word};

const HEADER: &[u8] = b"?SNDlib native format; type: network; version: 1.0";

const META: &[u8] = b"META";

const NODES: &[u8] = b"NODES";

/// Whether a word begins META or NODES.
fn is_meta(word: &[u8]) -> Result<bool, ReadKind>
    ensures { result ≡ is_meta word.now }
{
    if word == META {
        return Ok(true);
    }
    if word == NODES {
        return Ok(false);
    }
    Err(ReadKind::Section)
}

/// Takes the word of META or NODES.
fn first_word(text: &mut Cursor) -> Result<bool, ReadRefusal>
    ensures { ReadsAs (λ b. b) result (left text.new) (word_at ReadKind.Section ReadKind.Ended is_meta (left text.old)) }
{
    let (at, word) = word(ReadKind::Section, ReadKind::Ended, text)?;
    placed(at, is_meta(word))
}

/// Takes all before the parenthesis of NODES.
#[tactic(auto, unfolding(crate::specs::Reading::after_meta))]
fn start(text: &mut Cursor) -> Result<(), ReadRefusal>
    ensures { ReadsAs (λ _. tt) result (left text.new) (start_at (left text.old)) }
{
    if !first_word(text)? {
        return Ok(());
    }
    open(ReadKind::Section, ReadKind::Ended, text)?;
    skip(text)?;
    expect(ReadKind::Section, ReadKind::Ended, NODES, text)
}

/// Takes the section of links. It gives their names for look-ups too.
#[tactic(auto, unfolding(crate::specs::Reading::native_section_at))]
fn link_section<'a>(
    alloc: Global,
    places: Places,
    nodes: &Names,
    text: &mut Cursor<'a>,
) -> Result<(List<CostedLink>, Names<'a>), ReadRefusal>
    requires { length nodes.now ≤ most_nodes }
    ensures reads { ReadsAs (λ r. r.0) result (left text.new) (native_section_at (codes "LINKS") (costed_links_at places nodes.now []) (left text.old)) }
    ensures named { IfOk result (λ r. r.1 ≡ map (λ l. l.link.name) r.0) }
{
    expect(ReadKind::Section, ReadKind::Ended, b"LINKS", text)?;
    open(ReadKind::Section, ReadKind::Ended, text)?;
    links(alloc, places, nodes, text)
}

/// Takes the section of demands. It gives their names for look-ups too.
#[tactic(auto, unfolding(crate::specs::Reading::native_section_at))]
fn demand_section<'a>(
    alloc: Global,
    places: Places,
    nodes: &Names,
    text: &mut Cursor<'a>,
) -> Result<(Demands, Names<'a>), ReadRefusal>
    requires { length nodes.now ≤ most_nodes }
    ensures reads { ReadsAs (λ r. r.0) result (left text.new) (native_section_at (codes "DEMANDS") (native_demands_at places nodes.now []) (left text.old)) }
    ensures named { IfOk result (λ r. r.1 ≡ map (λ d. d.name) r.0) }
{
    expect(ReadKind::Section, ReadKind::Ended, b"DEMANDS", text)?;
    open(ReadKind::Section, ReadKind::Ended, text)?;
    demands(alloc, places, nodes, text)
}

/// The network of nodes and links that were read with these places.
fn network(
    alloc: Global,
    places: Places,
    nodes: List<Name>,
    links: List<CostedLink>,
) -> Result<Network, NoMemory>
    requires { IsNetwork nodes (map (λ l. l.link) links) }
    ensures { IfOk result (λ net. parts_of net ≡ parts places nodes links) }
{
    let notes = notes_of(links.items());
    let links = links_of(alloc, links)?;
    match Network::check(nodes, links, notes, places) {
        Ok(net) => Ok(net),
        Err(_) => unreachable!(),
    }
}

/// The network of nodes and of the links that were read after them, with the demands that were read then.
fn network_and_demands(
    alloc: Global,
    places: Places,
    nodes: List<Name>,
    rest: (List<CostedLink>, Demands),
) -> Result<(Network, Demands), NoMemory>
    requires { IsNetwork nodes (map (λ l. l.link) rest.0) }
    ensures { IfOk result (λ r. (parts_of r.0 ≡ parts places nodes rest.0) × (r.1 ≡ rest.1)) }
{
    let (links, demands) = rest;
    Ok((network(alloc, places, nodes, links)?, demands))
}

/// Takes the sections of demands and of paths, and finds that nothing is after them. The nodes and the links have these names.
#[tactic(auto, unfolding(crate::specs::Reading::after_links_at))]
fn after_links(
    alloc: Global,
    places: Places,
    nodes: &Names,
    links: &Names,
    text: &mut Cursor,
) -> Result<Demands, ReadRefusal>
    requires { length nodes.now ≤ most_nodes }
    ensures { ReadsAs (λ demands. demands) result (left text.new) (after_links_at places nodes.now links.now (left text.old)) }
{
    let (demands, names) = demand_section(alloc, places, nodes, text)?;
    let rest = paths(links, &names, text);
    discard(names);
    rest?;
    Ok(demands)
}

/// Takes the sections after that of the nodes, which have these names.
#[tactic(auto, unfolding(crate::specs::Reading::after_nodes_at))]
fn after_nodes(
    alloc: Global,
    places: Places,
    nodes: &Names,
    text: &mut Cursor,
) -> Result<(List<CostedLink>, Demands), ReadRefusal>
    requires { length nodes.now ≤ most_nodes }
    ensures reads { ReadsAs (λ r. r) result (left text.new) (after_nodes_at places nodes.now (left text.old)) }
    ensures links { IfOk result (λ r. (rest : Text)
        × (native_section_at (codes "LINKS") (costed_links_at places nodes.now []) (left text.old) ≡ Ok (r.0, rest))) }
{
    let (links, names) = link_section(alloc, places, nodes, text)?;
    let demands = after_links(alloc, places, nodes, &names, text);
    discard(names);
    Ok((links, demands?))
}

/// Takes all up to the end of the section of nodes. It gives their names for look-ups too.
#[tactic(auto, unfolding(crate::specs::Reading::node_section_at))]
fn node_section<'a>(
    alloc: Global,
    text: &mut Cursor<'a>,
) -> Result<(List<Name>, Names<'a>), ReadRefusal>
    ensures reads { ReadsAs (λ r. r.0) result (left text.new) (node_section_at (left text.old)) }
    ensures nodes { IfOk result (λ r. (from rest : Text) × (native_nodes_at [] from ≡ Ok (r.0, rest))) }
    ensures named { IfOk result (λ r. r.1 ≡ r.0) }
{
    start(text)?;
    open(ReadKind::Section, ReadKind::Ended, text)?;
    nodes(alloc, text)
}

/// Takes all sections, and finds that nothing is after them.
#[tactic(auto, unfolding(crate::specs::Reading::native_sections_at))]
fn sections(
    alloc: Global,
    places: Places,
    text: &mut Cursor,
) -> Result<(Network, Demands), ReadRefusal>
    ensures { ReadsAs (λ r. (parts_of r.0, r.1)) result (left text.new) (native_sections_at places (left text.old)) }
{
    let (nodes, names) = node_section(alloc, text)?;
    let rest = after_nodes(alloc, places, &names, text);
    discard(names);
    Ok(network_and_demands(alloc, places, nodes, rest?)?)
}

/// The whole file, with these places.
fn file(alloc: Global, places: Places, bytes: &[u8]) -> Result<(Network, Demands), ReadRefusal>
    ensures { ReadsAllAs (λ r. (parts_of r.0, r.1)) result (network_in places bytes.now) }
{
    let mut text = text_after_header(ReadKind::Header, bytes, HEADER)?;
    sections(alloc, places, &mut text)
}

/// Whether the first fault is a number that has too many places.
fn was_too_fine(read: &Result<(Network, Demands), ReadRefusal>) -> bool
    ensures { result ≡ was_too_fine read.now }
{
    matches!(
        read,
        Err(Refusal::Bad {
            kind: ReadKind::Number(NumberFault::TooFine),
            ..
        })
    )
}

/// The whole file with three places, and with six where its first fault is a number that has too many for three.
fn file_in_its_places(alloc: Global, bytes: &[u8]) -> Result<(Network, Demands), ReadRefusal>
    ensures { ReadsAllAs (λ r. (parts_of r.0, r.1)) result (network_of bytes.now) }
{
    let read = file(alloc, Places::Three, bytes);
    if was_too_fine(&read) {
        return file(alloc, Places::Six, bytes);
    }
    read
}

/// The network and the demands that a file spells. They have three places after the point; where a number of the file has
/// more, and that is the first fault, the file is read once more, and they have six.
///
/// It takes time in proportion to the file's length, since names are looked up by their hashes; memory for what it gives, and
/// for a table of the places of all names. What the first reading took is given back before the second.
///
/// After the header, `NODES ( A B ) LINKS ( L ( A B ) 0 0 0 0 ( 10 5 ) ) DEMANDS ( D ( A B ) 1 2.5 UNLIMITED )` spells
/// two nodes, a link between them that takes modules of 10,000 thousandths for 5,000 each, and a demand that needs
/// 2,500. With a demand of 2.5001 all of them are millionths: modules of 10,000,000 for 5,000,000, and a need of 2,500,100.
/// With `( A C )` after `L` it is refused: `UnknownName`, at the place of the C.
pub fn read_network(alloc: Global, bytes: &[u8]) -> Result<(Network, Demands), ReadRefusal>
    // What is read is spelled, in the places with which the file is read.
    ensures read { IfOk result (λ r. Spells bytes.now r.0 r.1) }
    // Nothing else is spelled.
    ensures only { IfOk result (λ r. (net : Net) (demands : List Dem) → Spells bytes.now net demands → (net.nodes ≡ r.0.nodes)
        × (net.links ≡ r.0.links) × (net.notes ≡ r.0.notes) × (net.places ≡ r.0.places) × (demands ≡ r.1)) }
    // What is refused as bad spells nothing, and the fault is the first one by place.
    ensures refused { (at : ℕ) (kind : ReadKind) → result ≡ Err (Refusal.Bad at kind)
        → (network_of bytes.now ≡ Err (at, kind)) × ((net : Net) (demands : List Dem) → Spells bytes.now net demands → ⊥) }
    // A fault isn't too early: no bytes that agree past it, and past a number that was too fine, are spelled right.
    ensures not_early { IfErr result (IsNoEarlyFault bytes.now) }
{
    file_in_its_places(alloc, bytes)
}
