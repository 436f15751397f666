ghost use Rattle.std.specs.Prelude.{◌≡◌, ◌≤◌, ◌<◌, ◌++◌, ◌∷◌, None, false, IsTrue, IfOk, OnOk, Ok, [], length, map};
ghost use Rattle.net_core.{specs.Terms.is_named, specs.Limits.{most_nodes, name_bytes}};
ghost use Rattle.snd_tokens.specs.Terms.{left, size};
ghost use Rattle.text_kit.specs.Terms.{ReadsAs, TakesElement, Parenthesis, list_at, sound, word_at};
ghost use Rattle.sndlib_reader.specs.Reading.{capacity, native_link_at, link_numbers_at, link_rest_at, named_link, link_fault, costed_links_at, module_at, unserved};

use crate::costs::CostedLink;
use crate::fault::{Limited, ReadKind, ReadRefusal};
use crate::names::Names;
use crate::node::ends;
use crate::words::{amount, amount_of};
use net_core::limits::{MOST_LINKS, MOST_MODULES};
use net_core::{Link, List, Module, Name, NodeId, Places};
use snd_tokens::Cursor;
use std::alloc::Global;
use text_kit::names::new_name_fault;
use text_kit::refusal::bad;
use text_kit::steps::{closes, open, placed, word};

/// The pre-installed capacity of a link and its costs, in units of the network.
#[derive(Clone, Copy)]
pub struct LinkNumbers {
    pub fixed: u64,
    pub fixed_cost: u64,
    pub routing_cost: u64,
    pub setup: u64,
}

/// What a link has after its name.
#[derive(Drop)]
pub struct LinkRest {
    pub a: NodeId,
    pub b: NodeId,
    pub numbers: LinkNumbers,
    pub modules: List<Module>,
}

/// The capacity of a word for a module after these ones, in units of a network with these places.
fn capacity_of(places: Places, modules: &[Module], word: &[u8]) -> Result<u64, ReadKind>
    ensures { result ≡ capacity places modules.now word.now }
{
    let capacity = amount_of(places, word)?;
    if capacity == 0 {
        return Err(ReadKind::ZeroModule);
    }
    if modules.len() >= MOST_MODULES {
        return Err(ReadKind::Limit(Limited::Modules));
    }
    Ok(capacity)
}

/// Takes the capacity of a module after these ones.
fn capacity(places: Places, modules: &[Module], text: &mut Cursor) -> Result<u64, ReadRefusal>
    ensures { ReadsAs (λ n. n) result (left text.new) (word_at ReadKind.Token ReadKind.Ended (capacity places modules.now) (left text.old)) }
{
    let (at, word) = word(ReadKind::Token, ReadKind::Ended, text)?;
    placed(at, capacity_of(places, modules, word))
}

/// Takes a module after these ones.
#[tactic(auto, unfolding(crate::specs::Reading::module_at))]
fn module(places: Places, modules: &[Module], text: &mut Cursor) -> Result<Module, ReadRefusal>
    ensures { ReadsAs (λ m. m) result (left text.new) (module_at places modules.now (left text.old)) }
{
    let capacity = capacity(places, modules, text)?;
    let cost = amount(places, text)?;
    Ok(Module { capacity, cost })
}

/// Takes one module more of a link with this pre-installed capacity, and says whether there was one.
fn take_module(
    places: Places,
    fixed: u64,
    all: &mut List<Module>,
    text: &mut Cursor,
) -> Result<bool, ReadRefusal>
    ensures turn { TakesElement result (list_at Parenthesis (unserved fixed) (module_at places) all.old (left text.old))
        (list_at Parenthesis (unserved fixed) (module_at places) all.new (left text.new)) (Ok (all.new, left text.new)) }
    ensures shorter { IfOk result (λ more. IsTrue more → size (left text.new) < size (left text.old)) }
{
    if let Some(at) = closes(text) {
        if all.len() == 0 && fixed > 0 {
            return Err(bad(at, ReadKind::FixedLink));
        }
        return Ok(false);
    }
    let module = module(places, all.items(), text)?;
    all.push(module)?;
    Ok(true)
}

/// Takes the modules of a link with this pre-installed capacity, up to the closing parenthesis.
fn modules(
    alloc: Global,
    places: Places,
    fixed: u64,
    text: &mut Cursor,
) -> Result<List<Module>, ReadRefusal>
    ensures { ReadsAs (λ ms. ms) result (left text.new) (list_at Parenthesis (unserved fixed) (module_at places) [] (left text.old)) }
{
    let mut all = List::new(alloc);
    while take_module(places, fixed, &mut all, text)? {}
    Ok(all)
}

/// What is wrong with a word as the name of a link after these ones, which have these names.
fn link_fault(links: &[CostedLink], names: &Names, word: &[u8]) -> Option<ReadKind>
    requires { names.now ≡ map (λ l. l.link.name) links.now }
    ensures value { result ≡ link_fault links.now word.now }
    ensures short { result ≡ None → length word.now ≤ name_bytes }
    ensures free { result ≡ None → is_named (λ n. n) word.now names.now ≡ false }
{
    new_name_fault(
        ReadKind::Limit(Limited::Name),
        ReadKind::DoubleName,
        ReadKind::Limit(Limited::Links),
        MOST_LINKS,
        links.len(),
        names.has(word),
        word,
    )
}

/// Takes the name of a link after these ones.
fn link_name<'a>(
    alloc: Global,
    links: &[CostedLink],
    names: &mut Names<'a>,
    text: &mut Cursor<'a>,
) -> Result<Name, ReadRefusal>
    requires { names.now ≡ map (λ l. l.link.name) links.now }
    ensures reads { ReadsAs (λ n. n) result (left text.new) (word_at ReadKind.Token ReadKind.Ended (λ w. sound w (link_fault links.now w)) (left text.old)) }
    ensures last { IfOk result (λ n. names.new ≡ names.old ++ n ∷ []) }
{
    let (at, word) = word(ReadKind::Token, ReadKind::Ended, text)?;
    names.put(alloc, at, word, link_fault(links, names, word))
}

/// Takes the pre-installed capacity of a link and its costs.
#[tactic(auto, unfolding(crate::specs::Reading::link_numbers_at))]
fn link_numbers(places: Places, text: &mut Cursor) -> Result<LinkNumbers, ReadRefusal>
    ensures { ReadsAs (λ n. n) result (left text.new) (link_numbers_at places (left text.old)) }
{
    let fixed = amount(places, text)?;
    let fixed_cost = amount(places, text)?;
    let routing_cost = amount(places, text)?;
    let setup = amount(places, text)?;
    Ok(LinkNumbers {
        fixed,
        fixed_cost,
        routing_cost,
        setup,
    })
}

/// Takes what a link has after its name.
#[tactic(auto, unfolding(crate::specs::Reading::link_rest_at))]
fn link_rest(
    alloc: Global,
    places: Places,
    nodes: &Names,
    text: &mut Cursor,
) -> Result<LinkRest, ReadRefusal>
    requires { length nodes.now ≤ most_nodes }
    ensures { ReadsAs (λ r. r) result (left text.new) (link_rest_at places nodes.now (left text.old)) }
{
    let (a, b) = ends(ReadKind::SelfLink, nodes, text)?;
    let numbers = link_numbers(places, text)?;
    open(ReadKind::Token, ReadKind::Ended, text)?;
    let modules = modules(alloc, places, numbers.fixed, text)?;
    Ok(LinkRest {
        a,
        b,
        numbers,
        modules,
    })
}

/// The link of this name.
fn named_link(name: Name, rest: LinkRest) -> CostedLink
    ensures { result ≡ named_link name rest }
{
    CostedLink {
        link: Link {
            name,
            a: rest.a,
            b: rest.b,
            fixed: rest.numbers.fixed,
            setup: rest.numbers.setup,
            modules: rest.modules,
        },
        fixed_cost: rest.numbers.fixed_cost,
        routing_cost: rest.numbers.routing_cost,
    }
}

/// Takes a link after these ones.
#[tactic(auto, unfolding(crate::specs::Reading::native_link_at))]
fn link<'a>(
    alloc: Global,
    places: Places,
    nodes: &Names,
    links: &[CostedLink],
    names: &mut Names<'a>,
    text: &mut Cursor<'a>,
) -> Result<CostedLink, ReadRefusal>
    requires nodes { length nodes.now ≤ most_nodes }
    requires named { names.now ≡ map (λ l. l.link.name) links.now }
    ensures reads { ReadsAs (λ l. l) result (left text.new) (native_link_at places nodes.now links.now (left text.old)) }
    ensures last { IfOk result (λ l. names.new ≡ names.old ++ l.link.name ∷ []) }
{
    let name = link_name(alloc, links, names, text)?;
    let rest = link_rest(alloc, places, nodes, text)?;
    Ok(named_link(name, rest))
}

/// Takes one link more, and says whether there was one.
fn take_link<'a>(
    alloc: Global,
    places: Places,
    nodes: &Names,
    all: &mut List<CostedLink>,
    names: &mut Names<'a>,
    text: &mut Cursor<'a>,
) -> Result<bool, ReadRefusal>
    requires nodes { length nodes.now ≤ most_nodes }
    requires named { names.now ≡ map (λ l. l.link.name) all.now }
    ensures turn { TakesElement result (costed_links_at places nodes.now all.old (left text.old))
        (costed_links_at places nodes.now all.new (left text.new)) (Ok (all.new, left text.new)) }
    ensures shorter { IfOk result (λ more. IsTrue more → size (left text.new) < size (left text.old)) }
    ensures named { OnOk result (names.new ≡ map (λ l. l.link.name) all.new) }
{
    if let Some(_) = closes(text) {
        return Ok(false);
    }
    let link = link(alloc, places, nodes, all.items(), names, text)?;
    all.push(link)?;
    Ok(true)
}

/// Takes links, up to the closing parenthesis. It gives their names for look-ups too.
pub(crate) fn links<'a>(
    alloc: Global,
    places: Places,
    nodes: &Names,
    text: &mut Cursor<'a>,
) -> Result<(List<CostedLink>, Names<'a>), ReadRefusal>
    requires { length nodes.now ≤ most_nodes }
    ensures reads { ReadsAs (λ r. r.0) result (left text.new) (costed_links_at places nodes.now [] (left text.old)) }
    ensures named { IfOk result (λ r. r.1 ≡ map (λ l. l.link.name) r.0) }
{
    let mut all = List::new(alloc);
    let mut names = Names::new(alloc);
    while take_link(alloc, places, nodes, &mut all, &mut names, text)? {}
    Ok((all, names))
}
