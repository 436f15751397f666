ghost use Rattle.std.specs.Prelude.{◌≡◌, ◌≤◌, ◌<◌, ◌^◌, ◌+◌, ◌++◌, ◌∷◌, None, false, IsTrue, IfOk, OnOk, Ok, [], length, map};
ghost use Rattle.net_core.{specs.Terms.{is_named, total_need}, specs.Limits.{most_nodes, name_bytes}};
ghost use Rattle.snd_tokens.specs.Terms.{left, size};
ghost use Rattle.text_kit.specs.Terms.{ReadsAs, TakesElement, sound, word_at};
ghost use Rattle.sndlib_reader.specs.Reading.{native_demand_at, demand_rest_at, demand_fault, native_demands_at, hops, need, unit};

use crate::fault::{Limited, ReadKind, ReadRefusal};
use crate::names::Names;
use crate::node::ends;
use crate::words::amount_of;
use net_core::limits::MOST_DEMANDS;
use net_core::{Demand, Demands, List, Name, NodeId, Places};
use snd_tokens::{Cursor, NumberFault, are_digits, units};
use std::alloc::Global;
use text_kit::names::new_name_fault;
use text_kit::steps::{closes, placed, word};

/// What a demand has after its name; the need is in units of the network.
#[derive(Clone, Copy)]
pub struct DemandRest {
    pub from: NodeId,
    pub to: NodeId,
    pub need: u64,
}

const MAX_NEED: u128 = 1 << 40;

const MAX_TOTAL: u128 = 1 << 44;

const UNLIMITED: &[u8] = b"UNLIMITED";

/// The whole number that the word of a unit writes, for a network with these places.
fn unit_of(places: Places, word: &[u8]) -> Result<u64, ReadKind>
    ensures value { result ≡ unit places word.now }
    ensures small { IfOk result (λ n. n < 2 ^ 40) }
{
    match units(word, places) {
        Ok(units) => Ok(units),
        Err(fault) => Err(ReadKind::Number(fault)),
    }
}

/// Takes the whole number that a unit's word writes.
fn unit(places: Places, text: &mut Cursor) -> Result<u64, ReadRefusal>
    ensures reads { ReadsAs (λ n. n) result (left text.new) (word_at ReadKind.Token ReadKind.Ended (unit places) (left text.old)) }
    ensures small { IfOk result (λ n. n < 2 ^ 40) }
{
    let (at, word) = word(ReadKind::Token, ReadKind::Ended, text)?;
    placed(at, unit_of(places, word))
}

/// The need of a demand with this unit and a word's amount, after demands of this total, in units of a network with these
/// places. A unit of 2 and the amount 1.5 need 3,000 with three places.
fn need_of(places: Places, before: u64, units: u64, word: &[u8]) -> Result<u64, ReadKind>
    requires before { before < 2 ^ 44 }
    requires units { units < 2 ^ 40 }
    ensures value { result ≡ need places before units word.now }
    ensures below { IfOk result (λ n. before + n < 2 ^ 44) }
{
    let amount = amount_of(places, word)?;
    let need = u128::from(units) * u128::from(amount);
    if need >= MAX_NEED {
        return Err(ReadKind::Number(NumberFault::TooLarge));
    }
    if u128::from(before) + need >= MAX_TOTAL {
        return Err(ReadKind::Limit(Limited::Total));
    }
    Ok(need as u64)
}

/// Takes the amount of a demand with this unit, after demands of this total. It gives its need.
fn need(places: Places, before: u64, units: u64, text: &mut Cursor) -> Result<u64, ReadRefusal>
    requires before { before < 2 ^ 44 }
    requires units { units < 2 ^ 40 }
    ensures reads { ReadsAs (λ n. n) result (left text.new) (word_at ReadKind.Token ReadKind.Ended (need places before units) (left text.old)) }
    ensures below { IfOk result (λ n. before + n < 2 ^ 44) }
{
    let (at, word) = word(ReadKind::Token, ReadKind::Ended, text)?;
    placed(at, need_of(places, before, units, word))
}

/// Tests how many links a path may have.
fn hops_of(word: &[u8]) -> Result<(), ReadKind>
    ensures { result ≡ hops word.now }
{
    if word == UNLIMITED || are_digits(word) {
        return Ok(());
    }
    Err(ReadKind::Number(NumberFault::NotANumber))
}

/// Takes how many links a path may have, which isn't kept.
fn hops(text: &mut Cursor) -> Result<(), ReadRefusal>
    ensures { ReadsAs (λ _. tt) result (left text.new) (word_at ReadKind.Token ReadKind.Ended hops (left text.old)) }
{
    let (at, word) = word(ReadKind::Token, ReadKind::Ended, text)?;
    placed(at, hops_of(word))
}

/// What is wrong with a word as the name of a demand after these ones, which have these names.
fn demand_fault(demands: &[Demand], names: &Names, word: &[u8]) -> Option<ReadKind>
    requires { names.now ≡ map (λ d. d.name) demands.now }
    ensures value { result ≡ demand_fault demands.now word.now }
    ensures short { result ≡ None → length word.now ≤ name_bytes }
    ensures free { result ≡ None → is_named (λ n. n) word.now names.now ≡ false }
{
    new_name_fault(
        ReadKind::Limit(Limited::Name),
        ReadKind::DoubleName,
        ReadKind::Limit(Limited::Demands),
        MOST_DEMANDS,
        demands.len(),
        names.has(word),
        word,
    )
}

/// Takes the name of a demand after these ones.
fn demand_name<'a>(
    alloc: Global,
    demands: &[Demand],
    names: &mut Names<'a>,
    text: &mut Cursor<'a>,
) -> Result<Name, ReadRefusal>
    requires { names.now ≡ map (λ d. d.name) demands.now }
    ensures reads { ReadsAs (λ n. n) result (left text.new)
        (word_at ReadKind.Token ReadKind.Ended (λ w. sound w (demand_fault demands.now w)) (left text.old)) }
    ensures last { IfOk result (λ n. names.new ≡ names.old ++ n ∷ []) }
{
    let (at, word) = word(ReadKind::Token, ReadKind::Ended, text)?;
    names.put(alloc, at, word, demand_fault(demands, names, word))
}

/// Takes what a demand has after its name; the total of those before it is `before`.
#[tactic(auto, unfolding(crate::specs::Reading::demand_rest_at))]
fn demand_rest(
    places: Places,
    nodes: &Names,
    before: u64,
    text: &mut Cursor,
) -> Result<DemandRest, ReadRefusal>
    requires nodes { length nodes.now ≤ most_nodes }
    requires below { before < 2 ^ 44 }
    ensures reads { ReadsAs (λ r. r) result (left text.new) (demand_rest_at places nodes.now before (left text.old)) }
    ensures below { IfOk result (λ r. before + r.need < 2 ^ 44) }
{
    let (from, to) = ends(ReadKind::SelfDemand, nodes, text)?;
    let units = unit(places, text)?;
    let need = need(places, before, units, text)?;
    hops(text)?;
    Ok(DemandRest { from, to, need })
}

/// Takes a demand after these ones, whose total is `before`.
#[tactic(auto, unfolding(crate::specs::Reading::native_demand_at))]
fn demand<'a>(
    alloc: Global,
    places: Places,
    nodes: &Names,
    demands: &[Demand],
    names: &mut Names<'a>,
    before: u64,
    text: &mut Cursor<'a>,
) -> Result<Demand, ReadRefusal>
    requires nodes { length nodes.now ≤ most_nodes }
    requires named { names.now ≡ map (λ d. d.name) demands.now }
    requires sum { before ≡ total_need demands.now }
    requires below { before < 2 ^ 44 }
    ensures reads { ReadsAs (λ d. d) result (left text.new) (native_demand_at places nodes.now demands.now (left text.old)) }
    ensures below { IfOk result (λ d. before + d.need < 2 ^ 44) }
    ensures last { IfOk result (λ d. names.new ≡ names.old ++ d.name ∷ []) }
{
    let name = demand_name(alloc, demands, names, text)?;
    let DemandRest { from, to, need } = demand_rest(places, nodes, before, text)?;
    Ok(Demand {
        name,
        from,
        to,
        need,
    })
}

/// Takes one demand more after these ones, whose total is `sum`, and says whether there was one.
fn take_demand<'a>(
    alloc: Global,
    places: Places,
    nodes: &Names,
    all: &mut Demands,
    names: &mut Names<'a>,
    sum: &mut u64,
    text: &mut Cursor<'a>,
) -> Result<bool, ReadRefusal>
    requires nodes { length nodes.now ≤ most_nodes }
    requires named { names.now ≡ map (λ d. d.name) all.now }
    requires sum { sum.now ≡ total_need all.now }
    requires below { sum.now < 2 ^ 44 }
    ensures turn { TakesElement result (native_demands_at places nodes.now all.old (left text.old))
        (native_demands_at places nodes.now all.new (left text.new)) (Ok (all.new, left text.new)) }
    ensures shorter { IfOk result (λ more. IsTrue more → size (left text.new) < size (left text.old)) }
    ensures named { OnOk result (names.new ≡ map (λ d. d.name) all.new) }
    ensures sum { OnOk result (sum.new ≡ total_need all.new) }
    ensures below { OnOk result (sum.new < 2 ^ 44) }
{
    if let Some(_) = closes(text) {
        return Ok(false);
    }
    let demand = demand(alloc, places, nodes, all.items(), names, *sum, text)?;
    *sum += demand.need;
    all.push(demand)?;
    Ok(true)
}

/// Takes demands, up to the closing parenthesis. It gives their names for look-ups too.
pub(crate) fn demands<'a>(
    alloc: Global,
    places: Places,
    nodes: &Names,
    text: &mut Cursor<'a>,
) -> Result<(Demands, Names<'a>), ReadRefusal>
    requires { length nodes.now ≤ most_nodes }
    ensures reads { ReadsAs (λ r. r.0) result (left text.new) (native_demands_at places nodes.now [] (left text.old)) }
    ensures named { IfOk result (λ r. r.1 ≡ map (λ d. d.name) r.0) }
{
    let mut all = List::new(alloc);
    let mut names = Names::new(alloc);
    let mut sum = 0;
    while take_demand(alloc, places, nodes, &mut all, &mut names, &mut sum, text)? {}
    Ok((all, names))
}
