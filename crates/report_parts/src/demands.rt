ghost use Rattle.std.specs.Prelude.{◌≡◌, ◌≢◌, ◌<◌, ◌≤◌, AllPairs, ◌^◌, ◌++◌, ◌∷◌, [], length, map, Ok, None, true, not, IsTrue, IfOk, OnOk};
ghost use Rattle.plan_terms.specs.Terms.{is_named};
ghost use Rattle.snd_tokens.specs.Terms.{left, size};
ghost use Rattle.text_kit.specs.Terms.{ReadsAs, TakesElement, sound, word_at};
ghost use Rattle.report_words.specs.Terms.{demand_at, demand_of, demand_within, new_demand};
ghost use Rattle.net_core.specs.Limits.{most_demands, name_bytes};
ghost use Rattle.report_parts.specs.ReadingParts.{demand_list_at, nodes_at, plan_demand_at, plan_demands_at};

use net_core::{Demand, Demands, List, Name, NoMemory, NodeId};
use report_words::context::Context;
use report_words::fault::{ReportKind, ReportRefusal};
use report_words::places::Places;
use report_words::words::{amount, closing, keyword, opening, unknown_name};
use snd_tokens::Cursor;
use std::alloc::Global;
use text_kit::Refusal;
use text_kit::names::{is_long, named};
use text_kit::refusal::bad;
use text_kit::steps::{closes, placed, word};

const DEMANDS: &[u8] = b"DEMANDS";

/// The most demands that are told apart by their places.
const MAX_PLACES: usize = u32::MAX as usize;

/// The demands of a plan, which are found by their names, in time that doesn't grow with their number.
/// The names are parts of the text, which is lent.
#[derive(Drop)]
pub struct PlanDemands<'a> {
    pub list: Demands,
    places: Places<'a>,
    ghost names: { places ≡ map (λ d. d.name) list },
    ghost few: { length list < 2 ^ 32 },
}

/// The names of demands, which are all different, found in time that doesn't grow with their number. It takes time and memory in their
/// number, and lends the names.
pub fn demand_places(alloc: Global, demands: &[Demand]) -> Result<Places<'_>, NoMemory>
    requires { AllPairs (λ x y. x.name ≢ y.name) demands.now }
    ensures { IfOk result (λ p. p ≡ map (λ d. d.name) demands.now) }
{
    let mut places = Places::new(alloc);
    for demand in demands {
        if !places.add(demand.name.bytes())? {
            unreachable!();
        }
    }
    Ok(places)
}

impl<'a> PlanDemands<'a> {
    /// A copy of demands whose names are all different, and which are found by these. It takes time and memory in their number.
    pub fn of(alloc: Global, demands: &'a [Demand]) -> Result<PlanDemands<'a>, NoMemory>
        requires few { length demands.now ≤ most_demands }
        requires different { AllPairs (λ x y. x.name ≢ y.name) demands.now }
        ensures { IfOk result (λ p. p.list ≡ demands.now) }
    {
        let places = demand_places(alloc, demands)?;
        let list = List::from_slice(alloc, demands)?;
        Ok(PlanDemands { list, places })
    }

    /// The demand that a word names.
    fn demand_of(&self, word: &[u8]) -> Result<u32, ReportKind>
        ensures { result ≡ demand_of self.now.list word.now }
    {
        match self.places.find(word) {
            Some(place) => Ok(place as u32),
            None => Err(unknown_name(word)),
        }
    }

    /// Takes the name of a demand and gives its place, from 0, where there is room for what it begins;
    /// where there is none, it is `limit`. A name that no demand has is `unknown-name`, or `limit-name`
    /// if it has more than 255 bytes.
    pub fn next(&self, room: bool, text: &mut Cursor) -> Result<u32, ReportRefusal>
        ensures { ReadsAs (λ k. k) result (left text.new) (demand_within room self.now.list (left text.old)) }
    {
        let (at, word) = word(ReportKind::Token, ReportKind::Ended, text)?;
        match self.demand_of(word) {
            Ok(place) => {
                if room {
                    return Ok(place);
                }
                Err(bad(at, ReportKind::Limit))
            }
            Err(kind) => Err(bad(at, kind)),
        }
    }

    /// Takes the name of a demand and gives its place, from 0. A name that no demand has is
    /// `unknown-name`, or `limit-name` if it has more than 255 bytes.
    pub fn demand(&self, text: &mut Cursor) -> Result<u32, ReportRefusal>
        ensures { ReadsAs (λ k. k) result (left text.new) (demand_at self.now.list (left text.old)) }
    {
        let (at, word) = word(ReportKind::Token, ReportKind::Ended, text)?;
        placed(at, self.demand_of(word))
    }
}

/// Puts a name last, where none of these demands has it. It says whether that is so.
fn put_name<'a>(places: &mut Places<'a>, sofar: &[Demand], name: &'a [u8]) -> Result<bool, NoMemory>
    requires { places.old ≡ map (λ d. d.name) sofar.now }
    ensures new { IfOk result (λ new. new ≡ true → places.new ≡ places.old ++ name.now ∷ []) }
    ensures known { IfOk result (λ new. is_named (λ d. d.name) name.now sofar.now ≡ not new) }
{
    if places.add(name)? {
        return Ok(true);
    }
    Ok(false)
}

/// What is wrong with a word as the name of a demand after these ones. A name without fault is put
/// last.
fn name_fault<'a>(
    places: &mut Places<'a>,
    sofar: &[Demand],
    word: &'a [u8],
) -> Result<Option<ReportKind>, NoMemory>
    requires { places.old ≡ map (λ d. d.name) sofar.now }
    ensures fault { IfOk result (λ f. sound word.now f ≡ new_demand sofar.now word.now) }
    ensures short { IfOk result (λ f. f ≡ None → length word.now ≤ name_bytes) }
    ensures places { IfOk result (λ f. f ≡ None → places.new ≡ places.old ++ word.now ∷ []) }
{
    if is_long(word) {
        return Ok(Some(ReportKind::LimitName));
    }
    if !put_name(places, sofar, word)? {
        return Ok(Some(ReportKind::DoubleName));
    }
    Ok(None)
}

/// Takes a name that none of these demands has, and puts it last.
fn new_name<'a>(
    alloc: Global,
    places: &mut Places<'a>,
    sofar: &[Demand],
    text: &mut Cursor<'a>,
) -> Result<Name, ReportRefusal>
    requires { places.old ≡ map (λ d. d.name) sofar.now }
    ensures reads { ReadsAs (λ n. n) result (left text.new) (word_at ReportKind.Token ReportKind.Ended (new_demand sofar.now) (left text.old)) }
    ensures places { IfOk result (λ n. places.new ≡ places.old ++ n ∷ []) }
{
    let (at, word) = word(ReportKind::Token, ReportKind::Ended, text)?;
    if let Some(kind) = name_fault(places, sofar, word)? {
        return Err(bad(at, kind));
    }
    named(alloc, at, word, None)
}

/// Takes two nodes between parentheses.
#[tactic(auto, unfolding(crate::specs::ReadingParts::nodes_at))]
fn nodes(context: &Context, text: &mut Cursor) -> Result<(NodeId, NodeId), ReportRefusal>
    ensures { ReadsAs (λ p. p) result (left text.new) (nodes_at context.now.net.now.nodes (left text.old)) }
{
    opening(text)?;
    let from = context.node(text)?;
    let to = context.node(text)?;
    closing(text)?;
    Ok((from, to))
}

/// Takes a demand after these ones.
#[tactic(auto, unfolding(crate::specs::ReadingParts::plan_demand_at))]
fn demand<'a>(
    alloc: Global,
    context: &Context,
    places: &mut Places<'a>,
    sofar: &[Demand],
    text: &mut Cursor<'a>,
) -> Result<Demand, ReportRefusal>
    requires { places.old ≡ map (λ d. d.name) sofar.now }
    ensures reads { ReadsAs (λ d. d) result (left text.new) (plan_demand_at context.now.net.now.places context.now.net.now.nodes sofar.now (left text.old)) }
    ensures places { IfOk result (λ d. places.new ≡ places.old ++ d.name ∷ []) }
{
    let name = new_name(alloc, places, sofar, text)?;
    let (from, to) = nodes(context, text)?;
    let need = amount(context.net.places(), text)?;
    Ok(Demand {
        name,
        from,
        to,
        need,
    })
}

/// Takes one demand more, and says whether there was one. There is no memory for 2^32 demands.
fn take_demand<'a>(
    alloc: Global,
    context: &Context,
    places: &mut Places<'a>,
    all: &mut Demands,
    text: &mut Cursor<'a>,
) -> Result<bool, ReportRefusal>
    requires { places.old ≡ map (λ d. d.name) all.old }
    ensures turn { TakesElement result
        (demand_list_at context.now.net.now.places context.now.net.now.nodes all.old (left text.old))
        (demand_list_at context.now.net.now.places context.now.net.now.nodes all.new (left text.new))
        (Ok (all.new, left text.new)) }
    ensures shorter { IfOk result (λ more. IsTrue more → size (left text.new) < size (left text.old)) }
    ensures places { OnOk result (places.new ≡ map (λ d. d.name) all.new) }
    ensures few { OnOk result (length all.old < 2 ^ 32 → length all.new < 2 ^ 32) }
{
    if let Some(_) = closes(text) {
        return Ok(false);
    }
    if all.len() >= MAX_PLACES {
        return Err(Refusal::NoMemory);
    }
    let demand = demand(alloc, context, places, all.items(), text)?;
    all.push(demand)?;
    Ok(true)
}

/// Takes demands, up to the closing parenthesis.
fn list<'a>(
    alloc: Global,
    context: &Context,
    text: &mut Cursor<'a>,
) -> Result<PlanDemands<'a>, ReportRefusal>
    ensures { ReadsAs (λ d. d.list) result (left text.new) (demand_list_at context.now.net.now.places context.now.net.now.nodes [] (left text.old)) }
{
    let mut places = Places::new(alloc);
    let mut list = List::new(alloc);
    while take_demand(alloc, context, &mut places, &mut list, text)? {}
    Ok(PlanDemands { list, places })
}

/// Takes the demands of a plan: each one's name, its two nodes between parentheses, and its need in units of the
/// network.
///
/// A name that an earlier demand has is `double-name`, one of more than 255 bytes `limit-name`, and an unknown node `unknown-name`.
/// It takes time in the bytes, and memory for the demands with their names and for the places of these.
#[tactic(auto, unfolding(crate::specs::ReadingParts::plan_demands_at))]
pub fn plan_demands<'a>(
    alloc: Global,
    context: &Context,
    text: &mut Cursor<'a>,
) -> Result<PlanDemands<'a>, ReportRefusal>
    ensures { ReadsAs (λ d. d.list) result (left text.new) (plan_demands_at context.now.net.now.places context.now.net.now.nodes (left text.old)) }
{
    keyword(DEMANDS, text)?;
    opening(text)?;
    list(alloc, context, text)
}
