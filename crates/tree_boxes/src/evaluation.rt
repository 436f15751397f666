ghost use Rattle.std.specs.Prelude.{◌≡◌, ◌+◌, ◌≤◌, ◌<◌, ◌^◌, IfOk, OnOk, length};
ghost use Rattle.plan_terms.specs.Terms.{AreCounts};
ghost use Rattle.tree_check.specs.Boxes.{IsFixedBox, least_counts};
ghost use Rattle.tree_boxes.{specs.Searches.{HasLearned, IsAim, IsSearch, aimed, handed_in, most_entries, IsUnsettledIn}, specs.Finds.{IsFoundAt, IsSearchBox, IsValued}, specs.inner.Rounds.IsRoundTo, specs.inner.Asking.IsTriedTo};

use crate::aim::Aim;
use crate::asks::{ask, ask_within};
use crate::certs::{Valued, greater, greatest};
use crate::found::{Cheaper, Found};
use crate::known::has_cut;
use crate::lines::make_box_lines;
use crate::search::{MOST_FURTHER, Search};
use crate::twigs::{OpenBox, Twig};
use crate::whole::whole_counts;
use able_counts::Stop;
use module_choice::cost;
use net_core::{Counts, NoMemory};
use plan_swaps::limits::are_within_limits;
use std::alloc::Global;
use tree_check::fixed_counts::fixed_counts;
use tree_check::{BoxCert, Boxed, Node};

/// What is found at a box with a single choice of counts, if no known cut empties it and its best certificate doesn't close it.
fn look_fixed(
    alloc: Global,
    aim: &Aim,
    search: &mut Search,
    best: Valued,
    boxed: &Boxed,
    counts: Counts,
    depth: u32,
) -> Result<Found, NoMemory>
    requires aim { IsAim search.old.known.entries aim.now }
    requires search { IsSearch (aimed aim.now) search.old }
    requires room { length search.old.known.entries + 1 < 2 ^ 31 }
    requires search_box { IsSearchBox (aimed aim.now).links depth boxed.now }
    requires low { depth ≤ 2 ^ 14 }
    requires fixed { IsFixedBox boxed.now }
    requires counts { counts ≡ least_counts boxed.now }
    requires valued { IsValued (aimed aim.now) aim.now.plan.now search.old.known.tested boxed.now best }
    requires below { best.value < aim.now.plan.now.cost }
    requires unsettled { IsUnsettledIn (aimed aim.now) aim.now.plan.now search.old boxed.now }
    ensures search { OnOk result (IsSearch (aimed aim.now) search.new) }
    ensures learned { OnOk result (HasLearned search.old search.new) }
    ensures few { OnOk result (length search.new.known.entries ≤ length search.old.known.entries + 1) }
    ensures found { IfOk result (IsFoundAt (aimed aim.now) aim.now.plan.now (handed_in search.old) search.new.known.tested depth boxed.now) }
{
    match ask(alloc, aim, &mut search.test, counts)? {
        Ok(cheaper) => Ok(Found::Cheaper(cheaper)),
        Err(Stop::Cut(line)) => {
            let cut = search.known.entries.len() as u32;
            search.known.push(alloc, aim.instance, line)?;
            Ok(Found::Twig(Twig::Settled(Node::Empty { cut })))
        }
        Err(Stop::Wide(evidence)) => Ok(Found::Twig(Twig::Stuck(best, evidence))),
    }
}

/// What came of asking about a whole point.
#[derive(Drop)]
enum Tried {
    Cheaper(Cheaper),
    /// A new cut stops it.
    More,
    Nothing,
}

/// Asks about the counts of a whole point, if they cost less than the plan.
fn try_whole(
    alloc: Global,
    aim: &Aim,
    search: &mut Search,
    counts: Counts,
) -> Result<Tried, NoMemory>
    requires aim { IsAim search.old.known.entries aim.now }
    requires search { IsSearch (aimed aim.now) search.old }
    requires room { most_entries search.old < 2 ^ 31 }
    requires shape { AreCounts (aimed aim.now).links counts }
    ensures search { OnOk result (IsSearch (aimed aim.now) search.new) }
    ensures learned { OnOk result (HasLearned search.old search.new) }
    ensures few { OnOk result (length search.new.known.entries ≤ most_entries search.old) }
    ensures tried { IfOk result (IsTriedTo (aimed aim.now) aim.now.plan.now.cost) }
{
    let net = aim.instance.net;
    if cost(net, &counts) >= aim.plan.cost || !are_within_limits(alloc, net, &counts)? {
        return Ok(Tried::Nothing);
    }
    match ask_within(aim, &mut search.test, counts)? {
        Ok(cheaper) => Ok(Tried::Cheaper(cheaper)),
        Err(Stop::Cut(line)) => {
            let full = search.known.entries.len() >= search.room;
            if full || has_cut(search.known.entries.items(), &line) {
                return Ok(Tried::Nothing);
            }
            search.known.push(alloc, aim.instance, line)?;
            Ok(Tried::More)
        }
        Err(Stop::Wide(_)) => Ok(Tried::Nothing),
    }
}

/// What came of a look at a box's program.
#[derive(Drop)]
enum Round {
    Found(Found),
    /// The box's best certificate, its rank, and whether a new cut was found.
    Open(Valued, u128, bool),
}

/// Solves a box's program once, and asks about the counts of its point if that is whole.
fn look_once(
    alloc: Global,
    aim: &Aim,
    search: &mut Search,
    boxed: &Boxed,
    best: Valued,
) -> Result<Round, NoMemory>
    requires aim { IsAim search.old.known.entries aim.now }
    requires search { IsSearch (aimed aim.now) search.old }
    requires room { most_entries search.old < 2 ^ 31 }
    requires valued { IsValued (aimed aim.now) aim.now.plan.now search.old.known.tested boxed.now best }
    requires below { best.value < aim.now.plan.now.cost }
    ensures search { OnOk result (IsSearch (aimed aim.now) search.new) }
    ensures learned { OnOk result (HasLearned search.old search.new) }
    ensures few { OnOk result (length search.new.known.entries ≤ most_entries search.old) }
    ensures round { IfOk result (IsRoundTo (aimed aim.now) aim.now.plan.now search.new.known.tested boxed.now) }
{
    let Some(solution) = search.known.solved(alloc, aim, boxed)? else {
        let rank = best.value.saturating_mul(1000);
        return Ok(Round::Open(best, rank, false));
    };
    let best = greater(aim, &search.known, boxed, best, &solution.cert)?;
    if best.value >= aim.plan.cost {
        return Ok(Round::Found(Found::Twig(Twig::Settled(Node::Closed(best.cert)))));
    }
    let Some(counts) = whole_counts(alloc, aim, boxed, &solution)? else {
        return Ok(Round::Open(best, solution.rank, false));
    };
    match try_whole(alloc, aim, search, counts)? {
        Tried::Cheaper(cheaper) => Ok(Round::Found(Found::Cheaper(cheaper))),
        Tried::More => Ok(Round::Open(best, solution.rank, true)),
        Tried::Nothing => Ok(Round::Open(best, solution.rank, false)),
    }
}

/// A box that stays open, with its best certificate and its rank.
fn open(search: &Search, boxed: Boxed, best: Valued, rank: u128) -> Found
    ensures { result ≡ Found.Twig (Twig.Open (record { boxed = boxed; best = best; rank = rank; seen = search.now.known.cuts_end })) }
{
    Found::Twig(Twig::Open(OpenBox {
        boxed,
        best,
        rank,
        seen: search.known.cuts_end,
    }))
}

/// What is found at a box with several choices of counts. Its program is solved again as long as whole points give new cuts.
fn look_open(
    alloc: Global,
    aim: &Aim,
    search: &mut Search,
    boxed: Boxed,
    best: Valued,
    depth: u32,
) -> Result<Found, NoMemory>
    requires aim { IsAim search.old.known.entries aim.now }
    requires search { IsSearch (aimed aim.now) search.old }
    requires room { most_entries search.old < 2 ^ 31 }
    requires search_box { IsSearchBox (aimed aim.now).links depth boxed }
    requires unfixed { IsFixedBox boxed → ⊥ }
    requires valued { IsValued (aimed aim.now) aim.now.plan.now search.old.known.tested boxed best }
    requires below { best.value < aim.now.plan.now.cost }
    requires unsettled { IsUnsettledIn (aimed aim.now) aim.now.plan.now search.old boxed }
    ensures search { OnOk result (IsSearch (aimed aim.now) search.new) }
    ensures learned { OnOk result (HasLearned search.old search.new) }
    ensures few { OnOk result (length search.new.known.entries ≤ most_entries search.old) }
    ensures found { IfOk result (IsFoundAt (aimed aim.now) aim.now.plan.now (handed_in search.old) search.new.known.tested depth boxed) }
{
    let mut best = best;
    let mut rank = 0;
    for _ in 0..MOST_FURTHER {
        match look_once(alloc, aim, search, &boxed, best)? {
            Round::Found(found) => return Ok(found),
            Round::Open(better, worth, again) => {
                best = better;
                rank = worth;
                if !again {
                    return Ok(open(search, boxed, best, rank));
                }
            }
        }
    }
    Ok(open(search, boxed, best, rank))
}

/// What is found at a box with several choices of counts. First lines are made for it, if the search makes lines and it isn't the box of
/// all counts.
fn look_divided(
    alloc: Global,
    aim: &Aim,
    search: &mut Search,
    boxed: Boxed,
    best: Valued,
    depth: u32,
) -> Result<Found, NoMemory>
    requires aim { IsAim search.old.known.entries aim.now }
    requires search { IsSearch (aimed aim.now) search.old }
    requires room { most_entries search.old < 2 ^ 31 }
    requires search_box { IsSearchBox (aimed aim.now).links depth boxed }
    requires unfixed { IsFixedBox boxed → ⊥ }
    requires valued { IsValued (aimed aim.now) aim.now.plan.now search.old.known.tested boxed best }
    requires below { best.value < aim.now.plan.now.cost }
    requires unsettled { IsUnsettledIn (aimed aim.now) aim.now.plan.now search.old boxed }
    ensures search { OnOk result (IsSearch (aimed aim.now) search.new) }
    ensures learned { OnOk result (HasLearned search.old search.new) }
    ensures few { OnOk result (length search.new.known.entries ≤ most_entries search.old) }
    ensures found { IfOk result (IsFoundAt (aimed aim.now) aim.now.plan.now (handed_in search.old) search.new.known.tested depth boxed) }
{
    if depth == 0 {
        return look_open(alloc, aim, search, boxed, best, depth);
    }
    make_box_lines(alloc, aim, search, &boxed)?;
    look_open(alloc, aim, search, boxed, best, depth)
}

/// What is found at a box: that it is empty, that one of its certificates closes it, that its single choice of counts carries the demands
/// or doesn't, or that it has to be split. The cuts and lines that are found are kept in the search.
///
/// It takes the time of a program's optimum over the kept cuts and lines, of lines made in rounds, and of the tests of counts. It fails
/// only where memory runs out.
pub fn look(
    alloc: Global,
    aim: &Aim,
    search: &mut Search,
    boxed: Boxed,
    inherited: &BoxCert,
    depth: u32,
) -> Result<Found, NoMemory>
    requires aim { IsAim search.old.known.entries aim.now }
    requires search { IsSearch (aimed aim.now) search.old }
    requires room { most_entries search.old + 1 < 2 ^ 31 }
    requires search_box { IsSearchBox (aimed aim.now).links depth boxed }
    requires low { depth ≤ 2 ^ 14 }
    ensures search { OnOk result (IsSearch (aimed aim.now) search.new) }
    ensures learned { OnOk result (HasLearned search.old search.new) }
    ensures few { OnOk result (length search.new.known.entries ≤ most_entries search.old + 1) }
    ensures unfixed { OnOk result ((IsFixedBox boxed → ⊥) → length search.new.known.entries ≤ most_entries search.old) }
    ensures found { IfOk result (IsFoundAt (aimed aim.now) aim.now.plan.now (handed_in search.old) search.new.known.tested depth boxed) }
{
    if let Some(cut) = search.known.emptied_by(aim, &boxed) {
        return Ok(Found::Twig(Twig::Settled(Node::Empty { cut })));
    }
    let best = greatest(alloc, aim, &search.known, &boxed, inherited)?;
    if best.value >= aim.plan.cost {
        return Ok(Found::Twig(Twig::Settled(Node::Closed(best.cert))));
    }
    match fixed_counts(alloc, boxed.items())? {
        Some(counts) => look_fixed(alloc, aim, search, best, &boxed, counts, depth),
        None => look_divided(alloc, aim, search, boxed, best, depth),
    }
}
