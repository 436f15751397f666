ghost use Rattle.std.specs.Prelude.{◌≤◌, IfOk, IfSome};
ghost use Rattle.plan_terms.specs.Terms.{case_of, AreCounts, AreWithinLimits, IsSurvivable};
ghost use Rattle.trim_plan.specs.Terms.{IsTestOf};
ghost use Rattle.plan_swaps.specs.inner.Searching.{AreAskedCounts, AreCarryingCounts};

use crate::kept::{Kept, keep_cheaper};
use crate::moves::{Move, Trying, in_use, next_move};
use crate::raised_counts::one_more;
use crate::search::{Search, refuses};
use crate::spared_modules::spare_others;
use net_core::{Copied, Counts, Instance, NoMemory};
use std::alloc::Global;
use trim_plan::{Place, Priced, module_count, one_less};

/// The budget of a search: an ask of the test takes ten of it, and a look at the known cuts one.
const MOST_ASKS: u64 = 200_000;

/// What came of trying other counts.
#[derive(Drop)]
pub enum Trial {
    /// They carry the demands and cost less, and are kept now.
    Kept,
    /// A cut that wasn't known before says that they don't carry the demands.
    Refused,
    /// They cost as much or more, or it isn't known whether they carry the demands.
    Dear,
}

/// Keeps counts if they carry the demands and cost less.
fn keep_counts(
    instance: &Instance,
    search: &mut Search,
    kept: &mut Kept,
    counts: &Counts,
) -> Result<Trial, NoMemory>
    requires survivable { IsSurvivable (case_of instance.now) }
    requires asked { AreAskedCounts (case_of instance.now) search.old counts.now }
    requires kept { AreCarryingCounts (case_of instance.now) kept.old }
    ensures sound { IsTestOf (case_of instance.now) search.new.test }
    ensures kept { AreCarryingCounts (case_of instance.now) kept.new }
    ensures cheaper { kept.new.cost ≤ kept.old.cost }
{
    let met = search.refusals.len();
    if keep_cheaper(instance, search, kept, counts)? {
        Ok(Trial::Kept)
    } else if search.refusals.len() > met {
        Ok(Trial::Refused)
    } else {
        Ok(Trial::Dear)
    }
}

/// Takes off all modules that no known cut keeps, except those at one place, and keeps the rest if they carry the demands and cost less.
fn keep_spared(
    instance: &Instance,
    search: &mut Search,
    dearest: &[Priced],
    kept: &mut Kept,
    counts: &Counts,
    but: Option<Place>,
) -> Result<Trial, NoMemory>
    requires survivable { IsSurvivable (case_of instance.now) }
    requires asked { AreAskedCounts (case_of instance.now) search.old counts.now }
    requires kept { AreCarryingCounts (case_of instance.now) kept.old }
    ensures sound { IsTestOf (case_of instance.now) search.new.test }
    ensures kept { AreCarryingCounts (case_of instance.now) kept.new }
    ensures cheaper { kept.new.cost ≤ kept.old.cost }
{
    let mut fewer = counts.copy()?;
    spare_others(instance, search, dearest, but, &mut fewer)?;
    keep_counts(instance, search, kept, &fewer)
}

/// Takes off what can be spared of the modules, the dearest first, except those at one place, and keeps the rest if that costs less. It
/// tries again as long as new cuts refuse. Tells whether something was kept.
fn keep_lesser(
    instance: &Instance,
    search: &mut Search,
    dearest: &[Priced],
    kept: &mut Kept,
    counts: &Counts,
    but: Option<Place>,
) -> Result<bool, NoMemory>
    requires survivable { IsSurvivable (case_of instance.now) }
    requires asked { AreAskedCounts (case_of instance.now) search.old counts.now }
    requires kept { AreCarryingCounts (case_of instance.now) kept.old }
    ensures sound { IsTestOf (case_of instance.now) search.new.test }
    ensures kept { AreCarryingCounts (case_of instance.now) kept.new }
    ensures cheaper { kept.new.cost ≤ kept.old.cost }
{
    for _ in 0..search.asks {
        match keep_spared(instance, search, dearest, kept, counts, but)? {
            Trial::Kept => return Ok(true),
            Trial::Dear => return Ok(false),
            Trial::Refused => {
                if search.asks == 0 {
                    return Ok(false);
                }
            }
        }
    }
    Ok(false)
}

/// The counts with one module taken off and another put on; `None` if there is none to take off, or the counts aren't within the limits.
fn moved(
    alloc: Global,
    instance: &Instance,
    counts: &Counts,
    what: Move,
) -> Result<Option<Counts>, NoMemory>
    requires shape { AreCounts instance.now.net.now.links counts.now }
    ensures { IfOk result (λ o. IfSome o (λ made. AreCounts instance.now.net.now.links made × AreWithinLimits instance.now.net.now.links made)) }
{
    if module_count(counts, what.off) == 0 {
        return Ok(None);
    }
    let lower = one_less(counts, what.off)?;
    one_more(alloc, instance.net, &lower, what.on)
}

/// Keeps counts if they carry the demands and cost less; else measures the kept ones again. Tells whether they were kept.
fn keep_or_measure(
    instance: &Instance,
    search: &mut Search,
    kept: &mut Kept,
    counts: &Counts,
) -> Result<bool, NoMemory>
    requires survivable { IsSurvivable (case_of instance.now) }
    requires asked { AreAskedCounts (case_of instance.now) search.old counts.now }
    requires kept { AreCarryingCounts (case_of instance.now) kept.old }
    ensures sound { IsTestOf (case_of instance.now) search.new.test }
    ensures kept { AreCarryingCounts (case_of instance.now) kept.new }
    ensures cheaper { kept.new.cost ≤ kept.old.cost }
{
    if keep_cheaper(instance, search, kept, counts)? {
        return Ok(true);
    }
    search
        .refusals
        .measure(instance.net.links().items(), &kept.counts);
    Ok(false)
}

/// Tries an exchange of the kept counts, which are measured, and keeps the new ones if they carry the demands. Tells whether they were
/// kept.
fn try_move(
    alloc: Global,
    instance: &Instance,
    search: &mut Search,
    kept: &mut Kept,
    what: Move,
) -> Result<bool, NoMemory>
    requires survivable { IsSurvivable (case_of instance.now) }
    requires sound { IsTestOf (case_of instance.now) search.old.test }
    requires kept { AreCarryingCounts (case_of instance.now) kept.old }
    ensures sound { IsTestOf (case_of instance.now) search.new.test }
    ensures kept { AreCarryingCounts (case_of instance.now) kept.new }
    ensures cheaper { kept.new.cost ≤ kept.old.cost }
{
    let links = instance.net.links().items();
    if refuses(
        &search.refusals,
        &mut search.asks,
        links,
        what.off,
        Some(what.on),
    ) {
        return Ok(false);
    }
    match moved(alloc, instance, &kept.counts, what)? {
        Some(counts) => keep_or_measure(instance, search, kept, &counts),
        None => Ok(false),
    }
}

/// Exchanges one of the modules in use for a cheaper one, trying the exchange that saves most first. Tells whether one was kept.
fn try_moves(
    alloc: Global,
    instance: &Instance,
    search: &mut Search,
    dearest: &[Priced],
    kept: &mut Kept,
    all: &mut [Trying],
) -> Result<bool, NoMemory>
    requires survivable { IsSurvivable (case_of instance.now) }
    requires sound { IsTestOf (case_of instance.now) search.old.test }
    requires kept { AreCarryingCounts (case_of instance.now) kept.old }
    ensures sound { IsTestOf (case_of instance.now) search.new.test }
    ensures kept { AreCarryingCounts (case_of instance.now) kept.new }
    ensures cheaper { kept.new.cost ≤ kept.old.cost }
{
    for _ in 0..search.asks {
        let Some(what) = next_move(dearest, all) else {
            return Ok(false);
        };
        if search.asks == 0 {
            return Ok(false);
        }
        if try_move(alloc, instance, search, kept, what)? {
            return Ok(true);
        }
    }
    Ok(false)
}

/// Exchanges one module for a cheaper one, trying the exchange that saves most first. Tells whether one was kept.
fn exchange(
    alloc: Global,
    instance: &Instance,
    search: &mut Search,
    dearest: &[Priced],
    kept: &mut Kept,
) -> Result<bool, NoMemory>
    requires survivable { IsSurvivable (case_of instance.now) }
    requires sound { IsTestOf (case_of instance.now) search.old.test }
    requires kept { AreCarryingCounts (case_of instance.now) kept.old }
    ensures sound { IsTestOf (case_of instance.now) search.new.test }
    ensures kept { AreCarryingCounts (case_of instance.now) kept.new }
    ensures cheaper { kept.new.cost ≤ kept.old.cost }
{
    let mut all = in_use(alloc, dearest, &kept.counts)?;
    search
        .refusals
        .measure(instance.net.links().items(), &kept.counts);
    try_moves(alloc, instance, search, dearest, kept, all.items_mut())
}

/// Puts one module on, takes off what can be spared of the others, and keeps that if it costs less. Tells whether it was kept.
fn try_more(
    alloc: Global,
    instance: &Instance,
    search: &mut Search,
    dearest: &[Priced],
    kept: &mut Kept,
    place: Place,
) -> Result<bool, NoMemory>
    requires survivable { IsSurvivable (case_of instance.now) }
    requires sound { IsTestOf (case_of instance.now) search.old.test }
    requires kept { AreCarryingCounts (case_of instance.now) kept.old }
    ensures sound { IsTestOf (case_of instance.now) search.new.test }
    ensures kept { AreCarryingCounts (case_of instance.now) kept.new }
    ensures cheaper { kept.new.cost ≤ kept.old.cost }
{
    match one_more(alloc, instance.net, &kept.counts, place)? {
        Some(counts) => keep_lesser(instance, search, dearest, kept, &counts, Some(place)),
        None => Ok(false),
    }
}

/// Puts one module on for others that it lets be spared, the first that helps. Tells whether one was kept.
fn put_on(
    alloc: Global,
    instance: &Instance,
    search: &mut Search,
    dearest: &[Priced],
    kept: &mut Kept,
) -> Result<bool, NoMemory>
    requires survivable { IsSurvivable (case_of instance.now) }
    requires sound { IsTestOf (case_of instance.now) search.old.test }
    requires kept { AreCarryingCounts (case_of instance.now) kept.old }
    ensures sound { IsTestOf (case_of instance.now) search.new.test }
    ensures kept { AreCarryingCounts (case_of instance.now) kept.new }
    ensures cheaper { kept.new.cost ≤ kept.old.cost }
{
    for priced in dearest {
        if search.asks == 0 {
            return Ok(false);
        }
        if try_more(alloc, instance, search, dearest, kept, priced.place)? {
            return Ok(true);
        }
    }
    Ok(false)
}

/// Exchanges one module for a cheaper one, or else puts one on for others. Tells whether something was kept.
fn improve(
    alloc: Global,
    instance: &Instance,
    search: &mut Search,
    dearest: &[Priced],
    kept: &mut Kept,
) -> Result<bool, NoMemory>
    requires survivable { IsSurvivable (case_of instance.now) }
    requires sound { IsTestOf (case_of instance.now) search.old.test }
    requires kept { AreCarryingCounts (case_of instance.now) kept.old }
    ensures sound { IsTestOf (case_of instance.now) search.new.test }
    ensures kept { AreCarryingCounts (case_of instance.now) kept.new }
    ensures cheaper { kept.new.cost ≤ kept.old.cost }
{
    if exchange(alloc, instance, search, dearest, kept)? {
        return Ok(true);
    }
    put_on(alloc, instance, search, dearest, kept)
}

/// Takes off what can be spared of the kept counts. Tells whether something was.
fn spare(
    instance: &Instance,
    search: &mut Search,
    dearest: &[Priced],
    kept: &mut Kept,
) -> Result<bool, NoMemory>
    requires survivable { IsSurvivable (case_of instance.now) }
    requires sound { IsTestOf (case_of instance.now) search.old.test }
    requires kept { AreCarryingCounts (case_of instance.now) kept.old }
    ensures sound { IsTestOf (case_of instance.now) search.new.test }
    ensures kept { AreCarryingCounts (case_of instance.now) kept.new }
    ensures cheaper { kept.new.cost ≤ kept.old.cost }
{
    let counts = kept.counts.copy()?;
    keep_lesser(instance, search, dearest, kept, &counts, None)
}

/// Makes the kept counts cheaper, until nothing helps or the budget is spent.
pub(crate) fn make_cheaper(
    alloc: Global,
    instance: &Instance,
    search: &mut Search,
    dearest: &[Priced],
    kept: &mut Kept,
) -> Result<(), NoMemory>
    requires survivable { IsSurvivable (case_of instance.now) }
    requires sound { IsTestOf (case_of instance.now) search.old.test }
    requires kept { AreCarryingCounts (case_of instance.now) kept.old }
    ensures sound { IsTestOf (case_of instance.now) search.new.test }
    ensures kept { AreCarryingCounts (case_of instance.now) kept.new }
    ensures cheaper { kept.new.cost ≤ kept.old.cost }
{
    search.asks = MOST_ASKS;
    for _ in 0..MOST_ASKS {
        spare(instance, search, dearest, kept)?;
        if !improve(alloc, instance, search, dearest, kept)? {
            return Ok(());
        }
    }
    Ok(())
}
