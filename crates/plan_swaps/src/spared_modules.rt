ghost use Rattle.plan_terms.specs.Terms.{case_of};
ghost use Rattle.plan_swaps.specs.inner.Searching.{AreAskedCounts};

use crate::search::{Search, refuses};
use net_core::{Counts, Instance, NoMemory};
use trim_plan::{Place, Priced, module_count, one_less};

/// Takes one module off the measured counts, unless a known cut says that the others don't carry the demands. Tells whether it did.
fn take_off(
    instance: &Instance,
    search: &mut Search,
    counts: &mut Counts,
    place: Place,
) -> Result<bool, NoMemory>
    requires asked { AreAskedCounts (case_of instance.now) search.old counts.old }
    ensures asked { AreAskedCounts (case_of instance.now) search.new counts.new }
{
    let links = instance.net.links().items();
    if search.asks == 0 || module_count(counts, place) == 0 {
        return Ok(false);
    }
    if refuses(&search.refusals, &mut search.asks, links, place, None) {
        return Ok(false);
    }
    search.refusals.lower(links, place);
    *counts = one_less(counts, place)?;
    Ok(true)
}

/// Takes modules of one kind off a link, one by one, until a known cut refuses it.
fn take_all_off(
    instance: &Instance,
    search: &mut Search,
    counts: &mut Counts,
    place: Place,
) -> Result<(), NoMemory>
    requires asked { AreAskedCounts (case_of instance.now) search.old counts.old }
    ensures asked { AreAskedCounts (case_of instance.now) search.new counts.new }
{
    for _ in 0..module_count(counts, place) {
        if !take_off(instance, search, counts, place)? {
            return Ok(());
        }
    }
    Ok(())
}

/// Whether the two are the same place.
fn is_at(place: Place, other: Option<Place>) -> bool {
    match other {
        Some(other) => place.link == other.link && place.module == other.module,
        None => false,
    }
}

/// Takes off the modules that no known cut keeps, the dearest first, except those at one place.
pub(crate) fn spare_others(
    instance: &Instance,
    search: &mut Search,
    dearest: &[Priced],
    but: Option<Place>,
    counts: &mut Counts,
) -> Result<(), NoMemory>
    requires asked { AreAskedCounts (case_of instance.now) search.old counts.old }
    ensures asked { AreAskedCounts (case_of instance.now) search.new counts.new }
{
    search
        .refusals
        .measure(instance.net.links().items(), counts);
    for priced in dearest {
        if !is_at(priced.place, but) {
            take_all_off(instance, search, counts, priced.place)?;
        }
    }
    Ok(())
}
