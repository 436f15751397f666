ghost use Rattle.std.specs.Prelude.{◌≡◌, ◌++◌, OnOk, take};
ghost use Rattle.plan_rounds.specs.inner.Turns.{AddsFirst};

use crate::candidates::Candidates;
use net_core::{List, NoMemory};
use std::alloc::Global;
use std::mem;

/// Adds the first items of a list, `most` of them at most, to the end of another.
fn add_items<T: Drop>(items: List<T>, most: usize, into: &mut List<T>) -> Result<(), NoMemory>
    ensures { OnOk result (into.new ≡ into.old ++ take most items) }
{
    let mut first = items.into_vec();
    first.truncate(most);
    for item in first {
        into.push(item)?;
    }
    Ok(())
}

/// Adds the first cuts that were found, as many as there is room for, to the end of the list, with their spots.
pub fn add_first(
    found: Candidates,
    room: usize,
    candidates: &mut Candidates,
) -> Result<(), NoMemory>
    ensures { OnOk result (AddsFirst room found candidates.old candidates.new) }
{
    let Candidates { lines, spots } = found;
    add_items(lines, room, &mut candidates.lines)?;
    add_items(spots, room, &mut candidates.spots)
}

/// Shortens the list to its first `count` cuts and their spots.
pub fn take_back(alloc: Global, count: usize, candidates: &mut Candidates) -> Result<(), NoMemory>
    ensures lines { OnOk result (candidates.new.lines ≡ take count candidates.old.lines) }
    ensures spots { OnOk result (candidates.new.spots ≡ take count candidates.old.spots) }
{
    let mut all = Candidates {
        lines: List::new(alloc),
        spots: List::new(alloc),
    };
    mem::swap(candidates, &mut all);
    add_first(all, count, candidates)
}
