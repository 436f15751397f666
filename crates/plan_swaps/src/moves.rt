use net_core::{Counts, List, NoMemory};
use std::alloc::Global;
use trim_plan::{Place, Priced, module_count};

/// An exchange: one module to take off, and a cheaper one to put on.
#[derive(Clone, Copy)]
pub struct Move {
    pub off: Place,
    pub on: Place,
}

/// A module in use, and how many of the cheapest modules have been tried in its place.
#[derive(Clone, Copy)]
pub struct Trying {
    pub module: Priced,
    pub tried: usize,
}

/// The modules in use, the dearest first, with nothing tried in their places.
pub(crate) fn in_use(
    alloc: Global,
    dearest: &[Priced],
    counts: &Counts,
) -> Result<List<Trying>, NoMemory> {
    let mut all = List::new(alloc);
    for priced in dearest {
        if module_count(counts, priced.place) > 0 {
            all.push(Trying {
                module: *priced,
                tried: 0,
            })?;
        }
    }
    Ok(all)
}

/// The cheapest module that wasn't tried in the place of one in use, if it is cheaper than that one.
fn next_cheapest(dearest: &[Priced], trying: &Trying) -> Option<Priced> {
    if trying.tried >= dearest.len() {
        return None;
    }
    let on = dearest[dearest.len() - 1 - trying.tried];
    if on.cost < trying.module.cost {
        Some(on)
    } else {
        None
    }
}

/// What the next exchange of a module in use saves, in units of the network; 0 if there is none.
fn saving(dearest: &[Priced], trying: &Trying) -> u64 {
    match next_cheapest(dearest, trying) {
        Some(on) => trying.module.cost.saturating_sub(on.cost),
        None => 0,
    }
}

/// The index of the module in use whose next exchange saves most, the first of several.
fn most_saving(dearest: &[Priced], all: &[Trying]) -> usize {
    let mut best = 0;
    let mut most = 0;
    for i in 0..all.len() {
        let saved = saving(dearest, &all[i]);
        if saved > most {
            best = i;
            most = saved;
        }
    }
    best
}

/// The exchange that saves most of those that weren't tried; it counts as tried now.
pub(crate) fn next_move(dearest: &[Priced], all: &mut [Trying]) -> Option<Move> {
    let at = most_saving(dearest, all);
    if at >= all.len() {
        return None;
    }
    let on = next_cheapest(dearest, &all[at])?;
    all[at].tried = all[at].tried.saturating_add(1);
    Some(Move {
        off: all[at].module.place,
        on: on.place,
    })
}
