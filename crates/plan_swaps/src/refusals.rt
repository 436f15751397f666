use net_core::{Counts, CutLine, Link, List, NoMemory};
use std::alloc::Global;
use trim_plan::Place;

/// The cuts that the search knows, and by how much the measured counts exceed what each asks for. They show cheaply which modules a cut
/// keeps. They only guide the search; whether counts carry the demands is asked of the test.
#[derive(Drop)]
pub struct Refusals {
    cuts: List<CutLine>,
    /// One number for each cut: what the counts give along its lengths less its right side; 0 where they give too little.
    rests: List<u128>,
}

/// The capacity of a link with these counts and what is pre-installed, in units of the network.
fn capacity(link: &Link, counts: &[u64]) -> u128 {
    let mut sum = link.fixed as u128;
    let modules = link.modules.items();
    for m in 0..modules.len() {
        if m < counts.len() {
            sum = sum.saturating_add(
                (modules[m].capacity as u128).saturating_mul(counts[m] as u128),
            );
        }
    }
    sum
}

/// What counts give along lengths: the sum of capacity times length over the links.
fn given(links: &[Link], counts: &[List<u64>], lengths: &[u32]) -> u128 {
    let mut sum = 0u128;
    for e in 0..links.len() {
        if e < counts.len() && e < lengths.len() && lengths[e] > 0 {
            let along = capacity(&links[e], counts[e].items()).saturating_mul(lengths[e] as u128);
            sum = sum.saturating_add(along);
        }
    }
    sum
}

/// What one module gives along lengths: its capacity times the length of its link.
fn given_by(links: &[Link], lengths: &[u32], place: Place) -> u128 {
    if place.link >= links.len() || place.link >= lengths.len() {
        return 0;
    }
    match links[place.link].modules.items().get(place.module) {
        Some(module) => (module.capacity as u128).saturating_mul(lengths[place.link] as u128),
        None => 0,
    }
}

impl Refusals {
    /// Refusals that know no cut.
    pub(crate) fn new(alloc: Global) -> Refusals {
        Refusals {
            cuts: List::new(alloc),
            rests: List::new(alloc),
        }
    }

    /// How many cuts are known.
    pub(crate) fn len(&self) -> usize {
        self.cuts.len()
    }

    /// Adds a cut. Until the next `measure` its rest is 0, so that it refuses to have any module of positive length taken off.
    pub(crate) fn meet(&mut self, cut: CutLine) -> Result<(), NoMemory> {
        self.rests.push(0)?;
        self.cuts.push(cut)?;
        Ok(())
    }

    /// Sets the rest of each cut to that of these counts.
    pub(crate) fn measure(&mut self, links: &[Link], counts: &Counts) {
        let cuts = self.cuts.items();
        let rests = self.rests.items_mut();
        for k in 0..cuts.len() {
            if k < rests.len() {
                let all = given(links, counts.items(), cuts[k].lengths.items());
                rests[k] = all.saturating_sub(cuts[k].right);
            }
        }
    }

    /// Whether some cut refuses the measured counts with one module less, and perhaps another one more.
    pub(crate) fn keeps(&self, links: &[Link], off: Place, on: Option<Place>) -> bool {
        let cuts = self.cuts.items();
        let rests = self.rests.items();
        for k in 0..cuts.len() {
            let lengths = cuts[k].lengths.items();
            let more = match on {
                Some(on) => given_by(links, lengths, on),
                None => 0,
            };
            if k < rests.len() && rests[k].saturating_add(more) < given_by(links, lengths, off) {
                return true;
            }
        }
        false
    }

    /// Updates the rests for one module less.
    pub(crate) fn lower(&mut self, links: &[Link], off: Place) {
        let cuts = self.cuts.items();
        let rests = self.rests.items_mut();
        for k in 0..cuts.len() {
            if k < rests.len() {
                let less = given_by(links, cuts[k].lengths.items(), off);
                rests[k] = rests[k].saturating_sub(less);
            }
        }
    }
}
