ghost use Rattle.std.specs.Prelude.{◌≡◌, ◌+◌, ◌≤◌, ◌<◌, ◌^◌, [], ◌∷◌, ℕ, IfOk, if◌then◌else◌, length, slice_index_or};
ghost use Rattle.line_maker.specs.Orders.{cuts_among, is_cut_entry, lines_among, place_of};

use crate::entry::Entry;
use net_core::{List, NoMemory};
use std::alloc::Global;

/// How many cuts an entry is.
fn cut_count(entry: &Entry) -> usize
    ensures count { result ≡ length (cuts_among (entry.now ∷ [])) }
    ensures few { result ≤ 1 }
{
    match entry {
        Entry::Cut(_) => 1,
        Entry::Line(_) => 0,
    }
}

/// How many entries are cuts.
fn cut_number(entries: &[Entry]) -> usize
    requires few { length entries.now < 2 ^ 31 }
    ensures { result ≡ length (cuts_among entries.now) }
{
    let mut count = 0;
    for entry in entries {
        count += cut_count(entry);
    }
    count
}

/// The places of the next cut and the next line.
#[derive(Clone, Copy)]
struct Next {
    cut: usize,
    line: usize,
}

/// The place of an entry: among the cuts for a cut, among the lines for a line.
fn entry_place(entry: &Entry, next: Next) -> u32
    requires cut { next.cut < 2 ^ 32 }
    requires line { next.line < 2 ^ 32 }
    ensures { result ≡ (if is_cut_entry entry.now then next.cut else next.line) }
{
    match entry {
        Entry::Cut(_) => next.cut as u32,
        Entry::Line(_) => next.line as u32,
    }
}

/// The places of the next cut and the next line after an entry.
fn next_after(entry: &Entry, next: Next) -> Next
    requires cut { next.cut < 2 ^ 32 }
    requires line { next.line < 2 ^ 32 }
    ensures cut { result.cut ≡ next.cut + length (cuts_among (entry.now ∷ [])) }
    ensures line { result.line ≡ next.line + length (lines_among (entry.now ∷ [])) }
{
    match entry {
        Entry::Cut(_) => Next {
            cut: next.cut + 1,
            line: next.line,
        },
        Entry::Line(_) => Next {
            cut: next.cut,
            line: next.line + 1,
        },
    }
}

/// The place of each entry: among the cuts, or after all of them among the lines.
pub(crate) fn places_of(alloc: Global, entries: &[Entry]) -> Result<List<u32>, NoMemory>
    requires few { length entries.now < 2 ^ 31 }
    ensures { IfOk result (λ places. (i : ℕ) → slice_index_or places i i ≡ place_of entries.now i) }
{
    let mut places = List::new(alloc);
    let mut next = Next {
        cut: 0,
        line: cut_number(entries),
    };
    for entry in entries {
        places.push(entry_place(entry, next))?;
        let after = next_after(entry, next);
        next = after;
    }
    Ok(places)
}

/// The place of an index; past the end it stays.
pub(crate) fn place_at(places: &[u32], i: u32) -> u32
    ensures { result ≡ slice_index_or places.now i i }
{
    if (i as usize) < places.len() {
        places[i as usize]
    } else {
        i
    }
}
