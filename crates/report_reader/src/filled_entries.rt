ghost use Rattle.std.specs.Prelude.{◌≡◌, map, slice_get, IfOk, OnOk};
ghost use Rattle.plan_report.specs.Terms.{line_lengths, line_state};
ghost use Rattle.report_reader.specs.ReadingReport.{filled};

use net_core::{Copied, CutLine, Entry, List, NoMemory, StateId};
use std::alloc::Global;

/// The cut of the pool that an entry names by its place; state 0 and no lengths where there is none.
fn pooled(alloc: Global, pool: &[CutLine], index: u32) -> Result<Entry, NoMemory>
    ensures { IfOk result (λ e. e ≡ Entry.Pooled index (record { 0 = line_state (slice_get pool.now index) }) (line_lengths (slice_get pool.now index))) }
{
    match pool.get(index as usize) {
        Some(line) => Ok(Entry::Pooled {
            index,
            state: line.state,
            lengths: line.lengths.copy()?,
        }),
        None => Ok(Entry::Pooled {
            index,
            state: StateId(0),
            lengths: List::new(alloc),
        }),
    }
}

/// Gives an entry the cut that it names.
fn fill_entry(alloc: Global, pool: &[CutLine], entry: &mut Entry) -> Result<(), NoMemory>
    ensures { OnOk result (entry.new ≡ filled pool.now entry.old) }
{
    if let Entry::Pooled { index, .. } = entry {
        *entry = pooled(alloc, pool, *index)?;
    }
    Ok(())
}

/// Gives each entry the cut that it names.
fn fill_each(alloc: Global, pool: &[CutLine], entries: &mut [Entry]) -> Result<(), NoMemory>
    ensures { OnOk result (entries.new ≡ map (filled pool.now) entries.old) }
{
    for k in 0..entries.len() {
        fill_entry(alloc, pool, &mut entries[k])?;
    }
    Ok(())
}

/// The entries with the cuts that they name. What of them names none stays where it is.
pub(crate) fn fill(
    alloc: Global,
    pool: &[CutLine],
    mut entries: List<Entry>,
) -> Result<List<Entry>, NoMemory>
    ensures { IfOk result (λ l. l ≡ map (filled pool.now) entries) }
{
    fill_each(alloc, pool, entries.items_mut())?;
    Ok(entries)
}
