ghost use Rattle.std.specs.Prelude.{◌≡◌, ◌≤◌, All, IfErr, IfOk, length};
ghost use Rattle.plan_terms.specs.Terms.{case_of};
ghost use Rattle.plan_checker.specs.Terms.{HoldsNone, StopsBy, Tells};
ghost use Rattle.net_core.specs.Limits.{most_entries};
ghost use Rattle.report_checker.{specs.Journals.{HoldsEntryDiffers, HoldsNotesDiffer}, specs.inner.Walks.{HasPassed, HasSmallNeed}};

use crate::walk::{Walk, walk_from};
use net_core::{Entry, Instance, Notes};
use plan_checker::{Finding, Stop, Test};

/// Whether the notes are the network's.
pub fn check_notes(own: Notes, printed: Notes) -> Test
    ensures { Tells (HoldsNotesDiffer own printed) result }
{
    if printed != own {
        return Err(Stop::Found(Finding::NotesDiffer));
    }
    Ok(())
}

/// A walk past these entries, each of which is the one that is expected there, or the first that isn't. It takes memory for the
/// walk's demands, and for each edit time in their number.
pub fn check_entries(instance: &Instance, entries: &[Entry]) -> Result<Walk, Stop>
    requires needs { All HasSmallNeed entries.now }
    requires few { length entries.now ≤ most_entries }
    ensures none { IfOk result (λ _. HoldsNone (HoldsEntryDiffers (case_of instance.now) entries.now)) }
    ensures passed { IfOk result (HasPassed (case_of instance.now) entries.now) }
    ensures found { IfErr result (StopsBy (HoldsEntryDiffers (case_of instance.now) entries.now)) }
{
    let mut walk = walk_from(instance)?;
    for k in 0..entries.len() {
        if !walk.pass(&entries[k])? {
            return Err(Stop::Found(Finding::EntryDiffers(k as u64 + 1)));
        }
    }
    Ok(walk)
}
