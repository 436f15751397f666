ghost use Rattle.std.specs.Prelude.{◌≡◌, ◌≤◌, IfOk, IfSome, OnOk, length};
ghost use Rattle.plan_terms.specs.Terms.{case_of, IsSurvivable};
ghost use Rattle.plan_rounds.specs.Terms.{SeesMore, IsPoolOf, IsWorkedAlone};
ghost use Rattle.net_core.specs.Limits.{most_cuts};
ghost use Rattle.planner.{specs.inner.Candidates.HaveBounds, specs.inner.Finishing.{AreAfterRounds, AreMultipliersOf, AreWorkedOut, IsChosenAfter, IsShareFor}};

use crate::bound::better_bound;
use crate::choose_counts::choose_counts;
use crate::own_bound::CertifiedBound;
use crate::ranges::are_short_cuts;
use net_core::{CutLine, Instance, List, NoMemory, discard};
use plan_rounds::{Worked, work_rounds};
use separator::Separate;
use share_covers::Chosen;
use std::alloc::Global;

/// The counts that are chosen when the rounds are done.
fn counts_after(alloc: Global, instance: &Instance, worked: Worked) -> Result<Chosen, NoMemory>
    requires survivable { IsSurvivable (case_of instance.now) }
    requires best { ∥ IfSome worked.best (IsShareFor (case_of instance.now) worked.quality) ∥₁ }
    ensures { IfOk result (IsChosenAfter (case_of instance.now) worked.best worked.quality) }
{
    let Worked {
        lines,
        spots,
        best,
        quality,
    } = worked;
    discard(lines);
    discard(spots);
    let chosen = choose_counts(alloc, instance, &best, quality);
    discard(best);
    chosen
}

/// The counts that are chosen when the rounds are done, and the bound that the rounds' cuts give.
fn counts_and_bound(
    alloc: Global,
    instance: &Instance,
    worked: Worked,
) -> Result<(Chosen, CertifiedBound), NoMemory>
    requires survivable { IsSurvivable (case_of instance.now) }
    requires cuts { HaveBounds instance.now.net.now.links worked }
    requires best { ∥ IfSome worked.best (AreMultipliersOf worked) ∥₁ }
    requires share { ∥ IfSome worked.best (IsShareFor (case_of instance.now) worked.quality) ∥₁ }
    ensures { IfOk result (λ both. AreAfterRounds (case_of instance.now) worked both.0 both.1) }
{
    are_short_cuts(worked.lines.items());
    match better_bound(alloc, instance.net, &worked) {
        Ok(bound) => match counts_after(alloc, instance, worked) {
            Ok(chosen) => Ok((chosen, bound)),
            Err(no_memory) => {
                discard(bound);
                Err(no_memory)
            }
        },
        Err(no_memory) => {
            discard(worked);
            Err(no_memory)
        }
    }
}

/// Works on a pool's cuts in rounds. Gives the counts that are chosen after them, and the bound of all their cuts.
pub fn work_out<S: Separate>(
    alloc: Global,
    instance: &Instance,
    pool: List<CutLine>,
    separator: &mut S,
) -> Result<(Chosen, CertifiedBound), NoMemory>
    requires network { instance.now.net.now ≡ (S.frame separator.old).network }
    requires states { instance.now.states.now ≡ (S.frame separator.old).states }
    requires survivable { IsSurvivable (case_of instance.now) }
    requires few { length pool ≤ most_cuts }
    requires pool { ∥ IsPoolOf (case_of instance.now) (S.seen_of separator.old).history pool ∥₁ }
    ensures frame { S.frame separator.new ≡ S.frame separator.old }
    ensures more { SeesMore (S.seen_of separator.old) (S.seen_of separator.new) }
    ensures worked { IfOk result (λ both. ∥ AreWorkedOut (case_of instance.now) (S.seen_of separator.new).history pool both.0 both.1 ∥₁) }
    ensures alone { OnOk result (IsWorkedAlone (case_of instance.now) (S.seen_of separator.old) (S.seen_of separator.new)) }
{
    let worked = work_rounds(alloc, instance, pool, separator)?;
    counts_and_bound(alloc, instance, worked)
}
