ghost use Rattle.std.{specs.Prelude.{◌-◌, ◌≤◌, IfOk, IfSome, OnOk, length}, specs.Option.is_some};
ghost use Rattle.plan_terms.specs.Terms.{case_of};
ghost use Rattle.length_master.specs.WideShares.{AreLeastCaps};
ghost use Rattle.master_bound.specs.Answers.{IsBestOf};
ghost use Rattle.master_law.specs.Terms.{AreUnitPairs};
ghost use Rattle.plan_rounds.{specs.inner.Alone.PoolsAsFar, specs.inner.Listing.{AreListed, GoesOn, IsPlanning}, specs.inner.Turns.{AddsFound, AddsRound, IsPast}};

use crate::candidates::Candidates;
use crate::certificates::best_so_far;
use crate::cut_items::add_first;
use crate::rounds::{Progress, Rounds};
use crate::shares::divided_caps;
use crate::sorted_answers::{Answered, sorted};
use master_bound::{Best, MasterFault};
use net_core::{Caps, NoMemory, discard};
use separator::Separate;

/// Adds the cuts that were found, as many as there is room for, if no state is too wide. Tells whether any were added.
fn add_found(answered: Answered, room: usize, candidates: &mut Candidates) -> Result<bool, NoMemory>
    ensures { IfOk result (λ added. AddsFound room answered candidates.old candidates.new added) }
{
    if room == 0 || answered.found.lines.len() == 0 || answered.wide.is_some() {
        discard(answered);
        return Ok(false);
    }
    discard(answered.routings);
    discard(answered.wide);
    add_first(answered.found, room, candidates)?;
    Ok(true)
}

impl Rounds<'_> {
    /// Asks states about the capacities of a least share that is too wide, and adds the cuts that are found. Tells whether any were added.
    fn add_round<S: Separate>(
        &self,
        caps: Caps,
        candidates: &mut Candidates,
        separator: &mut S,
    ) -> Result<bool, NoMemory>
        requires planning { IsPlanning self.now.instance.now (S.frame separator.old) (S.seen_of separator.old) candidates.old }
        requires pairs { AreUnitPairs self.now.instance.now.net.now.links self.now.pairs.now }
        requires fits { length candidates.old.lines ≤ self.now.most }
        requires caps { AreLeastCaps self.now.instance.now.net.now.links candidates.old.lines caps }
        ensures on { GoesOn (S.frame separator.old) (S.frame separator.new) (S.seen_of separator.old) (S.seen_of separator.new) }
        ensures listed { OnOk result ∥ AreListed (case_of self.now.instance.now) (S.seen_of separator.new).history candidates.new ∥₁ }
        ensures adds { IfOk result (λ added. ∥ AddsRound (case_of self.now.instance.now) self.now.pairs.now
            (self.now.most - length candidates.old.lines) candidates.old candidates.new added ∥₁) }
        ensures alone { IfOk result (PoolsAsFar (case_of self.now.instance.now) self.now.pairs.now self.now.most (S.seen_of separator.old)
            (S.seen_of separator.new) candidates.old.lines candidates.new.lines) }
    {
        let caps = divided_caps(self.alloc, caps)?;
        let answers = self.answers(&caps.divided, false, separator)?;
        discard(caps);
        let answered = sorted(self.alloc, answers)?;
        add_found(answered, self.most - candidates.lines.len(), candidates)
    }

    /// Rounds of cuts at the capacities of least shares whose units are too wide, until a certificate isn't too wide, and that certificate.
    /// `None` if no further cut is found, capacities are too wide as well, or there is no room.
    pub(crate) fn pass_wide<S: Separate>(
        &self,
        progress: &mut Progress,
        separator: &mut S,
    ) -> Result<Option<Best>, NoMemory>
        requires planning { IsPlanning self.now.instance.now (S.frame separator.old) (S.seen_of separator.old) progress.old.candidates }
        requires pairs { AreUnitPairs self.now.instance.now.net.now.links self.now.pairs.now }
        requires fits { length progress.old.candidates.lines ≤ self.now.most }
        ensures on { GoesOn (S.frame separator.old) (S.frame separator.new) (S.seen_of separator.old) (S.seen_of separator.new) }
        ensures listed { OnOk result ∥ AreListed (case_of self.now.instance.now) (S.seen_of separator.new).history progress.new.candidates ∥₁ }
        ensures past { OnOk result ∥ IsPast (case_of self.now.instance.now) self.now.pairs.now self.now.most progress.old.candidates
            progress.new.candidates ∥₁ }
        ensures best { IfOk result (λ found. IfSome found (IsBestOf self.now.instance.now.net.now.links progress.new.candidates.lines)) }
        ensures alone { IfOk result (λ found. PoolsAsFar (case_of self.now.instance.now) self.now.pairs.now self.now.most (S.seen_of separator.old)
            (S.seen_of separator.new) progress.old.candidates.lines progress.new.candidates.lines (is_some found)) }
    {
        let net = self.instance.net;
        loop {
            let cuts = &progress.candidates.lines;
            let Some(caps) = progress.kept.least_capacities(self.alloc, net, cuts)? else {
                return Ok(None);
            };
            if !self.add_round(caps, &mut progress.candidates, separator)? {
                return Ok(None);
            }
            let cuts = &progress.candidates.lines;
            match best_so_far(self.alloc, net, cuts, &mut progress.kept) {
                Ok(best) => return Ok(Some(best)),
                Err(MasterFault::Wide(evidence)) => discard(evidence),
                Err(MasterFault::NoMemory) => return Err(NoMemory),
            }
        }
    }
}
