ghost use Rattle.std.specs.Prelude.{◌≡◌, ◌+◌, ◌-◌, ◌≤◌, ◌<◌, Option as Maybe, None, IfOk, IfSome, OnOk, length, take, true, false};
ghost use Rattle.net_core.specs.Limits.{most_cuts};
ghost use Rattle.plan_terms.specs.Terms.{case_of, IsSurvivable};
ghost use Rattle.master_law.specs.Terms.{AreUnitPairs};
ghost use Rattle.master_bound.{specs.Answers.IsEvidenceOf, specs.declared.answer.Best.Best};
ghost use Rattle.separator.specs.Separators.{AreAnswersUntilCut, AreStateAnswers, SeesMore};
ghost use Rattle.plan_types.{specs.declared.quality.Cause.TheVariants.Wide, specs.declared.quality.Quality.TheVariants.Loose};
ghost use Rattle.plan_rounds.{specs.WorkedRounds.{AreWorkedRounds, IsBestAt, IsPoolOf, IsWorkedAlone}, specs.inner.Alone.{PoolsRounds, PoolsTurn}, specs.inner.Answered.{AreAnswers, AreRoutedStates, IsEvidenceOfState}, specs.inner.Listing.{AreListed, GoesOn, IsPlanning}, specs.inner.Sharing.IsDividedCaps, specs.inner.Turns.{AddsFirst, EndsAt, IsTurnAfter, IsTurnOf, Judges, WorksOn, worked_of}, specs.declared.rounds.Turn.TheVariants.{Further, Last}};

use crate::candidates::Candidates;
use crate::certificates::best_so_far;
use crate::cut_items::{add_first, take_back};
use crate::fractional::quality_at;
use crate::openings::open_states;
use crate::shares::{ShareCaps, share_caps};
use crate::sorted_answers::{Answered, sorted};
use length_master::KeptMaster;
use master_bound::{Best, MasterFault, unit_pairs};
use module_prices::UnitPair;
use net_core::{Caps, CutLine, Evidence, Instance, List, NoMemory, discard};
use outside_io::RoundFigures;
use plan_types::{Cause, Quality, Spot};
use separator::{Separate, StateAnswer};
use std::alloc::Global;

/// The most cuts that are added to those of the pool.
const MOST_ADDED: usize = 4096;

/// The state of a planning after its rounds so far.
#[derive(Drop)]
pub struct Worked {
    /// The pool's cuts, and then those that were added.
    pub lines: List<CutLine>,
    /// The spot of each line.
    pub spots: List<Spot>,
    /// The best certificate, if there is one: that of `lines`, or, if theirs is too wide, that of the lines before the last round.
    pub best: Option<Best>,
    pub quality: Quality,
}

/// How one turn of the rounds ends.
#[derive(Drop)]
pub enum Turn {
    /// It has found further cuts at the share of this certificate.
    Further(Best),
    /// It is the last one.
    Last(Option<Best>, Quality),
}

/// What the rounds of a planning work on: an instance where no state separates a demand, and the unit pairs of its network. The list may
/// grow to `most` cuts.
#[derive(Clone, Copy)]
pub(crate) struct Rounds<'a> {
    pub alloc: Global,
    pub instance: &'a Instance<'a>,
    pub pairs: &'a List<UnitPair>,
    pub most: usize,
    pub ghost survivable: { IsSurvivable (case_of instance.now) },
    pub ghost few: { most ≤ 8192 },
}

/// How far the rounds are.
#[derive(Drop)]
pub(crate) struct Progress {
    /// The cuts so far.
    pub candidates: Candidates,
    /// What is left of the last master program, with which the next one begins.
    pub kept: KeptMaster,
    /// The number of the round, from 1.
    pub round: u32,
}

/// Adds the cuts that were found, as many as there is room for, for a further turn.
fn go_on(
    best: Best,
    found: Candidates,
    room: usize,
    candidates: &mut Candidates,
) -> Result<Turn, NoMemory>
    ensures { IfOk result (λ turn. AddsFirst room found candidates.old candidates.new × (turn ≡ Further best)) }
{
    add_first(found, room, candidates)?;
    Ok(Turn::Further(best))
}

impl Rounds<'_> {
    /// The last turn, at a share for which there is no further cut to add: its quality tells what the states answer.
    fn ended(&self, best: Best, caps: ShareCaps, answered: Answered) -> Result<Turn, NoMemory>
        requires divided { IsDividedCaps caps.whole caps }
        requires routed { answered.wide ≡ None → ∥ AreRoutedStates (case_of self.now.instance.now) caps.divided
            (length self.now.instance.now.states.now.listed + 1) answered.routings ∥₁ }
        requires wide { ∥ IfSome answered.wide (IsEvidenceOfState (case_of self.now.instance.now) caps.divided) ∥₁ }
        ensures { IfOk result (λ turn. ∥ EndsAt (case_of self.now.instance.now) caps.whole best turn ∥₁) }
    {
        discard(answered.found);
        let quality = quality_at(
            self.alloc,
            self.instance,
            &best.share,
            caps,
            answered.routings,
            answered.wide,
        )?;
        Ok(Turn::Last(Some(best), quality))
    }

    /// What comes after the answers of a turn: a further turn with the cuts that the share violates, as many as there is room for, or the
    /// end where it violates none, there is no room, or a number is too wide.
    fn judge(
        &self,
        best: Best,
        caps: ShareCaps,
        answered: Answered,
        candidates: &mut Candidates,
    ) -> Result<Turn, NoMemory>
        requires fits { length candidates.old.lines ≤ self.now.most }
        requires divided { IsDividedCaps caps.whole caps }
        requires routed { length answered.found.lines ≡ 0 → answered.wide ≡ None
            → ∥ AreRoutedStates (case_of self.now.instance.now) caps.divided (length self.now.instance.now.states.now.listed + 1)
            answered.routings ∥₁ }
        requires wide { ∥ IfSome answered.wide (IsEvidenceOfState (case_of self.now.instance.now) caps.divided) ∥₁ }
        ensures { IfOk result (λ turn. ∥ Judges (case_of self.now.instance.now) (self.now.most - length candidates.old.lines) caps.whole
            answered best candidates.old candidates.new turn ∥₁) }
    {
        if answered.found.lines.len() == 0 {
            return self.ended(best, caps, answered);
        }
        let room = self.most - candidates.lines.len();
        if room == 0 {
            discard(answered);
            discard(caps);
            return Ok(Turn::Last(Some(best), Quality::Loose(Cause::Cuts)));
        }
        if answered.wide.is_some() {
            return self.ended(best, caps, answered);
        }
        discard(answered.routings);
        discard(answered.wide);
        discard(caps);
        go_on(best, answered.found, room, candidates)
    }

    /// What states answer at capacities. In the first round all of them are asked, so that gates and hint boards see each state; later,
    /// states are asked until one gives a cut.
    pub(crate) fn answers<S: Separate>(
        &self,
        caps: &Caps,
        is_first: bool,
        separator: &mut S,
    ) -> Result<List<StateAnswer>, NoMemory>
        requires network { self.now.instance.now.net.now ≡ (S.frame separator.old).network }
        requires states { self.now.instance.now.states.now ≡ (S.frame separator.old).states }
        requires scale { 0 < caps.now.scale }
        requires caps { length caps.now.nums ≡ length self.now.instance.now.net.now.links }
        ensures on { GoesOn (S.frame separator.old) (S.frame separator.new) (S.seen_of separator.old) (S.seen_of separator.new) }
        ensures told { IfOk result (AreAnswers (case_of self.now.instance.now) caps.now (S.seen_of separator.old) (S.seen_of separator.new)) }
        ensures first { is_first ≡ true
            → IfOk result (λ answers. ∥ AreStateAnswers (case_of self.now.instance.now) caps.now (S.seen_of separator.new).history answers ∥₁) }
        ensures later { is_first ≡ false
            → IfOk result (λ answers. ∥ AreAnswersUntilCut (case_of self.now.instance.now) caps.now (S.seen_of separator.new).history answers ∥₁) }
    {
        if is_first {
            separator.separate(self.instance, caps)
        } else {
            separator.separate_until_cut(self.instance, caps)
        }
    }

    /// Asks states about the share of the best certificate of the cuts so far: all of them in round 1, and until a cut is found later.
    fn ask<S: Separate>(
        &self,
        best: Best,
        progress: &mut Progress,
        separator: &mut S,
    ) -> Result<Turn, NoMemory>
        requires planning { IsPlanning self.now.instance.now (S.frame separator.old) (S.seen_of separator.old) progress.old.candidates }
        requires pairs { AreUnitPairs self.now.instance.now.net.now.links self.now.pairs.now }
        requires fits { length progress.old.candidates.lines ≤ self.now.most }
        requires best { IsBestAt (case_of self.now.instance.now) self.now.pairs.now progress.old.candidates.lines best }
        ensures on { GoesOn (S.frame separator.old) (S.frame separator.new) (S.seen_of separator.old) (S.seen_of separator.new) }
        ensures listed { OnOk result ∥ AreListed (case_of self.now.instance.now) (S.seen_of separator.new).history progress.new.candidates ∥₁ }
        ensures turn { IfOk result (λ turn. (before : Maybe Best) → ∥ IsTurnOf (case_of self.now.instance.now) self.now.pairs.now
            (self.now.most - length progress.old.candidates.lines) before progress.old.candidates.lines progress.new.candidates.lines turn ∥₁) }
        ensures alone { IfOk result (λ turn. PoolsTurn (case_of self.now.instance.now) self.now.pairs.now self.now.most (S.seen_of separator.old)
            (S.seen_of separator.new) progress.old.candidates.lines progress.new.candidates.lines turn) }
    {
        let caps = share_caps(self.alloc, self.instance.net, self.pairs, &best.share)?;
        let answers = self.answers(&caps.divided, progress.round == 1, separator)?;
        let answered = sorted(self.alloc, answers)?;
        separator.note(RoundFigures {
            round: progress.round,
            cuts: progress.candidates.lines.len(),
            raw_num: best.raw_num,
            raw_den: best.raw_den,
            routed: answered.routings.len(),
        });
        self.judge(best, caps, answered, &mut progress.candidates)
    }

    /// The last turn, where the certificate of the first `count` cuts is too wide by this evidence. The cuts after them are taken off the list,
    /// and `before` is the best certificate.
    fn end_wide(
        &self,
        count: usize,
        before: Option<Best>,
        evidence: Evidence,
        candidates: &mut Candidates,
    ) -> Result<Turn, NoMemory>
        ensures { IfOk result (λ turn. (turn ≡ Last before (Loose (Wide evidence))) × (candidates.new.lines ≡ take count candidates.old.lines)
            × (candidates.new.spots ≡ take count candidates.old.spots)) }
    {
        match take_back(self.alloc, count, candidates) {
            Ok(()) => Ok(Turn::Last(before, Quality::Loose(Cause::Wide(evidence)))),
            Err(error) => {
                discard(evidence);
                discard(before);
                Err(error)
            }
        }
    }

    /// A turn where the certificate of the cuts so far is too wide, by this evidence. Rounds at the capacities of least shares add cuts
    /// until a certificate isn't too wide, and a turn at that certificate follows. If that never happens, the list stays as it was, and
    /// this is the last turn.
    fn turn_past_wide<S: Separate>(
        &self,
        before: Option<Best>,
        evidence: Evidence,
        progress: &mut Progress,
        separator: &mut S,
    ) -> Result<Turn, NoMemory>
        requires planning { IsPlanning self.now.instance.now (S.frame separator.old) (S.seen_of separator.old) progress.old.candidates }
        requires pairs { AreUnitPairs self.now.instance.now.net.now.links self.now.pairs.now }
        requires fits { length progress.old.candidates.lines ≤ self.now.most }
        requires evidence { IsEvidenceOf self.now.instance.now.net.now.links progress.old.candidates.lines evidence }
        ensures on { GoesOn (S.frame separator.old) (S.frame separator.new) (S.seen_of separator.old) (S.seen_of separator.new) }
        ensures listed { OnOk result ∥ AreListed (case_of self.now.instance.now) (S.seen_of separator.new).history progress.new.candidates ∥₁ }
        ensures turn { IfOk result (λ turn. ∥ IsTurnAfter (case_of self.now.instance.now) self.now.pairs.now self.now.most before
            progress.old.candidates.lines progress.new.candidates.lines turn ∥₁) }
        ensures alone { IfOk result (λ turn. PoolsTurn (case_of self.now.instance.now) self.now.pairs.now self.now.most (S.seen_of separator.old)
            (S.seen_of separator.new) progress.old.candidates.lines progress.new.candidates.lines turn) }
    {
        let count = progress.candidates.lines.len();
        match self.pass_wide(progress, separator) {
            Ok(Some(best)) => {
                discard(evidence);
                discard(before);
                self.ask(best, progress, separator)
            }
            Ok(None) => self.end_wide(count, before, evidence, &mut progress.candidates),
            Err(error) => {
                discard(evidence);
                discard(before);
                Err(error)
            }
        }
    }

    /// One turn: the best certificate of the cuts so far, and what the states answer at its share. `before` is the certificate of the turn
    /// before, which is the best one if this turn's is too wide.
    fn turn<S: Separate>(
        &self,
        before: Option<Best>,
        progress: &mut Progress,
        separator: &mut S,
    ) -> Result<Turn, NoMemory>
        requires planning { IsPlanning self.now.instance.now (S.frame separator.old) (S.seen_of separator.old) progress.old.candidates }
        requires pairs { AreUnitPairs self.now.instance.now.net.now.links self.now.pairs.now }
        requires fits { length progress.old.candidates.lines ≤ self.now.most }
        ensures on { GoesOn (S.frame separator.old) (S.frame separator.new) (S.seen_of separator.old) (S.seen_of separator.new) }
        ensures listed { OnOk result ∥ AreListed (case_of self.now.instance.now) (S.seen_of separator.new).history progress.new.candidates ∥₁ }
        ensures turn { IfOk result (λ turn. ∥ IsTurnAfter (case_of self.now.instance.now) self.now.pairs.now self.now.most before
            progress.old.candidates.lines progress.new.candidates.lines turn ∥₁) }
        ensures alone { IfOk result (λ turn. PoolsTurn (case_of self.now.instance.now) self.now.pairs.now self.now.most (S.seen_of separator.old)
            (S.seen_of separator.new) progress.old.candidates.lines progress.new.candidates.lines turn) }
    {
        progress.round = progress.round.saturating_add(1);
        let cuts = &progress.candidates.lines;
        match best_so_far(self.alloc, self.instance.net, cuts, &mut progress.kept) {
            Ok(best) => self.ask(best, progress, separator),
            Err(MasterFault::Wide(evidence)) => {
                self.turn_past_wide(before, evidence, progress, separator)
            }
            Err(MasterFault::NoMemory) => Err(NoMemory),
        }
    }

    /// Takes turns until one is the last, and tells its best certificate and quality.
    fn turns<S: Separate>(
        &self,
        progress: &mut Progress,
        separator: &mut S,
    ) -> Result<(Option<Best>, Quality), NoMemory>
        requires planning { IsPlanning self.now.instance.now (S.frame separator.old) (S.seen_of separator.old) progress.old.candidates }
        requires pairs { AreUnitPairs self.now.instance.now.net.now.links self.now.pairs.now }
        requires fits { length progress.old.candidates.lines ≤ self.now.most }
        ensures on { GoesOn (S.frame separator.old) (S.frame separator.new) (S.seen_of separator.old) (S.seen_of separator.new) }
        ensures worked { IfOk result (λ end. WorksOn (case_of self.now.instance.now) (S.seen_of separator.new).history self.now.most
            progress.old.candidates.lines (worked_of progress.new.candidates end.0 end.1)) }
        ensures alone { OnOk result (PoolsRounds (case_of self.now.instance.now) self.now.most (S.seen_of separator.old)
            (S.seen_of separator.new) progress.old.candidates.lines) }
    {
        let mut before = None;
        loop {
            match self.turn(before, progress, separator)? {
                Turn::Further(best) => before = Some(best),
                Turn::Last(best, quality) => return Ok((best, quality)),
            }
        }
    }
}

/// Lists the cuts of a pool and then the opening cuts of each state. Then it adds, turn by turn, the cuts that the share of the best
/// certificate so far violates, until the share violates none, a number is too wide, or 4,096 cuts were added and the share violates a
/// further one.
///
/// The separator is one of the instance's network and states, no state separates a demand, and the pool has the cuts that the separator's
/// history had pooled at some time, with right sides at the instance's demands. If that history was empty, and the separator alone has
/// written it, what it has pooled is a worked list by itself, in its order.
///
/// In the triangle with a demand of 12.00 the unit cut of state `none` is the first opening cut. It asks for 12.00, its share costs 6.00
/// and carries the demand, and the quality is `Tight`.
///
/// Each turn takes at most one simplex run over the cuts, and one over the paths of each state. Memory is for two cuts of each state, the
/// cuts of the turns, and one routing of each state. It fails only where memory runs out.
pub fn work_rounds<S: Separate>(
    alloc: Global,
    instance: &Instance,
    pool: List<CutLine>,
    separator: &mut S,
) -> Result<Worked, NoMemory>
    requires network { instance.now.net.now ≡ (S.frame separator.old).network }
    requires states { instance.now.states.now ≡ (S.frame separator.old).states }
    requires survivable { IsSurvivable (case_of instance.now) }
    requires few { length pool ≤ most_cuts }
    requires pool { ∥ IsPoolOf (case_of instance.now) (S.seen_of separator.old).history pool ∥₁ }
    ensures frame { S.frame separator.new ≡ S.frame separator.old }
    ensures more { SeesMore (S.seen_of separator.old) (S.seen_of separator.new) }
    ensures worked { IfOk result (λ worked. ∥ AreWorkedRounds (case_of instance.now) (S.seen_of separator.new).history pool worked ∥₁) }
    ensures alone { OnOk result (IsWorkedAlone (case_of instance.now) (S.seen_of separator.old) (S.seen_of separator.new)) }
{
    let most = pool.len() + MOST_ADDED;
    let pairs = unit_pairs(alloc, instance.net)?;
    let candidates = open_states(alloc, instance, pool, separator)?;
    let mut progress = Progress {
        candidates,
        kept: KeptMaster::new(),
        round: 0,
    };
    let rounds = Rounds {
        alloc,
        instance,
        pairs: &pairs,
        most,
    };
    match rounds.turns(&mut progress, separator) {
        Ok((best, quality)) => {
            discard(progress.kept);
            Ok(Worked {
                lines: progress.candidates.lines,
                spots: progress.candidates.spots,
                best,
                quality,
            })
        }
        Err(no_memory) => {
            discard(progress);
            Err(no_memory)
        }
    }
}
