ghost use Rattle.std.specs.Prelude.{◌≡◌, ◌+◌, ◌*◌, ◌<◌, ◌≤◌, List as Seq, [], All, IfOk, OnOk, ℕ, length};
ghost use Rattle.plan_terms.specs.Terms.{CutLine, graph_in, case_of};
ghost use Rattle.metric_cut.specs.Cuts.{IsCutOf};
ghost use Rattle.plan_law.{specs.inner.Openings.IsOpenedTo, specs.WorkedLists.IsBeginning};
ghost use Rattle.net_core.specs.Limits.{most_cuts};
ghost use Rattle.plan_rounds.{specs.WorkedRounds.IsPoolOf, specs.inner.Alone.PoolsOpening, specs.inner.Listing.{AreListed, GoesOn, IsPlanning, TakesCuts}};

use crate::candidates::{Candidates, pool_spots, take_cut};
use metric_cut::{Cut, opening};
use net_core::{CutLine, Instance, List, NoMemory, StateId};
use separator::Separate;
use std::alloc::Global;

/// Admits cuts to the pool, one after another, and lists those that aren't listed yet.
fn take_cuts<S: Separate>(
    instance: &Instance,
    cuts: List<Cut>,
    separator: &mut S,
    candidates: &mut Candidates,
) -> Result<(), NoMemory>
    requires cuts { All (λ c. IsCutOf (graph_in (case_of instance.now) c.state.0) c) cuts }
    requires planning { IsPlanning instance.now (S.frame separator.old) (S.seen_of separator.old) candidates.old }
    ensures on { GoesOn (S.frame separator.old) (S.frame separator.new) (S.seen_of separator.old) (S.seen_of separator.new) }
    ensures listed { OnOk result ∥ AreListed (case_of instance.now) (S.seen_of separator.new).history candidates.new ∥₁ }
    ensures taken { OnOk result (TakesCuts instance.now.demands.now cuts candidates.old.lines candidates.new.lines) }
    ensures alone { OnOk result ∥ PoolsOpening (S.seen_of separator.old) (S.seen_of separator.new) candidates.old.lines candidates.new.lines ∥₁ }
{
    let mut left = cuts.into_vec();
    left.reverse();
    while let Some(cut) = left.pop() {
        take_cut(instance, cut, separator, candidates)?;
    }
    Ok(())
}

/// Admits the opening cuts of a state to the pool, and lists those that aren't listed yet.
fn open_state<S: Separate>(
    alloc: Global,
    instance: &Instance,
    state: StateId,
    separator: &mut S,
    candidates: &mut Candidates,
) -> Result<(), NoMemory>
    requires state { state.0 < length instance.now.states.now.listed + 1 }
    requires planning { IsPlanning instance.now (S.frame separator.old) (S.seen_of separator.old) candidates.old }
    ensures on { GoesOn (S.frame separator.old) (S.frame separator.new) (S.seen_of separator.old) (S.seen_of separator.new) }
    ensures listed { OnOk result ∥ AreListed (case_of instance.now) (S.seen_of separator.new).history candidates.new ∥₁ }
    ensures opened { OnOk result ((pool : Seq CutLine) → IsOpenedTo (case_of instance.now) pool state.0 [] candidates.old.lines
        → IsOpenedTo (case_of instance.now) pool (state.0 + 1) [] candidates.new.lines) }
    ensures few { OnOk result (length candidates.new.lines ≤ length candidates.old.lines + 2) }
    ensures alone { OnOk result ∥ PoolsOpening (S.seen_of separator.old) (S.seen_of separator.new) candidates.old.lines candidates.new.lines ∥₁ }
{
    let cuts = opening(alloc, instance.net, instance.states, state)?;
    take_cuts(instance, cuts, separator, candidates)
}

/// A list of the pool's cuts, and after them the opening cuts of each state that aren't among these, in state order. All opening cuts are
/// admitted to the pool.
pub fn open_states<S: Separate>(
    alloc: Global,
    instance: &Instance,
    pool: List<CutLine>,
    separator: &mut S,
) -> Result<Candidates, NoMemory>
    requires network { instance.now.net.now ≡ (S.frame separator.old).network }
    requires states { instance.now.states.now ≡ (S.frame separator.old).states }
    requires few { length pool ≤ most_cuts }
    requires pool { ∥ IsPoolOf (case_of instance.now) (S.seen_of separator.old).history pool ∥₁ }
    ensures on { GoesOn (S.frame separator.old) (S.frame separator.new) (S.seen_of separator.old) (S.seen_of separator.new) }
    ensures listed { IfOk result (λ c. ∥ AreListed (case_of instance.now) (S.seen_of separator.new).history c ∥₁) }
    ensures begins { IfOk result (λ c. IsBeginning (case_of instance.now) pool c.lines) }
    ensures few { IfOk result (λ c. length c.lines ≤ length pool + 2 * (length instance.now.states.now.listed + 1)) }
    ensures alone { IfOk result (λ c. ∥ PoolsOpening (S.seen_of separator.old) (S.seen_of separator.new) pool c.lines ∥₁) }
{
    let spots = pool_spots(alloc, pool.len())?;
    let mut candidates = Candidates { lines: pool, spots };
    for s in 0..instance.states.count() {
        open_state(alloc, instance, StateId(s), separator, &mut candidates)?;
    }
    Ok(candidates)
}
