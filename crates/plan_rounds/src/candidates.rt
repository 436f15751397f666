ghost use Rattle.std.specs.Prelude.{◌≡◌, ◌≤◌, IfOk, IsTrue, OnOk, false};
ghost use Rattle.plan_terms.specs.Terms.{graph_in, case_of};
ghost use Rattle.metric_cut.specs.Cuts.{IsCutOf};
ghost use Rattle.plan_law.specs.WorkedLists.{HasCut, Lacks};
ghost use Rattle.plan_rounds.{specs.inner.Alone.PoolsOpening, specs.inner.Listing.{AreFirstSpots, AreListed, GoesOn, IsPlanning, PutsLine, TakesCut}};

use master_bound::is_same_cut;
use metric_cut::Cut;
use net_core::{CutLine, Instance, List, NoMemory};
use plan_types::Spot;
use separator::Separate;
use std::alloc::Global;

/// The cuts that a planning has listed so far, each with its spot. `lines` and `spots` have the same length.
#[derive(Drop)]
pub struct Candidates {
    pub lines: List<CutLine>,
    pub spots: List<Spot>,
}

/// The spots of the first `cuts` cuts of a pool, in their order.
pub fn pool_spots(alloc: Global, cuts: usize) -> Result<List<Spot>, NoMemory>
    requires { cuts ≤ 4096 }
    ensures { IfOk result (AreFirstSpots cuts) }
{
    let mut spots = List::new(alloc);
    for i in 0..cuts {
        spots.push(Spot::Pool(i as u32))?;
    }
    Ok(spots)
}

/// Whether a line of the list has the cut's state and lengths.
fn stands(lines: &[CutLine], line: &CutLine) -> bool
    ensures there { IsTrue result → HasCut lines.now line.now.state.0 line.now.lengths }
    ensures lacks { result ≡ false → Lacks lines.now line.now }
{
    for l in lines {
        if is_same_cut(line, l) {
            return true;
        }
    }
    false
}

/// Adds a line and its spot to the end of the list, unless its cut is listed.
fn put_line(line: CutLine, spot: Spot, candidates: &mut Candidates) -> Result<(), NoMemory>
    ensures { OnOk result (PutsLine line spot candidates.old candidates.new) }
{
    if stands(candidates.lines.items(), &line) {
        return Ok(());
    }
    candidates.lines.push(line)?;
    candidates.spots.push(spot)?;
    Ok(())
}

/// Admits a cut to the pool, and adds it to the end of the list, unless it is listed.
pub fn take_cut<S: Separate>(
    instance: &Instance,
    cut: Cut,
    separator: &mut S,
    candidates: &mut Candidates,
) -> Result<(), NoMemory>
    requires cut { IsCutOf (graph_in (case_of instance.now) cut.state.0) cut }
    requires planning { IsPlanning instance.now (S.frame separator.old) (S.seen_of separator.old) candidates.old }
    ensures on { GoesOn (S.frame separator.old) (S.frame separator.new) (S.seen_of separator.old) (S.seen_of separator.new) }
    ensures listed { OnOk result ∥ AreListed (case_of instance.now) (S.seen_of separator.new).history candidates.new ∥₁ }
    ensures taken { OnOk result (TakesCut instance.now.demands.now cut candidates.old.lines candidates.new.lines) }
    ensures alone { OnOk result ∥ PoolsOpening (S.seen_of separator.old) (S.seen_of separator.new) candidates.old.lines candidates.new.lines ∥₁ }
{
    let line = cut.line(instance.demands)?;
    let spot = separator.admit(cut)?;
    put_line(line, spot, candidates)
}
