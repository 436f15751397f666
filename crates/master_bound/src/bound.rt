ghost use Rattle.std.specs.Prelude.{◌≡◌, ◌≤◌, ◌<◌, ◌^◌, All, AllPairs, Ok, Err, IfOk, IfErr, MatchOption, Some, length, map, slice_get};
ghost use Rattle.plan_terms.specs.Terms.{CutLine, Metric, Number, IsLowest};
ghost use Rattle.metric_cut.specs.Bounded.{HaveBound};
ghost use Rattle.simplex_core.specs.Terms.{AtEach};
ghost use Rattle.simplex_law.specs.Terms.{IsPacking};
ghost use Rattle.master_law.specs.Terms.{IsMasterEvidence, IsMasterColumn, IsSameCut, cut_gain, master_bound, master_slack, AreUnitPairs, share_cost};
ghost use Rattle.master_bound.{specs.Answers.{IsBestOf, IsMasterAnswer}, specs.Optima.{IsMasterOptimum, IsTooWideForCertificate, IsWideOptimum}, specs.Narrow.{IsNarrowCut, IsWideCut}, specs.inner.Programs.{IsMasterSolution, IsWideAnswer}, specs.inner.Shares.IsShareOfDuals};

use crate::answer::{Best, MasterFault, Multiplier};
use crate::lines::{amounts_of, asks_too_much, common_divisor, has_wide, multipliers_of};
use crate::numbers::wide_cut;
use crate::program::MasterProgram;
use crate::rating::{Rating, ratings_of};
use crate::share::{RawValue, raw_value, share_of};
use crate::task::Task;
use crate::units::unit_pairs;
use module_prices::UnitPair;
use net_core::{
    Copied, CutLine, Evidence, LinkId, List, MasterColumn, Network, NoMemory, WideKind,
};
use plan_types::Share;
use simplex_core::{Optimum, solve};
use std::alloc::Global;

/// The answer that a number of a basis is too wide.
fn wide(basis: List<MasterColumn>, kind: WideKind<MasterColumn>) -> MasterFault
    ensures { IsWideAnswer basis kind result }
{
    MasterFault::Wide(Evidence::Master { basis, kind })
}

/// The names of all slacks, in the order of their rows.
fn slack_names(alloc: Global, rows: usize) -> Result<List<MasterColumn>, NoMemory>
    requires { rows < 2 ^ 32 }
    ensures count { IfOk result (λ names. length names ≡ rows) }
    ensures names { IfOk result (AtEach (λ i name. name ≡ master_slack i)) }
{
    let mut names = List::from_vec(Vec::with_capacity(alloc, rows)?);
    for row in 0..rows {
        names.push(MasterColumn::LinkSlack(LinkId(row as u32)))?;
    }
    Ok(names)
}

/// The answer that a number of this cut is 2^62 or more.
fn wide_number(
    alloc: Global,
    net: &Network,
    pairs: &[UnitPair],
    cuts: &[CutLine],
    k: usize,
) -> Result<MasterFault, NoMemory>
    requires inside { k < length cuts.now }
    requires units { AreUnitPairs net.now.links pairs.now }
    requires counts { All (λ cut. length cut.lengths ≡ length net.now.links) cuts.now }
    requires wide { (cut : CutLine) → slice_get cuts.now k ≡ Some cut → IsWideCut net.now.links pairs.now cut }
    ensures { IfOk result (λ fault. IsMasterAnswer net.now.links cuts.now (Err fault)) }
{
    let cut = &cuts[k];
    let name = MasterColumn::Metric(cut.state, cut.lengths.copy()?);
    let names = slack_names(alloc, net.links().len())?;
    Ok(wide(names, WideKind::Number(name)))
}

/// The lines of a certificate over one denominator.
#[derive(Drop)]
struct Lines {
    den: u128,
    multipliers: List<Multiplier>,
}

/// The lines that an optimum gives whose share costs something, unless a value of it is too wide. Their denominator is the least for the
/// amounts of the cuts alone, so that its limits are met more often.
fn lines_of(
    alloc: Global,
    task: &Task,
    optimum: &Optimum<MasterColumn>,
    share: &Share,
    raw: &RawValue,
) -> Result<Option<Lines>, NoMemory>
    requires units { AreUnitPairs task.now.net.now.links task.now.pairs.now }
    requires different { AllPairs (λ a b. IsSameCut a b → ⊥) task.now.cuts.now }
    requires packing { IsPacking (length task.now.net.now.links) (master_bound task.now.pairs.now)
        (IsMasterColumn task.now.net.now.links task.now.pairs.now task.now.cuts.now) }
    requires solution { IsMasterOptimum task.now.net.now.links task.now.pairs.now task.now.cuts.now optimum.now }
    requires share { IsShareOfDuals optimum.now.duals share.now }
    requires raw { IsLowest (share_cost task.now.pairs.now share.now) share.now.scale raw.now.num raw.now.den }
    requires some { 0 < raw.now.num }
    ensures { IfOk result (λ found. MatchOption found
        (IsWideOptimum task.now.net.now.links task.now.pairs.now task.now.cuts.now optimum.now)
        (λ lines. IsMasterAnswer task.now.net.now.links task.now.cuts.now
        (Ok (record { den = lines.den; multipliers = lines.multipliers; share = share.now; raw_num = raw.now.num; raw_den = raw.now.den })))) }
{
    let basis = optimum.basis.items();
    let amounts = amounts_of(alloc, basis, optimum.values.items())?;
    let common = common_divisor(optimum.den as u128, amounts.items());
    if has_wide(amounts.items(), common) {
        return Ok(None);
    }
    let cuts = task.cuts.items();
    let multipliers = multipliers_of(alloc, cuts, basis, amounts.items(), common)?;
    if asks_too_much(cuts, multipliers.items()) {
        return Ok(None);
    }
    Ok(Some(Lines {
        den: optimum.den as u128 / common,
        multipliers,
    }))
}

/// The answer that a value of an optimum is too wide.
fn wide_value(optimum: Optimum<MasterColumn>) -> MasterFault
    ensures { IsWideAnswer optimum.basis WideKind.Value result }
{
    wide(optimum.basis, WideKind::Value)
}

/// The certificate of an optimum whose share costs something, unless a value of it is too wide.
fn certified(
    alloc: Global,
    task: &Task,
    optimum: &Optimum<MasterColumn>,
    share: Share,
    raw: RawValue,
) -> Result<Option<Best>, NoMemory>
    requires units { AreUnitPairs task.now.net.now.links task.now.pairs.now }
    requires different { AllPairs (λ a b. IsSameCut a b → ⊥) task.now.cuts.now }
    requires packing { IsPacking (length task.now.net.now.links) (master_bound task.now.pairs.now)
        (IsMasterColumn task.now.net.now.links task.now.pairs.now task.now.cuts.now) }
    requires solution { IsMasterOptimum task.now.net.now.links task.now.pairs.now task.now.cuts.now optimum.now }
    requires share { IsShareOfDuals optimum.now.duals share }
    requires raw { IsLowest (share_cost task.now.pairs.now share) share.scale raw.num raw.den }
    requires some { 0 < raw.num }
    ensures { IfOk result (λ found. MatchOption found
        (IsWideOptimum task.now.net.now.links task.now.pairs.now task.now.cuts.now optimum.now) (IsBestOf task.now.net.now.links task.now.cuts.now)) }
{
    let Some(Lines { den, multipliers }) = lines_of(alloc, task, optimum, &share, &raw)? else {
        return Ok(None);
    };
    Ok(Some(Best {
        den,
        multipliers,
        share,
        raw_num: raw.num,
        raw_den: raw.den,
    }))
}

/// The certificate of an optimum, unless a value of it is too wide.
fn best_of(
    alloc: Global,
    task: &Task,
    optimum: &Optimum<MasterColumn>,
) -> Result<Option<Best>, NoMemory>
    requires units { AreUnitPairs task.now.net.now.links task.now.pairs.now }
    requires different { AllPairs (λ a b. IsSameCut a b → ⊥) task.now.cuts.now }
    requires packing { IsPacking (length task.now.net.now.links) (master_bound task.now.pairs.now)
        (IsMasterColumn task.now.net.now.links task.now.pairs.now task.now.cuts.now) }
    requires solution { IsMasterOptimum task.now.net.now.links task.now.pairs.now task.now.cuts.now optimum.now }
    ensures { IfOk result (λ found. MatchOption found
        (IsWideOptimum task.now.net.now.links task.now.pairs.now task.now.cuts.now optimum.now) (IsBestOf task.now.net.now.links task.now.cuts.now)) }
{
    let share = share_of(alloc, &optimum.duals)?;
    let raw = raw_value(task.pairs.items(), &share);
    if raw.num > 0 {
        return certified(alloc, task, optimum, share, raw);
    }
    Ok(Some(Best {
        den: 1,
        multipliers: List::new(alloc),
        share,
        raw_num: raw.num,
        raw_den: raw.den,
    }))
}

/// The answer that an optimum of the simplex method gives.
fn answer_of(
    alloc: Global,
    task: &Task,
    optimum: Optimum<MasterColumn>,
) -> Result<Best, MasterFault>
    requires units { AreUnitPairs task.now.net.now.links task.now.pairs.now }
    requires different { AllPairs (λ a b. IsSameCut a b → ⊥) task.now.cuts.now }
    requires packing { IsPacking (length task.now.net.now.links) (master_bound task.now.pairs.now)
        (IsMasterColumn task.now.net.now.links task.now.pairs.now task.now.cuts.now) }
    requires solution { IsMasterSolution task.now.net.now.links task.now.pairs.now task.now.cuts.now optimum }
    ensures { IsMasterAnswer task.now.net.now.links task.now.cuts.now result }
{
    match best_of(alloc, task, &optimum)? {
        Some(best) => Ok(best),
        None => Err(wide_value(optimum)),
    }
}

/// The optimum of the program of a task's cuts.
fn optimum_of(
    alloc: Global,
    task: &Task,
    ratings: List<Rating>,
) -> Result<Optimum<MasterColumn>, MasterFault>
    requires gains { map (λ r. r.gain) ratings ≡ map (cut_gain task.now.net.now.links) task.now.cuts.now }
    requires units { AreUnitPairs task.now.net.now.links task.now.pairs.now }
    requires packing { IsPacking (length task.now.net.now.links) (master_bound task.now.pairs.now)
        (IsMasterColumn task.now.net.now.links task.now.pairs.now task.now.cuts.now) }
    ensures solution { IfOk result (IsMasterSolution task.now.net.now.links task.now.pairs.now task.now.cuts.now) }
    ensures fault { IfErr result (λ fault. IsMasterAnswer task.now.net.now.links task.now.cuts.now (Err fault)) }
{
    let mut program = MasterProgram {
        alloc,
        task: *task,
        ratings,
    };
    Ok(solve(alloc, &mut program)?)
}

/// The answer of cuts whose numbers are below 2^62.
fn solved(alloc: Global, task: &Task) -> Result<Best, MasterFault>
    requires units { AreUnitPairs task.now.net.now.links task.now.pairs.now }
    requires different { AllPairs (λ a b. IsSameCut a b → ⊥) task.now.cuts.now }
    requires narrow { All (IsNarrowCut task.now.net.now.links task.now.pairs.now) task.now.cuts.now }
    requires lengths { All (λ cut. HaveBound task.now.net.now.links cut.lengths) task.now.cuts.now }
    ensures { IsMasterAnswer task.now.net.now.links task.now.cuts.now result }
{
    let ratings = ratings_of(
        alloc,
        task.net.links().items(),
        task.pairs.items(),
        task.cuts.items(),
    )?;
    let optimum = optimum_of(alloc, task, ratings)?;
    answer_of(alloc, task, optimum)
}

/// The answer of cuts, beside the unit pairs of the links.
fn answered(
    alloc: Global,
    net: &Network,
    cuts: &List<CutLine>,
    pairs: &List<UnitPair>,
) -> Result<Best, MasterFault>
    requires few { length cuts.now ≤ 8192 }
    requires lengths { All (λ cut. HaveBound net.now.links cut.lengths) cuts.now }
    requires right { All (λ cut. cut.right < 2 ^ 84) cuts.now }
    requires different { AllPairs (λ a b. IsSameCut a b → ⊥) cuts.now }
    requires units { AreUnitPairs net.now.links pairs.now }
    requires costs { All (λ p. p.cost < 2 ^ 40) pairs.now }
    ensures { IsMasterAnswer net.now.links cuts.now result }
{
    match wide_cut(net.links().items(), pairs.items(), cuts.items()) {
        Some(k) => Err(wide_number(alloc, net, pairs.items(), cuts.items(), k)?),
        None => {
            let task = Task { net, cuts, pairs };
            solved(alloc, &task)
        }
    }
}

/// The best certificate of cuts, and a share of each link's unit pair that costs as much. No certificate of these cuts has a greater
/// raw value, and the share violates none of them. The certificate has at most 256 lines, of different cuts, in lowest terms; where
/// the raw value is 0 it has none, over the denominator 1. Where a number is 2^62 or more, the answer names a basis and what of it is too
/// wide.
///
/// There are at most 8,192 cuts, of which no two have the same state and lengths, each with lengths that have a bound of their own
/// and a right side below 2^84.
///
/// Three parallel links of 1.00 for 1.00 each, and of any two of them the cut that they carry 10.00: each cut has the multiplier 1 / 2,
/// the raw value is 15.00, and the share has 5.00 on each link.
///
/// It takes time that grows with the turns of the simplex method, each in the square of the count of links and in the number of cuts
/// times the count of links, and memory in the square of the count of links and in the number of cuts.
pub fn master(alloc: Global, net: &Network, cuts: &List<CutLine>) -> Result<Best, MasterFault>
    requires few { length cuts.now ≤ 8192 }
    requires lengths { All (λ cut. HaveBound net.now.links cut.lengths) cuts.now }
    requires right { All (λ cut. cut.right < 2 ^ 84) cuts.now }
    requires different { AllPairs (λ a b. IsSameCut a b → ⊥) cuts.now }
    ensures { IsMasterAnswer net.now.links cuts.now result }
{
    let pairs = unit_pairs(alloc, net)?;
    answered(alloc, net, cuts, &pairs)
}

/// A best certificate of cuts, made from a known optimum of their program and the unit pairs of the links. It may be another one than that
/// of `master`, with an equal raw value. There is none only where a number of a cut, or one of the certificate, is too wide. The basis need
/// not be one that gaining steps reach. The costs of the unit pairs are below 2^40, as `unit_pairs` gives them.
///
/// It takes time in the count of links times that of the cuts, and memory for the certificate and the share.
pub fn best_at(
    alloc: Global,
    net: &Network,
    cuts: &List<CutLine>,
    pairs: &List<UnitPair>,
    optimum: &Optimum<MasterColumn>,
) -> Result<Option<Best>, NoMemory>
    requires few { length cuts.now ≤ 8192 }
    requires lengths { All (λ cut. HaveBound net.now.links cut.lengths) cuts.now }
    requires right { All (λ cut. cut.right < 2 ^ 84) cuts.now }
    requires different { AllPairs (λ a b. IsSameCut a b → ⊥) cuts.now }
    requires units { AreUnitPairs net.now.links pairs.now }
    requires costs { All (λ p. p.cost < 2 ^ 40) pairs.now }
    requires optimum { IsMasterOptimum net.now.links pairs.now cuts.now optimum.now }
    ensures { IfOk result
        (λ found. MatchOption found (IsTooWideForCertificate net.now.links pairs.now cuts.now optimum.now) (IsBestOf net.now.links cuts.now)) }
{
    match wide_cut(net.links().items(), pairs.items(), cuts.items()) {
        Some(_) => Ok(None),
        None => {
            let task = Task { net, cuts, pairs };
            best_of(alloc, &task, optimum)
        }
    }
}
