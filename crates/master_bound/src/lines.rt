ghost use Rattle.std.specs.Prelude.{◌≡◌, ◌<◌, ◌≤◌, ◌/◌, ◌^◌, ◌∷◌, ◌↔◌, ℕ, Some, All, Any, Contains, IfOk, OnOk, IsTrue, MatchOption, length, get_or, slice_get, true, false, []};
ghost use Rattle.plan_terms.specs.Terms.{CutLine, Metric, IsGreatestDivisor, asked};
ghost use Rattle.master_law.specs.Terms.{IsSameCut};
ghost use Rattle.master_bound.{specs.Answers.lines_of, specs.inner.Lines.{AreAmounts, AreBasisMultipliers, IsListedCut, IsPlaceOf, PushesMultiplier, amount_of}};

use crate::answer::Multiplier;
use checked_fraction::gcd;
use net_core::{CutLine, Lengths, List, MasterColumn, NoMemory, StateId};
use std::alloc::Global;

/// Numerators of a certificate are below this.
const WIDE: u128 = 1 << 62;

/// How much is taken of a column, if it is a cut.
fn amount_of(column: &MasterColumn, value: u128) -> u128
    ensures { result ≡ amount_of column.now value }
{
    match column {
        MasterColumn::Metric(_, _) => value,
        MasterColumn::LinkSlack(_) => 0,
    }
}

/// How much is taken of each column of a basis that is a cut, and 0 of a slack.
pub(crate) fn amounts_of(
    alloc: Global,
    basis: &[MasterColumn],
    values: &[u128],
) -> Result<List<u128>, NoMemory>
    requires { length values.now ≡ length basis.now }
    ensures { IfOk result (AreAmounts basis.now values.now (length basis.now)) }
{
    let mut amounts = List::from_vec(Vec::with_capacity(alloc, basis.len())?);
    for j in 0..basis.len() {
        amounts.push(amount_of(&basis[j], values[j]))?;
    }
    Ok(amounts)
}

/// The greatest common divisor of a number and of others, 0 where all are 0. It takes one of two numbers for each, and no memory.
///
/// That of 12 and 18, 30 is 6.
pub fn common_divisor(number: u128, others: &[u128]) -> u128
    ensures { IsGreatestDivisor (number ∷ others.now) result }
{
    let mut common = number;
    for other in others {
        common = gcd(common, *other);
    }
    common
}

/// Whether an amount over a divisor is 2^62 or more.
pub(crate) fn has_wide(amounts: &[u128], common: u128) -> bool
    requires { 0 < common }
    ensures { IsTrue result ↔ Any (λ a. 2 ^ 62 ≤ a / common) amounts.now }
{
    amounts.iter().any(|amount| *amount / common >= WIDE)
}

/// Whether two cuts have the same state and lengths, whatever they ask for. It takes time in the number of links, and no memory.
pub fn is_same_cut(a: &CutLine, b: &CutLine) -> bool
    ensures { IsTrue result ↔ IsSameCut a.now b.now }
{
    a.state == b.state && a.lengths.items() == b.lengths.items()
}

/// The place of the first cut with this state and these lengths.
fn place_of(cuts: &[CutLine], state: StateId, lengths: &Lengths) -> Option<usize>
    ensures { MatchOption result ((cut : CutLine) → Contains cuts.now cut
        → Metric state lengths.now ≡ Metric cut.state cut.lengths → ⊥) (IsPlaceOf cuts.now (Metric state lengths.now)) }
{
    cuts.iter()
        .position(|cut| cut.state == state && cut.lengths == *lengths)
}

/// The place of the cut that a column is.
fn cut_of(cuts: &[CutLine], column: &MasterColumn) -> usize
    requires { (cut : CutLine) × IsListedCut cuts.now column.now cut }
    ensures { IsPlaceOf cuts.now column.now result }
{
    let MasterColumn::Metric(state, lengths) = column else {
        unreachable!();
    };
    let Some(place) = place_of(cuts, *state, lengths) else {
        unreachable!();
    };
    place
}

/// Puts a column's multiplier last, unless it is 0.
fn push_multiplier(
    multipliers: &mut List<Multiplier>,
    cuts: &[CutLine],
    column: &MasterColumn,
    num: u64,
) -> Result<(), NoMemory>
    requires few { length cuts.now ≤ 8192 }
    requires listed { 0 < num → (cut : CutLine) × IsListedCut cuts.now column.now cut }
    ensures { OnOk result (PushesMultiplier cuts.now column.now num multipliers.old multipliers.new) }
{
    if num > 0 {
        let cut = cut_of(cuts, column) as u32;
        multipliers.push(Multiplier { cut, num })?;
    }
    Ok(())
}

/// The multipliers of a basis: its amounts over a divisor.
pub(crate) fn multipliers_of(
    alloc: Global,
    cuts: &[CutLine],
    basis: &[MasterColumn],
    amounts: &[u128],
    common: u128,
) -> Result<List<Multiplier>, NoMemory>
    requires few { length cuts.now ≤ 8192 }
    requires count { length amounts.now ≡ length basis.now }
    requires common { 0 < common }
    requires narrow { All (λ a. a / common < 2 ^ 62) amounts.now }
    requires listed { (j : ℕ) (name : MasterColumn) → slice_get basis.now j ≡ Some name → 0 < get_or amounts.now j 0 → (cut : CutLine)
        × IsListedCut cuts.now name cut }
    ensures { IfOk result (AreBasisMultipliers cuts.now basis.now amounts.now common (length basis.now)) }
{
    let mut multipliers = List::new(alloc);
    for j in 0..basis.len() {
        let num = (amounts[j] / common) as u64;
        push_multiplier(&mut multipliers, cuts, &basis[j], num)?;
    }
    Ok(multipliers)
}

/// What a multiplier's cut asks for.
fn asked_by(cuts: &[CutLine], multiplier: &Multiplier) -> u128
    requires inside { multiplier.now.cut < length cuts.now }
    requires narrow { multiplier.now.num < 2 ^ 62 }
    requires right { (cut : CutLine) → slice_get cuts.now multiplier.now.cut ≡ Some cut → cut.right < 2 ^ 62 }
    ensures asked { result ≡ asked (lines_of cuts.now (multiplier.now ∷ [])) }
    ensures low { result < 2 ^ 124 }
{
    multiplier.num as u128 * cuts[multiplier.cut as usize].right
}

/// Whether the cuts ask for 2^126 or more.
pub(crate) fn asks_too_much(cuts: &[CutLine], multipliers: &[Multiplier]) -> bool
    requires inside { All (λ m. m.cut < length cuts.now) multipliers.now }
    requires narrow { All (λ m. m.num < 2 ^ 62) multipliers.now }
    requires right { All (λ c. c.right < 2 ^ 62) cuts.now }
    ensures yes { result ≡ true → 2 ^ 126 ≤ asked (lines_of cuts.now multipliers.now) }
    ensures no { result ≡ false → asked (lines_of cuts.now multipliers.now) < 2 ^ 126 }
{
    let mut asked = 0;
    for multiplier in multipliers {
        asked += asked_by(cuts, multiplier);
        if asked >= 1 << 126 {
            return true;
        }
    }
    false
}
