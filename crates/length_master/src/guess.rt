ghost use Rattle.std.specs.Prelude.{◌≡◌, ◌≤◌, ◌<◌, ◌^◌, ℕ, All, IfOk, IfSome, IsTrue, length, unsigned_abs};
ghost use Rattle.checked_fraction.specs.Terms.{num};
ghost use Rattle.simplex_law.specs.Terms.{AreNames};
ghost use Rattle.master_law.specs.Terms.{AreUnitPairs, cut_gain};
ghost use Rattle.metric_cut.specs.Bounded.{HaveBound};
ghost use Rattle.master_bound.specs.Optima.{IsMasterOptimum};
ghost use Rattle.length_master.{specs.inner.Slots.{ArePlacedRows, IsSlotInside, slot_name}, specs.inner.Tests.{AreBasicValues, AreBestPrices, AreNamesBelow}};

use crate::amounts::Numbers;
use crate::priced_lengths::{are_even, none_gains};
use crate::row::KeptRow;
use crate::slot::Slot;
use crate::tested_basis::{are_filled, are_inverse, are_placed, cut_of, row_at};
use checked_fraction::{Row, first_negative, lower};
use module_prices::UnitPair;
use net_core::{Copied, CutLine, LinkId, List, MasterColumn, Network, NoMemory};
use simplex_core::Optimum;
use std::alloc::Global;

/// Denominators are below this.
const WIDE: u128 = 1 << 62;

/// Whether each number is at most 2^124 in absolute value.
fn are_low(raw: &[i128]) -> bool
    ensures { IsTrue result → (k : ℕ) → k < length raw.now → unsigned_abs (num raw.now k) ≤ 2 ^ 124 }
{
    for k in 0..raw.len() {
        if raw[k].unsigned_abs() > 1 << 124 {
            return false;
        }
    }
    true
}

/// Numbers over a denominator as a row in lowest terms, where they fit.
pub(crate) fn lowered(alloc: Global, raw: &[i128], whole: i64) -> Result<Option<Row>, NoMemory>
    ensures { IfOk result (λ found. IfSome found (λ row. length row.nums ≡ length raw.now)) }
{
    if raw.len() == 0 || raw.len() >= 1 << 32 || whole <= 0 || whole >= 1 << 62 || !are_low(raw) {
        return Ok(None);
    }
    let mut row = Row::unit(alloc, raw.len() as u32, 0)?;
    match lower(&mut row, raw, &whole) {
        Ok(()) => Ok(Some(row)),
        Err(_) => Ok(None),
    }
}

/// Numbers with a sign; those that don't fit are taken for 0.
fn signed(alloc: Global, numbers: &[u128]) -> Result<List<i128>, NoMemory>
    ensures { IfOk result (λ raw. length raw ≡ length numbers.now) }
{
    let mut raw = List::from_vec(Vec::with_capacity(alloc, numbers.len())?);
    for number in numbers {
        raw.push(if *number < WIDE { *number as i128 } else { 0 })?;
    }
    Ok(raw)
}

/// The prices of units, as a row.
fn prices_of(alloc: Global, units: &Numbers) -> Result<Option<Row>, NoMemory>
    ensures { IfOk result (λ found. IfSome found (λ row. length row.nums ≡ length units.now.nums)) }
{
    if units.den >= WIDE {
        return Ok(None);
    }
    let raw = signed(alloc, units.nums.items())?;
    lowered(alloc, raw.items(), units.den as i64)
}

/// The name of a slot's column.
fn name_of(cuts: &[CutLine], slot: Slot) -> Result<MasterColumn, NoMemory>
    requires few { length cuts.now < 2 ^ 32 }
    requires links { IsSlotInside 256 (length cuts.now) slot }
    ensures { IfOk result (λ name. name ≡ slot_name cuts.now slot) }
{
    Ok(match slot {
        Slot::Slack(e) => MasterColumn::LinkSlack(LinkId(e as u32)),
        Slot::Cut(k) => {
            let cut = cut_of(cuts, k);
            MasterColumn::Metric(cut.state, cut.lengths.copy()?)
        }
    })
}

/// The names of the columns of a basis.
fn names_of(
    alloc: Global,
    cuts: &[CutLine],
    rows: &[KeptRow],
) -> Result<List<MasterColumn>, NoMemory>
    requires cuts { length cuts.now ≤ 8192 }
    requires few { length rows.now ≤ 256 }
    requires placed { ArePlacedRows (length cuts.now) rows.now (length rows.now) }
    ensures { IfOk result (AreNamesBelow cuts.now rows.now (length rows.now)) }
{
    let mut names = List::from_vec(Vec::with_capacity(alloc, rows.len())?);
    for j in 0..rows.len() {
        names.push(name_of(cuts, row_at(rows, j).slot)?)?;
    }
    Ok(names)
}

/// Whether there is a placed row for each link, whose rows are the inverse's, and the values fill the rows.
pub(crate) fn are_values(
    net: &Network,
    cuts: &[CutLine],
    pairs: &[UnitPair],
    rows: &[KeptRow],
    values: &Numbers,
) -> bool
    requires pairs { length pairs.now ≡ length net.now.links }
    requires counts { All (λ cut. length cut.lengths ≡ length net.now.links) cuts.now }
    ensures { IsTrue result → AreBasicValues (length net.now.links) pairs.now cuts.now rows.now values.now.nums values.now.den }
{
    let nums = values.nums.items();
    if rows.len() != net.links().len() || nums.len() != rows.len() {
        return false;
    }
    if values.den == 0 || values.den >= WIDE || !are_placed(rows, cuts.len()) {
        return false;
    }
    are_inverse(rows, cuts) && are_filled(rows, pairs, cuts, nums, values.den)
}

/// Whether prices aren't negative, price each column of the basis as it gains, and no cut gains more than it costs.
pub(crate) fn are_prices(
    net: &Network,
    cuts: &[CutLine],
    pairs: &[UnitPair],
    rows: &[KeptRow],
    duals: &Row,
) -> bool
    requires pairs { length pairs.now ≡ length net.now.links }
    requires counts { All (λ cut. length cut.lengths ≡ length net.now.links) cuts.now }
    requires right { All (λ cut. cut.right < 2 ^ 84) cuts.now }
    requires rows { length rows.now ≡ length net.now.links }
    requires placed { ArePlacedRows (length cuts.now) rows.now (length rows.now) }
    ensures { IsTrue result → AreBestPrices net.now.links pairs.now cuts.now rows.now duals.now }
{
    let links = net.links().items();
    let nums = duals.nums();
    if nums.len() != links.len() || first_negative(nums).is_some() {
        return false;
    }
    are_even(links, pairs, cuts, duals, rows) && none_gains(links, pairs, cuts, duals)
}

/// What turns end with: values over one denominator, one for each column of the basis, and the units of a share.
#[derive(Drop)]
pub(crate) struct Guess {
    pub(crate) values: Numbers,
    pub(crate) units: Numbers,
}

/// An optimum of the master program of the cuts, if what turns end with is one.
pub(crate) fn tested(
    alloc: Global,
    net: &Network,
    cuts: &List<CutLine>,
    pairs: &List<UnitPair>,
    rows: &[KeptRow],
    guess: Guess,
) -> Result<Option<Optimum<MasterColumn>>, NoMemory>
    requires few { length cuts.now ≤ 8192 }
    requires lengths { All (λ cut. HaveBound net.now.links cut.lengths) cuts.now }
    requires right { All (λ cut. cut.right < 2 ^ 84) cuts.now }
    requires units { AreUnitPairs net.now.links pairs.now }
    ensures { IfOk result (λ found. IfSome found (IsMasterOptimum net.now.links pairs.now cuts.now)) }
{
    let Guess { values, units } = guess;
    if !are_values(net, cuts.items(), pairs.items(), rows, &values) {
        return Ok(None);
    }
    let Some(duals) = prices_of(alloc, &units)? else {
        return Ok(None);
    };
    if !are_prices(net, cuts.items(), pairs.items(), rows, &duals) {
        return Ok(None);
    }
    let basis = names_of(alloc, cuts.items(), rows)?;
    Ok(Some(Optimum {
        basis,
        den: values.den as u64,
        values: values.nums,
        duals,
    }))
}
