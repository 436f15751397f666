ghost use Rattle.std.specs.Prelude.{◌≡◌, ◌*◌, ◌≤◌, ◌<◌, ◌^◌, ◌*ℤ◌, ◌≤ℤ◌, ℕ, All, IfSome, IsTrue, Some, pos, get_or, length, slice_index};
ghost use Rattle.checked_fraction.specs.Terms.{num};
ghost use Rattle.simplex_law.specs.Terms.{dot};
ghost use Rattle.master_law.specs.Terms.{cut_entry, cut_gain};
ghost use Rattle.master_bound.specs.Narrow.{length_entry};
ghost use Rattle.net_core.specs.Limits.{most_links};
ghost use Rattle.length_master.{specs.inner.Slots.{ArePlacedRows, IsSlotInside, slot_entry, slot_gain}, specs.inner.Tests.{AreEven, IsBalance, IsPriced, NoneGains, cut_cost}};

use crate::row::KeptRow;
use crate::slot::Slot;
use crate::tested_basis::{cut_of, number_at, row_at};
use checked_fraction::Row;
use master_bound::{entry_of, gain_of};
use module_prices::UnitPair;
use net_core::{CutLine, Link};

/// What a cut's entries cost at prices, and what its gain is worth over their denominator.
#[derive(Clone, Copy)]
pub struct Balance {
    pub cost: i128,
    pub worth: i128,
}

/// A number with a sign, where it fits.
fn signed(number: u128) -> Option<i128>
    ensures { IfSome result (λ s. s ≡ pos number) }
{
    if number < 1 << 126 {
        Some(number as i128)
    } else {
        None
    }
}

/// What the entry of lengths in the row of link `e` costs, where it fits.
fn step_of(nums: &[i64], pairs: &[UnitPair], lengths: &[u32], e: usize) -> Option<i128>
    requires nums { e < length nums.now }
    requires pairs { e < length pairs.now }
    requires lengths { e < length lengths.now }
    ensures { IfSome result (λ s. s ≡ num nums.now e *ℤ pos (length_entry pairs.now lengths.now e)) }
{
    (nums[e] as i128).checked_mul(signed(entry_of(pairs, lengths, e))?)
}

/// What lengths cost at prices, where it fits.
fn cost_of(nums: &[i64], pairs: &[UnitPair], lengths: &[u32]) -> Option<i128>
    requires pairs { length pairs.now ≡ length nums.now }
    requires lengths { length lengths.now ≡ length nums.now }
    ensures { IfSome result (λ c. c ≡ dot (length nums.now) (num nums.now) (λ e. pos (length_entry pairs.now lengths.now e))) }
{
    let mut sum = 0i128;
    for e in 0..nums.len() {
        sum = sum.checked_add(step_of(nums, pairs, lengths, e)?)?;
    }
    Some(sum)
}

/// What a gain is worth over a denominator, where it fits.
fn worth_of(den: i64, gain: i128) -> Option<i128>
    ensures { IfSome result (λ w. w ≡ den *ℤ gain) }
{
    (den as i128).checked_mul(gain)
}

/// The balance of a cut at prices, where its numbers fit.
fn balance_of(links: &[Link], pairs: &[UnitPair], duals: &Row, cut: &CutLine) -> Option<Balance>
    requires few { length links.now ≤ most_links }
    requires sound { All (λ l. l.fixed < 2 ^ 40) links.now }
    requires pairs { length pairs.now ≡ length links.now }
    requires duals { length duals.now.nums ≡ length links.now }
    requires count { length cut.now.lengths ≡ length links.now }
    requires right { cut.now.right < 2 ^ 84 }
    ensures { IfSome result (IsBalance links.now pairs.now duals.now cut.now) }
{
    Some(Balance {
        cost: cost_of(duals.nums(), pairs, cut.lengths.items())?,
        worth: worth_of(duals.den(), gain_of(links, cut))?,
    })
}

/// Whether a cut is priced as it gains.
fn is_even_cut(links: &[Link], pairs: &[UnitPair], duals: &Row, cut: &CutLine) -> bool
    requires few { length links.now ≤ most_links }
    requires sound { All (λ l. l.fixed < 2 ^ 40) links.now }
    requires pairs { length pairs.now ≡ length links.now }
    requires duals { length duals.now.nums ≡ length links.now }
    requires count { length cut.now.lengths ≡ length links.now }
    requires right { cut.now.right < 2 ^ 84 }
    ensures { IsTrue result → cut_cost pairs.now duals.now cut.now ≡ duals.now.den *ℤ cut_gain links.now cut.now }
{
    match balance_of(links, pairs, duals, cut) {
        Some(balance) => balance.cost == balance.worth,
        None => false,
    }
}

/// Whether a cut gains no more than it costs.
fn is_priced_cut(links: &[Link], pairs: &[UnitPair], duals: &Row, cut: &CutLine) -> bool
    requires few { length links.now ≤ most_links }
    requires sound { All (λ l. l.fixed < 2 ^ 40) links.now }
    requires pairs { length pairs.now ≡ length links.now }
    requires duals { length duals.now.nums ≡ length links.now }
    requires count { length cut.now.lengths ≡ length links.now }
    requires right { cut.now.right < 2 ^ 84 }
    ensures { IsTrue result → IsPriced links.now pairs.now duals.now cut.now }
{
    match balance_of(links, pairs, duals, cut) {
        Some(balance) => balance.worth <= balance.cost,
        None => false,
    }
}

/// Whether the price of a link is 0.
fn is_unpriced(nums: &[i64], e: usize) -> bool
    requires { e < length nums.now }
    ensures { IsTrue result → num nums.now e ≡ pos 0 }
{
    number_at(nums, e) == 0
}

/// Whether a slot's column is priced as it gains.
fn is_even(links: &[Link], pairs: &[UnitPair], cuts: &[CutLine], duals: &Row, slot: Slot) -> bool
    requires few { length links.now ≤ most_links }
    requires sound { All (λ l. l.fixed < 2 ^ 40) links.now }
    requires pairs { length pairs.now ≡ length links.now }
    requires duals { length duals.now.nums ≡ length links.now }
    requires counts { All (λ cut. length cut.lengths ≡ length links.now) cuts.now }
    requires right { All (λ cut. cut.right < 2 ^ 84) cuts.now }
    requires inside { IsSlotInside (length links.now) (length cuts.now) slot }
    ensures { IsTrue result → dot (length duals.now.nums) (num duals.now.nums) (slot_entry pairs.now cuts.now slot)
        ≡ duals.now.den *ℤ slot_gain links.now cuts.now slot }
{
    match slot {
        Slot::Slack(e) => is_unpriced(duals.nums(), e),
        Slot::Cut(k) => is_even_cut(links, pairs, duals, cut_of(cuts, k)),
    }
}

/// Whether each slot's column is priced as it gains.
pub(crate) fn are_even(
    links: &[Link],
    pairs: &[UnitPair],
    cuts: &[CutLine],
    duals: &Row,
    rows: &[KeptRow],
) -> bool
    requires few { length links.now ≤ most_links }
    requires sound { All (λ l. l.fixed < 2 ^ 40) links.now }
    requires pairs { length pairs.now ≡ length links.now }
    requires duals { length duals.now.nums ≡ length links.now }
    requires counts { All (λ cut. length cut.lengths ≡ length links.now) cuts.now }
    requires right { All (λ cut. cut.right < 2 ^ 84) cuts.now }
    requires rows { length rows.now ≡ length links.now }
    requires placed { ArePlacedRows (length cuts.now) rows.now (length rows.now) }
    ensures { IsTrue result → AreEven links.now pairs.now cuts.now rows.now duals.now (length rows.now) }
{
    for j in 0..rows.len() {
        if !is_even(links, pairs, cuts, duals, row_at(rows, j).slot) {
            return false;
        }
    }
    true
}

/// Whether no cut gains more than it costs.
pub(crate) fn none_gains(links: &[Link], pairs: &[UnitPair], cuts: &[CutLine], duals: &Row) -> bool
    requires few { length links.now ≤ most_links }
    requires sound { All (λ l. l.fixed < 2 ^ 40) links.now }
    requires pairs { length pairs.now ≡ length links.now }
    requires duals { length duals.now.nums ≡ length links.now }
    requires counts { All (λ cut. length cut.lengths ≡ length links.now) cuts.now }
    requires right { All (λ cut. cut.right < 2 ^ 84) cuts.now }
    ensures { IsTrue result → NoneGains links.now pairs.now cuts.now duals.now (length cuts.now) }
{
    for k in 0..cuts.len() {
        if !is_priced_cut(links, pairs, duals, cut_of(cuts, k)) {
            return false;
        }
    }
    true
}
