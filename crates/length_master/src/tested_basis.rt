ghost use Rattle.std.specs.Prelude.{◌≡◌, ◌*◌, ◌≤◌, ◌<◌, ◌^◌, ◌*ℤ◌, ◌≤ℤ◌, ℕ, All, IfSome, IsTrue, Some, pos, get_or, length, slice_index};
ghost use Rattle.checked_fraction.specs.Terms.{num};
ghost use Rattle.plan_terms.specs.Terms.{CutLine};
ghost use Rattle.simplex_law.specs.Terms.{dot, unit_vector};
ghost use Rattle.master_law.specs.Terms.{cut_entry, cut_gain, unit_capacities};
ghost use Rattle.master_bound.specs.Answers.{cut_at};
ghost use Rattle.length_master.{specs.inner.Slots.{ArePlacedRows, IsPlacedRow, IsSlotInside, row_at as row_of, slot_entry, slot_gain, slot_lengths}, specs.inner.Tests.{AreFilled, AreInverse, IsInverseAt, filled_below}};

use crate::row::KeptRow;
use crate::slot::Slot;
use master_bound::entry_of;
use module_prices::UnitPair;
use net_core::CutLine;

/// The row at a place.
pub(crate) fn row_at(rows: &[KeptRow], i: usize) -> &KeptRow
    requires { i < length rows.now }
    ensures { result.now ≡ row_of rows.now i }
{
    &rows[i]
}

/// The cut at a place.
pub(crate) fn cut_of(cuts: &[CutLine], k: usize) -> &CutLine
    requires { k < length cuts.now }
    ensures { result.now ≡ cut_at cuts.now k }
{
    &cuts[k]
}

/// Whether a slot is one of a link or of a cut.
fn is_inside(slot: Slot, links: usize, cuts: usize) -> bool
    ensures { IsTrue result → IsSlotInside links cuts slot }
{
    match slot {
        Slot::Slack(e) => e < links,
        Slot::Cut(k) => k < cuts,
    }
}

/// Whether a row has a number for each link over a positive denominator, and a slot that is there.
fn is_placed(row: &KeptRow, links: usize, cuts: usize) -> bool
    ensures { IsTrue result → IsPlacedRow links cuts row.now }
{
    row.nums.len() == links && row.den > 0 && is_inside(row.slot, links, cuts)
}

/// Whether all rows are placed, each with as many numbers as there are rows.
pub(crate) fn are_placed(rows: &[KeptRow], cuts: usize) -> bool
    ensures { IsTrue result → ArePlacedRows cuts rows.now (length rows.now) }
{
    for i in 0..rows.len() {
        if !is_placed(row_at(rows, i), rows.len(), cuts) {
            return false;
        }
    }
    true
}

/// Whether a number was found, and is the one that is wanted.
fn is_number(found: Option<i128>, wanted: i128) -> bool
    ensures { IsTrue result → found ≡ Some wanted }
{
    match found {
        Some(number) => number == wanted,
        None => false,
    }
}

/// A number of a row.
pub(crate) fn number_at(nums: &[i64], e: usize) -> i128
    requires { e < length nums.now }
    ensures { result ≡ num nums.now e }
{
    nums[e] as i128
}

/// The product of a number of a row with the length of link `e`, where it fits.
fn length_step(nums: &[i64], lengths: &[u32], e: usize) -> Option<i128>
    requires nums { e < length nums.now }
    requires lengths { e < length lengths.now }
    ensures { IfSome result (λ s. s ≡ num nums.now e *ℤ pos (slice_index lengths.now e)) }
{
    (nums[e] as i128).checked_mul(lengths[e] as i128)
}

/// The product of a row's numbers with lengths, where it fits.
fn length_product(nums: &[i64], lengths: &[u32]) -> Option<i128>
    requires { length nums.now ≡ length lengths.now }
    ensures { IfSome result (λ p. p ≡ dot (length lengths.now) (num nums.now) (λ k. pos (slice_index lengths.now k))) }
{
    let mut sum = 0i128;
    for e in 0..lengths.len() {
        sum = sum.checked_add(length_step(nums, lengths, e)?)?;
    }
    Some(sum)
}

/// The product of a row's numbers with what a slot takes of the rows over lengths, where it fits.
fn product_with(nums: &[i64], cuts: &[CutLine], slot: Slot) -> Option<i128>
    requires inside { IsSlotInside (length nums.now) (length cuts.now) slot }
    requires counts { All (λ cut. length cut.lengths ≡ length nums.now) cuts.now }
    ensures { IfSome result (λ p. p ≡ dot (length nums.now) (num nums.now) (slot_lengths cuts.now slot)) }
{
    match slot {
        Slot::Slack(e) => Some(number_at(nums, e)),
        Slot::Cut(k) => length_product(nums, cut_of(cuts, k).lengths.items()),
    }
}

/// A denominator at its own place, and 0 elsewhere.
fn unit_times(den: i64, i: usize, j: usize) -> i128
    ensures { result ≡ den *ℤ unit_vector i j }
{
    if i == j { den as i128 } else { 0 }
}

/// Whether the products of row `i` with all slots are those of a row of the inverse.
fn is_inverse_row(rows: &[KeptRow], cuts: &[CutLine], row: &KeptRow, i: usize) -> bool
    requires placed { ArePlacedRows (length cuts.now) rows.now (length rows.now) }
    requires count { length row.now.nums ≡ length rows.now }
    requires counts { All (λ cut. length cut.lengths ≡ length rows.now) cuts.now }
    ensures { IsTrue result → IsInverseAt cuts.now rows.now row.now i (length rows.now) }
{
    for j in 0..rows.len() {
        let product = product_with(row.nums.items(), cuts, row_at(rows, j).slot);
        if !is_number(product, unit_times(row.den, i, j)) {
            return false;
        }
    }
    true
}

/// Whether the rows are those of the inverse of their slots' columns over lengths.
pub(crate) fn are_inverse(rows: &[KeptRow], cuts: &[CutLine]) -> bool
    requires placed { ArePlacedRows (length cuts.now) rows.now (length rows.now) }
    requires counts { All (λ cut. length cut.lengths ≡ length rows.now) cuts.now }
    ensures { IsTrue result → AreInverse cuts.now rows.now (length rows.now) }
{
    for i in 0..rows.len() {
        if !is_inverse_row(rows, cuts, row_at(rows, i), i) {
            return false;
        }
    }
    true
}

/// What an amount of a slot takes of the row of link `e`, where it fits.
fn taken_of(
    pairs: &[UnitPair],
    cuts: &[CutLine],
    slot: Slot,
    amount: u128,
    e: usize,
) -> Option<u128>
    requires pairs { e < length pairs.now }
    requires inside { IsSlotInside (length pairs.now) (length cuts.now) slot }
    requires counts { All (λ cut. length cut.lengths ≡ length pairs.now) cuts.now }
    ensures { IfSome result (λ t. pos t ≡ pos amount *ℤ slot_entry pairs.now cuts.now slot e) }
{
    match slot {
        Slot::Slack(f) => Some(if f == e { amount } else { 0 }),
        Slot::Cut(k) => amount.checked_mul(entry_of(pairs, cut_of(cuts, k).lengths.items(), e)),
    }
}

/// What the values take of the row of link `e`, where it fits.
fn filled_at(
    rows: &[KeptRow],
    pairs: &[UnitPair],
    cuts: &[CutLine],
    values: &[u128],
    e: usize,
) -> Option<u128>
    requires placed { ArePlacedRows (length cuts.now) rows.now (length rows.now) }
    requires pairs { length pairs.now ≡ length rows.now }
    requires inside { e < length pairs.now }
    requires values { length values.now ≡ length rows.now }
    requires counts { All (λ cut. length cut.lengths ≡ length rows.now) cuts.now }
    ensures { IfSome result (λ t. pos t ≡ filled_below pairs.now cuts.now rows.now values.now e (length rows.now)) }
{
    let mut sum = 0u128;
    for j in 0..rows.len() {
        let step = taken_of(pairs, cuts, row_at(rows, j).slot, values[j], e)?;
        sum = sum.checked_add(step)?;
    }
    Some(sum)
}

/// Whether an amount was found, and is a unit's cost over the denominator.
fn is_cost(found: Option<u128>, den: u128, pair: &UnitPair) -> bool
    ensures { IsTrue result → found ≡ Some (den * pair.now.cost) }
{
    match found {
        Some(amount) => den.checked_mul(pair.cost as u128) == Some(amount),
        None => false,
    }
}

/// Whether values over a denominator fill each row.
pub(crate) fn are_filled(
    rows: &[KeptRow],
    pairs: &[UnitPair],
    cuts: &[CutLine],
    values: &[u128],
    den: u128,
) -> bool
    requires placed { ArePlacedRows (length cuts.now) rows.now (length rows.now) }
    requires pairs { length pairs.now ≡ length rows.now }
    requires values { length values.now ≡ length rows.now }
    requires counts { All (λ cut. length cut.lengths ≡ length rows.now) cuts.now }
    ensures { IsTrue result → AreFilled pairs.now cuts.now rows.now values.now den (length pairs.now) }
{
    for e in 0..pairs.len() {
        if !is_cost(filled_at(rows, pairs, cuts, values, e), den, &pairs[e]) {
            return false;
        }
    }
    true
}
