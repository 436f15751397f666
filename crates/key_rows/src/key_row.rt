ghost use Rattle.std.specs.Prelude.{◌≡◌, ◌<◌, ◌≤◌, ◌+◌, ◌^◌, ◌+ℤ◌, ◌-ℤ◌, ◌*ℤ◌, ◌<ℤ◌, ◌≤ℤ◌, ℕ, pos, length, unsigned_abs, get_or, false, IsTrue, OnOk, IfErr};
ghost use Rattle.checked_fraction.specs.Terms.{num, IsNarrow, IsReduced, total, IsExact, HasRoom};
ghost use Rattle.simplex_law.specs.Terms.{unit_vector};
ghost use Rattle.simplex_core.specs.Terms.{nums_at, IsRectangle};
ghost use Rattle.key_rows.{specs.Bases.{IsShapedBasis, IsRoom}, specs.KeyRows.{times_taken, less_rows, HasWide, IsWideKey}, specs.KeyTests.{IsKeyRow, IsWideSpread}, specs.inner.Written.AreRaw};

use crate::keyed::{Keyed, Room};
use crate::weights::weigh;
use checked_fraction::{Row, Sum, lower};
use net_core::List;

/// Takes a row's number times its weight away, if the row is one of the demand.
fn take_row(sum: &mut Sum, row: &Row, owner: u32, weight: &i64, demand: u32, k: usize)
    requires room { HasRoom sum.old }
    requires inside { k < length row.now.nums }
    requires weight { IsNarrow weight.now }
    ensures total { total sum.new ≡ total sum.old -ℤ ((unit_vector owner demand *ℤ weight.now) *ℤ num row.now.nums k) }
    ensures high { unsigned_abs sum.new.high ≤ unsigned_abs sum.old.high + 2 ^ 62 }
    ensures low { sum.new.low ≤ sum.old.low + 2 ^ 62 }
{
    if owner == demand {
        sum.subtract(weight, &row.nums()[k]);
    }
}

/// Number `k` of a key's row before it is in lowest terms, where it is below 2^124.
fn raw_at(rows: &[Row], owners: &[u32], weights: &[i64], demand: u32, k: usize) -> Option<i128>
    requires short { length rows.now < 2 ^ 32 }
    requires rectangle { IsRectangle (length rows.now) rows.now }
    requires inside { k < length rows.now }
    requires owners { length owners.now ≡ length rows.now }
    requires count { length weights.now ≡ length rows.now }
    requires weights { (i : ℕ) → IsNarrow (num weights.now i) }
    ensures { IsExact (less_rows rows.now owners.now weights.now demand (length rows.now) k) result }
{
    let mut sum = Sum::new();
    for i in 0..rows.len() {
        take_row(&mut sum, &rows[i], owners[i], &weights[i], demand, k);
    }
    sum.within()
}

/// Writes the numbers of a key's row before it is in lowest terms, unless one is 2^124 or more.
fn write_raw(raw: &mut [i128], rows: &[Row], owners: &[u32], weights: &[i64], demand: u32) -> bool
    requires short { length rows.now < 2 ^ 32 }
    requires rectangle { IsRectangle (length rows.now) rows.now }
    requires room { length raw.old ≡ length rows.now }
    requires owners { length owners.now ≡ length rows.now }
    requires count { length weights.now ≡ length rows.now }
    requires weights { (i : ℕ) → IsNarrow (num weights.now i) }
    ensures room { length raw.new ≡ length raw.old }
    ensures all { IsTrue result → AreRaw (less_rows rows.now owners.now weights.now demand (length rows.now)) (length rows.now) raw.new }
    ensures wide { result ≡ false → HasWide (less_rows rows.now owners.now weights.now demand (length rows.now)) (length rows.now) }
{
    for k in 0..rows.len() {
        match raw_at(rows, owners, weights, demand, k) {
            Some(number) => raw[k] = number,
            None => return false,
        }
    }
    true
}

/// Writes the numbers of a key's row to a list before it is in lowest terms, unless one is 2^124 or more.
fn write_raw_list(
    raw: &mut List<i128>,
    rows: &[Row],
    owners: &[u32],
    weights: &[i64],
    demand: u32,
) -> bool
    requires short { length rows.now < 2 ^ 32 }
    requires rectangle { IsRectangle (length rows.now) rows.now }
    requires room { length raw.old ≡ length rows.now }
    requires owners { length owners.now ≡ length rows.now }
    requires count { length weights.now ≡ length rows.now }
    requires weights { (i : ℕ) → IsNarrow (num weights.now i) }
    ensures room { length raw.new ≡ length raw.old }
    ensures all { IsTrue result → AreRaw (less_rows rows.now owners.now weights.now demand (length rows.now)) (length rows.now) raw.new }
    ensures wide { result ≡ false → HasWide (less_rows rows.now owners.now weights.now demand (length rows.now)) (length rows.now) }
{
    write_raw(raw.items_mut(), rows, owners, weights, demand)
}

/// Makes `row` that of a demand's key in lowest terms, unless that is too wide. The weights bring the demand's rows over `all`.
fn key_row(
    row: &mut Row,
    raw: &mut List<i128>,
    rows: &[Row],
    owners: &[u32],
    weights: &[i64],
    demand: u32,
    all: &i64,
) -> bool
    requires short { length rows.now < 2 ^ 32 }
    requires rectangle { IsRectangle (length rows.now) rows.now }
    requires row { length row.old.nums ≡ length rows.now }
    requires room { length raw.old ≡ length rows.now }
    requires owners { length owners.now ≡ length rows.now }
    requires count { length weights.now ≡ length rows.now }
    requires weights { (i : ℕ) → IsNarrow (num weights.now i) }
    requires narrow { IsNarrow all.now }
    requires positive { pos 0 <ℤ all.now }
    ensures length { length row.new.nums ≡ length row.old.nums }
    ensures room { length raw.new ≡ length raw.old }
    ensures done { IsTrue result → IsReduced (length rows.now) (less_rows rows.now owners.now weights.now demand (length rows.now))
        all.now (num row.new.nums) row.new.den }
    ensures wide { result ≡ false → IsWideKey (less_rows rows.now owners.now weights.now demand (length rows.now)) (length rows.now) all.now }
{
    if !write_raw_list(raw, rows, owners, weights, demand) {
        return false;
    }
    lower(row, raw.items(), all).is_ok()
}

/// What is too wide of a key's row.
#[derive(Clone, Copy)]
pub enum WideKey {
    /// The common denominator of the rows of the demand.
    Common,
    /// The row itself.
    Row,
}

/// Writes the row of a demand's key to the room for a row.
/// It takes time in the rows that have a product with the key times their numbers, and asks for no memory.
pub fn spread_key(keyed: &Keyed, room: &mut Room, demand: u32) -> Result<(), WideKey>
    requires shaped { IsShapedBasis (length keyed.now.rows) (length keyed.now.duals) keyed.now }
    requires room { IsRoom (length keyed.now.rows) room.old }
    ensures room { IsRoom (length keyed.now.rows) room.new }
    ensures other { room.new.other ≡ room.old.other }
    ensures row { OnOk result (IsKeyRow keyed.now demand room.new.spare) }
    ensures wide { IfErr result (IsWideSpread keyed.now demand) }
{
    let rows = keyed.rows.items();
    let owners = keyed.owners.items();
    let Some(all) = weigh(rows, owners, demand, &mut room.weights) else {
        return Err(WideKey::Common);
    };
    let done = key_row(
        &mut room.spare,
        &mut room.raw,
        rows,
        owners,
        room.weights.items(),
        demand,
        &all,
    );
    if done { Ok(()) } else { Err(WideKey::Row) }
}
