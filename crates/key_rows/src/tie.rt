ghost use Rattle.std.specs.Prelude.{◌≡◌, ◌≢◌, ◌<◌, ◌≤◌, ◌+◌, ◌^◌, ◌+ℤ◌, ◌*ℤ◌, ◌<ℤ◌, ◌≤ℤ◌, ◌⊎◌, ℕ, pos, length, unsigned_abs, OnOk, IfOk, IfErr};
ghost use Rattle.checked_fraction.specs.Terms.{num, IsNarrow};
ghost use Rattle.simplex_law.specs.Terms.{dot, unit_vector};
ghost use Rattle.key_rows.{specs.Bases.{IsShapedBasis, IsRoom}, specs.KeyTests.{IsKeyRow, IsWideSpread}, specs.Names.{left_uses, own_entry, IsNameWithin, IsShortPath}, specs.inner.Entrants.IsEntrant, specs.inner.Candidates.{IsKeyCandidate, IsLowered, IsWideRowTest, DecidesTie, wide_test_of}};

use crate::entrant::Entrant;
use crate::key_row::{WideKey, spread_key};
use crate::keyed::{Keyed, Room};
use crate::order::{Candidate, tie_first};
use crate::ratio_test::WideTest;
use crate::sums::column_product;
use checked_fraction::{Row, product};
use net_core::{LinkId, RouteColumn};
use std::mem;

/// `a + b` of a product with a column and a denominator.
fn plus(a: &i128, b: &i128) -> i128
    requires a { unsigned_abs a.now ≤ 2 ^ 71 }
    requires b { unsigned_abs b.now < 2 ^ 124 }
    ensures { result ≡ a.now +ℤ b.now }
{
    *a + *b
}

/// The product of a key's row with a column, of which what is left without the path `key` and its entry `own` in the key's demand count.
fn key_product(row: &Row, name: &RouteColumn, key: &[LinkId], own: &i64) -> i128
    requires name { IsNameWithin (length row.now.nums) name.now }
    requires key { IsShortPath (length row.now.nums) key.now }
    requires own { IsNarrow own.now }
    ensures { result ≡ dot (length row.now.nums) (num row.now.nums) (left_uses name.now key.now) +ℤ row.now.den *ℤ own.now }
{
    plus(
        &column_product(row.nums(), name, key),
        &product(&row.den(), own),
    )
}

/// Writes the row of a demand's key to the room for a row, and gives its product with a column.
fn key_step(
    keyed: &Keyed,
    room: &mut Room,
    name: &RouteColumn,
    key: &[LinkId],
    own: &i64,
    demand: u32,
) -> Result<i128, WideKey>
    requires shaped { IsShapedBasis (length keyed.now.rows) (length keyed.now.duals) keyed.now }
    requires room { IsRoom (length keyed.now.rows) room.old }
    requires name { IsNameWithin (length keyed.now.rows) name.now }
    requires key { IsShortPath (length keyed.now.rows) key.now }
    requires own { IsNarrow own.now }
    ensures room { IsRoom (length keyed.now.rows) room.new }
    ensures other { room.new.other ≡ room.old.other }
    ensures row { OnOk result (IsKeyRow keyed.now demand room.new.spare) }
    ensures step { IfOk result (λ p. p ≡ dot (length keyed.now.rows) (num room.new.spare.nums) (left_uses name.now key.now) +ℤ room.new.spare.den *ℤ own.now) }
    ensures wide { IfErr result (IsWideSpread keyed.now demand) }
{
    spread_key(keyed, room, demand)?;
    Ok(key_product(&room.spare, name, key, own))
}

fn unit_of(a: u32, b: u32) -> i64
    ensures value { result ≡ unit_vector a b }
    ensures narrow { IsNarrow result }
{
    if a == b { 1 } else { 0 }
}

/// The entry of a column in the row of a demand.
pub(crate) fn own_of(name: &RouteColumn, demand: u32) -> i64
    ensures value { result ≡ own_entry name.now demand }
    ensures narrow { IsNarrow result }
{
    match name {
        RouteColumn::Carry(own, _) => unit_of(*own, demand),
        RouteColumn::DemandSlack(own) => unit_of(*own, demand),
        RouteColumn::LinkSlack(_) => 0,
    }
}

/// What is too wide of the row of the key in this role.
fn wide_key(wide: &WideKey, role: u32) -> WideTest
    ensures { result ≡ wide_test_of wide.now role }
{
    match wide {
        WideKey::Common => WideTest::Common,
        WideKey::Row => WideTest::Row(role),
    }
}

/// What is too wide of the row of the key in this role, which may leave: its product is positive.
fn positive_step(
    entrant: &Entrant,
    room: &mut Room,
    x: &Candidate,
    demand: u32,
) -> Result<i128, WideTest>
    requires entrant { IsEntrant entrant.now }
    requires room { IsRoom (length entrant.now.keyed.now.rows) room.old }
    requires candidate { IsKeyCandidate entrant.now.keyed.now demand (own_entry entrant.now.name.now demand) x.now }
    ensures room { IsRoom (length entrant.now.keyed.now.rows) room.new }
    ensures other { room.new.other ≡ room.old.other }
    ensures positive { IfOk result (λ p. pos 0 <ℤ p) }
    ensures lowered { IfOk result (IsLowered entrant.now.keyed.now entrant.now.name.now entrant.now.key.now x.now room.new.spare.nums) }
    ensures wide { IfErr result (IsWideRowTest entrant.now.keyed.now demand x.now.role) }
{
    let own = own_of(entrant.name, demand);
    match key_step(entrant.keyed, room, entrant.name, entrant.key, &own, demand) {
        Ok(step) => Ok(step),
        Err(wide) => Err(wide_key(&wide, x.role)),
    }
}

/// Whether a key comes before the best row so far, where their values tie.
pub(crate) fn tie_with_row(
    entrant: &Entrant,
    room: &mut Room,
    x: &Candidate,
    demand: u32,
    best: &Candidate,
) -> Result<bool, WideTest>
    requires entrant { IsEntrant entrant.now }
    requires room { IsRoom (length entrant.now.keyed.now.rows) room.old }
    requires candidate { IsKeyCandidate entrant.now.keyed.now demand (own_entry entrant.now.name.now demand) x.now }
    requires best { (best.now.role < length entrant.now.keyed.now.rows) × (pos 0 <ℤ best.now.product) }
    ensures room { IsRoom (length entrant.now.keyed.now.rows) room.new }
    ensures tie { IfOk result (DecidesTie entrant.now.keyed.now entrant.now.name.now entrant.now.key.now x.now best.now) }
    ensures wide { IfErr result (IsWideRowTest entrant.now.keyed.now demand x.now.role) }
{
    let product = positive_step(entrant, room, x, demand)?;
    Ok(tie_first(
        x.role,
        room.spare.nums(),
        &product,
        best.role,
        entrant.keyed.rows.items()[best.role as usize].nums(),
        &best.product,
    ))
}

/// Whether a key comes before the best so far, where their values tie and that is the key of another demand.
pub(crate) fn tie_with_key(
    entrant: &Entrant,
    room: &mut Room,
    x: &Candidate,
    demand: u32,
    best: &Candidate,
    other: u32,
) -> Result<bool, WideTest>
    requires entrant { IsEntrant entrant.now }
    requires room { IsRoom (length entrant.now.keyed.now.rows) room.old }
    requires candidate { IsKeyCandidate entrant.now.keyed.now demand (own_entry entrant.now.name.now demand) x.now }
    requires best { IsKeyCandidate entrant.now.keyed.now other (own_entry entrant.now.name.now other) best.now }
    requires apart { demand ≢ other }
    ensures room { IsRoom (length entrant.now.keyed.now.rows) room.new }
    ensures tie { IfOk result (DecidesTie entrant.now.keyed.now entrant.now.name.now entrant.now.key.now x.now best.now) }
    ensures wide { IfErr result (λ w. IsWideRowTest entrant.now.keyed.now demand x.now.role w ⊎ IsWideRowTest entrant.now.keyed.now other best.now.role w) }
{
    let there = positive_step(entrant, room, best, other)?;
    mem::swap(&mut room.spare, &mut room.other);
    let here = positive_step(entrant, room, x, demand)?;
    Ok(tie_first(
        x.role,
        room.spare.nums(),
        &here,
        best.role,
        room.other.nums(),
        &there,
    ))
}
