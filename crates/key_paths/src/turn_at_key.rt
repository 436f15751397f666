ghost use Rattle.std.specs.Prelude.{◌≡◌, ◌<◌, ◌+◌, ◌^◌, ℕ, ℤ, length, Some};
ghost use Rattle.plan_terms.specs.Terms.{RouteColumn as Name};
ghost use Rattle.simplex_law.specs.Terms.{ColumnOf};
ghost use Rattle.key_rows.specs.Terms.{IsRoom, IsOwn, demand_in};
ghost use Rattle.key_paths.{specs.inner.Held.{IsEntering, HasEntering, HasPriced, IsAlone}, specs.inner.Outcomes.{wide_spread, ComesOf, TurnsAt}};

use crate::change_key::change_key;
use crate::exchange::row_of;
use crate::turn_key::turn_key;
use crate::turns::{Turn, turn_row};
use key_rows::{Keyed, Room, WideKey};
use net_core::{RouteColumn, WideKind};

/// The column takes the place of the key of its demand, which has no other column in the basis.
fn turn_alone(keyed: &mut Keyed, name: RouteColumn, demand: u32) -> Turn
    requires enters { HasEntering (length keyed.old.rows) (length keyed.old.duals) keyed.old name (length keyed.old.rows + demand) }
    requires own { demand_in name ≡ Some demand }
    requires alone { IsAlone keyed.old.owners (length keyed.old.rows) demand }
    ensures { (bound : ℕ → ℤ) (basis : ℕ → ColumnOf Name) (place role : ℕ → ℕ) (c : ColumnOf Name)
        → IsEntering (length keyed.old.rows) (length keyed.old.duals) bound basis place role keyed.old name c (length keyed.old.rows + demand)
        → ComesOf (length keyed.old.rows) (length keyed.old.duals) c bound basis (place (length keyed.old.rows + demand)) result keyed.new }
{
    match turn_key(keyed, name, demand) {
        Ok(()) => Turn::Again,
        Err(row) => Turn::Wide(WideKind::Row(row)),
    }
}

/// What is too wide of the row of a demand's key, by its place.
fn wide_key(keyed: &Keyed, wide: WideKey, demand: u32) -> WideKind<RouteColumn>
    requires role { length keyed.now.rows + demand < length keyed.now.places }
    requires short { length keyed.now.places < 2 ^ 32 }
    ensures { result ≡ wide_spread keyed.now demand wide }
{
    match wide {
        WideKey::Common => WideKind::Common,
        WideKey::Row => {
            let role = keyed.rows.len() + demand as usize;
            WideKind::Row(keyed.places.items()[role])
        }
    }
}

/// The key of a demand leaves, after the column of row `i`, which is one of the demand, has become key.
fn turn_changed(
    keyed: &mut Keyed,
    room: &mut Room,
    name: RouteColumn,
    cost: &i128,
    i: usize,
    demand: u32,
) -> Turn
    requires enters { HasPriced (length keyed.old.rows) (length keyed.old.duals) keyed.old name cost.now (length keyed.old.rows + demand) }
    requires inside { i < length keyed.old.rows }
    requires own { IsOwn keyed.old.owners demand i }
    requires room { IsRoom (length keyed.old.rows) room.old }
    ensures room { result ≡ Turn.Again → IsRoom (length keyed.old.rows) room.new }
    ensures turned { TurnsAt (length keyed.old.rows) (length keyed.old.duals) keyed.old name cost.now (length keyed.old.rows + demand) result keyed.new }
{
    match change_key(keyed, room, &name, i, demand) {
        Ok(()) => turn_row(keyed, room, name, cost, i),
        Err(wide) => Turn::Wide(wide_key(keyed, wide, demand)),
    }
}

/// The key of a demand leaves: the entering column is the next key, where the demand has no other, and else another
/// of its columns becomes key first.
pub(crate) fn turn_at_key(
    keyed: &mut Keyed,
    room: &mut Room,
    name: RouteColumn,
    cost: &i128,
    demand: u32,
) -> Turn
    requires enters { HasPriced (length keyed.old.rows) (length keyed.old.duals) keyed.old name cost.now (length keyed.old.rows + demand) }
    requires room { IsRoom (length keyed.old.rows) room.old }
    ensures room { result ≡ Turn.Again → IsRoom (length keyed.old.rows) room.new }
    ensures turned { TurnsAt (length keyed.old.rows) (length keyed.old.duals) keyed.old name cost.now (length keyed.old.rows + demand) result keyed.new }
{
    match row_of(keyed.owners.items(), demand) {
        None => turn_alone(keyed, name, demand),
        Some(i) => turn_changed(keyed, room, name, cost, i, demand),
    }
}
