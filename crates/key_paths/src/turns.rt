ghost use Rattle.std.specs.Prelude.{◌≡◌, ◌<◌, ◌≤◌, ◌^◌, ℕ, length};
ghost use Rattle.checked_fraction.specs.Terms.{num};
ghost use Rattle.simplex_core.specs.Terms.{HavePivot, IsNarrowOver};
ghost use Rattle.key_rows.specs.Terms.{IsRoom};
ghost use Rattle.key_paths.{specs.inner.Held.HasPriced, specs.inner.Outcomes.{wide_place, IsProductPlace, TurnsAt}, specs.declared.turn_rows.WideTurn.{WideTurn as Found}};

use crate::turn_rows::{WideTurn, turn_rows};
use key_rows::{Keyed, Room, renew_dual_list, renew_value_list};
use net_core::{RouteColumn, WideKind};
use simplex_core::wide_product;

/// What a turn leaves.
#[derive(Drop)]
pub(crate) enum Turn {
    /// The next basis.
    Again,
    /// A column that no row limits.
    Unbounded,
    /// A basis with a number that is too wide.
    Wide(WideKind<RouteColumn>),
}

/// What is too wide of the next basis, by places.
fn wide_turn(keyed: &Keyed, wide: WideTurn) -> WideKind<RouteColumn>
    requires names { length keyed.now.names < 2 ^ 32 }
    requires row { (i : ℕ) → wide ≡ Found.Row i → i < length keyed.now.places }
    ensures { result ≡ wide_place keyed.now wide }
{
    match wide {
        WideTurn::Prices => WideKind::Row(keyed.names.len() as u32),
        WideTurn::Row(i) => WideKind::Row(keyed.places.items()[i as usize]),
    }
}

/// The column, whose products are known, takes the place of that of row `i`.
fn replace(keyed: &mut Keyed, room: &mut Room, name: RouteColumn, cost: &i128, i: usize) -> Turn
    requires enters { HasPriced (length keyed.old.rows) (length keyed.old.duals) keyed.old name cost.now i }
    requires room { IsRoom (length keyed.old.rows) room.old }
    requires pivot { HavePivot keyed.old.products (length keyed.old.rows) i }
    requires over { IsNarrowOver (num keyed.old.products i) cost.now }
    ensures room { result ≡ Turn.Again → IsRoom (length keyed.old.rows) room.new }
    ensures turned { TurnsAt (length keyed.old.rows) (length keyed.old.duals) keyed.old name cost.now i result keyed.new }
{
    if let Err(wide) = turn_rows(keyed, room, name, cost, i) {
        return Turn::Wide(wide_turn(keyed, wide));
    }
    renew_value_list(
        &mut keyed.values,
        keyed.rows.items(),
        keyed.products.items(),
        keyed.rest.items(),
    );
    let links = keyed.rows.len();
    let narrow = renew_dual_list(
        &mut keyed.duals,
        keyed.names.items(),
        keyed.places.items(),
        &keyed.prices,
        links,
    );
    if narrow {
        Turn::Again
    } else {
        Turn::Wide(WideKind::Row(keyed.names.len() as u32))
    }
}

/// The place of the row with this number among the products: one of the rows of links, or the objective row.
fn product_place(places: &[u32], links: usize, k: u32) -> u32
    requires inside { k ≤ links }
    requires links { links ≤ length places.now }
    requires short { length places.now < 2 ^ 32 }
    ensures { IsProductPlace places.now links k result }
{
    if (k as usize) < links {
        places[k as usize]
    } else {
        places.len() as u32
    }
}

/// A column of this cost, whose products are known, enters at row `i`, unless a product stays wide when it is divided.
pub(crate) fn turn_row(
    keyed: &mut Keyed,
    room: &mut Room,
    name: RouteColumn,
    cost: &i128,
    i: usize,
) -> Turn
    requires enters { HasPriced (length keyed.old.rows) (length keyed.old.duals) keyed.old name cost.now i }
    requires inside { i < length keyed.old.rows }
    requires room { IsRoom (length keyed.old.rows) room.old }
    ensures room { result ≡ Turn.Again → IsRoom (length keyed.old.rows) room.new }
    ensures turned { TurnsAt (length keyed.old.rows) (length keyed.old.duals) keyed.old name cost.now i result keyed.new }
{
    match wide_product(keyed.products.items(), cost, i) {
        Some(k) => {
            let links = keyed.rows.len();
            let place = product_place(keyed.places.items(), links, k);
            Turn::Wide(WideKind::Product(place, name))
        }
        None => replace(keyed, room, name, cost, i),
    }
}
