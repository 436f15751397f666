ghost use Rattle.std.specs.Prelude.{◌≡◌, ◌<◌, ◌+◌, length, get_or, slice_set, OnOk, OnErr, IfErr};
ghost use Rattle.checked_fraction.specs.Terms.{num};
ghost use Rattle.simplex_core.specs.Terms.{HavePivot, IsNarrowOver};
ghost use Rattle.key_rows.specs.Terms.{IsShapedBasis, IsRoom, owner_in};
ghost use Rattle.key_paths.specs.inner.Turning.{AreRowsTurned, IsWideTurn};

use key_rows::{Keyed, Room};
use net_core::{List, RouteColumn};
use simplex_core::{turn_list, turn_objective};

/// What is too wide of the next basis.
#[derive(Clone, Copy)]
pub(crate) enum WideTurn {
    /// The prices.
    Prices,
    /// This row of a link.
    Row(u32),
}

pub(crate) fn set_name(names: &mut List<RouteColumn>, place: usize, name: RouteColumn)
    requires { place < length names.old }
    ensures { names.new ≡ slice_set names.old place name }
{
    names.items_mut()[place] = name;
}

/// The demand of a column as the owner of a row; the number of demands means none.
fn owner_of(name: &RouteColumn, demands: u32) -> u32
    ensures { result ≡ owner_in demands name.now }
{
    match name {
        RouteColumn::Carry(demand, _) => *demand,
        RouteColumn::DemandSlack(demand) => *demand,
        RouteColumn::LinkSlack(_) => demands,
    }
}

fn set_owner(owners: &mut List<u32>, i: usize, owner: u32)
    requires { i < length owners.old }
    ensures { owners.new ≡ slice_set owners.old i owner }
{
    owners.items_mut()[i] = owner;
}

/// Makes rows and prices those of the next basis, in which the column has taken the place of that of row `i`.
pub(crate) fn turn_rows(
    keyed: &mut Keyed,
    room: &mut Room,
    name: RouteColumn,
    cost: &i128,
    i: usize,
) -> Result<(), WideTurn>
    requires shaped { IsShapedBasis (length keyed.old.rows) (length keyed.old.duals) keyed.old }
    requires room { IsRoom (length keyed.old.rows) room.old }
    requires pivot { HavePivot keyed.old.products (length keyed.old.rows) i }
    requires over { IsNarrowOver (num keyed.old.products i) cost.now }
    ensures room { OnOk result (IsRoom (length keyed.old.rows) room.new) }
    ensures turned { OnOk result (AreRowsTurned keyed.old name cost.now i keyed.new) }
    ensures names { OnErr result (keyed.new.names ≡ slice_set keyed.old.names (get_or keyed.old.places i 0) name) }
    ensures places { OnErr result (keyed.new.places ≡ keyed.old.places) }
    ensures wide { IfErr result (IsWideTurn keyed.old cost.now i) }
{
    let place = keyed.places.items()[i] as usize;
    let owner = owner_of(&name, keyed.duals.len() as u32);
    set_owner(&mut keyed.owners, i, owner);
    set_name(&mut keyed.names, place, name);
    if turn_objective(&mut keyed.prices, cost, &keyed.rows, &keyed.products, i).is_err() {
        return Err(WideTurn::Prices);
    }
    match turn_list(&mut keyed.rows, &keyed.products, &mut room.spare, i) {
        Ok(()) => Ok(()),
        Err(k) => Err(WideTurn::Row(k)),
    }
}
