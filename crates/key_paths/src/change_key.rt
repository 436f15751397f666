ghost use Rattle.std.{specs.Prelude.{◌≡◌, ◌≢◌, ◌<◌, ◌≤◌, ◌+◌, ◌^◌, ◌≤ℤ◌, ℕ, ℤ, pos, length, get_or, slice_set, unsigned_abs, OnOk, OnErr, IfErr}, specs.Option.ForSome};
ghost use Rattle.checked_fraction.specs.Terms.{num};
ghost use Rattle.plan_terms.specs.Terms.{RouteColumn as Name};
ghost use Rattle.simplex_law.specs.Terms.{dot, ColumnOf};
ghost use Rattle.simplex_core.specs.Terms.{nums_at};
ghost use Rattle.key_law.specs.Terms.{swap};
ghost use Rattle.key_rows.specs.Terms.{IsShapedBasis, IsRoom, amounts, IsOwn, IsWideSpread, demand_in, key_links, left_uses, HasKey, IsNameWithin, IsShortPath};
ghost use Rattle.key_paths.{specs.inner.Held.{IsEntering, HasEntering}, specs.inner.Turning.with_numbers};

use crate::exchange::swap_roles;
use key_rows::{Keyed, Room, WideKey, column_product, demand_of, key_path, worth};
use net_core::{List, RouteColumn};

fn set_value(values: &mut List<u128>, i: usize, value: u128)
    requires { i < length values.old }
    ensures { values.new ≡ slice_set values.old i value }
{
    values.items_mut()[i] = value;
}

fn set_product(products: &mut List<i128>, i: usize, product: &i128)
    requires { i < length products.old }
    ensures { products.new ≡ slice_set products.old i product.now }
{
    products.items_mut()[i] = *product;
}

/// The value of row `i`.
fn row_value(keyed: &Keyed, i: usize) -> u128
    requires shaped { IsShapedBasis (length keyed.now.rows) (length keyed.now.duals) keyed.now }
    requires inside { i < length keyed.now.rows }
    requires rest { (k : ℕ) → unsigned_abs (num keyed.now.rest k) < 2 ^ 76 }
    requires high { pos 0 ≤ℤ dot (length keyed.now.rows) (nums_at keyed.now.rows i) (num keyed.now.rest) }
    requires low { unsigned_abs (dot (length keyed.now.rows) (nums_at keyed.now.rows i) (num keyed.now.rest)) < 2 ^ 124 }
    ensures { pos result ≡ dot (length keyed.now.rows) (nums_at keyed.now.rows i) (num keyed.now.rest) }
{
    worth(keyed.rows.items()[i].nums(), keyed.rest.items())
}

/// The product of row `i` with a column.
fn row_product(keyed: &Keyed, name: &RouteColumn, i: usize) -> i128
    requires shaped { IsShapedBasis (length keyed.now.rows) (length keyed.now.duals) keyed.now }
    requires inside { i < length keyed.now.rows }
    requires name { IsNameWithin (length keyed.now.rows) name.now }
    requires key { ForSome (demand_in name.now) (HasKey keyed.now.names keyed.now.places (length keyed.now.rows)) }
    requires short { IsShortPath (length keyed.now.rows) (key_links keyed.now.names keyed.now.places (length keyed.now.rows) (demand_in name.now)) }
    ensures value { result ≡ dot (length keyed.now.rows) (nums_at keyed.now.rows i)
        (left_uses name.now (key_links keyed.now.names keyed.now.places (length keyed.now.rows) (demand_in name.now))) }
    ensures bound { unsigned_abs result ≤ 2 ^ 71 }
{
    let links = keyed.rows.len();
    let key = key_path(
        keyed.names.items(),
        keyed.places.items(),
        links,
        demand_of(name),
    );
    column_product(keyed.rows.items()[i].nums(), name, key)
}

/// Another column of its demand, that of row `i`, becomes the demand's key, and the key takes its role. The basis stays as it is,
/// and so do the other rows, their values and their products with a column that enters. An error says what is too wide of the old
/// key's row, and then nothing has changed.
pub(crate) fn change_key(
    keyed: &mut Keyed,
    room: &mut Room,
    name: &RouteColumn,
    i: usize,
    demand: u32,
) -> Result<(), WideKey>
    requires enters { HasEntering (length keyed.old.rows) (length keyed.old.duals) keyed.old name.now (length keyed.old.rows + demand) }
    requires room { IsRoom (length keyed.old.rows) room.old }
    requires inside { i < length keyed.old.rows }
    requires own { IsOwn keyed.old.owners demand i }
    ensures room { IsRoom (length keyed.old.rows) room.new }
    ensures prices { keyed.new.prices ≡ keyed.old.prices }
    ensures same { OnErr result (keyed.new ≡ keyed.old) }
    ensures wide { IfErr result (IsWideSpread keyed.old demand) }
    ensures enters { (bound : ℕ → ℤ) (basis : ℕ → ColumnOf Name) (place role : ℕ → ℕ) (c : ColumnOf Name)
        → IsEntering (length keyed.old.rows) (length keyed.old.duals) bound basis place role keyed.old name.now c (length keyed.old.rows + demand)
        → OnOk result (IsEntering (length keyed.old.rows) (length keyed.old.duals) bound basis
        (λ r. place (swap i (length keyed.old.rows + demand) r)) (λ j. swap i (length keyed.old.rows + demand) (role j)) keyed.new name.now c i) }
{
    swap_roles(keyed, room, i, demand)?;
    let value = row_value(keyed, i);
    let product = row_product(keyed, name, i);
    set_value(&mut keyed.values, i, value);
    set_product(&mut keyed.products, i, &product);
    Ok(())
}
