ghost use Rattle.std.specs.Prelude.{◌≡◌, ◌≢◌, ◌<◌, ◌≤◌, ◌+◌, ◌^◌, ◌+ℤ◌, ◌-ℤ◌, ◌*ℤ◌, ◌≤ℤ◌, ℕ, pos, length, get_or, unsigned_abs, Some, slice_get, MatchOption, OnOk, OnErr, IfErr};
ghost use Rattle.checked_fraction.specs.Terms.{num, IsNarrow};
ghost use Rattle.key_rows.specs.Terms.{IsShapedBasis, IsRoom, IsOwn, IsWideSpread, HasKey, IsShortPath, key_name, links_in, column_name};
ghost use Rattle.key_paths.specs.inner.Turning.{key_takes, with_rest, AreSwapped, IsRoleSwap};

use checked_fraction::Row;
use key_rows::{Keyed, Room, WideKey, key_of, path_of, shift_back_list, shift_list, spread_key};
use net_core::List;
use std::mem;

/// Gives back what the key of a demand takes of the links, before it is another.
pub(crate) fn give_back(keyed: &mut Keyed, demand: u32)
    requires key { HasKey keyed.old.names keyed.old.places (length keyed.old.rows) demand }
    requires short { IsShortPath (length keyed.old.rest) (links_in (key_name keyed.old.names keyed.old.places (length keyed.old.rows) demand)) }
    requires bounds { length keyed.old.bounds ≡ length keyed.old.places }
    requires few { length keyed.old.places < 2 ^ 32 }
    requires narrow { (r : ℕ) → IsNarrow (num keyed.old.bounds r) }
    requires rest { (k : ℕ) → unsigned_abs (num keyed.old.rest k) ≤ 2 ^ 100 }
    ensures same { keyed.new ≡ with_rest keyed.old keyed.new.rest }
    ensures count { length keyed.new.rest ≡ length keyed.old.rest }
    ensures rest { (k : ℕ) → num keyed.new.rest k ≡ num keyed.old.rest k +ℤ key_takes keyed.old demand k }
    ensures bound { (k : ℕ) → unsigned_abs (num keyed.new.rest k) ≤ unsigned_abs (num keyed.old.rest k) + 2 ^ 70 }
{
    let links = keyed.rows.len();
    let key = key_of(keyed.names.items(), keyed.places.items(), links, demand);
    let bound = &keyed.bounds.items()[links + demand as usize];
    shift_list(&mut keyed.rest, path_of(key), bound);
}

/// Takes away what the key of a demand takes of the links, after it was another.
pub(crate) fn take_away(keyed: &mut Keyed, demand: u32)
    requires key { HasKey keyed.old.names keyed.old.places (length keyed.old.rows) demand }
    requires short { IsShortPath (length keyed.old.rest) (links_in (key_name keyed.old.names keyed.old.places (length keyed.old.rows) demand)) }
    requires bounds { length keyed.old.bounds ≡ length keyed.old.places }
    requires few { length keyed.old.places < 2 ^ 32 }
    requires narrow { (r : ℕ) → IsNarrow (num keyed.old.bounds r) }
    requires rest { (k : ℕ) → unsigned_abs (num keyed.old.rest k) ≤ 2 ^ 101 }
    ensures same { keyed.new ≡ with_rest keyed.old keyed.new.rest }
    ensures count { length keyed.new.rest ≡ length keyed.old.rest }
    ensures rest { (k : ℕ) → num keyed.new.rest k ≡ num keyed.old.rest k -ℤ key_takes keyed.old demand k }
{
    let links = keyed.rows.len();
    let key = key_of(keyed.names.items(), keyed.places.items(), links, demand);
    let bound = &keyed.bounds.items()[links + demand as usize];
    shift_back_list(&mut keyed.rest, path_of(key), bound);
}

/// The first row of a demand.
pub(crate) fn row_of(owners: &[u32], demand: u32) -> Option<usize>
    ensures { MatchOption result ((i : ℕ) → i < length owners.now → IsOwn owners.now demand i → ⊥) (λ i. (i < length owners.now) × IsOwn owners.now demand i) }
{
    for i in 0..owners.len() {
        if owners[i] == demand {
            return Some(i);
        }
    }
    None
}

/// Two roles change their places.
fn swap_places(places: &mut [u32], a: usize, b: usize)
    requires a { a < length places.old }
    requires b { b < length places.old }
    ensures count { length places.new ≡ length places.old }
    ensures swapped { AreSwapped places.old places.new a b }
{
    let first = places[a];
    places[a] = places[b];
    places[b] = first;
}

/// Two roles change their places, in a list.
fn swap_place_list(places: &mut List<u32>, a: usize, b: usize)
    requires a { a < length places.old }
    requires b { b < length places.old }
    ensures count { length places.new ≡ length places.old }
    ensures swapped { AreSwapped places.old places.new a b }
{
    swap_places(places.items_mut(), a, b);
}

/// A row of the table and another one change places.
fn swap_row(rows: &mut [Row], i: usize, row: &mut Row)
    requires { i < length rows.old }
    ensures count { length rows.new ≡ length rows.old }
    ensures at { slice_get rows.new i ≡ Some row.old }
    ensures others { (j : ℕ) → j ≢ i → slice_get rows.new j ≡ slice_get rows.old j }
    ensures row { slice_get rows.old i ≡ Some row.new }
{
    mem::swap(&mut rows[i], row);
}

/// A row of a list and another one change places.
fn swap_row_list(rows: &mut List<Row>, i: usize, row: &mut Row)
    requires { i < length rows.old }
    ensures count { length rows.new ≡ length rows.old }
    ensures at { slice_get rows.new i ≡ Some row.old }
    ensures others { (j : ℕ) → j ≢ i → slice_get rows.new j ≡ slice_get rows.old j }
    ensures row { slice_get rows.old i ≡ Some row.new }
{
    swap_row(rows.items_mut(), i, row);
}

/// Makes the column of row `i`, which is one of the demand, its key, and the key that it had the row's column. The
/// basis stays as it is, and so do the products and the values of the other rows. An error says what is too wide, and
/// then nothing has changed.
pub(crate) fn swap_roles(
    keyed: &mut Keyed,
    room: &mut Room,
    i: usize,
    demand: u32,
) -> Result<(), WideKey>
    requires shaped { IsShapedBasis (length keyed.old.rows) (length keyed.old.duals) keyed.old }
    requires room { IsRoom (length keyed.old.rows) room.old }
    requires inside { i < length keyed.old.rows }
    requires demand { demand < length keyed.old.duals }
    requires old_key { IsShortPath (length keyed.old.rows) (links_in (key_name keyed.old.names keyed.old.places (length keyed.old.rows) demand)) }
    requires new_key { IsShortPath (length keyed.old.rows) (links_in (column_name keyed.old.names (get_or keyed.old.places i 0))) }
    requires rest { (k : ℕ) → unsigned_abs (num keyed.old.rest k) ≤ 2 ^ 100 }
    ensures room { IsRoom (length keyed.old.rows) room.new }
    ensures swapped { OnOk result (IsRoleSwap keyed.old i demand keyed.new) }
    ensures same { OnErr result (keyed.new ≡ keyed.old) }
    ensures wide { IfErr result (IsWideSpread keyed.old demand) }
{
    spread_key(keyed, room, demand)?;
    swap_row_list(&mut keyed.rows, i, &mut room.spare);
    give_back(keyed, demand);
    let role = keyed.rows.len() + demand as usize;
    swap_place_list(&mut keyed.places, i, role);
    take_away(keyed, demand);
    Ok(())
}
