ghost use Rattle.std.specs.Prelude.{◌≡◌, ◌<◌, ◌+◌, ℕ, ℤ, length, slice_set, Some, OnOk, IfErr};
ghost use Rattle.plan_terms.specs.Terms.{RouteColumn as Name};
ghost use Rattle.simplex_law.specs.Terms.{put, ColumnOf};
ghost use Rattle.key_rows.specs.Terms.{demand_in};
ghost use Rattle.key_paths.specs.inner.Held.{IsHeld, IsEntering, HasEntering, IsAlone, IsWideNext};

use crate::move_rest::move_rest;
use crate::turn_rows::set_name;
use key_rows::{Keyed, key_of, lower_value_list, next_dual, path_of};
use net_core::{List, RouteColumn};

pub(crate) fn set_number(numbers: &mut List<i64>, at: usize, number: &i64)
    requires { at < length numbers.old }
    ensures { numbers.new ≡ slice_set numbers.old at number.now }
{
    numbers.items_mut()[at] = *number;
}

/// A column of a demand enters for the demand's key, which is the only basic column of the demand. The rows and the prices
/// of the links stay. An error is the row of the prices, by the count of rows, where the demand's price is too wide.
pub(crate) fn turn_key(keyed: &mut Keyed, name: RouteColumn, demand: u32) -> Result<(), u32>
    requires enters { HasEntering (length keyed.old.rows) (length keyed.old.duals) keyed.old name (length keyed.old.rows + demand) }
    requires own { demand_in name ≡ Some demand }
    requires alone { IsAlone keyed.old.owners (length keyed.old.rows) demand }
    ensures held { (bound : ℕ → ℤ) (basis : ℕ → ColumnOf Name) (place role : ℕ → ℕ) (c : ColumnOf Name)
        → IsEntering (length keyed.old.rows) (length keyed.old.duals) bound basis place role keyed.old name c (length keyed.old.rows + demand)
        → OnOk result (IsHeld (length keyed.old.rows) (length keyed.old.duals) bound
        (put basis (place (length keyed.old.rows + demand)) c) place role keyed.new) }
    ensures wide { (bound : ℕ → ℤ) (basis : ℕ → ColumnOf Name) (place role : ℕ → ℕ) (c : ColumnOf Name)
        → IsEntering (length keyed.old.rows) (length keyed.old.duals) bound basis place role keyed.old name c (length keyed.old.rows + demand)
        → IfErr result (IsWideNext (length keyed.old.rows) (length keyed.old.duals)
        (put basis (place (length keyed.old.rows + demand)) c) keyed.new.names) }
{
    let links = keyed.rows.len();
    let place = keyed.places.items()[links + demand as usize] as usize;
    let Some(dual) = next_dual(&keyed.prices, &name) else {
        set_name(&mut keyed.names, place, name);
        return Err(keyed.names.len() as u32);
    };
    let old = key_of(keyed.names.items(), keyed.places.items(), links, demand);
    let bound = &keyed.bounds.items()[links + demand as usize];
    move_rest(&mut keyed.rest, path_of(old), path_of(&name), bound);
    lower_value_list(&mut keyed.values, keyed.products.items(), bound);
    set_name(&mut keyed.names, place, name);
    set_number(&mut keyed.duals, demand as usize, &dual);
    Ok(())
}
