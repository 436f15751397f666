ghost use Rattle.std.{specs.Prelude.{◌≡◌, ◌<◌, ◌≤◌, ◌+◌, ◌^◌, ◌+ℤ◌, ◌-ℤ◌, ℕ, length, unsigned_abs}, specs.Option.ForSome};
ghost use Rattle.checked_fraction.specs.Terms.{num, IsNarrow};
ghost use Rattle.key_rows.specs.Terms.{IsShapedBasis, IsRoom, HaveColumnProducts, IsWideTest, demand_in, key_links, IsNameWithin};
ghost use Rattle.key_paths.{specs.inner.Entering.{with_products, wide_kind as kind_of, HasGaining, EntersAs}, specs.inner.Gaining.cost_at, specs.inner.Held.HasPriced, specs.inner.Outcomes.TurnsAt};

use crate::turn_at_key::turn_at_key;
use crate::turns::{Turn, turn_row};
use key_rows::{
    Keyed, Room, WideTest, demand_of, key_path, leaving, path_sum, widen, write_product_list,
};
use net_core::{RouteColumn, WideKind};

/// What a path costs, with the price of its demand, less what it gains, over the denominator of the prices.
fn path_cost(sum: &i128, dual: &i64, den: &i64) -> i128
    requires sum { unsigned_abs sum.now ≤ 2 ^ 70 }
    requires dual { IsNarrow dual.now }
    requires den { IsNarrow den.now }
    ensures { result ≡ (sum.now +ℤ dual.now) -ℤ den.now }
{
    *sum + widen(dual) - widen(den)
}

/// What a column costs at the prices, less what it gains, over their denominator.
fn cost_of(keyed: &Keyed, name: &RouteColumn) -> i128
    requires shaped { IsShapedBasis (length keyed.now.rows) (length keyed.now.duals) keyed.now }
    requires name { IsNameWithin (length keyed.now.rows) name.now }
    requires demand { ForSome (demand_in name.now) (λ d. d < length keyed.now.duals) }
    ensures { result ≡ cost_at keyed.now name.now }
{
    match name {
        RouteColumn::LinkSlack(link) => widen(&keyed.prices.nums()[link.0 as usize]),
        RouteColumn::DemandSlack(demand) => widen(&keyed.duals.items()[*demand as usize]),
        RouteColumn::Carry(demand, path) => {
            path_cost(
                &path_sum(keyed.prices.nums(), path.items()),
                &keyed.duals.items()[*demand as usize],
                &keyed.prices.den(),
            )
        }
    }
}

/// Writes the products of the rows with a column.
fn take_products(keyed: &mut Keyed, name: &RouteColumn)
    requires shaped { IsShapedBasis (length keyed.old.rows) (length keyed.old.duals) keyed.old }
    requires name { IsNameWithin (length keyed.old.rows) name.now }
    requires demand { ForSome (demand_in name.now) (λ d. d < length keyed.old.duals) }
    ensures same { keyed.new ≡ with_products keyed.old keyed.new.products }
    ensures count { length keyed.new.products ≡ length keyed.old.products }
    ensures products { HaveColumnProducts keyed.new name.now (key_links keyed.old.names keyed.old.places (length keyed.old.rows) (demand_in name.now)) }
    ensures low { (i : ℕ) → i < length keyed.old.rows → unsigned_abs (num keyed.new.products i) ≤ 2 ^ 71 }
{
    let key = key_path(
        keyed.names.items(),
        keyed.places.items(),
        keyed.rows.len(),
        demand_of(name),
    );
    write_product_list(&mut keyed.products, keyed.rows.items(), name, key);
}

/// What is too wide when it is decided which column leaves, by places.
fn wide_kind(keyed: &Keyed, name: RouteColumn, wide: WideTest) -> WideKind<RouteColumn>
    requires shaped { IsShapedBasis (length keyed.now.rows) (length keyed.now.duals) keyed.now }
    requires wide { IsWideTest keyed.now name wide }
    ensures { result ≡ kind_of keyed.now name wide }
{
    let places = keyed.places.items();
    match wide {
        WideTest::Common => WideKind::Common,
        WideTest::Product(role) => WideKind::Product(places[role as usize], name),
        WideTest::Row(role) => WideKind::Row(places[role as usize]),
    }
}

/// A column of this cost, whose products are known, enters for that of a role.
fn turn_at(keyed: &mut Keyed, room: &mut Room, name: RouteColumn, cost: &i128, role: u32) -> Turn
    requires enters { HasPriced (length keyed.old.rows) (length keyed.old.duals) keyed.old name cost.now role }
    requires shaped { IsShapedBasis (length keyed.old.rows) (length keyed.old.duals) keyed.old }
    requires room { IsRoom (length keyed.old.rows) room.old }
    ensures room { result ≡ Turn.Again → IsRoom (length keyed.old.rows) room.new }
    ensures turned { TurnsAt (length keyed.old.rows) (length keyed.old.duals) keyed.old name cost.now role result keyed.new }
{
    let links = keyed.rows.len() as u32;
    if role < links {
        turn_row(keyed, room, name, cost, role as usize)
    } else {
        turn_at_key(keyed, room, name, cost, role - links)
    }
}

/// A column that gains enters the basis.
pub(crate) fn enter(keyed: &mut Keyed, room: &mut Room, name: RouteColumn) -> Turn
    requires gains { HasGaining (length keyed.old.rows) (length keyed.old.duals) keyed.old name }
    requires room { IsRoom (length keyed.old.rows) room.old }
    ensures room { result ≡ Turn.Again → IsRoom (length keyed.old.rows) room.new }
    ensures entered { EntersAs (length keyed.old.rows) (length keyed.old.duals) keyed.old name result keyed.new }
{
    let cost = cost_of(keyed, &name);
    take_products(keyed, &name);
    match leaving(keyed, room, &name) {
        Err(wide) => Turn::Wide(wide_kind(keyed, name, wide)),
        Ok(None) => Turn::Unbounded,
        Ok(Some(role)) => turn_at(keyed, room, name, &cost, role),
    }
}
