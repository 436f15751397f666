ghost use Rattle.std.{specs.Prelude.{◌≡◌, ◌≢◌, ◌<◌, ◌≤◌, ◌+◌, ◌^◌, ◌+ℤ◌, ◌-ℤ◌, ◌*ℤ◌, ℕ, pos, length, get_or, unsigned_abs, IsTrue, MatchOption, false}, specs.Option.ForSome};
ghost use Rattle.checked_fraction.specs.Terms.{num, IsNarrow};
ghost use Rattle.simplex_law.specs.Terms.{dot};
ghost use Rattle.simplex_core.specs.Terms.{nums_at, IsRectangle};
ghost use Rattle.key_rows.specs.Names.{left_uses, IsShortPath, IsNameWithin, column_name, key_name, key_links, HasKey, gain_in, links_in, key_dual};

use crate::sums::{column_product, gain_of, path_of, path_sum, widen};
use checked_fraction::{Row, is_narrow, narrowed, product};
use net_core::{LinkId, List, RouteColumn};

/// The key of a demand. It takes constant time, and copies nothing.
pub fn key_of<'a>(
    names: &'a [RouteColumn],
    places: &[u32],
    links: usize,
    demand: u32,
) -> &'a RouteColumn
    requires { HasKey names.now places.now links demand }
    ensures { result.now ≡ key_name names.now places.now links demand }
{
    &names[places[links + demand as usize] as usize]
}

/// The links of a demand's key, and none where there is no demand. It takes constant time, and copies nothing.
pub fn key_path<'a>(
    names: &'a [RouteColumn],
    places: &[u32],
    links: usize,
    demand: Option<u32>,
) -> &'a [LinkId]
    requires { ForSome demand (HasKey names.now places.now links) }
    ensures { result.now ≡ key_links names.now places.now links demand }
{
    match demand {
        Some(demand) => path_of(key_of(names, places, links, demand)),
        None => &[],
    }
}

/// Writes the products of the rows with what is left of a column when the key of its demand, along this path, is taken away.
fn write_products(products: &mut [i128], rows: &[Row], name: &RouteColumn, key: &[LinkId])
    requires count { length products.old ≡ length rows.now }
    requires rectangle { IsRectangle (length rows.now) rows.now }
    requires name { IsNameWithin (length rows.now) name.now }
    requires key { IsShortPath (length rows.now) key.now }
    ensures count { length products.new ≡ length products.old }
    ensures products { (i : ℕ) → i < length rows.now → num products.new i ≡ dot (length rows.now) (nums_at rows.now i) (left_uses name.now key.now) }
    ensures low { (i : ℕ) → i < length rows.now → unsigned_abs (num products.new i) ≤ 2 ^ 71 }
{
    for i in 0..rows.len() {
        products[i] = column_product(rows[i].nums(), name, key);
    }
}

/// Writes the product of each row with what is left of a column when the key of its demand, along this path, is taken away.
/// It takes time in the rows times the links of the two paths, and asks for no memory.
pub fn write_product_list(
    products: &mut List<i128>,
    rows: &[Row],
    name: &RouteColumn,
    key: &[LinkId],
)
    requires count { length products.old ≡ length rows.now }
    requires rectangle { IsRectangle (length rows.now) rows.now }
    requires name { IsNameWithin (length rows.now) name.now }
    requires key { IsShortPath (length rows.now) key.now }
    ensures count { length products.new ≡ length products.old }
    ensures products { (i : ℕ) → i < length rows.now → num products.new i ≡ dot (length rows.now) (nums_at rows.now i) (left_uses name.now key.now) }
    ensures low { (i : ℕ) → i < length rows.now → unsigned_abs (num products.new i) ≤ 2 ^ 71 }
{
    write_products(products.items_mut(), rows, name, key);
}

/// `a - b` of a product and a sum along a path.
fn less(a: &i128, b: &i128) -> i128
    requires a { unsigned_abs a.now < 2 ^ 124 }
    requires b { unsigned_abs b.now ≤ 2 ^ 70 }
    ensures { result ≡ a.now -ℤ b.now }
{
    *a - *b
}

/// The price of a demand's row: what its key gains, over the denominator, less what the links of its key cost.
fn dual_of(prices: &Row, key: &RouteColumn) -> i128
    requires key { IsShortPath (length prices.now.nums) (links_in key.now) }
    ensures { result ≡ key_dual (length prices.now.nums) (num prices.now.nums) prices.now.den key.now }
{
    let gain = product(&prices.den(), &gain_of(key));
    less(&gain, &path_sum(prices.nums(), path_of(key)))
}

/// The price of a demand's row, where it is narrow: what its key gains, over the denominator, less what the links of its key cost. It takes time in
/// the links of the key, and no memory.
///
/// With the link prices 1 and 2 over the denominator 4, a key along both links gains 4 and costs 3 of these quarters, so that it is 1.
pub fn next_dual(prices: &Row, key: &RouteColumn) -> Option<i64>
    requires key { IsShortPath (length prices.now.nums) (links_in key.now) }
    ensures { MatchOption result (2 ^ 62 ≤ unsigned_abs (key_dual (length prices.now.nums) (num prices.now.nums) prices.now.den key.now))
        (λ x. (x ≡ key_dual (length prices.now.nums) (num prices.now.nums) prices.now.den key.now) × IsNarrow x) }
{
    let dual = dual_of(prices, key);
    if is_narrow(&dual) {
        Some(narrowed(&dual))
    } else {
        None
    }
}

/// Writes the prices of the demands anew, up to the first that is too wide.
fn renew_duals(
    duals: &mut [i64],
    names: &[RouteColumn],
    places: &[u32],
    prices: &Row,
    links: usize,
) -> bool
    requires links { links ≡ length prices.now.nums }
    requires keys { (d : ℕ) → d < length duals.old → HasKey names.now places.now links d }
    requires short { links + length duals.old < 2 ^ 32 }
    requires within { (d : ℕ) → d < length duals.old → IsShortPath links (links_in (key_name names.now places.now links d)) }
    requires narrow { (d : ℕ) → IsNarrow (num duals.old d) }
    ensures count { length duals.new ≡ length duals.old }
    ensures narrow { (d : ℕ) → IsNarrow (num duals.new d) }
    ensures all { IsTrue result → (d : ℕ) → d < length duals.old
        → num duals.new d ≡ key_dual links (num prices.now.nums) prices.now.den
        (key_name names.now places.now links d) }
    ensures wide { result ≡ false → (d : ℕ) × (d < length duals.old)
        × (2 ^ 62 ≤ unsigned_abs
        (key_dual links (num prices.now.nums) prices.now.den (key_name names.now places.now links d))) }
{
    for d in 0..duals.len() {
        let Some(dual) = next_dual(prices, key_of(names, places, links, d as u32)) else {
            return false;
        };
        duals[d] = dual;
    }
    true
}

/// Writes the prices of the demands anew, up to the first that is too wide. Says whether all are written.
/// It takes time in the links of all keys, and asks for no memory.
pub fn renew_dual_list(
    duals: &mut List<i64>,
    names: &[RouteColumn],
    places: &[u32],
    prices: &Row,
    links: usize,
) -> bool
    requires links { links ≡ length prices.now.nums }
    requires keys { (d : ℕ) → d < length duals.old → HasKey names.now places.now links d }
    requires short { links + length duals.old < 2 ^ 32 }
    requires within { (d : ℕ) → d < length duals.old → IsShortPath links (links_in (key_name names.now places.now links d)) }
    requires narrow { (d : ℕ) → IsNarrow (num duals.old d) }
    ensures count { length duals.new ≡ length duals.old }
    ensures narrow { (d : ℕ) → IsNarrow (num duals.new d) }
    ensures all { IsTrue result → (d : ℕ) → d < length duals.old
        → num duals.new d ≡ key_dual links (num prices.now.nums) prices.now.den
        (key_name names.now places.now links d) }
    ensures wide { result ≡ false → (d : ℕ) × (d < length duals.old)
        × (2 ^ 62 ≤ unsigned_abs
        (key_dual links (num prices.now.nums) prices.now.den (key_name names.now places.now links d))) }
{
    renew_duals(duals.items_mut(), names, places, prices, links)
}
