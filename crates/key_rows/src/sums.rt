ghost use Rattle.std.specs.Prelude.{◌≡◌, ◌+◌, ◌*◌, ◌<◌, ◌≤◌, ◌^◌, ◌+ℤ◌, ◌-ℤ◌, ℕ, pos, length, unsigned_abs};
ghost use Rattle.checked_fraction.specs.Terms.{num, IsNarrow};
ghost use Rattle.simplex_law.specs.Terms.{dot};
ghost use Rattle.key_rows.specs.Names.{path_uses, links_in, demand_in, gain_in, uses, left_uses, IsShortPath, IsNameWithin};

use net_core::{LinkId, RouteColumn};

/// A running sum of narrow numbers.
#[derive(Clone, Copy)]
struct Total {
    value: i128,
}

/// A number in 128 bits. It takes constant time.
pub fn widen(a: &i64) -> i128
    ensures { result ≡ a.now }
{
    *a as i128
}

impl Total {
    fn new() -> Total
        ensures { result.value ≡ pos 0 }
    {
        Total { value: 0 }
    }

    fn add(&mut self, number: &i64)
        requires sum { unsigned_abs self.old.value ≤ 2 ^ 70 }
        requires number { IsNarrow number.now }
        ensures value { self.new.value ≡ self.old.value +ℤ number.now }
        ensures bound { unsigned_abs self.new.value ≤ unsigned_abs self.old.value + 2 ^ 62 }
    {
        self.value += widen(number);
    }
}

/// The sum of a row's numbers at the links of a path. It takes time in the links of the path, and no memory.
pub fn path_sum(nums: &[i64], path: &[LinkId]) -> i128
    requires path { IsShortPath (length nums.now) path.now }
    requires narrow { (k : ℕ) → IsNarrow (num nums.now k) }
    ensures value { result ≡ dot (length nums.now) (num nums.now) (path_uses path.now) }
    ensures bound { unsigned_abs result ≤ 2 ^ 70 }
{
    let mut sum = Total::new();
    for link in path {
        sum.add(&nums[link.0 as usize]);
    }
    sum.value
}

/// `a - b` of sums along paths.
fn difference(a: &i128, b: &i128) -> i128
    requires a { unsigned_abs a.now ≤ 2 ^ 70 }
    requires b { unsigned_abs b.now ≤ 2 ^ 70 }
    ensures value { result ≡ a.now -ℤ b.now }
    ensures bound { unsigned_abs result ≤ 2 ^ 71 }
{
    *a - *b
}

/// The links that a column runs over, where it is a path. It takes constant time, and copies nothing.
pub fn path_of(name: &RouteColumn) -> &[LinkId]
    ensures { result.now ≡ links_in name.now }
{
    match name {
        RouteColumn::Carry(_, path) => path.items(),
        RouteColumn::LinkSlack(_) => &[],
        RouteColumn::DemandSlack(_) => &[],
    }
}

/// The demand of a column, if it has one. It takes constant time.
pub fn demand_of(name: &RouteColumn) -> Option<u32>
    ensures { result ≡ demand_in name.now }
{
    match name {
        RouteColumn::Carry(demand, _) => Some(*demand),
        RouteColumn::DemandSlack(demand) => Some(*demand),
        RouteColumn::LinkSlack(_) => None,
    }
}

/// What a unit of a column gains.
pub(crate) fn gain_of(name: &RouteColumn) -> i64
    ensures { result ≡ gain_in name.now }
{
    match name {
        RouteColumn::Carry(_, _) => 1,
        RouteColumn::LinkSlack(_) => 0,
        RouteColumn::DemandSlack(_) => 0,
    }
}

/// A number of a row.
fn number_at(nums: &[i64], link: &LinkId) -> i128
    requires link { link.now.0 < length nums.now }
    requires narrow { (k : ℕ) → IsNarrow (num nums.now k) }
    ensures value { result ≡ num nums.now link.now.0 }
    ensures bound { unsigned_abs result ≤ 2 ^ 70 }
{
    widen(&nums[link.0 as usize])
}

/// A row's product with what a column takes of the links.
pub(crate) fn name_sum(nums: &[i64], name: &RouteColumn) -> i128
    requires name { IsNameWithin (length nums.now) name.now }
    requires narrow { (k : ℕ) → IsNarrow (num nums.now k) }
    ensures value { result ≡ dot (length nums.now) (num nums.now) (uses name.now) }
    ensures bound { unsigned_abs result ≤ 2 ^ 70 }
{
    match name {
        RouteColumn::LinkSlack(link) => number_at(nums, link),
        RouteColumn::DemandSlack(_) => path_sum(nums, &[]),
        RouteColumn::Carry(_, path) => path_sum(nums, path.items()),
    }
}

/// A row's product with what is left of a column when the key of its demand, along this path, is taken away. It takes time in the links of both
/// paths, and no memory.
///
/// With the numbers 5, 1 and 2 in a row, a column along the first link, and a key along the other two, it is 5 less 3, which is 2.
pub fn column_product(nums: &[i64], name: &RouteColumn, key: &[LinkId]) -> i128
    requires name { IsNameWithin (length nums.now) name.now }
    requires key { IsShortPath (length nums.now) key.now }
    requires narrow { (k : ℕ) → IsNarrow (num nums.now k) }
    ensures value { result ≡ dot (length nums.now) (num nums.now) (left_uses name.now key.now) }
    ensures bound { unsigned_abs result ≤ 2 ^ 71 }
{
    difference(&name_sum(nums, name), &path_sum(nums, key))
}
