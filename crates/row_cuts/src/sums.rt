ghost use Rattle.std.specs.Prelude.{◌≡◌, ◌<◌, ◌-ℤ◌, IfSome, length};
ghost use Rattle.checked_fraction.specs.Terms.{num};
ghost use Rattle.row_cuts.{specs.PathRows.key_path, specs.inner.Tests.{link_at, product_at, sum_over}};

use net_core::{LinkId, Path, RouteColumn};

/// The key of a demand; the empty path where it has none.
pub(crate) fn key_of(keys: &[Path], demand: usize) -> &[LinkId]
    ensures { result.now ≡ key_path keys.now demand }
{
    if demand < keys.len() {
        keys[demand].items()
    } else {
        &[]
    }
}

/// A row's number at a link, and 0 where it has none.
pub(crate) fn number_at(nums: &[i64], link: usize) -> i64
    ensures { result ≡ num nums.now link }
{
    if link < nums.len() { nums[link] } else { 0 }
}

/// A row's number at the link at a place of a path.
fn number_on(nums: &[i64], path: &[LinkId], i: usize) -> i128
    requires { i < length path.now }
    ensures { result ≡ num nums.now (link_at path.now i) }
{
    number_at(nums, path[i].0 as usize) as i128
}

/// The sum of a row's numbers over the links of a path, where it fits.
pub(crate) fn along(nums: &[i64], path: &[LinkId]) -> Option<i128>
    ensures { IfSome result (λ s. s ≡ sum_over (num nums.now) path.now) }
{
    let mut sum = 0i128;
    for i in 0..path.len() {
        sum = sum.checked_add(number_on(nums, path, i))?;
    }
    Some(sum)
}

/// What a path has more of a row's numbers than another one, where it fits.
fn beyond(nums: &[i64], path: &[LinkId], key: &[LinkId]) -> Option<i128>
    ensures { IfSome result (λ s. s ≡ sum_over (num nums.now) path.now -ℤ sum_over (num nums.now) key.now) }
{
    along(nums, path)?.checked_sub(along(nums, key)?)
}

/// The product of a row's numbers with what the keys leave of a column, where it fits.
pub(crate) fn product_with(nums: &[i64], keys: &[Path], column: &RouteColumn) -> Option<i128>
    ensures { IfSome result (λ p. p ≡ product_at keys.now (num nums.now) column.now) }
{
    match column {
        RouteColumn::LinkSlack(link) => Some(number_at(nums, link.0 as usize) as i128),
        RouteColumn::DemandSlack(demand) => beyond(nums, &[], key_of(keys, *demand as usize)),
        RouteColumn::Carry(demand, path) => {
            beyond(nums, path.items(), key_of(keys, *demand as usize))
        }
    }
}
