ghost use Rattle.std.specs.Prelude.{◌≡◌, ◌<◌, ◌<ℤ◌, ◌≤ℤ◌, IsTrue, length, pos};
ghost use Rattle.checked_fraction.specs.Terms.{num};
ghost use Rattle.plan_terms.specs.Terms.{AreDemands};
ghost use Rattle.row_cuts.{specs.PathRows.key_path, specs.inner.Tests.{AreFarBelow, HasLongKey, IsFar, sum_over}};

use crate::sums::{along, key_of};
use net_core::{Demand, LinkId, Path};
use short_paths::DistanceTable;

/// Whether the ends of a demand are at least so far apart.
fn is_far(table: &DistanceTable, d: &Demand, least: i128) -> bool
    requires from { d.now.from.0 < table.now.nodes }
    requires to { d.now.to.0 < table.now.nodes }
    ensures { IsTrue result → IsFar table.now d.now least }
{
    match table.get(d.from, d.to) {
        Some(far) => least <= far as i128,
        None => false,
    }
}

/// Whether the ends of a demand are at least as far apart as its key is long.
fn is_key_far(table: &DistanceTable, d: &Demand, nums: &[i64], keys: &[Path], place: usize) -> bool
    requires from { d.now.from.0 < table.now.nodes }
    requires to { d.now.to.0 < table.now.nodes }
    ensures { IsTrue result → IsFar table.now d.now (sum_over (num nums.now) (key_path keys.now place)) }
{
    match along(nums, key_of(keys, place)) {
        Some(least) => is_far(table, d, least),
        None => false,
    }
}

/// Whether the ends of each demand are as far apart as its key is long.
pub(crate) fn are_far(
    table: &DistanceTable,
    demands: &[Demand],
    nums: &[i64],
    keys: &[Path],
) -> bool
    requires belong { AreDemands table.now.nodes demands.now }
    ensures { IsTrue result → AreFarBelow table.now demands.now keys.now nums.now (length demands.now) }
{
    for k in 0..demands.len() {
        if !is_key_far(table, &demands[k], nums, keys, k) {
            return false;
        }
    }
    true
}

/// Whether a key is longer than 0.
fn is_long(nums: &[i64], key: &[LinkId]) -> bool
    ensures { IsTrue result → pos 0 <ℤ sum_over (num nums.now) key.now }
{
    match along(nums, key) {
        Some(sum) => sum > 0,
        None => false,
    }
}

/// Whether one of the first keys is longer than 0.
pub(crate) fn has_long_key(nums: &[i64], keys: &[Path], demands: usize) -> bool
    ensures { IsTrue result → HasLongKey keys.now nums.now demands }
{
    for k in 0..demands {
        if is_long(nums, key_of(keys, k)) {
            return true;
        }
    }
    false
}
