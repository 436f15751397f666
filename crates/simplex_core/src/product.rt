ghost use Rattle.std.{specs.Prelude.{◌≡◌, ◌<◌, ◌≤◌, ◌^◌, ◌+ℤ◌, ◌-ℤ◌, ◌*ℤ◌, ◌<ℤ◌, ◌↔◌, ℕ, unsigned_abs, length, IsTrue}, specs.List.AllByRecursion};
ghost use Rattle.checked_fraction.specs.Terms.{num, IsNarrow, total, IsExact, HasRoom};
ghost use Rattle.simplex_law.specs.Terms.{dot};
ghost use Rattle.simplex_core.{specs.Columns.{entry_of, IsEntry}, specs.inner.Products.HaveProducts, specs.Tables.IsRectangle};

use crate::columns::Entry;
use checked_fraction::{Row, Sum};
use net_core::List;

/// Adds the product of each entry with the row's number there.
fn add_entries(sum: &mut Sum, nums: &[i64], entries: &[Entry])
    requires high { unsigned_abs sum.old.high ≤ 2 ^ 62 }
    requires low { sum.old.low ≤ 2 ^ 62 }
    requires entries { AllByRecursion (IsEntry (length nums.now)) entries.now }
    requires nums { (k : ℕ) → IsNarrow (num nums.now k) }
    ensures total { total sum.new ≡ total sum.old +ℤ dot (length nums.now) (num nums.now) (entry_of entries.now) }
    ensures room { HasRoom sum.new }
{
    for entry in entries {
        sum.add(&nums[entry.row as usize], &entry.value);
    }
}

/// The product of a row with entries, where 128 bits hold it.
fn row_product(nums: &[i64], entries: &[Entry]) -> Option<i128>
    requires entries { AllByRecursion (IsEntry (length nums.now)) entries.now }
    requires nums { (k : ℕ) → IsNarrow (num nums.now k) }
    ensures { IsExact (dot (length nums.now) (num nums.now) (entry_of entries.now)) result }
{
    let mut sum = Sum::new();
    add_entries(&mut sum, nums, entries);
    sum.within()
}

/// The product of the objective row with a column, less the column's gain over the row's denominator.
fn reduced_cost_sum(duals: &Row, gain: &i64, entries: &[Entry]) -> Sum
    requires gain { IsNarrow gain.now }
    requires entries { AllByRecursion (IsEntry (length duals.now.nums)) entries.now }
    ensures total { total result ≡ dot (length duals.now.nums) (num duals.now.nums) (entry_of entries.now) -ℤ duals.now.den *ℤ gain.now }
    ensures room { HasRoom result }
{
    let mut sum = Sum::new();
    sum.subtract(&duals.den, gain);
    add_entries(&mut sum, duals.nums(), entries);
    sum
}

/// The product of the objective row with a column, less the column's gain over the row's denominator, where 128 bits hold it.
pub(crate) fn reduced_cost_of(duals: &Row, gain: &i64, entries: &[Entry]) -> Option<i128>
    requires gain { IsNarrow gain.now }
    requires entries { AllByRecursion (IsEntry (length duals.now.nums)) entries.now }
    ensures { IsExact (dot (length duals.now.nums) (num duals.now.nums) (entry_of entries.now) -ℤ duals.now.den *ℤ gain.now) result }
{
    reduced_cost_sum(duals, gain, entries).within()
}

/// Writes the product of each row with entries, up to the first that 128 bits don't hold.
fn write_products(products: &mut [i128], rows: &[Row], entries: &[Entry]) -> Option<u32>
    requires count { length products.old ≡ length rows.now }
    requires short { length rows.now < 2 ^ 32 }
    requires rectangle { IsRectangle (length rows.now) rows.now }
    requires entries { AllByRecursion (IsEntry (length rows.now)) entries.now }
    ensures count { length products.new ≡ length products.old }
    ensures products { HaveProducts rows.now entries.now products.new result }
{
    for i in 0..rows.len() {
        let Some(product) = row_product(rows[i].nums(), entries) else {
            return Some(i as u32);
        };
        products[i] = product;
    }
    None
}

/// Writes the product of each row with entries to a list, up to the first that 128 bits don't hold.
pub(crate) fn write_list(
    products: &mut List<i128>,
    rows: &List<Row>,
    entries: &[Entry],
) -> Option<u32>
    requires count { length products.old ≡ length rows.now }
    requires short { length rows.now < 2 ^ 32 }
    requires rectangle { IsRectangle (length rows.now) rows.now }
    requires entries { AllByRecursion (IsEntry (length rows.now)) entries.now }
    ensures count { length products.new ≡ length products.old }
    ensures products { HaveProducts rows.now entries.now products.new result }
{
    write_products(products.items_mut(), rows.items(), entries)
}

/// Whether a column's gain exceeds its priced entries, for entries of the rows that the prices are of. It is exact, takes
/// no memory, and a time that grows with the count of entries.
///
/// At the prices 1 and 2 over the denominator 2, a column that takes 2 of the first row and 1 of the second is worth 2: with a gain of 3 it
/// gains, and with one of 2 it doesn't.
pub fn gains(duals: &Row, gain: i64, entries: &[Entry]) -> bool
    requires gain { IsNarrow gain }
    requires entries { AllByRecursion (IsEntry (length duals.now.nums)) entries.now }
    ensures { IsTrue result ↔ (dot (length duals.now.nums) (num duals.now.nums) (entry_of entries.now) <ℤ (duals.now.den *ℤ gain)) }
{
    reduced_cost_sum(duals, &gain, entries).is_negative()
}
