ghost use Rattle.std.specs.Prelude.{◌≡◌, ◌<◌, ◌^◌, ◌<ℤ◌, ℕ, pos, length, IfOk, slice_set, replicate};
ghost use Rattle.checked_fraction.specs.Rows.{num, IsNarrow, IsInLowestTerms};

use net_core::list::{Copied, List, NoMemory};
use std::alloc::Global;

/// Fewer than 2^32 whole numbers over one positive denominator, in lowest terms, each below 2^62 in absolute value.
/// A number takes 8 bytes.
#[derive(Drop)]
pub struct Row {
    pub nums: List<i64>,
    pub den: i64,
    pub ghost positive: { pos 0 <ℤ den },
    pub ghost narrow: { (k : ℕ) → IsNarrow (num nums k) },
    pub ghost narrow_den: { IsNarrow den },
    pub ghost lowest: { IsInLowestTerms (length nums) (num nums) den },
    pub ghost short: { length nums < 2 ^ 32 },
}

impl Copied for Row {
    fn copy(&self) -> Result<Row, NoMemory> {
        Ok(Row {
            nums: self.nums.copy()?,
            den: self.den,
        })
    }
}

/// A list of `n` numbers, all 0 but that at `at`, which is 1.
fn unit_nums(alloc: Global, n: u32, at: u32) -> Result<List<i64>, NoMemory>
    requires { at < n }
    ensures { IfOk result (λ nums. nums ≡ slice_set (replicate n (pos 0)) at (pos 1)) }
{
    let mut nums = vec![in alloc; 0; n as usize]?;
    nums[at as usize] = 1;
    Ok(List::from_vec(nums))
}

impl Row {
    /// The row of `n` numbers over 1 that are 0, but for a 1 at `at`. It fails only where memory runs out, and takes time
    /// that grows with `n`.
    pub fn unit(alloc: Global, n: u32, at: u32) -> Result<Row, NoMemory>
        requires { at < n }
        ensures { IfOk result (λ row. (row.nums ≡ slice_set (replicate n (pos 0)) at (pos 1)) × (row.den ≡ pos 1)) }
    {
        let nums = unit_nums(alloc, n, at)?;
        Ok(Row { nums, den: 1 })
    }

    /// The numbers over the denominator, without a copy. It takes constant time.
    pub fn nums(&self) -> &[i64]
        ensures { result.now ≡ self.now.nums }
    {
        self.nums.items()
    }

    /// The denominator. It takes constant time.
    pub fn den(&self) -> i64
        ensures { result ≡ self.now.den }
    {
        self.den
    }
}
