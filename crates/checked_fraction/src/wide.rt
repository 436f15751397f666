ghost use Rattle.std.specs.Prelude.{◌≡◌, ◌<◌, ◌^◌, pos, length, None, IfSome};
ghost use Rattle.checked_fraction.{specs.Mixed.IsFirstWide, specs.inner.Passes.{CanMix, raw, over, IsWithin}};

use crate::divisor::Divisor;
use crate::mix::{Mix, WIDE, reduced_at};

/// Where a row in lowest terms is too wide: its first number that is 2^62 or more in absolute value.
/// The denominator comes last.
#[derive(Clone, Copy)]
pub struct WideNumber {
    /// The place among the numbers, from 0; their count means the denominator.
    pub at: u32,
    /// The number there, in lowest terms.
    pub value: i128,
}

/// The first wide number of the combined row divided, whose denominator is `den`.
pub(crate) fn first_wide(
    nums: &[i64],
    pivot: &[i64],
    mix: &Mix,
    divisor: &Divisor,
    den: u128,
) -> Option<WideNumber>
    requires can_mix { CanMix nums.now pivot.now mix.now }
    requires short { length nums.now < 2 ^ 32 }
    requires den { den < 2 ^ 126 }
    ensures none { result ≡ None → IsWithin (over (raw nums.now pivot.now mix.now) divisor.now.value) (length nums.now) × (den < 2 ^ 62) }
    ensures wide { IfSome result (IsFirstWide (length nums.now) (over (raw nums.now pivot.now mix.now) divisor.now.value) (pos den)) }
{
    for k in 0..nums.len() {
        let value = reduced_at(nums, pivot, mix, divisor, k);
        if value.unsigned_abs() >= WIDE {
            return Some(WideNumber {
                at: k as u32,
                value,
            });
        }
    }
    if den >= WIDE {
        return Some(WideNumber {
            at: nums.len() as u32,
            value: den as i128,
        });
    }
    None
}
