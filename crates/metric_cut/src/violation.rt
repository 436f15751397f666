ghost use Rattle.std.specs.Prelude.{◌≡◌, ◌*◌, ◌≤◌, ◌<◌, ◌^◌, ◌↔◌, IsTrue, All, length, sum_by, zip};
ghost use Rattle.plan_terms.specs.Terms.{Violates};

use net_core::{Caps, CutLine};

/// What capacities give along lengths.
fn along(lengths: &[u32], nums: &[u128]) -> u128
    requires few { length lengths.now ≤ 256 }
    requires count { length nums.now ≡ length lengths.now }
    requires narrow { All (λ n. n < 2 ^ 62) nums.now }
    ensures { result ≡ sum_by (λ p. p.0 * p.1) (zip lengths.now nums.now) }
{
    let mut sum = 0;
    for e in 0..lengths.len() {
        sum += lengths[e] as u128 * nums[e];
    }
    sum
}

/// Whether a sum is below `right` times `scale`, which may be more than 128 bits hold.
fn is_below(sum: u128, right: u128, scale: u64) -> bool
    requires { 0 < scale }
    ensures { IsTrue result ↔ (sum < right * scale) }
{
    sum / (scale as u128) < right
}

/// Whether all numbers are below 2^62, as `violated_by` wants those of capacities. It takes time in their number, and no memory.
pub fn are_narrow(nums: &[u128]) -> bool
    ensures { IsTrue result ↔ All (λ n. n < 2 ^ 62) nums.now }
{
    nums.iter().all(|n| *n < 1 << 62)
}

/// Whether capacities, one per link, violate a cut: along its lengths they give less than its right side. Then they carry the
/// demands in no routing of the cut's state. It takes time in the number of links, and no memory.
///
/// Capacities of 10, 10 and 0 against the lengths 1, 1 and 0 with the right side 24: they give 20, so they violate the cut;
/// 24 over the scale 2 on the first two links give 24, and don't.
pub fn violated_by(line: &CutLine, caps: &Caps) -> bool
    requires few { length line.now.lengths ≤ 256 }
    requires count { length caps.now.nums ≡ length line.now.lengths }
    requires narrow { All (λ n. n < 2 ^ 62) caps.now.nums }
    requires scale { 0 < caps.now.scale }
    ensures { IsTrue result ↔ Violates caps.now line.now }
{
    let given = along(line.lengths.items(), caps.nums.items());
    is_below(given, line.right, caps.scale)
}
