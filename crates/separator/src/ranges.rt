ghost use Rattle.std.specs.Prelude.{◌<◌, ◌^◌, All};

use net_core::Caps;

/// Numbers are below 2^128 by their type.
fn are_below(numbers: &[u128])
    ensures { All (λ n. n < 2 ^ 128) numbers.now }
{
    let _ = numbers;
}

/// The scale is below 2^64 and each number below 2^128, by their types.
pub fn are_caps(caps: &Caps)
    ensures scale { caps.now.scale < 2 ^ 64 }
    ensures nums { All (λ n. n < 2 ^ 128) caps.now.nums }
{
    let _scale = caps.scale;
    are_below(caps.nums.items());
}
