ghost use Rattle.std.specs.Prelude.{◌<◌, ◌^◌, All};
ghost use Rattle.plan_terms.specs.Terms.{IsModule, IsMultiplier};
ghost use Rattle.metric_cut.specs.Bounded.{HaveBound};

use crate::ratio::least_ratio;
use checked_fraction::gcd;
use net_core::Link;

/// The greatest valid multiplier of a cut alone, `num / den` in lowest terms.
#[derive(Clone, Copy)]
pub struct OwnMultiplier {
    pub num: u64,
    pub den: u128,
}

/// The greatest valid multiplier of lengths, one per link: the least cost over capacity times length, over all modules of the
/// links of positive length. It takes time in the number of modules, and no memory.
///
/// A link of length 2 with a module of 10.000 for 5.000, and one of length 1 with a module of 10.000 for 4.000: the ratios are 5 / 20 and
/// 4 / 10, so that it is 1 / 4.
pub fn greatest_multiplier(links: &[Link], lengths: &[u32]) -> OwnMultiplier
    requires sound { All (λ l. All IsModule l.modules) links.now }
    requires lengths { HaveBound links.now lengths.now }
    ensures greatest { IsMultiplier links.now lengths.now result.num result.den }
    ensures num { result.num < 2 ^ 40 }
    ensures den { result.den < 2 ^ 72 }
{
    let ratio = least_ratio(links, lengths);
    let common = gcd(ratio.cost as u128, ratio.size);
    OwnMultiplier {
        num: (ratio.cost as u128 / common) as u64,
        den: ratio.size / common,
    }
}
