ghost use Rattle.std.specs.Prelude.{◌≡◌, ◌-◌, ◌≤◌, ◌<◌, ◌^◌, All, length};
ghost use Rattle.plan_terms.specs.Terms.{fixed_along, IsOwnBound};
ghost use Rattle.net_core.specs.Limits.{most_links};
ghost use Rattle.metric_cut.specs.Bounded.{HaveBound};

use crate::multiplier::greatest_multiplier;
use module_prices::bound_of;
use net_core::{CutLine, Link, Network};

/// What the pre-installed capacities give along lengths, in units of the network. It takes time in the links, and no memory.
pub fn fixed_along(links: &[Link], lengths: &[u32]) -> u128
    requires few { length links.now ≤ most_links }
    requires sound { All (λ l. l.fixed < 2 ^ 40) links.now }
    requires count { length lengths.now ≡ length links.now }
    ensures exact { result ≡ fixed_along lengths.now links.now }
    ensures low { result ≤ 2 ^ 80 }
{
    let mut sum = 0;
    for e in 0..links.len() {
        sum += lengths[e] as u128 * links[e].fixed as u128;
    }
    sum
}

/// What a right side asks for beyond what the pre-installed capacities give.
pub(crate) fn asked_rest(links: &[Link], lengths: &[u32], right: u128) -> u128
    requires few { length links.now ≤ most_links }
    requires sound { All (λ l. l.fixed < 2 ^ 40) links.now }
    requires count { length lengths.now ≡ length links.now }
    ensures rest { result ≡ right - fixed_along lengths.now links.now }
    ensures low { result ≤ right }
{
    right.saturating_sub(fixed_along(links, lengths))
}

/// The bound that a cut gives alone, in units of the network: what it asks for beyond the pre-installed capacities, times its
/// greatest valid multiplier, rounded up to a multiple of the greatest common divisor of the modules' costs and of the setups
/// of links with modules. No plan costs less. It takes time in the number of modules, and no memory.
///
/// The triangle of links with a module of 10 for 5 has to carry 12 from A to C: the cut of lengths 1 has the right side
/// 12 and the multiplier 1 / 2. Its raw value is 6, so its bound is 10, and 6 where each link has a setup of 3.
pub fn own_bound(net: &Network, line: &CutLine) -> u128
    requires lengths { HaveBound net.now.links line.now.lengths }
    requires right { line.now.right < 2 ^ 84 }
    ensures { IsOwnBound net.now.links line.now.lengths line.now.right result }
{
    let links = net.links().items();
    let lengths = line.lengths.items();
    let multiplier = greatest_multiplier(links, lengths);
    let rest = asked_rest(links, lengths, line.right);
    bound_of(links, multiplier.num as u128 * rest, multiplier.den)
}
