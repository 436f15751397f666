ghost use Rattle.std.{specs.Prelude.{◌≡◌, ◌+◌, ◌*◌, ◌<◌, ◌≤◌, ◌^◌, All, IfOk, length, map}, specs.Int.◌∣◌};
ghost use Rattle.master_law.specs.Terms.{AreUnitPairs, share_capacities};
ghost use Rattle.plan_rounds.specs.inner.Sharing.{DividesAll, IsDividedCaps, IsDividedShare};

use master_bound::common_divisor;
use module_prices::UnitPair;
use net_core::{Caps, Link, List, Network, NoMemory};
use plan_types::Share;
use std::alloc::Global;

/// The capacities of a share, and the same in lowest terms: scale and numbers over their greatest common divisor.
#[derive(Drop)]
pub struct ShareCaps {
    pub whole: Caps,
    pub divided: Caps,
    pub divisor: u64,
}

/// The capacity of a link in a share, as a numerator over the share's scale: what is pre-installed, and the link's units of its unit pair.
fn share_number(link: &Link, pair: &UnitPair, units: u64, scale: u64) -> u128
    requires fixed { link.now.fixed < 2 ^ 40 }
    requires units { units < 2 ^ 62 }
    ensures { result ≡ link.now.fixed * scale + pair.now.capacity * units }
{
    link.fixed as u128 * scale as u128 + pair.capacity as u128 * units as u128
}

/// The capacity of each link in a share, as numerators over the share's scale.
fn share_numbers(
    alloc: Global,
    links: &[Link],
    pairs: &[UnitPair],
    share: &Share,
) -> Result<List<u128>, NoMemory>
    requires fixed { All (λ l. l.fixed < 2 ^ 40) links.now }
    requires pairs { length pairs.now ≡ length links.now }
    requires count { length share.now.units ≡ length links.now }
    requires units { All (λ u. u < 2 ^ 62) share.now.units }
    ensures { IfOk result (λ nums. nums ≡ share_capacities links.now pairs.now share.now) }
{
    let mut nums = List::new(alloc);
    for e in 0..links.len() {
        let units = share.units.items()[e];
        nums.push(share_number(&links[e], &pairs[e], units, share.scale))?;
    }
    Ok(nums)
}

/// The greatest common divisor of a scale and numbers.
fn scale_divisor(scale: u64, nums: &[u128]) -> u64
    requires { 0 < scale }
    ensures { DividesAll scale nums.now result }
{
    common_divisor(scale as u128, nums) as u64
}

/// The numbers over a divisor that all of them have.
fn numbers_over(alloc: Global, nums: &[u128], divisor: u64) -> Result<List<u128>, NoMemory>
    requires positive { 0 < divisor }
    requires divides { All (λ n. divisor ∣ n) nums.now }
    ensures { IfOk result (λ divided. map (λ n. divisor * n) divided ≡ nums.now) }
{
    let mut divided = List::new(alloc);
    for n in nums {
        divided.push(*n / divisor as u128)?;
    }
    Ok(divided)
}

/// Capacities, and the same in lowest terms. It takes time and memory in the number of links.
pub fn divided_caps(alloc: Global, whole: Caps) -> Result<ShareCaps, NoMemory>
    requires { 0 < whole.scale }
    ensures { IfOk result (IsDividedCaps whole) }
{
    let divisor = scale_divisor(whole.scale, whole.nums.items());
    let nums = numbers_over(alloc, whole.nums.items(), divisor)?;
    let scale = whole.scale / divisor;
    Ok(ShareCaps {
        whole,
        divided: Caps { scale, nums },
        divisor,
    })
}

/// The capacities of a share: each link has its pre-installed capacity, and its units of its unit pair. It takes time and memory in the
/// number of links.
pub fn share_caps(
    alloc: Global,
    net: &Network,
    pairs: &List<UnitPair>,
    share: &Share,
) -> Result<ShareCaps, NoMemory>
    requires pairs { AreUnitPairs net.now.links pairs.now }
    requires scale { 0 < share.now.scale }
    requires count { length share.now.units ≡ length net.now.links }
    requires units { All (λ u. u < 2 ^ 62) share.now.units }
    ensures { IfOk result (IsDividedShare net.now.links pairs.now share.now) }
{
    let nums = share_numbers(alloc, net.links().items(), pairs.items(), share)?;
    divided_caps(
        alloc,
        Caps {
            scale: share.scale,
            nums,
        },
    )
}
