ghost use Rattle.std.specs.Prelude.{◌≡◌, ◌<◌, ◌≤◌, ◌^◌, All, IfOk, length, slice_index};
ghost use Rattle.plan_terms.specs.Terms.{IsModule};
ghost use Rattle.net_core.specs.Limits.{most_links};
ghost use Rattle.plan_checker.specs.Shares.{GivesShare, IsShareOf};

use module_prices::unit_pair;
use net_core::{Link, List, NoMemory};
use plan_types::Share;
use std::alloc::Global;

/// What a share gives a link, and what it costs, both over the scale.
#[derive(Clone, Copy)]
pub struct LinkShare {
    pub num: u128,
    pub cost: u128,
}

/// What a share gives the links, and what it costs, both over the scale.
#[derive(Drop)]
pub struct WholeShare {
    pub nums: List<u128>,
    pub cost: u128,
}

/// What units of a link's unit pair give and cost.
fn share_of(l: &Link, scale: u64, units: u64) -> LinkShare
    requires fixed { l.now.fixed < 2 ^ 40 }
    requires sound { All IsModule l.now.modules }
    requires scale { scale < 2 ^ 62 }
    requires units { units < 2 ^ 62 }
    ensures value { IsShareOf l.now scale units result.num result.cost }
    ensures num { result.num < 2 ^ 127 }
    ensures cost { result.cost ≤ 2 ^ 102 }
{
    let fixed = l.fixed as u128 * scale as u128;
    match unit_pair(l.modules.items()) {
        Some(pair) => LinkShare {
            num: fixed + pair.capacity as u128 * units as u128,
            cost: pair.cost as u128 * units as u128,
        },
        None => LinkShare {
            num: fixed,
            cost: 0,
        },
    }
}

/// What a share gives all links and costs. It takes a number for each link.
pub(crate) fn whole_share(
    alloc: Global,
    links: &[Link],
    share: &Share,
) -> Result<WholeShare, NoMemory>
    requires few { length links.now ≤ most_links }
    requires sound { All (λ l. (l.fixed < 2 ^ 40) × All IsModule l.modules) links.now }
    requires scale { share.now.scale < 2 ^ 62 }
    requires count { length share.now.units ≡ length links.now }
    requires units { All (λ n. n < 2 ^ 62) share.now.units }
    ensures value { IfOk result (λ w. GivesShare links.now share.now w.nums w.cost) }
    ensures low { IfOk result (λ w. All (λ n. n < 2 ^ 127) w.nums) }
{
    let mut nums = List::new(alloc);
    let mut cost = 0;
    for e in 0..links.len() {
        let given = share_of(&links[e], share.scale, share.units.items()[e]);
        nums.push(given.num)?;
        cost += given.cost;
    }
    Ok(WholeShare { nums, cost })
}
