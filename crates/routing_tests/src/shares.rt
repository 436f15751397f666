ghost use Rattle.std.specs.Prelude.{◌≡◌, ◌<◌, IfSome, length};
ghost use Rattle.plan_terms.specs.Terms.{case, AreCounts, IsSurvivable};

use crate::fixtures::{THREE_LINKS, TRIANGLE, is_survivable, with_single_failures};
use module_choice::fallback_plan;
use net_core::{Counts, Instance, List, Network, Problem};
use plan_types::{Cause, Quality, Share};
use share_covers::{Chosen, InstalledRoutes, choose, cover_share, route_installed, share_needs};
use std::alloc::Global;
use worked_networks::{LinkRow, ONE, PARALLEL, network};

/// Two parallel links, the first without a module.
const ONE_BARE: [LinkRow; 2] = [(0, 1, 0, &[]), (0, 1, 0, &ONE)];

/// One link with modules of 1.00 for 1.00.
const SINGLE: [LinkRow; 1] = [(0, 1, 0, &ONE)];

/// The share with these units over a scale; `None` if it isn't one of the network.
fn share_of(alloc: Global, net: &Network, scale: u64, units: &[u64]) -> Option<Share>
    ensures scale { IfSome result (λ share. 0 < share.scale) }
    ensures units { IfSome result (λ share. length share.units ≡ length net.now.links) }
{
    if scale == 0 || units.len() != net.links().len() {
        return None;
    }
    Some(Share {
        scale,
        units: List::from_slice(alloc, units).ok()?,
    })
}

/// Whether these are the counts of all links, one after another.
fn are_counts(counts: &Counts, want: &[u64]) -> bool {
    let mut rest = want;
    for c in counts.items() {
        match rest.strip_prefix(c.items()) {
            Some(after) => rest = after,
            None => return false,
        }
    }
    rest.is_empty()
}

/// The number of nodes, the links, the scale and the units of a share, what each link needs for it, and the counts that cover this with their
/// cost.
struct Cover {
    nodes: usize,
    links: &'static [LinkRow<'static>],
    scale: u64,
    units: &'static [u64],
    needs: &'static [u64],
    counts: &'static [u64],
    cost: u128,
}

/// Modules of 1.00 for 1.00 have the unit pair 1 for 1, and those of 10.00 for 5.00 have 2 for 1. A link needs its units over the scale times
/// the pair's capacity, rounded up: 10000 / 3 give 3334, which four modules of 1.00 cover, and 6000 * 2 = 12000, which two of 10.00 do. It
/// never needs more than 2^44 - 1, for all demands together need less than one more.
const COVERS: [Cover; 6] = [
    Cover {
        nodes: 2,
        links: &THREE_LINKS,
        scale: 1,
        units: &[5000; 3],
        needs: &[5000; 3],
        counts: &[5; 3],
        cost: 15000,
    },
    Cover {
        nodes: 2,
        links: &PARALLEL,
        scale: 3,
        units: &[10000; 4],
        needs: &[3334; 4],
        counts: &[4; 4],
        cost: 16000,
    },
    Cover {
        nodes: 3,
        links: &TRIANGLE,
        scale: 1,
        units: &[6000; 3],
        needs: &[12000; 3],
        counts: &[2; 3],
        cost: 30000,
    },
    Cover {
        nodes: 3,
        links: &TRIANGLE,
        scale: 1,
        units: &[0, 0, 6000],
        needs: &[0, 0, 12000],
        counts: &[0, 0, 2],
        cost: 10000,
    },
    Cover {
        nodes: 2,
        links: &ONE_BARE,
        scale: 2,
        units: &[7, 2001],
        needs: &[0, 1001],
        counts: &[2],
        cost: 2000,
    },
    Cover {
        nodes: 2,
        links: &SINGLE,
        scale: 1,
        units: &[1 << 62],
        needs: &[(1 << 44) - 1],
        counts: &[17592186045],
        cost: 17592186045000,
    },
];

fn are_needs(alloc: Global, net: &Network, share: &Share, want: &[u64]) -> bool
    requires scale { 0 < share.now.scale }
    requires units { length share.now.units ≡ length net.now.links }
{
    match share_needs(alloc, net, share) {
        Ok(needs) => needs.items() == want,
        Err(_) => false,
    }
}

fn is_covered_by(alloc: Global, net: &Network, share: &Share, of: &Cover) -> bool
    requires scale { 0 < share.now.scale }
    requires units { length share.now.units ≡ length net.now.links }
{
    match cover_share(alloc, net, share) {
        Ok(installed) => { are_counts(&installed.counts, of.counts) && installed.cost == of.cost }
        Err(_) => false,
    }
}

fn is_covered(alloc: Global, net: &Network, of: &Cover) -> bool {
    match share_of(alloc, net, of.scale, of.units) {
        Some(share) => {
            are_needs(alloc, net, &share, of.needs) && is_covered_by(alloc, net, &share, of)
        }
        None => false,
    }
}

/// Whether the cover's share has its needs, counts and cost, on the cover's links.
fn is_covered_there(alloc: Global, of: &Cover) -> bool {
    match network(alloc, of.nodes, of.links) {
        Ok(net) => is_covered(alloc, &net, of),
        Err(_) => false,
    }
}

#[test]
fn covers_of_shares(rt: HostRuntime) {
    for of in &COVERS {
        assert!(rt; is_covered_there(rt.alloc(), of), "cost {}", of.cost);
    }
}

/// Whether these counts have too little capacity in this state, or in no state if there is none.
fn are_short(alloc: Global, p: &Problem, counts: &Counts, want: Option<u32>) -> bool
    requires survivable { IsSurvivable (case p.now.net p.now.states p.now.demands) }
    requires counts { AreCounts p.now.net.links counts.now }
{
    let instance = Instance {
        net: &p.net,
        states: &p.states,
        demands: &p.demands,
    };
    match route_installed(alloc, &instance, counts) {
        Ok(InstalledRoutes::Short(state)) => want == Some(state.0),
        Ok(_) => want.is_none(),
        Err(_) => false,
    }
}

/// Whether the cover of the share has too little capacity in the state that the choice names.
fn is_short(alloc: Global, p: &Problem, share: &Share, of: &Choice) -> bool
    requires survivable { IsSurvivable (case p.now.net p.now.states p.now.demands) }
    requires scale { 0 < share.now.scale }
    requires units { length share.now.units ≡ length p.now.net.links }
{
    match cover_share(alloc, &p.net, share) {
        Ok(installed) => are_short(alloc, p, &installed.counts, of.short),
        Err(_) => false,
    }
}

/// What is chosen for a share if the bound is loose.
fn chosen_for(alloc: Global, p: &Problem, share: &Share) -> Option<Chosen>
    requires survivable { IsSurvivable (case p.now.net p.now.states p.now.demands) }
    requires scale { 0 < share.now.scale }
    requires units { length share.now.units ≡ length p.now.net.links }
{
    let instance = Instance {
        net: &p.net,
        states: &p.states,
        demands: &p.demands,
    };
    let fallback = fallback_plan(alloc, &p.net, &p.states, &p.demands).ok()?;
    choose(
        alloc,
        &instance,
        fallback,
        share,
        Quality::Loose(Cause::Cuts),
    )
    .ok()
}

/// The last node, the links, a need between the first node and the last, the scale and the units of a share, the first state in which its
/// cover has too little capacity, and the counts that are chosen with their cost.
struct Choice {
    last: u32,
    links: &'static [LinkRow<'static>],
    need: u64,
    scale: u64,
    units: &'static [u64],
    short: Option<u32>,
    counts: &'static [u64],
    cost: u128,
}

/// Each link fails alone. On parallel links the fallback plan has ten modules on each of the first two, for 20.00. A cover is chosen if it
/// carries the demand and costs less, as 3 * 5 and 4 * 4 modules do. With counts of 5, 5 and 4 there are 5 + 4 = 9 for 10.00 if the first
/// link fails, and 3 * 7 = 21 modules cost more.
const CHOICES: [Choice; 5] = [
    Choice {
        last: 1,
        links: &THREE_LINKS,
        need: 10000,
        scale: 1,
        units: &[5000; 3],
        short: None,
        counts: &[5, 5, 5],
        cost: 15000,
    },
    Choice {
        last: 1,
        links: &THREE_LINKS,
        need: 10000,
        scale: 1,
        units: &[5000, 5000, 4000],
        short: Some(1),
        counts: &[10, 10, 0],
        cost: 20000,
    },
    Choice {
        last: 1,
        links: &THREE_LINKS,
        need: 10000,
        scale: 1,
        units: &[7000; 3],
        short: None,
        counts: &[10, 10, 0],
        cost: 20000,
    },
    Choice {
        last: 1,
        links: &PARALLEL,
        need: 10000,
        scale: 3,
        units: &[10000; 4],
        short: None,
        counts: &[4; 4],
        cost: 16000,
    },
    Choice {
        last: 2,
        links: &TRIANGLE,
        need: 12000,
        scale: 1,
        units: &[6000; 3],
        short: None,
        counts: &[2; 3],
        cost: 30000,
    },
];

fn is_chosen_for(alloc: Global, p: &Problem, share: &Share, of: &Choice) -> bool
    requires survivable { IsSurvivable (case p.now.net p.now.states p.now.demands) }
    requires scale { 0 < share.now.scale }
    requires units { length share.now.units ≡ length p.now.net.links }
{
    match chosen_for(alloc, p, share) {
        Some(chosen) => are_counts(&chosen.counts, of.counts) && chosen.cost == of.cost,
        None => false,
    }
}

fn is_chosen(alloc: Global, p: &Problem, of: &Choice) -> bool {
    match share_of(alloc, &p.net, of.scale, of.units) {
        Some(share) => {
            is_survivable(alloc, p)
                && is_short(alloc, p, &share, of)
                && is_chosen_for(alloc, p, &share, of)
        }
        None => false,
    }
}

/// Whether the cover's capacity, the counts and the cost are those of the choice, on its links, each of which fails alone.
fn is_chosen_there(alloc: Global, of: &Choice) -> bool {
    let demands = [(0, of.last, of.need)];
    match with_single_failures(alloc, of.last as usize + 1, of.links, &demands) {
        Some(p) => is_chosen(alloc, &p, of),
        None => false,
    }
}

#[test]
fn choices(rt: HostRuntime) {
    for of in &CHOICES {
        assert!(rt; is_chosen_there(rt.alloc(), of), "cost {}", of.cost);
    }
}
