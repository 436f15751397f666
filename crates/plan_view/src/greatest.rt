ghost use Rattle.std.specs.Prelude.{ℕ, ◌+◌, ◌*◌, ◌<◌, ◌^◌, ◌↔◌, IsTrue, length, slice_index};
ghost use Rattle.plan_terms.specs.Terms.{load};
ghost use Rattle.plan_view.specs.Loads.{den_in, load_in, IsFirstIfAny, IsFirstOfGreatest};

use crate::fractions::is_less;
use crate::loads::{is_loaded_less, load_of};
use net_core::{Flow, LinkId, Routing};

/// Whether a link is loaded less in the one state than in the other.
fn is_less_in(routings: &[Routing], one: u32, other: u32, link: LinkId) -> bool
    requires one { one < length routings.now }
    requires other { other < length routings.now }
    requires low { (s : ℕ) → load_in routings.now s link.0 < 2 ^ 128 }
    requires positive { (s : ℕ) → s < length routings.now → 0 < den_in routings.now s }
    ensures { IsTrue result ↔ (load_in routings.now one link.0 * den_in routings.now other
        < load_in routings.now other link.0 * den_in routings.now one) }
{
    is_loaded_less(&routings[one as usize], &routings[other as usize], link)
}

/// The first of the worst states, with the next one among them.
#[tactic(auto, using(crate::proofs::Firsts::greatest_kept))]
fn worse(routings: &[Routing], worst: u32, s: u32, link: LinkId) -> u32
    requires next { s < length routings.now }
    requires low { (s : ℕ) → load_in routings.now s link.0 < 2 ^ 128 }
    requires positive { (s : ℕ) → s < length routings.now → 0 < den_in routings.now s }
    requires worst { IsFirstOfGreatest s (λ s. load_in routings.now s link.0) (den_in routings.now) worst }
    ensures { IsFirstOfGreatest (s + 1) (λ s. load_in routings.now s link.0) (den_in routings.now) result }
{
    if is_less_in(routings, worst, s, link) {
        s
    } else {
        worst
    }
}

/// The first state in which a link is loaded most.
#[tactic(auto, using(crate::proofs::Firsts::greatest_one))]
pub(crate) fn worst_state(routings: &[Routing], link: LinkId) -> u32
    requires some { 0 < length routings.now }
    requires few { length routings.now < 2 ^ 32 }
    requires low { (s : ℕ) → load_in routings.now s link.0 < 2 ^ 128 }
    requires positive { (s : ℕ) → s < length routings.now → 0 < den_in routings.now s }
    ensures { IsFirstOfGreatest (length routings.now) (λ s. load_in routings.now s link.0) (den_in routings.now) result }
{
    let mut worst = 0;
    for s in 1..routings.len() as u32 {
        worst = worse(routings, worst, s, link);
    }
    worst
}

/// Whether a link is used less than another, which has to have some capacity.
fn is_used_less(capacities: &[u128], flows: &[Flow], one: u32, other: u32) -> bool
    requires one { one < length capacities.now }
    requires other { other < length capacities.now }
    requires positive { 0 < slice_index capacities.now one }
    requires low { (e : ℕ) → load flows.now e < 2 ^ 128 }
    ensures { IsTrue result ↔ ((0 < slice_index capacities.now other)
        × (load flows.now one * slice_index capacities.now other < load flows.now other * slice_index capacities.now one)) }
{
    let capacity = capacities[other as usize];
    if capacity == 0 {
        return false;
    }
    is_less(
        load_of(flows, LinkId(one)),
        capacities[one as usize],
        load_of(flows, LinkId(other)),
        capacity,
    )
}

/// The first of the fullest links, with the next one among them.
#[tactic(auto, using(crate::proofs::Firsts::greatest_first, crate::proofs::Firsts::greatest_kept, crate::proofs::Firsts::none_yet))]
fn fuller(capacities: &[u128], flows: &[Flow], fullest: Option<u32>, e: u32) -> Option<u32>
    requires next { e < length capacities.now }
    requires low { (e : ℕ) → load flows.now e < 2 ^ 128 }
    requires fullest { IsFirstIfAny e (load flows.now) (slice_index capacities.now) fullest }
    ensures { IsFirstIfAny (e + 1) (load flows.now) (slice_index capacities.now) result }
{
    match fullest {
        None => {
            if capacities[e as usize] == 0 {
                None
            } else {
                Some(e)
            }
        }
        Some(other) => {
            if is_used_less(capacities, flows, other, e) {
                Some(e)
            } else {
                Some(other)
            }
        }
    }
}

/// The first link of greatest use among those that have some capacity.
pub(crate) fn fullest_link(capacities: &[u128], flows: &[Flow]) -> Option<u32>
    requires few { length capacities.now < 2 ^ 32 }
    requires low { (e : ℕ) → load flows.now e < 2 ^ 128 }
    ensures { IsFirstIfAny (length capacities.now) (load flows.now) (slice_index capacities.now) result }
{
    let mut fullest = None;
    for e in 0..capacities.len() as u32 {
        fullest = fuller(capacities, flows, fullest, e);
    }
    fullest
}
