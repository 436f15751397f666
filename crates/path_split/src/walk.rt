ghost use Rattle.std.specs.Prelude.{◌≡◌, ℕ, ◌+◌, ◌<◌, ◌≤◌, ◌⊎◌, All, IfOk, length, slice_index};
ghost use Rattle.path_split.{specs.inner.Legs.{IsStar, leg_at}, specs.inner.Trails.{AreSteady, Has, IsWalk, froms}};

use crate::leg::Leg;
use crate::star::next_leg;
use net_core::{List, NoMemory, NodeId};
use std::alloc::Global;

/// A walk along legs: their places, and the node to which the last one leads.
#[derive(Drop)]
pub struct Walk {
    pub trail: List<usize>,
    pub at: NodeId,
}

/// A walk along legs with flow left, until it is at `to` or at a node where it was before.
pub fn find_walk(
    alloc: Global,
    legs: &[Leg],
    lefts: &[u64],
    places: &mut [usize],
    seen: &mut [bool],
    from: NodeId,
    to: NodeId,
) -> Result<Walk, NoMemory>
    requires star { IsStar legs.now lefts.now places.old }
    requires sizes { length seen.old ≡ length places.old }
    requires from { from.0 < length places.old }
    requires steady { AreSteady legs.now lefts.now (length places.old) from.0 to.0 }
    ensures star { IsStar legs.now lefts.now places.new }
    ensures sizes { (length places.new ≡ length places.old) × (length seen.new ≡ length seen.old) }
    ensures walk { IfOk result (λ w. IsWalk legs.now lefts.now from.0 to.0 w.trail w.at.0) }
    ensures ends { IfOk result (λ w. (w.at.0 ≡ to.0) ⊎ Has w.at.0 (froms legs.now w.trail)) }
{
    seen.fill(false);
    let mut trail = List::new(alloc);
    let mut at = from;
    while at.0 != to.0 && !seen[at.0 as usize] {
        let k = next_leg(legs, lefts, places, at);
        seen[at.0 as usize] = true;
        trail.push(k)?;
        at = legs[k].to;
    }
    Ok(Walk { trail, at })
}

/// The place in a trail at which it leaves a node.
pub fn place_of(legs: &[Leg], trail: &[usize], at: NodeId) -> usize
    requires known { All (λ k. k < length legs.now) trail.now }
    requires has { Has at.0 (froms legs.now trail.now) }
    ensures place { result < length trail.now }
    ensures from { (leg_at legs.now (slice_index trail.now result)).from.0 ≡ at.0 }
{
    let mut i = 0;
    while legs[trail[i]].from.0 != at.0 {
        i += 1;
    }
    i
}
