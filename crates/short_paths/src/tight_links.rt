ghost use Rattle.std.specs.Prelude.{◌≡◌, ◌≢◌, ℕ, ◌+◌, ◌<◌, ◌↔◌, IfOk, IsErrOf, IsTrue, MatchOption, length, slice_index};
ghost use Rattle.short_paths.{specs.inner.ForwardStars.{HasArc, HaveLengths}, specs.inner.TightLinks.{Follows, IsFirstTight, IsTightLink, LeadsOn}};

use crate::dijkstra::FAR;
use crate::forward_star::{Arc, ForwardStar};
use net_core::{List, NoMemory, NodeId, Path};
use std::alloc::Global;

/// Why there is no path to answer.
#[derive(Clone, Copy)]
pub enum PathFault {
    /// No path leads from the one node to the other.
    Apart,
    /// The call ran out of memory.
    NoMemory,
}

impl From<NoMemory> for PathFault {
    ghost use Rattle.std.specs.Prelude.{◌≡◌};
    ghost use Rattle.short_paths.specs.declared.tight_links.PathFault.{PathFault};

    ghost from_gives = { λ _ fault. fault ≡ PathFault.NoMemory };

    fn from(_error: NoMemory) -> PathFault {
        PathFault::NoMemory
    }
}

/// Whether a length is the sum of two.
fn is_sum(whole: u128, by: u128, rest: u128) -> bool
    ensures { IsTrue result ↔ (whole ≡ by + rest) }
{
    rest <= whole && whole - rest == by
}

/// Whether an arc is tight: it leads on along a shortest path from a node at length `here`.
fn is_tight(arc: &Arc, lengths: &[u128], here: u128, back: &[u128]) -> bool
    requires link { arc.now.link.0 < length lengths.now }
    requires head { arc.now.to.0 < length back.now }
    ensures { IsTrue result ↔ (here ≡ slice_index lengths.now arc.now.link.0 + slice_index back.now arc.now.to.0) }
{
    is_sum(here, lengths[arc.link.0 as usize], back[arc.to.0 as usize])
}

/// Whether an arc's link comes before that of the other, if there is one.
fn is_before(arc: &Arc, other: Option<Arc>) -> bool
    ensures { MatchOption other (IsTrue result) (λ o. IsTrue result ↔ (arc.now.link.0 < o.link.0)) }
{
    match other {
        Some(o) => arc.link.0 < o.link.0,
        None => true,
    }
}

/// The first tight arc that leaves a node.
fn next_arc(star: &ForwardStar, lengths: &[u128], back: &[u128], at: NodeId) -> Option<Arc>
    requires lengths { HaveLengths star.now.arcs lengths.now }
    requires nodes { length star.now.starts ≡ length back.now + 1 }
    requires at { at.0 < length back.now }
    ensures { MatchOption result
        ((e y : ℕ) → IsTightLink (HasArc star.now.arcs) lengths.now back.now at.0 e y → ⊥)
        (λ a. (a.to.0 < length back.now) × IsFirstTight (HasArc star.now.arcs) lengths.now back.now at.0 a.link.0 a.to.0) }
{
    let here = back[at.0 as usize];
    let mut best = None;
    for arc in star.leaving(at) {
        if is_tight(arc, lengths, here, back) && is_before(arc, best) {
            best = Some(*arc);
        }
    }
    best
}

/// Takes at each node the first tight arc.
fn follow(
    alloc: Global,
    star: &ForwardStar,
    lengths: &[u128],
    back: &[u128],
    from: NodeId,
    to: NodeId,
) -> Result<Path, NoMemory>
    requires lengths { HaveLengths star.now.arcs lengths.now }
    requires nodes { length star.now.starts ≡ length back.now + 1 }
    requires from { from.0 < length back.now }
    requires leads { LeadsOn (HasArc star.now.arcs) lengths.now FAR to.0 back.now }
    requires found { slice_index back.now from.0 < FAR }
    ensures { IfOk result (Follows (HasArc star.now.arcs) lengths.now back.now to.0 from.0) }
{
    let mut path = List::new(alloc);
    let mut at = from;
    while at != to {
        let Some(arc) = next_arc(star, lengths, back, at) else {
            unreachable!();
        };
        path.push(arc.link)?;
        at = arc.to;
    }
    Ok(path)
}

/// The way from one node to another along first tight arcs, where `back` has the distance from each node to that other.
pub(crate) fn way_back(
    alloc: Global,
    star: &ForwardStar,
    lengths: &[u128],
    back: &[u128],
    from: NodeId,
    to: NodeId,
) -> Result<Path, PathFault>
    requires lengths { HaveLengths star.now.arcs lengths.now }
    requires nodes { length star.now.starts ≡ length back.now + 1 }
    requires from { from.0 < length back.now }
    requires leads { LeadsOn (HasArc star.now.arcs) lengths.now FAR to.0 back.now }
    ensures found { IfOk result (Follows (HasArc star.now.arcs) lengths.now back.now to.0 from.0) }
    ensures apart { IsErrOf result PathFault.Apart ↔ (slice_index back.now from.0 ≡ FAR) }
{
    if back[from.0 as usize] == FAR {
        return Err(PathFault::Apart);
    }
    let path = follow(alloc, star, lengths, back, from, to)?;
    Ok(path)
}
