ghost use Rattle.std.{specs.Prelude.{◌≡◌, ◌<◌, All, IfOk, length, map}, specs.List.Sorted.{IsPermutation, IsNonDecreasingBy}};
ghost use Rattle.path_split.{specs.Balances.{IsArc, other_end}, specs.inner.Legs.leg_of};

use crate::arc::Arc;
use net_core::{Link, LinkId, List, NoMemory, NodeId};
use std::alloc::Global;

/// An arc with both of its nodes.
#[derive(Clone, Copy, Debug, PartialEq, Eq)]
pub struct Leg {
    pub link: LinkId,
    pub from: NodeId,
    pub to: NodeId,
    pub num: u64,
}

/// The end of a link that isn't this one.
fn other_end(l: &Link, at: NodeId) -> NodeId
    ensures { result.0 ≡ other_end l.now at.0 }
{
    if l.a.0 == at.0 { l.b } else { l.a }
}

fn leg_of(links: &[Link], arc: &Arc) -> Leg
    requires { arc.now.link.0 < length links.now }
    ensures { result ≡ leg_of links.now arc.now }
{
    Leg {
        link: arc.link,
        from: arc.from,
        to: other_end(&links[arc.link.0 as usize], arc.from),
        num: arc.num,
    }
}

/// The arcs with both of their nodes, in their order.
fn legs_of(alloc: Global, links: &[Link], arcs: &[Arc]) -> Result<Vec<Leg>, NoMemory>
    requires { All (IsArc links.now) arcs.now }
    ensures { IfOk result (λ legs. legs.items ≡ map (leg_of links.now) arcs.now) }
{
    let mut legs = Vec::with_capacity(alloc, arcs.len())?;
    for arc in arcs {
        legs.push(leg_of(links, arc))?;
    }
    Ok(legs)
}

/// The legs, sorted by the node that they leave.
fn sorted(mut legs: Vec<Leg>) -> List<Leg>
    ensures same { IsPermutation legs.items result }
    ensures sorted { IsNonDecreasingBy (λ g. g.from.0) result }
{
    legs.sort_unstable_by_key(|g| g.from.0);
    List::from_vec(legs)
}

/// The arcs with both of their nodes, sorted by the node that they leave.
pub fn sorted_legs(alloc: Global, links: &[Link], arcs: &[Arc]) -> Result<List<Leg>, NoMemory>
    requires { All (IsArc links.now) arcs.now }
    ensures moved { IfOk result (λ legs. IsPermutation (map (leg_of links.now) arcs.now) legs) }
    ensures sorted { IfOk result (λ legs. IsNonDecreasingBy (λ g. g.from.0) legs) }
{
    let legs = legs_of(alloc, links, arcs)?;
    Ok(sorted(legs))
}
