ghost use Rattle.std.specs.Prelude.{◌≡◌, ℕ, ◌+◌, ◌<◌, ◌≤◌, ◌^◌, ◌⊎◌, All, IfNone, IfOk, IfSome, false, true, length, min, slice_index, slice_index_or, slice_set};
ghost use Rattle.short_paths.{specs.inner.ForwardStars.{HasArc, HaveLengths}, specs.inner.Tables.IsTable};

use crate::forward_star::{Arc, ForwardStar};
use net_core::{Lengths, List, NoMemory, NodeId};
use std::alloc::Global;

/// The number of a node that isn't reached.
pub const FAR: u128 = u128::MAX;

/// The lengths in the width of a search, which is 128 bits whatever the lengths are, since prices below 2^62 add up beyond 64.
pub fn widened(alloc: Global, lengths: &Lengths) -> Result<List<u128>, NoMemory>
    ensures same { IfOk result (λ wide. wide ≡ lengths.now) }
    ensures short { IfOk result (λ wide. (e : ℕ) → slice_index wide e < 2 ^ 32) }
{
    let mut wide = List::from_vec(Vec::with_capacity(alloc, lengths.len())?);
    for length in lengths.items() {
        wide.push(*length as u128)?;
    }
    Ok(wide)
}

/// The nearest node that is reached and not settled.
fn nearest(found: &[u128], settled: &[bool]) -> Option<NodeId>
    requires sizes { length settled.now ≡ length found.now }
    requires few { length found.now ≤ 128 }
    ensures none { IfNone result ((k : ℕ) → slice_index_or settled.now k true ≡ false → slice_index found.now k ≡ FAR) }
    ensures open { IfSome result (λ at. (at.0 < length found.now) × (slice_index_or settled.now at.0 true ≡ false)) }
    ensures near { IfSome result (λ at. slice_index found.now at.0 < FAR) }
    ensures least { IfSome result (λ at. (k : ℕ) → slice_index_or settled.now k true ≡ false → slice_index found.now at.0 ≤ slice_index found.now k) }
{
    let mut at = 0;
    let mut least = FAR;
    for k in 0..found.len() {
        if !settled[k] && found[k] < least {
            at = k;
            least = found[k];
        }
    }
    if least == FAR {
        None
    } else {
        Some(NodeId(at as u32))
    }
}

/// Keeps the smaller distance at the arc's head.
fn improve(arc: &Arc, lengths: &[u128], far: u128, found: &mut [u128])
    requires link { arc.now.link.0 < length lengths.now }
    requires short { slice_index lengths.now arc.now.link.0 < 2 ^ 100 }
    requires head { arc.now.to.0 < length found.old }
    requires near { far < 2 ^ 120 }
    ensures { found.new ≡ slice_set found.old arc.now.to.0 (min (slice_index found.old arc.now.to.0) (far + slice_index lengths.now arc.now.link.0)) }
{
    let by = far + lengths[arc.link.0 as usize];
    let head = arc.to.0 as usize;
    found[head] = found[head].min(by);
}

/// Relaxes each arc that leaves a node.
fn relax(star: &ForwardStar, lengths: &[u128], at: NodeId, found: &mut [u128])
    requires lengths { HaveLengths star.now.arcs lengths.now }
    requires nodes { length star.now.starts ≡ length found.old + 1 }
    requires at { at.0 < length found.old }
    requires near { slice_index found.old at.0 < 2 ^ 120 }
    ensures lower { (k : ℕ) → slice_index found.new k ≤ slice_index found.old k }
    ensures all { (e y : ℕ) → HasArc star.now.arcs e at.0 y → slice_index found.new y ≤ slice_index found.old at.0 + slice_index lengths.now e }
    ensures sound { (k : ℕ) → (slice_index found.new k ≡ slice_index found.old k)
        ⊎ ((e : ℕ) × HasArc star.now.arcs e at.0 k
        × (slice_index found.new k ≡ slice_index found.old at.0 + slice_index lengths.now e)) }
{
    let far = found[at.0 as usize];
    for arc in star.leaving(at) {
        improve(arc, lengths, far, found);
    }
}

/// Settles one node after another, the nearest first.
fn settle_all(
    star: &ForwardStar,
    lengths: &[u128],
    from: NodeId,
    found: &mut [u128],
    settled: &mut [bool],
)
    requires lengths { HaveLengths star.now.arcs lengths.now }
    requires nodes { length star.now.starts ≡ length found.old + 1 }
    requires sizes { length settled.old ≡ length found.old }
    requires from { from.0 < length found.old }
    requires start { slice_index found.old from.0 ≡ 0 }
    requires others { (k : ℕ) → k < length found.old → (k ≡ from.0) ⊎ (slice_index found.old k ≡ FAR) }
    requires unset { All (λ b. b ≡ false) settled.old }
    ensures { IsTable (HasArc star.now.arcs) lengths.now FAR from.0 found.new }
{
    while let Some(at) = nearest(found, settled) {
        settled[at.0 as usize] = true;
        relax(star, lengths, at, found);
    }
}

/// The room of a search: the distance found so far of each node, and whether the node is settled.
#[derive(Drop)]
pub struct Search {
    found: Vec<u128>,
    settled: Vec<bool>,
    pub ghost sizes: { length settled.items ≡ length found.items },
}

/// Finds the distances from a node, whatever the list holds before.
fn fill(
    star: &ForwardStar,
    lengths: &[u128],
    from: NodeId,
    found: &mut [u128],
    settled: &mut [bool],
)
    requires lengths { HaveLengths star.now.arcs lengths.now }
    requires nodes { length star.now.starts ≡ length found.old + 1 }
    requires sizes { length settled.old ≡ length found.old }
    requires from { from.0 < length found.old }
    ensures { IsTable (HasArc star.now.arcs) lengths.now FAR from.0 found.new }
{
    found.fill(FAR);
    found[from.0 as usize] = 0;
    settled.fill(false);
    settle_all(star, lengths, from, found, settled);
}

impl Search {
    /// The room for a number of nodes.
    pub fn new(alloc: Global, nodes: usize) -> Result<Search, NoMemory>
        ensures { IfOk result (λ s. length s.found.items ≡ nodes) }
    {
        let found = vec![in alloc; FAR; nodes]?;
        let settled = vec![in alloc; false; nodes]?;
        Ok(Search { found, settled })
    }

    /// Finds the distance from one node to each, `FAR` where it isn't reached (Dijkstra's algorithm, with an array of labels).
    pub fn run(&mut self, star: &ForwardStar, lengths: &[u128], from: NodeId)
        requires lengths { HaveLengths star.now.arcs lengths.now }
        requires nodes { length star.now.starts ≡ length self.old.found.items + 1 }
        requires from { from.0 < length self.old.found.items }
        ensures size { length self.new.found.items ≡ length self.old.found.items }
        ensures table { IsTable (HasArc star.now.arcs) lengths.now FAR from.0 self.new.found.items }
    {
        fill(star, lengths, from, &mut self.found, &mut self.settled);
    }

    /// What the last run found, one distance for each node.
    pub fn found(&self) -> &[u128]
        ensures { result.now ≡ self.now.found.items }
    {
        &self.found
    }
}
