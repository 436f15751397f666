ghost use Rattle.std.{specs.Prelude.{◌≡◌, ◌≢◌, ℕ, ◌+◌, ◌<◌, ◌≤◌, ◌⊎◌, [], All, IfErr, IfOk, length, slice_index, sum_by}, specs.List.AllByRecursion, specs.List.Sorted.IsNonDecreasingBy};
ghost use Rattle.plan_terms.specs.Terms.{AreDifferent};
ghost use Rattle.path_split.{specs.Balances.{AreNodesBalanced, IsArc, IsFirstUnbalanced}, specs.Splits.IsFlowSplit, specs.declared.arc.SplitFault.TheVariants.Unbalanced, specs.inner.Legs.{IsEven, IsStar, leg_at, nums}, specs.inner.Trails.{Has, IsLive, froms}, specs.inner.Remains.{Moves, Remains, TakesCircle, TakesPath}};

use crate::arc::{Arc, PathFlow, SplitFault};
use crate::balance::first_uneven;
use crate::leg::{Leg, sorted_legs};
use crate::star::{lefts_of, starts_of};
use crate::taking::{least_left, take_off, trail_links};
use crate::walk::{Walk, find_walk, place_of};
use net_core::{List, Network, NoMemory, NodeId};
use std::alloc::Global;

/// Takes a flow along a path off the legs, as much as goes there up to what is left of the need, and answers what is left then.
fn take_path(
    alloc: Global,
    legs: &[Leg],
    lefts: &mut [u64],
    trail: &[usize],
    left: u64,
    flows: &mut List<PathFlow>,
) -> Result<u64, NoMemory>
    requires live { AllByRecursion (λ k. IsLive legs.now lefts.old k) trail.now }
    requires long { length lefts.old ≡ length legs.now }
    requires different { AreDifferent (froms legs.now trail.now) }
    requires left { 0 < left }
    ensures { IfOk result (λ rest. TakesPath legs.now trail.now lefts.old lefts.new left rest flows.old flows.new) }
{
    let num = least_left(lefts, trail, left);
    let path = trail_links(alloc, legs, trail)?;
    flows.push(PathFlow { path, num })?;
    take_off(lefts, trail, num);
    Ok(left - num)
}

/// Takes off the circle at the end of a trail that is back at a node.
fn take_circle(legs: &[Leg], lefts: &mut [u64], trail: &[usize], at: NodeId)
    requires live { AllByRecursion (λ k. IsLive legs.now lefts.old k) trail.now }
    requires long { length lefts.old ≡ length legs.now }
    requires different { AreDifferent (froms legs.now trail.now) }
    requires back { Has at.0 (froms legs.now trail.now) }
    ensures { TakesCircle legs.now trail.now at.0 lefts.old lefts.new }
{
    let start = place_of(legs, trail, at);
    let circle = &trail[start..];
    let num = least_left(lefts, circle, lefts[trail[start]]);
    take_off(lefts, circle, num);
}

/// Takes off the path of a walk that is at `to`, or the circle of one that is back at a node. It answers what is left of the need.
fn take(
    alloc: Global,
    legs: &[Leg],
    lefts: &mut [u64],
    found: &Walk,
    to: NodeId,
    left: u64,
    flows: &mut List<PathFlow>,
) -> Result<u64, NoMemory>
    requires live { AllByRecursion (λ k. IsLive legs.now lefts.old k) found.now.trail }
    requires long { length lefts.old ≡ length legs.now }
    requires different { AreDifferent (froms legs.now found.now.trail) }
    requires ends { (found.now.at.0 ≡ to.0) ⊎ Has found.now.at.0 (froms legs.now found.now.trail) }
    requires left { 0 < left }
    ensures { IfOk result (λ rest. Moves legs.now found.now.trail found.now.at.0 to.0 lefts.old lefts.new left rest flows.old flows.new) }
{
    if found.at.0 == to.0 {
        return take_path(alloc, legs, lefts, found.trail.items(), left, flows);
    }
    take_circle(legs, lefts, found.trail.items(), found.at);
    Ok(left)
}

/// Takes off one path or circle after another, until nothing is left of the need.
fn take_all(
    alloc: Global,
    legs: &[Leg],
    lefts: &mut [u64],
    places: &mut [usize],
    seen: &mut [bool],
    from: NodeId,
    to: NodeId,
    need: u64,
) -> Result<List<PathFlow>, NoMemory>
    requires star { IsStar legs.now lefts.old places.old }
    requires sizes { length seen.old ≡ length places.old }
    requires from { from.0 < length places.old }
    requires ends { from.0 ≢ to.0 }
    requires heads { All (λ g. g.to.0 < length places.old) legs.now }
    requires state { Remains legs.now from.0 to.0 lefts.old need [] }
    ensures state { IfOk result (λ flows. Remains legs.now from.0 to.0 lefts.new 0 flows) }
    ensures met { IfOk result (λ flows. sum_by (λ f. f.num) flows ≡ need) }
{
    let mut flows = List::new(alloc);
    let mut left = need;
    while left > 0 {
        let found = find_walk(alloc, legs, lefts, places, seen, from, to)?;
        left = take(alloc, legs, lefts, &found, to, left, &mut flows)?;
    }
    Ok(flows)
}

/// The split of sorted legs that are balanced.
fn split_even(
    alloc: Global,
    legs: &[Leg],
    nodes: usize,
    from: NodeId,
    to: NodeId,
    need: u64,
) -> Result<List<PathFlow>, NoMemory>
    requires sorted { IsNonDecreasingBy (λ g. g.from.0) legs.now }
    requires known { All (λ g. (g.from.0 < nodes) × (g.to.0 < nodes)) legs.now }
    requires from { from.0 < nodes }
    requires to { to.0 < nodes }
    requires ends { from.0 ≢ to.0 }
    requires even { (x : ℕ) → x < nodes → IsEven legs.now from.0 to.0 need x }
    ensures state { IfOk result (λ flows. (lefts : List ℕ) × Remains legs.now from.0 to.0 lefts 0 flows) }
    ensures met { IfOk result (λ flows. sum_by (λ f. f.num) flows ≡ need) }
{
    let mut lefts = lefts_of(alloc, legs)?;
    let mut places = starts_of(alloc, legs, nodes)?;
    let mut seen = vec![in alloc; false; nodes]?;
    take_all(
        alloc,
        legs,
        &mut lefts,
        &mut places,
        &mut seen,
        from,
        to,
        need,
    )
}

/// Splits balanced flow on arcs into flows along paths, which have no node twice. Arcs may come more than once, and in both
/// directions of a link. Circles are dropped. It takes memory in the arcs, the nodes and the links of the paths that it gives, and time
/// in the arcs times the nodes, beside sorting the arcs.
///
/// For a need of 12 from A to C, 12 on the link AC and a circle of 3 from A over B and C split into flows over AC, or over AB and
/// BC, that sum to 12.
pub fn split_flow(
    alloc: Global,
    net: &Network,
    from: NodeId,
    to: NodeId,
    need: u64,
    arcs: &List<Arc>,
) -> Result<List<PathFlow>, SplitFault>
    requires from { from.0 < length net.now.nodes }
    requires to { to.0 < length net.now.nodes }
    requires ends { from.0 ≢ to.0 }
    requires arcs { All (IsArc net.now.links) arcs.now }
    requires few { length arcs.now ≤ 65536 }
    ensures balanced { IfOk result (λ flows. AreNodesBalanced (length net.now.nodes) net.now.links arcs.now from.0 to.0 need) }
    ensures split { IfOk result (λ flows. IsFlowSplit net.now.links arcs.now from.0 to.0 need flows) }
    ensures unbalanced { IfErr result (λ fault. (n : ℕ) → fault ≡ Unbalanced (record { 0 = n })
        → IsFirstUnbalanced (length net.now.nodes) net.now.links arcs.now from.0 to.0 need n) }
{
    let nodes = net.nodes().len();
    let legs = sorted_legs(alloc, net.links().items(), arcs.items())?;
    match first_uneven(alloc, legs.items(), nodes, from, to, need)? {
        Some(node) => Err(SplitFault::Unbalanced(node)),
        None => {
            let flows = split_even(alloc, legs.items(), nodes, from, to, need)?;
            Ok(flows)
        }
    }
}
