ghost use Rattle.std.specs.Prelude.{◌≡◌, ◌<◌, All, length};
ghost use Rattle.plan_terms.specs.Terms.{AreDemands};

use crate::round::Round;
use net_core::{Demand, LinkId, NodeId, Surviving};

/// Whether lengths are tried in a state: if it fails links, only lengths that are positive on one of them.
///
/// A set of nodes that no failed link leaves has the same cut in this state as in `none`. Trying all lengths in all states would fill the
/// pool with copies of one inequality.
fn are_tried(graph: &Surviving, lengths: &[u32]) -> bool
    requires { length lengths.now ≡ length graph.now.net.now.links }
{
    if graph.state.0 == 0 {
        return true;
    }
    for e in 0..lengths.len() {
        if lengths[e] > 0 && graph.states.fails(graph.state, LinkId(e as u32)) {
            return true;
        }
    }
    false
}

/// The sum of capacity times length over the surviving links, as a numerator over the scale of the capacities.
fn given(graph: &Surviving, lengths: &[u32], nums: &[u128]) -> u128
    requires lengths { length lengths.now ≡ length graph.now.net.now.links }
    requires nums { length nums.now ≡ length lengths.now }
{
    let mut sum: u128 = 0;
    for e in 0..lengths.len() {
        if lengths[e] > 0 && graph.has(LinkId(e as u32)) {
            sum = sum.saturating_add((lengths[e] as u128).saturating_mul(nums[e]));
        }
    }
    sum
}

/// Merges the parts that two nodes are in. It takes time in the number of nodes.
fn join_parts(parts: &mut [u32], a: NodeId, b: NodeId)
    requires first { a.0 < length parts.old }
    requires second { b.0 < length parts.old }
    ensures { length parts.new ≡ length parts.old }
{
    let from = parts[a.0 as usize];
    let to = parts[b.0 as usize];
    for k in 0..parts.len() {
        if parts[k] == from {
            parts[k] = to;
        }
    }
}

/// Gives each node the number of its part: nodes that are joined by surviving links of length 0 are in one part.
fn number_parts(graph: &Surviving, lengths: &[u32], parts: &mut [u32])
    requires lengths { length lengths.now ≡ length graph.now.net.now.links }
    requires nodes { length parts.old ≡ length graph.now.net.now.nodes }
    ensures { length parts.new ≡ length parts.old }
{
    for k in 0..parts.len() {
        parts[k] = k as u32;
    }
    for e in 0..lengths.len() {
        if lengths[e] == 0 && graph.has(LinkId(e as u32)) {
            let link = &graph.net.links().items()[e];
            join_parts(parts, link.a, link.b);
        }
    }
}

/// The sum of the needs of demands between different parts. Their ends are at a distance of at least 1, so the lengths ask for no less than
/// this.
fn needed(demands: &[Demand], parts: &[u32]) -> u128
    requires { AreDemands (length parts.now) demands.now }
{
    let mut sum: u128 = 0;
    for d in demands {
        if parts[d.from.0 as usize] != parts[d.to.0 as usize] {
            sum = sum.saturating_add(d.need as u128);
        }
    }
    sum
}

/// How little the surviving links of a state give along lengths: the sum of capacity times length over the sum of the needs that cross it,
/// as a whole number over the scale of the capacities, rounded down. `None` where that may be enough, or where the lengths aren't tried in
/// the state.
///
/// `parts` has one number per node. It takes time in links times nodes, and no further memory.
pub fn depth(round: &Round, graph: &Surviving, lengths: &[u32], parts: &mut [u32]) -> Option<u128>
    requires net { graph.now.net.now ≡ round.now.instance.net.now }
    requires lengths { length lengths.now ≡ length graph.now.net.now.links }
    requires nodes { length parts.old ≡ length graph.now.net.now.nodes }
    ensures { length parts.new ≡ length parts.old }
{
    if !are_tried(graph, lengths) {
        return None;
    }
    let given = given(graph, lengths, round.caps.nums.items());
    number_parts(graph, lengths, parts);
    let needed = needed(round.instance.demands.items(), parts);
    if given < needed.saturating_mul(round.caps.scale as u128) {
        Some(given / needed.max(1))
    } else {
        None
    }
}
