ghost use Rattle.std.specs.Prelude.{◌≡◌, ◌+◌, ◌<◌, IfOk, IfSome, length};

use net_core::{Caps, Instance, Link, LinkId, List, NoMemory, NodeId, StateId, Surviving};
use std::alloc::Global;

/// Adds an amount to a node's sum.
fn add_at(sums: &mut [u128], node: NodeId, amount: u128) {
    let at = node.0 as usize;
    if at < sums.len() {
        sums[at] = sums[at].saturating_add(amount);
    }
}

/// For each node, the sum of the needs of the demands that begin or end there.
fn needs_at(alloc: Global, instance: &Instance) -> Result<List<u128>, NoMemory> {
    let mut needs = List::filled(alloc, 0, instance.net.nodes().len())?;
    for d in instance.demands.items() {
        add_at(needs.items_mut(), d.from, d.need as u128);
        add_at(needs.items_mut(), d.to, d.need as u128);
    }
    Ok(needs)
}

/// Adds a link's capacity to the sums of both its ends.
fn add_link(rooms: &mut [u128], link: &Link, num: u128) {
    add_at(rooms, link.a, num);
    add_at(rooms, link.b, num);
}

/// For each node, the sum of the capacities of its surviving links.
fn rooms_at(alloc: Global, graph: &Surviving, nums: &[u128]) -> Result<List<u128>, NoMemory>
    requires { length nums.now ≡ length graph.now.net.now.links }
{
    let links = graph.net.links().items();
    let mut rooms = List::filled(alloc, 0, graph.net.nodes().len())?;
    for e in 0..links.len() {
        if graph.has(LinkId(e as u32)) {
            add_link(rooms.items_mut(), &links[e], nums[e]);
        }
    }
    Ok(rooms)
}

/// Whether the links at some node have less capacity than is needed there.
fn is_short(rooms: &[u128], needs: &[u128]) -> bool {
    for k in 0..needs.len() {
        if k < rooms.len() && rooms[k] < needs[k] {
            return true;
        }
    }
    false
}

/// The first state in which the surviving links of some node have less capacity together than the demands at it need. It takes time in
/// states times links and nodes.
pub(crate) fn short_state(
    alloc: Global,
    instance: &Instance,
    caps: &Caps,
) -> Result<Option<StateId>, NoMemory>
    requires { length caps.now.nums ≡ length instance.now.net.now.links }
    ensures { IfOk result (λ o. IfSome o (λ s. s.0 < length instance.now.states.now.listed + 1)) }
{
    let needs = needs_at(alloc, instance)?;
    for s in 0..instance.states.count() {
        let rooms = rooms_at(alloc, &instance.in_state(StateId(s)), caps.nums.items())?;
        if is_short(rooms.items(), needs.items()) {
            return Ok(Some(StateId(s)));
        }
    }
    Ok(None)
}
