ghost use Rattle.std.specs.Prelude.{◌≡◌, ℕ, ◌+◌, ◌*◌, ◌^◌, ◌≤◌, ◌<◌, All, IfOk, IsTrue, if◌then◌else◌, slice_index};
ghost use Rattle.plan_terms.specs.Terms.{names_link, load};

use net_core::{Caps, Flow, LinkId, List, NoMemory, Routing};
use std::alloc::Global;

/// Takes an amount from the room of each link of a path, unless some link has less.
fn take_path(room: &mut [u128], path: &[LinkId], num: u128) -> bool
    ensures { IsTrue result → (e : ℕ) → slice_index room.new e + (if names_link e path.now then num else 0) ≤ slice_index room.old e }
{
    for x in path {
        let at = x.0 as usize;
        if at >= room.len() || room[at] < num {
            return false;
        }
        room[at] -= num;
    }
    true
}

/// Takes all flows from the room of the links, unless some link has less.
fn take_flows(room: &mut [u128], flows: &[Flow]) -> bool
    ensures { IsTrue result → (e : ℕ) → load flows.now e ≤ slice_index room.old e }
{
    for f in flows {
        if !take_path(room, f.path.items(), f.num) {
            return false;
        }
    }
    true
}

/// What capacities hold of flows over a denominator.
fn rooms(alloc: Global, nums: &[u128], den: u64) -> Result<List<u128>, NoMemory>
    requires { All (λ n. n < 2 ^ 62) nums.now }
    ensures { IfOk result (λ rooms. (e : ℕ) → slice_index rooms e ≡ slice_index nums.now e * den) }
{
    let mut rooms = List::from_vec(Vec::with_capacity(alloc, nums.len())?);
    for n in nums {
        rooms.push(*n * den as u128)?;
    }
    Ok(rooms)
}

/// Whether what a routing brings onto each link is within whole capacities. It takes time in the number of links along its flows.
pub fn is_within(alloc: Global, routing: &Routing, caps: &Caps) -> Result<bool, NoMemory>
    requires { All (λ n. n < 2 ^ 62) caps.now.nums }
    ensures { IfOk result (λ b. IsTrue b → (e : ℕ) → load routing.now.flows e ≤ slice_index caps.now.nums e * routing.now.den) }
{
    let mut room = rooms(alloc, caps.nums.items(), routing.den)?;
    Ok(take_flows(room.items_mut(), routing.flows.items()))
}
