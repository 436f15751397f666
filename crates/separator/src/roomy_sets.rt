ghost use Rattle.std.specs.Prelude.{◌≡◌, ◌<◌, ◌≤◌, ◌+◌, ◌*◌, IfOk, IfSome, length};
ghost use Rattle.plan_terms.specs.Terms.{graph_in, case_of};
ghost use Rattle.separator.{specs.Findings.IsFoundCutOf, specs.Rooms.{HasRoomOver, IsRoomOver}};

use metric_cut::{Cut, are_narrow, violated_by};
use net_core::{Caps, Instance, List, NoMemory, StateId};
use node_sets::{RoundSets, round_set};
use std::alloc::Global;

/// The parts of a capacity that it is given more, the largest first.
const PARTS: [u128; 5] = [8, 32, 128, 1_024, 8_192];

/// At this level of room and above there is none; at 0 there is most.
pub const NO_ROOM: u32 = 5;

/// Sets of nodes that grow at capacities with some room, for all states of a round.
#[derive(Drop)]
pub struct RoomySets {
    /// These capacities; where there is none, the sets grow at those of the round.
    room: Option<Caps>,
    sets: RoundSets,
}

/// The mean of the capacities, rounded down.
fn mean_of(nums: &[u128]) -> u128 {
    let mut sum: u128 = 0;
    for num in nums {
        sum = sum.saturating_add(*num);
    }
    sum.checked_div(nums.len() as u128).unwrap_or(0)
}

/// A capacity in whole thousandths, rounded up, and a part of it and of the mean more.
fn roomy_num(num: u128, mean: u128, part: u128, scale: u64) -> u128
    requires { 0 < scale }
    ensures { num ≤ result * scale }
{
    let scale = scale as u128;
    let more = num.saturating_add(mean) / scale;
    num.div_ceil(scale)
        .saturating_add(more.checked_div(part).unwrap_or(0))
}

/// Capacities in whole thousandths with a part of each and of the mean more.
fn with_room(alloc: Global, caps: &Caps, part: u128) -> Result<Caps, NoMemory>
    requires { 0 < caps.now.scale }
    ensures { IfOk result (IsRoomOver caps.now) }
{
    let mean = mean_of(caps.nums.items());
    let mut nums = List::new(alloc);
    for num in caps.nums.items() {
        nums.push(roomy_num(*num, mean, part, caps.scale))?;
    }
    Ok(Caps { scale: 1, nums })
}

/// Capacities with the room of a level; `None` where it has none, or numbers are too wide for a test of a cut.
fn room_at(alloc: Global, caps: &Caps, level: u32) -> Result<Option<Caps>, NoMemory>
    requires { 0 < caps.now.scale }
    ensures { IfOk result (λ o. IfSome o (IsRoomOver caps.now)) }
{
    if !are_narrow(caps.nums.items()) {
        return Ok(None);
    }
    match PARTS.get(level as usize) {
        Some(part) => Ok(Some(with_room(alloc, caps, *part)?)),
        None => Ok(None),
    }
}

/// The sets of nodes that grow where no link fails, for all states that are asked at these capacities.
fn sets_at(alloc: Global, instance: &Instance, caps: &Caps) -> Result<RoundSets, NoMemory>
    requires scale { 0 < caps.now.scale }
    requires caps { length caps.now.nums ≡ length instance.now.net.now.links }
{
    RoundSets::grow(alloc, &instance.task(StateId(0), caps))
}

/// The sets of nodes that grow where no link fails, at capacities with the room of a level: the most at 0, and none from `NO_ROOM` on.
///
/// Sets that are violated with room are violated by more, so that the cuts of a round are deep, and fewer.
///
/// It takes time in the cube of the nodes, and 56 bytes times their square.
pub fn sets_of_round(
    alloc: Global,
    instance: &Instance,
    caps: &Caps,
    level: u32,
) -> Result<RoomySets, NoMemory>
    requires scale { 0 < caps.now.scale }
    requires caps { length caps.now.nums ≡ length instance.now.net.now.links }
    ensures { IfOk result (HasRoomOver caps.now) }
{
    let room = room_at(alloc, caps, level)?;
    let sets = match &room {
        Some(room) => sets_at(alloc, instance, room)?,
        None => sets_at(alloc, instance, caps)?,
    };
    Ok(RoomySets { room, sets })
}

/// A cut of a set of nodes that capacities violate in a state, as `round_set` finds it.
fn set_at(
    alloc: Global,
    instance: &Instance,
    state: StateId,
    caps: &Caps,
    sets: &RoundSets,
) -> Result<Option<Cut>, NoMemory>
    requires state { state.0 < length instance.now.states.now.listed + 1 }
    requires scale { 0 < caps.now.scale }
    requires caps { length caps.now.nums ≡ length instance.now.net.now.links }
    ensures { IfOk result (λ o. IfSome o (IsFoundCutOf (graph_in (case_of instance.now) state.0) instance.now.demands.now caps.now)) }
{
    round_set(alloc, &instance.task(state, caps), sets)
}

/// A cut that capacities with room violate, if those of the round violate it.
fn if_violated(
    instance: &Instance,
    state: StateId,
    caps: &Caps,
    room: &Caps,
    cut: Cut,
) -> Result<Option<Cut>, NoMemory>
    requires state { state.0 < length instance.now.states.now.listed + 1 }
    requires scale { 0 < caps.now.scale }
    requires caps { length caps.now.nums ≡ length instance.now.net.now.links }
    requires cut { IsFoundCutOf (graph_in (case_of instance.now) state.0) instance.now.demands.now room.now cut }
    ensures { IfOk result (λ o. IfSome o (IsFoundCutOf (graph_in (case_of instance.now) state.0) instance.now.demands.now caps.now)) }
{
    let line = cut.line(instance.demands)?;
    if are_narrow(caps.nums.items()) && violated_by(&line, caps) {
        Ok(Some(cut))
    } else {
        Ok(None)
    }
}

/// A cut of a set of nodes that the capacities violate in a state, and with room for a margin, as `round_set` finds it, or none; sets may be
/// violated even so.
///
/// It takes the time and the memory of `round_set`.
pub fn set_in_state(
    alloc: Global,
    instance: &Instance,
    state: StateId,
    caps: &Caps,
    sets: &RoomySets,
) -> Result<Option<Cut>, NoMemory>
    requires state { state.0 < length instance.now.states.now.listed + 1 }
    requires scale { 0 < caps.now.scale }
    requires caps { length caps.now.nums ≡ length instance.now.net.now.links }
    requires room { HasRoomOver caps.now sets.now }
    ensures { IfOk result (λ o. IfSome o (IsFoundCutOf (graph_in (case_of instance.now) state.0) instance.now.demands.now caps.now)) }
{
    let Some(room) = &sets.room else {
        return set_at(alloc, instance, state, caps, &sets.sets);
    };
    match set_at(alloc, instance, state, room, &sets.sets)? {
        Some(cut) => if_violated(instance, state, caps, room, cut),
        None => Ok(None),
    }
}
