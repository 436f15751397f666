ghost use Rattle.std.specs.Prelude.{IfOk, IfSome};
ghost use Rattle.plan_terms.specs.Terms.{graph_of};
ghost use Rattle.flow_router.specs.Answers.{IsRouted};

use crate::reach::{Arc, FAR, Reach};
use crate::routing_form::if_routed;
use flow_router::lowest;
use net_core::{Copied, Demand, Flow, LinkId, List, NoMemory, RouteTask, Routing};
use std::alloc::Global;

/// Capacities and needs past this count as this much.
const MOST: u128 = 1 << 62;

/// A capacity or a need as a number with a sign; past 2^62 it is 2^62. It takes constant time.
pub fn bounded(number: u128) -> i128 {
    number.min(MOST) as i128
}

/// What the links have left, below 0 where they have too little, and what is missing of each demand.
#[derive(Drop)]
struct Left {
    room: List<i128>,
    missing: List<u128>,
}

/// Adds an amount to the room of each link of a path.
fn give_back(room: &mut [i128], path: &[LinkId], amount: i128) {
    for link in path {
        let at = link.0 as usize;
        if at < room.len() {
            room[at] = room[at].wrapping_add(amount);
        }
    }
}

/// The least room of a path's links.
fn least_room(room: &[i128], path: &[LinkId]) -> i128 {
    let mut least = i128::MAX;
    for link in path {
        let at = link.0 as usize;
        if at < room.len() {
            least = least.min(room[at]);
        }
    }
    least
}

/// What a link holds over a denominator; none where the state fails it.
fn room_of(task: &RouteTask, e: usize, den: u64) -> i128 {
    let nums = task.caps.nums.items();
    if e < nums.len() && task.graph.has(LinkId(e as u32)) {
        bounded(nums[e]).wrapping_mul(den as i128)
    } else {
        0
    }
}

/// What the links hold over a denominator.
fn rooms_of(alloc: Global, task: &RouteTask, den: u64) -> Result<List<i128>, NoMemory> {
    let links = task.caps.nums.len();
    let mut room = List::from_vec(Vec::with_capacity(alloc, links)?);
    for e in 0..links {
        room.push(room_of(task, e, den))?;
    }
    Ok(room)
}

/// Takes flows from the room of the links of their paths.
fn take_flows(room: &mut [i128], flows: &[Flow]) {
    for f in flows {
        give_back(room, f.path.items(), 0i128.wrapping_sub(bounded(f.num)));
    }
}

/// Adds an amount to what is missing of a demand.
fn miss(missing: &mut [u128], demand: u32, amount: u128) {
    let at = demand as usize;
    if at < missing.len() {
        missing[at] = missing[at].saturating_add(amount);
    }
}

/// Takes as much of a flow away as its links have too little.
fn lessen(flow: &mut Flow, room: &mut [i128], missing: &mut [u128]) {
    let least = least_room(room, flow.path.items());
    if least < 0 {
        let less = least.unsigned_abs().min(flow.num);
        flow.num -= less;
        give_back(room, flow.path.items(), bounded(less));
        miss(missing, flow.demand, less);
    }
}

/// Takes flows away where links have too little, the last ones first.
fn lessen_all(flows: &mut [Flow], room: &mut [i128], missing: &mut [u128]) {
    let count = flows.len();
    for i in 0..count {
        lessen(&mut flows[count - 1 - i], room, missing);
    }
}

/// The demand of which most is missing.
fn most_missing(missing: &[u128]) -> usize {
    let mut at = 0;
    let mut most = 0;
    for k in 0..missing.len() {
        if missing[k] > most {
            at = k;
            most = missing[k];
        }
    }
    at
}

/// Opens the links that have room left, and no others.
fn open(arcs: &mut [Arc], room: &[i128]) {
    for arc in arcs {
        let at = arc.link.0 as usize;
        arc.length = if at < room.len() && room[at] > 0 {
            1
        } else {
            FAR
        };
    }
}

/// Takes as much of what is missing of a demand as fits along a path: how much that is.
fn take_along(left: &mut Left, path: &[LinkId], at: usize) -> u128 {
    let missing = left.missing.items_mut();
    if at >= missing.len() {
        return 0;
    }
    let room = left.room.items_mut();
    let num = least_room(room, path).unsigned_abs().min(missing[at]);
    missing[at] -= num;
    give_back(room, path, 0i128.wrapping_sub(bounded(num)));
    num
}

/// Sends as much of a demand as fits along a path of fewest links with room; `false` where there is none.
fn send(
    alloc: Global,
    flows: &mut List<Flow>,
    left: &mut Left,
    reach: &mut Reach,
    d: &Demand,
    at: usize,
) -> Result<bool, NoMemory> {
    let Ok(demand) = u32::try_from(at) else {
        return Ok(false);
    };
    open(reach.arcs_mut(), left.room.items());
    reach.search(d.to, Some(d.from));
    match reach.path(alloc, d.from)? {
        Some(path) => {
            let num = take_along(left, path.items(), at);
            flows.push(Flow { demand, path, num })?;
            Ok(true)
        }
        None => Ok(false),
    }
}

/// Whether something is missing of a demand.
fn is_missing(missing: &[u128], at: usize) -> bool {
    at < missing.len() && missing[at] > 0
}

/// Sends what is missing, of the demands of which most is missing first; `false` where some isn't sent.
fn send_in_turn(
    alloc: Global,
    demands: &[Demand],
    flows: &mut List<Flow>,
    left: &mut Left,
    reach: &mut Reach,
) -> Result<bool, NoMemory> {
    for _ in 0..demands.len() {
        let at = most_missing(left.missing.items());
        if at >= demands.len() || !is_missing(left.missing.items(), at) {
            return Ok(true);
        }
        if !send(alloc, flows, left, reach, &demands[at], at)? {
            return Ok(false);
        }
    }
    let missing = left.missing.items();
    Ok(!is_missing(missing, most_missing(missing)))
}

/// Sends what is missing along other paths; `false` where some isn't sent.
fn send_missing(
    alloc: Global,
    task: &RouteTask,
    flows: &mut List<Flow>,
    left: &mut Left,
) -> Result<bool, NoMemory> {
    let mut reach = Reach::new(alloc, &task.graph)?;
    send_in_turn(alloc, task.demands.items(), flows, left, &mut reach)
}

/// Takes away of flows over a denominator what doesn't fit, and sends it along other paths; `false` where some isn't sent.
fn mend(
    alloc: Global,
    task: &RouteTask,
    den: u64,
    flows: &mut List<Flow>,
) -> Result<bool, NoMemory> {
    let room = rooms_of(alloc, task, den)?;
    let missing = List::filled(alloc, 0, task.demands.len())?;
    let mut left = Left { room, missing };
    take_flows(left.room.items_mut(), flows.items());
    lessen_all(
        flows.items_mut(),
        left.room.items_mut(),
        left.missing.items_mut(),
    );
    send_missing(alloc, task, flows, &mut left)
}

/// The flows that carry something.
fn not_empty(flows: List<Flow>) -> List<Flow> {
    let mut kept = flows.into_vec();
    kept.retain(|flow| flow.num > 0);
    List::from_vec(kept)
}

/// A routing that carries a task's demands within its capacities and keeps most flows of an earlier one, of the task's state or of another:
/// what no longer fits, or goes over a link that the state fails, is sent along paths of fewest links with room. `None` says nothing.
///
/// The triangle AB, BC, AC with 4.00 on AB and BC and 2.00 on AC and a demand of 6.00 from A to C, of which 4.00 went over AC and 2.00
/// over AB and BC, gets 2.00 over AC and 2.00 twice over AB and BC.
///
/// It takes time in the links of the flows, a search for each demand of which some doesn't fit, and memory for a copy of the routing.
pub fn mended(
    alloc: Global,
    task: &RouteTask,
    earlier: &Routing,
) -> Result<Option<Routing>, NoMemory>
    ensures { IfOk result (λ o. IfSome o (IsRouted (graph_of task.now.graph) task.now.demands.now task.now.caps.now)) }
{
    let den = earlier.den;
    if den == 0 {
        return Ok(None);
    }
    let mut flows = earlier.flows.copy()?;
    if !mend(alloc, task, den, &mut flows)? {
        return Ok(None);
    }
    let flows = not_empty(flows);
    if_routed(alloc, task, lowest(Routing { den, flows }))
}
