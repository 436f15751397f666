ghost use Rattle.std.specs.Prelude.{IsTrue};
ghost use Rattle.net_core.specs.Terms.{graph_of};
ghost use Rattle.key_paths.specs.Tasks.{HasNarrowBounds};

use key_paths::{bound_of, rows_of, solve_task};
use key_rows::path_of;
use net_core::{Caps, LinkId, List, Problem, RouteColumn, RouteTask, StateId, Surviving};
use simplex_core::{Optimum, SimplexFault};
use std::alloc::Global;
use worked_networks::{DemandRow, LinkRow, TEN, network, problem};

/// A state, the scale, the capacities of the links over it, and the greatest flow of all demands as a numerator and a denominator.
type Row = (u32, u64, &'static [u128], (u128, u128));

const NARROW: u128 = (1 << 62) - 1;

/// A network with demands, and rows of greatest flows in it.
struct Group {
    nodes: usize,
    links: &'static [LinkRow<'static>],
    demands: &'static [DemandRow],
    rows: &'static [Row],
}

/// The triangle with 12.00 from A to C, nothing from B to C and 4.00 from A to B: 16.00 in all. In state 3 the link AC fails. Where less is
/// carried, capacity is missing: in the second row the links at C have 1.999 + 10.000 for 12.000, in the third one 2.000 + 6.000, and in
/// state 3 AB has 15.999 for 16.000.
const ON_TRIANGLE: [Row; 8] = [
    (0, 1, &[6000, 2000, 10000], (16000, 1)),
    (0, 1, &[6000, 1999, 10000], (15999, 1)),
    (0, 1, &[10000, 2000, 6000], (12000, 1)),
    (0, 1, &[0, 0, 0], (0, 1)),
    (0, 1, &[0, 0, NARROW], (12000, 1)),
    (3, 1, &[15999, 12000, NARROW], (15999, 1)),
    (3, 2, &[NARROW, 23999, 0], (31999, 1)),
    (0, 1 << 48, &[NARROW, NARROW, NARROW], (16000 << 48, 1)),
];

/// Two hubs D and E, each with a link to A, B and C.
const TWO_HUBS: [LinkRow; 6] = [
    (0, 3, 0, &TEN),
    (1, 3, 0, &TEN),
    (2, 3, 0, &TEN),
    (0, 4, 0, &TEN),
    (1, 4, 0, &TEN),
    (2, 4, 0, &TEN),
];

/// One unit between each two of A, B and C, 3 in all. With one unit on each link half of each demand goes over each hub, and the links of one
/// hub carry 3 / 2. In state 1 the link AD fails, so that no more than one unit leaves A, and one goes from B to C.
const ON_TWO_HUBS: [Row; 4] = [
    (0, 1, &[1, 1, 1, 1, 1, 1], (3, 1)),
    (0, 2, &[2, 2, 2, 2, 2, 1], (5, 1)),
    (0, 1, &[1, 1, 1, 0, 0, 0], (3, 2)),
    (1, 1, &[1, 1, 1, 1, 1, 1], (2, 1)),
];

/// Five nodes, with demands from A to D and twice from B to C. The greatest flows of these and of the six nodes were found by another solver,
/// by the flows on the links.
const FIVE_NODES: [LinkRow; 7] = [
    (0, 1, 0, &TEN),
    (0, 2, 0, &TEN),
    (0, 4, 0, &TEN),
    (1, 3, 0, &TEN),
    (1, 4, 0, &TEN),
    (2, 3, 0, &TEN),
    (2, 4, 0, &TEN),
];

/// Capacities at which rows of a key's demand have denominators above 1, and a key leaves while other paths of its demand are in the basis.
const ON_FIVE_NODES: [Row; 5] = [
    (0, 1, &[3, 3, 2, 2, 1, 2, 3], (6, 1)),
    (0, 1, &[3, 3, 2, 2, 1, 3, 7], (6, 1)),
    (0, 2, &[7, 7, 3, 3, 6, 4, 3], (12, 1)),
    (7, 1, &[1, 2, 1, 6, 0, 4, 7], (5, 1)),
    (3, 1, &[2, 6, 2, 7, 1, 6, 3], (6, 1)),
];

/// Six nodes with links that were drawn at random.
const SIX_NODES: [LinkRow; 8] = [
    (0, 3, 0, &TEN),
    (0, 4, 0, &TEN),
    (1, 3, 0, &TEN),
    (2, 3, 0, &TEN),
    (2, 4, 0, &TEN),
    (2, 5, 0, &TEN),
    (3, 4, 0, &TEN),
    (4, 5, 0, &TEN),
];

/// States and capacities that were drawn at random, at which keys tie with each other and with rows.
const ON_SIX_NODES: [Row; 6] = [
    (7, 1, &[3, 3, 3, 1, 6, 1, 1, 3], (7, 1)),
    (0, 1, &[4, 6, 6, 7, 6, 6, 2, 3], (16, 1)),
    (5, 1, &[2, 4, 1, 1, 4, 1, 2, 2], (13, 2)),
    (8, 1, &[6, 1, 3, 6, 3, 4, 1, 1], (10, 1)),
    (4, 1, &[2, 1, 2, 1, 1, 1, 3, 0], (5, 1)),
    (2, 1, &[4, 1, 3, 4, 7, 1, 7, 6], (7, 1)),
];

/// The needs of the six nodes were drawn at random, and one of them is 0.
const GROUPS: [Group; 4] = [
    Group {
        nodes: 3,
        links: &[(0, 1, 0, &TEN), (1, 2, 0, &TEN), (0, 2, 0, &TEN)],
        demands: &[(0, 2, 12000), (1, 2, 0), (0, 1, 4000)],
        rows: &ON_TRIANGLE,
    },
    Group {
        nodes: 5,
        links: &TWO_HUBS,
        demands: &[(0, 1, 1), (0, 2, 1), (1, 2, 1)],
        rows: &ON_TWO_HUBS,
    },
    Group {
        nodes: 5,
        links: &FIVE_NODES,
        demands: &[(0, 3, 2), (1, 2, 2), (1, 2, 2)],
        rows: &ON_FIVE_NODES,
    },
    Group {
        nodes: 6,
        links: &SIX_NODES,
        demands: &[(5, 0, 7), (1, 2, 7), (0, 3, 3), (5, 0, 0), (4, 1, 3)],
        rows: &ON_SIX_NODES,
    },
];

/// Whether the bounds of all rows are below 2^62.
fn are_narrow(task: &RouteTask) -> bool
    ensures { IsTrue result → HasNarrowBounds (graph_of task.now.graph) task.now.demands.now task.now.caps.now }
{
    for row in 0..rows_of(task) {
        if bound_of(task, row) > NARROW {
            return false;
        }
    }
    true
}

/// What `solve_task` answers; `None` if the state or the capacities don't fit the problem, or a bound is too wide.
pub(crate) fn answer<'a>(
    alloc: Global,
    p: &'a Problem,
    state: u32,
    caps: &'a Caps,
) -> Option<Result<Optimum<RouteColumn>, SimplexFault<RouteColumn>>> {
    if state >= p.states.count() || caps.nums.len() != p.net.links().len() {
        return None;
    }
    let task = RouteTask {
        graph: Surviving {
            net: &p.net,
            states: &p.states,
            state: StateId(state),
        },
        demands: &p.demands,
        caps,
    };
    if !are_narrow(&task) {
        return None;
    }
    Some(solve_task(alloc, &task, &[]))
}

/// How much of a demand all its paths carry, over the denominator.
fn sent(best: &Optimum<RouteColumn>, demand: usize) -> u128 {
    let mut sum: u128 = 0;
    for (name, value) in best.basis.items().iter().zip(best.values.items()) {
        if let RouteColumn::Carry(own, _) = name {
            if *own as usize == demand {
                sum = sum.saturating_add(*value);
            }
        }
    }
    sum
}

/// Whether a path runs over a link.
fn runs_over(path: &[LinkId], link: usize) -> bool {
    path.iter().any(|e| e.0 as usize == link)
}

/// How much all paths over a link carry, over the denominator.
fn load(best: &Optimum<RouteColumn>, link: usize) -> u128 {
    let mut sum: u128 = 0;
    for (name, value) in best.basis.items().iter().zip(best.values.items()) {
        if runs_over(path_of(name), link) {
            sum = sum.saturating_add(*value);
        }
    }
    sum
}

/// Whether no link carries more than its capacity, and a link that fails carries nothing.
fn keeps_links(state: u32, caps: &Caps, best: &Optimum<RouteColumn>) -> bool {
    let nums = caps.nums.items();
    for e in 0..nums.len() {
        let number = if e + 1 == state as usize { 0 } else { nums[e] };
        if load(best, e) > number.saturating_mul(best.den as u128) {
            return false;
        }
    }
    true
}

/// How much of all demands is carried, over the denominator; `None` if more than a need is.
fn sent_in_all(p: &Problem, scale: u64, best: &Optimum<RouteColumn>) -> Option<u128> {
    let demands = p.demands.items();
    let mut sum: u128 = 0;
    for k in 0..demands.len() {
        let need = (demands[k].need as u128).saturating_mul(scale as u128);
        let sent = sent(best, k);
        if sent > need.saturating_mul(best.den as u128) {
            return None;
        }
        sum = sum.saturating_add(sent);
    }
    Some(sum)
}

/// Whether the optimum is a flow of the row's value, within the capacities and the needs.
fn is_flow(p: &Problem, caps: &Caps, best: &Optimum<RouteColumn>, row: &Row) -> bool {
    let (whole, part) = row.3;
    match sent_in_all(p, caps.scale, best) {
        Some(sent) => {
            sent.saturating_mul(part) == whole.saturating_mul(best.den as u128)
                && keeps_links(row.0, caps, best)
        }
        None => false,
    }
}

/// Whether the greatest flow is the row's.
fn is_met(alloc: Global, p: &Problem, row: &Row) -> bool {
    let Ok(nums) = List::from_slice(alloc, row.2) else {
        return false;
    };
    let caps = Caps { scale: row.1, nums };
    match answer(alloc, p, row.0, &caps) {
        Some(Ok(best)) => is_flow(p, &caps, &best, row),
        _ => false,
    }
}

/// The first row whose greatest flow isn't the expected one.
fn first_miss(alloc: Global, p: &Problem, rows: &[Row]) -> Option<usize> {
    for i in 0..rows.len() {
        if !is_met(alloc, p, &rows[i]) {
            return Some(i);
        }
    }
    None
}

/// The problem of a group, in which each link fails alone.
fn problem_of(alloc: Global, group: &Group) -> Option<Problem> {
    problem(
        alloc,
        network(alloc, group.nodes, group.links).ok()?,
        group.demands,
    )
    .ok()
}

/// The first row of a group whose greatest flow isn't the expected one.
fn first_miss_of(alloc: Global, group: &Group) -> Option<usize> {
    match problem_of(alloc, group) {
        Some(p) => first_miss(alloc, &p, group.rows),
        None => Some(0),
    }
}

#[test]
fn greatest_flows(rt: HostRuntime) {
    for group in &GROUPS {
        assert_eq!(rt; first_miss_of(rt.alloc(), group), None);
    }
}
