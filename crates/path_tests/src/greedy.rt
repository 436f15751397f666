use crate::fixtures::{TRIANGLE, make_problem};
use greedy_router::{Left, greedy};
use net_core::{Caps, List, Problem, StateId};
use std::alloc::Global;
use worked_networks::DemandRow;

/// Two demands, a state, the scale, the capacities of AB, BC and AC over it, and how much of each demand isn't carried.
type Row = ([DemandRow; 2], u32, u64, [u128; 3], [u128; 2]);

/// 12.00 from A to C and 4.00 from A to B; in state 3 the link AC fails.
const GREATER_FIRST: [DemandRow; 2] = [(0, 2, 12000), (0, 1, 4000)];

/// 4.00 from A to B and 12.00 from A to C, which is routed first since it is greater.
const GREATER_LAST: [DemandRow; 2] = [(0, 1, 4000), (0, 2, 12000)];

/// 6.00 from A to B and 6.00 from A to C: of equal demands the first is routed first. Each takes its direct link before the path of two.
const EQUAL: [DemandRow; 2] = [(0, 1, 6000), (0, 2, 6000)];

const ROWS: [Row; 13] = [
    (GREATER_FIRST, 0, 1, [0, 0, 0], [12000, 4000]),
    (GREATER_FIRST, 0, 3, [0, 0, 0], [36000, 12000]),
    (GREATER_FIRST, 0, 1, [6000, 2000, 10000], [0, 0]),
    (GREATER_FIRST, 0, 1, [20000, 20000, 20000], [0, 0]),
    (GREATER_FIRST, 0, 1, [4000, 4000, 4000], [4000, 4000]),
    (GREATER_FIRST, 0, 1, [0, 0, 15999], [0, 4000]),
    (GREATER_FIRST, 3, 1, [6000, 2000, 10000], [10000, 0]),
    (GREATER_FIRST, 3, 2, [6000, 1, 1 << 61], [23999, 2001]),
    (
        GREATER_FIRST,
        0,
        1,
        [(1 << 62) - 1, 0, (1 << 62) - 1],
        [0, 0],
    ),
    (GREATER_LAST, 0, 1, [5000, 5000, 0], [4000, 7000]),
    (GREATER_LAST, 0, 2, [5000, 7000, 24000], [3000, 0]),
    (EQUAL, 0, 1, [7000, 7000, 0], [0, 5000]),
    (EQUAL, 0, 1, [6000, 9000, 6000], [0, 0]),
];

/// Whether the row's amounts are left, and the routing has the denominator 1.
fn is_rest(left: &Left, row: &Row) -> bool {
    left.routing.den == 1 && left.rest.items() == row.4.as_slice()
}

/// Whether the row's amounts are left of the problem's demands.
fn is_left(alloc: Global, p: &Problem, row: &Row) -> bool {
    let Ok(nums) = List::from_slice(alloc, &row.3) else {
        return false;
    };
    if row.1 >= p.states.count() || nums.len() != p.net.links().len() {
        return false;
    }
    let caps = Caps { scale: row.2, nums };
    match greedy(alloc, &p.net, &p.states, StateId(row.1), &p.demands, &caps) {
        Ok(left) => is_rest(&left, row),
        Err(_) => false,
    }
}

/// Whether the row's amounts are left of its demands on the triangle.
fn is_left_there(alloc: Global, row: &Row) -> bool {
    match make_problem(alloc, 3, &TRIANGLE, &[&[0], &[1], &[2]], &row.0) {
        Some(p) => is_left(alloc, &p, row),
        None => false,
    }
}

#[test]
fn rests_are_as_by_hand(rt: HostRuntime) {
    for row in &ROWS {
        assert!(rt; is_left_there(rt.alloc(), row));
    }
}
