ghost use Rattle.std.specs.Prelude.{◌≡◌, ◌+◌, ◌<◌, length};

use crate::fixtures::{TRIANGLE, with_single_failures};
use metric_cut::Cut;
use net_core::{Caps, List, NoMemory, Problem, RouteTask, StateId, Surviving};
use node_sets::{grown_set, threshold_set};
use std::alloc::Global;
use worked_networks::{DemandRow, LinkRow, RING};

/// A state, the scale and the capacities of the links over it, the lengths for a threshold set or `None` for a set that grows, and the
/// lengths of the cut that is expected, of which there are none if no set should be found.
type Row<'r> = (u32, u64, &'r [u128], Option<&'r [u32]>, &'r [u32]);

/// Sets of the triangle with 12.00 from A to C and 4.00 from A to B.
const ON_TRIANGLE: [Row; 8] = [
    // The links at C have 1.999 + 10.000 = 11.999 for a demand of 12.000.
    (0, 1, &[6000, 1999, 10000], None, &[0, 1, 1]),
    (0, 2, &[12000, 3999, 20000], None, &[0, 1, 1]),
    (0, 1, &[6000, 2000, 10000], None, &[]),
    // A has 15.000 for 16.000, which is less for each unit of demand than the 11.999 for 12.000 at C.
    (0, 1, &[5000, 1999, 10000], None, &[1, 0, 1]),
    // With a number of 2^62 no set is looked for.
    (0, 1, &[1 << 62, 1999, 10000], None, &[]),
    (0, 1, &[6000, 1999, 10000], Some(&[0, 1, 1]), &[0, 1, 1]),
    (0, 1, &[6000, 1999, 10000], Some(&[1, 0, 1]), &[]),
    (0, 1, &[6000, 1999, 10000], Some(&[0, 0, 0]), &[]),
];

/// Node 1 has the least capacity for each unit of demand: 3 + 3 = 6 for 30. In state 5 the chord fails, so that a set is taken whose boundary
/// it crosses, that of nodes 0 and 1, with 3 + 6 = 9 for 30 + 8 = 38.
const ON_RING: [Row; 2] = [
    (0, 1, &[3, 3, 7, 6, 100], None, &[1, 1, 0, 0, 0]),
    (5, 1, &[3, 3, 7, 6, 100], None, &[0, 1, 0, 1, 0]),
];

/// Whether a cut of these lengths was found, or no cut if there are no lengths.
fn is_cut(found: &Result<Option<Cut>, NoMemory>, want: &[u32]) -> bool {
    match found {
        Ok(Some(cut)) => cut.lengths().items() == want,
        Ok(None) => want.is_empty(),
        Err(_) => false,
    }
}

/// Whether the row's cut is found within the task's capacities.
fn is_found_at(alloc: Global, task: &RouteTask, row: &Row) -> bool
    requires { 0 < task.now.caps.now.scale }
{
    let Some(given) = row.3 else {
        return is_cut(&grown_set(alloc, task), row.4);
    };
    match List::from_slice(alloc, given) {
        Ok(lengths) => {
            lengths.len() == task.graph.net.links().len()
                && is_cut(&threshold_set(alloc, task, &lengths), row.4)
        }
        Err(_) => false,
    }
}

/// Whether the row's cut is found in this state, within these capacities.
fn is_found_in<'a>(alloc: Global, p: &'a Problem, state: StateId, caps: &'a Caps, row: &Row) -> bool
    requires state { state.0 < length p.now.states.listed + 1 }
    requires scale { 0 < caps.now.scale }
    requires caps { length caps.now.nums ≡ length p.now.net.links }
{
    let task = RouteTask {
        graph: Surviving {
            net: &p.net,
            states: &p.states,
            state,
        },
        demands: &p.demands,
        caps,
    };
    is_found_at(alloc, &task, row)
}

/// Whether the row's cut is found.
fn is_found(alloc: Global, p: &Problem, row: &Row) -> bool {
    let Ok(nums) = List::from_slice(alloc, row.2) else {
        return false;
    };
    if row.0 >= p.states.count() || row.1 == 0 || nums.len() != p.net.links().len() {
        return false;
    }
    let caps = Caps { scale: row.1, nums };
    is_found_in(alloc, p, StateId(row.0), &caps, row)
}

/// The first row whose cut isn't found.
fn first_missed(alloc: Global, p: &Problem, rows: &[Row]) -> Option<usize> {
    for i in 0..rows.len() {
        if !is_found(alloc, p, &rows[i]) {
            return Some(i);
        }
    }
    None
}

/// The first row whose cut isn't found on these links, each of which fails alone.
fn first_miss(
    alloc: Global,
    nodes: usize,
    links: &[LinkRow],
    demands: &[DemandRow],
    rows: &[Row],
) -> Option<usize> {
    match with_single_failures(alloc, nodes, links, demands) {
        Some(p) => first_missed(alloc, &p, rows),
        None => Some(0),
    }
}

#[test]
fn the_links_at_one_node_are_short(rt: HostRuntime) {
    let demands = [(0, 2, 12000), (0, 1, 4000)];
    assert_eq!(rt;
        first_miss(rt.alloc(), 3, &TRIANGLE, &demands, &ON_TRIANGLE),
        None
    );
}

#[test]
fn a_set_that_a_failed_link_leaves_is_taken(rt: HostRuntime) {
    let demands = [(1, 2, 30), (0, 3, 8)];
    assert_eq!(rt; first_miss(rt.alloc(), 4, &RING, &demands, &ON_RING), None);
}
