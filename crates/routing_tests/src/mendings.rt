ghost use Rattle.std.specs.Prelude.{◌≡◌, ◌+◌, ◌<◌, length};

use crate::fixtures::{TRIANGLE, with_single_failures};
use flow_mending::mended;
use net_core::{Caps, Flow, LinkId, List, Problem, RouteTask, Routing, StateId, Surviving};
use std::alloc::Global;
use worked_networks::DemandRow;

/// A path in the triangle, by the nodes that it passes.
#[derive(Clone, Copy)]
enum Way {
    Ac,
    Bc,
    Abc,
    Bac,
}

/// A flow: the place of its demand, its path, and how much it carries, over the routing's denominator.
type FlowRow = (u32, Way, u128);

/// Demands of the triangle, a state, the capacities of AB, BC and AC, the denominator and the flows of an earlier routing, and the flows of
/// the mended one over the same denominator; `None` if there is none.
#[derive(Clone, Copy)]
struct Mending {
    demands: &'static [DemandRow],
    state: u32,
    caps: [u128; 3],
    den: u64,
    earlier: &'static [FlowRow],
    mended: Option<&'static [FlowRow]>,
}

/// 6.00 from A to C.
const ONE_DEMAND: &[DemandRow] = &[(0, 2, 6000)];

/// 3.00 from A to C and 1.00 from B to C.
const TWO_DEMANDS: &[DemandRow] = &[(0, 2, 3000), (1, 2, 1000)];

/// In state 3 the link AC fails. What no longer fits goes over AB and BC from A to C, and over BC from B to C, since no other path is left.
/// In the second row the links at C have 3.00 + 2.00 = 5.00 for 6.00, and in the last one 3.999 for 3.00 + 1.00 = 4.00, so that no routing
/// carries the demands.
const MENDINGS: [Mending; 6] = [
    Mending {
        demands: ONE_DEMAND,
        state: 0,
        caps: [4000, 4000, 2000],
        den: 1,
        earlier: &[(0, Way::Ac, 4000), (0, Way::Abc, 2000)],
        mended: Some(&[(0, Way::Ac, 2000), (0, Way::Abc, 2000), (0, Way::Abc, 2000)]),
    },
    Mending {
        demands: ONE_DEMAND,
        state: 0,
        caps: [4000, 3000, 2000],
        den: 1,
        earlier: &[(0, Way::Ac, 4000), (0, Way::Abc, 2000)],
        mended: None,
    },
    Mending {
        demands: ONE_DEMAND,
        state: 3,
        caps: [6000, 6000, 6000],
        den: 1,
        earlier: &[(0, Way::Ac, 6000)],
        mended: Some(&[(0, Way::Abc, 6000)]),
    },
    Mending {
        demands: &[(0, 2, 1)],
        state: 3,
        caps: [1, 1, 1],
        den: 2,
        earlier: &[(0, Way::Ac, 1), (0, Way::Abc, 1)],
        mended: Some(&[(0, Way::Abc, 1), (0, Way::Abc, 1)]),
    },
    Mending {
        demands: TWO_DEMANDS,
        state: 3,
        caps: [3000, 4000, 4000],
        den: 1,
        earlier: &[(0, Way::Ac, 3000), (1, Way::Bac, 1000)],
        mended: Some(&[(0, Way::Abc, 3000), (1, Way::Bc, 1000)]),
    },
    Mending {
        demands: TWO_DEMANDS,
        state: 3,
        caps: [3000, 3999, 4000],
        den: 1,
        earlier: &[(0, Way::Ac, 3000), (1, Way::Bac, 1000)],
        mended: None,
    },
];

/// The links of a path, where AB, BC and AC are the links 0, 1 and 2.
fn links(way: Way) -> &'static [LinkId] {
    match way {
        Way::Ac => &[LinkId(2)],
        Way::Bc => &[LinkId(1)],
        Way::Abc => &[LinkId(0), LinkId(1)],
        Way::Bac => &[LinkId(0), LinkId(2)],
    }
}

/// The flows of rows.
fn flows(alloc: Global, rows: &[FlowRow]) -> Option<List<Flow>> {
    let mut flows = List::new(alloc);
    for i in 0..rows.len() {
        let path = List::from_slice(alloc, links(rows[i].1)).ok()?;
        let flow = Flow {
            demand: rows[i].0,
            path,
            num: rows[i].2,
        };
        flows.push(flow).ok()?;
    }
    Some(flows)
}

/// Whether the routing has these flows, in this order, over the denominator.
fn has_flows(routing: &Routing, den: u64, rows: &[FlowRow]) -> bool {
    let flows = routing.flows.items();
    if routing.den != den || flows.len() != rows.len() {
        return false;
    }
    for i in 0..rows.len() {
        let (demand, way, num) = rows[i];
        let flow = &flows[i];
        if flow.demand != demand || flow.path.items() != links(way) || flow.num != num {
            return false;
        }
    }
    true
}

/// Whether a routing is mended as the row says.
fn is_mended(alloc: Global, task: &RouteTask, earlier: &Routing, row: &Mending) -> bool {
    match (mended(alloc, task, earlier), row.mended) {
        (Ok(Some(routing)), Some(rows)) => has_flows(&routing, row.den, rows),
        (Ok(None), None) => true,
        _ => false,
    }
}

/// Whether the earlier routing is mended as the row says, within these capacities.
fn is_mended_within<'a>(
    alloc: Global,
    p: &'a Problem,
    caps: &'a Caps,
    earlier: &Routing,
    row: &Mending,
) -> bool
    requires state { row.now.state < length p.now.states.listed + 1 }
    requires caps { length caps.now.nums ≡ length p.now.net.links }
{
    let task = RouteTask {
        graph: Surviving {
            net: &p.net,
            states: &p.states,
            state: StateId(row.state),
        },
        demands: &p.demands,
        caps,
    };
    is_mended(alloc, &task, earlier, row)
}

/// Whether the earlier routing is mended as the row says, in a problem with the row's demands.
fn is_mended_in(alloc: Global, p: &Problem, row: &Mending) -> bool {
    let Ok(nums) = List::from_slice(alloc, &row.caps) else {
        return false;
    };
    let Some(flows) = flows(alloc, row.earlier) else {
        return false;
    };
    if row.state >= p.states.count() || nums.len() != p.net.links().len() {
        return false;
    }
    let earlier = Routing {
        den: row.den,
        flows,
    };
    is_mended_within(alloc, p, &Caps { scale: 1, nums }, &earlier, row)
}

/// Whether the earlier routing is mended as the row says, in the triangle, each of whose links fails alone.
fn is_mended_there(alloc: Global, row: &Mending) -> bool {
    match with_single_failures(alloc, 3, &TRIANGLE, row.demands) {
        Some(p) => is_mended_in(alloc, &p, row),
        None => false,
    }
}

#[test]
fn routings_are_mended_as_by_hand(rt: HostRuntime) {
    for i in 0..MENDINGS.len() {
        assert!(rt; is_mended_there(rt.alloc(), &MENDINGS[i]), "row {i}");
    }
}
