ghost use Rattle.std.specs.Prelude.{◌≡◌, ◌<◌, ◌+◌, IsTrue, length};
ghost use Rattle.plan_terms.specs.Terms.{graph};
ghost use Rattle.route_law.specs.Terms.{AreJoined};

use crate::fixtures::{NARROW, TRIANGLE, is_survivable, with_single_failures};
use flow_router::{RouteAnswer, route_state, route_task};
use metric_cut::Cut;
use net_core::{
    Caps, Evidence, List, Problem, RouteColumn, RouteTask, StateId, Surviving, WideKind,
};
use std::alloc::Global;
use worked_networks::{DemandRow, LinkRow, PARALLEL, TEN};

/// What a row of a table expects.
enum Want {
    /// A routing, whatever its denominator.
    Fits,
    /// A routing over this denominator.
    Over(u64),
    /// A cut, whatever its lengths.
    Short,
    /// A cut with the first or the second of these lengths.
    Cut(&'static [u32], &'static [u32]),
    /// The number of this link is too wide.
    WideLink(u32),
    /// The need of this demand over the scale is too wide.
    WideDemand(u32),
}

/// A state, the scale, the capacities of the links over the scale, and the expected answer.
type Row = (u32, u64, &'static [u128], Want);

/// A network with demands, and rows that ask for routings in it.
struct Group {
    nodes: usize,
    links: &'static [LinkRow<'static>],
    demands: &'static [DemandRow],
    rows: &'static [Row],
}

/// The triangle with 12.00 from A to C and 4.00 from A to B. The links at C have 2.000 + 10.000 = 12.000 in the first row, and 1.999 + 10.000
/// in the second. In state 3 the link AC fails: AB has to carry 12.00 + 4.00 = 16.00, and BC 12.00.
const TWO_DEMANDS: [Row; 7] = [
    (0, 1, &[6000, 2000, 10000], Want::Over(1)),
    (
        0,
        1,
        &[6000, 1999, 10000],
        Want::Cut(&[0, 1, 1], &[0, 1, 1]),
    ),
    (3, 1, &[16000, 12000, 0], Want::Over(1)),
    (
        3,
        1,
        &[15999, 12000, NARROW],
        Want::Cut(&[1, 0, 0], &[1, 0, 0]),
    ),
    (3, 1, &[NARROW, 11999, 0], Want::Cut(&[0, 1, 0], &[0, 1, 0])),
    (0, 1 << 50, &[NARROW, 0, NARROW], Want::WideDemand(0)),
    (0, 2, &[NARROW, NARROW + 1, NARROW + 1], Want::WideLink(1)),
];

/// The triangle with 12.00 from A to C alone. Where capacity is missing, it is both at A and at C. Over the scale 3 the demand needs
/// 36000 = 18000 + 18000.
const ONE_DEMAND: [Row; 5] = [
    (0, 1, &[0, 0, NARROW + 1], Want::WideLink(2)),
    (0, 1, &[0, 0, NARROW], Want::Over(1)),
    (0, 1, &[0, 0, 11999], Want::Cut(&[1, 0, 1], &[0, 1, 1])),
    (0, 1, &[0, 0, 0], Want::Cut(&[1, 0, 1], &[0, 1, 1])),
    (0, 3, &[18000, 18000, 18000], Want::Over(1)),
];

/// Four parallel links with a demand of 10.00. Over the scale 3 it needs 30000 = 3 * 10000, so three links with 10000 each are enough, and
/// one less on any of them is too little.
const FOUR_LINKS: [Row; 6] = [
    (0, 1, &[0, 0, 0, 0], Want::Cut(&[1, 1, 1, 1], &[1, 1, 1, 1])),
    (0, 3, &[10000, 10000, 10000, 0], Want::Over(1)),
    (1, 3, &[10000, 10000, 10000, 10000], Want::Over(1)),
    (
        1,
        3,
        &[10000, 10000, 9999, 10000],
        Want::Cut(&[0, 1, 1, 1], &[0, 1, 1, 1]),
    ),
    (4, 3, &[10000, 10000, 10000, 0], Want::Over(1)),
    (
        4,
        3,
        &[9999, 10000, 10000, NARROW],
        Want::Cut(&[1, 1, 1, 0], &[1, 1, 1, 0]),
    ),
];

/// Two hubs D and E, each with a link to A, B and C.
const TWO_HUBS: [LinkRow; 6] = [
    (0, 3, 0, &TEN),
    (1, 3, 0, &TEN),
    (2, 3, 0, &TEN),
    (0, 4, 0, &TEN),
    (1, 4, 0, &TEN),
    (2, 4, 0, &TEN),
];

/// One unit between each two of A, B and C. With one unit on each link the only routing sends half of each demand over each hub.
const HALVES: [Row; 3] = [
    (0, 1, &[1, 1, 1, 1, 1, 1], Want::Over(2)),
    (0, 2, &[2, 2, 2, 2, 2, 2], Want::Over(1)),
    (0, 2, &[2, 2, 2, 2, 2, 1], Want::Short),
];

/// A ring of the nodes A to E.
const FIVE_NODES: [LinkRow; 5] = [
    (0, 1, 0, &TEN),
    (1, 2, 0, &TEN),
    (2, 3, 0, &TEN),
    (3, 4, 0, &TEN),
    (4, 0, 0, &TEN),
];

/// The ring with one unit from A to C, which a greedy routing sends over AB and BC, and one from A to B, for which AB is full then. With one
/// unit on each link, every routing fills all links but BC, so that one less on any other link is too little.
const BLOCKED: [Row; 8] = [
    (
        0,
        10000,
        &[10000, 10000, 10000, 10000, 10000],
        Want::Over(1),
    ),
    (0, 10000, &[9999, 10000, 10000, 10000, 10000], Want::Short),
    (0, 10000, &[10000, 9999, 10000, 10000, 10000], Want::Fits),
    (0, 10000, &[10000, 10000, 9999, 10000, 10000], Want::Short),
    (0, 10000, &[10000, 10000, 10000, 9999, 10000], Want::Short),
    (0, 10000, &[10000, 10000, 10000, 10000, 9999], Want::Short),
    (
        0,
        NARROW as u64,
        &[NARROW, NARROW, NARROW, NARROW, NARROW],
        Want::Fits,
    ),
    (
        0,
        NARROW as u64,
        &[NARROW, NARROW, NARROW - 1, NARROW, NARROW],
        Want::Short,
    ),
];

const GROUPS: [Group; 5] = [
    Group {
        nodes: 3,
        links: &TRIANGLE,
        demands: &[(0, 2, 12000), (0, 1, 4000)],
        rows: &TWO_DEMANDS,
    },
    Group {
        nodes: 3,
        links: &TRIANGLE,
        demands: &[(0, 2, 12000)],
        rows: &ONE_DEMAND,
    },
    Group {
        nodes: 2,
        links: &PARALLEL,
        demands: &[(0, 1, 10000)],
        rows: &FOUR_LINKS,
    },
    Group {
        nodes: 5,
        links: &TWO_HUBS,
        demands: &[(0, 1, 1), (0, 2, 1), (1, 2, 1)],
        rows: &HALVES,
    },
    Group {
        nodes: 5,
        links: &FIVE_NODES,
        demands: &[(0, 2, 1), (0, 1, 1)],
        rows: &BLOCKED,
    },
];

/// Whether the column is the slack whose number should be too wide.
fn is_slack(column: &RouteColumn, want: &Want) -> bool {
    match (column, want) {
        (RouteColumn::LinkSlack(link), Want::WideLink(e)) => link.0 == *e,
        (RouteColumn::DemandSlack(demand), Want::WideDemand(k)) => *demand == *k,
        _ => false,
    }
}

/// Whether the evidence says that the number of the expected slack is too wide.
fn is_wide(evidence: &Evidence, want: &Want) -> bool {
    let Evidence::Route { kind, .. } = evidence else {
        return false;
    };
    match kind {
        WideKind::Number(column) => is_slack(column, want),
        _ => false,
    }
}

/// Whether the cut is as expected.
fn is_cut(cut: &Cut, want: &Want) -> bool {
    let lengths = cut.lengths().items();
    match want {
        Want::Short => true,
        Want::Cut(first, second) => lengths == *first || lengths == *second,
        _ => false,
    }
}

/// Whether the answer is as expected.
fn meets(answer: &RouteAnswer, want: &Want) -> bool {
    match answer {
        RouteAnswer::Routed(routing) => match want {
            Want::Over(den) => routing.den == *den,
            Want::Fits => true,
            _ => false,
        },
        RouteAnswer::Violated(cut) => is_cut(cut, want),
        RouteAnswer::Wide(evidence) => is_wide(evidence, want),
    }
}

/// Whether no state separates a demand, so that this one doesn't either.
fn are_joined(alloc: Global, p: &Problem, state: u32) -> bool
    requires { state < length p.now.states.listed + 1 }
    ensures { IsTrue result → AreJoined (graph p.now.net p.now.states state) p.now.demands }
{
    is_survivable(alloc, p)
}

/// Whether the answer without known columns is as expected.
fn is_routed(alloc: Global, p: &Problem, at: StateId, caps: &Caps, want: &Want) -> bool
    requires state { at.0 < length p.now.states.listed + 1 }
    requires scale { 0 < caps.now.scale }
    requires caps { length caps.now.nums ≡ length p.now.net.links }
    requires joined { AreJoined (graph p.now.net p.now.states at.0) p.now.demands }
{
    match route_state(alloc, &p.net, &p.states, at, &p.demands, caps) {
        Ok(answer) => meets(&answer, want),
        Err(_) => false,
    }
}

/// Whether the answer with known columns is as expected.
fn is_routed_from<'a>(
    alloc: Global,
    p: &'a Problem,
    at: StateId,
    caps: &'a Caps,
    want: &Want,
    known: &mut List<RouteColumn>,
) -> bool
    requires state { at.0 < length p.now.states.listed + 1 }
    requires scale { 0 < caps.now.scale }
    requires caps { length caps.now.nums ≡ length p.now.net.links }
    requires joined { AreJoined (graph p.now.net p.now.states at.0) p.now.demands }
{
    let task = RouteTask {
        graph: Surviving {
            net: &p.net,
            states: &p.states,
            state: at,
        },
        demands: &p.demands,
        caps,
    };
    match route_task(alloc, &task, known) {
        Ok(answer) => meets(&answer, want),
        Err(_) => false,
    }
}

/// Whether the answers without and with known columns are as expected. The columns of the optimum are known afterwards.
fn is_met(alloc: Global, p: &Problem, row: &Row, known: &mut List<RouteColumn>) -> bool {
    let at = StateId(row.0);
    if at.0 >= p.states.count() || row.1 == 0 || !are_joined(alloc, p, at.0) {
        return false;
    }
    let Ok(nums) = List::from_slice(alloc, row.2) else {
        return false;
    };
    let caps = Caps { scale: row.1, nums };
    caps.nums.len() == p.net.links().len()
        && is_routed(alloc, p, at, &caps, &row.3)
        && is_routed_from(alloc, p, at, &caps, &row.3, known)
}

/// The first row whose answer isn't the expected one. A row knows the columns of the rows before it, even of other states.
fn first_miss(alloc: Global, p: &Problem, rows: &[Row]) -> Option<usize> {
    let mut known = List::new(alloc);
    for i in 0..rows.len() {
        if !is_met(alloc, p, &rows[i], &mut known) {
            return Some(i);
        }
    }
    None
}

/// The first row of a group whose answer isn't the expected one, on the group's links, each of which fails alone.
fn first_miss_of(alloc: Global, g: &Group) -> Option<usize> {
    match with_single_failures(alloc, g.nodes, g.links, g.demands) {
        Some(p) => first_miss(alloc, &p, g.rows),
        None => Some(0),
    }
}

#[test]
fn answers_are_as_by_hand(rt: HostRuntime) {
    for g in &GROUPS {
        assert_eq!(rt; first_miss_of(rt.alloc(), g), None);
    }
}
