ghost use Rattle.std.specs.Prelude.{◌≡◌, ◌≢◌, ◌<◌, ◌≤◌, All, IsTrue, length};
ghost use Rattle.path_split.specs.Balances.{IsArc};

use crate::fixtures::TRIANGLE;
use net_core::{Link, LinkId, List, Network, NodeId};
use path_split::{Arc, PathFlow, SplitFault, split_flow};
use std::alloc::Global;
use worked_networks::{LinkRow, PARALLEL, RING, TEN, network};

/// Two triangles that share node A: the links AB, BC, CA and AD, DE, EA.
const EIGHT: [LinkRow; 6] = [
    (0, 1, 0, &TEN),
    (1, 2, 0, &TEN),
    (2, 0, 0, &TEN),
    (0, 3, 0, &TEN),
    (3, 4, 0, &TEN),
    (4, 0, 0, &TEN),
];

/// A network whose arcs are split.
#[derive(Clone, Copy)]
enum Shape {
    /// A triangle.
    Three,
    /// Two nodes with parallel links.
    Pair,
    /// A ring of four nodes with a chord.
    Square,
    /// Two triangles that share a node.
    Both,
}

fn network_of(alloc: Global, shape: Shape) -> Option<Network> {
    match shape {
        Shape::Three => network(alloc, 3, &TRIANGLE).ok(),
        Shape::Pair => network(alloc, 2, &PARALLEL).ok(),
        Shape::Square => network(alloc, 4, &RING).ok(),
        Shape::Both => network(alloc, 5, &EIGHT).ok(),
    }
}

/// An arc: its link, the node that it leaves, and its flow.
type ArcRow = (u32, u32, u64);

/// The two ends of a demand and its need.
type NeedRow = (u32, u32, u64);

/// A network, a need, balanced arcs, and the most that all paths together may carry over each link.
type SplitRow = (Shape, NeedRow, &'static [ArcRow], &'static [u64]);

const SPLITS: [SplitRow; 12] = [
    (
        Shape::Three,
        (0, 2, 12000),
        &[(2, 0, 12000)],
        &[0, 0, 12000],
    ),
    (Shape::Three, (0, 2, 0), &[], &[0, 0, 0]),
    (
        Shape::Three,
        (0, 2, 0),
        &[(0, 0, 3), (1, 1, 3), (2, 2, 3)],
        &[0, 0, 0],
    ),
    (Shape::Three, (0, 2, 5), &[(0, 0, 5), (1, 1, 5)], &[5, 5, 0]),
    (Shape::Three, (2, 0, 5), &[(0, 1, 5), (1, 2, 5)], &[5, 5, 0]),
    (Shape::Three, (0, 2, 5), &[(2, 0, 9), (2, 2, 4)], &[0, 0, 5]),
    (Shape::Three, (0, 2, 7), &[(2, 0, 3), (2, 0, 4)], &[0, 0, 7]),
    (Shape::Three, (0, 1, 2), &[(0, 0, 5), (0, 1, 3)], &[2, 0, 0]),
    (
        Shape::Three,
        (0, 2, 12000),
        &[(2, 0, 12000), (0, 0, 3000), (1, 1, 3000), (2, 2, 3000)],
        &[3000, 3000, 15000],
    ),
    (
        Shape::Pair,
        (0, 1, 2),
        &[(0, 0, 1), (1, 0, 2), (2, 1, 1)],
        &[1, 2, 1, 0],
    ),
    (
        Shape::Square,
        (0, 3, 9),
        &[(0, 0, 4), (1, 1, 4), (4, 0, 2), (3, 0, 3), (2, 2, 3)],
        &[4, 4, 3, 3, 2],
    ),
    (
        Shape::Both,
        (1, 3, 2),
        &[
            (0, 0, 3),
            (1, 1, 3),
            (2, 2, 3),
            (3, 0, 6),
            (4, 3, 4),
            (5, 4, 4),
            (0, 1, 2),
        ],
        &[5, 3, 3, 6, 4, 4],
    ),
];

/// A need, arcs on a triangle of the links AB, BC and AC, and the first node that isn't balanced.
type UnevenRow = (NeedRow, &'static [ArcRow], u32);

const UNEVEN: [UnevenRow; 7] = [
    ((0, 2, 12000), &[(2, 0, 11000)], 0),
    ((0, 2, 12000), &[], 0),
    ((0, 2, 0), &[(2, 0, 1)], 0),
    ((0, 2, 5), &[(0, 0, 5), (1, 1, 4)], 1),
    ((0, 2, 5), &[(2, 2, 5)], 0),
    ((1, 2, 5), &[(1, 1, 5), (0, 0, 1), (2, 2, 1)], 1),
    ((0, 2, 5), &[(2, 0, 5), (1, 1, 1), (1, 2, 2)], 1),
];

fn arcs_of(alloc: Global, rows: &[ArcRow]) -> Option<List<Arc>> {
    let mut arcs = List::new(alloc);
    for row in rows {
        arcs.push(Arc {
            link: LinkId(row.0),
            from: NodeId(row.1),
            num: row.2,
        })
        .ok()?;
    }
    Some(arcs)
}

/// Whether the arc leaves an end of its link.
fn is_arc(links: &[Link], arc: &Arc) -> bool
    ensures { IsTrue result → IsArc links.now arc.now }
{
    match links.get(arc.link.0 as usize) {
        Some(l) => l.a.0 == arc.from.0 || l.b.0 == arc.from.0,
        None => false,
    }
}

fn are_arcs(links: &[Link], arcs: &[Arc]) -> bool
    ensures { IsTrue result → All (IsArc links.now) arcs.now }
{
    for arc in arcs {
        if !is_arc(links, arc) {
            return false;
        }
    }
    true
}

/// The split of arcs, if they are arcs of the network and the ends are two of its nodes.
fn split_of(
    alloc: Global,
    net: &Network,
    need: &NeedRow,
    arcs: &List<Arc>,
) -> Option<Result<List<PathFlow>, SplitFault>> {
    let nodes = net.nodes().len();
    let ends = (need.0 as usize) < nodes && (need.1 as usize) < nodes && need.0 != need.1;
    if !ends || arcs.len() > 65536 || !are_arcs(net.links().items(), arcs.items()) {
        return None;
    }
    Some(split_flow(alloc, net, NodeId(need.0), NodeId(need.1), need.2, arcs))
}

fn names(path: &[LinkId], link: usize) -> bool {
    path.iter().any(|e| e.0 as usize == link)
}

/// Whether the path flows over a link sum to this number at most.
fn are_within(flows: &[PathFlow], link: usize, most: u64) -> bool {
    let mut left = most;
    for flow in flows {
        if names(flow.path.items(), link) {
            if flow.num > left {
                return false;
            }
            left -= flow.num;
        }
    }
    true
}

/// Whether the path flows sum to the need.
fn are_all(flows: &[PathFlow], need: u64) -> bool {
    let mut left = need;
    for flow in flows {
        if flow.num > left {
            return false;
        }
        left -= flow.num;
    }
    left == 0
}

/// Whether there are no more path flows than arcs, and they sum to the need, and over no link to more than the row allows.
fn are_flows(flows: &[PathFlow], row: &SplitRow) -> bool {
    let mut within = true;
    for e in 0..row.3.len() {
        within = within && are_within(flows, e, row.3[e]);
    }
    within && are_all(flows, row.1.2) && flows.len() <= row.2.len()
}

/// Whether the arcs of a row are split on a network into flows that the row allows.
fn are_split_on(alloc: Global, net: &Network, row: &SplitRow) -> bool {
    let Some(arcs) = arcs_of(alloc, row.2) else {
        return false;
    };
    match split_of(alloc, net, &row.1, &arcs) {
        Some(Ok(flows)) => are_flows(flows.items(), row),
        _ => false,
    }
}

fn are_split(alloc: Global, row: &SplitRow) -> bool {
    match network_of(alloc, row.0) {
        Some(net) => are_split_on(alloc, &net, row),
        None => false,
    }
}

/// Whether the arcs of a row are refused on a network, with the row's node.
fn are_refused_on(alloc: Global, net: &Network, row: &UnevenRow) -> bool {
    let Some(arcs) = arcs_of(alloc, row.1) else {
        return false;
    };
    match split_of(alloc, net, &row.0, &arcs) {
        Some(Err(SplitFault::Unbalanced(node))) => node.0 == row.2,
        _ => false,
    }
}

fn are_refused(alloc: Global, row: &UnevenRow) -> bool {
    match network(alloc, 3, &TRIANGLE) {
        Ok(net) => are_refused_on(alloc, &net, row),
        Err(_) => false,
    }
}

/// The first row whose arcs aren't split as they should be.
fn first_unsplit(alloc: Global, rows: &[SplitRow]) -> Option<usize> {
    for i in 0..rows.len() {
        if !are_split(alloc, &rows[i]) {
            return Some(i);
        }
    }
    None
}

/// The first row whose arcs aren't refused with its node.
fn first_unrefused(alloc: Global, rows: &[UnevenRow]) -> Option<usize> {
    for i in 0..rows.len() {
        if !are_refused(alloc, &rows[i]) {
            return Some(i);
        }
    }
    None
}

#[test]
fn balanced_arcs_split(rt: HostRuntime) {
    assert!(rt; first_unsplit(rt.alloc(), &SPLITS).is_none());
}

#[test]
fn unbalanced_arcs_are_refused(rt: HostRuntime) {
    assert!(rt; first_unrefused(rt.alloc(), &UNEVEN).is_none());
}
