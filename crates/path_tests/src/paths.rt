ghost use Rattle.std.specs.Prelude.{◌≡◌, ℕ, ◌<◌, ◌+◌, ◌^◌, ◌↔◌, All, IsTrue, length, slice_index};
ghost use Rattle.plan_terms.specs.Terms.{Survives, graph};

use crate::fixtures::make_problem;
use net_core::{Lengths, List, NodeId, Path, Problem, StateId, Surviving};
use short_paths::{
    DistanceTable, LeastPaths, PathFault, all_pairs, distances, least_path, priced_path,
};
use std::alloc::Global;
use worked_networks::{LinkRow, ONE};

/// Two parallel links AB, links BC and AC, and CD, which has no module.
const LINKS: [LinkRow; 5] = [
    (0, 1, 0, &ONE),
    (1, 0, 0, &ONE),
    (1, 2, 0, &ONE),
    (0, 2, 0, &ONE),
    (2, 3, 0, &[]),
];

/// The links that fail in each listed state.
const FAILED: [&[u32]; 3] = [&[0], &[0, 1], &[2, 3]];

/// A problem without demands, and a length for each link.
#[derive(Drop)]
struct Measured {
    p: Problem,
    lengths: Lengths,
}

/// A problem of the links, with these lengths.
fn make_measured(alloc: Global, lengths: &[u32]) -> Option<Measured> {
    let p = make_problem(alloc, 4, &LINKS, &FAILED, &[])?;
    match List::from_slice(alloc, lengths) {
        Ok(lengths) => Some(Measured { p, lengths }),
        Err(_) => None,
    }
}

/// Whether the problem has this state and these nodes, and each link has a length.
fn are_given(m: &Measured, state: u32, a: u32, b: u32) -> bool
    ensures state { IsTrue result → state < length m.now.p.states.listed + 1 }
    ensures lengths { IsTrue result → length m.now.lengths ≡ length m.now.p.net.links }
    ensures first { IsTrue result → a < length m.now.p.net.nodes }
    ensures second { IsTrue result → b < length m.now.p.net.nodes }
{
    let nodes = m.p.net.nodes().len();
    state < m.p.states.count()
        && m.lengths.len() == m.p.net.links().len()
        && (a as usize) < nodes
        && (b as usize) < nodes
}

/// A state, a node, and the distances of all nodes from it; `None` for a node that no path leads to.
type DistanceRow = (u32, u32, [Option<u64>; 4]);

/// Distances under the lengths 2, 5, 0, 4 and 1. Without failures B and C are at 2 from A, by the first AB and BC. In states 1 and 2 they are
/// at 4, by AC and BC, which are shorter than the second AB. In state 3 only both AB are left. CD joins nothing, since it has no module.
const DISTANCES: [DistanceRow; 16] = [
    (0, 0, [Some(0), Some(2), Some(2), None]),
    (0, 1, [Some(2), Some(0), Some(0), None]),
    (0, 2, [Some(2), Some(0), Some(0), None]),
    (0, 3, [None, None, None, Some(0)]),
    (1, 0, [Some(0), Some(4), Some(4), None]),
    (1, 1, [Some(4), Some(0), Some(0), None]),
    (1, 2, [Some(4), Some(0), Some(0), None]),
    (1, 3, [None, None, None, Some(0)]),
    (2, 0, [Some(0), Some(4), Some(4), None]),
    (2, 1, [Some(4), Some(0), Some(0), None]),
    (2, 2, [Some(4), Some(0), Some(0), None]),
    (2, 3, [None, None, None, Some(0)]),
    (3, 0, [Some(0), Some(2), None, None]),
    (3, 1, [Some(2), Some(0), None, None]),
    (3, 2, [None, None, Some(0), None]),
    (3, 3, [None, None, None, Some(0)]),
];

/// Whether the table has these distances from a node.
fn has_row(table: &DistanceTable, from: u32, want: &[Option<u64>; 4]) -> bool {
    for to in 0..4u32 {
        if from >= table.nodes()
            || to >= table.nodes()
            || table.get(NodeId(from), NodeId(to)) != want[to as usize]
        {
            return false;
        }
    }
    true
}

/// Whether both a search and the table have these distances from a node.
fn are_both(one: &[Option<u64>], all: &DistanceTable, from: u32, want: &[Option<u64>; 4]) -> bool {
    one == want.as_slice() && has_row(all, from, want)
}

/// Whether a search from the node and the table of all nodes give the row's distances.
fn are_distances(alloc: Global, m: &Measured, row: &DistanceRow) -> Option<bool> {
    let (state, from, want) = row;
    if !are_given(m, *state, *from, *from) {
        return None;
    }
    let (at, node) = (StateId(*state), NodeId(*from));
    let one = distances(alloc, &m.p.net, &m.p.states, at, &m.lengths, node).ok()?;
    let all = all_pairs(alloc, &m.p.net, &m.p.states, at, &m.lengths).ok()?;
    Some(are_both(one.items(), &all, *from, want))
}

/// The first row that differs from what the search or the table gives.
fn first_other_distance(alloc: Global, m: &Measured) -> Option<usize> {
    for i in 0..DISTANCES.len() {
        if !are_distances(alloc, m, &DISTANCES[i]).unwrap_or(false) {
            return Some(i);
        }
    }
    None
}

fn first_wrong_distance(alloc: Global) -> Option<usize> {
    match make_measured(alloc, &[2, 5, 0, 4, 1]) {
        Some(m) => first_other_distance(alloc, &m),
        None => Some(0),
    }
}

#[test]
fn distances_are_as_by_hand(rt: HostRuntime) {
    assert_eq!(rt; first_wrong_distance(rt.alloc()), None);
}

/// A state, two nodes, and the links of the least path between them; `None` if no path leads.
type PathRow = (u32, u32, u32, Option<&'static [u32]>);

/// Least paths under the lengths 2, 2, 2, 4 and 1. From A to C three paths have length 4: those over each AB and BC, and AC. Of equally short
/// paths the least has the lowest numbers of links, compared from the first link on.
const LEAST: [PathRow; 12] = [
    (0, 0, 1, Some(&[0])),
    (0, 0, 2, Some(&[0, 2])),
    (0, 2, 0, Some(&[2, 0])),
    (0, 1, 1, Some(&[])),
    (0, 0, 3, None),
    (1, 0, 1, Some(&[1])),
    (1, 0, 2, Some(&[1, 2])),
    (1, 2, 0, Some(&[2, 1])),
    (2, 0, 1, Some(&[3, 2])),
    (2, 0, 2, Some(&[3])),
    (3, 1, 0, Some(&[0])),
    (3, 2, 0, None),
];

/// Whether each link has a length of 1 or more.
fn are_long(m: &Measured, state: u32) -> bool
    requires { length m.now.lengths ≡ length m.now.p.net.links }
    ensures { IsTrue result → (e : ℕ) → Survives (graph m.now.p.net m.now.p.states state) e → 0 < slice_index m.now.lengths e }
{
    m.lengths.items().iter().all(|n| *n > 0)
}

/// Whether the path has these links.
fn is_of(path: &Path, links: &[u32]) -> bool {
    path.len() == links.len() && path.items().iter().zip(links).all(|(e, k)| e.0 == *k)
}

/// Whether the answer is the expected one.
fn is_answer(found: &Result<Path, PathFault>, expected: &Option<&[u32]>) -> bool {
    match (found, expected) {
        (Ok(path), Some(links)) => is_of(path, links),
        (Err(PathFault::Apart), None) => true,
        _ => false,
    }
}

/// Whether a search for one path answers as the row says.
fn is_least(alloc: Global, m: &Measured, row: &PathRow) -> bool {
    let (state, a, b, expected) = row;
    if !are_given(m, *state, *a, *b) || !are_long(m, *state) {
        return false;
    }
    let (at, from, to) = (StateId(*state), NodeId(*a), NodeId(*b));
    let path = least_path(alloc, &m.p.net, &m.p.states, at, &m.lengths, from, to);
    is_answer(&path, expected)
}

/// Whether the table of all paths answers as the row says.
fn is_in_table(alloc: Global, m: &Measured, row: &PathRow) -> bool {
    let (state, a, b, expected) = row;
    if !are_given(m, *state, *a, *b) || !are_long(m, *state) {
        return false;
    }
    let graph = Surviving {
        net: &m.p.net,
        states: &m.p.states,
        state: StateId(*state),
    };
    match LeastPaths::new(alloc, &graph, &m.lengths) {
        Ok(paths) => is_answer(&paths.path(NodeId(*a), NodeId(*b)), expected),
        Err(_) => false,
    }
}

/// The first row that differs from what the search or the table gives.
fn first_other_path(alloc: Global, m: &Measured) -> Option<usize> {
    for i in 0..LEAST.len() {
        let row = &LEAST[i];
        if !is_least(alloc, m, row) || !is_in_table(alloc, m, row) {
            return Some(i);
        }
    }
    None
}

fn first_wrong_path(alloc: Global) -> Option<usize> {
    match make_measured(alloc, &[2, 2, 2, 4, 1]) {
        Some(m) => first_other_path(alloc, &m),
        None => Some(0),
    }
}

#[test]
fn least_paths_are_as_by_hand(rt: HostRuntime) {
    assert_eq!(rt; first_wrong_path(rt.alloc()), None);
}

/// The greatest price that there may be.
const GREAT: u64 = (1 << 62) - 1;

/// The prices of both AB, of BC and of AC, and the links and the total of the cheapest path from A to C.
type PriceRow = ([u64; 4], &'static [u32], u128);

const CHEAPEST: [PriceRow; 4] = [
    ([5, 0, 0, 1], &[1, 2], 0),
    ([0, 0, 3, 3], &[3], 3),
    ([0, 0, 0, 0], &[3], 0),
    ([GREAT, 7, GREAT, GREAT], &[3], GREAT as u128),
];

fn are_low(prices: &[u64]) -> bool
    ensures { IsTrue result ↔ All (λ p. p < 2 ^ 62) prices.now }
{
    prices.iter().all(|p| *p < 1 << 62)
}

/// Whether the cheapest path without failures is the row's.
fn is_cheapest(alloc: Global, p: &Problem, row: &PriceRow) -> bool {
    let Ok(prices) = List::from_slice(alloc, &row.0) else {
        return false;
    };
    if !are_low(prices.items()) || prices.len() != p.net.links().len() || p.net.nodes().len() < 3 {
        return false;
    }
    let (from, to) = (NodeId(0), NodeId(2));
    match priced_path(alloc, &p.net, &p.states, StateId(0), &prices, from, to) {
        Ok(found) => is_of(&found.path, row.1) && found.total == row.2,
        Err(_) => false,
    }
}

/// Whether the cheapest path without failures is the row's, on the links without CD.
fn is_cheapest_there(alloc: Global, row: &PriceRow) -> bool {
    match make_problem(alloc, 3, &LINKS[..4], &[], &[]) {
        Some(p) => is_cheapest(alloc, &p, row),
        None => false,
    }
}

#[test]
fn cheapest_paths_are_as_by_hand(rt: HostRuntime) {
    for i in 0..CHEAPEST.len() {
        assert!(rt; is_cheapest_there(rt.alloc(), &CHEAPEST[i]), "row {i}");
    }
}
