ghost use Rattle.std.specs.Prelude.{◌≡◌, ◌<◌, ◌^◌, IfOk, IfSome, length};
ghost use Rattle.metric_cut.specs.Bounded.{HaveBound};

use crate::fixtures::{TRIANGLE, make_problem};
use metric_cut::{
    Cut, CutFault, CutLine, are_narrow, opening, own_bound, own_certificate, violated_by,
};
use net_core::{Caps, Copied, List, Network, NodeId, Problem, StateId};
use std::alloc::Global;
use worked_networks::{LinkRow, ONE, TEN};

/// A triangle with 20.00 installed on each link.
const INSTALLED: [LinkRow; 3] = [
    (0, 1, 20000, &TEN),
    (1, 2, 20000, &TEN),
    (0, 2, 20000, &TEN),
];

/// A triangle whose first link costs half as much for its capacity as the others.
const MIXED: [LinkRow; 3] = [(0, 1, 0, &TEN), (1, 2, 0, &ONE), (0, 2, 0, &ONE)];

/// The links that fail in each state: each link of a triangle alone, and all three.
const FAILED: [&[u32]; 4] = [&[0], &[1], &[2], &[0, 1, 2]];

/// A state, lengths, the lengths of their cut in that state, and the distance of C and A under these.
type KeptRow = (u32, [u32; 3], [u32; 3], u64);

/// Lengths are divided by their greatest common divisor, and failed links get 0. In state 3 the link AC fails, so that the distance is
/// that along AB and BC: 1 + 2 = 3, and 0 + 1 = 1.
const KEPT: [KeptRow; 4] = [
    (0, [2, 4, 6], [1, 2, 3], 3),
    (1, [2, 4, 6], [0, 2, 3], 3),
    (3, [2, 4, 6], [1, 2, 0], 3),
    (3, [0, 7, 7], [0, 1, 0], 1),
];

/// A state, lengths, and why they make no cut.
type RefusedRow = (u32, [u32; 3], CutFault);

const REFUSED: [RefusedRow; 4] = [
    (0, [0, 0, 0], CutFault::ZeroLengths),
    (3, [0, 0, 5], CutFault::ZeroLengths),
    (4, [1, 1, 1], CutFault::ZeroLengths),
    (5, [1, 1, 1], CutFault::UnknownState),
];

/// The cut of these lengths in a state, or why there is none.
fn cut_of(alloc: Global, p: &Problem, state: u32, given: &[u32; 3]) -> Option<Result<Cut, CutFault>>
    ensures { IfSome result (λ r. IfOk r (λ cut. cut.table.nodes ≡ length p.now.net.nodes)) }
{
    let lengths = List::from_slice(alloc, given).ok()?;
    if lengths.len() != p.net.links().len() {
        return None;
    }
    Some(Cut::new(alloc, &p.net, &p.states, StateId(state), lengths))
}

/// Whether the cut is the row's.
fn is_cut(cut: &Cut, row: &KeptRow) -> bool
    requires { 2 < cut.now.table.nodes }
{
    cut.state().0 == row.0
        && cut.lengths().items() == row.2.as_slice()
        && cut.distance(NodeId(2), NodeId(0)) == Some(row.3)
}

/// Whether the row's lengths make its cut.
fn are_kept(alloc: Global, p: &Problem, row: &KeptRow) -> bool {
    match cut_of(alloc, p, row.0, &row.1) {
        Some(Ok(cut)) => p.net.nodes().len() == 3 && is_cut(&cut, row),
        _ => false,
    }
}

/// The problem of a triangle without demands.
fn triangle(alloc: Global) -> Option<Problem> {
    make_problem(alloc, 3, &TRIANGLE, &FAILED, &[])
}

fn are_kept_there(alloc: Global, row: &KeptRow) -> bool {
    match triangle(alloc) {
        Some(p) => are_kept(alloc, &p, row),
        None => false,
    }
}

#[test]
fn lengths_are_kept(rt: HostRuntime) {
    for i in 0..KEPT.len() {
        assert!(rt; are_kept_there(rt.alloc(), &KEPT[i]), "row {i}");
    }
}

/// Whether the row's lengths are refused as it says.
fn are_refused(alloc: Global, p: &Problem, row: &RefusedRow) -> bool {
    match cut_of(alloc, p, row.0, &row.1) {
        Some(Err(fault)) => fault == row.2,
        _ => false,
    }
}

fn are_refused_there(alloc: Global, row: &RefusedRow) -> bool {
    match triangle(alloc) {
        Some(p) => are_refused(alloc, &p, row),
        None => false,
    }
}

#[test]
fn lengths_are_refused(rt: HostRuntime) {
    for i in 0..REFUSED.len() {
        assert!(rt; are_refused_there(rt.alloc(), &REFUSED[i]), "row {i}");
    }
}

/// Links, a state, and the right side, the raw value and the bound of the state's unit cut for 12.00 from A to C.
type BoundRow = (&'static [LinkRow<'static>; 3], u32, u128, u128, u128);

/// Without AC the distance of A and C is 2, so that the right side is 2 * 12.00. A raw value is half of what is missing, rounded up to modules of 5.00 for
/// the bound. The installed 3 * 20.00 are more than 12.00, so nothing has to be paid.
const BOUNDS: [BoundRow; 3] = [
    (&TRIANGLE, 0, 12000, 6000, 10000),
    (&TRIANGLE, 3, 24000, 12000, 15000),
    (&INSTALLED, 0, 12000, 0, 0),
];

/// Whether the cut has the right side, the raw value and the bound of a row, and the multiplier 1 / 2.
fn has_bound(net: &Network, line: &CutLine, row: &BoundRow) -> bool
    requires lengths { HaveBound net.now.links line.now.lengths }
    requires right { line.now.right < 2 ^ 84 }
{
    let (_, _, right, raw, bound) = row;
    let own = own_certificate(net, line);
    let half = own.multiplier.num == 1 && own.multiplier.den == 2;
    half && own.raw.num == *raw
        && own.raw.den == 1
        && own.bound == *bound
        && line.right == *right
        && own_bound(net, line) == *bound
}

/// The cut with its right side for the problem's demands.
fn line_of(p: &Problem, cut: &Cut) -> Option<CutLine>
    requires { cut.now.table.nodes ≡ length p.now.net.nodes }
    ensures lengths { IfSome result (λ line. line.lengths ≡ cut.now.lengths) }
    ensures right { IfSome result (λ line. line.right < 2 ^ 84) }
{
    match cut.lengths().copy() {
        Ok(lengths) => Some(CutLine {
            state: cut.state(),
            lengths,
            right: cut.right(&p.demands),
        }),
        Err(_) => None,
    }
}

/// The unit cut of a state: every link that survives in it has length 1.
fn unit_cut(alloc: Global, p: &Problem, state: u32) -> Option<Cut>
    ensures nodes { IfSome result (λ cut. cut.table.nodes ≡ length p.now.net.nodes) }
    ensures bound { IfSome result (λ cut. HaveBound p.now.net.links cut.lengths) }
{
    let units = List::filled(alloc, 1, p.net.links().len()).ok()?;
    Cut::new(alloc, &p.net, &p.states, StateId(state), units).ok()
}

/// Whether the unit cut of the row's state has the row's values.
fn is_bound(alloc: Global, p: &Problem, row: &BoundRow) -> Option<bool> {
    let cut = unit_cut(alloc, p, row.1)?;
    let line = line_of(p, &cut)?;
    Some(has_bound(&p.net, &line, row))
}

/// Whether the unit cut of the row's state has the row's values, on the row's links.
fn is_bound_there(alloc: Global, row: &BoundRow) -> Option<bool> {
    let p = make_problem(alloc, 3, row.0.as_slice(), &FAILED, &[(0, 2, 12000)])?;
    is_bound(alloc, &p, row)
}

#[test]
fn bounds_of_the_unit_cut(rt: HostRuntime) {
    for i in 0..BOUNDS.len() {
        assert!(rt;
            is_bound_there(rt.alloc(), &BOUNDS[i]).unwrap_or(false),
            "row {i}"
        );
    }
}

/// The capacities of the links over a scale, the scale, and whether they violate the cut.
type SmallRow = ([u128; 3], u64, bool);

/// In state 3 the link AC fails, so that AB and BC have to carry 12.00 each, which the cut asks of both together: 24000 times the scale.
const SMALL: [SmallRow; 5] = [
    ([10000, 10000, 0], 1, true),
    ([11999, 12000, 90000], 1, true),
    ([12000, 12000, 0], 1, false),
    ([24000, 24000, 0], 2, false),
    ([24000, 24000, 0], 3, true),
];

fn is_violated(line: &CutLine, caps: &Caps) -> bool {
    caps.scale > 0
        && are_narrow(caps.nums.items())
        && caps.nums.len() == line.lengths.len()
        && line.lengths.len() <= 256
        && violated_by(line, caps)
}

fn is_violated_so(alloc: Global, line: &CutLine, row: &SmallRow) -> bool {
    let (nums, scale, want) = row;
    match List::from_slice(alloc, nums) {
        Ok(nums) => {
            let caps = Caps {
                scale: *scale,
                nums,
            };
            is_violated(line, &caps) == *want
        }
        Err(_) => false,
    }
}

/// Whether the row's capacities violate the cut of AB and BC, or don't, as the row says.
fn is_small(alloc: Global, row: &SmallRow) -> bool {
    let Ok(lengths) = List::from_slice(alloc, &[1, 1, 0]) else {
        return false;
    };
    let line = CutLine {
        state: StateId(3),
        lengths,
        right: 24000,
    };
    is_violated_so(alloc, &line, row)
}

#[test]
fn capacities_that_are_too_small(rt: HostRuntime) {
    for i in 0..SMALL.len() {
        assert!(rt; is_small(rt.alloc(), &SMALL[i]), "row {i}");
    }
}

/// Whether the links have different prices, a state, and the lengths of its opening cuts.
type OpeningRow = (bool, u32, [Option<[u32; 3]>; 2]);

/// The first cut has lengths of 1. The second has the price lengths, which are 1, 2 and 2 if the first link costs half as much as the others;
/// it is left out if it is equal to the first. There is no cut in state 4, where all links fail.
const OPENINGS: [OpeningRow; 6] = [
    (false, 0, [Some([1, 1, 1]), None]),
    (false, 3, [Some([1, 1, 0]), None]),
    (false, 4, [None, None]),
    (true, 0, [Some([1, 1, 1]), Some([1, 2, 2])]),
    (true, 1, [Some([0, 1, 1]), None]),
    (true, 2, [Some([1, 0, 1]), Some([1, 0, 2])]),
];

/// Whether there is a cut of these lengths, or no cut if no lengths are expected.
fn is_of(cut: Option<&Cut>, want: &Option<[u32; 3]>) -> bool {
    match (cut, want) {
        (Some(cut), Some(want)) => cut.lengths().items() == want.as_slice(),
        (None, None) => true,
        _ => false,
    }
}

/// Whether the cuts have these lengths, and there are no others.
fn are_of(cuts: &[Cut], want: &[Option<[u32; 3]>; 2]) -> bool {
    let [first, second] = want;
    cuts.len() < 3 && is_of(cuts.get(0), first) && is_of(cuts.get(1), second)
}

fn are_openings(alloc: Global, p: &Problem, row: &OpeningRow) -> bool {
    let (_, state, want) = row;
    if *state >= p.states.count() {
        return false;
    }
    match opening(alloc, &p.net, &p.states, StateId(*state)) {
        Ok(cuts) => are_of(cuts.items(), want),
        Err(_) => false,
    }
}

/// Whether the opening cuts of the row's state are those of the row, on the row's links.
fn are_openings_there(alloc: Global, row: &OpeningRow) -> bool {
    let links = if row.0 { &MIXED } else { &TRIANGLE };
    match make_problem(alloc, 3, links, &FAILED, &[]) {
        Some(p) => are_openings(alloc, &p, row),
        None => false,
    }
}

#[test]
fn opening_cuts_of_a_state(rt: HostRuntime) {
    for row in &OPENINGS {
        assert!(rt; are_openings_there(rt.alloc(), row));
    }
}
