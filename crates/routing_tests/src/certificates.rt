ghost use Rattle.std.specs.Prelude.{◌<◌, ◌≤◌, ◌^◌, All, AllPairs, IfSome, IsTrue, length};
ghost use Rattle.metric_cut.specs.Bounded.{HaveBound};
ghost use Rattle.master_law.specs.Terms.{IsSameCut};

use crate::fixtures::{THREE_LINKS, TRIANGLE, with_single_failures};
use length_master::KeptMaster;
use master_bound::{Best, MasterFault, best_own, master};
use metric_cut::{Cut, CutLine};
use net_core::{Copied, Evidence, List, MasterColumn, Network, Problem, StateId, WideKind};
use std::alloc::Global;
use worked_networks::{LinkRow, PARALLEL, TEN};

/// A unit cut: its state and its right side.
type LineRow = (u32, u128);

/// The unit cut of a state: every link that survives in it has length 1.
fn unit_cut(alloc: Global, p: &Problem, state: u32) -> Option<Cut>
    ensures { IfSome result (λ cut. HaveBound p.now.net.links cut.lengths) }
{
    let units = List::filled(alloc, 1, p.net.links().len()).ok()?;
    Cut::new(alloc, &p.net, &p.states, StateId(state), units).ok()
}

/// The unit cut of a row, with the row's right side.
fn unit_line(alloc: Global, p: &Problem, row: &LineRow) -> Option<CutLine>
    ensures bound { IfSome result (λ line. HaveBound p.now.net.links line.lengths) }
    ensures right { IfSome result (λ line. line.right < 2 ^ 84) }
{
    let (state, right) = *row;
    if right >= 1 << 84 {
        return None;
    }
    let cut = unit_cut(alloc, p, state)?;
    match cut.lengths().copy() {
        Ok(lengths) => Some(CutLine {
            state: StateId(state),
            lengths,
            right,
        }),
        Err(_) => None,
    }
}

/// The unit cuts of the rows.
fn unit_lines(alloc: Global, p: &Problem, rows: &[LineRow]) -> Option<List<CutLine>>
    ensures bound { IfSome result (All (λ line. HaveBound p.now.net.links line.lengths)) }
    ensures right { IfSome result (All (λ line. line.right < 2 ^ 84)) }
{
    let mut cuts = List::new(alloc);
    for row in rows {
        let line = unit_line(alloc, p, row)?;
        let Ok(()) = cuts.push(line) else {
            return None;
        };
    }
    Some(cuts)
}

/// Unit cuts of the triangle, and the place of the first one whose own bound is greatest; `None` if there are no cuts.
type OwnRow = (&'static [LineRow], Option<u32>);

/// The right sides are those of 12.00 from A to C. With all links and without AB the distance of A and C is 1: the bound is 12.00 / 2 = 6.00,
/// rounded up to modules of 5.00, which gives 10.00. Without AC their distance is 2: it is 24.00 / 2 = 12.00, rounded up to 15.00.
const OWN: [OwnRow; 6] = [
    (&[], None),
    (&[(0, 12000)], Some(0)),
    (&[(0, 12000), (1, 12000)], Some(0)),
    (&[(0, 12000), (3, 24000), (1, 12000)], Some(1)),
    (&[(1, 12000), (3, 24000), (3, 24000)], Some(1)),
    (&[(3, 24000), (0, 12000)], Some(0)),
];

fn is_first(alloc: Global, p: &Problem, row: &OwnRow) -> bool {
    match unit_lines(alloc, p, row.0) {
        Some(cuts) => cuts.len() < 4 && best_own(&p.net, &cuts) == row.1,
        None => false,
    }
}

fn is_first_on_triangle(alloc: Global, row: &OwnRow) -> bool {
    match with_single_failures(alloc, 3, &TRIANGLE, &[]) {
        Some(p) => is_first(alloc, &p, row),
        None => false,
    }
}

#[test]
fn first_of_greatest_bound(rt: HostRuntime) {
    for i in 0..OWN.len() {
        assert!(rt; is_first_on_triangle(rt.alloc(), &OWN[i]), "row {i}");
    }
}

/// What is expected of the best certificate of some cuts.
enum Want {
    /// This many multipliers, each 1 over this denominator, and this fraction as the raw value, in thousandths.
    Ones(usize, u128, (u128, u128)),
    /// A share of this scale, with this many units on each link.
    Share(u64, u64),
    /// A number of a cut is too wide.
    Wide,
}

/// The triangle with 20.00 installed on each link.
const INSTALLED: [LinkRow; 3] = [
    (0, 1, 20000, &TEN),
    (1, 2, 20000, &TEN),
    (0, 2, 20000, &TEN),
];

/// The number of nodes, the links, unit cuts, and what is expected of their best certificate.
type Row = (usize, &'static [LinkRow<'static>], &'static [LineRow], Want);

const ROWS: [Row; 10] = [
    // The triangle: 12.00 take 1.2 modules of 10.00, which cost 1.2 * 5.00 = 6.00.
    (3, &TRIANGLE, &[(0, 12000)], Want::Ones(1, 2, (6000, 1))),
    (3, &TRIANGLE, &[], Want::Ones(0, 1, (0, 1))),
    (3, &TRIANGLE, &[(0, 0)], Want::Ones(0, 1, (0, 1))),
    (3, &TRIANGLE, &[(0, 1 << 62)], Want::Wide),
    // The installed 3 * 20.00 = 60.00 are more than the 12.00 that the cut asks for.
    (3, &INSTALLED, &[(0, 12000)], Want::Ones(0, 1, (0, 1))),
    // Three parallel links, of which any two have to carry 10.00: with 5.00 on each they cost 3 * 5.00 = 15.00.
    (2, &THREE_LINKS, &ANY_TWO, Want::Ones(3, 2, (15000, 1))),
    (2, &THREE_LINKS, &ANY_TWO, Want::Share(1, 5000)),
    (2, &THREE_LINKS, &[(2, 10000)], Want::Ones(1, 1, (10000, 1))),
    // Four parallel links, of which any three have to carry 10.00: with 10.00 / 3 on each they cost 4 * 10.00 / 3.
    (2, &PARALLEL, &ANY_THREE, Want::Ones(4, 3, (40000, 3))),
    (2, &PARALLEL, &ANY_THREE, Want::Share(3, 10000)),
];

const ANY_TWO: [LineRow; 3] = [(1, 10000), (2, 10000), (3, 10000)];

const ANY_THREE: [LineRow; 4] = [(1, 10000), (2, 10000), (3, 10000), (4, 10000)];

/// Whether the cuts are of different states.
fn are_different(cuts: &[CutLine]) -> bool
    ensures { IsTrue result → AllPairs (λ a b. IsSameCut a b → ⊥) cuts.now }
{
    for i in 0..cuts.len() {
        for j in 0..i {
            if cuts[j].state.0 == cuts[i].state.0 {
                return false;
            }
        }
    }
    true
}

/// Whether the certificate is as expected.
fn is_best(best: &Best, want: &Want) -> bool {
    match want {
        Want::Ones(count, den, raw) => {
            best.multipliers.len() == *count
                && best.multipliers.items().iter().all(|m| m.num == 1)
                && best.den == *den
                && best.raw_num == raw.0
                && best.raw_den == raw.1
        }
        Want::Share(scale, units) => {
            best.share.scale == *scale && best.share.units.items().iter().all(|u| *u == *units)
        }
        Want::Wide => false,
    }
}

/// Whether the fault is that a number of a cut is too wide.
fn is_wide(fault: &MasterFault) -> bool {
    let MasterFault::Wide(evidence) = fault else {
        return false;
    };
    let Evidence::Master { kind, .. } = evidence else {
        return false;
    };
    match kind {
        WideKind::Number(column) => matches!(column, MasterColumn::Metric(_, _)),
        _ => false,
    }
}

/// Whether the answer is as expected.
fn is_wanted(answer: &Result<Best, MasterFault>, want: &Want) -> bool {
    match answer {
        Ok(best) => is_best(best, want),
        Err(fault) => matches!(want, Want::Wide) && is_wide(fault),
    }
}

/// Whether the answer for the cuts is the expected one, both from the basis of slacks and from a basis that was kept.
fn is_of_cuts(
    alloc: Global,
    net: &Network,
    cuts: &List<CutLine>,
    kept: &mut KeptMaster,
    want: &Want,
) -> bool
    requires few { length cuts.now ≤ 4 }
    requires bound { All (λ line. HaveBound net.now.links line.lengths) cuts.now }
    requires right { All (λ line. line.right < 2 ^ 84) cuts.now }
{
    are_different(cuts.items())
        && is_wanted(&master(alloc, net, cuts), want)
        && is_wanted(&kept.best(alloc, net, cuts), want)
}

/// Whether the certificate of unit cuts is as expected.
fn is_round(
    alloc: Global,
    p: &Problem,
    rows: &[LineRow],
    kept: &mut KeptMaster,
    want: &Want,
) -> bool {
    match unit_lines(alloc, p, rows) {
        Some(cuts) => cuts.len() <= 4 && is_of_cuts(alloc, &p.net, &cuts, kept, want),
        None => false,
    }
}

/// Whether the row's certificate is as expected.
fn is_certified(alloc: Global, p: &Problem, row: &Row) -> bool {
    let mut kept = KeptMaster::new();
    is_round(alloc, p, row.2, &mut kept, &row.3)
}

/// Whether the row's certificate is as expected, on the row's links.
fn is_certified_there(alloc: Global, row: &Row) -> bool {
    match with_single_failures(alloc, row.0, row.1, &[]) {
        Some(p) => is_certified(alloc, &p, row),
        None => false,
    }
}

#[test]
fn best_certificates_are_as_by_hand(rt: HostRuntime) {
    for row in &ROWS {
        assert!(rt; is_certified_there(rt.alloc(), row));
    }
}

/// Rounds: the unit cuts of each, and what is expected of their best certificate.
type Rounds = &'static [(&'static [LineRow], Want)];

/// The number of nodes, the links, and rounds, each with more cuts than the one before, with the same ones or with others.
const KEPT: [(usize, &[LinkRow<'static>], Rounds); 2] = [
    (
        2,
        &THREE_LINKS,
        &[
            (&[(2, 10000)], Want::Ones(1, 1, (10000, 1))),
            (&ANY_TWO, Want::Ones(3, 2, (15000, 1))),
            (&ANY_TWO, Want::Share(1, 5000)),
            (&[(1, 10000)], Want::Ones(1, 1, (10000, 1))),
        ],
    ),
    (
        2,
        &PARALLEL,
        &[
            (&[], Want::Ones(0, 1, (0, 1))),
            (&ANY_THREE, Want::Ones(4, 3, (40000, 3))),
            (&ANY_THREE, Want::Share(3, 10000)),
        ],
    ),
];

/// Whether each round's certificate is as expected if it starts from the basis that the round before ended with.
fn are_rounds(alloc: Global, p: &Problem, rounds: Rounds) -> bool {
    let mut kept = KeptMaster::new();
    for round in rounds {
        if !is_round(alloc, p, round.0, &mut kept, &round.1) {
            return false;
        }
    }
    true
}

/// Whether the rounds' certificates are as expected on these links.
fn are_rounds_there(
    alloc: Global,
    nodes: usize,
    links: &[LinkRow<'static>],
    rounds: Rounds,
) -> bool {
    match with_single_failures(alloc, nodes, links, &[]) {
        Some(p) => are_rounds(alloc, &p, rounds),
        None => false,
    }
}

#[test]
fn kept_certificates_are_as_by_hand(rt: HostRuntime) {
    for row in &KEPT {
        assert!(rt; are_rounds_there(rt.alloc(), row.0, row.1, row.2));
    }
}
