//! Tests of a separator over a board.
ghost use Rattle.std.specs.Prelude.{◌≡◌, IfSome};
ghost use Rattle.net_core.specs.Terms.{graph};
ghost use Rattle.metric_cut.specs.Cuts.{IsCutOf};

use crate::checked::separate_checked;
use crate::problems::{one_demand, open_board};
use metric_cut::Cut;
use net_core::{Caps, Evidence, LinkId, List, Problem, RouteColumn, StateId, WideKind};
use plan_types::Spot;
use separator::{OneByOne, Separate, Separated, StateAnswer};
use std::alloc::Global;

/// What is expected of a state.
#[derive(Clone, Copy)]
enum Want {
    Routed,
    /// A cut of these lengths, with this right side, at this index of the pool.
    Cut([u32; 3], u128, u32),
    /// A number of the routing program is too wide, that of this link.
    WideLink(u32),
}

/// The scale, the numbers of the links, and what is found of each state.
type Row = (u64, [u128; 3], [Want; 4]);

const WIDE: u128 = 1 << 62;

/// The triangle with 12.00 from A to C: the links AB, BC and AC fail alone, in this order.
const TRIANGLE: [Row; 4] = [
    (
        1,
        [12000, 12000, 12000],
        [Want::Routed, Want::Routed, Want::Routed, Want::Routed],
    ),
    (
        1,
        [11999, 12000, 12000],
        [
            Want::Routed,
            Want::Routed,
            Want::Routed,
            Want::Cut([1, 0, 0], 12000, 0),
        ],
    ),
    (
        2,
        [24000, 24000, 23999],
        [
            Want::Routed,
            Want::Cut([0, 0, 1], 12000, 0),
            Want::Cut([0, 0, 1], 12000, 1),
            Want::Routed,
        ],
    ),
    (
        1,
        [12000, 12000, WIDE],
        [
            Want::WideLink(2),
            Want::WideLink(2),
            Want::WideLink(2),
            Want::WideLink(2),
        ],
    ),
];

/// Whether the evidence names a link whose number is too wide.
fn names_wide(evidence: &Evidence, link: u32) -> bool {
    match evidence {
        Evidence::Route {
            kind: WideKind::Number(RouteColumn::LinkSlack(LinkId(found))),
            ..
        } => *found == link,
        _ => false,
    }
}

/// Whether the answer is as expected.
fn meets(answer: &StateAnswer, want: &Want) -> bool {
    match (&answer.answer, want) {
        (Separated::Routed(_), Want::Routed) => true,
        (Separated::Violated(line, spot), Want::Cut(lengths, right, index)) => {
            line.state == answer.state
                && line.lengths.items() == lengths.as_slice()
                && line.right == *right
                && *spot == Spot::Pool(*index)
        }
        (Separated::Wide(evidence), Want::WideLink(link)) => names_wide(evidence, *link),
        _ => false,
    }
}

/// Whether the answers are those of the states, in their order, and as expected.
fn all_meet(answers: &[StateAnswer], wants: &[Want]) -> bool {
    for s in 0..wants.len() {
        let Some(answer) = answers.get(s) else {
            return false;
        };
        if answer.state.0 as usize != s || !meets(answer, &wants[s]) {
            return false;
        }
    }
    answers.len() == wants.len()
}

/// Whether a separator answers as expected.
fn is_met<S: Separate>(
    alloc: Global,
    separator: &mut S,
    problem: &Problem,
    caps: &Caps,
    wants: &[Want],
) -> bool
    requires net { problem.now.net ≡ (S.frame separator.old).network }
    requires states { problem.now.states ≡ (S.frame separator.old).states }
    ensures { S.frame separator.new ≡ S.frame separator.old }
{
    match separate_checked(alloc, separator, problem, caps) {
        Ok(Some(answers)) => all_meet(answers.items(), wants),
        _ => false,
    }
}

/// Whether a new board answers as expected twice, where the second time the cuts of the first are in the pool.
fn is_met_twice(alloc: Global, problem: &Problem, caps: &Caps, wants: &[Want]) -> bool {
    let Some(board) = open_board(alloc, problem) else {
        return false;
    };
    let mut separator = OneByOne::new(alloc, board);
    is_met(alloc, &mut separator, problem, caps, wants)
        && is_met(alloc, &mut separator, problem, caps, wants)
}

/// The capacities of a row.
fn caps_of(alloc: Global, row: &Row) -> Option<Caps> {
    let nums = List::from_slice(alloc, &row.1).ok()?;
    Some(Caps { scale: row.0, nums })
}

/// Whether the row is answered as expected.
fn is_row_met(alloc: Global, problem: &Problem, row: &Row) -> bool {
    let caps = caps_of(alloc, row);
    match &caps {
        Some(caps) => is_met_twice(alloc, problem, caps, &row.2),
        None => false,
    }
}

/// Whether each row is answered as expected.
fn are_met(alloc: Global, problem: &Option<Problem>, rows: &[Row]) -> bool {
    let Some(problem) = problem else {
        return false;
    };
    for row in rows {
        if !is_row_met(alloc, problem, row) {
            return false;
        }
    }
    true
}

/// Whether each row is answered as expected for the triangle with one demand.
fn are_met_at_one(alloc: Global, rows: &[Row]) -> bool {
    let problem = one_demand(alloc);
    are_met(alloc, &problem, rows)
}

#[test]
fn each_state_is_answered_in_order(rt: HostRuntime) {
    assert!(rt; are_met_at_one(rt.alloc(), &TRIANGLE));
}

/// The unit cut of a state.
fn unit_cut(alloc: Global, problem: &Problem, state: u32) -> Option<Cut>
    ensures { IfSome result (λ cut. IsCutOf (graph problem.now.net problem.now.states cut.state.0) cut) }
{
    let units = List::filled(alloc, 1, problem.net.links().len()).ok()?;
    Cut::new(alloc, &problem.net, &problem.states, StateId(state), units).ok()
}

/// The spot that the unit cut of a state gets in the pool.
fn unit_spot<S: Separate>(
    alloc: Global,
    separator: &mut S,
    problem: &Problem,
    state: u32,
) -> Option<Spot>
    requires net { problem.now.net ≡ (S.frame separator.old).network }
    requires states { problem.now.states ≡ (S.frame separator.old).states }
    ensures { S.frame separator.new ≡ S.frame separator.old }
{
    let cut = unit_cut(alloc, problem, state)?;
    separator.admit(cut).ok()
}

/// Whether the unit cuts of states 0 and 3 get the first two places of the pool, and that of state 0 keeps its place when it comes again.
fn are_placed<S: Separate>(alloc: Global, separator: &mut S, problem: &Problem) -> bool
    requires net { problem.now.net ≡ (S.frame separator.old).network }
    requires states { problem.now.states ≡ (S.frame separator.old).states }
{
    unit_spot(alloc, separator, problem, 0) == Some(Spot::Pool(0))
        && unit_spot(alloc, separator, problem, 3) == Some(Spot::Pool(1))
        && unit_spot(alloc, separator, problem, 0) == Some(Spot::Pool(0))
}

/// Whether the unit cuts of states 0 and 3 get the first two places of a new board's pool, each once.
fn are_pooled_once(alloc: Global, problem: &Problem) -> bool {
    let Some(board) = open_board(alloc, problem) else {
        return false;
    };
    let mut separator = OneByOne::new(alloc, board);
    let placed = are_placed(alloc, &mut separator, problem);
    let board = separator.into_board();
    placed && board.cuts() == 2
}

/// Whether the unit cuts of states 0 and 3 get the first two places of the pool, each once, for the triangle with one demand.
fn are_pooled_once_at_one(alloc: Global) -> bool {
    let problem = one_demand(alloc);
    match &problem {
        Some(problem) => are_pooled_once(alloc, problem),
        None => false,
    }
}

#[test]
fn a_cut_is_in_the_pool_once(rt: HostRuntime) {
    assert!(rt; are_pooled_once_at_one(rt.alloc()));
}
