//! Tests of plans for a snapshot of a new board.
ghost use Rattle.std.specs.Prelude.{length};
ghost use Rattle.net_core.specs.Terms.{AreDemands};

use crate::problems::{Place, TRIANGLE, place_of};
use cut_pool::Board;
use net_core::{Demands, Module, Network, NoMemory, States, discard};
use plan_types::{Plan, Quality, Spot};
use planner::{PlanAnswer, plan_snapshot};
use separator::OneByOne;
use std::alloc::Global;
use worked_networks::{
    CHAIN, DemandRow, LinkRow, ONE, PARALLEL, TEN, demands, network, single_failures,
};

/// What a row expects of a plan: its cost, its raw value as a fraction, and its bound, in thousandths; and whether it is tight.
type Looked = (u128, (u128, u128), u128, bool);

/// The denominator of a certificate, how many lines it has, and the numerators of the first four cuts of the pool in it.
type Numerators = (u128, usize, [u64; 4]);

/// The number of nodes, a table of links and how many of them are taken, the links that each state fails, a demand, and what is expected of
/// its plan and, in some rows, of the certificate. `None` if a state separates the demand.
type Row = (
    usize,
    &'static [LinkRow<'static>],
    usize,
    &'static [&'static [u32]],
    DemandRow,
    Option<(Looked, Option<Numerators>)>,
);

/// A triangle with 20.00 installed on each link.
const INSTALLED: [LinkRow; 3] = [
    (0, 1, 20000, &TEN),
    (1, 2, 20000, &TEN),
    (0, 2, 20000, &TEN),
];

/// Networks with tight plans: the triangle without failures, the triangle and four parallel links with each link failing alone, and a triangle
/// whose installed capacity is enough.
const TIGHT: [Row; 4] = [
    (
        3,
        &TRIANGLE,
        3,
        &[],
        (0, 2, 12000),
        Some(((10000, (6000, 1), 10000, true), Some((2, 1, [1, 0, 0, 0])))),
    ),
    (
        3,
        &TRIANGLE,
        3,
        &[&[0], &[1], &[2]],
        (0, 2, 12000),
        Some(((30000, (18000, 1), 20000, true), None)),
    ),
    (
        2,
        &PARALLEL,
        4,
        &[&[0], &[1], &[2], &[3]],
        (0, 1, 10000),
        Some(((16000, (40000, 3), 14000, true), None)),
    ),
    (
        3,
        &INSTALLED,
        3,
        &[],
        (0, 2, 12000),
        Some(((0, (0, 1), 0, true), Some((1, 0, [0, 0, 0, 0])))),
    ),
];

/// A network in which each link fails alone: the number of nodes, its links, a demand, and what is expected of its plan and, in some rows,
/// of the certificate.
type SinglesRow = (
    usize,
    &'static [LinkRow<'static>],
    DemandRow,
    Option<(Looked, Option<Numerators>)>,
);

/// The fewest parallel links for which a round's certificate is found by a program over lengths alone: 24.
const MANY_LINKS: [LinkRow; 24] = [(0, 1, 0, &ONE); 24];

/// Links between A and B, B and C, and C and D, eight of each.
const BUNDLES: [LinkRow; 24] = [
    (0, 1, 0, &ONE),
    (0, 1, 0, &ONE),
    (0, 1, 0, &ONE),
    (0, 1, 0, &ONE),
    (0, 1, 0, &ONE),
    (0, 1, 0, &ONE),
    (0, 1, 0, &ONE),
    (0, 1, 0, &ONE),
    (1, 2, 0, &ONE),
    (1, 2, 0, &ONE),
    (1, 2, 0, &ONE),
    (1, 2, 0, &ONE),
    (1, 2, 0, &ONE),
    (1, 2, 0, &ONE),
    (1, 2, 0, &ONE),
    (1, 2, 0, &ONE),
    (2, 3, 0, &ONE),
    (2, 3, 0, &ONE),
    (2, 3, 0, &ONE),
    (2, 3, 0, &ONE),
    (2, 3, 0, &ONE),
    (2, 3, 0, &ONE),
    (2, 3, 0, &ONE),
    (2, 3, 0, &ONE),
];

/// Any 23 of 24 parallel links carry 46.00 with 2.00 on each, so that the cut of each failure has the multiplier 1 / 23. Any seven links of
/// each of three bundles carry 14.00 with 2.00 on each. There the first round has one cut for each state, with the length 1 on each link
/// that survives, and its share has 42.00 / 23 on each link. At this share each failure finds the cut of its own bundle. These cuts have
/// the multiplier 1 / 7 in the second round, which begins with the basis of the first.
const MANY: [SinglesRow; 2] = [
    (
        2,
        &MANY_LINKS,
        (0, 1, 46000),
        Some((
            (48000, (48000, 1), 48000, true),
            Some((23, 24, [0, 1, 1, 1])),
        )),
    ),
    (
        4,
        &BUNDLES,
        (0, 3, 14000),
        Some((
            (48000, (48000, 1), 48000, true),
            Some((7, 24, [0, 0, 0, 0])),
        )),
    ),
];

/// Two modules for 161.000. Their capacities are prime.
const LOWER: [Module; 1] = [Module {
    capacity: 1000000007,
    cost: 161000,
}];

const HIGHER: [Module; 1] = [Module {
    capacity: 1000000009,
    cost: 161000,
}];

/// Three bundles of eight parallel links, four with a module of either prime capacity.
const PRIME_BUNDLES: [LinkRow; 24] = [
    (0, 1, 0, &LOWER),
    (0, 1, 0, &LOWER),
    (0, 1, 0, &LOWER),
    (0, 1, 0, &LOWER),
    (0, 1, 0, &HIGHER),
    (0, 1, 0, &HIGHER),
    (0, 1, 0, &HIGHER),
    (0, 1, 0, &HIGHER),
    (1, 2, 0, &LOWER),
    (1, 2, 0, &LOWER),
    (1, 2, 0, &LOWER),
    (1, 2, 0, &LOWER),
    (1, 2, 0, &HIGHER),
    (1, 2, 0, &HIGHER),
    (1, 2, 0, &HIGHER),
    (1, 2, 0, &HIGHER),
    (2, 3, 0, &LOWER),
    (2, 3, 0, &LOWER),
    (2, 3, 0, &LOWER),
    (2, 3, 0, &LOWER),
    (2, 3, 0, &HIGHER),
    (2, 3, 0, &HIGHER),
    (2, 3, 0, &HIGHER),
    (2, 3, 0, &HIGHER),
];

/// The need of a demand from A to D, and what is expected of its plan and of the certificate.
type WideRow = (u64, Option<(Looked, Option<Numerators>)>);

/// The least share of the first cuts has 3 / 23 of the demand on each link. Its units are over 23 and both primes, which is more than 2^62.
/// At these capacities each failure finds the cut of its own bundle, and with those cuts each link has 1 / 7 of the demand.
///
/// The first demand is 1000000.000, in units over both primes. The share costs 12 * 161000 * 10^9 * (1 / 1000000007 + 1 / 1000000009), a
/// little less than a module on each link, which covers it. A cut has the multiplier 23000 * (4 / 1000000009 - 3 / 1000000007) if the
/// module that fails is one of the lower capacity, and the same with the primes exchanged otherwise. Over both primes the demand is above
/// 2^62, so that no state is routed at that share: the plan is loose, though its cost meets its bound.
///
/// The units of a seventh of the second demand are over 7 and both primes, again more than 2^62, and no failure finds a further cut. So the
/// planning ends as it would without these rounds: with the first cut alone, at 161000 / 1000000009 for three times the demand, and with
/// the fallback plan, seven modules on each of two links of a bundle.
const WIDE_SHARES: [WideRow; 2] = [
    (
        7000000000,
        Some((
            (
                3864000,
                (3864000030912000000000000, 1000000016000000063),
                3864000,
                false,
            ),
            Some((1000000016000000063, 24, [0, 0, 0, 0])),
        )),
    ),
    (
        7000000001,
        Some((
            (6762000, (3381000000483000, 1000000009), 3381000, false),
            Some((1000000009, 1, [161000, 0, 0, 0])),
        )),
    ),
];

/// Three parallel links that fail alone.
const CERTIFIED: Row = (
    2,
    &PARALLEL,
    3,
    &[&[0], &[1], &[2]],
    (0, 1, 10000),
    Some(((15000, (15000, 1), 15000, true), Some((2, 3, [0, 1, 1, 1])))),
);

/// A chain whose last link fails.
const CUT_OFF: [Row; 2] = [
    (3, &CHAIN, 2, &[&[1]], (0, 2, 12000), None),
    (
        3,
        &CHAIN,
        2,
        &[&[1]],
        (0, 2, 0),
        Some(((0, (0, 1), 0, true), None)),
    ),
];

fn look(plan: &Plan) -> Looked {
    let raw = (plan.raw_num, plan.raw_den);
    let tight = matches!(&plan.quality, Quality::Tight(_));
    (plan.cost, raw, plan.bound, tight)
}

fn numerators(plan: &Plan) -> Numerators {
    let certificate = &plan.certificate;
    let mut nums = [0; 4];
    for line in certificate.lines.items() {
        if let Spot::Pool(i) = line.spot {
            if let Some(num) = nums.get_mut(i as usize) {
                *num = line.num;
            }
        }
    }
    (certificate.den, certificate.lines.len(), nums)
}

/// The answer of planning on a new board.
fn planned(
    alloc: Global,
    net: &Network,
    states: &States,
    opening: Demands,
) -> Result<PlanAnswer, NoMemory>
    requires { AreDemands (length net.now.nodes) opening }
{
    let board = Board::new(alloc, net, states, opening)?;
    let snapshot = board.snapshot()?;
    let mut separator = OneByOne::new(alloc, board);
    plan_snapshot(alloc, net, states, snapshot, &mut separator)
}

/// The answer of planning for one demand.
fn planned_for(alloc: Global, place: &Place, demand: DemandRow) -> Option<PlanAnswer> {
    let opening = demands(alloc, place.net.nodes().len(), &[demand]).ok()?;
    planned(alloc, &place.net, &place.states, opening).ok()
}

/// The answer of planning for a row.
fn answer_of(alloc: Global, row: &Row) -> Option<PlanAnswer> {
    let links = row.1.get(..row.2)?;
    let place = place_of(alloc, row.0, links, row.3)?;
    planned_for(alloc, &place, row.4)
}

/// The network of these links, in which each of them fails alone.
fn singles_of(alloc: Global, nodes: usize, links: &[LinkRow]) -> Option<Place> {
    let net = network(alloc, nodes, links).ok()?;
    let states = single_failures(alloc, &net).ok()?;
    Some(Place { net, states })
}

/// The answer of planning for a row in which each link fails alone.
fn singles_answer(alloc: Global, row: &SinglesRow) -> Option<PlanAnswer> {
    let place = singles_of(alloc, row.0, row.1)?;
    planned_for(alloc, &place, row.2)
}

/// Whether a plan has the cost, raw value, bound and quality that a row expects.
fn looks_like(plan: &Plan, want: &Option<(Looked, Option<Numerators>)>) -> bool {
    let Some((looked, nums)) = want else {
        return false;
    };
    look(plan) == *looked
        && match nums {
            Some(nums) => numerators(plan) == *nums,
            None => true,
        }
}

/// Whether an answer is what a row expects.
fn is_answered(answer: &Option<PlanAnswer>, want: &Option<(Looked, Option<Numerators>)>) -> bool {
    match answer {
        Some(PlanAnswer::Planned(plan)) => looks_like(plan, want),
        Some(PlanAnswer::NotSurvivable(..)) => want.is_none(),
        None => false,
    }
}

/// Whether planning gives what the row says.
fn is_planned(alloc: Global, row: &Row) -> bool {
    let answer = answer_of(alloc, row);
    let is_so = is_answered(&answer, &row.5);
    discard(answer);
    is_so
}

/// Whether planning gives what a row says, if each link fails alone.
fn is_planned_with_singles(alloc: Global, row: &SinglesRow) -> bool {
    let answer = singles_answer(alloc, row);
    let is_so = is_answered(&answer, &row.3);
    discard(answer);
    is_so
}

/// The answer of planning in the bundles of prime capacities, in which each link fails alone.
fn prime_answer(alloc: Global, need: u64) -> Option<PlanAnswer> {
    let place = singles_of(alloc, 4, &PRIME_BUNDLES)?;
    planned_for(alloc, &place, (0, 3, need))
}

/// Whether planning gives what the row says in the bundles of prime capacities.
fn is_planned_in_prime_bundles(alloc: Global, row: &WideRow) -> bool {
    let answer = prime_answer(alloc, row.0);
    let is_so = is_answered(&answer, &row.1);
    discard(answer);
    is_so
}

/// Whether planning gives what each row says.
fn are_planned(alloc: Global, rows: &[Row]) -> bool {
    for row in rows {
        if !is_planned(alloc, row) {
            return false;
        }
    }
    true
}

#[test]
fn small_networks_have_tight_plans(rt: HostRuntime) {
    assert!(rt; are_planned(rt.alloc(), &TIGHT));
}

#[test]
fn a_certificate_names_the_pooled_cuts_of_the_failures(rt: HostRuntime) {
    assert!(rt; is_planned(rt.alloc(), &CERTIFIED));
}

#[test]
fn many_links_that_fail_alone_have_tight_plans(rt: HostRuntime) {
    for row in &MANY {
        assert!(rt; is_planned_with_singles(rt.alloc(), row));
    }
}

#[test]
fn rounds_at_wide_shares_lead_on_to_narrow_ones(rt: HostRuntime) {
    for row in &WIDE_SHARES {
        assert!(rt; is_planned_in_prime_bundles(rt.alloc(), row));
    }
}

#[test]
fn a_chain_that_fails_carries_a_demand_of_0_alone(rt: HostRuntime) {
    assert!(rt; are_planned(rt.alloc(), &CUT_OFF));
}
