ghost use Rattle.std.specs.Prelude.{◌≤◌};

use crate::searches::{Found, LEAST, are_charged, sample_problem, shown_by_tree, triangle_problem};
use net_core::{Instance, Module, NoMemory, Problem};
use outside_io::OpenGate;
use proof_report::{ProofEnding, prove_once_by_lines};
use std::alloc::Global;
use std::sync::Wait;
use std::thread::Threads;
use tree_check::Verdict;
use worked_networks::{LinkRow, network, problem};

/// What a search with lines and at most this many splits shows of an instance.
fn searched_by_lines<R: Threads + Wait + Sync>(
    rt: &R,
    alloc: Global,
    instance: &Instance,
    limit: u32,
) -> Option<Found>
    requires { limit ≤ 9999 }
{
    if !are_charged(instance.net.links().items()) {
        return None;
    }
    match prove_once_by_lines(rt, alloc, instance, limit, &OpenGate) {
        Ok(ProofEnding::Proved(report)) => shown_by_tree(alloc, instance, report, limit),
        Ok(ProofEnding::Separated { .. }) => None,
        Err(NoMemory) => None,
    }
}

/// Whether a result is that the least cost is this, found with fewer than ten splits.
fn is_least(found: Option<Found>, least: u128) -> bool {
    match found {
        Some((cost, Verdict::Cheapest, splits)) => cost == least && splits < 10,
        Some((_, Verdict::Above(_), _)) => false,
        None => false,
    }
}

/// Whether a search with lines shows, with fewer than ten splits, that the least cost is this.
fn shows_least<R: Threads + Wait + Sync>(
    rt: &R,
    alloc: Global,
    problem: Option<Problem>,
    least: u128,
) -> bool {
    match problem {
        Some(problem) => is_least(
            searched_by_lines(rt, alloc, &problem.instance(), 9999),
            least,
        ),
        None => false,
    }
}

#[test]
fn lines_show_sample_plans_to_be_cheapest_with_few_splits(rt: HostRuntime) {
    for (seed, least) in &LEAST {
        let problem = sample_problem(rt.alloc(), *seed);
        assert!(rt; shows_least(&rt, rt.alloc(), problem, *least));
    }
}

#[test]
fn lines_show_a_worked_plan_to_be_cheapest(rt: HostRuntime) {
    let problem = triangle_problem(rt.alloc());
    assert!(rt; shows_least(&rt, rt.alloc(), problem, 30000));
}

/// Whether the root alone shows that the least cost is this.
fn root_shows_least<R: Threads + Wait + Sync>(
    rt: &R,
    alloc: Global,
    problem: Option<Problem>,
    least: u128,
) -> bool {
    let Some(problem) = problem else {
        return false;
    };
    match searched_by_lines(rt, alloc, &problem.instance(), 0) {
        Some((cost, verdict, splits)) => {
            cost == least && verdict == Verdict::Cheapest && splits == 0
        }
        None => false,
    }
}

/// If AC fails, AB and BC carry 12.00 each, and if AB fails, AC does. So of modules of 10.00 for 5.00 each link has two.
#[test]
fn the_root_alone_shows_a_worked_plan_to_be_cheapest(rt: HostRuntime) {
    let problem = triangle_problem(rt.alloc());
    assert!(rt; root_shows_least(&rt, rt.alloc(), problem, 30000));
}

/// Modules of 10.00 for 5.00, of 25.00 for 9.00, and of 40.00 for 13.00.
const THREE_KINDS: [Module; 3] = [
    Module {
        capacity: 10000,
        cost: 5000,
    },
    Module {
        capacity: 25000,
        cost: 9000,
    },
    Module {
        capacity: 40000,
        cost: 13000,
    },
];

/// Three parallel links with these three kinds of modules.
const OF_THREE_KINDS: [LinkRow; 3] = [
    (0, 1, 0, &THREE_KINDS),
    (0, 1, 0, &THREE_KINDS),
    (0, 1, 0, &THREE_KINDS),
];

/// Three parallel links with a demand of 30.00, where each link may fail. Any two links have to carry it: 10.00 and 25.00 beside another
/// 25.00 cost 23.00. With nothing on one link the others have 40.00 each, for 26.00, and with 25.00 on each link they cost 27.00.
fn kinds_problem(alloc: Global) -> Option<Problem> {
    let net = network(alloc, 2, &OF_THREE_KINDS).ok()?;
    problem(alloc, net, &[(0, 1, 30000)]).ok()
}

#[test]
fn lines_show_a_plan_of_three_kinds_to_be_cheapest(rt: HostRuntime) {
    let problem = kinds_problem(rt.alloc());
    assert!(rt; shows_least(&rt, rt.alloc(), problem, 23000));
}
