//! Tests of branch trees, against least costs that another solver found, or that were worked out by hand.
ghost use Rattle.std.specs.Prelude.{◌≡◌, ◌+◌, ◌<◌, ◌≤◌, ◌^◌, ◌↔◌, All, IsTrue, length};
ghost use Rattle.plan_terms.specs.Terms.{AreDemands, case_of};
ghost use Rattle.proof_report.specs.ProvedReports.{IsLinedReport, IsProvedReport};

use net_core::{Demands, Instance, Link, Module, Network, NoMemory, Problem};
use outside_io::OpenGate;
use proof_report::{ProofEnding, ProvedReport, prove_once};
use sample_net::sample;
use std::alloc::Global;
use std::sync::Wait;
use std::thread::Threads;
use tree_check::{Node, TreeAnswer, Verdict, check_tree};
use worked_networks::{
    LinkRow, ONE, PARALLEL, TEN, failing, network, problem, single_failures, triangle,
};

/// The result of a search: the plan's cost in units of the network, the verdict, and the number of splits.
pub(crate) type Found = (u128, Verdict, usize);

/// Whether each of these modules costs something.
fn are_dear(modules: &[Module]) -> bool
    ensures { IsTrue result ↔ All (λ m. 0 < m.cost) modules.now }
{
    modules.iter().all(|m| m.cost > 0)
}

/// Whether all modules cost something.
pub(crate) fn are_charged(links: &[Link]) -> bool
    ensures { IsTrue result ↔ All (λ l. All (λ m. 0 < m.cost) l.modules) links.now }
{
    links.iter().all(|l| are_dear(l.modules.items()))
}

/// How many nodes of a tree are splits.
pub(crate) fn split_number(nodes: &[Node]) -> usize {
    nodes
        .iter()
        .filter(|node| matches!(node, Node::Split { .. }))
        .count()
}

/// What the tree of a report shows; `None` if its check rejects it.
pub(crate) fn shown_by_tree(
    alloc: Global,
    instance: &Instance,
    report: ProvedReport,
    limit: u32,
) -> Option<Found>
    requires { IsLinedReport (case_of instance.now) instance.now.net.now.notes limit report }
{
    let _ = limit;
    let proof = report.proof;
    match check_tree(
        alloc,
        instance.net,
        instance.states,
        instance.demands,
        &proof,
    ) {
        TreeAnswer::Accepted => {
            let splits = split_number(proof.tree.items());
            Some((proof.plan.cost, proof.verdict, splits))
        }
        TreeAnswer::Rejected(_) => None,
        TreeAnswer::NoMemory => None,
    }
}

/// What the tree of a report over cuts alone shows.
fn shown(alloc: Global, instance: &Instance, report: ProvedReport, limit: u32) -> Option<Found>
    requires { IsProvedReport (case_of instance.now) instance.now.net.now.notes limit report }
{
    shown_by_tree(alloc, instance, report, limit)
}

/// What a search of an instance with at most this many splits shows.
fn searched<R: Threads + Wait + Sync>(
    rt: &R,
    alloc: Global,
    instance: &Instance,
    limit: u32,
) -> Option<Found>
    requires { limit ≤ 9999 }
{
    if !are_charged(instance.net.links().items()) {
        return None;
    }
    match prove_once(rt, alloc, instance, limit, &OpenGate) {
        Ok(ProofEnding::Proved(report)) => shown(alloc, instance, report, limit),
        Ok(ProofEnding::Separated { .. }) => None,
        Err(NoMemory) => None,
    }
}

/// The planning of a network in which each link may fail.
fn with_failures(alloc: Global, net: Network, demands: Demands) -> Option<Problem>
    requires { AreDemands (length net.nodes) demands }
{
    let states = single_failures(alloc, &net).ok()?;
    Some(Problem {
        net,
        states,
        demands,
    })
}

/// The sample network of a seed with six nodes, in which each link may fail.
pub(crate) fn sample_problem(alloc: Global, seed: u64) -> Option<Problem> {
    match sample(alloc, seed, 6) {
        Ok((net, demands)) => with_failures(alloc, net, demands),
        Err(NoMemory) => None,
    }
}

/// The triangle with a demand of 12.00 from A to C, where each link may fail.
pub(crate) fn triangle_problem(alloc: Global) -> Option<Problem> {
    problem(alloc, triangle(alloc, 0).ok()?, &[(0, 2, 12000)]).ok()
}

/// Four parallel links of modules of 1.00 for 1.00 with a demand of 10.00, where each link may fail.
pub(crate) fn parallel_problem(alloc: Global) -> Option<Problem> {
    let net = network(alloc, 2, &PARALLEL[..4]).ok()?;
    problem(alloc, net, &[(0, 1, 10000)]).ok()
}

/// Whether a search with at most 9,999 splits shows that the least cost is this.
fn shows_least<R: Threads + Wait + Sync>(
    rt: &R,
    alloc: Global,
    problem: Option<Problem>,
    least: u128,
) -> bool {
    let Some(problem) = problem else {
        return false;
    };
    match searched(rt, alloc, &problem.instance(), 9999) {
        Some((cost, Verdict::Cheapest, _)) => cost == least,
        Some((_, Verdict::Above(_), _)) => false,
        None => false,
    }
}

/// Seeds of sample networks with six nodes, and their least costs in units of the network, from an integer program over cuts.
pub(crate) const LEAST: [(u64, u128); 3] = [(1, 269000), (2, 373000), (3, 277000)];

#[test]
fn sample_plans_are_shown_to_be_cheapest(rt: HostRuntime) {
    for (seed, least) in &LEAST {
        let problem = sample_problem(rt.alloc(), *seed);
        assert!(rt; shows_least(&rt, rt.alloc(), problem, *least));
    }
}

#[test]
fn worked_plans_are_shown_to_be_cheapest(rt: HostRuntime) {
    let problem = triangle_problem(rt.alloc());
    assert!(rt; shows_least(&rt, rt.alloc(), problem, 30000));
    let problem = parallel_problem(rt.alloc());
    assert!(rt; shows_least(&rt, rt.alloc(), problem, 14000));
}

/// Modules of 10.00 for 5.00, and of 3.00 for 2.00.
const TEN_OR_THREE: [Module; 2] = [
    Module {
        capacity: 10000,
        cost: 5000,
    },
    Module {
        capacity: 3000,
        cost: 2000,
    },
];

/// Two parallel links, of which one has modules of 10.00 alone, in both orders. A demand of 12.00 fits on a module of 10.00 and one of
/// 3.00, for 7.00. Two modules of 10.00, of which neither can be spared, cost 10.00.
const UNEVEN: [[LinkRow; 2]; 2] = [
    [(0, 1, 0, &TEN), (0, 1, 0, &TEN_OR_THREE)],
    [(0, 1, 0, &TEN_OR_THREE), (0, 1, 0, &TEN)],
];

/// Two such links with a demand of 12.00, without failures.
fn uneven_problem(alloc: Global, rows: &[LinkRow]) -> Option<Problem> {
    let net = network(alloc, 2, rows).ok()?;
    let Problem { net, demands, .. } = problem(alloc, net, &[(0, 1, 12000)]).ok()?;
    let states = failing(alloc, &net, &[]).ok()?;
    Some(Problem {
        net,
        states,
        demands,
    })
}

#[test]
fn a_dearer_module_is_exchanged(rt: HostRuntime) {
    for rows in &UNEVEN {
        let problem = uneven_problem(rt.alloc(), rows);
        assert!(rt; shows_least(&rt, rt.alloc(), problem, 7000));
    }
}

/// Whether a search uses up its few splits, and tells a value below which no counts cost.
fn tells_value<R: Threads + Wait + Sync>(
    rt: &R,
    alloc: Global,
    problem: Option<Problem>,
    limit: u32,
    least: u128,
) -> bool
    requires { limit ≤ 9999 }
{
    let Some(problem) = problem else {
        return false;
    };
    match searched(rt, alloc, &problem.instance(), limit) {
        Some((cost, Verdict::Above(value), splits)) => {
            value <= least && least <= cost && splits == limit as usize
        }
        Some((_, Verdict::Cheapest, _)) => false,
        None => false,
    }
}

#[test]
fn a_search_of_few_splits_tells_a_value_below_the_least_cost(rt: HostRuntime) {
    let problem = triangle_problem(rt.alloc());
    assert!(rt; tells_value(&rt, rt.alloc(), problem, 1, 30000));
    let problem = sample_problem(rt.alloc(), 1);
    assert!(rt; tells_value(&rt, rt.alloc(), problem, 2, 269000));
}

/// A link with 20.00 installed, beside one with modules of 1.00 for 1.00.
const HELD: [LinkRow; 2] = [(0, 1, 20000, &ONE), (0, 1, 0, &ONE)];

/// These two links with a demand of 0, where each link may fail.
fn held_problem(alloc: Global) -> Option<Problem> {
    let net = network(alloc, 2, &HELD).ok()?;
    problem(alloc, net, &[(0, 1, 0)]).ok()
}

#[test]
fn a_plan_without_modules_is_cheapest(rt: HostRuntime) {
    let problem = held_problem(rt.alloc());
    assert!(rt; shows_least(&rt, rt.alloc(), problem, 0));
}
