//! A trimmed plan of a network in which a module can neither be spared nor refused by a cut.
//!
//! Three pairs of demands fill a chain of stages, or take a short way over one link, on which they need a module. Two further demands get
//! in each other's way if the one of 0.003 takes its shortest path. What is installed without modules can carry the demands, so that no cut
//! is violated. But without the module no greedy routing is found, and the numbers of the routing program grow too wide.
ghost use Rattle.std.specs.Prelude.{◌≡◌};
ghost use Rattle.plan_terms.specs.Terms.{case_of, IsSurvivable};
ghost use Rattle.trim_plan.specs.Trimmed.{IsRoutedPlan};

use crate::planned::planned;
use crate::trims::trimmed_plan;
use net_core::{Instance, Link, List, Module, Network, NodeId, Notes, Places, Problem};
use plan_types::Plan;
use std::alloc::Global;
use std::sync::Wait;
use std::thread::Threads;
use trim_plan::{Block, Stop};
use worked_networks::{
    CHAIN_DEMANDS, DemandRow, LinkRow, STAGES, TEN, chain_links, demands, failing, numbered,
    numbered_nodes,
};

/// A module of 10.00 for 6.00.
const DEAR: [Module; 1] = [Module {
    capacity: 10000,
    cost: 6000,
}];

/// The link of the short way, the links from it to the chain and to the further demands, and the links of these.
const BESIDE: [LinkRow; 12] = [
    (61, 62, 0, &TEN),
    (0, 61, 5000, &DEAR),
    (40, 61, 5000, &DEAR),
    (20, 62, 5000, &DEAR),
    (60, 62, 5000, &DEAR),
    (63, 61, 5000, &DEAR),
    (64, 62, 5000, &DEAR),
    (63, 64, 3, &DEAR),
    (64, 65, 3, &DEAR),
    (63, 66, 2, &DEAR),
    (66, 67, 2, &DEAR),
    (67, 65, 2, &DEAR),
];

/// The demands that get in each other's way.
const CROSSING: [DemandRow; 2] = [(63, 65, 3), (63, 64, 2)];

/// A link beside the chain.
fn link_beside(alloc: Global, k: u32, row: &LinkRow) -> Option<Link> {
    if k >= 1000 {
        return None;
    }
    Some(Link {
        name: numbered(alloc, k)?,
        a: NodeId(row.0),
        b: NodeId(row.1),
        fixed: row.2,
        setup: 0,
        modules: List::from_slice(alloc, row.3).ok()?,
    })
}

/// The links of the chain, and those beside it.
fn all_links(alloc: Global) -> Option<List<Link>> {
    let mut links = chain_links(alloc)?;
    let mut k = 2 * STAGES;
    for row in &BESIDE {
        links.push(link_beside(alloc, k, row)?).ok()?;
        k = k.saturating_add(1);
    }
    Some(links)
}

/// The network, without notes of costs.
fn wide_network(alloc: Global) -> Option<Network> {
    let nodes = numbered_nodes(alloc, STAGES + 8)?;
    let notes = Notes {
        fixed_cost: false,
        routing_cost: false,
        setup_cost: false,
    };
    Network::check(nodes, all_links(alloc)?, notes, Places::Three).ok()
}

/// The demands of the chain, and those that get in each other's way.
fn all_demands(alloc: Global) -> Option<List<DemandRow>> {
    let mut rows = List::from_slice(alloc, &CHAIN_DEMANDS).ok()?;
    rows.append(&CROSSING).ok()?;
    Some(rows)
}

/// The planning of a network with these demands, without failures.
fn problem_of(alloc: Global, net: Network, rows: &[DemandRow]) -> Option<Problem> {
    let states = failing(alloc, &net, &[]).ok()?;
    let demands = demands(alloc, net.nodes().len(), rows).ok()?;
    Some(Problem {
        net,
        states,
        demands,
    })
}

/// The planning of the network of this file, without failures.
fn wide_problem(alloc: Global) -> Option<Problem> {
    let rows = all_demands(alloc)?;
    problem_of(alloc, wide_network(alloc)?, rows.items())
}

/// Whether evidence keeps a module.
fn is_wide(block: &Block) -> bool {
    match &block.why {
        Stop::Wide(_) => true,
        Stop::Cut(_) => false,
    }
}

/// What a trimmed plan costs, how many blocks it has, and how many of these are evidence.
fn trimmed_wide(alloc: Global, instance: &Instance, plan: Plan) -> Option<(u128, usize, usize)>
    requires survivable { IsSurvivable (case_of instance.now) }
    requires demands { plan.demands ≡ instance.now.demands.now }
    requires routed { IsRoutedPlan (case_of instance.now) plan }
{
    let trimmed = trimmed_plan(alloc, instance, plan)?;
    let blocks = trimmed.blocks.items();
    let wide = blocks.iter().filter(|b| is_wide(b)).count();
    Some((trimmed.plan.cost, blocks.len(), wide))
}

/// What the trimmed plan of the wide network costs, how many blocks it has, and how many of these are evidence.
fn on_wide_network<R: Threads + Wait + Sync>(
    rt: &R,
    alloc: Global,
) -> Option<(u128, usize, usize)> {
    let problem = wide_problem(alloc)?;
    let instance = problem.instance();
    let plan = planned(rt, alloc, &instance)?;
    trimmed_wide(alloc, &instance, plan)
}

/// All other modules are taken off, and this one stays, with evidence.
#[test]
fn a_module_stays_where_a_number_is_too_wide(rt: HostRuntime) {
    assert!(rt; on_wide_network(&rt, rt.alloc()) == Some((5000, 1, 1)));
}
