ghost use Rattle.std.specs.Prelude.{IsTrue};
ghost use Rattle.plan_terms.specs.Terms.{case, AreCounts, IsSurvivable};

use crate::fixtures::{FREE, TRIANGLE, TWO_KINDS, are_modules, charged};
use failure_states::first_separated;
use module_choice::{Covering, capacities, cost, cover, fallback_plan};
use net_core::{Counts, Link, List, Module, Network, Problem};
use std::alloc::Global;
use worked_networks::{DemandRow, LinkRow, ONE, TEN, network, problem};

/// Modules of 0.001 for 0.001 and of 1.000 for 0.500.
const SMALL_STEPS: [Module; 2] = [
    Module {
        capacity: 1,
        cost: 1,
    },
    Module {
        capacity: 1000,
        cost: 500,
    },
];

/// The counts that cover a need on the link, with their cost.
fn covering(alloc: Global, link: &Link, need: u64) -> Option<Covering> {
    let modules = link.modules.items();
    if modules.is_empty() || modules.len() > 16 || !are_modules(modules) || need >= 1 << 44 {
        return None;
    }
    cover(alloc, link, need).ok()
}

/// The setup cost of a link, its modules, a need, the counts that cover it, and their cost.
type CoverRow = (u64, &'static [Module], u64, &'static [u64], u128);

/// A need of up to 100,000 steps of the capacities' greatest common divisor gets the cheapest of all counts, and a greater one the cheapest of
/// one kind. 700 take a module of 155 and one of 622 for 100 + 250 = 350, and 99.001 take one of 0.001 and 99 of 1 for 0.001 + 49.5.
const COVERS: [CoverRow; 12] = [
    (0, &TWO_KINDS, 0, &[0, 0], 0),
    (0, &TWO_KINDS, 1, &[1, 0], 100000),
    (0, &TWO_KINDS, 155000, &[1, 0], 100000),
    (0, &TWO_KINDS, 180000, &[2, 0], 200000),
    (0, &TWO_KINDS, 310001, &[0, 1], 250000),
    (0, &TWO_KINDS, 500000, &[0, 1], 250000),
    (0, &TWO_KINDS, 700000, &[1, 1], 350000),
    (0, &TWO_KINDS, 900000, &[2, 1], 450000),
    (0, &SMALL_STEPS, 99001, &[1, 99], 49501),
    (0, &SMALL_STEPS, 100000, &[0, 100], 50000),
    (0, &SMALL_STEPS, 100001, &[0, 101], 50500),
    (0, &SMALL_STEPS, 150100, &[0, 151], 75500),
];

/// The setup cost is paid once if something is needed, as in 3 + 2 * 5 = 13 for 12.00 on modules of 10.00. A link that needs nothing costs
/// nothing.
const CHARGED_COVERS: [CoverRow; 10] = [
    (3000, &TEN, 0, &[0], 0),
    (3000, &TEN, 1, &[1], 8000),
    (3000, &TEN, 10000, &[1], 8000),
    (3000, &TEN, 12000, &[2], 13000),
    (30000, &TWO_KINDS, 180000, &[2, 0], 230000),
    (30000, &TWO_KINDS, 700000, &[1, 1], 380000),
    (7, &SMALL_STEPS, 99001, &[1, 99], 49508),
    (7, &SMALL_STEPS, 100001, &[0, 101], 50507),
    (300, &FREE, 0, &[0], 0),
    (300, &FREE, 10001, &[2], 300),
];

fn is_cover(alloc: Global, net: &Network, row: &CoverRow) -> bool {
    let [link] = net.links().items() else {
        return false;
    };
    match covering(alloc, link, row.2) {
        Some(found) => found.counts.items() == row.3 && found.cost == row.4,
        None => false,
    }
}

/// Whether the row's need is covered as it says, on a link with the row's setup cost and modules.
fn is_cover_there(alloc: Global, row: &CoverRow) -> bool {
    match charged(alloc, 2, &[(0, 1, 0, row.1)], &[row.0]) {
        Some(net) => is_cover(alloc, &net, row),
        None => false,
    }
}

/// The first row whose need isn't covered as it says.
fn first_other_cover(alloc: Global, rows: &[CoverRow]) -> Option<usize> {
    for i in 0..rows.len() {
        if !is_cover_there(alloc, &rows[i]) {
            return Some(i);
        }
    }
    None
}

#[test]
fn covers(rt: HostRuntime) {
    let wrong = first_other_cover(rt.alloc(), &COVERS);
    assert!(rt; wrong.is_none(), "row {}", wrong.unwrap_or(0));
}

#[test]
fn covers_with_setups(rt: HostRuntime) {
    let wrong = first_other_cover(rt.alloc(), &CHARGED_COVERS);
    assert!(rt; wrong.is_none(), "row {}", wrong.unwrap_or(0));
}

/// Capacities and costs of 16 kinds of module, of which none is the best for all needs.
const SIXTEEN_KINDS: [(u64, u64); 16] = [
    (2, 7),
    (3, 9),
    (4, 13),
    (5, 14),
    (6, 18),
    (7, 19),
    (8, 24),
    (9, 25),
    (10, 28),
    (11, 29),
    (12, 33),
    (13, 34),
    (14, 38),
    (15, 39),
    (16, 41),
    (17, 44),
];

/// The least cost of counts of these kinds that reach a need, for each need from 0 to 40. They were found by another program, which tries all
/// counts.
const LEAST_COSTS: [u128; 41] = [
    0, 7, 7, 9, 13, 14, 18, 19, 23, 25, 28, 29, 33, 34, 38, 39, 41, 44, 48, 50, 53, 55, 58, 60, 63,
    66, 68, 70, 73, 75, 78, 80, 82, 85, 88, 91, 94, 96, 99, 101, 104,
];

fn sixteen_kinds(alloc: Global) -> Option<List<Module>> {
    let mut modules = List::new(alloc);
    for (capacity, cost) in &SIXTEEN_KINDS {
        let module = Module {
            capacity: *capacity,
            cost: *cost,
        };
        modules.push(module).ok()?;
    }
    Some(modules)
}

/// A network with one link that has modules of these kinds.
fn link_of_kinds(alloc: Global) -> Option<Network> {
    let kinds = sixteen_kinds(alloc)?;
    network(alloc, 2, &[(0, 1, 0, kinds.items())]).ok()
}

/// The first need whose cover doesn't have the least cost.
fn first_dearer(alloc: Global, net: &Network) -> Option<usize> {
    let [link] = net.links().items() else {
        return Some(0);
    };
    for need in 0..LEAST_COSTS.len() {
        match covering(alloc, link, need as u64) {
            Some(found) if found.cost == LEAST_COSTS[need] => {}
            _ => return Some(need),
        }
    }
    None
}

/// The first need whose cover doesn't have the least cost, on a link with these kinds.
fn first_dearer_of_kinds(alloc: Global) -> Option<usize> {
    match link_of_kinds(alloc) {
        Some(net) => first_dearer(alloc, &net),
        None => Some(0),
    }
}

#[test]
fn covers_of_sixteen_kinds(rt: HostRuntime) {
    assert_eq!(rt; first_dearer_of_kinds(rt.alloc()), None);
}

/// Whether these are the counts of all links, one after another.
fn are_counts(counts: &Counts, want: &[u64]) -> bool {
    let mut rest = want;
    for c in counts.items() {
        match rest.strip_prefix(c.items()) {
            Some(after) => rest = after,
            None => return false,
        }
    }
    rest.is_empty()
}

/// Whether no state separates a demand.
fn is_survivable(alloc: Global, p: &Problem) -> bool
    ensures { IsTrue result → IsSurvivable (case p.now.net p.now.states p.now.demands) }
{
    matches!(
        first_separated(alloc, &p.net, &p.states, &p.demands),
        Ok(None)
    )
}

/// The triangle with 2.00 installed on each link.
const WITH_TWO: [LinkRow; 3] = [(0, 1, 2000, &TEN), (1, 2, 2000, &TEN), (0, 2, 2000, &TEN)];

/// The triangle with 12.00 installed on each link.
const WITH_TWELVE: [LinkRow; 3] = [
    (0, 1, 12000, &TEN),
    (1, 2, 12000, &TEN),
    (0, 2, 12000, &TEN),
];

/// A ring of four nodes and one chord, with modules of 1.00 for 1.00.
const RING_OF_ONES: [LinkRow; 5] = [
    (0, 1, 0, &ONE),
    (1, 3, 0, &ONE),
    (3, 2, 0, &ONE),
    (2, 0, 0, &ONE),
    (0, 3, 0, &ONE),
];

/// A ring of four nodes and one chord, with modules of two kinds.
const RING_OF_TWO_KINDS: [LinkRow; 5] = [
    (0, 1, 0, &TWO_KINDS),
    (1, 3, 0, &TWO_KINDS),
    (3, 2, 0, &TWO_KINDS),
    (2, 0, 0, &TWO_KINDS),
    (0, 3, 0, &TWO_KINDS),
];

/// The number of nodes, the links with their setup costs, the demands, and the counts, the cost and the capacities of the fallback plan.
#[derive(Clone, Copy)]
struct Case {
    nodes: usize,
    links: &'static [LinkRow<'static>],
    setups: &'static [u64],
    demands: &'static [DemandRow],
    counts: &'static [u64],
    cost: u128,
    capacities: &'static [u128],
}

const TO_LAST: [DemandRow; 1] = [(0, 2, 12000)];

const THREE_DEMANDS: [DemandRow; 3] = [(0, 1, 60000), (0, 3, 80000), (1, 2, 40000)];

/// Each link fails alone. A link of the triangle carries 12.00 in some state and needs two modules, which cost 3 * 2 * 5.00 = 30.00 in all, or
/// one if 2.00 are installed, or none if 12.00 are. With modules of 1.00 the counts are the greatest loads.
const FALLBACKS: [Case; 6] = [
    Case {
        nodes: 3,
        links: &TRIANGLE,
        setups: &[],
        demands: &TO_LAST,
        counts: &[2, 2, 2],
        cost: 30000,
        capacities: &[20000, 20000, 20000],
    },
    Case {
        nodes: 3,
        links: &WITH_TWO,
        setups: &[],
        demands: &TO_LAST,
        counts: &[1, 1, 1],
        cost: 15000,
        capacities: &[12000, 12000, 12000],
    },
    Case {
        nodes: 3,
        links: &WITH_TWELVE,
        setups: &[],
        demands: &TO_LAST,
        counts: &[0, 0, 0],
        cost: 0,
        capacities: &[12000, 12000, 12000],
    },
    Case {
        nodes: 2,
        links: &[(0, 1, 0, &ONE), (0, 1, 0, &ONE), (0, 1, 0, &ONE)],
        setups: &[],
        demands: &[(0, 1, 10000)],
        counts: &[10, 10, 0],
        cost: 20000,
        capacities: &[10000, 10000, 0],
    },
    Case {
        nodes: 4,
        links: &RING_OF_ONES,
        setups: &[],
        demands: &THREE_DEMANDS,
        counts: &[180, 100, 40, 40, 140],
        cost: 500000,
        capacities: &[180000, 100000, 40000, 40000, 140000],
    },
    Case {
        nodes: 4,
        links: &RING_OF_TWO_KINDS,
        setups: &[],
        demands: &THREE_DEMANDS,
        counts: &[2, 0, 1, 0, 1, 0, 1, 0, 1, 0],
        cost: 600000,
        capacities: &[310000, 155000, 155000, 155000, 155000],
    },
];

/// Each link fails alone. A link that takes modules pays its setup cost once: 30.00 for modules and 3 * 3.00 or 1.00 + 0 + 7.00 for setups. A
/// link whose installed capacity is enough pays nothing.
const CHARGED_FALLBACKS: [Case; 5] = [
    Case {
        nodes: 3,
        links: &TRIANGLE,
        setups: &[3000, 3000, 3000],
        demands: &TO_LAST,
        counts: &[2, 2, 2],
        cost: 39000,
        capacities: &[20000, 20000, 20000],
    },
    Case {
        nodes: 3,
        links: &TRIANGLE,
        setups: &[1000, 0, 7000],
        demands: &TO_LAST,
        counts: &[2, 2, 2],
        cost: 38000,
        capacities: &[20000, 20000, 20000],
    },
    Case {
        nodes: 3,
        links: &WITH_TWELVE,
        setups: &[3000, 3000, 3000],
        demands: &TO_LAST,
        counts: &[0, 0, 0],
        cost: 0,
        capacities: &[12000, 12000, 12000],
    },
    Case {
        nodes: 3,
        links: &[(0, 1, 12000, &TEN), (1, 2, 2000, &TEN), (0, 2, 0, &TEN)],
        setups: &[1000, 2000, 4000],
        demands: &TO_LAST,
        counts: &[0, 1, 2],
        cost: 21000,
        capacities: &[12000, 12000, 20000],
    },
    Case {
        nodes: 2,
        links: &[(0, 1, 0, &ONE), (0, 1, 0, &ONE), (0, 1, 0, &ONE)],
        setups: &[5, 6, 7],
        demands: &[(0, 1, 10000)],
        counts: &[10, 10, 0],
        cost: 20011,
        capacities: &[10000, 10000, 0],
    },
];

/// Whether the counts are the case's, with its cost and capacities.
fn come_to(alloc: Global, net: &Network, counts: &Counts, case: &Case) -> bool
    requires { AreCounts net.now.links counts.now }
{
    match capacities(alloc, net, counts) {
        Ok(caps) => {
            caps.scale == 1
                && caps.nums.items() == case.capacities
                && cost(net, counts) == case.cost
                && are_counts(counts, case.counts)
        }
        Err(_) => false,
    }
}

/// Whether the fallback plan is the expected one.
fn is_fallback(alloc: Global, p: &Problem, case: &Case) -> bool {
    if !is_survivable(alloc, p) {
        return false;
    }
    match fallback_plan(alloc, &p.net, &p.states, &p.demands) {
        Ok(plan) => plan.cost == case.cost && come_to(alloc, &p.net, &plan.counts, case),
        Err(_) => false,
    }
}

/// The problem of a case, in which each link fails alone.
fn problem_of(alloc: Global, case: &Case) -> Option<Problem> {
    problem(
        alloc,
        charged(alloc, case.nodes, case.links, case.setups)?,
        case.demands,
    )
    .ok()
}

fn is_fallback_there(alloc: Global, case: &Case) -> bool {
    match problem_of(alloc, case) {
        Some(p) => is_fallback(alloc, &p, case),
        None => false,
    }
}

/// The first case whose fallback plan isn't the expected one.
fn first_other_fallback(alloc: Global, cases: &[Case]) -> Option<usize> {
    for i in 0..cases.len() {
        if !is_fallback_there(alloc, &cases[i]) {
            return Some(i);
        }
    }
    None
}

#[test]
fn fallback_plans(rt: HostRuntime) {
    let wrong = first_other_fallback(rt.alloc(), &FALLBACKS);
    assert!(rt; wrong.is_none(), "row {}", wrong.unwrap_or(0));
}

#[test]
fn fallback_plans_with_setups(rt: HostRuntime) {
    let wrong = first_other_fallback(rt.alloc(), &CHARGED_FALLBACKS);
    assert!(rt; wrong.is_none(), "row {}", wrong.unwrap_or(0));
}
