use crate::fixtures::{TRIANGLE, make_problem};
use failure_states::{first_separated, survives};
use net_core::{LinkId, Problem, StateId};
use std::alloc::Global;
use worked_networks::{LinkRow, TEN};

/// A link without modules.
const BARE: [LinkRow; 1] = [(0, 1, 0, &[])];

/// A chain of three nodes.
const CHAIN: [LinkRow; 2] = [(0, 1, 0, &TEN), (1, 2, 0, &TEN)];

/// The number of nodes, the links, the links that fail in each state, the need of a demand from the first node to the last, and the first state
/// that separates it.
#[derive(Clone, Copy)]
struct Case {
    name: &'static str,
    nodes: u32,
    links: &'static [LinkRow<'static>],
    failed: &'static [&'static [u32]],
    need: u64,
    state: Option<u32>,
}

const CASES: [Case; 5] = [
    Case {
        name: "a state separates the chain that it cuts",
        nodes: 3,
        links: &CHAIN,
        failed: &[&[1]],
        need: 12000,
        state: Some(1),
    },
    Case {
        name: "nothing separates a demand of 0",
        nodes: 3,
        links: &CHAIN,
        failed: &[&[1]],
        need: 0,
        state: None,
    },
    Case {
        name: "a link without modules joins nothing",
        nodes: 2,
        links: &BARE,
        failed: &[],
        need: 1000,
        state: Some(0),
    },
    Case {
        name: "the triangle survives each link",
        nodes: 3,
        links: &TRIANGLE,
        failed: &[&[0], &[1], &[2]],
        need: 12000,
        state: None,
    },
    Case {
        name: "the triangle doesn't survive two links of one end",
        nodes: 3,
        links: &TRIANGLE,
        failed: &[&[0], &[1, 2]],
        need: 12000,
        state: Some(2),
    },
];

/// Whether the first separation is in this state, of the first demand, or there is none if no state is expected.
fn is_first(alloc: Global, p: &Problem, want: Option<u32>) -> bool {
    match (first_separated(alloc, &p.net, &p.states, &p.demands), want) {
        (Ok(Some(found)), Some(state)) => found.state.0 == state && found.demand == 0,
        (Ok(None), None) => true,
        _ => false,
    }
}

/// Whether the first separation is the case's.
fn is_separated(alloc: Global, case: &Case) -> bool {
    let last = case.nodes.saturating_sub(1);
    let demands = [(0, last, case.need)];
    match make_problem(
        alloc,
        case.nodes as usize,
        case.links,
        case.failed,
        &demands,
    ) {
        Some(p) => is_first(alloc, &p, case.state),
        None => false,
    }
}

#[test]
fn first_separations_are_found(rt: HostRuntime) {
    for case in &CASES {
        assert!(rt; is_separated(rt.alloc(), case), "{}", case.name);
    }
}

/// A state, a link of the chain, and whether it survives. State 1 fails the second link.
const SURVIVALS: [(u32, u32, bool); 4] = [(0, 0, true), (0, 1, true), (1, 0, true), (1, 1, false)];

/// Whether the links survive or fail as the table says.
fn survive_as_told(p: &Problem) -> bool {
    for (state, link, want) in &SURVIVALS {
        if *state >= p.states.count()
            || *link as usize >= p.net.links().len()
            || survives(&p.net, &p.states, StateId(*state), LinkId(*link)) != *want
        {
            return false;
        }
    }
    true
}

/// Whether the links of the chain survive or fail as the table says.
fn survive_on_chain(alloc: Global) -> bool {
    match make_problem(alloc, 3, &CHAIN, &[&[1]], &[]) {
        Some(p) => survive_as_told(&p),
        None => false,
    }
}

#[test]
fn failed_links_do_not_survive(rt: HostRuntime) {
    assert!(rt; survive_on_chain(rt.alloc()));
}
