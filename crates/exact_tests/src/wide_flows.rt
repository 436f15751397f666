use crate::flows::answer;
use key_rows::demand_of;
use net_core::{Caps, List, Network, Notes, Places, Problem, RouteColumn, WideKind};
use simplex_core::SimplexFault;
use std::alloc::Global;
use worked_networks::{CHAIN_DEMANDS, STAGES, chain_links, numbered_nodes, problem};

/// The chain, without notes of costs.
fn chain(alloc: Global) -> Option<Network> {
    let nodes = numbered_nodes(alloc, STAGES + 1)?;
    let links = chain_links(alloc)?;
    let notes = Notes {
        fixed_cost: false,
        routing_cost: false,
        setup_cost: false,
    };
    Network::check(nodes, links, notes, Places::Three).ok()
}

/// The pre-installed capacities of the links.
fn installed(alloc: Global, net: &Network) -> Option<List<u128>> {
    let mut nums = List::new(alloc);
    for l in net.links().items() {
        nums.push(l.fixed as u128).ok()?;
    }
    Some(nums)
}

/// How many places of demands have a column that isn't one of their demand. A place has only columns of its demand until the demand's key is
/// exchanged for a column in another place.
fn exchanged(basis: &[RouteColumn], links: usize) -> usize {
    basis
        .iter()
        .skip(links)
        .zip(0..6)
        .filter(|(name, demand)| demand_of(name) != Some(*demand))
        .count()
}

/// Whether the fault is a common denominator that is too wide, on a basis with five exchanged keys.
fn is_exchanged(fault: &SimplexFault<RouteColumn>, links: usize) -> bool {
    match fault {
        SimplexFault::Wide { basis, kind } => {
            matches!(kind, WideKind::Common) && exchanged(basis.items(), links) == 5
        }
        SimplexFault::NoMemory => false,
    }
}

/// Whether routing in a problem of the chain ends with that fault, if no modules are installed.
fn is_too_wide(alloc: Global, p: &Problem) -> bool {
    let Some(nums) = installed(alloc, &p.net) else {
        return false;
    };
    let caps = Caps { scale: 1, nums };
    match answer(alloc, p, 0, &caps) {
        Some(Err(fault)) => is_exchanged(&fault, p.net.links().len()),
        _ => false,
    }
}

/// The problem of the chain.
fn problem_of_chain(alloc: Global) -> Option<Problem> {
    problem(alloc, chain(alloc)?, &CHAIN_DEMANDS).ok()
}

fn is_too_wide_on_chain(alloc: Global) -> bool {
    match problem_of_chain(alloc) {
        Some(p) => is_too_wide(alloc, &p),
        None => false,
    }
}

/// Each pair of demands fills its stages of the chain, which takes many paths, so that the determinants of bases grow large.
#[test]
fn a_common_denominator_is_too_wide_after_exchanges_of_keys(rt: HostRuntime) {
    assert!(rt; is_too_wide_on_chain(rt.alloc()));
}
