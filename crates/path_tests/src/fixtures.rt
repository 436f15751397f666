ghost use Rattle.std.specs.Prelude.{◌<◌, ◌^◌, ◌↔◌, All, IsTrue};
ghost use Rattle.plan_terms.specs.Terms.{IsModule};

use net_core::{Copied, Link, List, Module, Network, Notes, Places, Problem, States};
use std::alloc::Global;
use worked_networks::{DemandRow, LinkRow, TEN, demands, failing, network};

/// Modules of 155.00 for 100.00 and of 622.00 for 250.00.
pub(crate) const TWO_KINDS: [Module; 2] = [
    Module {
        capacity: 155000,
        cost: 100000,
    },
    Module {
        capacity: 622000,
        cost: 250000,
    },
];

/// A module of 10.00 for nothing.
pub(crate) const FREE: [Module; 1] = [Module {
    capacity: 10000,
    cost: 0,
}];

/// A triangle of the links AB, BC and AC, with modules of 10.00 for 5.00.
pub(crate) const TRIANGLE: [LinkRow; 3] = [(0, 1, 0, &TEN), (1, 2, 0, &TEN), (0, 2, 0, &TEN)];

/// The links of a network, the first ones with these setup costs; the others keep theirs.
fn with_setups(net: &Network, setups: &[u64]) -> Option<List<Link>> {
    let mut links = net.links().copy().ok()?;
    let items = links.items_mut();
    for e in 0..items.len() {
        if let Some(setup) = setups.get(e) {
            items[e].setup = *setup;
        }
    }
    Some(links)
}

/// A network of this many nodes and these links, with setup costs that are charged.
pub(crate) fn charged(
    alloc: Global,
    nodes: usize,
    rows: &[LinkRow],
    setups: &[u64],
) -> Option<Network> {
    let plain = network(alloc, nodes, rows).ok()?;
    let links = with_setups(&plain, setups)?;
    let notes = Notes {
        fixed_cost: false,
        routing_cost: false,
        setup_cost: false,
    };
    Network::check(plain.nodes().copy().ok()?, links, notes, Places::Three).ok()
}

/// The problem of a network with these states and demands.
fn with_demands(
    alloc: Global,
    net: Network,
    states: States,
    rows: &[DemandRow],
) -> Option<Problem> {
    let demands = demands(alloc, net.nodes().len(), rows).ok()?;
    Some(Problem {
        net,
        states,
        demands,
    })
}

/// The problem with this many nodes, these links, a state for each list of failed links, and these demands.
pub(crate) fn make_problem(
    alloc: Global,
    nodes: usize,
    links: &[LinkRow],
    failed: &[&[u32]],
    rows: &[DemandRow],
) -> Option<Problem> {
    let net = network(alloc, nodes, links).ok()?;
    let states = failing(alloc, &net, failed).ok()?;
    with_demands(alloc, net, states, rows)
}

/// Whether a link may have these modules.
pub(crate) fn are_modules(modules: &[Module]) -> bool
    ensures { IsTrue result ↔ All IsModule modules.now }
{
    modules.iter().all(|m| m.capacity > 0 && m.capacity < 1 << 40 && m.cost < 1 << 40)
}
