use crate::fixtures::{FREE, TWO_KINDS, are_modules};
use module_prices::{bound_of, cost_divisor, price_lengths, unit_pair};
use net_core::{Link, List, Module, Name, Network, NodeId};
use std::alloc::Global;
use worked_networks::{LinkRow, ONE, TEN, network};

/// Modules of 1.00 for 1.00 and of 10.00 for 5.00.
const ONE_AND_TEN: [Module; 2] = [
    Module {
        capacity: 1000,
        cost: 1000,
    },
    Module {
        capacity: 10000,
        cost: 5000,
    },
];

/// Modules, and the capacity and cost of their unit pair.
type PairRow = (&'static [Module], Option<(u64, u64)>);

/// The pair is that of the module which is cheapest for its capacity, in lowest terms: 622 for 250 is 311 for 125, and 10 for 5 is 2 for 1.
const PAIRS: [PairRow; 4] = [
    (&TWO_KINDS, Some((311, 125))),
    (&ONE_AND_TEN, Some((2, 1))),
    (&FREE, Some((1, 0))),
    (&[], None),
];

fn is_pair(row: &PairRow) -> bool {
    let (modules, want) = row;
    if !are_modules(modules) {
        return false;
    }
    match (unit_pair(modules), want) {
        (Some(pair), Some((capacity, cost))) => pair.capacity == *capacity && pair.cost == *cost,
        (None, None) => true,
        _ => false,
    }
}

#[test]
fn unit_pairs(rt: HostRuntime) {
    for i in 0..PAIRS.len() {
        assert!(rt; is_pair(&PAIRS[i]), "row {i}");
    }
}

/// Three parallel links, and their price lengths.
type LengthRow = ([LinkRow<'static>; 3], [u32; 3]);

/// Prices of capacity in sixteenths of the greatest one, rounded down. Beside 5 / 10 a price of 250 / 622 gives 12.86 sixteenths, and beside 1
/// it gives 6.43.
const LENGTHS: [LengthRow; 3] = [
    (
        [(0, 1, 0, &TEN), (0, 1, 0, &TWO_KINDS), (0, 1, 0, &[])],
        [16, 12, 0],
    ),
    (
        [(0, 1, 0, &TWO_KINDS), (0, 1, 0, &ONE), (0, 1, 0, &FREE)],
        [6, 16, 0],
    ),
    (
        [(0, 1, 0, &FREE), (0, 1, 0, &FREE), (0, 1, 0, &[])],
        [0, 0, 0],
    ),
];

fn have_lengths(alloc: Global, net: &Network, want: &[u32; 3]) -> bool {
    match price_lengths(alloc, net) {
        Ok(lengths) => lengths.items() == want.as_slice(),
        Err(_) => false,
    }
}

fn are_lengths(alloc: Global, row: &LengthRow) -> bool {
    let (links, want) = row;
    match network(alloc, 2, links) {
        Ok(net) => have_lengths(alloc, &net, want),
        Err(_) => false,
    }
}

#[test]
fn sixteenths_of_the_dearest_link(rt: HostRuntime) {
    for i in 0..LENGTHS.len() {
        assert!(rt; are_lengths(rt.alloc(), &LENGTHS[i]), "row {i}");
    }
}

/// The modules of a link, a raw value as a numerator and a denominator, and its bound.
type BoundRow = (&'static [Module], (u128, u128), u128);

/// The costs of two kinds, 100.000 and 250.000, have the greatest common divisor 50.000, so that the bound is the raw value rounded up to a
/// multiple of it. With free modules the bound is 0.
const BOUNDS: [BoundRow; 8] = [
    (&TWO_KINDS, (0, 1), 0),
    (&TWO_KINDS, (1, 7), 50000),
    (&TWO_KINDS, (600000, 2), 300000),
    (&TWO_KINDS, (600001, 2), 350000),
    (&FREE, (0, 1), 0),
    (&FREE, (1, 7), 0),
    (&FREE, (600000, 2), 0),
    (&FREE, (600001, 2), 0),
];

fn has_bound(net: &Network, raw: u128, den: u128, want: u128) -> bool {
    raw < 1 << 126 && den > 0 && bound_of(net.links().items(), raw, den) == want
}

fn is_bound(alloc: Global, row: &BoundRow) -> bool {
    let (modules, (raw, den), want) = row;
    match network(alloc, 2, &[(0, 1, 0, modules)]) {
        Ok(net) => has_bound(&net, *raw, *den, *want),
        Err(_) => false,
    }
}

#[test]
fn bounds_are_multiples(rt: HostRuntime) {
    for i in 0..BOUNDS.len() {
        assert!(rt; is_bound(rt.alloc(), &BOUNDS[i]), "row {i}");
    }
}

/// The setup costs and modules of links, the greatest common divisor of all these costs, and the bound that a raw value of 600001 / 2 has,
/// which is 300000.5 rounded up to a multiple of it.
type SetupRow = (&'static [(u64, &'static [Module])], u64, u128);

/// Different setup costs, one of 0 beside others, links without modules, whose setup cost doesn't count, and free modules.
const SETUPS: [SetupRow; 8] = [
    (&[(30000, &TWO_KINDS), (20000, &TWO_KINDS)], 10000, 310000),
    (&[(30000, &TEN), (7000, &TEN)], 1000, 301000),
    (&[(0, &TWO_KINDS), (30000, &TWO_KINDS)], 10000, 310000),
    (&[(0, &TWO_KINDS), (0, &FREE)], 50000, 350000),
    (&[(30000, &TWO_KINDS), (7, &[])], 10000, 310000),
    (&[(300, &FREE), (450, &FREE)], 150, 300150),
    (&[(0, &FREE), (7, &[])], 0, 0),
    (&[], 0, 0),
];

/// A link between two nodes.
fn link(alloc: Global, setup: u64, modules: &[Module]) -> Option<Link> {
    Some(Link {
        name: Name::new(alloc, b"AB").ok()?,
        a: NodeId(0),
        b: NodeId(1),
        fixed: 0,
        setup,
        modules: List::from_slice(alloc, modules).ok()?,
    })
}

/// The links with these setup costs and modules.
fn links_of(alloc: Global, rows: &[(u64, &'static [Module])]) -> Option<List<Link>> {
    let mut links = List::new(alloc);
    for (setup, modules) in rows {
        links.push(link(alloc, *setup, modules)?).ok()?;
    }
    Some(links)
}

fn has_divisor(alloc: Global, row: &SetupRow) -> bool {
    let (rows, divisor, bound) = row;
    match links_of(alloc, rows) {
        Some(links) => {
            cost_divisor(links.items()) == *divisor && bound_of(links.items(), 600001, 2) == *bound
        }
        None => false,
    }
}

#[test]
fn setups_are_charged(rt: HostRuntime) {
    for i in 0..SETUPS.len() {
        assert!(rt; has_divisor(rt.alloc(), &SETUPS[i]), "row {i}");
    }
}
