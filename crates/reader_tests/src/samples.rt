use crate::network_files::is_named;
use net_core::{Demand, Demands, Link, Module, Name, Network};
use sample_net::sample;
use std::alloc::Global;

/// The ends of a link, and the costs of its two modules.
type LinkRow = (u32, u32, u64, u64);

/// The ends of a demand, and its need.
type DemandRow = (u32, u32, u64);

/// A seed and a number of nodes; how many nodes, links and demands there are; the last link; the last demand.
type Row = (u64, u32, (usize, usize, usize), LinkRow, DemandRow);

/// The fewest nodes, the most, an odd number of them, and the greatest seed, worked out by `bench/sample/sample.py`. With `n` nodes there are
/// `n` links of the ring, a chord from each second node, and `n (n - 1) / 2` demands: 8 + 4 = 12 and 8 * 7 / 2 = 28.
const ROWS: [Row; 5] = [
    (1, 4, (4, 6, 6), (2, 0, 32000, 50000), (2, 3, 6000)),
    (
        18446744073709551615,
        5,
        (5, 8, 10),
        (4, 2, 72000, 228000),
        (3, 4, 31000),
    ),
    (7, 8, (8, 12, 28), (6, 3, 60000, 195000), (6, 7, 12000)),
    (2, 12, (12, 18, 66), (10, 5, 35000, 166000), (10, 11, 28000)),
    (3, 40, (40, 60, 780), (38, 3, 60000, 63000), (38, 39, 2000)),
];

/// The sample of `n` nodes from a seed; `None` if there is none of this size.
fn sample_of(alloc: Global, seed: u64, n: u32) -> Option<(Network, Demands)> {
    if n < 4 || n > 40 {
        return None;
    }
    sample(alloc, seed, n).ok()
}

fn have_costs(modules: &[Module], first: u64, second: u64) -> bool {
    match modules {
        [small, large] => small.cost == first && large.cost == second,
        _ => false,
    }
}

fn is_link(link: &Link, row: LinkRow) -> bool {
    link.a.0 == row.0 && link.b.0 == row.1 && have_costs(link.modules.items(), row.2, row.3)
}

fn is_demand(demand: &Demand, row: DemandRow) -> bool {
    demand.from.0 == row.0 && demand.to.0 == row.1 && demand.need == row.2
}

fn ends_with(net: &Network, demands: &Demands, link: LinkRow, demand: DemandRow) -> bool {
    match (net.links().items(), demands.items()) {
        ([.., last_link], [.., last_demand]) => {
            is_link(last_link, link) && is_demand(last_demand, demand)
        }
        _ => false,
    }
}

fn has_counts(net: &Network, demands: &Demands, counts: (usize, usize, usize)) -> bool {
    net.nodes().len() == counts.0 && net.links().len() == counts.1 && demands.len() == counts.2
}

fn is_row(alloc: Global, row: &Row) -> bool {
    let (seed, n, counts, link, demand) = *row;
    match sample_of(alloc, seed, n) {
        Some((net, demands)) => {
            has_counts(&net, &demands, counts) && ends_with(&net, &demands, link, demand)
        }
        None => false,
    }
}

#[test]
fn samples_end_as_worked_out_apart(rt: HostRuntime) {
    for row in &ROWS {
        assert!(rt; is_row(rt.alloc(), row));
    }
}

/// The chords of the sample of eight nodes whose seed is 7, each with its place among the links.
const CHORDS: [(usize, LinkRow); 4] = [
    (8, (0, 5, 76000, 243000)),
    (9, (2, 5, 74000, 148000)),
    (10, (4, 1, 33000, 154000)),
    (11, (6, 3, 60000, 195000)),
];

/// The places of some demands of that sample, and their needs.
const NEEDS: [(usize, u64); 5] = [(0, 14000), (1, 33000), (6, 14000), (7, 20000), (24, 38000)];

fn has_chord(links: &[Link], place: usize, row: LinkRow) -> bool {
    match links.get(place) {
        Some(link) => is_link(link, row),
        None => false,
    }
}

fn has_need(demands: &[Demand], place: usize, need: u64) -> bool {
    match demands.get(place) {
        Some(demand) => demand.need == need,
        None => false,
    }
}

/// Whether the last node, the last link but one and the last demand are named by their places.
fn has_names(nodes: &[Name], links: &[Link], demands: &[Demand]) -> bool {
    match (nodes, links, demands) {
        ([.., node], [.., link, _], [.., demand]) => {
            is_named(node, b"n7") && is_named(&link.name, b"l10") && is_named(&demand.name, b"d27")
        }
        _ => false,
    }
}

fn has_chords(links: &[Link]) -> bool {
    for (place, row) in CHORDS {
        if !has_chord(links, place, row) {
            return false;
        }
    }
    true
}

fn has_needs(demands: &[Demand]) -> bool {
    for (place, need) in NEEDS {
        if !has_need(demands, place, need) {
            return false;
        }
    }
    true
}

/// Whether the sample of eight nodes whose seed is 7 has these chords, needs and names.
fn is_sample_of_seven(alloc: Global) -> Option<bool> {
    let (net, demands) = sample(alloc, 7, 8).ok()?;
    let (links, demands) = (net.links().items(), demands.items());
    Some(has_chords(links) && has_needs(demands) && has_names(net.nodes().items(), links, demands))
}

#[test]
fn seed_seven_gives_these_chords_and_needs(rt: HostRuntime) {
    assert!(rt; is_sample_of_seven(rt.alloc()) == Some(true));
}
