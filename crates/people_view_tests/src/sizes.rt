use net_core::{Bytes, List, Problem};
use people_views::{picture_form, view_report};
use sndlib_reader::read_network;
use std::alloc::Global;
use text_kit::write::put_decimal;
use worked_networks::problem;

/// The most nodes and links that a network may have.
const NODES: u32 = 128;

const LINKS: u32 = 256;

/// A limit for the number of bytes of a picture, where names have at most 20 bytes.
const MOST: usize = 100_000;

/// The names of the state without failures, and of that in which the first link fails.
const STATES: [&str; 2] = ["none", "link_of_the_ring_100"];

/// Appends the name of a node, of 20 bytes; they are called from 100 on.
fn put_node(text: &mut Bytes, n: u32) -> Option<()> {
    text.append(b" node_of_the_ring_").ok()?;
    put_decimal(text, 100 + u128::from(n)).ok()
}

/// Appends the name of a link, of 20 bytes; they are called from 100 on.
fn put_link(text: &mut Bytes, e: u32) -> Option<()> {
    text.append(b" link_of_the_ring_").ok()?;
    put_decimal(text, 100 + u128::from(e)).ok()
}

/// Appends all nodes of the network.
fn put_nodes(text: &mut Bytes) -> Option<()> {
    for n in 0..NODES {
        put_node(text, n)?;
    }
    Some(())
}

/// Appends a link of the network, with its ends and its modules: each is between a node and the next one of the ring.
fn put_link_line(text: &mut Bytes, e: u32) -> Option<()> {
    put_link(text, e)?;
    text.append(b" (").ok()?;
    put_node(text, e % NODES)?;
    put_node(text, (e % NODES + 1) % NODES)?;
    text.append(b" ) 0 0 0 0 ( 155 12345 622 45678 )").ok()
}

/// Appends all links of the network.
fn put_link_lines(text: &mut Bytes) -> Option<()> {
    for e in 0..LINKS {
        put_link_line(text, e)?;
    }
    Some(())
}

/// Appends a network of a ring of nodes, of which each two neighbours have two links between them.
fn put_network(text: &mut Bytes) -> Option<()> {
    text.append(b"?SNDlib native format; type: network; version: 1.0\nNODES (")
        .ok()?;
    put_nodes(text)?;
    text.append(b" ) LINKS (").ok()?;
    put_link_lines(text)?;
    text.append(b" ) DEMANDS ( )\n").ok()
}

/// A network of a ring of nodes, of which each two neighbours have two links between them.
fn network_text(alloc: Global) -> Option<Bytes> {
    let mut text = List::new(alloc);
    put_network(&mut text)?;
    Some(text)
}

/// Appends 22 modules of each link.
fn put_modules(text: &mut Bytes) -> Option<()> {
    for e in 0..LINKS {
        put_link(text, e)?;
        text.append(b" ( 12 10 )").ok()?;
    }
    Some(())
}

/// Appends a flow of 1000.00 that goes round the ring, from the first node backwards to the second, along links from this one on.
fn put_way_round(text: &mut Bytes, first: u32) -> Option<()> {
    text.append(b" A 1000000 (").ok()?;
    for back in 1..NODES {
        put_link(text, first.saturating_add(NODES - back))?;
    }
    text.append(b" )").ok()
}

/// Appends the routing of the state in which the first link fails: along the link beside it, and along both ways round.
fn put_other_paths(text: &mut Bytes) -> Option<()> {
    text.append(b" state 1 link_of_the_ring_100 1 ( A 1000000 ( link_of_the_ring_228 )")
        .ok()?;
    put_way_round(text, 0)?;
    put_way_round(text, NODES)?;
    text.append(b" )").ok()
}

/// Appends the routing of a state in which another link fails.
fn put_same_path(text: &mut Bytes, e: u32) -> Option<()> {
    text.append(b" state ").ok()?;
    put_decimal(text, 1 + u128::from(e)).ok()?;
    put_link(text, e)?;
    text.append(b" 1 ( A 3000000 ( link_of_the_ring_100 ) )")
        .ok()
}

/// Appends the routings of all states.
fn put_routings(text: &mut Bytes) -> Option<()> {
    text.append(b" state 0 none 1 ( A 3000000 ( link_of_the_ring_100 ) )")
        .ok()?;
    put_other_paths(text)?;
    for e in 1..LINKS {
        put_same_path(text, e)?;
    }
    Some(())
}

/// Appends a report of a plan for 3000.00 from the first node to the second, with as many words on each link as there may be.
fn put_report(text: &mut Bytes) -> Option<()> {
    text.append(
        b"?planner report; version: 1\nNOTES ( ) JOURNAL ( ) POOL ( ) OUTCOMES ( PLAN ( caller 1 plan 1 version 0 position 0
DEMANDS ( A ( node_of_the_ring_100 node_of_the_ring_101 ) 3000.000 ) cost 154859520.000 bound 0.000 raw 0 1 MODULES (",
    )
    .ok()?;
    put_modules(text)?;
    text.append(b" ) CERTIFICATE ( 1 ) ROUTES (").ok()?;
    put_routings(text)?;
    text.append(b" ) loose cuts ) )\n").ok()
}

/// A report of a plan for 3000.00 from the first node to the second, with as many words on each link as there may be.
fn report_text(alloc: Global) -> Option<Bytes> {
    let mut text = List::new(alloc);
    put_report(&mut text)?;
    Some(text)
}

/// The network, with the failure of each link alone and the demand.
fn ring(alloc: Global) -> Option<Problem> {
    let text = network_text(alloc)?;
    let (net, _none) = read_network(alloc, text.items()).ok()?;
    problem(alloc, net, &[(0, 1, 3_000_000)]).ok()
}

/// How often a text has a part.
fn count_of(text: &[u8], part: &[u8]) -> usize {
    let mut count = 0usize;
    for at in 0..text.len() {
        if text[at..].starts_with(part) {
            count = count.saturating_add(1);
        }
    }
    count
}

/// The picture in a state; `None` if there is none.
fn picture_of(alloc: Global, p: &Problem, report: &[u8], state: &str) -> Option<Bytes> {
    let form = picture_form(alloc, p, state, &[]).ok()?;
    view_report(alloc, "ring.txt", "report", p, report, form).ok()
}

/// Whether the picture in a state has each link and each node, and is small.
fn fits(alloc: Global, p: &Problem, report: &[u8], state: &str) -> Option<bool> {
    let picture = picture_of(alloc, p, report, state)?;
    let text = picture.items();
    let titles = count_of(text, b"<title>");
    let dots = count_of(text, b"<circle ");
    Some(titles == LINKS as usize && dots == NODES as usize && text.len() < MOST)
}

/// The first state whose picture doesn't fit.
fn first_too_large(alloc: Global) -> Option<usize> {
    let p = ring(alloc)?;
    let report = report_text(alloc)?;
    for i in 0..STATES.len() {
        if fits(alloc, &p, report.items(), STATES[i]) != Some(true) {
            return Some(i);
        }
    }
    Some(STATES.len())
}

#[test]
fn pictures_of_the_largest_networks_are_small(rt: HostRuntime) {
    assert!(rt; first_too_large(rt.alloc()) == Some(2));
}
