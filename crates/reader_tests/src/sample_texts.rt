ghost use Rattle.std.specs.Prelude.{◌≡◌, length};
ghost use Rattle.net_core.specs.Terms.{AreDemands};

use net_core::{Demands, Network, Places};
use sample_net::{has_writable_notes, network_text, sample};
use sndlib_reader::read_network;
use std::alloc::Global;
use worked_networks::{DemandRow, demands, triangle};

/// The triangle with modules of 10.00 for 5.00 and a demand of 12.00.
const TRIANGLE: &[u8] =
    b"?SNDlib native format; type: network; version: 1.0\nNODES ( A B C )\nLINKS ( AB ( A B )\n0.000 0.000 0.000 0.000 ( 10.000 5.000 )\nBC ( B C )\n0.000 0.000 0.000 0.000 ( 10.000 5.000 )\nAC ( A C )\n0.000 0.000 0.000 0.000 ( 10.000 5.000 )\n)\nDEMANDS ( A ( A C )\n1 12.000 UNLIMITED )\n";

/// A file with a link without modules, one with pre-installed capacity, setup costs, and numbers at their limits.
const LIMITS: &[u8] =
    b"?SNDlib native format; type: network; version: 1.0\nNODES(X Y Z)LINKS(p(X Y)0 0 0 0()q(Z Y)20 0 0 0.5(155 20 622.25 0)r(X Z)0 0 0 1099511627.775(0.001 1))DEMANDS()";

/// The text that should be written for the network of `LIMITS`, with a demand of 0 and one of the greatest need.
const WRITTEN: &[u8] =
    b"?SNDlib native format; type: network; version: 1.0\nNODES ( X Y Z )\nLINKS ( p ( X Y )\n0.000 0.000 0.000 0.000 ( )\nq ( Z Y )\n20.000 0.000 0.000 0.500 ( 155.000 20.000 622.250 0.000 )\nr ( X Z )\n0.000 0.000 0.000 1099511627.775 ( 0.001 1.000 )\n)\nDEMANDS ( A ( X Y )\n1 0.000 UNLIMITED B ( Z X )\n1 1099511627.775 UNLIMITED )\n";

/// The sample of four nodes whose seed is 1, as `bench/sample/sample.py 1 4 file` prints it.
const SAMPLE: &[u8] =
    b"?SNDlib native format; type: network; version: 1.0\nNODES ( n0 n1 n2 n3 )\nLINKS ( l0 ( n0 n1 )\n0.000 0.000 0.000 0.000 ( 155.000 96.000 622.000 120.000 )\nl1 ( n1 n2 )\n0.000 0.000 0.000 0.000 ( 155.000 94.000 622.000 245.000 )\nl2 ( n2 n3 )\n0.000 0.000 0.000 0.000 ( 155.000 30.000 622.000 152.000 )\nl3 ( n3 n0 )\n0.000 0.000 0.000 0.000 ( 155.000 29.000 622.000 196.000 )\nl4 ( n0 n2 )\n0.000 0.000 0.000 0.000 ( 155.000 63.000 622.000 52.000 )\nl5 ( n2 n0 )\n0.000 0.000 0.000 0.000 ( 155.000 32.000 622.000 50.000 )\n)\nDEMANDS ( d0 ( n0 n1 )\n1 35.000 UNLIMITED d1 ( n0 n2 )\n1 13.000 UNLIMITED d2 ( n0 n3 )\n1 11.000 UNLIMITED d3 ( n1 n2 )\n1 16.000 UNLIMITED d4 ( n1 n3 )\n1 13.000 UNLIMITED d5 ( n2 n3 )\n1 6.000 UNLIMITED )\n";

/// Whether the network has three places and writable notes, and is written as this text with its demands.
fn is_text(alloc: Global, net: &Network, demands: &Demands, expected: &[u8]) -> bool
    requires { AreDemands (length net.now.nodes) demands.now }
{
    if net.places() != Places::Three || !has_writable_notes(net) {
        return false;
    }
    match network_text(alloc, net, demands) {
        Ok(text) => text.items() == expected,
        Err(_) => false,
    }
}

/// Whether a network with these demands is written as this text.
fn is_text_with(alloc: Global, net: &Network, rows: &[DemandRow], expected: &[u8]) -> bool {
    match demands(alloc, net.nodes().len(), rows) {
        Ok(asked) => is_text(alloc, net, &asked, expected),
        Err(_) => false,
    }
}

/// Whether the triangle with these demands is written as this text.
fn is_triangle_written(alloc: Global, rows: &[DemandRow], expected: &[u8]) -> bool {
    match triangle(alloc, 0) {
        Ok(net) => is_text_with(alloc, &net, rows, expected),
        Err(_) => false,
    }
}

/// Whether the network of a file, with these demands in place of its own, is written as this text.
fn is_written_with(alloc: Global, file: &[u8], rows: &[DemandRow], expected: &[u8]) -> bool {
    match read_network(alloc, file) {
        Ok((net, _)) => is_text_with(alloc, &net, rows, expected),
        Err(_) => false,
    }
}

/// Whether a file, once it is read, is written as it was.
fn is_written_again(alloc: Global, file: &[u8]) -> bool {
    match read_network(alloc, file) {
        Ok((net, asked)) => is_text(alloc, &net, &asked, file),
        Err(_) => false,
    }
}

/// Whether the sample of `n` nodes from a seed is written as this text.
fn is_sample_written(alloc: Global, seed: u64, n: u32, expected: &[u8]) -> bool {
    if n < 4 || n > 40 {
        return false;
    }
    match sample(alloc, seed, n) {
        Ok((net, asked)) => is_text(alloc, &net, &asked, expected),
        Err(_) => false,
    }
}

#[test]
fn texts_are_as_written_by_hand(rt: HostRuntime) {
    assert!(rt; is_triangle_written(rt.alloc(), &[(0, 2, 12000)], TRIANGLE));
    let rows = [(0, 1, 0), (2, 0, 1099511627775)];
    assert!(rt; is_written_with(rt.alloc(), LIMITS, &rows, WRITTEN));
    assert!(rt; is_written_again(rt.alloc(), WRITTEN));
}

#[test]
fn a_sample_is_written_as_worked_out_apart(rt: HostRuntime) {
    assert!(rt; is_sample_written(rt.alloc(), 1, 4, SAMPLE));
}

/// A file with a cost of pre-installed capacity, which a network doesn't keep.
const FIXED_COST: &[u8] =
    b"?SNDlib native format; type: network; version: 1.0\nNODES(A B)LINKS(L(A B)1 1 0 0(1 1))DEMANDS()";

/// A file with a cost of routing, which a network doesn't keep.
const ROUTING_COST: &[u8] =
    b"?SNDlib native format; type: network; version: 1.0\nNODES(A B)LINKS(L(A B)0 0 1 0(1 1))DEMANDS()";

/// Whether a text can give the notes of a file's network.
fn is_writable(alloc: Global, text: &[u8]) -> Option<bool> {
    let (net, _) = read_network(alloc, text).ok()?;
    Some(has_writable_notes(&net))
}

#[test]
fn costs_that_a_network_does_not_keep_are_not_writable(rt: HostRuntime) {
    assert!(rt; is_writable(rt.alloc(), FIXED_COST) == Some(false));
    assert!(rt; is_writable(rt.alloc(), ROUTING_COST) == Some(false));
}
