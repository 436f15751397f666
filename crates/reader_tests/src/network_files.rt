use crate::files::{Format, first_difference};
use net_core::{Demand, Link, Module, Name, Network, NodeId, Places};
use snd_tokens::NumberFault;
use sndlib_reader::{Limited, ReadKind, read_network};
use std::alloc::Global;

const HEADER: &[u8] = b"?SNDlib native format; type: network; version: 1.0\n";

const SMALL: &[u8] =
    b"?SNDlib native format; type: network; version: 1.0\n# network small4\n\nMETA (\n  granularity = instance\n)\n\n# NODE SECTION\n# <node_id> [(<longitude>, <latitude>)]\nNODES (\n  Bonn ( 7.10 50.73 )\n  Kiel ( 10.13 54.32 )\n  Ulm ( 9.99, 48.40 )\n  Jena\n)\n\n# LINK SECTION\nLINKS (\n  L1 ( Bonn Kiel ) 0.00 0.00 0.00 0.00 ( 155.00 100.00 622.00 250.00 )\n  L2 ( Kiel Jena ) 0.00 0.00 0.00 0.00 ( 155.00 100.00 622.00 250.00 )\n  L3 ( Jena Ulm ) 0.00 0.00 0.00 0.00 ( 155.00 100.00 622.00 250.00 )\n  L4 ( Ulm Bonn ) 0.00 0.00 0.00 0.00 ( 155.00 100.00 622.00 250.00 )\n  L5 ( Bonn Jena ) 0.00 0.00 0.00 0.00 ( 155.00 100.00 622.00 250.00 )\n)\n\n# DEMAND SECTION\nDEMANDS (\n  D1 ( Bonn Kiel ) 1 60.00 UNLIMITED\n  D2 ( Bonn Jena ) 1 80.00 UNLIMITED\n  D3 ( Kiel Ulm ) 1 40.00 UNLIMITED\n)\n\nADMISSIBLE_PATHS (\n  D1 ( P1 ( L1 ) P2 ( L5 L2 ) )\n)\n";

/// Whole files, whose first lines are in the table.
const FIRST_LINES: &[u8] =
    b"93 fixed-link|?SNDlib native format; type: network; version: 1.0~NODES ( A B )~LINKS ( L ( A B ) 5 0 0 0 ( ) )~DEMANDS ( )~
78 ended|?SNDlib native format; type: network; version: 1.0~NODES ( A B )~LINKS ( L ( A
0 header|?SNDlib native format; type: model; version: 1.0~
0 header|
";

/// Faults in the words of sections, in the parentheses after them and at the end.
const FAULTS_OF_SECTIONS: &[u8] = b"51 section|NODE()
51 section|()
56 ended|NODES
56 section|META NODES
58 section|META() META()
58 section|META(a))
61 ended|META((a) b
58 section|NODES()DEMANDS()
77 section|NODES() LINKS() DEMANDS() )
77 section|NODES() LINKS() DEMANDS() PATHS()
96 section|NODES() LINKS() DEMANDS() ADMISSIBLE_PATHS() x
75 ended|NODES() LINKS() DEMANDS(
55 ended|META
119 ended|NODES(A B)LINKS(L(A B)0 0 0 0())DEMANDS(D(A B)1 1 9)ADMISSIBLE_PATHS
120 section|NODES(A B)LINKS(L(A B)0 0 0 0())DEMANDS(D(A B)1 1 9)ADMISSIBLE_PATHS x
119 section|NODES(A B)LINKS(L(A B)0 0 0 0())DEMANDS(D(A B)1 1 9)ADMISSIBLE_PATHS)
";

/// Words and parentheses where a token of another sort is expected, and files that end there.
const FAULTS_OF_TOKENS: &[u8] = b"57 token|NODES((1))
123 token|NODES(A B)LINKS(L(A B)0 0 0 0())DEMANDS(D(A B)1 1 9)ADMISSIBLE_PATHS(D(P)
122 token|NODES(A B)LINKS(L(A B)0 0 0 0())DEMANDS(D(A B)1 1 9)ADMISSIBLE_PATHS(D((
120 token|NODES(A B)LINKS(L(A B)0 0 0 0())DEMANDS(D(A B)1 1 9)ADMISSIBLE_PATHS((
86 token|NODES(A B)LINKS()DEMANDS(D(A B)1 1 )
61 token|NODES(A(1)(2))
63 ended|NODES(A #B)~
69 token|NODES(A B)LINKS(L A
73 token|NODES(A B)LINKS(L(A B A)
78 token|NODES(A B)LINKS(L(A B)0 0 0()
82 token|NODES(A B)LINKS(L(A B)0 0 0 0(1)
100 token|NODES(A B)LINKS(L(A B)0 0 0 0())DEMANDS(D(A B)1 1)
124 token|NODES(A B)LINKS(L(A B)0 0 0 0())DEMANDS(D(A B)1 1 9)ADMISSIBLE_PATHS(D(P()
122 token|NODES(A B)LINKS(L(A B)0 0 0 0())DEMANDS(D(A B)1 1 9)ADMISSIBLE_PATHS(D()
124 token|NODES(A B)LINKS(L(A B)0 0 0 0())DEMANDS(D(A B)1 1 9)ADMISSIBLE_PATHS(D(P L
120 ended|NODES(A B)LINKS(L(A B)0 0 0 0())DEMANDS(D(A B)1 1 9)ADMISSIBLE_PATHS(
";

const FAULTS_OF_NAMES: &[u8] = b"61 double-name|NODES(A B A)
83 double-name|NODES(A B)LINKS(L(A B)0 0 0 0() L
103 double-name|NODES(A B)LINKS(L(A B)0 0 0 0())DEMANDS(D(A B)1 1 9 D
71 unknown-name|NODES(A B)LINKS(L(A X)
93 unknown-name|NODES(A B)LINKS(L(A B)0 0 0 0())DEMANDS(D(X A)
120 unknown-name|NODES(A B)LINKS(L(A B)0 0 0 0())DEMANDS(D(A B)1 1 9)ADMISSIBLE_PATHS(E
124 unknown-name|NODES(A B)LINKS(L(A B)0 0 0 0())DEMANDS(D(A B)1 1 9)ADMISSIBLE_PATHS(D(P(M
71 self-link|NODES(A B)LINKS(L(A A)
95 self-demand|NODES(A B)LINKS(L(A B)0 0 0 0())DEMANDS(D(B B)
";

const FAULTS_OF_NUMBERS: &[u8] = b"73 number-not|NODES(A B)LINKS(L(A B)+5
73 number-large|NODES(A B)LINKS(L(A B)1099511627.776
75 number-large|NODES(A B)LINKS(L(A B)0 1099511627.776
77 number-large|NODES(A B)LINKS(L(A B)0 0 1099511627.776
79 number-large|NODES(A B)LINKS(L(A B)0 0 0 1099511627.776
81 number-large|NODES(A B)LINKS(L(A B)0 0 0 0(1099511627.776
83 number-large|NODES(A B)LINKS(L(A B)0 0 0 0(1 1099511627.776
81 zero-module|NODES(A B)LINKS(L(A B)0 0 0 0(0.0 1)
85 fixed-link|NODES(A B)LINKS(L(A B)0.001 0 0 0()
145 limit-modules|NODES(A B)LINKS(L(A B)0 0 0 0(1 1 1 1 1 1 1 1 1 1 1 1 1 1 1 1 1 1 1 1 1 1 1 1 1 1 1 1 1 1 1 1 1 1)
145 zero-module|NODES(A B)LINKS(L(A B)0 0 0 0(1 1 1 1 1 1 1 1 1 1 1 1 1 1 1 1 1 1 1 1 1 1 1 1 1 1 1 1 1 1 1 1 0 1)
145 number-not|NODES(A B)LINKS(L(A B)0 0 0 0(1 1 1 1 1 1 1 1 1 1 1 1 1 1 1 1 1 1 1 1 1 1 1 1 1 1 1 1 1 1 1 1 x 1)
82 number-fine|NODES(A B)LINKS()DEMANDS(D(A B)1.5 1 9)
82 number-fine|NODES(A B)LINKS()DEMANDS(D(A B)1099511627776.5 1 9)
82 number-large|NODES(A B)LINKS()DEMANDS(D(A B)1099511628 0 9)
84 number-fine|NODES(A B)LINKS()DEMANDS(D(A B)1 0.0000001 9)
84 number-large|NODES(A B)LINKS()DEMANDS(D(A B)2 549755813.888 9)
86 number-not|NODES(A B)LINKS()DEMANDS(D(A B)1 1 some)
";

const COUNTS: &[u8] = b"read 0|NODES([128  %])LINKS()DEMANDS()
570 ended|NODES([128  %])
570 limit-nodes|NODES([129  %])
570 double-name|NODES([128  %] aaa)
read 0|NODES(A B)LINKS([256  %(A B)0 0 0 0()])DEMANDS()
4676 ended|NODES(A B)LINKS([256  %(A B)0 0 0 0()])
4676 limit-links|NODES(A B)LINKS([257  %(A B)0 0 0 0()])
4676 double-name|NODES(A B)LINKS([256  %(A B)0 0 0 0()] aaa(
read 2048|NODES(A B)LINKS()DEMANDS([2048  %(A B)1 0 9])
28749 section|NODES(A B)LINKS()DEMANDS([2048  %(A B)1 0 9])x
28749 limit-demands|NODES(A B)LINKS()DEMANDS([2049  %(A B)1 0 9])
28749 double-name|NODES(A B)LINKS()DEMANDS([2048  %(A B)1 0 9] aaa(
";

/// Files have three places, and six if a number has more than three. If another fault comes before such a number, the file is read with three
/// places only.
const PLACES: &[u8] = b"read 3|NODES(A B)LINKS()DEMANDS(D(A B)1 2.5 9)
read 3|NODES(A B)LINKS()DEMANDS(D(A B)1 2.500000 9)
read 6|NODES(A B)LINKS()DEMANDS(D(A B)1 2.5001 9)
read 6|NODES(A B)LINKS()DEMANDS(D(A B)1 0.000001 9)
read 6|NODES(A B)LINKS(L(A B)0 0 0 0.0001(1 1))DEMANDS()
read 6|NODES(A B)LINKS(L(A B)0 0 0 0(0.0001 1))DEMANDS()
82 number-fine|NODES(A B)LINKS()DEMANDS(D(A B)1.5 1 9)
84 number-fine|NODES(A B)LINKS()DEMANDS(D(A B)1 0.0000001 9)
101 number-fine|NODES(A B)LINKS()DEMANDS(D(A B)1 1.0001 9 E(A B)1 0.0000001 9)
61 double-name|NODES(A B A)LINKS(L(A B)0.0001
84 number-not|NODES(A B)LINKS()DEMANDS(D(A B)1 x 9 E(A B)1 0.0001 9)
84 number-large|NODES(A B)LINKS()DEMANDS(D(A B)1 1099511627.776 9 E(A B)1 0.0001 9)
84 number-large|NODES(A B)LINKS()DEMANDS(D(A B)1 2000000 9 E(A B)1 0.0001 9)
97 unknown-name|NODES(A B)LINKS()DEMANDS(D(A B)1 0.0001 9 E(A C)1 1 9)
";

/// With six places an amount, a cost and a need are below 2^40 millionths, and all needs together below 2^44: 16 needs of 2^40 - 1 leave room for
/// 15 millionths.
const FINE_LIMITS: &[u8] =
    b"read 6|NODES(A B)LINKS()DEMANDS(D(A B)1.000 1099511.627775 9 E(A B)1099511 0.000001 9)
read 6|NODES(A B)LINKS(L(A B)1099511.627775 1099511.627775 1099511.627775 1099511.627775(1099511.627775 1099511.627775))DEMANDS()
73 number-large|NODES(A B)LINKS(L(A B)1099511.627776
75 number-large|NODES(A B)LINKS(L(A B)0 1099511.627776
77 number-large|NODES(A B)LINKS(L(A B)0 0 1099511.627776
79 number-large|NODES(A B)LINKS(L(A B)0 0 0 1099511.627776
81 number-large|NODES(A B)LINKS(L(A B)0 0 0 0(1099511.627776
83 number-large|NODES(A B)LINKS(L(A B)0 0 0 0(1 1099511.627776
82 number-large|NODES(A B)LINKS()DEMANDS(D(A B)1099512 0.0001 9)
84 number-large|NODES(A B)LINKS()DEMANDS(D(A B)2 549755.813888 9)
528 section|NODES(A B)LINKS()DEMANDS([16  %(A B)1 1099511.627775 9] x(A B)1 0.000015 9)x
517 limit-total|NODES(A B)LINKS()DEMANDS([16  %(A B)1 1099511.627775 9] x(A B)1 0.000016 9)
520 number-large|NODES(A B)LINKS()DEMANDS([16  %(A B)1 1099511.627775 9] x(A B)1000 1099511.627775 9)
";

/// All needs together are below 2^44 thousandths, and each need and its factors below 2^40: 16 needs of 2^40 - 1 leave room for 15 thousandths.
const TOTALS: &[u8] =
    b"525 section|NODES(A B)LINKS()DEMANDS([16  %(A B)1 1099511627.775 9] x(A B)1 0.015 9)x
517 limit-total|NODES(A B)LINKS()DEMANDS([16  %(A B)1 1099511627.775 9] x(A B)1 0.016 9)
520 number-large|NODES(A B)LINKS()DEMANDS([16  %(A B)1 1099511627.775 9] x(A B)1000 1099511627.775 9)
517 number-large|NODES(A B)LINKS()DEMANDS([16  %(A B)1 1099511627.775 9] x(A B)0 1099511627.776 9)
";

const LONG_NAMES: &[u8] = b"57 limit-name|NODES([256 n])
64 limit-name|NODES()LINKS([256 n])
67 limit-name|NODES(A)LINKS(L([256 n])
69 limit-name|NODES(A)LINKS(L(A [256 n])
73 limit-name|NODES()LINKS()DEMANDS([256 n])
91 limit-name|NODES()LINKS()DEMANDS()ADMISSIBLE_PATHS([256 n])
122 limit-name|NODES(A B)LINKS(L(A B)0 0 0 0())DEMANDS(D(A B)1 1 9)ADMISSIBLE_PATHS(D([256 n])
124 limit-name|NODES(A B)LINKS(L(A B)0 0 0 0())DEMANDS(D(A B)1 1 9)ADMISSIBLE_PATHS(D(P([256 n])
313 ended|NODES([255 n])
read 0|NODES([255 n])LINKS()DEMANDS()
read 0|NODES(A B)LINKS([255 n](A B)0 0 0 0())DEMANDS()
read 1|NODES(A B)LINKS()DEMANDS([255 n](A B)1 1 9)
read 1|NODES(A B)LINKS(L(A B)0 0 0 0())DEMANDS(D(A B)1 1 9)ADMISSIBLE_PATHS(D([255 n](L)))
";

/// A section of a million parentheses that are never closed. The file ends after 51 + 4 + 1,000,000 bytes.
const NEVER_CLOSED: &[u8] = b"1000055 ended|META[1000000 (]
";

const ALLOWED: &[u8] = b"read 0|NODES()LINKS()DEMANDS()
read 0|META()NODES()LINKS()DEMANDS()ADMISSIBLE_PATHS()
read 0|# ( ( (~META((a)(b # )~))NODES(A# B C)LINKS()DEMANDS()#
read 1|NODES(A# B(()META(NODES)))LINKS(B(A# B)0 0 0 0())DEMANDS(B(B A#)0 0 007)
read 1|NODES(A B)LINKS(L(A B)5 0 0 0(0.001 0))DEMANDS(D(A B)1 1 UNLIMITED)ADMISSIBLE_PATHS(D(P(L L)P(L))D(L(L)))
read 2|NODES(A B)LINKS()DEMANDS(D(A B)1.000 1099511627.775 9 E(A B)1099511627 0.001 9)
read 0|NODES(A B)LINKS(L(A B)1099511627.775 1099511627.775 1099511627.775 1099511627.775(1099511627.775 1099511627.775))DEMANDS()
read 0|NODES(A B)LINKS(L(A B)0 0 0 0(1 1 1 1 1 1 1 1 1 1 1 1 1 1 1 1 1 1 1 1 1 1 1 1 1 1 1 1 1 1 1 1))DEMANDS()
";

#[test]
fn the_first_line_is_the_header(rt: HostRuntime) {
    assert_eq!(rt;
        first_difference(rt.alloc(), Format::Network, b"", FIRST_LINES),
        None
    );
}

#[test]
fn faults_stand_at_their_first_token(rt: HostRuntime) {
    assert_eq!(rt;
        first_difference(rt.alloc(), Format::Network, HEADER, FAULTS_OF_SECTIONS),
        None
    );
    assert_eq!(rt;
        first_difference(rt.alloc(), Format::Network, HEADER, FAULTS_OF_TOKENS),
        None
    );
    assert_eq!(rt;
        first_difference(rt.alloc(), Format::Network, HEADER, FAULTS_OF_NAMES),
        None
    );
    assert_eq!(rt;
        first_difference(rt.alloc(), Format::Network, HEADER, FAULTS_OF_NUMBERS),
        None
    );
}

#[test]
fn counts_totals_and_names_have_limits(rt: HostRuntime) {
    assert_eq!(rt;
        first_difference(rt.alloc(), Format::Network, HEADER, COUNTS),
        None
    );
    assert_eq!(rt;
        first_difference(rt.alloc(), Format::Network, HEADER, TOTALS),
        None
    );
    assert_eq!(rt;
        first_difference(rt.alloc(), Format::Network, HEADER, LONG_NAMES),
        None
    );
    assert_eq!(rt;
        first_difference(rt.alloc(), Format::Network, HEADER, NEVER_CLOSED),
        None
    );
}

#[test]
fn files_are_read_with_three_places_or_six(rt: HostRuntime) {
    assert_eq!(rt;
        first_difference(rt.alloc(), Format::Digits, HEADER, PLACES),
        None
    );
    assert_eq!(rt;
        first_difference(rt.alloc(), Format::Digits, HEADER, FINE_LIMITS),
        None
    );
}

#[test]
fn what_is_allowed_is_read(rt: HostRuntime) {
    assert_eq!(rt;
        first_difference(rt.alloc(), Format::Network, HEADER, ALLOWED),
        None
    );
}

/// Whether the file, cut to this length, is read if its demands are complete and no paths have begun, or all paths are complete, and is refused
/// else.
fn is_read_where_whole(alloc: Global, file: &[u8], length: usize) -> bool {
    if length > file.len() {
        return false;
    }
    let is_whole = length >= 761 && length <= 763 || length >= 815;
    read_network(alloc, &file[..length]).is_ok() == is_whole
}

/// The first length at which the cut file is read though it should be refused, or refused though it should be read.
fn first_wrong_length(alloc: Global, file: &[u8]) -> Option<usize> {
    for length in 0..=file.len() {
        if !is_read_where_whole(alloc, file, length) {
            return Some(length);
        }
    }
    None
}

#[test]
fn a_cut_file_is_read_after_its_demands_and_outside_its_paths(rt: HostRuntime) {
    assert_eq!(rt; first_wrong_length(rt.alloc(), SMALL), None);
}

pub(crate) fn is_named(name: &Name, bytes: &[u8]) -> bool {
    name.bytes() == bytes
}

fn are_nodes_of_small(nodes: &[Name]) -> bool {
    match nodes {
        [a, b, c, d] => {
            is_named(a, b"Bonn")
                && is_named(b, b"Kiel")
                && is_named(c, b"Ulm")
                && is_named(d, b"Jena")
        }
        _ => false,
    }
}

/// The modules of each link of the small file: 155.00 for 100.00, and 622.00 for 250.00.
const MODULES: [Module; 2] = [
    Module {
        capacity: 155_000,
        cost: 100_000,
    },
    Module {
        capacity: 622_000,
        cost: 250_000,
    },
];

/// Whether a link has this name and these ends.
fn joins(link: &Link, name: &[u8], a: u32, b: u32) -> bool {
    is_named(&link.name, name) && link.a == NodeId(a) && link.b == NodeId(b)
}

/// Whether a link has this pre-installed capacity and setup cost, and these modules.
fn offers(link: &Link, fixed: u64, setup: u64, modules: &[Module]) -> bool {
    link.fixed == fixed && link.setup == setup && link.modules.items() == modules
}

fn is_link_of_small(link: &Link, name: &[u8], a: u32, b: u32) -> bool {
    joins(link, name, a, b) && offers(link, 0, 0, &MODULES)
}

fn are_links_of_small(links: &[Link]) -> bool {
    match links {
        [a, b, c, d, e] => {
            is_link_of_small(a, b"L1", 0, 1)
                && is_link_of_small(b, b"L2", 1, 3)
                && is_link_of_small(c, b"L3", 3, 2)
                && is_link_of_small(d, b"L4", 2, 0)
                && is_link_of_small(e, b"L5", 0, 3)
        }
        _ => false,
    }
}

fn is_demand(d: &Demand, name: &[u8], from: u32, to: u32, need: u64) -> bool {
    is_named(&d.name, name) && d.from == NodeId(from) && d.to == NodeId(to) && d.need == need
}

fn are_demands_of_small(demands: &[Demand]) -> bool {
    match demands {
        [a, b, c] => {
            is_demand(a, b"D1", 0, 1, 60_000)
                && is_demand(b, b"D2", 0, 3, 80_000)
                && is_demand(c, b"D3", 1, 2, 40_000)
        }
        _ => false,
    }
}

/// Whether a network notes costs of pre-installed capacity, of routing and of setup.
fn are_notes(net: &Network, fixed: bool, routing: bool, setup: bool) -> bool {
    let notes = net.notes();
    notes.fixed_cost == fixed && notes.routing_cost == routing && notes.setup_cost == setup
}

fn is_small(net: &Network, demands: &[Demand]) -> bool {
    are_nodes_of_small(net.nodes().items())
        && are_links_of_small(net.links().items())
        && are_demands_of_small(demands)
        && are_notes(net, false, false, false)
}

/// Whether the small file is read with the nodes, links and demands that are written in it.
fn is_small_read(alloc: Global, file: &[u8]) -> bool {
    match read_network(alloc, file) {
        Ok((net, demands)) => is_small(&net, demands.items()),
        Err(_) => false,
    }
}

#[test]
fn a_file_of_users_is_read_whole(rt: HostRuntime) {
    assert!(rt; is_small_read(rt.alloc(), SMALL));
}

/// Costs of pre-installed capacity and of setup, and a demand of 3.0 * 1.5 = 4.5.
const COSTS: &[u8] =
    b"?SNDlib native format; type: network; version: 1.0\nNODES(A B)LINKS(L(A B)2.5 0.001 0 7(1 2 3 4)M(B A)0 0 0 0())DEMANDS(D(B A)3.0 1.5 UNLIMITED)";

const MODULES_OF_COSTS: [Module; 2] = [
    Module {
        capacity: 1_000,
        cost: 2_000,
    },
    Module {
        capacity: 3_000,
        cost: 4_000,
    },
];

fn are_links_of_costs(links: &[Link]) -> bool {
    match links {
        [first, _] => offers(first, 2_500, 7_000, &MODULES_OF_COSTS),
        _ => false,
    }
}

fn are_demands_of_costs(demands: &[Demand]) -> bool {
    match demands {
        [first] => is_demand(first, b"D", 1, 0, 4_500),
        _ => false,
    }
}

fn has_costs(net: &Network, demands: &[Demand]) -> bool {
    are_links_of_costs(net.links().items())
        && are_demands_of_costs(demands)
        && are_notes(net, true, false, true)
}

/// Whether the costs are noted, and the need is the product of its unit and its amount.
fn are_costs_read(alloc: Global, file: &[u8]) -> bool {
    match read_network(alloc, file) {
        Ok((net, demands)) => has_costs(&net, demands.items()),
        Err(_) => false,
    }
}

#[test]
fn costs_are_noted_and_units_multiplied(rt: HostRuntime) {
    assert!(rt; are_costs_read(rt.alloc(), COSTS));
}

/// Costs of pre-installed capacity and of setup, and a demand of 3.0 * 1.5001 = 4.5003, whose four decimals make all amounts millionths.
const FINE_COSTS: &[u8] =
    b"?SNDlib native format; type: network; version: 1.0\nNODES(A B)LINKS(L(A B)2.5 0.001 0 7(1 2 3 4)M(B A)0 0 0 0())DEMANDS(D(B A)3.0 1.5001 UNLIMITED)";

const MODULES_IN_MILLIONTHS: [Module; 2] = [
    Module {
        capacity: 1_000_000,
        cost: 2_000_000,
    },
    Module {
        capacity: 3_000_000,
        cost: 4_000_000,
    },
];

fn are_links_in_millionths(links: &[Link]) -> bool {
    match links {
        [first, _] => offers(first, 2_500_000, 7_000_000, &MODULES_IN_MILLIONTHS),
        _ => false,
    }
}

fn are_demands_in_millionths(demands: &[Demand]) -> bool {
    match demands {
        [first] => is_demand(first, b"D", 1, 0, 4_500_300),
        _ => false,
    }
}

fn has_millionths(net: &Network, demands: &[Demand]) -> bool {
    net.places() == Places::Six
        && are_links_in_millionths(net.links().items())
        && are_demands_in_millionths(demands)
        && are_notes(net, true, false, true)
}

/// Whether all amounts of a file are read in millionths.
fn are_millionths_read(alloc: Global, file: &[u8]) -> bool {
    match read_network(alloc, file) {
        Ok((net, demands)) => has_millionths(&net, demands.items()),
        Err(_) => false,
    }
}

#[test]
fn a_file_with_four_decimals_is_read_in_millionths(rt: HostRuntime) {
    assert!(rt; are_millionths_read(rt.alloc(), FINE_COSTS));
}

const WORDS: [(ReadKind, &str); 6] = [
    (ReadKind::Header, "header"),
    (ReadKind::FixedLink, "fixed-link"),
    (ReadKind::Limit(Limited::Name), "limit-name"),
    (ReadKind::Limit(Limited::Total), "limit-total"),
    (ReadKind::Number(NumberFault::NotANumber), "number-not"),
    (ReadKind::Number(NumberFault::TooLarge), "number-large"),
];

#[test]
fn kinds_are_written(rt: HostRuntime) {
    for (kind, word) in &WORDS {
        assert!(rt; kind.word() == *word);
    }
}
