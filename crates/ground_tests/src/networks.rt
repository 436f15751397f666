use net_core::{
    Copied, Link, LinkId, List, Listed, Module, Name, NameFault, NetFault, Network, NodeId, Notes,
    Places, StateId, States, StatesFault,
};
use std::alloc::Global;
use worked_networks::{PARALLEL, network};

/// Whether the copy of a list of lists is equal to it.
fn is_list_copied(alloc: Global) -> Option<bool> {
    let mut outer = List::new(alloc);
    outer.push(List::from_slice(alloc, &[7]).ok()?).ok()?;
    let copied = outer.copy().ok()?;
    Some(copied.len() == 1 && copied == outer)
}

fn is_name_copied(alloc: Global) -> Option<bool> {
    let name = Name::new(alloc, b"AB").ok()?;
    Some(name.same(&name.copy().ok()?))
}

#[test]
fn copies_are_equal(rt: HostRuntime) {
    assert!(rt; is_list_copied(rt.alloc()) == Some(true));
    assert!(rt; is_name_copied(rt.alloc()) == Some(true));
}

#[test]
fn faults_of_names_are_told(rt: HostRuntime) {
    assert!(rt; Name::new(rt.alloc(), b"#A").err() == Some(NameFault::BadByte));
    assert!(rt; Name::new(rt.alloc(), b"").err() == Some(NameFault::Empty));
}

/// A link: its name, its ends, and the capacity of its only module, which costs 5.00.
type LinkRow = (&'static [u8], u32, u32, u64);

fn link(alloc: Global, row: &LinkRow) -> Option<Link> {
    let (name, a, b, capacity) = *row;
    Some(Link {
        name: Name::new(alloc, name).ok()?,
        a: NodeId(a),
        b: NodeId(b),
        fixed: 0,
        setup: 0,
        modules: List::from_slice(
            alloc,
            &[Module {
                capacity,
                cost: 5000,
            }],
        )
        .ok()?,
    })
}

/// Nodes A, B and C.
fn nodes(alloc: Global) -> Option<List<Name>> {
    let mut nodes = List::new(alloc);
    for name in [b"A", b"B", b"C"] {
        nodes.push(Name::new(alloc, name).ok()?).ok()?;
    }
    Some(nodes)
}

/// The link AB with a capacity of 10.00, and a second link.
fn links(alloc: Global, second: &LinkRow) -> Option<List<Link>> {
    let mut links = List::new(alloc);
    links.push(link(alloc, &(b"AB", 0, 1, 10000))?).ok()?;
    links.push(link(alloc, second)?).ok()?;
    Some(links)
}

/// What the check answers for the nodes A, B and C with the link AB and a second one.
fn check_with(alloc: Global, second: &LinkRow) -> Option<Result<Network, NetFault>> {
    let notes = Notes {
        fixed_cost: false,
        routing_cost: false,
        setup_cost: false,
    };
    Some(Network::check(nodes(alloc)?, links(alloc, second)?, notes, Places::Three))
}

/// Whether the check finds this fault, or none if none is expected.
fn finds(alloc: Global, second: &LinkRow, fault: Option<NetFault>) -> bool {
    match check_with(alloc, second) {
        Some(answer) => answer.err() == fault,
        None => false,
    }
}

/// Second links, and the first fault of each: the link that has it is at place 1.
const SECOND_LINKS: [(LinkRow, Option<NetFault>); 6] = [
    ((b"BC", 1, 2, 10000), None),
    ((b"AB", 1, 9, 0), Some(NetFault::DoubleLink(1))),
    ((b"BC", 9, 9, 0), Some(NetFault::UnknownEnd(1))),
    ((b"BC", 2, 2, 0), Some(NetFault::SelfLink(1))),
    ((b"BC", 1, 2, 0), Some(NetFault::ZeroModule(1))),
    ((b"BC", 1, 2, 1 << 40), Some(NetFault::Amount(1))),
];

#[test]
fn first_faults_of_links_are_told(rt: HostRuntime) {
    for (second, fault) in &SECOND_LINKS {
        assert!(rt; finds(rt.alloc(), second, *fault), "{second:?}");
    }
}

fn state(alloc: Global, e: u32) -> Option<Listed> {
    Some(Listed {
        name: Name::new(alloc, b"f").ok()?,
        links: List::from_slice(alloc, &[LinkId(e)]).ok()?,
    })
}

/// The failure of a link, listed twice under one name.
fn listed_twice(alloc: Global, e: u32) -> Option<List<Listed>> {
    let mut listed = List::new(alloc);
    listed.push(state(alloc, e)?).ok()?;
    listed.push(state(alloc, e)?).ok()?;
    Some(listed)
}

/// Why a network of two links refuses the failure of a link that is listed twice.
fn fault_of_states(alloc: Global, e: u32) -> Option<StatesFault> {
    let net = network(alloc, 2, &PARALLEL[..2]).ok()?;
    States::new(&net, listed_twice(alloc, e)?).err()
}

#[test]
fn faults_of_states_are_told(rt: HostRuntime) {
    assert!(rt; fault_of_states(rt.alloc(), 1) == Some(StatesFault::DoubleState(1)));
    assert!(rt; fault_of_states(rt.alloc(), 2) == Some(StatesFault::UnknownLink(0)));
}

/// Whether an empty list gives only the state without failures.
fn has_none_alone(alloc: Global) -> Option<bool> {
    let net = network(alloc, 2, &PARALLEL[..2]).ok()?;
    let states = States::new(&net, List::new(alloc)).ok()?;
    Some(states.count() == 1 && !states.fails(StateId(0), LinkId(1)))
}

#[test]
fn the_state_without_failures_is_always_there(rt: HostRuntime) {
    assert!(rt; has_none_alone(rt.alloc()) == Some(true));
}
