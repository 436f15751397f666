use net_core::{NetFault, Problem};
use std::alloc::Global;
use worked_networks::{
    CHAIN, DemandRow, LinkRow, PARALLEL, RING, WorkedFault, demands, failing, network, problem,
    triangle,
};

/// Whether a problem has these numbers of nodes and links, and a listed state for each link.
fn has_size(p: &Problem, nodes: usize, links: usize) -> bool {
    p.net.nodes().len() == nodes && p.net.links().len() == links && p.states.listed().len() == links
}

/// Whether a table of links gives a problem in which each link fails alone.
fn gives_problem(alloc: Global, nodes: usize, links: &[LinkRow]) -> bool {
    let Ok(net) = network(alloc, nodes, links) else {
        return false;
    };
    match problem(alloc, net, &[(0, 1, 1000)]) {
        Ok(p) => has_size(&p, nodes, links.len()),
        Err(_) => false,
    }
}

#[test]
fn tables_give_networks_with_single_failures(rt: HostRuntime) {
    let alloc = rt.alloc();
    assert!(rt; gives_problem(alloc, 2, &PARALLEL));
    assert!(rt; gives_problem(alloc, 6, &CHAIN));
    assert!(rt; gives_problem(alloc, 3, &CHAIN[..2]));
    assert!(rt; gives_problem(alloc, 4, &RING));
}

/// How many states of the triangle a table gives, counting the one without failures.
fn count_of_states(alloc: Global, rows: &[&[u32]]) -> Option<u32> {
    let net = triangle(alloc, 0).ok()?;
    Some(failing(alloc, &net, rows).ok()?.count())
}

/// Whether the triangle's last link has this name.
fn is_last_link(alloc: Global, name: &[u8]) -> Option<bool> {
    let net = triangle(alloc, 0).ok()?;
    Some(net.links().items().last()?.name.bytes() == name)
}

#[test]
fn the_triangle_has_named_links_and_states_of_rows(rt: HostRuntime) {
    assert!(rt; is_last_link(rt.alloc(), b"AC") == Some(true));
    assert_eq!(rt; count_of_states(rt.alloc(), &[&[0, 1], &[2]]), Some(3));
}

#[test]
fn tables_of_links_are_refused(rt: HostRuntime) {
    let many = network(rt.alloc(), 27, &CHAIN).err();
    assert!(rt; many == Some(WorkedFault::TooMany));
    let unknown = network(rt.alloc(), 2, &CHAIN).err();
    assert!(rt; unknown == Some(WorkedFault::Network(NetFault::UnknownEnd(1))));
}

/// Demands that two nodes can't have.
const REFUSED: [DemandRow; 4] = [(0, 0, 1), (0, 2, 1), (2, 0, 1), (0, 1, 1 << 40)];

#[test]
fn tables_of_demands_are_refused(rt: HostRuntime) {
    for row in REFUSED {
        let refused = demands(rt.alloc(), 2, &[row]).err();
        assert!(rt; refused == Some(WorkedFault::Demands), "{row:?}");
    }
}
