use flow_file::read_flows;
use flow_import::{ImportFault, Imported, import};
use net_core::{LinkId, Network, NodeId, StateId};
use std::alloc::Global;
use worked_networks::{DemandRow, demands, failing, triangle};

/// 12.00 from A to C.
const ONE_DEMAND: &[DemandRow] = &[(0, 2, 12000)];

/// 12.00 from A to C, 5.00 from A to B, and a demand from C to B that needs nothing.
const THREE_DEMANDS: &[DemandRow] = &[(0, 2, 12000), (0, 1, 5000), (2, 1, 0)];

/// The demands, the places of the links that fail in each state, a file of flows, and the cost of the imported plan or why it is refused.
type ImportRow = (
    &'static [DemandRow],
    &'static [&'static [u32]],
    &'static [u8],
    Result<u128, ImportFault>,
);

/// The state without failures.
const NONE: StateId = StateId(0);

/// The first listed state.
const FIRST: StateId = StateId(1);

const AC: LinkId = LinkId(2);

/// A module has 10.00 for 5.00, so two on a link carry 12.00 and cost 10.00. Flows in both directions share a link's capacity: of 20.00 they
/// take 16 + 4 = 20, but not 16.5 + 4.5 = 21.
const IMPORTS: [ImportRow; 17] = [
    (
        ONE_DEMAND,
        &[],
        b"?planner flows; version: 1\nMODULES ( AB ( 0 ) BC ( 0 ) AC ( 2 ) ) FLOWS ( none ( A AC A 12 ) )",
        Ok(10000),
    ),
    (
        ONE_DEMAND,
        &[],
        b"?planner flows; version: 1\nMODULES ( AB ( 2 ) BC ( 2 ) AC ( 2 ) ) FLOWS ( none ( A AC A 12 A AB A 3 A BC B 3 A AC C 3 ) )",
        Ok(30000),
    ),
    (
        ONE_DEMAND,
        &[],
        b"?planner flows; version: 1\nMODULES ( AB ( 0 ) BC ( 0 ) AC ( 1 ) ) FLOWS ( none ( A AC A 12 ) )",
        Err(ImportFault::Overloaded(NONE, AC)),
    ),
    (
        ONE_DEMAND,
        &[],
        b"?planner flows; version: 1\nMODULES ( AB ( 0 ) BC ( 0 ) AC ( 2 ) ) FLOWS ( none ( A AC A 11 ) )",
        Err(ImportFault::Unbalanced(NONE, 0, NodeId(0))),
    ),
    (
        ONE_DEMAND,
        &[],
        b"?planner flows; version: 1\nMODULES ( AB ( 0 ) BC ( 0 ) AC ( 2 ) ) FLOWS ( none ( ) )",
        Err(ImportFault::Unbalanced(NONE, 0, NodeId(0))),
    ),
    (
        ONE_DEMAND,
        &[&[2]],
        b"?planner flows; version: 1\nMODULES ( AB ( 2 ) BC ( 2 ) AC ( 2 ) ) FLOWS ( none ( A AC A 12 ) f ( A AB A 12 A BC B 12 ) )",
        Ok(30000),
    ),
    (
        ONE_DEMAND,
        &[&[2]],
        b"?planner flows; version: 1\nMODULES ( AB ( 2 ) BC ( 2 ) AC ( 2 ) ) FLOWS ( none ( A AC A 12 ) f ( A AC A 12 ) )",
        Err(ImportFault::Dead(FIRST, AC)),
    ),
    (
        ONE_DEMAND,
        &[&[2, 0]],
        b"?planner flows; version: 1\nMODULES ( AB ( 0 ) BC ( 0 ) AC ( 2 ) ) FLOWS ( none ( A AC A 12 ) f ( A AC A 1 A AB B 1 ) )",
        Err(ImportFault::Dead(FIRST, LinkId(0))),
    ),
    (
        ONE_DEMAND,
        &[&[2]],
        b"?planner flows; version: 1\nMODULES ( AB ( 1 ) BC ( 1 ) AC ( 2 ) ) FLOWS ( none ( A AC A 12 ) f ( A AB A 12 A BC B 12 ) )",
        Err(ImportFault::Overloaded(FIRST, LinkId(0))),
    ),
    (
        ONE_DEMAND,
        &[],
        b"?planner flows; version: 1\nMODULES ( AB ( 0 ) BC ( 0 ) AC ( 2 ) ) FLOWS ( none ( A AC A 16 A AC C 4 ) )",
        Ok(10000),
    ),
    (
        ONE_DEMAND,
        &[],
        b"?planner flows; version: 1\nMODULES ( AB ( 0 ) BC ( 0 ) AC ( 2 ) ) FLOWS ( none ( A AC A 16.5 A AC C 4.5 ) )",
        Err(ImportFault::Overloaded(NONE, AC)),
    ),
    (
        ONE_DEMAND,
        &[],
        b"?planner flows; version: 1\nMODULES ( AB ( 0 ) BC ( 0 ) AC ( 2 ) ) FLOWS ( none ( A AC A 7 A AC A 6 ) )",
        Err(ImportFault::Unbalanced(NONE, 0, NodeId(0))),
    ),
    (
        ONE_DEMAND,
        &[],
        b"?planner flows; version: 1\nMODULES ( AB ( 1 ) BC ( 1 ) AC ( 2 ) ) FLOWS ( none ( A AC A 12 A AB A 1 A BC B 2 A AC C 1 ) )",
        Err(ImportFault::Unbalanced(NONE, 0, NodeId(1))),
    ),
    (
        THREE_DEMANDS,
        &[],
        b"?planner flows; version: 1\nMODULES ( AB ( 0 ) BC ( 1 ) AC ( 2 ) ) FLOWS ( none ( B AC A 5 A AC A 12 B BC C 5 ) )",
        Ok(15000),
    ),
    (
        THREE_DEMANDS,
        &[],
        b"?planner flows; version: 1\nMODULES ( AB ( 0 ) BC ( 1 ) AC ( 2 ) ) FLOWS ( none ( B AC A 5 A AC A 12 B BC C 5 C BC C 1 ) )",
        Err(ImportFault::Unbalanced(NONE, 2, NodeId(1))),
    ),
    (
        THREE_DEMANDS,
        &[],
        b"?planner flows; version: 1\nMODULES ( AB ( 0 ) BC ( 1 ) AC ( 1 ) ) FLOWS ( none ( B AC A 5 A AC A 12 B BC C 4 ) )",
        Err(ImportFault::Unbalanced(NONE, 1, NodeId(1))),
    ),
    (
        THREE_DEMANDS,
        &[],
        b"?planner flows; version: 1\nMODULES ( AB ( 0 ) BC ( 0 ) AC ( 2 ) ) FLOWS ( none ( B AC A 5 A AC A 12 B BC C 5 ) )",
        Err(ImportFault::Overloaded(NONE, LinkId(1))),
    ),
];

/// Whether the import has this cost, and a routing for each of this many states.
fn costs(imported: &Imported, cost: u128, states: usize) -> bool {
    imported.cost == cost && imported.routings.len() == states
}

/// What the import of a row's file answers; `None` if the file can't be read.
fn import_of(
    alloc: Global,
    net: &Network,
    row: &ImportRow,
) -> Option<Result<Imported, ImportFault>> {
    let states = failing(alloc, net, row.1).ok()?;
    let listed = demands(alloc, net.nodes().len(), row.0).ok()?;
    let file = read_flows(alloc, net, &states, &listed, row.2).ok()?;
    Some(import(alloc, net, &states, &listed, file))
}

/// Whether a row's file is imported at its cost, or refused with its fault.
fn is_imported(alloc: Global, row: &ImportRow) -> bool {
    let Ok(net) = triangle(alloc, 0) else {
        return false;
    };
    match (import_of(alloc, &net, row), &row.3) {
        (Some(Ok(imported)), Ok(cost)) => costs(&imported, *cost, row.1.len() + 1),
        (Some(Err(fault)), Err(want)) => fault == *want,
        _ => false,
    }
}

#[test]
fn flows_are_imported_or_refused_with_their_first_fault(rt: HostRuntime) {
    for i in 0..IMPORTS.len() {
        assert!(rt; is_imported(rt.alloc(), &IMPORTS[i]), "row {i}");
    }
}
