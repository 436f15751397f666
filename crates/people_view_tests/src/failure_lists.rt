use failure_texts::{FailureAnswer, failure_list};
use model_reader::read_failures;
use net_core::{Bytes, Demands, Network};
use std::alloc::Global;
use worked_networks::{DemandRow, LinkRow, TEN, demands, network};

/// A triangle of a, b and c, to which link d leads from a fourth node.
const LOLLIPOP: [LinkRow; 4] = [
    (0, 1, 0, &TEN),
    (1, 2, 0, &TEN),
    (0, 2, 0, &TEN),
    (2, 3, 0, &TEN),
];

/// The demands, the text of the failure list, and how many states are read from it, counting the one in which nothing fails.
type ListRow = (&'static [DemandRow], &'static [u8], u32);

/// A demand over the bridge d, one that needs nothing, and one beside the bridge.
const LISTS: [ListRow; 3] = [
    (
        &[(0, 3, 12000)],
        b"?planner failures; version: 1\nFAILURES ( a ( a )\nb ( b )\nc ( c )\n)\n# d is left out: without it demand A can't be carried\n",
        4,
    ),
    (
        &[(0, 3, 0), (0, 1, 5000)],
        b"?planner failures; version: 1\nFAILURES ( a ( a )\nb ( b )\nc ( c )\nd ( d )\n)\n",
        5,
    ),
    (
        &[(0, 1, 5000), (3, 1, 2000), (2, 3, 1000)],
        b"?planner failures; version: 1\nFAILURES ( a ( a )\nb ( b )\nc ( c )\n)\n# d is left out: without it demand B can't be carried\n",
        4,
    ),
];

/// The failure list of the links for these demands.
fn list(alloc: Global, net: &Network, rows: &[DemandRow]) -> Option<FailureAnswer> {
    let asked: Demands = demands(alloc, net.nodes().len(), rows).ok()?;
    failure_list(alloc, net, &asked).ok()
}

/// Whether a text is the one that the row expects, and gives the row's number of states.
fn is_list(alloc: Global, net: &Network, text: &Bytes, row: &ListRow) -> Option<bool> {
    let states = read_failures(alloc, net, text.items()).ok()?;
    Some(text.items() == row.1 && states.count() == row.2)
}

/// Whether the list of a row is the expected one.
fn is_right(alloc: Global, row: &ListRow) -> Option<bool> {
    let net = network(alloc, 4, &LOLLIPOP).ok()?;
    match list(alloc, &net, row.0)? {
        FailureAnswer::Printed(text) => is_list(alloc, &net, &text, row),
        FailureAnswer::Apart(_) => Some(false),
    }
}

/// The first row whose list isn't the expected one.
fn first_wrong(alloc: Global) -> Option<usize> {
    for i in 0..LISTS.len() {
        if is_right(alloc, &LISTS[i]) != Some(true) {
            return Some(i);
        }
    }
    None
}

#[test]
fn failure_lists_leave_out_bridges_of_demands(rt: HostRuntime) {
    let wrong = first_wrong(rt.alloc());
    assert!(rt; wrong.is_none(), "row {}", wrong.unwrap_or(0));
}

/// The demand that is separated without a failure, of one from A to B along link a, and one from B to C, which nothing joins.
fn separated(alloc: Global) -> Option<u32> {
    let net = network(alloc, 3, &[(0, 1, 0, &TEN)]).ok()?;
    match list(alloc, &net, &[(0, 1, 3000), (1, 2, 3000)])? {
        FailureAnswer::Apart(k) => Some(k),
        FailureAnswer::Printed(_) => None,
    }
}

#[test]
fn demands_without_a_path_are_told(rt: HostRuntime) {
    assert_eq!(rt; separated(rt.alloc()), Some(1));
}
