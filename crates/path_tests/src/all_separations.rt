use failure_states::Separation;
use failure_texts::{put_separations, separations};
use net_core::{Bytes, Instance, List};
use std::alloc::Global;
use worked_networks::{DemandRow, LinkRow, TEN, network, problem};

/// A triangle of the links a, b and c, and the link d from it to a fourth node.
const LOLLIPOP: [LinkRow; 4] = [
    (0, 1, 0, &TEN),
    (1, 2, 0, &TEN),
    (0, 2, 0, &TEN),
    (2, 3, 0, &TEN),
];

/// The number of nodes, the links, each of which fails alone, the demands, and the lines of all separations.
type SeparationRow = (
    usize,
    &'static [LinkRow<'static>],
    &'static [DemandRow],
    &'static [u8],
);

/// Three demands over the bridge d, of which the last needs nothing, and one beside it; a demand over the only link, and one to a node that
/// has none; and a triangle, which no failure of one link separates.
const SEPARATIONS: [SeparationRow; 3] = [
    (
        4,
        &LOLLIPOP,
        &[(0, 3, 12000), (0, 1, 5000), (3, 1, 2000), (3, 2, 0)],
        b"  where d fails, no path joins the ends of demand A\n  where d fails, no path joins the ends of demand C\n",
    ),
    (
        3,
        &[(0, 1, 0, &TEN)],
        &[(0, 1, 3000), (1, 2, 3000)],
        b"  without any failure no path joins the ends of demand B\n  where a fails, no path joins the ends of demand A\n  where a fails, no path joins the ends of demand B\n",
    ),
    (
        3,
        &[(0, 1, 0, &TEN), (1, 2, 0, &TEN), (0, 2, 0, &TEN)],
        &[(0, 2, 12000)],
        b"",
    ),
];

/// The lines of these separations.
fn text_of(alloc: Global, instance: &Instance, found: &[Separation]) -> Option<Bytes> {
    let mut text: Bytes = List::new(alloc);
    put_separations(&mut text, instance, found).ok()?;
    Some(text)
}

/// The lines of all separations of an instance.
fn lines_of(alloc: Global, instance: &Instance) -> Option<Bytes> {
    let found = separations(alloc, instance).ok()?;
    text_of(alloc, instance, found.items())
}

/// The lines of all separations of a row.
fn lines(alloc: Global, row: &SeparationRow) -> Option<Bytes> {
    let net = network(alloc, row.0, row.1).ok()?;
    let problem = problem(alloc, net, row.2).ok()?;
    lines_of(alloc, &problem.instance())
}

/// Whether the lines of a row are the expected ones.
fn are_right(alloc: Global, row: &SeparationRow) -> bool {
    match lines(alloc, row) {
        Some(text) => text.items() == row.3,
        None => false,
    }
}

/// The first row whose lines aren't the expected ones.
fn first_wrong(alloc: Global) -> Option<usize> {
    for i in 0..SEPARATIONS.len() {
        if !are_right(alloc, &SEPARATIONS[i]) {
            return Some(i);
        }
    }
    None
}

#[test]
fn all_separations_are_told(rt: HostRuntime) {
    let wrong = first_wrong(rt.alloc());
    assert!(rt; wrong.is_none(), "row {}", wrong.unwrap_or(0));
}
