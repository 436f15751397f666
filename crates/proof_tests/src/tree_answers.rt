use crate::rows::CutRow;
use crate::tree_rows::NodeRow::{Closed, Empty, Spent, Split, Stuck};
use crate::tree_rows::{DividedRow, Named, TreeRow, first_wrong};
use tree_check::TreeAnswer::{Accepted, Rejected};
use tree_check::Verdict::{Above, Cheapest};

/// The cuts of one link each, in the states where the two others don't carry; then one whose right side isn't its own, one of lengths
/// with a common divisor, and one of a state that isn't listed.
const CUTS: [CutRow; 6] = [
    (1, &[0, 0, 1], 12000),
    (3, &[1, 0, 0], 12000),
    (3, &[0, 1, 0], 12000),
    (3, &[0, 1, 0], 11999),
    (3, &[0, 2, 0], 24000),
    (4, &[0, 1, 0], 12000),
];

/// Two modules on each link cost 30.00. Fewer on AC leave A apart from C where AB fails, and fewer on AB where AC fails; of BC a half
/// and a tenth of a module remain, so that the last box has the value 26.00, which is 30.00 in whole modules.
const ROWS: [TreeRow; 14] = [
    (
        &[
            Split(2, 0, 1),
            Empty(0),
            Split(0, 0, 1),
            Empty(1),
            Closed(2, &[(2, 1)]),
        ],
        Cheapest,
        Accepted,
    ),
    (
        &[
            Split(2, 0, 1),
            Empty(0),
            Split(0, 0, 1),
            Empty(1),
            Spent(2, &[(2, 1)]),
        ],
        Above(30000),
        Accepted,
    ),
    (
        &[Split(2, 0, 1), Empty(0), Spent(2, &[(2, 1)])],
        Above(20000),
        Accepted,
    ),
    (
        &[Split(2, 0, 1), Empty(0), Spent(2, &[(1, 1), (2, 1)])],
        Above(25000),
        Accepted,
    ),
    (&[Spent(1, &[])], Above(0), Accepted),
    (
        &[Split(2, 0, 1), Empty(1), Spent(2, &[(2, 1)])],
        Above(20000),
        Rejected(1),
    ),
    (
        &[
            Split(2, 0, 1),
            Empty(0),
            Split(0, 0, 1),
            Empty(1),
            Closed(2, &[(3, 1)]),
        ],
        Cheapest,
        Rejected(4),
    ),
    (
        &[
            Split(2, 0, 1),
            Empty(0),
            Split(0, 0, 1),
            Empty(1),
            Closed(2, &[(4, 1)]),
        ],
        Cheapest,
        Rejected(4),
    ),
    (
        &[
            Split(2, 0, 1),
            Empty(0),
            Split(0, 0, 1),
            Empty(1),
            Closed(2, &[(5, 1)]),
        ],
        Cheapest,
        Rejected(4),
    ),
    (
        &[
            Split(2, 0, 1),
            Empty(0),
            Split(0, 0, 1),
            Empty(1),
            Closed(2, &[(6, 1)]),
        ],
        Cheapest,
        Rejected(4),
    ),
    (
        &[
            Split(2, 0, 1),
            Empty(0),
            Split(0, 0, 1),
            Empty(1),
            Closed(2, &[(2, 2)]),
        ],
        Cheapest,
        Rejected(4),
    ),
    (
        &[
            Split(2, 0, 1),
            Empty(0),
            Split(0, 0, 1),
            Empty(1),
            Closed(3, &[(2, 1)]),
        ],
        Cheapest,
        Rejected(4),
    ),
    (
        &[
            Split(2, 0, 1),
            Empty(0),
            Split(0, 0, 1),
            Empty(1),
            Closed(0, &[(2, 1)]),
        ],
        Cheapest,
        Rejected(4),
    ),
    (
        &[Split(2, 0, 1), Empty(0), Split(0, 0, 1), Empty(1)],
        Cheapest,
        Rejected(4),
    ),
];

/// Further trees on the triangle.
const FURTHER_ROWS: [TreeRow; 13] = [
    (
        &[
            Split(2, 0, 1),
            Empty(0),
            Split(0, 0, 1),
            Empty(1),
            Closed(2, &[(2, 1)]),
            Empty(0),
        ],
        Cheapest,
        Rejected(5),
    ),
    (
        &[
            Split(2, 0, 1),
            Empty(0),
            Split(2, 0, 1),
            Empty(1),
            Closed(2, &[(2, 1)]),
        ],
        Cheapest,
        Rejected(2),
    ),
    (
        &[Split(2, 1, 1), Empty(0), Spent(1, &[])],
        Above(0),
        Rejected(0),
    ),
    (
        &[Split(3, 0, 1), Empty(0), Spent(1, &[])],
        Above(0),
        Rejected(0),
    ),
    (
        &[Split(2, 0, 1), Empty(0), Spent(2, &[(2, 1)])],
        Cheapest,
        Rejected(4),
    ),
    (
        &[Split(2, 0, 1), Empty(0), Spent(2, &[(2, 1)])],
        Above(20001),
        Rejected(4),
    ),
    (&[Stuck(1, 0, &[0, 0, 0])], Above(0), Rejected(0)),
    (&[], Cheapest, Rejected(0)),
    (
        &[
            Split(0, 0, 0),
            Split(1, 0, 0),
            Split(2, 0, 0),
            Stuck(1, 0, &[0, 0, 0]),
            Spent(1, &[]),
            Spent(1, &[]),
            Spent(1, &[]),
        ],
        Above(0),
        Accepted,
    ),
    (
        &[
            Split(0, 0, 0),
            Split(1, 0, 0),
            Split(2, 0, 0),
            Stuck(1, 0, &[0, 0, 1]),
            Spent(1, &[]),
            Spent(1, &[]),
            Spent(1, &[]),
        ],
        Above(0),
        Rejected(3),
    ),
    (
        &[
            Split(0, 0, 0),
            Split(1, 0, 0),
            Split(2, 0, 0),
            Stuck(1, 4, &[0, 0, 0]),
            Spent(1, &[]),
            Spent(1, &[]),
            Spent(1, &[]),
        ],
        Above(0),
        Rejected(3),
    ),
    (
        &[
            Split(0, 0, 18446744073709551615),
            Spent(1, &[]),
            Spent(1, &[(1, 1)]),
        ],
        Above(0),
        Rejected(2),
    ),
    (
        &[
            Split(0, 0, 18446744073709551615),
            Spent(1, &[(1, 1)]),
            Spent(1, &[]),
        ],
        Above(0),
        Accepted,
    ),
];

#[test]
fn trees_are_answered(rt: HostRuntime) {
    let named = Named {
        cuts: &CUTS,
        lines: &[],
    };
    let wrong = first_wrong(rt.alloc(), 30000, &named, &ROWS);
    assert!(rt; wrong.is_none(), "row {}", wrong.unwrap_or(0));
}

#[test]
fn further_trees_are_answered(rt: HostRuntime) {
    let named = Named {
        cuts: &CUTS,
        lines: &[],
    };
    let wrong = first_wrong(rt.alloc(), 30000, &named, &FURTHER_ROWS);
    assert!(rt; wrong.is_none(), "row {}", wrong.unwrap_or(0));
}

/// Lines after the six cuts: two modules of each of AC, AB and BC; one over what is no cut, and one over a later line; and six modules of
/// all links together.
const LINES: [DividedRow; 6] = [
    (10000, &[(0, 1)]),
    (10000, &[(1, 1)]),
    (10000, &[(2, 1)]),
    (10000, &[(3, 1)]),
    (1, &[(11, 1)]),
    (1, &[(6, 1), (7, 1), (8, 1)]),
];

/// Six modules for 5.00 each cost 30.00, so that no split is needed. A numerator of 5001 prices a module above its cost; with 4999 the
/// value is 29.998, which is 30.00 in whole modules.
const LINE_ROWS: [TreeRow; 11] = [
    (
        &[Closed(1, &[(6, 5000), (7, 5000), (8, 5000)])],
        Cheapest,
        Accepted,
    ),
    (&[Closed(1, &[(11, 5000)])], Cheapest, Accepted),
    (
        &[Closed(1, &[(6, 5001), (7, 5000), (8, 5000)])],
        Cheapest,
        Rejected(0),
    ),
    (
        &[Closed(1, &[(6, 4999), (7, 5000), (8, 5000)])],
        Cheapest,
        Accepted,
    ),
    (&[Closed(1, &[(9, 5000)])], Cheapest, Rejected(0)),
    (&[Closed(1, &[(10, 5000)])], Cheapest, Rejected(0)),
    (&[Closed(1, &[(12, 5000)])], Cheapest, Rejected(0)),
    (
        &[Split(2, 0, 1), Empty(6), Closed(1, &[(11, 5000)])],
        Cheapest,
        Accepted,
    ),
    (
        &[Split(2, 0, 1), Empty(7), Closed(1, &[(11, 5000)])],
        Cheapest,
        Rejected(1),
    ),
    (&[Spent(1, &[(6, 5000)])], Above(10000), Accepted),
    (&[Spent(1, &[(6, 5000)])], Above(10001), Rejected(2)),
];

#[test]
fn leaves_name_further_lines(rt: HostRuntime) {
    let named = Named {
        cuts: &CUTS,
        lines: &LINES,
    };
    let wrong = first_wrong(rt.alloc(), 30000, &named, &LINE_ROWS);
    assert!(rt; wrong.is_none(), "row {}", wrong.unwrap_or(0));
}
