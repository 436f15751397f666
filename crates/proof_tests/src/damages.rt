use crate::rows::CutRow;
use crate::tree_rows::NodeRow::Closed;
use crate::tree_rows::{DividedRow, Named, TreeRow, first_wrong};
use std::alloc::Global;
use tree_check::TreeAnswer::{Accepted, Rejected};
use tree_check::Verdict::Cheapest;

/// Two modules of 10.00 are needed of each link of the triangle where another one fails: AC, AB and BC.
const CUTS: [CutRow; 3] = [
    (1, &[0, 0, 1], 12000),
    (3, &[1, 0, 0], 12000),
    (3, &[0, 1, 0], 12000),
];

/// Six modules of all links together for 5.00 each, by line 6.
const PROOF: [TreeRow; 1] = [(&[Closed(1, &[(6, 5000)])], Cheapest, Accepted)];

/// Six modules of all links together for 5.00 each, by line 6, where the lines don't prove it.
const DAMAGED: [TreeRow; 1] = [(&[Closed(1, &[(6, 5000)])], Cheapest, Rejected(0))];

const AC: DividedRow = (10000, &[(0, 1)]);

const AB: DividedRow = (10000, &[(1, 1)]);

const BC: DividedRow = (10000, &[(2, 1)]);

const ALL: DividedRow = (1, &[(3, 1), (4, 1), (5, 1)]);

/// Lines that still prove it: one that isn't named is doubled, or a divisor is raised, but not to 12000, which would ask for one module
/// alone.
const KEPT: [&[DividedRow]; 4] = [
    &[AC, AB, BC, ALL],
    &[AC, AB, BC, ALL, ALL],
    &[(10001, &[(0, 1)]), AB, BC, ALL],
    &[(11999, &[(0, 1)]), AB, BC, ALL],
];

/// Lines of which one is left out, doubled, moved, or changed in one number. A link that counts twice in line 6 is priced above its cost,
/// fewer than six modules in all cost less than 30.00, and a line over itself or a later one is none.
const BROKEN: [&[DividedRow]; 10] = [
    &[AB, BC, ALL],
    &[AC, AB, BC],
    &[AC, AC, AB, BC, ALL],
    &[ALL, AC, AB, BC],
    &[(9999, &[(0, 1)]), AB, BC, ALL],
    &[(12000, &[(0, 1)]), AB, BC, ALL],
    &[(0, &[(0, 1)]), AB, BC, ALL],
    &[(10000, &[(0, 0)]), AB, BC, ALL],
    &[(10000, &[(0, 2)]), AB, BC, ALL],
    &[(10000, &[(1, 1)]), AB, BC, ALL],
];

/// Lines of which the last one, over all three others, is changed in one number.
const BROKEN_SUMS: [&[DividedRow]; 7] = [
    &[AC, AB, BC, (0, &[(3, 1), (4, 1), (5, 1)])],
    &[AC, AB, BC, (2, &[(3, 1), (4, 1), (5, 1)])],
    &[AC, AB, BC, (1, &[(3, 0), (4, 1), (5, 1)])],
    &[AC, AB, BC, (1, &[(3, 2), (4, 1), (5, 1)])],
    &[AC, AB, BC, (1, &[(2, 1), (4, 1), (5, 1)])],
    &[AC, AB, BC, (1, &[(4, 1), (4, 1), (5, 1)])],
    &[AC, AB, BC, (1, &[(3, 1), (4, 1), (6, 1)])],
];

/// Whether a check of the tree over these lines gives this answer.
fn is_said(alloc: Global, lines: &[DividedRow], said: &[TreeRow]) -> bool {
    let named = Named { cuts: &CUTS, lines };
    first_wrong(alloc, 30000, &named, said).is_none()
}

#[test]
fn changed_lines_prove_what_they_still_say(rt: HostRuntime) {
    for lines in &KEPT {
        assert!(rt; is_said(rt.alloc(), lines, &PROOF));
    }
}

#[test]
fn damaged_lines_are_found(rt: HostRuntime) {
    for lines in &BROKEN {
        assert!(rt; is_said(rt.alloc(), lines, &DAMAGED));
    }
}

#[test]
fn damaged_sums_are_found(rt: HostRuntime) {
    for lines in &BROKEN_SUMS {
        assert!(rt; is_said(rt.alloc(), lines, &DAMAGED));
    }
}
