//! Tests of a tree over table lines, damaged line by line and number by number, with the results of each damage worked out by hand.
use crate::rows::worked;
use crate::tables::Said::{Checked, Fault};
use crate::texts::{changed, read};
use crate::trees::answer_to;
use net_core::Problem;
use report_words::fault::ReportRefusal;
use std::alloc::Global;
use tree_check::TreeAnswer;
use tree_check::TreeAnswer::{Accepted, Rejected};

/// At C two modules of BC and AC are needed, and three where one has failed, by the table line 4; of AC alone two where AB has failed, by
/// the table line 5. So AC is at 2 at least, and three modules cost 15.00.
const TREE: [&[u8]; 10] = [
    b"# box-cut 0 0 12000 0 1 1\n",
    b"# box-cut 1 1 12000 0 0 1\n",
    b"# line 2 10000 1 0\n",
    b"# line 3 5000 1 1\n",
    b"# table 4 2 failing 1\n",
    b"# table 5 3 plain 1\n",
    b"# split AC 0 1\n",
    b"# empty 5\n",
    b"# spent 1 5000 4\n",
    b"# above 15.000\n",
];

/// The result for a tree: the place and the kind of its first fault, or what a check says.
#[derive(Clone, Copy)]
enum Said {
    Fault(u64, &'static str),
    Checked(TreeAnswer),
}

/// The place of a line, what replaces the line, and the result.
type Damage = (usize, &'static [u8], Said);

/// The tree as it is, and each line left out.
///
/// Here and below each line is also doubled, and each number raised and lowered by one, or another kind of table taken.
/// A cut that isn't one takes away the lines that are over it. A table with a weight too few doesn't hold, nor does a failing one over a
/// line that isn't robust. A length of 1 on AB too prices its modules at their cost. A divisor of 9999 leaves two modules in place of
/// three. With the numerator 4999 the value is 14.999, and over the denominator 2 it is 12.500, which are 15.00 in whole modules.
const LEFT_OUT: [Damage; 11] = [
    (10, b"", Checked(Accepted)),
    (0, b"", Fault(23, "limit")),
    (1, b"", Fault(46, "limit")),
    (2, b"", Fault(72, "limit")),
    (3, b"", Fault(92, "limit")),
    (4, b"", Fault(110, "limit")),
    (5, b"", Checked(Rejected(1))),
    (6, b"", Checked(Rejected(0))),
    (7, b"", Checked(Rejected(2))),
    (8, b"", Checked(Rejected(2))),
    (9, b"", Fault(186, "ended")),
];

/// Each line doubled.
const DOUBLED: [Damage; 10] = [
    (
        0,
        b"# box-cut 0 0 12000 0 1 1\n# box-cut 0 0 12000 0 1 1\n",
        Fault(49, "limit"),
    ),
    (
        1,
        b"# box-cut 1 1 12000 0 0 1\n# box-cut 1 1 12000 0 0 1\n",
        Fault(75, "limit"),
    ),
    (
        2,
        b"# line 2 10000 1 0\n# line 2 10000 1 0\n",
        Fault(91, "limit"),
    ),
    (
        3,
        b"# line 3 5000 1 1\n# line 3 5000 1 1\n",
        Fault(109, "limit"),
    ),
    (
        4,
        b"# table 4 2 failing 1\n# table 4 2 failing 1\n",
        Fault(132, "limit"),
    ),
    (
        5,
        b"# table 5 3 plain 1\n# table 5 3 plain 1\n",
        Fault(152, "limit"),
    ),
    (6, b"# split AC 0 1\n# split AC 0 1\n", Checked(Rejected(1))),
    (7, b"# empty 5\n# empty 5\n", Checked(Rejected(2))),
    (
        8,
        b"# spent 1 5000 4\n# spent 1 5000 4\n",
        Checked(Rejected(3)),
    ),
    (9, b"# above 15.000\n# above 15.000\n", Fault(203, "limit")),
];

/// Changes of the numbers of the cuts.
const CUTS: [Damage; 19] = [
    (0, b"# box-cut 1 0 12000 0 1 1\n", Fault(23, "limit")),
    (0, b"# box-cut 0 1 12000 0 1 1\n", Checked(Rejected(2))),
    (0, b"# box-cut 0 0 12001 0 1 1\n", Checked(Rejected(2))),
    (0, b"# box-cut 0 0 11999 0 1 1\n", Checked(Rejected(2))),
    (0, b"# box-cut 0 0 12000 1 1 1\n", Checked(Accepted)),
    (0, b"# box-cut 0 0 12000 0 2 1\n", Checked(Rejected(2))),
    (0, b"# box-cut 0 0 12000 0 0 1\n", Checked(Rejected(2))),
    (0, b"# box-cut 0 0 12000 0 1 2\n", Checked(Rejected(2))),
    (0, b"# box-cut 0 0 12000 0 1 0\n", Checked(Rejected(2))),
    (1, b"# box-cut 2 1 12000 0 0 1\n", Fault(49, "limit")),
    (1, b"# box-cut 0 1 12000 0 0 1\n", Fault(49, "limit")),
    (1, b"# box-cut 1 2 12000 0 0 1\n", Checked(Accepted)),
    (1, b"# box-cut 1 0 12000 0 0 1\n", Checked(Rejected(1))),
    (1, b"# box-cut 1 1 12001 0 0 1\n", Checked(Rejected(1))),
    (1, b"# box-cut 1 1 11999 0 0 1\n", Checked(Rejected(1))),
    (1, b"# box-cut 1 1 12000 1 0 1\n", Checked(Rejected(1))),
    (1, b"# box-cut 1 1 12000 0 1 1\n", Checked(Rejected(1))),
    (1, b"# box-cut 1 1 12000 0 0 2\n", Checked(Rejected(1))),
    (1, b"# box-cut 1 1 12000 0 0 0\n", Checked(Rejected(1))),
];

/// Changes of the numbers of the divided lines.
const LINES: [Damage; 15] = [
    (2, b"# line 3 10000 1 0\n", Fault(72, "limit")),
    (2, b"# line 1 10000 1 0\n", Fault(72, "limit")),
    (2, b"# line 2 10001 1 0\n", Checked(Accepted)),
    (2, b"# line 2 9999 1 0\n", Checked(Rejected(4))),
    (2, b"# line 2 10000 2 0\n", Checked(Accepted)),
    (2, b"# line 2 10000 0 0\n", Checked(Rejected(2))),
    (2, b"# line 2 10000 1 1\n", Checked(Rejected(2))),
    (3, b"# line 4 5000 1 1\n", Fault(91, "limit")),
    (3, b"# line 2 5000 1 1\n", Fault(91, "limit")),
    (3, b"# line 3 5001 1 1\n", Checked(Accepted)),
    (3, b"# line 3 4999 1 1\n", Checked(Rejected(1))),
    (3, b"# line 3 5000 2 1\n", Checked(Accepted)),
    (3, b"# line 3 5000 0 1\n", Checked(Rejected(1))),
    (3, b"# line 3 5000 1 2\n", Checked(Rejected(1))),
    (3, b"# line 3 5000 1 0\n", Checked(Rejected(1))),
];

/// Changes of the numbers of the table lines, and of the kind of a table.
const TABLES: [Damage; 14] = [
    (4, b"# table 5 2 failing 1\n", Fault(110, "limit")),
    (4, b"# table 3 2 failing 1\n", Fault(110, "limit")),
    (4, b"# table 4 3 failing 1\n", Checked(Rejected(2))),
    (4, b"# table 4 1 failing 1\n", Checked(Rejected(2))),
    (4, b"# table 4 2 failing 2\n", Checked(Rejected(2))),
    (4, b"# table 4 2 failing 0\n", Checked(Rejected(4))),
    (4, b"# table 4 2 plain 1\n", Checked(Rejected(4))),
    (5, b"# table 6 3 plain 1\n", Fault(132, "limit")),
    (5, b"# table 4 3 plain 1\n", Fault(132, "limit")),
    (5, b"# table 5 4 plain 1\n", Checked(Rejected(1))),
    (5, b"# table 5 2 plain 1\n", Checked(Rejected(1))),
    (5, b"# table 5 3 plain 2\n", Checked(Accepted)),
    (5, b"# table 5 3 plain 0\n", Checked(Rejected(1))),
    (5, b"# table 5 3 failing 1\n", Checked(Rejected(1))),
];

/// Changes of the numbers of the nodes, and of what the tree shows.
const NODES: [Damage; 13] = [
    (6, b"# split AC 1 1\n", Checked(Rejected(0))),
    (6, b"# split AC 0 2\n", Checked(Rejected(1))),
    (6, b"# split AC 0 0\n", Checked(Accepted)),
    (7, b"# empty 6\n", Checked(Rejected(1))),
    (7, b"# empty 4\n", Checked(Rejected(1))),
    (8, b"# spent 2 5000 4\n", Checked(Accepted)),
    (8, b"# spent 0 5000 4\n", Checked(Rejected(2))),
    (8, b"# spent 1 5001 4\n", Checked(Rejected(2))),
    (8, b"# spent 1 4999 4\n", Checked(Accepted)),
    (8, b"# spent 1 5000 5\n", Checked(Rejected(4))),
    (8, b"# spent 1 5000 3\n", Checked(Rejected(2))),
    (9, b"# above 15.001\n", Checked(Rejected(4))),
    (9, b"# above 14.999\n", Checked(Rejected(4))),
];

/// Whether a damaged tree has this result.
fn is_said(alloc: Global, p: &Problem, row: &Damage) -> bool {
    let (place, by, said) = *row;
    let Ok(text) = changed(alloc, &TREE, place, by) else {
        return false;
    };
    match (read(alloc, p, text.items()), said) {
        (Ok(tree), Checked(answer)) => answer_to(alloc, p, tree) == Some(answer),
        (Err(ReportRefusal::Bad { at, kind }), Fault(place, word)) => {
            (at, kind.word()) == (place, word)
        }
        _ => false,
    }
}

/// The first row whose result isn't the expected one, for trees on the triangle.
fn first_unsaid(alloc: Global, p: &Problem, rows: &[Damage]) -> Option<usize> {
    for i in 0..rows.len() {
        if !is_said(alloc, p, &rows[i]) {
            return Some(i);
        }
    }
    None
}

/// The first row whose result isn't the expected one.
fn first_wrong(alloc: Global, rows: &[Damage]) -> Option<usize> {
    match worked(alloc, 0) {
        None => Some(rows.len()),
        Some(p) => first_unsaid(alloc, &p, rows),
    }
}

#[test]
fn lines_left_out_are_found(rt: HostRuntime) {
    let wrong = first_wrong(rt.alloc(), &LEFT_OUT);
    assert!(rt; wrong.is_none(), "row {}", wrong.unwrap_or(0));
}

#[test]
fn doubled_lines_are_found(rt: HostRuntime) {
    let wrong = first_wrong(rt.alloc(), &DOUBLED);
    assert!(rt; wrong.is_none(), "row {}", wrong.unwrap_or(0));
}

#[test]
fn damaged_cuts_are_found(rt: HostRuntime) {
    let wrong = first_wrong(rt.alloc(), &CUTS);
    assert!(rt; wrong.is_none(), "row {}", wrong.unwrap_or(0));
}

#[test]
fn damaged_lines_are_found(rt: HostRuntime) {
    let wrong = first_wrong(rt.alloc(), &LINES);
    assert!(rt; wrong.is_none(), "row {}", wrong.unwrap_or(0));
}

#[test]
fn damaged_tables_are_found(rt: HostRuntime) {
    let wrong = first_wrong(rt.alloc(), &TABLES);
    assert!(rt; wrong.is_none(), "row {}", wrong.unwrap_or(0));
}

#[test]
fn damaged_nodes_are_found(rt: HostRuntime) {
    let wrong = first_wrong(rt.alloc(), &NODES);
    assert!(rt; wrong.is_none(), "row {}", wrong.unwrap_or(0));
}
