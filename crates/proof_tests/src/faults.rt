//! Damaged trees, with the first fault of each, as it was worked out by hand.
use crate::rows::worked;
use crate::texts::{LINED_TREE, TREE, changed, read};
use net_core::Problem;
use report_words::fault::ReportRefusal;
use std::alloc::Global;

/// The place of a line, what replaces the line, and the place and the kind of the first fault; `read` at 0 if there is none.
type Damaged = (usize, &'static [u8], u64, &'static str);

/// The triangle's tree with other lines in the place of one: left out, doubled, with a letter in a number, and with a number too many or too
/// few.
const DAMAGED: [Damaged; 27] = [
    (0, b"", 23, "limit"),
    (3, b"", 101, "limit"),
    (7, b"", 0, "read"),
    (12, b"", 0, "read"),
    (15, b"", 311, "ended"),
    (
        0,
        b"# box-cut 0 0 12000 1 0 1\n# box-cut 0 0 12000 1 0 1\n",
        49,
        "limit",
    ),
    (
        7,
        b"# box-cut 7 3 12000 0 1 0\n# box-cut 7 3 12000 0 1 0\n",
        231,
        "limit",
    ),
    (14, b"# closed 2 1 7\n# closed 2 1 7\n", 0, "read"),
    (15, b"# cheapest\n# cheapest\n", 324, "limit"),
    (0, b"# box-cut x 0 12000 1 0 1\n", 23, "number-not"),
    (1, b"# box-cut 1 O 12000 0 1 1\n", 51, "number-not"),
    (2, b"# box-cut 2 2 12000b 0 0 1\n", 79, "number-not"),
    (3, b"# box-cut 3 3 24000 1 1l 0\n", 113, "number-not"),
    (8, b"# split AC 0 01\n", 234, "number-not"),
    (9, b"# empty -4\n", 244, "number-not"),
    (14, b"# closed 2.0 1 7\n", 305, "number-not"),
    (14, b"# closed 2 1 7,\n", 309, "number-not"),
    (4, b"# box-cut 4 1 12000 0 0 1 0\n", 143, "limit"),
    (8, b"# split AC 0 1 1\n", 236, "token"),
    (9, b"# empty 4 4\n", 246, "token"),
    (14, b"# closed 2 1 7 1\n", 312, "ended"),
    (15, b"# cheapest 0\n", 322, "token"),
    (4, b"# box-cut 4 1 12000 0 0\n", 140, "limit"),
    (4, b"# box-cut 4 1\n", 130, "ended"),
    (8, b"# split AC 0\n", 233, "ended"),
    (9, b"# empty\n", 243, "ended"),
    (14, b"# closed\n", 304, "ended"),
];

/// Other words, names and places, numbers at their ends, and other white space.
const OTHER_WORDS: [Damaged; 25] = [
    (5, b"# box-cat 5 2 12000 1 0 1\n", 145, "token"),
    (10, b"# Split AB 0 1\n", 248, "token"),
    (15, b"# cheap\n", 313, "token"),
    (13, b"#\n", 287, "ended"),
    (13, b"empty 7\n", 286, "token"),
    (13, b"# ( empty 7 )\n", 288, "token"),
    (8, b"# split AD 0 1\n", 229, "unknown-name"),
    (8, b"# split AC ( 0 1\n", 232, "token"),
    (6, b"# box-cut 6 4 12000 1 0 0\n", 181, "limit"),
    (
        6,
        b"# box-cut 6 3 85070591730234615865843651857942052864 1 0 0\n",
        183,
        "number-large",
    ),
    (6, b"# box-cut 6 3 12000 1 0 4294967296\n", 193, "limit"),
    (10, b"# split AB 4294967296 1\n", 257, "limit"),
    (10, b"# split AB 0 18446744073709551616\n", 259, "limit"),
    (11, b"# empty 4294967296\n", 269, "limit"),
    (14, b"# closed 2 18446744073709551616 7\n", 307, "limit"),
    (14, b"# closed 2 1 4294967296\n", 309, "limit"),
    (9, b"# box-cut 8 1 12000 0 0 1\n", 238, "token"),
    (9, b"# line 8 10000 1 4\n", 238, "token"),
    (15, b"# cheapest\ncheapest\n", 322, "token"),
    (15, b"# cheapest\n#\n", 323, "limit"),
    (0, b"# box-cut 0 0 12000 1 0 1\r\n", 0, "read"),
    (8, b"# split AC 0 1\r\n", 0, "read"),
    (15, b"# cheapest\r\n", 0, "read"),
    (15, b"# cheapest # as told\n", 0, "read"),
    (15, b" \t# cheapest", 0, "read"),
];

/// Damages of the tree that has lines of each kind.
const DAMAGED_LINES: [Damaged; 19] = [
    (1, b"# line 2 10000 3 0\n", 46, "limit"),
    (1, b"# line 1 10k 3 0\n", 48, "number-not"),
    (1, b"# line 1 10000 3\n", 55, "ended"),
    (1, b"# line 1 10000 wide 0\n", 54, "number-not"),
    (1, b"", 47, "limit"),
    (2, b"# table 2 4294967296 failing 1 2\n", 68, "limit"),
    (2, b"# table 2 0 fails 1 2\n", 70, "token"),
    (2, b"# table 2 0\n", 69, "ended"),
    (2, b"# table 2 0 failing 4294967296\n", 78, "limit"),
    (3, b"# box-cut 3 1 12000 0 0 1\n", 84, "token"),
    (
        3,
        b"# table 3 0 plain 1\n# table 3 0 plain 1\n",
        110,
        "limit",
    ),
    (4, b"# split AC 0 1\n# table 4 0 plain 1\n", 128, "token"),
    (5, b"# stuck 1 1 0\n", 158, "ended"),
    (
        5,
        b"# stuck 1 Wide route 0 1 ( 1 2 3 ) ( link AB link BC link AC demand A ) common\n",
        155,
        "number-not",
    ),
    (
        5,
        b"# stuck 1 wide route 4 1 ( 1 2 3 ) ( link AB link BC link AC demand A ) common\n",
        166,
        "limit",
    ),
    (
        5,
        b"# stuck 1 wide route 0 1 ( 1 2 3 ) ( link AB link BC link AC demand B ) common\n",
        213,
        "unknown-name",
    ),
    (
        5,
        b"# stuck 1 wide route 0 1 ( 1 2 3 ) ( link AB link BC link AC demand A ) common common\n",
        224,
        "token",
    ),
    (7, b"# above 25.0001\n", 250, "number-fine"),
    (7, b"# above\n", 249, "ended"),
];

/// The place and the kind of the first fault of a text's tree; `None` if memory runs out.
fn fault_of(alloc: Global, p: &Problem, text: &[u8]) -> Option<(u64, &'static str)> {
    match read(alloc, p, text) {
        Ok(_) => Some((0, "read")),
        Err(ReportRefusal::Bad { at, kind }) => Some((at, kind.word())),
        Err(ReportRefusal::NoMemory) => None,
    }
}

/// Whether a tree with one line replaced has this first fault.
fn is_told(alloc: Global, p: &Problem, lines: &[&[u8]], row: &Damaged) -> bool {
    let (place, by, at, kind) = *row;
    match changed(alloc, lines, place, by) {
        Ok(text) => fault_of(alloc, p, text.items()) == Some((at, kind)),
        Err(_) => false,
    }
}

/// The first row whose fault isn't the expected one, for trees on the triangle.
fn first_untold(alloc: Global, p: &Problem, lines: &[&[u8]], rows: &[Damaged]) -> Option<usize> {
    for i in 0..rows.len() {
        if !is_told(alloc, p, lines, &rows[i]) {
            return Some(i);
        }
    }
    None
}

/// The first row whose fault isn't the expected one.
fn first_wrong(alloc: Global, lines: &[&[u8]], rows: &[Damaged]) -> Option<usize> {
    match worked(alloc, 0) {
        None => Some(rows.len()),
        Some(p) => first_untold(alloc, &p, lines, rows),
    }
}

#[test]
fn damaged_trees_have_their_faults(rt: HostRuntime) {
    let wrong = first_wrong(rt.alloc(), &TREE, &DAMAGED);
    assert!(rt; wrong.is_none(), "row {}", wrong.unwrap_or(0));
}

#[test]
fn trees_of_other_words_have_their_faults(rt: HostRuntime) {
    let wrong = first_wrong(rt.alloc(), &TREE, &OTHER_WORDS);
    assert!(rt; wrong.is_none(), "row {}", wrong.unwrap_or(0));
}

#[test]
fn damaged_lines_have_their_faults(rt: HostRuntime) {
    let wrong = first_wrong(rt.alloc(), &LINED_TREE, &DAMAGED_LINES);
    assert!(rt; wrong.is_none(), "row {}", wrong.unwrap_or(0));
}
