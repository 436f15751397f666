use crate::able::{PARALLEL_CUTS, TRIANGLE_CUTS, Tried, problem_of};
use crate::rows::LineRow::{Divided, Failing, Plain};
use crate::rows::{CutRow, LineRow, cuts, instance_of, tested};
use line_check::{Line, Multiplier, TableKind, Tested};
use net_core::{CutLine, Instance, List};
use std::alloc::Global;
use table_maker::{Part, TableTask, narrow_lines, set_cuts, table_lines};

/// Known cuts of the triangle, and the further ones of the node sets into which they part it.
type SetsRow = (&'static [CutRow], &'static [CutRow]);

/// If AB has no length, A and B are on one side; if BC has none and AB fails, B and C are. If each link has a length, all three nodes are
/// apart, but nothing has to leave B.
const SETS: [SetsRow; 6] = [
    (&[], &[]),
    (
        &[(0, &[0, 1, 1], 12000)],
        &[(2, &[0, 0, 1], 12000), (3, &[0, 1, 0], 12000)],
    ),
    (
        &[(0, &[1, 0, 1], 12000)],
        &[(1, &[0, 0, 1], 12000), (3, &[1, 0, 0], 12000)],
    ),
    (
        &[(1, &[0, 0, 1], 12000)],
        &[(0, &[1, 0, 1], 12000), (3, &[1, 0, 0], 12000)],
    ),
    (
        &[(0, &[0, 1, 1], 12000), (2, &[0, 0, 1], 12000)],
        &[(3, &[0, 1, 0], 12000)],
    ),
    (
        &[(0, &[1, 1, 1], 12000)],
        &[
            (0, &[1, 0, 1], 12000),
            (1, &[0, 0, 1], 12000),
            (3, &[1, 0, 0], 12000),
            (0, &[0, 1, 1], 12000),
            (2, &[0, 0, 1], 12000),
            (3, &[0, 1, 0], 12000),
        ],
    ),
];

/// Whether a cut is that of a row.
fn is_cut(found: &CutLine, row: &CutRow) -> bool {
    found.state.0 == row.0 && found.lengths.items() == row.1 && found.right == row.2
}

/// Whether cuts are those of rows, in this order.
fn are_cuts(found: &[CutLine], rows: &[CutRow]) -> bool {
    for i in 0..rows.len() {
        match found.get(i) {
            Some(cut) if is_cut(cut, &rows[i]) => {}
            _ => return false,
        }
    }
    found.len() == rows.len()
}

/// Whether the further cuts of a row are found on a network; `None` if memory runs out.
fn are_sets_found_on(alloc: Global, instance: &Instance, row: &SetsRow) -> Option<bool> {
    let known = cuts(alloc, row.0).ok()?;
    let found = set_cuts(alloc, instance, known.items()).ok()?;
    Some(are_cuts(found.items(), row.1))
}

/// Whether the further cuts of a row are found; `None` if memory runs out.
fn are_sets_found(alloc: Global, row: &SetsRow) -> Option<bool> {
    let p = problem_of(alloc, Tried::Triangle)?;
    are_sets_found_on(alloc, &instance_of(&p), row)
}

/// A network with cuts and lines over them.
#[derive(Clone, Copy)]
struct Given {
    tried: Tried,
    cuts: &'static [CutRow],
    lines: &'static [LineRow],
}

/// All cuts of the triangle.
const TRIANGLE: Given = Given {
    tried: Tried::Triangle,
    cuts: &TRIANGLE_CUTS,
    lines: &[],
};

/// Lines that ask for 4096 and 4097.
const AT_THE_LIMIT: Given = Given {
    tried: Tried::Triangle,
    cuts: &[(0, &[0, 1, 1], 12000)],
    lines: &[Divided(3000, &[(0, 1024)]), Divided(12000, &[(0, 4097)])],
};

/// Cuts whose right sides aren't their own.
const REFUSED: Given = Given {
    tried: Tried::Triangle,
    cuts: &[(0, &[0, 1, 1], 12001), (3, &[1, 0, 0], 11999)],
    lines: &[],
};

/// The cut of C where nothing fails, and its narrow line, twice.
const AT_C: Given = Given {
    tried: Tried::Triangle,
    cuts: &[(0, &[0, 1, 1], 12000)],
    lines: &[Divided(2000, &[(0, 1)]), Divided(2000, &[(0, 1)])],
};

/// The cut of C where BC fails, and its narrow line.
const WHERE_BC_FAILS: Given = Given {
    tried: Tried::Triangle,
    cuts: &[(2, &[0, 0, 1], 12000)],
    lines: &[Divided(2000, &[(0, 1)])],
};

/// A node with three links to the rest, which need 6 by modules of 2 and 5, where nothing fails.
const THREE_LINKS: Given = Given {
    tried: Tried::Parallel,
    cuts: &[(0, &[1, 1, 1], 30000)],
    lines: &[Divided(5000, &[(0, 1)])],
};

/// Narrow lines over what is given.
type NarrowRow = (&'static Given, &'static [LineRow]);

/// What the triangle's cuts need is 12000, and a module gives 10000 of it, or nothing: all over 2000. The three links' modules give 10000
/// and 25000 of 30000: all over 5000, and what is narrow then stays as it is. What needs 4097 is halved.
const NARROW: [NarrowRow; 4] = [
    (
        &TRIANGLE,
        &[
            Divided(2000, &[(0, 1)]),
            Divided(2000, &[(1, 1)]),
            Divided(2000, &[(2, 1)]),
            Divided(2000, &[(3, 1)]),
        ],
    ),
    (
        &AT_THE_LIMIT,
        &[Divided(2000, &[(0, 1)]), Divided(2, &[(2, 1)])],
    ),
    (&REFUSED, &[]),
    (&THREE_LINKS, &[Divided(5000, &[(0, 1)])]),
];

/// How much of each module a point has: link, place and numerator, and the common denominator.
type PointRow = (&'static [(usize, usize, u128)], u128);

/// What a table line is made of.
#[derive(Clone, Copy)]
enum Place {
    Triangle,
    AtC,
    WhereBcFails,
    ThreeLinks,
}

/// Table lines from given lines: the point, the greatest weight, the most lines, and those that are made.
type TableRow = (Place, PointRow, u32, usize, &'static [LineRow]);

/// 0.6 of a module on BC and on AC.
const LITTLE: PointRow = (&[(1, 0, 6), (2, 0, 6)], 10);

/// At C two modules cover what is needed, and three if one of them has failed. In parts of 20 a module weighs 10, and two make 20; with a
/// failure it weighs 7, and three make 21. With 0.6 on each link a point has 12 of 20, and 8.4 of 21; with one on each it has 20, and 14 of
/// 21; with 2.9 together 20.3 of 21; and with 2.99999 it misses by less than a ten-thousandth. A module that isn't there gives nothing.
///
/// If BC fails, only AC is left, and nothing more may fail.
///
/// Over the three links the kinds cost 5000 and 9000. A cover costs at least 14000, by one module of each kind, and 20000 if a largest one
/// has failed, by four small ones. In parts of 20 the kinds weigh 8 and 13, and with a failure 5 and 9, where four small ones weigh 20.
const TABLES_AT_C: [TableRow; 12] = [
    (
        Place::AtC,
        LITTLE,
        20,
        9,
        &[Failing(1, &[7]), Plain(1, &[10])],
    ),
    (Place::AtC, LITTLE, 20, 1, &[Failing(1, &[7])]),
    (Place::AtC, LITTLE, 20, 0, &[]),
    (
        Place::AtC,
        (&[(1, 0, 1), (2, 0, 1)], 1),
        20,
        9,
        &[Failing(1, &[7])],
    ),
    (
        Place::AtC,
        (&[(1, 0, 20), (2, 0, 9)], 10),
        20,
        9,
        &[Failing(1, &[7])],
    ),
    (Place::AtC, (&[(2, 0, 299999)], 100000), 20, 9, &[]),
    (Place::AtC, (&[(1, 0, 1), (2, 0, 2)], 1), 20, 9, &[]),
    (
        Place::AtC,
        (&[(0, 0, 9), (2, 1, 9), (3, 0, 9), (1, 0, 1), (2, 0, 1)], 1),
        20,
        9,
        &[Failing(1, &[7])],
    ),
    (Place::AtC, (&[], 0), 20, 9, &[]),
    (Place::AtC, LITTLE, 0, 9, &[]),
    (
        Place::AtC,
        LITTLE,
        1,
        9,
        &[Failing(1, &[1]), Plain(1, &[1])],
    ),
    (
        Place::AtC,
        LITTLE,
        4294967295,
        9,
        &[Failing(1, &[1431655765]), Plain(1, &[2147483648])],
    ),
];

/// Table lines of the other networks: at C where BC fails, on the triangle, and at the node with three links.
const OTHER_TABLES: [TableRow; 6] = [
    (
        Place::WhereBcFails,
        (&[(2, 0, 1)], 1),
        20,
        9,
        &[Plain(1, &[10])],
    ),
    (Place::Triangle, LITTLE, 20, 9, &[]),
    (
        Place::ThreeLinks,
        (&[], 1),
        20,
        9,
        &[Plain(1, &[8, 13]), Failing(1, &[5, 9])],
    ),
    (
        Place::ThreeLinks,
        (&[(0, 1, 1), (1, 1, 1)], 1),
        20,
        9,
        &[Failing(1, &[5, 9])],
    ),
    (
        Place::ThreeLinks,
        (&[(0, 1, 1)], 1),
        14,
        9,
        &[Failing(1, &[4, 7]), Plain(1, &[5, 9])],
    ),
    (
        Place::ThreeLinks,
        (&[(0, 1, 1), (1, 1, 1), (2, 0, 1)], 1),
        20,
        9,
        &[],
    ),
];

/// Whether a line has terms.
fn are_terms(found: &[Multiplier], terms: &[(u32, u64)]) -> bool {
    for i in 0..terms.len() {
        match found.get(i) {
            Some(term) if (term.cut, term.num) == terms[i] => {}
            _ => return false,
        }
    }
    found.len() == terms.len()
}

/// Whether a line is a table line of these.
fn is_table(line: &Line, at: u32, as_kind: TableKind, by: &[u32]) -> bool {
    match line {
        Line::Divided { .. } => false,
        Line::Table {
            line,
            kind,
            weights,
        } => *line == at && *kind == as_kind && weights.items() == by,
    }
}

/// Whether a line is a divided one of these.
fn is_divided(line: &Line, over: u128, of: &[(u32, u64)]) -> bool {
    match line {
        Line::Divided { divisor, terms } => *divisor == over && are_terms(terms.items(), of),
        Line::Table { .. } => false,
    }
}

/// Whether a line is that of a row.
fn is_line(line: &Line, row: &LineRow) -> bool {
    match row {
        Divided(divisor, terms) => is_divided(line, *divisor, terms),
        Plain(at, weights) => is_table(line, *at, TableKind::Plain, weights),
        Failing(at, weights) => is_table(line, *at, TableKind::Failing, weights),
    }
}

/// Whether lines are those of rows, in this order.
fn are_lines(found: &[Line], rows: &[LineRow]) -> bool {
    for i in 0..rows.len() {
        match found.get(i) {
            Some(line) if is_line(line, &rows[i]) => {}
            _ => return false,
        }
    }
    found.len() == rows.len()
}

/// Whether these narrow lines are made of lines; `None` if memory runs out.
fn are_narrow_of(
    alloc: Global,
    instance: &Instance,
    all: &[Tested],
    made: &[LineRow],
) -> Option<bool> {
    let found = narrow_lines(alloc, instance, all).ok()?;
    Some(are_lines(found.items(), made))
}

/// Whether a row's narrow lines are made on a network; `None` if memory runs out.
fn are_narrow_on(alloc: Global, instance: &Instance, row: &NarrowRow) -> Option<bool> {
    let (given, made) = row;
    let all = tested(alloc, instance, given.cuts, given.lines)?;
    are_narrow_of(alloc, instance, all.items(), made)
}

/// Whether a row's narrow lines are made; `None` if memory runs out.
fn are_narrow_made(alloc: Global, row: &NarrowRow) -> Option<bool> {
    let p = problem_of(alloc, row.0.tried)?;
    are_narrow_on(alloc, &instance_of(&p), row)
}

fn parts(alloc: Global, rows: &[(usize, usize, u128)]) -> Option<List<Part>> {
    let mut point = List::new(alloc);
    for (link, module, parts) in rows {
        let part = Part {
            link: *link,
            module: *module,
            parts: *parts,
        };
        point.push(part).ok()?;
    }
    Some(point)
}

/// Whether a row's table lines are made of lines at a point; `None` if memory runs out.
fn are_tables_at(
    alloc: Global,
    instance: &Instance,
    all: &[Tested],
    point: &[Part],
    row: &TableRow,
) -> Option<bool> {
    let (_, (_, den), most_weight, most, made) = row;
    let task = TableTask {
        instance,
        tested: all,
        point,
        den: *den,
        most_weight: *most_weight,
    };
    let found = table_lines(alloc, &task, *most).ok()?;
    Some(are_lines(found.items(), made))
}

/// Whether a row's table lines are made of lines; `None` if memory runs out.
fn are_tables_of(
    alloc: Global,
    instance: &Instance,
    all: &[Tested],
    row: &TableRow,
) -> Option<bool> {
    let point = parts(alloc, row.1.0)?;
    are_tables_at(alloc, instance, all, point.items(), row)
}

/// Whether a row's table lines are made on a network; `None` if memory runs out.
fn are_tables_on(
    alloc: Global,
    instance: &Instance,
    given: &Given,
    row: &TableRow,
) -> Option<bool> {
    let all = tested(alloc, instance, given.cuts, given.lines)?;
    are_tables_of(alloc, instance, all.items(), row)
}

/// Whether a row's table lines are made of what is given; `None` if memory runs out.
fn are_tables_over(alloc: Global, given: &Given, row: &TableRow) -> Option<bool> {
    let p = problem_of(alloc, given.tried)?;
    are_tables_on(alloc, &instance_of(&p), given, row)
}

/// Whether a row's table lines are made; `None` if memory runs out.
fn are_tables_made(alloc: Global, row: &TableRow) -> Option<bool> {
    match row.0 {
        Place::Triangle => are_tables_over(alloc, &TRIANGLE, row),
        Place::AtC => are_tables_over(alloc, &AT_C, row),
        Place::WhereBcFails => are_tables_over(alloc, &WHERE_BC_FAILS, row),
        Place::ThreeLinks => are_tables_over(alloc, &THREE_LINKS, row),
    }
}

/// The first row whose further cuts aren't found.
fn first_row_missed(alloc: Global) -> Option<usize> {
    for i in 0..SETS.len() {
        if are_sets_found(alloc, &SETS[i]) != Some(true) {
            return Some(i);
        }
    }
    None
}

#[test]
fn cuts_of_node_sets_are_found(rt: HostRuntime) {
    let wrong = first_row_missed(rt.alloc());
    assert!(rt; wrong.is_none(), "row {}", wrong.unwrap_or(0));
}

/// The first row whose narrow lines aren't made.
fn first_narrow_missed(alloc: Global, rows: &[NarrowRow]) -> Option<usize> {
    for i in 0..rows.len() {
        if are_narrow_made(alloc, &rows[i]) != Some(true) {
            return Some(i);
        }
    }
    None
}

#[test]
fn narrow_lines_are_made(rt: HostRuntime) {
    let wrong = first_narrow_missed(rt.alloc(), &NARROW);
    assert!(rt; wrong.is_none(), "row {}", wrong.unwrap_or(0));
}

/// The first row whose table lines aren't made.
fn first_table_missed(alloc: Global, rows: &[TableRow]) -> Option<usize> {
    for i in 0..rows.len() {
        if are_tables_made(alloc, &rows[i]) != Some(true) {
            return Some(i);
        }
    }
    None
}

#[test]
fn table_lines_are_made(rt: HostRuntime) {
    let wrong = first_table_missed(rt.alloc(), &TABLES_AT_C);
    assert!(rt; wrong.is_none(), "row {}", wrong.unwrap_or(0));
}

#[test]
fn table_lines_are_made_of_other_lines(rt: HostRuntime) {
    let wrong = first_table_missed(rt.alloc(), &OTHER_TABLES);
    assert!(rt; wrong.is_none(), "row {}", wrong.unwrap_or(0));
}
