use line_check::tested_lines::tested_lines;
use line_check::{Inequality, Line, Multiplier, TableKind, Tested};
use net_core::{CutLine, Instance, List, NoMemory, Problem, StateId};
use std::alloc::Global;
use worked_networks::{problem, triangle};

/// A cut: its state, its lengths and its right side.
pub(crate) type CutRow = (u32, &'static [u32], u128);

/// A line over earlier ones.
#[derive(Clone, Copy)]
pub(crate) enum LineRow {
    /// A divisor, and indices with numerators.
    Divided(u128, &'static [(u32, u64)]),
    /// An index, and a weight for each kind.
    Plain(u32, &'static [u32]),
    Failing(u32, &'static [u32]),
}

/// What is expected of a line: the coefficients of three links with one module each, and the right side; `None` if it doesn't hold.
pub(crate) type Expected = Option<([u128; 3], u128)>;

pub(crate) fn cuts(alloc: Global, rows: &[CutRow]) -> Result<List<CutLine>, NoMemory> {
    let mut cuts = List::new(alloc);
    for (state, lengths, right) in rows {
        cuts.push(CutLine {
            state: StateId(*state),
            lengths: List::from_slice(alloc, lengths)?,
            right: *right,
        })?;
    }
    Ok(cuts)
}

/// Terms of a line: indices of earlier ones with their numerators.
pub(crate) fn terms(alloc: Global, rows: &[(u32, u64)]) -> Result<List<Multiplier>, NoMemory> {
    let mut terms = List::new(alloc);
    for (cut, num) in rows {
        terms.push(Multiplier {
            cut: *cut,
            num: *num,
        })?;
    }
    Ok(terms)
}

fn table(alloc: Global, line: u32, kind: TableKind, weights: &[u32]) -> Result<Line, NoMemory> {
    Ok(Line::Table {
        line,
        kind,
        weights: List::from_slice(alloc, weights)?,
    })
}

fn line(alloc: Global, row: &LineRow) -> Result<Line, NoMemory> {
    match row {
        LineRow::Divided(divisor, rows) => Ok(Line::Divided {
            divisor: *divisor,
            terms: terms(alloc, rows)?,
        }),
        LineRow::Plain(line, weights) => table(alloc, *line, TableKind::Plain, weights),
        LineRow::Failing(line, weights) => table(alloc, *line, TableKind::Failing, weights),
    }
}

pub(crate) fn lines(alloc: Global, rows: &[LineRow]) -> Result<List<Line>, NoMemory> {
    let mut lines = List::new(alloc);
    for row in rows {
        lines.push(line(alloc, row)?)?;
    }
    Ok(lines)
}

/// The triangle of links with modules of 10.00 for 5.00 and so much installed, a demand of 12.00 from A to C, and each link failing alone.
pub(crate) fn worked(alloc: Global, fixed: u64) -> Option<Problem> {
    problem(alloc, triangle(alloc, fixed).ok()?, &[(0, 2, 12000)]).ok()
}

/// The instance of a problem.
pub(crate) fn instance_of(p: &Problem) -> Instance {
    Instance {
        net: &p.net,
        states: &p.states,
        demands: &p.demands,
    }
}

/// Lines, tested after cuts.
fn tested_after(
    alloc: Global,
    instance: &Instance,
    cut_rows: &[CutRow],
    lines: &[Line],
) -> Option<List<Tested>> {
    let cuts = cuts(alloc, cut_rows).ok()?;
    tested_lines(alloc, instance, cuts.items(), lines).ok()
}

/// Cuts and lines, tested.
pub(crate) fn tested(
    alloc: Global,
    instance: &Instance,
    cut_rows: &[CutRow],
    line_rows: &[LineRow],
) -> Option<List<Tested>> {
    let lines = lines(alloc, line_rows).ok()?;
    tested_after(alloc, instance, cut_rows, lines.items())
}

/// Whether the coefficients of links of one module each are these.
fn are_coefs(found: &[List<u128>], coefs: &[u128]) -> bool {
    if found.len() != coefs.len() {
        return false;
    }
    for e in 0..found.len() {
        if found[e].items() != &coefs[e..e + 1] {
            return false;
        }
    }
    true
}

/// Whether an inequality has these coefficients and this right side, and nothing is given.
fn is_inequality(line: &Inequality, wanted: &([u128; 3], u128)) -> bool {
    line.given == 0 && line.right == wanted.1 && are_coefs(line.coefs.items(), wanted.0.as_slice())
}

/// Whether a line is as expected.
fn is_expected(tested: &Tested, expected: &Expected) -> bool {
    match expected {
        None => !tested.sound,
        Some(wanted) => tested.sound && is_inequality(&tested.line, wanted),
    }
}

/// The lines of rows that expect something of them.
fn lines_of(alloc: Global, rows: &[(LineRow, Expected)]) -> Result<List<Line>, NoMemory> {
    let mut lines = List::new(alloc);
    for (row, _) in rows {
        lines.push(line(alloc, row)?)?;
    }
    Ok(lines)
}

/// The lines of rows that expect something of them, tested after cuts.
fn tested_of(
    alloc: Global,
    instance: &Instance,
    cut_rows: &[CutRow],
    rows: &[(LineRow, Expected)],
) -> Option<List<Tested>> {
    let lines = lines_of(alloc, rows).ok()?;
    tested_after(alloc, instance, cut_rows, lines.items())
}

/// The first row whose line isn't as expected. The rows' lines follow one another from the place `first` on.
fn first_unlike(all: &[Tested], first: usize, rows: &[(LineRow, Expected)]) -> Option<usize> {
    for i in 0..rows.len() {
        match all.get(first.saturating_add(i)) {
            Some(tested) if is_expected(tested, &rows[i].1) => {}
            _ => return Some(i),
        }
    }
    None
}

/// The first line that isn't as expected, where each comes after the cuts and all lines before it.
pub(crate) fn first_wrong(
    alloc: Global,
    fixed: u64,
    cut_rows: &[CutRow],
    rows: &[(LineRow, Expected)],
) -> Option<usize> {
    let Some(p) = worked(alloc, fixed) else {
        return Some(rows.len());
    };
    match tested_of(alloc, &instance_of(&p), cut_rows, rows) {
        Some(all) => first_unlike(all.items(), cut_rows.len(), rows),
        None => Some(rows.len()),
    }
}
