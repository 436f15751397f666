ghost use Rattle.std.specs.Prelude.{◌≡◌, ◌<ℤ◌, ◌+ℤ◌, ◌*ℤ◌, ◌↔◌, pos, length, IsTrue};
ghost use Rattle.checked_fraction.specs.Terms.{num, IsNarrow};
ghost use Rattle.simplex_law.specs.Terms.{dot};
ghost use Rattle.simplex_core.specs.Terms.{entry_of};
ghost use Rattle.exact_tests.specs.Listed.{IsPackingNumber, Copies, entries_of};

use crate::numbers::is_narrow;
use checked_fraction::Row;
use net_core::List;
use simplex_core::{Column, Columns, Entry, Optimum, Price, SimplexFault, gains, solve};
use std::alloc::Global;

/// A column by its place in the list, or the slack of a row.
#[derive(Clone, Copy, PartialEq, Eq)]
pub(crate) enum Label {
    Slack(u32),
    Listed(usize),
}

/// A number for each of three rows.
pub(crate) type Three = (i64, i64, i64);

/// A column: what a unit of it gains, and takes of each row.
pub(crate) type Given = (i64, Three);

/// A number for each of three rows, which a packing program may have as a bound or an entry.
#[derive(Clone, Copy)]
struct Fitting {
    first: i64,
    second: i64,
    third: i64,
    ghost fits_first: { IsPackingNumber first },
    ghost fits_second: { IsPackingNumber second },
    ghost fits_third: { IsPackingNumber third },
}

/// A column with its entries in the three rows, of which some are positive.
#[derive(Clone, Copy)]
struct Shape {
    gain: i64,
    takes: Fitting,
    ghost narrow: { IsNarrow gain },
    ghost some: { pos 0 <ℤ ((takes.first +ℤ takes.second) +ℤ takes.third) },
}

/// A program of three rows and a list of columns. A row that isn't used has the bound 0.
#[derive(Drop)]
struct Program {
    alloc: Global,
    bounds: Fitting,
    shapes: List<Shape>,
}

impl Columns for Program {
    ghost use Rattle.exact_tests.specs.Listed.{three, IsListedColumn};
    ghost use Rattle.exact_tests.specs.declared.packing.Label.TheVariants.{Slack, Listed};

    type Name = Label;

    ghost rows = { λ p. 3 };

    ghost bound = { λ p. three p.bounds.first p.bounds.second p.bounds.third };

    ghost slack = { λ p. Slack };

    ghost is_listed = { λ p. IsListedColumn Listed (λ x. x.gain) (λ x. entries_of x.takes.first x.takes.second x.takes.third) p.shapes };

    fn rows(&self) -> u32 {
        3
    }

    fn bound(&self, row: u32) -> i64 {
        match row {
            0 => self.bounds.first,
            1 => self.bounds.second,
            _ => self.bounds.third,
        }
    }

    fn slack(&self, row: u32) -> Label {
        Label::Slack(row)
    }

    fn price(&mut self, duals: &Row) -> Price<Label> {
        let shapes = self.shapes.items();
        for i in 0..shapes.len() {
            let shape = &shapes[i];
            if is_gaining(duals, shape) {
                return found(self.alloc, i, shape);
            }
        }
        Price::Optimal
    }
}

fn entries_of(shape: &Shape) -> [Entry; 3]
    ensures { result ≡ entries_of shape.now.takes.first shape.now.takes.second shape.now.takes.third }
{
    [
        Entry {
            row: 0,
            value: shape.takes.first,
        },
        Entry {
            row: 1,
            value: shape.takes.second,
        },
        Entry {
            row: 2,
            value: shape.takes.third,
        },
    ]
}

fn is_gaining(duals: &Row, shape: &Shape) -> bool
    requires { length duals.now.nums ≡ 3 }
    ensures { IsTrue result ↔ (dot 3 (num duals.now.nums)
        (entry_of (entries_of shape.now.takes.first shape.now.takes.second shape.now.takes.third)) <ℤ
        (duals.now.den *ℤ shape.now.gain)) }
{
    gains(duals, shape.gain, &entries_of(shape))
}

fn found(alloc: Global, at: usize, shape: &Shape) -> Price<Label>
    ensures { Copies (Label.Listed at) shape.now.gain (entries_of shape.now.takes.first shape.now.takes.second shape.now.takes.third) result }
{
    match List::from_slice(alloc, &entries_of(shape)) {
        Ok(entries) => Price::Gain(Column {
            name: Label::Listed(at),
            gain: shape.gain,
            entries,
        }),
        Err(_) => Price::NoMemory,
    }
}

/// Whether a packing program may have the number as a bound or an entry.
fn fits(n: i64) -> bool
    ensures { IsTrue result → IsPackingNumber n }
{
    n >= 0 && is_narrow(n)
}

fn checked_three(three: Three) -> Option<Fitting> {
    let (first, second, third) = three;
    if fits(first) && fits(second) && fits(third) {
        Some(Fitting {
            first,
            second,
            third,
        })
    } else {
        None
    }
}

/// Whether no number is negative, and some number is positive.
fn are_some(first: i64, second: i64, third: i64) -> bool
    ensures { IsTrue result → pos 0 <ℤ ((first +ℤ second) +ℤ third) }
{
    first >= 0 && second >= 0 && third >= 0 && (first > 0 || second > 0 || third > 0)
}

fn shape_of(given: Given) -> Option<Shape> {
    let gain = given.0;
    let takes = checked_three(given.1)?;
    if is_narrow(gain) && are_some(takes.first, takes.second, takes.third) {
        Some(Shape { gain, takes })
    } else {
        None
    }
}

fn shapes_of(alloc: Global, given: &[Given]) -> Option<List<Shape>> {
    let mut shapes = List::new(alloc);
    for column in given {
        shapes.push(shape_of(*column)?).ok()?;
    }
    Some(shapes)
}

/// What `solve` answers for a program of these bounds and columns; `None` if a packing program may not have them.
pub(crate) fn solved(
    alloc: Global,
    bounds: Three,
    columns: &[Given],
) -> Option<Result<Optimum<Label>, SimplexFault<Label>>> {
    let mut program = Program {
        alloc,
        bounds: checked_three(bounds)?,
        shapes: shapes_of(alloc, columns)?,
    };
    Some(solve(alloc, &mut program))
}
