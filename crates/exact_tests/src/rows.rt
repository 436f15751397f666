ghost use Rattle.std.specs.Prelude.{◌≡◌, ℕ, ◌<◌, ◌≤◌, ◌^◌, IsTrue, IfSome, length, unsigned_abs};
ghost use Rattle.checked_fraction.specs.Terms.{num};

use crate::numbers::is_narrow;
use checked_fraction::{Row, WideNumber, combine, lower, rescale};
use std::alloc::Global;

/// Two numerators and their denominator.
type Over = ([i128; 2], i64);

/// The place and value of a number that is too wide.
type Wide = Option<(u32, i128)>;

fn are_small(raw: &[i128; 2]) -> bool
    ensures { IsTrue result → (k : ℕ) → k < length raw.now → unsigned_abs (num raw.now k) ≤ 2 ^ 124 }
{
    let [first, second] = raw;
    first.unsigned_abs() <= 1 << 124 && second.unsigned_abs() <= 1 << 124
}

/// What `lower` answers for the numbers; `None` if they are too great for it.
fn lower_to(row: &mut Row, of: &Over) -> Option<Result<(), WideNumber>>
    requires { length row.old.nums ≡ 2 }
    ensures { length row.new.nums ≡ 2 }
{
    let (raw, whole) = of;
    if are_small(raw) && is_narrow(*whole) && *whole > 0 {
        Some(lower(row, raw, whole))
    } else {
        None
    }
}

/// The row of these numbers in lowest terms.
fn row_of(alloc: Global, of: &Over) -> Option<Row>
    ensures { IfSome result (λ row. length row.nums ≡ 2) }
{
    let mut row = Row::unit(alloc, 2, 0).ok()?;
    match lower_to(&mut row, of) {
        Some(Ok(())) => Some(row),
        _ => None,
    }
}

/// Whether the row has these numbers.
fn is_row(row: &Row, want: &Over) -> bool {
    let [first, second] = row.nums() else {
        return false;
    };
    *first as i128 == want.0[0] && *second as i128 == want.0[1] && row.den() == want.1
}

/// Whether the call answered as a row says.
fn is_answer(answer: &Result<(), WideNumber>, want: &Wide) -> bool {
    match (answer, want) {
        (Ok(()), None) => true,
        (Err(wide), Some((at, value))) => wide.at == *at && wide.value == *value,
        _ => false,
    }
}

/// Whether the unit row of three numbers has a 1 in the middle.
fn is_unit(alloc: Global) -> Option<bool> {
    let row = Row::unit(alloc, 3, 1).ok()?;
    Some(row.nums() == [0, 1, 0].as_slice() && row.den() == 1)
}

#[test]
fn unit_rows(rt: HostRuntime) {
    assert!(rt; is_unit(rt.alloc()).unwrap_or(false));
}

/// The numbers of a row are below this in absolute value.
const LIMIT: i128 = 1 << 62;

/// A row, a factor, the pivot row and its pivot number, the number that is too wide, if any, and the row after the call. The call takes the
/// pivot row off the row, times the factor over the pivot number.
type CombineRow = (Over, i64, Over, i64, Wide, Over);

const COMBINED: [CombineRow; 5] = [
    (
        ([0, 1], 1),
        -(1 << 61),
        ([1, 0], 1),
        1,
        None,
        ([1 << 61, 1], 1),
    ),
    (
        ([1 << 61, 1], 1),
        -(1 << 61),
        ([1, 0], 1),
        1,
        Some((0, LIMIT)),
        ([1 << 61, 1], 1),
    ),
    (
        ([1 << 61, 1], 1),
        1 - (1 << 61),
        ([1, 0], 1),
        1,
        None,
        ([LIMIT - 1, 1], 1),
    ),
    (([2, 1], 1), -3, ([0, 1], 1), 1, None, ([2, 4], 1)),
    (([1, 2], 3), 2, ([4, 1], 1), 6, None, ([-1, 5], 9)),
];

fn combine_so(row: &mut Row, pivot: &Row, with: &CombineRow) -> bool
    requires row { length row.old.nums ≡ 2 }
    requires pivot { length pivot.now.nums ≡ 2 }
{
    let (_, p, _, q, wide, after) = with;
    if !is_narrow(*p) || !is_narrow(*q) || *q <= 0 {
        return false;
    }
    let answer = combine(row, *p, pivot, *q);
    is_answer(&answer, wide) && is_row(row, after)
}

fn combines(alloc: Global, with: &CombineRow) -> Option<bool> {
    let mut row = row_of(alloc, &with.0)?;
    let pivot = row_of(alloc, &with.2)?;
    Some(combine_so(&mut row, &pivot, with))
}

#[test]
fn rows_are_combined_up_to_the_limit(rt: HostRuntime) {
    for i in 0..COMBINED.len() {
        assert!(rt;
            combines(rt.alloc(), &COMBINED[i]).unwrap_or(false),
            "row {i}"
        );
    }
}

/// Whether 2 and 4 over 1, divided by 6, are 1 and 2 over 3.
fn is_rescaled(alloc: Global) -> Option<bool> {
    let mut row = row_of(alloc, &([2, 4], 1))?;
    rescale(&mut row, 6);
    Some(is_row(&row, &([1, 2], 3)))
}

#[test]
fn rows_are_divided(rt: HostRuntime) {
    assert!(rt; is_rescaled(rt.alloc()).unwrap_or(false));
}

/// A row, numbers that are put into it in lowest terms, the number that is too wide, if any, and the row after the call.
type LowerRow = (Over, Over, Wide, Over);

const LOWERED: [LowerRow; 2] = [
    (([1, 0], 1), ([6, -4], 10), None, ([3, -2], 5)),
    (
        ([3, -2], 5),
        ([3, -3 * LIMIT], 3),
        Some((1, -LIMIT)),
        ([3, -2], 5),
    ),
];

fn is_lowered(alloc: Global, with: &LowerRow) -> bool {
    let Some(mut row) = row_of(alloc, &with.0) else {
        return false;
    };
    match lower_to(&mut row, &with.1) {
        Some(answer) => is_answer(&answer, &with.2) && is_row(&row, &with.3),
        None => false,
    }
}

#[test]
fn given_numbers_in_lowest_terms(rt: HostRuntime) {
    for i in 0..LOWERED.len() {
        assert!(rt; is_lowered(rt.alloc(), &LOWERED[i]), "row {i}");
    }
}
