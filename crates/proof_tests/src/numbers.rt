use crate::rows::LineRow::{Divided, Failing, Plain};
use crate::rows::{CutRow, Expected, LineRow, first_wrong};

/// The cuts of one link each where the two others don't carry the demand, that of C where nothing fails, and one with a wrong right side.
const CUTS: [CutRow; 5] = [
    (1, &[0, 0, 1], 12000),
    (3, &[1, 0, 0], 12000),
    (3, &[0, 1, 0], 12000),
    (0, &[0, 1, 1], 12000),
    (3, &[0, 1, 0], 11999),
];

/// Two modules on each link are needed where each link fails alone. The line of index 8 asks for two modules at C, the failing table
/// line over it for three.
const ROWS: [(LineRow, Expected); 22] = [
    (Divided(10000, &[(0, 1)]), Some(([0, 0, 1], 2))),
    (Divided(10000, &[(1, 1)]), Some(([1, 0, 0], 2))),
    (Divided(10000, &[(2, 1)]), Some(([0, 1, 0], 2))),
    (Divided(10000, &[(3, 1)]), Some(([0, 1, 1], 2))),
    (
        Divided(10000, &[(0, 1), (1, 1), (2, 1)]),
        Some(([1, 1, 1], 4)),
    ),
    (Divided(1, &[(5, 1), (6, 1), (7, 1)]), Some(([1, 1, 1], 6))),
    (Divided(5000, &[(0, 1)]), Some(([0, 0, 2], 3))),
    (Divided(12000, &[(0, 1)]), Some(([0, 0, 1], 1))),
    (Divided(24000, &[(3, 2)]), Some(([0, 1, 1], 1))),
    (
        Divided(1, &[(0, 1), (3, 1)]),
        Some(([0, 10000, 20000], 24000)),
    ),
    (Divided(10000, &[(4, 1)]), None),
    (Divided(1, &[(16, 1)]), None),
    (Divided(1, &[(18, 1)]), None),
    (Plain(8, &[3]), Some(([0, 3, 3], 6))),
    (Failing(8, &[1]), Some(([0, 1, 1], 3))),
    (Failing(19, &[1]), None),
    (Failing(5, &[1]), None),
    (Plain(5, &[1]), Some(([0, 0, 1], 2))),
    (Plain(5, &[1, 2]), None),
    (Plain(9, &[]), None),
    (Plain(3, &[1]), None),
    (Plain(10, &[0]), Some(([0, 0, 0], 0))),
];

/// With 2.00 installed on each link 10.00 are missing on each, so that one module is enough. The cut of C misses 8.00.
const FIXED: [(LineRow, Expected); 3] = [
    (Divided(10000, &[(0, 1)]), Some(([0, 0, 1], 1))),
    (Divided(1, &[(3, 1)]), Some(([0, 8000, 8000], 8000))),
    (Divided(4000, &[(3, 1)]), Some(([0, 2, 2], 2))),
];

/// With 12.00 installed no module is needed, and lines ask for nothing.
const ENOUGH: [(LineRow, Expected); 2] = [
    (Divided(10000, &[(0, 1)]), Some(([0, 0, 0], 0))),
    (Plain(5, &[]), None),
];

#[test]
fn lines_have_their_numbers(rt: HostRuntime) {
    let wrong = first_wrong(rt.alloc(), 0, &CUTS, &ROWS);
    assert!(rt; wrong.is_none(), "row {}", wrong.unwrap_or(0));
}

#[test]
fn lines_over_capacities_in_place_have_their_numbers(rt: HostRuntime) {
    let wrong = first_wrong(rt.alloc(), 2000, &CUTS, &FIXED);
    assert!(rt; wrong.is_none(), "row {} of 2.00", wrong.unwrap_or(0));
    let wrong = first_wrong(rt.alloc(), 12000, &CUTS, &ENOUGH);
    assert!(rt; wrong.is_none(), "row {} of 12.00", wrong.unwrap_or(0));
}
