use crate::rows::LineRow::{Divided, Failing, Plain};
use crate::rows::{CutRow, Expected, LineRow, first_wrong};

/// A cut of one link, and that of C where nothing fails.
const CUTS: [CutRow; 2] = [(1, &[0, 0, 1], 12000), (0, &[0, 1, 1], 12000)];

const MOST: [(u32, u64); 256] = [(0, 1); 256];

const TOO_MANY: [(u32, u64); 257] = [(0, 1); 257];

/// Each number at its limit, and one above it: 2^126 for divisors and sums, 2^62 for numerators, 256 terms, and 4096 for what a table line
/// asks for. A weight may be any number below 2^32, and two modules cover what 4096 asks for.
const ROWS: [(LineRow, Expected); 22] = [
    (Divided((1 << 126) - 1, &[(0, 1)]), Some(([0, 0, 1], 1))),
    (Divided(1 << 126, &[(0, 1)]), None),
    (Divided(0, &[(0, 1)]), None),
    (Divided(1, &[]), None),
    (
        Divided(1 << 62, &[(0, (1 << 62) - 1)]),
        Some(([0, 0, 10000], 12000)),
    ),
    (Divided(1, &[(0, 1 << 62)]), None),
    (Divided(1, &[(0, 0)]), None),
    (Divided(12000, &MOST), Some(([0, 0, 214], 256))),
    (Divided(12000, &TOO_MANY), None),
    (
        Divided(1, &[(0, 1 << 61)]),
        Some(([0, 0, 23058430092136939520000], 27670116110564327424000)),
    ),
    (Divided(1 << 120, &[(11, 1 << 51)]), Some(([0, 0, 40], 47))),
    (Divided(1 << 120, &[(11, 1 << 52)]), None),
    (Divided(3000, &[(1, 1024)]), Some(([0, 3414, 3414], 4096))),
    (Plain(14, &[1]), Some(([0, 1, 1], 2))),
    (Divided(12000, &[(1, 4097)]), Some(([0, 3415, 3415], 4097))),
    (Plain(16, &[1]), None),
    (Failing(14, &[1]), Some(([0, 1, 1], 3))),
    (Failing(16, &[1]), None),
    (
        Plain(14, &[4294967295]),
        Some(([0, 4294967295, 4294967295], 8589934590)),
    ),
    (
        Failing(14, &[4294967295]),
        Some(([0, 4294967295, 4294967295], 12884901885)),
    ),
    (Plain(14, &[1, 1]), None),
    (Plain(14, &[]), None),
];

#[test]
fn numbers_end_at_their_limits(rt: HostRuntime) {
    let wrong = first_wrong(rt.alloc(), 0, &CUTS, &ROWS);
    assert!(rt; wrong.is_none(), "row {}", wrong.unwrap_or(0));
}
