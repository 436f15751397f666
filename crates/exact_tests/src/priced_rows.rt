use net_core::{
    Caps, LinkId, List, NoMemory, Path, Problem, RouteColumn, RouteTask, StateId, Surviving,
};
use row_cuts::{PathRow, priced_numbers, row_cut};
use std::alloc::Global;
use worked_networks::{DemandRow, LinkRow, TEN, network, problem};

/// A column and its row: a demand and a path of it, or a link and no path, which is the link's slack; the row's numbers and their denominator.
type Kept = (u32, &'static [u32], [i64; 3], i64);

/// Demands of the triangle, a key path for each, and rows; the place of a row, and the lengths that it gives, if any.
#[derive(Clone, Copy)]
struct Case {
    demands: &'static [DemandRow],
    keys: &'static [&'static [u32]],
    rows: &'static [Kept],
    at: usize,
    lengths: Option<[u32; 3]>,
}

/// The links AB, BC and AC.
const TRIANGLE: [LinkRow; 3] = [(0, 1, 0, &TEN), (1, 2, 0, &TEN), (0, 2, 0, &TEN)];

/// 12.00 from A to C.
const ONE_DEMAND: [DemandRow; 1] = [(0, 2, 12000)];

/// 12.00 from A to C and 4.00 from A to B.
const TWO_DEMANDS: [DemandRow; 2] = [(0, 2, 12000), (0, 1, 4000)];

/// Beside the key AC: the path over B, and the slacks of BC and AC.
const OVER_B: [Kept; 3] = [
    (0, &[0, 1], [1, 0, 0], 1),
    (1, &[], [-1, 1, 0], 1),
    (2, &[], [1, 0, 1], 1),
];

/// Beside the key over B: the path AC, and the slacks of BC and AB.
const OVER_AC: [Kept; 3] = [
    (0, &[2], [0, 0, 1], 1),
    (1, &[], [0, 1, 1], 1),
    (0, &[], [1, 0, 1], 1),
];

/// Beside the keys AC and AB: the other path of each demand, and the slack of AC.
const AROUND: [Kept; 3] = [
    (0, &[0, 1], [1, 1, 0], 2),
    (1, &[2, 1], [-1, 1, 0], 2),
    (2, &[], [1, 0, 1], 1),
];

/// The slacks of all links.
const SLACKS: [Kept; 3] = [
    (0, &[], [1, 0, 0], 1),
    (1, &[], [0, 1, 0], 1),
    (2, &[], [0, 0, 1], 1),
];

/// The rows of `OVER_B`, with a wrong number in the second one.
const WRONG: [Kept; 3] = [
    (0, &[0, 1], [1, 0, 0], 1),
    (1, &[], [0, 1, 0], 1),
    (2, &[], [1, 0, 1], 1),
];

/// The rows of `OVER_B`, with the third one over twice its denominator.
const DOUBLED: [Kept; 3] = [
    (0, &[0, 1], [1, 0, 0], 1),
    (1, &[], [-1, 1, 0], 1),
    (2, &[], [2, 0, 2], 2),
];

/// The rows of `OVER_B`, with their own key and with others. The row at place 2 gives AB and AC the length 1, so that both paths from A to C
/// have length 1.
const OF_KEY_AC: [Case; 7] = [
    Case {
        demands: &ONE_DEMAND,
        keys: &[&[2]],
        rows: &OVER_B,
        at: 2,
        lengths: Some([1, 0, 1]),
    },
    // Row 0 gives the key the length 0, row 1 has a number below 0, and there is no row 3.
    Case {
        demands: &ONE_DEMAND,
        keys: &[&[2]],
        rows: &OVER_B,
        at: 0,
        lengths: None,
    },
    Case {
        demands: &ONE_DEMAND,
        keys: &[&[2]],
        rows: &OVER_B,
        at: 1,
        lengths: None,
    },
    Case {
        demands: &ONE_DEMAND,
        keys: &[&[2]],
        rows: &OVER_B,
        at: 3,
        lengths: None,
    },
    // The key is that of other rows, or no path of the demand, or missing.
    Case {
        demands: &ONE_DEMAND,
        keys: &[&[0, 1]],
        rows: &OVER_B,
        at: 2,
        lengths: None,
    },
    Case {
        demands: &ONE_DEMAND,
        keys: &[&[0]],
        rows: &OVER_B,
        at: 2,
        lengths: None,
    },
    Case {
        demands: &ONE_DEMAND,
        keys: &[],
        rows: &OVER_B,
        at: 2,
        lengths: None,
    },
];

/// Other keys, and rows that aren't those of a basis or not in lowest terms.
const OF_OTHERS: [Case; 7] = [
    Case {
        demands: &ONE_DEMAND,
        keys: &[&[0, 1]],
        rows: &OVER_AC,
        at: 1,
        lengths: Some([0, 1, 1]),
    },
    Case {
        demands: &ONE_DEMAND,
        keys: &[&[0, 1]],
        rows: &OVER_AC,
        at: 2,
        lengths: Some([1, 0, 1]),
    },
    Case {
        demands: &TWO_DEMANDS,
        keys: &[&[2], &[0]],
        rows: &AROUND,
        at: 0,
        lengths: Some([1, 1, 0]),
    },
    Case {
        demands: &TWO_DEMANDS,
        keys: &[&[2], &[0]],
        rows: &AROUND,
        at: 2,
        lengths: Some([1, 0, 1]),
    },
    // With a length on AC alone the path over B is shorter than the key.
    Case {
        demands: &ONE_DEMAND,
        keys: &[&[2]],
        rows: &SLACKS,
        at: 2,
        lengths: None,
    },
    Case {
        demands: &ONE_DEMAND,
        keys: &[&[2]],
        rows: &WRONG,
        at: 2,
        lengths: None,
    },
    Case {
        demands: &ONE_DEMAND,
        keys: &[&[2]],
        rows: &DOUBLED,
        at: 2,
        lengths: None,
    },
];

/// A path of these links.
fn path(alloc: Global, links: &[u32]) -> Result<Path, NoMemory> {
    let mut path = List::new(alloc);
    for link in links {
        path.push(LinkId(*link))?;
    }
    Ok(path)
}

/// The keys of a case.
fn keys_of(alloc: Global, case: &Case) -> Result<List<Path>, NoMemory> {
    let mut keys = List::new(alloc);
    for i in 0..case.keys.len() {
        keys.push(path(alloc, case.keys[i])?)?;
    }
    Ok(keys)
}

/// A column and its row.
fn row_of(alloc: Global, kept: &Kept) -> Result<PathRow, NoMemory> {
    let column = if kept.1.len() == 0 {
        RouteColumn::LinkSlack(LinkId(kept.0))
    } else {
        RouteColumn::Carry(kept.0, path(alloc, kept.1)?)
    };
    Ok(PathRow {
        column,
        nums: List::from_slice(alloc, &kept.2)?,
        den: kept.3,
    })
}

/// The rows of a case.
fn rows_of(alloc: Global, case: &Case) -> Result<List<PathRow>, NoMemory> {
    let mut rows = List::new(alloc);
    for i in 0..case.rows.len() {
        rows.push(row_of(alloc, &case.rows[i])?)?;
    }
    Ok(rows)
}

/// Whether a case's row gives the expected lengths, in a problem of three links.
fn is_met_on<'a>(alloc: Global, p: &'a Problem, caps: &'a Caps, case: &Case) -> bool {
    let (Ok(keys), Ok(rows)) = (keys_of(alloc, case), rows_of(alloc, case)) else {
        return false;
    };
    if caps.nums.len() != p.net.links().len() {
        return false;
    }
    let task = RouteTask {
        graph: Surviving {
            net: &p.net,
            states: &p.states,
            state: StateId(0),
        },
        demands: &p.demands,
        caps,
    };
    match (
        priced_numbers(alloc, &task, keys.items(), rows.items(), case.at),
        case.lengths,
    ) {
        (Ok(Some(found)), Some(lengths)) => found.items() == lengths.as_slice(),
        (Ok(None), None) => true,
        _ => false,
    }
}

/// Whether a case's row gives the expected lengths.
fn is_met(alloc: Global, case: &Case) -> bool {
    let Ok(net) = network(alloc, 3, &TRIANGLE) else {
        return false;
    };
    let (Ok(p), Ok(nums)) = (
        problem(alloc, net, case.demands),
        List::filled(alloc, 0u128, 3),
    ) else {
        return false;
    };
    let caps = Caps { scale: 1, nums };
    is_met_on(alloc, &p, &caps, case)
}

/// Whether each case's row gives the expected lengths.
fn are_met(alloc: Global, cases: &[Case]) -> bool {
    for case in cases {
        if !is_met(alloc, case) {
            return false;
        }
    }
    true
}

#[test]
fn priced_rows(rt: HostRuntime) {
    assert!(rt; are_met(rt.alloc(), &OF_KEY_AC));
}

#[test]
fn priced_rows_of_other_keys(rt: HostRuntime) {
    assert!(rt; are_met(rt.alloc(), &OF_OTHERS));
}

/// A row that asks for 12.00 on AB and AC together, one that asks for 4.00 on AB and BC, and one that asks for 12.00 + 4.00 on AB and AC.
const ASKED: [Case; 3] = [
    Case {
        demands: &ONE_DEMAND,
        keys: &[&[2]],
        rows: &OVER_B,
        at: 2,
        lengths: Some([1, 0, 1]),
    },
    Case {
        demands: &TWO_DEMANDS,
        keys: &[&[2], &[0]],
        rows: &AROUND,
        at: 0,
        lengths: Some([1, 1, 0]),
    },
    Case {
        demands: &TWO_DEMANDS,
        keys: &[&[2], &[0]],
        rows: &AROUND,
        at: 2,
        lengths: Some([1, 0, 1]),
    },
];

/// Which of these rows is meant, capacities over a scale, the scale, and whether they are less than the row asks for.
const CAPACITIES: [(usize, [u128; 3], u64, bool); 7] = [
    (0, [4000, 8000, 7999], 1, true),
    (0, [4000, 8000, 8000], 1, false),
    (0, [8000, 0, 15999], 2, true),
    (1, [1999, 2000, 50000], 1, true),
    (1, [2000, 2000, 0], 1, false),
    (2, [8000, 9000, 7999], 1, true),
    (2, [8000, 0, 8000], 1, false),
];

/// Whether a case's row makes a cut without failures if the capacities are less than it asks for, with the row's lengths, and else no cut.
fn is_cut_on<'a>(
    alloc: Global,
    p: &'a Problem,
    caps: &'a Caps,
    case: &Case,
    is_less: bool,
) -> bool {
    let (Ok(keys), Ok(rows)) = (keys_of(alloc, case), rows_of(alloc, case)) else {
        return false;
    };
    if caps.scale == 0 || caps.nums.len() != p.net.links().len() {
        return false;
    }
    let task = RouteTask {
        graph: Surviving {
            net: &p.net,
            states: &p.states,
            state: StateId(0),
        },
        demands: &p.demands,
        caps,
    };
    match (
        row_cut(alloc, &task, keys.items(), rows.items(), case.at),
        case.lengths,
    ) {
        (Ok(Some(cut)), Some(lengths)) => {
            is_less && cut.state().0 == 0 && cut.lengths().items() == lengths.as_slice()
        }
        (Ok(None), _) => !is_less,
        _ => false,
    }
}

/// Whether a case's row makes a cut of the triangle without failures if these capacities are less than it asks for, and else no cut.
fn is_cut(alloc: Global, case: &Case, nums: &[u128], scale: u64, is_less: bool) -> bool {
    let Ok(net) = network(alloc, 3, &TRIANGLE) else {
        return false;
    };
    let (Ok(p), Ok(nums)) = (
        problem(alloc, net, case.demands),
        List::from_slice(alloc, nums),
    ) else {
        return false;
    };
    is_cut_on(alloc, &p, &Caps { scale, nums }, case, is_less)
}

#[test]
fn rows_that_ask_for_more_than_the_capacities_are_cuts(rt: HostRuntime) {
    for (at, nums, scale, is_less) in &CAPACITIES {
        assert!(rt; is_cut(rt.alloc(), &ASKED[*at], nums, *scale, *is_less));
    }
}
