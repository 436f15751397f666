use crate::packing::{Given, Label, Three, solved};
use net_core::WideKind;
use simplex_core::{Optimum, SimplexFault};
use std::alloc::Global;

/// A program of bounds and columns, and its optimum. Only the first columns of the basis and the first values are compared, as many as the
/// lists have.
#[derive(Clone, Copy)]
struct Case {
    bounds: Three,
    columns: &'static [Given],
    basis: &'static [Label],
    den: u64,
    values: &'static [u128],
    duals_den: i64,
    duals: [i64; 3],
}

/// Two columns that gain 1 each and take twice as much of one row as of the other.
const BOTH: [Given; 2] = [(1, (2, 1, 0)), (1, (1, 2, 0))];

const OPTIMA: [Case; 5] = [
    // With 4 / 3 of both columns 2 * 4 / 3 + 4 / 3 = 4 are taken of both rows.
    Case {
        bounds: (4, 4, 0),
        columns: &BOTH,
        basis: &[],
        den: 3,
        values: &[4, 4, 0],
        duals_den: 3,
        duals: [1, 1, 0],
    },
    // With bounds of 0 nothing can be taken.
    Case {
        bounds: (0, 0, 0),
        columns: &BOTH,
        basis: &[],
        den: 1,
        values: &[0, 0, 0],
        duals_den: 1,
        duals: [0, 1, 0],
    },
    // Without columns the basis of slacks is the optimum.
    Case {
        bounds: (4, 4, 0),
        columns: &[],
        basis: &[Label::Slack(0), Label::Slack(1), Label::Slack(2)],
        den: 1,
        values: &[4, 4, 0],
        duals_den: 1,
        duals: [0, 0, 0],
    },
    // The second turn takes 2^70 from a row and divides it by 2^30: its numbers are narrow again, so the optimum is found.
    Case {
        bounds: (3, 1 << 41, 0),
        columns: &[(1, (3, 1 << 40, 0)), (1 << 31, (1 << 30, 0, 0))],
        basis: &[Label::Listed(1), Label::Slack(1), Label::Slack(2)],
        den: 1 << 30,
        values: &[3, 1 << 71, 0],
        duals_den: 1,
        duals: [2, 0, 0],
    },
    // If the first of the rows of least ratio always left, the bases would come round again without end.
    Case {
        bounds: (5, 5, 1),
        columns: &[
            (10, (5, 5, 1)),
            (11, (9, 0, 1)),
            (16, (7, 10, 1)),
            (5, (0, 1, 1)),
        ],
        basis: &[],
        den: 88,
        values: &[],
        duals_den: 88,
        duals: [65, 57, 383],
    },
];

/// Whether the optimum is the expected one.
fn is_best(best: &Optimum<Label>, case: &Case) -> bool {
    best.basis.items().starts_with(case.basis)
        && best.den == case.den
        && best.values.items().starts_with(case.values)
        && best.duals.den() == case.duals_den
        && best.duals.nums() == case.duals.as_slice()
}

fn is_solved(alloc: Global, case: &Case) -> bool {
    match solved(alloc, case.bounds, case.columns) {
        Some(Ok(best)) => is_best(&best, case),
        _ => false,
    }
}

#[test]
fn optima(rt: HostRuntime) {
    for i in 0..OPTIMA.len() {
        assert!(rt; is_solved(rt.alloc(), &OPTIMA[i]), "row {i}");
    }
}

/// Whether the kind is one that any packing program may have.
fn is_of_a_basis(kind: &WideKind<Label>) -> bool {
    match kind {
        WideKind::Row(_) | WideKind::Product(_, _) | WideKind::Sum(_) | WideKind::Common => true,
        WideKind::Number(_) | WideKind::Value | WideKind::Length(_) => false,
    }
}

/// Whether the second row has the second column, and the first row the first column or the row's slack.
fn is_beside_the_second(basis: &[Label]) -> bool {
    match basis {
        [first, second, _] => {
            (*first == Label::Listed(0) || *first == Label::Slack(0)) && *second == Label::Listed(1)
        }
        _ => false,
    }
}

/// Whether the answer is the optimum, which gains 2^50 + 2^10, or says that a number of such a basis is too wide.
fn is_optimum_or_evidence(alloc: Global) -> bool {
    let columns = [(1 << 40, (1 << 40, 0, 0)), (2, (1, 1 << 40, 0))];
    match solved(alloc, (1 << 50, 1 << 50, 0), &columns) {
        Some(Ok(best)) => {
            best.den == 1 << 30 && best.values.items() == [(1 << 40) - 1, 1 << 40, 0].as_slice()
        }
        Some(Err(SimplexFault::Wide { basis, kind })) => {
            is_of_a_basis(&kind) && is_beside_the_second(basis.items())
        }
        _ => false,
    }
}

#[test]
fn an_optimum_or_evidence(rt: HostRuntime) {
    assert!(rt; is_optimum_or_evidence(rt.alloc()));
}
