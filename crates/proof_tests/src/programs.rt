//! Tests of the program of a box, against optima that were worked out by hand.
use box_program::{Lines, Solution, common_unit, solved};
use line_check::{Inequality, Tested};
use net_core::{Link, List, Module, NoMemory};
use std::alloc::Global;
use tree_check::{Boxed, Span};
use worked_networks::{LinkRow, network};

/// A link of modules of 5.000 for 3.000.
const LINK: [LinkRow; 1] = [(
    0,
    1,
    0,
    &[Module {
        capacity: 5000,
        cost: 3000,
    }],
)];

/// The counts of the module, and what a line asks for, if there is one.
type Asked = (Span, Option<u128>);

/// The module's amount over a denominator, if it has several counts; the numerator of the line over the certificate's denominator, if it
/// has one; and the rank.
type Found = (Option<(u128, u128, u128)>, Option<(u64, u128)>, u128);

/// All counts fixed; no line; and a line that asks for 2 and 2 fifths of the module, whose cost over its capacity is 3 fifths.
const PROGRAMS: [(Asked, Found); 3] = [
    (
        (
            Span {
                least: 3,
                most: Some(3),
            },
            Some(12000),
        ),
        (None, None, 9_000_000),
    ),
    (
        (
            Span {
                least: 2,
                most: None,
            },
            None,
        ),
        (Some((2, 0, 1)), None, 6_000_000),
    ),
    (
        (
            Span {
                least: 0,
                most: None,
            },
            Some(12000),
        ),
        (Some((2, 2, 5)), Some((3, 5)), 7_200_000),
    ),
];

/// A list of a list of one item.
fn nested<T: Drop>(alloc: Global, item: T) -> Result<List<List<T>>, NoMemory> {
    let mut inner = List::new(alloc);
    inner.push(item)?;
    let mut outer = List::new(alloc);
    outer.push(inner)?;
    Ok(outer)
}

/// The line that asks for so much, if it does.
fn lines(alloc: Global, asked: Option<u128>) -> Result<List<Tested>, NoMemory> {
    let mut lines = List::new(alloc);
    if let Some(right) = asked {
        lines.push(Tested {
            sound: true,
            robust: true,
            line: Inequality {
                coefs: nested(alloc, 5000)?,
                given: 0,
                right,
            },
        })?;
    }
    Ok(lines)
}

/// What a solution gives: the module's amount, the line's numerator, and the rank.
fn told(solution: &Solution) -> Found {
    let amount = solution.amounts.items().first();
    let line = solution.cert.lines.items().first();
    (
        amount.map(|a| (a.whole, a.part, solution.den)),
        line.map(|m| (m.num, solution.cert.den)),
        solution.rank,
    )
}

/// What is found of a program of these lines in a box, where the plan costs 100.000.
fn found_in(alloc: Global, links: &[Link], tested: &[Tested], boxed: &Boxed) -> Option<Found> {
    let lines = Lines {
        tested,
        first: 0,
        unit: common_unit(tested),
    };
    match solved(alloc, links, 100_000, lines, boxed) {
        Ok(Some(solution)) => Some(told(&solution)),
        Ok(None) => None,
        Err(NoMemory) => None,
    }
}

/// What is found of a program over these links.
fn found_on(alloc: Global, links: &[Link], asked: &Asked) -> Option<Found> {
    let boxed: Boxed = nested(alloc, asked.0).ok()?;
    let tested = lines(alloc, asked.1).ok()?;
    found_in(alloc, links, tested.items(), &boxed)
}

/// What is found of a program, where the plan costs 100.000.
fn found(alloc: Global, asked: &Asked) -> Option<Found> {
    let net = network(alloc, 2, &LINK).ok()?;
    found_on(alloc, net.links().items(), asked)
}

#[test]
fn programs_of_boxes_leave_amounts_and_certificates(rt: HostRuntime) {
    for (asked, expected) in &PROGRAMS {
        assert!(rt; found(rt.alloc(), asked) == Some(*expected));
    }
}
