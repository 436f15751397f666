use crate::rows::LineRow::{Divided, Failing, Plain};
use crate::rows::{CutRow, LineRow, instance_of, tested, worked};
use line_check::{Inequality, Tested};
use net_core::{Instance, List, Module, Problem};
use std::alloc::Global;
use worked_networks::{DemandRow, LinkRow, network, problem};

/// The networks of which all counts are tried.
#[derive(Clone, Copy)]
pub(crate) enum Tried {
    /// The triangle of links with modules of 10.00, and a demand of 12.00.
    Triangle,
    /// Three parallel links with modules of 10.00 and of 25.00, and a demand of 30.00.
    Parallel,
    /// Links and demands of a sample of four nodes, with smaller modules.
    Sample,
}

/// Cuts of the triangle: that of one link in each state in which the two others don't carry the demand, and that of C where nothing fails.
pub(crate) const TRIANGLE_CUTS: [CutRow; 4] = [
    (1, &[0, 0, 1], 12000),
    (3, &[1, 0, 0], 12000),
    (3, &[0, 1, 0], 12000),
    (0, &[0, 1, 1], 12000),
];

/// Modules of 10.00 for 5.00 and of 25.00 for 9.00.
const TWO_KINDS: [Module; 2] = [
    Module {
        capacity: 10000,
        cost: 5000,
    },
    Module {
        capacity: 25000,
        cost: 9000,
    },
];

const PARALLEL: [LinkRow; 3] = [
    (0, 1, 0, &TWO_KINDS),
    (0, 1, 0, &TWO_KINDS),
    (0, 1, 0, &TWO_KINDS),
];

/// Cuts of the parallel links: where each one of them fails, and where nothing does.
pub(crate) const PARALLEL_CUTS: [CutRow; 4] = [
    (1, &[0, 1, 1], 30000),
    (2, &[1, 0, 1], 30000),
    (3, &[1, 1, 0], 30000),
    (0, &[1, 1, 1], 30000),
];

const SMALL: [Module; 1] = [Module {
    capacity: 35000,
    cost: 5000,
}];

const LARGE: [Module; 1] = [Module {
    capacity: 70000,
    cost: 9000,
}];

/// The ring and the two chords of the sample of seed 1, with modules of 35.00 or of 70.00.
const SAMPLE: [LinkRow; 6] = [
    (0, 1, 0, &LARGE),
    (1, 2, 0, &SMALL),
    (2, 3, 0, &SMALL),
    (3, 0, 0, &LARGE),
    (0, 2, 0, &SMALL),
    (2, 0, 0, &SMALL),
];

/// The sample's demands.
const SAMPLE_DEMANDS: [DemandRow; 6] = [
    (0, 1, 35000),
    (0, 2, 13000),
    (0, 3, 11000),
    (1, 2, 16000),
    (1, 3, 13000),
    (2, 3, 6000),
];

/// The cuts of the sample's second and of its fourth node where one of their two links fails, and that of the second where nothing does.
const NODE_CUTS: [CutRow; 4] = [
    (1, &[0, 1, 0, 0, 0, 0], 64000),
    (3, &[0, 0, 0, 1, 0, 0], 30000),
    (4, &[0, 0, 1, 0, 0, 0], 30000),
    (0, &[1, 1, 0, 0, 0, 0], 64000),
];

/// Cuts between the sample's first two nodes and the others where links between these fail, that of the fourth node where one of its links
/// does, and that of the two sides where nothing does.
const SIDE_CUTS: [CutRow; 4] = [
    (2, &[0, 0, 0, 1, 1, 1], 53000),
    (5, &[0, 1, 0, 1, 0, 1], 53000),
    (4, &[0, 0, 1, 0, 0, 0], 30000),
    (0, &[0, 1, 0, 1, 1, 1], 53000),
];

const DIVISORS: [u128; 12] = [
    100, 2500, 4000, 5000, 7500, 10000, 12000, 12500, 15000, 24000, 25000, 30000,
];

/// Lines over four cuts, of which the last one is robust: divided lines over one cut and over sums, one over two of these, and table lines
/// of both kinds, with costs and with other weights.
fn lines_over(divisor: u128) -> [LineRow; 16] {
    [
        Divided(divisor, &[(0, 1)]),
        Divided(divisor, &[(3, 1)]),
        Divided(divisor, &[(3, 2)]),
        Divided(divisor, &[(0, 1), (1, 1)]),
        Divided(divisor, &[(0, 2), (1, 1), (2, 1)]),
        Divided(divisor, &[(0, 1), (3, 1)]),
        Divided(2, &[(7, 1), (8, 1)]),
        Divided(3, &[(4, 2), (5, 1)]),
        Plain(4, &[5, 9]),
        Plain(4, &[3]),
        Plain(7, &[2, 3]),
        Plain(8, &[1, 2, 3]),
        Failing(5, &[5, 9]),
        Failing(5, &[2]),
        Failing(6, &[1, 1]),
        Failing(6, &[1, 3]),
    ]
}

/// How many modules there are of the kind at a place: two bits of a number.
fn count_at(code: u64, at: u32) -> u128 {
    if at < 32 {
        ((code >> (2 * at)) & 3) as u128
    } else {
        0
    }
}

/// The capacity of parallel links without one of them.
fn carried_without(code: u64, failed: u32) -> u128 {
    let mut sum = 0u128;
    for e in 0..3 {
        if e != failed {
            let small = count_at(code, 2 * e).saturating_mul(10000);
            let large = count_at(code, 2 * e + 1).saturating_mul(25000);
            sum = sum.saturating_add(small).saturating_add(large);
        }
    }
    sum
}

/// Whether one of two nodes is in a set, which is a bit for each node, and the other isn't.
fn are_apart(inside: u32, a: u32, b: u32) -> bool {
    a < 32 && b < 32 && (inside >> a) & 1 != (inside >> b) & 1
}

/// The capacity between a set of nodes and the others, of the sample's links without one of them.
fn carried_across(code: u64, inside: u32, failed: u32) -> u128 {
    let mut at = 0u32;
    let mut sum = 0u128;
    for (a, b, _, modules) in &SAMPLE {
        if at != failed && are_apart(inside, *a, *b) {
            let capacity = modules.first().map_or(0, |module| module.capacity);
            sum = sum.saturating_add(count_at(code, at).saturating_mul(capacity as u128));
        }
        at = at.saturating_add(1);
    }
    sum
}

/// What the sample's demands ask for between a set of nodes and the others.
fn asked_across(inside: u32) -> u128 {
    let mut sum = 0u128;
    for (from, to, need) in &SAMPLE_DEMANDS {
        if are_apart(inside, *from, *to) {
            sum = sum.saturating_add(*need as u128);
        }
    }
    sum
}

/// Whether counts carry the sample's demands whichever link fails: between four nodes demands are carried wherever each set of nodes has
/// the capacity for those that leave it (Papernov).
fn carry_sample(code: u64) -> bool {
    for inside in 1..8 {
        let asked = asked_across(inside);
        for failed in 0..6 {
            if carried_across(code, inside, failed) < asked {
                return false;
            }
        }
    }
    true
}

/// Whether counts carry the demands whichever link fails.
fn are_able(tried: Tried, code: u64) -> bool {
    match tried {
        Tried::Triangle => (0..3).all(|e| count_at(code, e) >= 2),
        Tried::Parallel => (0..3).all(|e| carried_without(code, e) >= 30000),
        Tried::Sample => carry_sample(code),
    }
}

/// Whether counts satisfy a line.
fn are_met(line: &Inequality, code: u64) -> bool {
    let mut at = 0u32;
    let mut sum = line.given;
    for coefs in line.coefs.items() {
        for coef in coefs.items() {
            sum = sum.saturating_add(coef.saturating_mul(count_at(code, at)));
            at = at.saturating_add(1);
        }
    }
    sum >= line.right
}

/// All counts of up to three of each kind that carry the demands.
fn able_codes(alloc: Global, tried: Tried) -> Option<List<u64>> {
    let end = match tried {
        Tried::Triangle => 1 << 6,
        Tried::Parallel | Tried::Sample => 1 << 12,
    };
    let mut codes = List::new(alloc);
    for code in 0..end {
        if are_able(tried, code) {
            codes.push(code).ok()?;
        }
    }
    Some(codes)
}

/// Whether all these counts satisfy a line.
fn are_all_met(line: &Inequality, codes: &[u64]) -> bool {
    for code in codes {
        if !are_met(line, *code) {
            return false;
        }
    }
    true
}

/// How many lines hold; `None` if some counts violate one of them.
fn number_of_held(all: &[Tested], codes: &[u64]) -> Option<usize> {
    let mut held = 0usize;
    for t in all {
        if t.sound {
            if !are_all_met(&t.line, codes) {
                return None;
            }
            held = held.saturating_add(1);
        }
    }
    Some(held)
}

pub(crate) fn problem_of(alloc: Global, tried: Tried) -> Option<Problem> {
    match tried {
        Tried::Triangle => worked(alloc, 0),
        Tried::Parallel => {
            let net = network(alloc, 2, &PARALLEL).ok()?;
            problem(alloc, net, &[(0, 1, 30000)]).ok()
        }
        Tried::Sample => {
            let net = network(alloc, 4, &SAMPLE).ok()?;
            problem(alloc, net, &SAMPLE_DEMANDS).ok()
        }
    }
}

/// How many lines of one divisor hold; `None` if some counts violate one of them.
fn number_held_of(
    alloc: Global,
    instance: &Instance,
    codes: &[u64],
    cuts: &[CutRow],
    divisor: u128,
) -> Option<usize> {
    let all = tested(alloc, instance, cuts, &lines_over(divisor))?;
    number_of_held(all.items(), codes)
}

/// How many lines of all divisors hold; `None` if some counts violate one of them.
fn number_held_by(
    alloc: Global,
    instance: &Instance,
    codes: &[u64],
    cuts: &[CutRow],
) -> Option<usize> {
    let mut held = 0usize;
    for divisor in &DIVISORS {
        held = held.saturating_add(number_held_of(alloc, instance, codes, cuts, *divisor)?);
    }
    Some(held)
}

/// How many lines of all divisors hold on a network; `None` if some counts that carry the demands violate one of them.
fn number_held(alloc: Global, tried: Tried, cuts: &[CutRow]) -> Option<usize> {
    let p = problem_of(alloc, tried)?;
    let codes = able_codes(alloc, tried)?;
    number_held_by(alloc, &instance_of(&p), codes.items(), cuts)
}

#[test]
fn able_counts_of_the_triangle_meet_all_lines(rt: HostRuntime) {
    let held = number_held(rt.alloc(), Tried::Triangle, &TRIANGLE_CUTS);
    assert!(rt; held >= Some(150), "{} lines", held.unwrap_or(0));
}

#[test]
fn able_counts_of_parallel_links_meet_all_lines(rt: HostRuntime) {
    let held = number_held(rt.alloc(), Tried::Parallel, &PARALLEL_CUTS);
    assert!(rt; held >= Some(150), "{} lines", held.unwrap_or(0));
}

/// Three modules on each link carry the sample's demands. Without those of the first link they don't.
#[test]
fn counts_of_a_sample_are_able_or_not(rt: HostRuntime) {
    assert!(rt; carry_sample(0xfff) && !carry_sample(0xffc));
}

#[test]
fn able_counts_of_a_sample_meet_lines_over_cuts_of_nodes(rt: HostRuntime) {
    let held = number_held(rt.alloc(), Tried::Sample, &NODE_CUTS);
    assert!(rt; held >= Some(140), "{} lines", held.unwrap_or(0));
}

#[test]
fn able_counts_of_a_sample_meet_lines_over_cuts_of_sides(rt: HostRuntime) {
    let held = number_held(rt.alloc(), Tried::Sample, &SIDE_CUTS);
    assert!(rt; held >= Some(140), "{} lines", held.unwrap_or(0));
}
