ghost use Rattle.std.specs.Prelude.{◌≤◌, All, IfOk, OnOk, length};
ghost use Rattle.line_maker.{specs.Made.IsMadeLine, specs.inner.Candidates.IsSumCandidate};

use crate::candidate::{Candidate, best_first, candidates_of, is_known};
use crate::known::Known;
use crate::numbers::{Lowest, Numbers, all_numbers};
use crate::point::point_of;
use crate::sums::is_narrow;
use box_program::Solution;
use line_check::{Line, Tested};
use net_core::{Link, List, NoMemory};
use std::alloc::Global;
use tree_check::Boxed;

/// Puts the line of a candidate last, if there is room, it is new, and its sum is narrow enough.
fn push_new(
    lines: &mut List<Line>,
    taken: &mut List<Numbers>,
    links: &[Link],
    known: &Known,
    candidate: Candidate,
    most: usize,
) -> Result<(), NoMemory>
    requires candidate { IsSumCandidate known.now.tested.now candidate }
    requires lines { All (IsMadeLine links.now known.now.tested.now) lines.old }
    requires few { length lines.old ≤ most }
    ensures lines { OnOk result (All (IsMadeLine links.now known.now.tested.now) lines.new) }
    ensures few { OnOk result (length lines.new ≤ most) }
{
    let old = is_known(known.numbers, &candidate) || is_known(taken.items(), &candidate);
    if old || lines.len() >= most {
        return Ok(());
    }
    if !is_narrow(links, known.tested, candidate.terms.items()) {
        return Ok(());
    }
    let Candidate { terms, lowest, .. } = candidate;
    let Lowest { divisor, numbers } = lowest;
    taken.push(numbers)?;
    lines.push(Line::Divided { divisor, terms })?;
    Ok(())
}

/// The first candidates that are new, at most `most`, as lines.
fn lines_of(
    alloc: Global,
    links: &[Link],
    known: &Known,
    found: List<Candidate>,
    most: usize,
) -> Result<List<Line>, NoMemory>
    requires { All (IsSumCandidate known.now.tested.now) found }
    ensures few { IfOk result (λ lines. length lines ≤ most) }
    ensures lines { IfOk result (All (IsMadeLine links.now known.now.tested.now)) }
{
    let mut taken = List::new(alloc);
    let mut lines = List::new(alloc);
    for candidate in found.into_vec() {
        push_new(&mut lines, &mut taken, links, known, candidate, most)?;
    }
    Ok(lines)
}

/// Divided lines that the point of a box's program doesn't meet, at most `most`, those first that it misses by most of their right
/// side: over each line that was tested, the divisor by which it misses most; and over sums of two of those that the program's certificate
/// names, once each, and so that both need equally much.
///
/// What is promised is that each of them holds, so that counts which carry the demands meet it. How good they are is left free, and so is
/// whether there are any.
///
/// A divisor is 1, or what is needed or what a module gives, over 1 to 4. It takes time in the lines times the square of the kinds of
/// modules times the modules, and memory for a number for each line and module.
pub fn lines_at(
    alloc: Global,
    links: &[Link],
    tested: &[Tested],
    boxed: &Boxed,
    solution: &Solution,
    most: usize,
) -> Result<List<Line>, NoMemory>
    ensures few { IfOk result (λ lines. length lines ≤ most) }
    ensures lines { IfOk result (All (IsMadeLine links.now tested.now)) }
{
    let point = point_of(alloc, links, boxed.items(), solution)?;
    let numbers = all_numbers(alloc, links, tested)?;
    let known = Known {
        tested,
        numbers: numbers.items(),
    };
    let active = solution.cert.lines.items();
    let found = candidates_of(alloc, &known, active, &point)?;
    let found = best_first(alloc, found)?;
    lines_of(alloc, links, &known, found, most)
}
