ghost use Rattle.std.{specs.Prelude.{◌+◌, ◌≤◌, ◌<◌, All, IfOk, IfSome, OnOk, length}, proofs.Common.inr};
ghost use Rattle.plan_terms.specs.Terms.{case_of};
ghost use Rattle.line_check.specs.Testing.{IsTestedAs};
ghost use Rattle.table_maker.{specs.Made.IsTableFor, specs.inner.Weighing.IsLightTable};

use crate::kinds::{costs_of, need_of, weights_of};
use crate::missed::missed;
use crate::narrow::{MOST_LINES, MOST_NEED};
use crate::task::TableTask;
use line_check::tested_lines::tested_line;
use line_check::{Inequality, Line, TableKind, Tested, line_in};
use net_core::{Copied, List, NoMemory};
use std::alloc::Global;

/// The place of a table line that would be made, and what the point misses of it.
#[derive(Clone, Copy)]
struct Spot {
    line: u32,
    kind: TableKind,
    missed: u128,
}

/// A table line with its inequality, and what the point misses of it.
#[derive(Drop)]
struct Found {
    line: Line,
    made: Inequality,
    missed: u128,
}

/// What covers weigh at least by these weights; 0 where there is no such table line.
fn right_of(
    alloc: Global,
    task: &TableTask,
    line: u32,
    kind: TableKind,
    weights: List<u32>,
) -> Result<u128, NoMemory> {
    let line = Line::Table {
        line,
        kind,
        weights,
    };
    let test = tested_line(alloc, task.instance, task.tested, &line)?;
    Ok(if test.sound { test.line.right } else { 0 })
}

/// A table line that was tested, if it holds and the point misses it.
#[tactic(auto, using(crate::proofs::HeldLines::missed_is))]
fn if_missed(task: &TableTask, line: Line, test: Tested) -> Option<Found>
    requires light { IsLightTable task.now.most_weight line }
    requires tested { IsTestedAs (case_of task.now.instance.now) task.now.tested.now (inr line) test }
    ensures { IfSome result (λ f. IsTableFor task.now f.line) }
{
    let Tested {
        sound,
        line: made,
        ..
    } = test;
    let missed = missed(&made, task.point, task.den);
    if sound && missed > 0 {
        Some(Found { line, made, missed })
    } else {
        None
    }
}

/// The table line with these weights over a line, if it holds and the point misses it.
#[tactic(auto, using(crate::proofs::HeldLines::light_is))]
fn table_with(
    alloc: Global,
    task: &TableTask,
    line: u32,
    kind: TableKind,
    weights: List<u32>,
) -> Result<Option<Found>, NoMemory>
    requires { All (λ weight. weight ≤ task.now.most_weight) weights }
    ensures { IfOk result (λ o. IfSome o (λ f. IsTableFor task.now f.line)) }
{
    let line = Line::Table {
        line,
        kind,
        weights,
    };
    let test = tested_line(alloc, task.instance, task.tested, &line)?;
    Ok(if_missed(task, line, test))
}

/// The table line by mean costs over a line, if it holds and the point misses it.
fn table_over(
    alloc: Global,
    task: &TableTask,
    i: u32,
    kind: TableKind,
) -> Result<Option<Found>, NoMemory>
    requires { i < length task.now.tested.now }
    ensures { IfOk result (λ o. IfSome o (λ f. IsTableFor task.now f.line)) }
{
    let links = task.instance.net.links().items();
    let costs = costs_of(alloc, links, line_in(task.tested, i))?;
    let right = right_of(alloc, task, i, kind, costs.copy()?)?;
    if right == 0 {
        return Ok(None);
    }
    let weights = weights_of(alloc, costs.items(), right, task.most_weight)?;
    table_with(alloc, task, i, kind, weights)
}

/// Puts the place of a table line last, if the point misses it.
fn push_spot(
    alloc: Global,
    task: &TableTask,
    spots: &mut List<Spot>,
    i: u32,
    kind: TableKind,
) -> Result<(), NoMemory>
    requires { i < length task.now.tested.now }
{
    if let Some(found) = table_over(alloc, task, i, kind)? {
        spots.push(Spot {
            line: i,
            kind,
            missed: found.missed,
        })?;
    }
    Ok(())
}

/// Puts the places of both table lines over a line last, as far as there can be a table over it and the point misses them.
fn push_spots(
    alloc: Global,
    task: &TableTask,
    spots: &mut List<Spot>,
    i: u32,
) -> Result<(), NoMemory>
    requires { i < length task.now.tested.now }
{
    let need = need_of(line_in(task.tested, i));
    if need == 0 || MOST_NEED < need {
        return Ok(());
    }
    push_spot(alloc, task, spots, i, TableKind::Plain)?;
    push_spot(alloc, task, spots, i, TableKind::Failing)
}

/// How late a place is taken.
fn lateness(spot: &Spot) -> u128 {
    u128::MAX - spot.missed
}

/// The places of all table lines that the point misses, those first that it misses most.
fn spots_of(alloc: Global, task: &TableTask) -> Result<List<Spot>, NoMemory> {
    let mut spots = List::new(alloc);
    for i in 0..task.tested.len().min(MOST_LINES) {
        push_spots(alloc, task, &mut spots, i as u32)?;
    }
    spots.items_mut().sort_by_key(alloc, |s| lateness(s))?;
    Ok(spots)
}

/// Whether an inequality is among these.
fn is_among(all: &[Inequality], line: &Inequality) -> bool {
    all.iter().any(|other| other.right == line.right && other.coefs == line.coefs)
}

/// Lines with their inequalities.
#[derive(Drop)]
struct Taken {
    lines: List<Line>,
    made: List<Inequality>,
}

/// Puts the table line of a place last, unless its inequality is there.
fn take(alloc: Global, task: &TableTask, taken: &mut Taken, spot: Spot) -> Result<(), NoMemory>
    requires { All (IsTableFor task.now) taken.old.lines }
    ensures each { OnOk result (All (IsTableFor task.now) taken.new.lines) }
    ensures count { OnOk result (length taken.new.lines ≤ length taken.old.lines + 1) }
{
    if spot.line as usize >= task.tested.len() {
        return Ok(());
    }
    let Some(found) = table_over(alloc, task, spot.line, spot.kind)? else {
        return Ok(());
    };
    if is_among(taken.made.items(), &found.made) {
        return Ok(());
    }
    let Found { line, made, .. } = found;
    taken.made.push(made)?;
    taken.lines.push(line)?;
    Ok(())
}

/// Table lines that a point misses, at most `most` and those first that it misses most: over each line that needs 1 to 4,096 a plain and a
/// failing one, with the mean cost of each kind of module as its weight, in parts of the right side. None is there twice.
///
/// What is promised is that each is a table line over one of the tested lines, with no weight above the greatest one, that it holds where
/// the tested lines do, and that the point doesn't meet it. How good they are is left free, and so is whether there are any: other weights
/// may miss the point by more, and what is missed by less than a ten-thousandth of the right side isn't looked at. Weights of at most 1,000
/// lose little, and of at most 20 a tenth of what lines gain.
///
/// It takes time in the tested lines times the kinds of modules times up to 4,096 and the modules, and memory for a number for each module
/// and line that is answered.
pub fn table_lines(alloc: Global, task: &TableTask, most: usize) -> Result<List<Line>, NoMemory>
    ensures lines { IfOk result (All (IsTableFor task.now)) }
    ensures few { IfOk result (λ lines. length lines ≤ most) }
{
    let spots = spots_of(alloc, task)?;
    let mut taken = Taken {
        lines: List::new(alloc),
        made: List::new(alloc),
    };
    for spot in spots.items() {
        if taken.lines.len() >= most {
            return Ok(taken.lines);
        }
        take(alloc, task, &mut taken, *spot)?;
    }
    Ok(taken.lines)
}
