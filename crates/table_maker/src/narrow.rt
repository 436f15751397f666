ghost use Rattle.std.{specs.Int.◌∣◌, specs.Prelude.{◌≡◌, ◌+◌, ◌^◌, ◌≤◌, ◌<◌, ◌↔◌, ℕ, All, IfOk, IsTrue, OnOk, length, min}};
ghost use Rattle.plan_terms.specs.Terms.{case_of};
ghost use Rattle.line_check.specs.Terms.{need_of, test_at, capped};
ghost use Rattle.table_maker.{specs.Made.{DividesLine, HasLineOver, IsFineDivisor, IsNarrowLine, IsWideLine, MayCarryTable, line_over}, specs.inner.Weighing.IsNarrowDivisor};

use crate::kinds::need_of;
use checked_fraction::gcd;
use line_check::inequality::coefficient;
use line_check::tested_lines::tested_line;
use line_check::{Inequality, Line, Tested, line_in};
use master_bound::Multiplier;
use net_core::{Instance, Link, List, NoMemory};
use std::alloc::Global;

/// Of more lines the first ones are taken.
pub(crate) const MOST_LINES: usize = 1 << 32;

/// What the line under a table line needs at most.
pub(crate) const MOST_NEED: u128 = 4096;

/// The greatest number that divides another one and what the modules of a link give.
fn common_on(line: &Inequality, e: usize, modules: usize, known: u128) -> u128
    requires { 0 < known }
    ensures positive { 0 < result }
    ensures known { result ∣ known }
    ensures gives { (m : ℕ) → m < modules → result ∣ capped line.now e m }
{
    let need = need_of(line);
    let mut common = known;
    for m in 0..modules {
        common = gcd(common, coefficient(line, e, m).min(need));
    }
    common
}

/// The greatest number that divides what a line needs and what its modules give of it.
fn common_in(links: &[Link], line: &Inequality) -> u128
    requires { 0 < need_of line.now }
    ensures positive { 0 < result }
    ensures divides { DividesLine links.now line.now result }
{
    let mut common = need_of(line);
    for e in 0..links.len() {
        common = common_on(line, e, links[e].modules.len(), common);
    }
    common
}

/// The divisor over which a line is narrow: what divides all its numbers, if that is enough; else the least that is.
fn narrow_divisor(links: &[Link], line: &Inequality) -> u128
    requires { 0 < need_of line.now }
    ensures fine { IsFineDivisor links.now line.now result }
    ensures narrow { IsNarrowDivisor line.now result }
{
    let common = common_in(links, line);
    let least = need_of(line).div_ceil(MOST_NEED);
    if common < least { least } else { common }
}

/// The line of an index over a divisor.
fn line_over(alloc: Global, i: u32, divisor: u128) -> Result<Line, NoMemory>
    ensures { IfOk result (λ line. line ≡ line_over i divisor) }
{
    let mut terms = List::new(alloc);
    terms.push(Multiplier { num: 1, cut: i })?;
    Ok(Line::Divided { divisor, terms })
}

/// Whether a line holds, and tables over it are small enough.
fn is_narrow(test: &Tested) -> bool
    ensures { IsTrue result ↔ MayCarryTable test.now }
{
    let need = need_of(&test.line);
    test.sound && 1 <= need && need <= MOST_NEED
}

/// Puts the line of an index over a divisor last, if it is narrow.
fn push_narrow(
    alloc: Global,
    instance: &Instance,
    tested: &[Tested],
    lines: &mut List<Line>,
    i: u32,
    divisor: u128,
) -> Result<(), NoMemory>
    requires inside { i < length tested.now }
    requires divisor { IsNarrowDivisor (test_at tested.now i).line divisor }
    requires fine { IsFineDivisor (case_of instance.now).links (test_at tested.now i).line divisor }
    requires lines { All (IsNarrowLine (case_of instance.now) tested.now) lines.old }
    ensures lines { OnOk result (All (IsNarrowLine (case_of instance.now) tested.now) lines.new) }
    ensures count { OnOk result (length lines.new ≤ length lines.old + 1) }
    ensures kept { OnOk result ((k : ℕ) → HasLineOver (case_of instance.now).links tested.now lines.old k
        → HasLineOver (case_of instance.now).links tested.now lines.new k) }
    ensures new { OnOk result (IsWideLine (case_of instance.now).links (test_at tested.now i)
        → HasLineOver (case_of instance.now).links tested.now lines.new i) }
{
    let line = line_over(alloc, i, divisor)?;
    let test = tested_line(alloc, instance, tested, &line)?;
    if !is_narrow(&test) {
        return Ok(());
    }
    lines.push(line)?;
    Ok(())
}

/// Puts the narrow line of the line of an index last, if that needs too much and holds.
fn add_narrow(
    alloc: Global,
    instance: &Instance,
    tested: &[Tested],
    lines: &mut List<Line>,
    i: u32,
) -> Result<(), NoMemory>
    requires inside { i < length tested.now }
    requires lines { All (IsNarrowLine (case_of instance.now) tested.now) lines.old }
    ensures lines { OnOk result (All (IsNarrowLine (case_of instance.now) tested.now) lines.new) }
    ensures count { OnOk result (length lines.new ≤ length lines.old + 1) }
    ensures kept { OnOk result ((k : ℕ) → HasLineOver (case_of instance.now).links tested.now lines.old k
        → HasLineOver (case_of instance.now).links tested.now lines.new k) }
    ensures new { OnOk result (IsWideLine (case_of instance.now).links (test_at tested.now i)
        → HasLineOver (case_of instance.now).links tested.now lines.new i) }
{
    let line = line_in(tested, i);
    if need_of(line) <= MOST_NEED {
        return Ok(());
    }
    let divisor = narrow_divisor(instance.net.links().items(), line);
    push_narrow(alloc, instance, tested, lines, i, divisor)
}

/// For each line that holds and needs more than 4,096 one over a divisor, which needs at most that, so that there can be a table over it.
/// There is one for each whose numbers are below 2^126, as those of cuts are. By the rule of divided lines it is robust where the line is.
///
/// The divisor divides all numbers of the line, so that nothing is rounded; or it is the least that leaves at most 4,096. A line that needs
/// 574,000 over modules of 155,000 and 622,000 is divided by 1,000; one that needs 5,000 over modules of 1,999 is divided by 2.
///
/// It takes time in the lines times the modules, and memory for as many lines.
pub fn narrow_lines(
    alloc: Global,
    instance: &Instance,
    tested: &[Tested],
) -> Result<List<Line>, NoMemory>
    ensures lines { IfOk result (All (IsNarrowLine (case_of instance.now) tested.now)) }
    ensures few { IfOk result (λ lines. length lines ≤ length tested.now) }
    ensures all { IfOk result (λ lines. (i : ℕ) → i < min (length tested.now) (2 ^ 32)
        → IsWideLine (case_of instance.now).links (test_at tested.now i) → HasLineOver (case_of instance.now).links tested.now lines i) }
{
    let mut lines = List::new(alloc);
    let count = tested.len().min(MOST_LINES);
    for i in 0..count {
        add_narrow(alloc, instance, tested, &mut lines, i as u32)?;
    }
    Ok(lines)
}
