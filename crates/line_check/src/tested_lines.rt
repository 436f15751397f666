ghost use Rattle.std.{specs.Prelude.{◌≡◌, ◌↔◌, ◌++◌, true, List, [], All, IfOk, IsTrue, MatchOption, OnOk, map}, proofs.Common.{inl, inr}};
ghost use Rattle.plan_terms.specs.Terms.{case_of};
ghost use Rattle.line_check.{specs.Lines.{Source, sources_of}, specs.declared.line.Line.TheVariants.{Divided, Table}, specs.declared.line.TableKind.TheVariants.{Plain, Failing}, specs.declared.tested_lines.Tested.Tested, specs.Testing.{AreTested, IsSoundAt, IsTestedAs, no_test}, specs.inner.Dividing.IsRobustAt};

use crate::cuts::is_cut;
use crate::divided_line::divided_line;
use crate::inequality::{Inequality, line_of_cut};
use crate::line::{Line, TableKind};
use crate::sums::line_in;
use crate::tables::table_line;
use master_bound::Multiplier;
use net_core::{CutLine, Instance, List, NoMemory};
use std::alloc::Global;

/// A line that was tested: whether it holds, whether it is robust, and its inequality if it holds.
#[derive(Drop)]
pub struct Tested {
    /// All counts that carry the demands meet it.
    pub sound: bool,
    /// In each state what is left of such counts meets it.
    pub robust: bool,
    pub line: Inequality,
}

/// What doesn't hold.
fn refused(alloc: Global) -> Tested
    ensures { result ≡ no_test }
{
    Tested {
        sound: false,
        robust: false,
        line: Inequality {
            coefs: List::new(alloc),
            given: 0,
            right: 0,
        },
    }
}

/// A cut, tested. It takes a search from each node, and memory for the distance of each pair of nodes and a number of each module.
pub fn tested_cut(alloc: Global, instance: &Instance, cut: &CutLine) -> Result<Tested, NoMemory>
    ensures { IfOk result (λ t. (earlier : List Tested) → IsTestedAs (case_of instance.now) earlier (inl cut.now) t) }
{
    if !is_cut(alloc, instance, cut)? {
        return Ok(refused(alloc));
    }
    Ok(Tested {
        sound: true,
        robust: cut.state.0 == 0,
        line: line_of_cut(alloc, instance.net, cut)?,
    })
}

/// Whether an index is that of a line that holds. It takes constant time.
pub fn is_sound(tested: &[Tested], i: u32) -> bool
    ensures { IsTrue result ↔ IsSoundAt tested.now i }
{
    if i as usize >= tested.len() {
        return false;
    }
    tested[i as usize].sound
}

/// Whether all indices are those of lines that hold. It takes time in the number of indices.
pub fn are_sound(tested: &[Tested], lines: &[Multiplier]) -> bool
    ensures { IsTrue result ↔ All (λ m. IsSoundAt tested.now m.cut) lines.now }
{
    lines.iter().all(|m| is_sound(tested, m.cut))
}

/// Whether an index is that of a robust line.
fn is_robust(tested: &[Tested], i: u32) -> bool
    ensures { IsTrue result ↔ IsRobustAt tested.now i }
{
    if i as usize >= tested.len() {
        return false;
    }
    tested[i as usize].sound && tested[i as usize].robust
}

/// Whether all indices are those of robust lines.
fn are_robust(tested: &[Tested], lines: &[Multiplier]) -> bool
    ensures { IsTrue result ↔ All (λ m. IsRobustAt tested.now m.cut) lines.now }
{
    lines.iter().all(|m| is_robust(tested, m.cut))
}

/// A line that was found to hold, or not.
fn told(alloc: Global, made: Option<Inequality>, robust: bool) -> Tested
    ensures { MatchOption made (result ≡ no_test) (λ line. result ≡ record { sound = true; robust = robust; line = line }) }
{
    match made {
        None => refused(alloc),
        Some(line) => Tested {
            sound: true,
            robust,
            line,
        },
    }
}

/// A divided line, tested.
fn tested_divided(
    alloc: Global,
    instance: &Instance,
    tested: &[Tested],
    divisor: u128,
    terms: &[Multiplier],
) -> Result<Tested, NoMemory>
    ensures { IfOk result (IsTestedAs (case_of instance.now) tested.now (inr (Divided divisor terms.now))) }
{
    let links = instance.net.links().items();
    let made = divided_line(alloc, links, tested, divisor, terms)?;
    let robust = are_robust(tested, terms);
    Ok(told(alloc, made, robust))
}

/// A plain table line, tested.
fn tested_plain(
    alloc: Global,
    instance: &Instance,
    tested: &[Tested],
    line: u32,
    weights: &[u32],
) -> Result<Tested, NoMemory>
    ensures { IfOk result (IsTestedAs (case_of instance.now) tested.now (inr (Table line Plain weights.now))) }
{
    if !is_sound(tested, line) {
        return Ok(refused(alloc));
    }
    let robust = is_robust(tested, line);
    let over = line_in(tested, line);
    let made = table_line(alloc, instance, over, TableKind::Plain, weights)?;
    Ok(told(alloc, made, robust))
}

/// A failing table line, tested. It is made of a robust line, and isn't robust itself.
fn tested_failing(
    alloc: Global,
    instance: &Instance,
    tested: &[Tested],
    line: u32,
    weights: &[u32],
) -> Result<Tested, NoMemory>
    ensures { IfOk result (IsTestedAs (case_of instance.now) tested.now (inr (Table line Failing weights.now))) }
{
    if !is_robust(tested, line) {
        return Ok(refused(alloc));
    }
    let over = line_in(tested, line);
    let made = table_line(alloc, instance, over, TableKind::Failing, weights)?;
    Ok(told(alloc, made, false))
}

/// A table line, tested.
fn tested_table(
    alloc: Global,
    instance: &Instance,
    tested: &[Tested],
    line: u32,
    kind: TableKind,
    weights: &[u32],
) -> Result<Tested, NoMemory>
    ensures { IfOk result (IsTestedAs (case_of instance.now) tested.now (inr (Table line kind weights.now))) }
{
    match kind {
        TableKind::Plain => tested_plain(alloc, instance, tested, line, weights),
        TableKind::Failing => tested_failing(alloc, instance, tested, line, weights),
    }
}

/// A line, tested by the tests of earlier ones. It takes time in its terms times the modules, or up to 4,096 times the kinds of modules,
/// and memory for a number for each module.
pub fn tested_line(
    alloc: Global,
    instance: &Instance,
    tested: &[Tested],
    line: &Line,
) -> Result<Tested, NoMemory>
    ensures { IfOk result (IsTestedAs (case_of instance.now) tested.now (inr line.now)) }
{
    match line {
        Line::Divided { divisor, terms } => {
            tested_divided(alloc, instance, tested, *divisor, terms.items())
        }
        Line::Table {
            line,
            kind,
            weights,
        } => tested_table(alloc, instance, tested, *line, *kind, weights.items()),
    }
}

/// Tests cuts, and puts their tests into a list that has none yet.
fn add_cuts(
    alloc: Global,
    instance: &Instance,
    cuts: &[CutLine],
    tested: &mut List<Tested>,
) -> Result<(), NoMemory>
    requires { tested.old ≡ [] }
    ensures { OnOk result (AreTested (case_of instance.now) (map inl cuts.now) tested.new) }
{
    for cut in cuts {
        let test = tested_cut(alloc, instance, cut)?;
        tested.push(test)?;
    }
    Ok(())
}

/// Tests further lines by the tests before them, and puts their tests last.
fn add_lines(
    alloc: Global,
    instance: &Instance,
    lines: &[Line],
    tested: &mut List<Tested>,
) -> Result<(), NoMemory>
    ensures { OnOk result ((first : List Source) → AreTested (case_of instance.now) first tested.old
        → AreTested (case_of instance.now) (first ++ map inr lines.now) tested.new) }
{
    for line in lines {
        let test = tested_line(alloc, instance, tested.items(), line)?;
        tested.push(test)?;
    }
    Ok(())
}

/// All cuts, and then all further lines, tested one by one. It takes the time and the memory of each of the tests.
pub fn tested_lines(
    alloc: Global,
    instance: &Instance,
    cuts: &[CutLine],
    lines: &[Line],
) -> Result<List<Tested>, NoMemory>
    ensures { IfOk result (AreTested (case_of instance.now) (sources_of cuts.now lines.now)) }
{
    let mut tested = List::new(alloc);
    add_cuts(alloc, instance, cuts, &mut tested)?;
    add_lines(alloc, instance, lines, &mut tested)?;
    Ok(tested)
}
