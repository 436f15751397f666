ghost use Rattle.std.specs.Prelude.{◌<◌, All, IfOk, OnOk};
ghost use Rattle.box_program.specs.Solutions.{IsCertificateOf, IsFrom, IsMultiplierOf};

use crate::program::BoxProgram;
use checked_fraction::gcd;
use net_core::{List, NoMemory};
use simplex_core::Optimum;
use std::alloc::Global;
use tree_check::{BoxCert, Multiplier};

/// A line's numerator in a certificate.
#[derive(Clone, Copy)]
struct Term {
    line: u32,
    num: u128,
}

/// The line of a column by its name, if it is of one.
fn line_of(program: &BoxProgram, name: u32) -> Option<u32> {
    let columns = program.columns.items();
    let rows = program.rows.bounds.len();
    let name = name as usize;
    if name < rows || name - rows >= columns.len() {
        return None;
    }
    columns[name - rows].line
}

/// The lines of an optimum, with their numerators.
fn terms_of(
    alloc: Global,
    program: &BoxProgram,
    best: &Optimum<u32>,
    unit: u64,
) -> Result<List<Term>, NoMemory> {
    let (names, values) = (best.basis.items(), best.values.items());
    let mut terms = List::new(alloc);
    for j in 0..names.len().min(values.len()) {
        if let Some(line) = line_of(program, names[j]) {
            let num = values[j].saturating_mul(unit as u128);
            terms.push(Term { line, num })?;
        }
    }
    Ok(terms)
}

/// The greatest number that divides another one and all numerators; 1 where that is 0.
fn common_divisor(den: u128, terms: &[Term]) -> u128
    ensures { 0 < result }
{
    let mut common = den;
    for term in terms {
        common = gcd(common, term.num);
    }
    common.max(1)
}

/// The greatest of a number and all numerators.
fn widest(den: u128, terms: &[Term]) -> u128 {
    terms.iter().fold(den, |widest, term| widest.max(term.num))
}

/// What a denominator and all numerators are divided by: what divides them all, or a multiple of it, where some would be wider than
/// 60 bits.
fn divisor_for(den: u128, terms: &[Term]) -> u128
    ensures { 0 < result }
{
    let common = common_divisor(den, terms);
    let parts = widest(den, terms) / common >> 60;
    common.saturating_mul(parts + 1).max(1)
}

/// Puts the multiplier of one of the lines last, unless it is of one before the first, 0 or too wide.
fn push_multiplier(
    multipliers: &mut List<Multiplier>,
    first: usize,
    lines: u32,
    line: u32,
    num: u128,
) -> Result<(), NoMemory>
    requires are { All (IsMultiplierOf lines) multipliers.old }
    requires later { All (IsFrom first) multipliers.old }
    ensures are { OnOk result (All (IsMultiplierOf lines) multipliers.new) }
    ensures later { OnOk result (All (IsFrom first) multipliers.new) }
{
    let known = first <= line as usize && line < lines;
    if !known || num == 0 || num >= 1 << 62 {
        return Ok(());
    }
    multipliers.push(Multiplier {
        cut: line,
        num: num as u64,
    })?;
    Ok(())
}

/// The multipliers of numerators over a divisor.
fn multipliers_of(
    alloc: Global,
    first: usize,
    lines: u32,
    terms: &[Term],
    divisor: u128,
) -> Result<List<Multiplier>, NoMemory>
    requires { 0 < divisor }
    ensures are { IfOk result (All (IsMultiplierOf lines)) }
    ensures later { IfOk result (All (IsFrom first)) }
{
    let mut multipliers = List::new(alloc);
    for term in terms {
        push_multiplier(
            &mut multipliers,
            first,
            lines,
            term.line,
            term.num / divisor,
        )?;
    }
    Ok(multipliers)
}

/// The certificate of an optimum, where lines were divided by one unit, and costs by another. Where its numbers are wide, numerators are
/// rounded down and the denominator up, so that it stays one.
pub(crate) fn certificate_of(
    alloc: Global,
    program: &BoxProgram,
    best: &Optimum<u32>,
    line_unit: u128,
    cost_unit: u64,
) -> Result<BoxCert, NoMemory>
    ensures are { IfOk result (IsCertificateOf program.now.lines) }
    ensures later { IfOk result (λ cert. All (IsFrom program.now.first) cert.lines) }
{
    let terms = terms_of(alloc, program, best, cost_unit)?;
    let den = (best.den as u128).saturating_mul(line_unit);
    let divisor = divisor_for(den, terms.items());
    let lines = multipliers_of(alloc, program.first, program.lines, terms.items(), divisor)?;
    Ok(BoxCert {
        den: den.div_ceil(divisor).max(1),
        lines,
    })
}
