ghost use Rattle.std.{specs.Prelude.{◌≡◌, ◌<◌, ◌≤◌, ◌^◌, All, IfOk, IfSome, length}, specs.List.AllZip};
ghost use Rattle.box_program.{specs.Solutions.{IsFrom, IsSolutionOf}, specs.inner.BoxRows.{AreRowsOf, IsAmountAt}};

use crate::certificate::certificate_of;
use crate::columns::columns_of;
use crate::program::{BoxColumns, BoxProgram};
use crate::rank::rank_of;
use crate::rows::{rows_of, scale_of};
use crate::shape::{ModuleRow, Scale};
use line_check::Tested;
use net_core::{Link, List, NoMemory};
use simplex_core::{Optimum, SimplexFault, solve};
use std::alloc::Global;
use tree_check::{BoxCert, Boxed, Span};

/// Lines by their indices, of which a program takes those from one on.
#[derive(Clone, Copy)]
pub struct Lines<'a> {
    pub tested: &'a [Tested],
    /// Earlier lines are left out, and no certificate names them.
    pub first: usize,
    /// What divides each number of the lines that are taken.
    pub unit: u128,
}

/// How much of a module a box's program takes: a whole part, and further parts over a denominator.
#[derive(Clone, Copy)]
pub struct Amount {
    pub link: usize,
    pub module: usize,
    pub whole: u128,
    /// Below the denominator.
    pub part: u128,
}

/// The optimum of a box's program.
#[derive(Drop)]
pub struct Solution {
    pub cert: BoxCert,
    /// The modules of several counts.
    pub amounts: List<Amount>,
    pub den: u128,
    /// What the program is worth, in thousandths of a unit.
    pub rank: u128,
}

/// Of more lines the first ones are taken.
const MOST_LINES: usize = 1 << 24;

/// The amount of a module at the price of its row.
#[tactic(auto, using(crate::proofs::Amounts::lies_at_most, crate::proofs::Amounts::lies_below, crate::proofs::Amounts::lies_above))]
fn amount_of(row: &ModuleRow, price: u128, den: u128) -> Amount
    requires { 0 < den }
    ensures { IsAmountAt den row.now result }
{
    let (link, module) = (row.link, row.module);
    let whole = row.span.least.saturating_add(price / den);
    let part = price % den;
    if let Some(most) = row.span.most {
        if whole >= most as u128 {
            return Amount {
                link,
                module,
                whole: most as u128,
                part: 0,
            };
        }
    }
    Amount {
        link,
        module,
        whole,
        part,
    }
}

/// The amounts of all modules of several counts.
#[tactic(auto, using(crate::proofs::Amounts::amounts_more))]
fn amounts_of(
    alloc: Global,
    modules: &[ModuleRow],
    nums: &[i64],
    den: u128,
) -> Result<List<Amount>, NoMemory>
    requires some { 0 < den }
    requires prices { length modules.now ≤ length nums.now }
    ensures { IfOk result (AllZip (IsAmountAt den) modules.now) }
{
    let mut amounts = List::new(alloc);
    for row in 0..modules.len() {
        let price = nums[row].unsigned_abs() as u128;
        amounts.push(amount_of(&modules[row], price, den))?;
    }
    Ok(amounts)
}

/// The denominator of an optimum's prices.
fn price_den(best: &Optimum<u32>) -> u128
    ensures { 0 < result }
{
    best.duals.den().unsigned_abs() as u128
}

/// The solution of an optimum, where lines were divided by one unit, and costs by another.
fn solution_of(
    alloc: Global,
    links: &[Link],
    boxed: &[List<Span>],
    program: &BoxProgram,
    best: &Optimum<u32>,
    line_unit: u128,
    cost_unit: u64,
) -> Result<Solution, NoMemory>
    requires rows { AreRowsOf links.now boxed.now program.now.rows.modules }
    requires prices { length best.now.duals.nums ≡ length program.now.rows.bounds }
    ensures is { IfOk result (IsSolutionOf links.now program.now.lines boxed.now) }
    ensures later { IfOk result (λ s. All (IsFrom program.now.first) s.cert.lines) }
{
    let den = price_den(best);
    let modules = program.rows.modules.items();
    let amounts = amounts_of(alloc, modules, best.duals.nums(), den)?;
    let cert = certificate_of(alloc, program, best, line_unit, cost_unit)?;
    let rank = rank_of(links, boxed, amounts.items(), den);
    Ok(Solution {
        cert,
        amounts,
        den,
        rank,
    })
}

/// The first lines, as many as a program may have.
fn first_lines(tested: &[Tested]) -> &[Tested]
    ensures few { length result.now ≤ 2 ^ 24 }
    ensures fewer { length result.now ≤ length tested.now }
{
    &tested[..tested.len().min(MOST_LINES)]
}

/// The program of a box; none where it has too many modules of several counts.
fn program_of(
    alloc: Global,
    links: &[Link],
    lines: Lines,
    boxed: &[List<Span>],
    scale: &Scale,
) -> Result<Option<BoxProgram>, NoMemory>
    requires { 0 < lines.unit }
    ensures rows { IfOk result (λ o. IfSome o (λ p. AreRowsOf links.now boxed.now p.rows.modules)) }
    ensures lines { IfOk result (λ o. IfSome o (λ p. p.lines ≤ length lines.entry.tested.now)) }
    ensures first { IfOk result (λ o. IfSome o (λ p. p.first ≡ lines.entry.first)) }
{
    let tested = first_lines(lines.tested);
    let Some(rows) = rows_of(alloc, links, boxed, scale)? else {
        return Ok(None);
    };
    let columns = columns_of(alloc, &rows, links, boxed, tested, lines.first, lines.unit)?;
    Ok(Some(BoxProgram {
        rows,
        columns,
        first: lines.first,
        lines: tested.len() as u32,
    }))
}

/// The optimum of a program; none where a number is too wide.
fn optimum_of(alloc: Global, program: &BoxProgram) -> Result<Option<Optimum<u32>>, NoMemory>
    ensures { IfOk result (λ o. IfSome o (λ best. length best.duals.nums ≡ length program.now.rows.bounds)) }
{
    let mut columns = BoxColumns { program };
    match solve(alloc, &mut columns) {
        Ok(best) => Ok(Some(best)),
        Err(SimplexFault::Wide { .. }) => Ok(None),
        Err(SimplexFault::NoMemory) => Err(NoMemory),
    }
}

/// What the program of a box leaves, where the plan has this cost: for each module of several counts an amount, in whole parts and
/// further parts over one denominator, which together cost least of all that meet the lines; and numerators of lines over a
/// denominator, a certificate of the greatest value for the box. None where a number is too wide.
///
/// Only the form of what is answered is promised: that each amount is in its module's span, and that no line before the first one taken
/// is named. Where all numbers are small, it is the
/// optimum; `value_in` says what the certificate is worth.
///
/// One link with a module of 5.000 for 3.000, and a line that asks for 12.000 of it: in the box of all counts the amount is 2 and 2 / 5,
/// the certificate has the line 3 times over 5, and the rank is 7,200,000, which is 7.200 in thousandths of a unit.
///
/// It takes time that grows with the turns of the simplex method, each in the square of the count of such modules and in their number
/// times that of lines, and as much memory.
#[tactic(auto, using(crate::proofs::Amounts::solution_weaker))]
pub fn solved(
    alloc: Global,
    links: &[Link],
    cost: u128,
    lines: Lines,
    boxed: &Boxed,
) -> Result<Option<Solution>, NoMemory>
    ensures solution { IfOk result (λ o. IfSome o (IsSolutionOf links.now (length lines.entry.tested.now) boxed.now)) }
    ensures later { IfOk result (λ o. IfSome o (λ s. All (IsFrom lines.entry.first) s.cert.lines)) }
{
    let Some(scale) = scale_of(links, cost) else {
        return Ok(None);
    };
    let unit = lines.unit.max(1);
    let lines = Lines { unit, ..lines };
    let spans = boxed.items();
    let Some(program) = program_of(alloc, links, lines, spans, &scale)? else {
        return Ok(None);
    };
    let Some(best) = optimum_of(alloc, &program)? else {
        return Ok(None);
    };
    let solution = solution_of(alloc, links, spans, &program, &best, unit, scale.unit)?;
    Ok(Some(solution))
}
