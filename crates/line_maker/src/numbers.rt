ghost use Rattle.std.specs.Prelude.{◌≡◌, ◌<◌, IfOk};
ghost use Rattle.line_check.specs.Terms.{need_of, divided_up};
ghost use Rattle.line_maker.specs.inner.Divisors.{IsLineDivisor};

use checked_fraction::gcd;
use line_check::inequality::coefficient;
use line_check::{Inequality, Tested};
use net_core::{Link, List, NoMemory};
use std::alloc::Global;

/// Divisors stay below this.
const WIDE: u128 = 1 << 126;

/// An inequality as one row of numbers.
#[derive(Drop)]
pub(crate) struct Numbers {
    /// A coefficient for each module of each link, link by link.
    pub coefs: List<u128>,
    /// What the modules have to give.
    pub need: u128,
}

/// A divided line with its divisor, whose numbers have no common divisor left.
#[derive(Drop)]
pub(crate) struct Lowest {
    pub divisor: u128,
    pub numbers: Numbers,
    ghost limits: { IsLineDivisor divisor },
}

/// Puts the coefficients of a link's modules last.
fn push_link(
    row: &mut List<u128>,
    line: &Inequality,
    e: usize,
    modules: usize,
) -> Result<(), NoMemory> {
    for m in 0..modules {
        row.push(coefficient(line, e, m))?;
    }
    Ok(())
}

/// The numbers of an inequality.
pub(crate) fn numbers_of(
    alloc: Global,
    links: &[Link],
    line: &Inequality,
) -> Result<Numbers, NoMemory>
    ensures { IfOk result (λ numbers. numbers.need ≡ need_of line.now) }
{
    let mut coefs = List::new(alloc);
    for e in 0..links.len() {
        push_link(&mut coefs, line, e, links[e].modules.len())?;
    }
    Ok(Numbers {
        coefs,
        need: line.right.saturating_sub(line.given),
    })
}

/// The numbers of all lines that were tested.
pub(crate) fn all_numbers(
    alloc: Global,
    links: &[Link],
    tested: &[Tested],
) -> Result<List<Numbers>, NoMemory> {
    let mut all = List::new(alloc);
    for t in tested {
        all.push(numbers_of(alloc, links, &t.line)?)?;
    }
    Ok(all)
}

/// A divisor, within the limits of a line.
pub(crate) fn in_limits(divisor: u128) -> u128
    ensures { IsLineDivisor result }
{
    divisor.max(1).min(WIDE - 1)
}

/// A number over a divisor, rounded up.
#[tactic(auto, using(crate::proofs::SummedLines::rounded_is))]
pub(crate) fn divided_up(number: u128, divisor: u128) -> u128
    requires { 0 < divisor }
    ensures { result ≡ divided_up number divisor }
{
    number.div_ceil(divisor)
}

/// A coefficient, no more than what is needed, over a divisor and rounded up.
pub(crate) fn divided(coef: u128, need: u128, divisor: u128) -> u128
    requires { 0 < divisor }
{
    divided_up(coef.min(need), divisor)
}

/// The greatest number that divides what is needed and all coefficients over a divisor, each rounded up.
fn common_of(numbers: &Numbers, divisor: u128) -> u128
    requires { 0 < divisor }
{
    let mut common = divided_up(numbers.need, divisor);
    for coef in numbers.coefs.items() {
        common = gcd(common, divided(*coef, numbers.need, divisor));
    }
    common
}

/// Coefficients that are capped at what is needed, over a divisor and rounded up.
fn all_divided(alloc: Global, numbers: &Numbers, divisor: u128) -> Result<List<u128>, NoMemory>
    requires { 0 < divisor }
{
    let mut coefs = List::new(alloc);
    for coef in numbers.coefs.items() {
        coefs.push(divided(*coef, numbers.need, divisor))?;
    }
    Ok(coefs)
}

/// The line over a divisor, and further over what then divides all its numbers.
pub(crate) fn in_lowest(alloc: Global, numbers: &Numbers, divisor: u128) -> Result<Lowest, NoMemory>
    requires { IsLineDivisor divisor }
    ensures { IfOk result (λ lowest. lowest.numbers.need ≡ divided_up numbers.now.need lowest.divisor) }
{
    let common = common_of(numbers, divisor);
    let divisor = in_limits(divisor.saturating_mul(common));
    Ok(Lowest {
        divisor,
        numbers: Numbers {
            coefs: all_divided(alloc, numbers, divisor)?,
            need: divided_up(numbers.need, divisor),
        },
    })
}

/// Whether two rows of numbers are equal.
pub(crate) fn are_same(a: &Numbers, b: &Numbers) -> bool {
    a.need == b.need && a.coefs == b.coefs
}
