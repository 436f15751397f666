ghost use Rattle.std.specs.Prelude.{◌≡◌, ◌≤◌, ◌<◌, ◌^◌, ◌↔◌, ℕ, All, IfOk, IsTrue, MatchOption, false, length, min};
ghost use Rattle.line_check.{specs.Inequalities.{module_number, module_price, summed_need}, specs.Lines.{IsDividedLine, divided_up}, specs.Testing.{names_by, weighed}, specs.inner.Dividing.{AreDividedCoefs, AreLinkCoefs, HasWidePrice, KeepsLimits}};

use crate::inequality::Inequality;
use crate::sums::{module_price, summed_need};
use crate::tested_lines::{Tested, are_sound};
use master_bound::Multiplier;
use net_core::{Link, List, NoMemory};
use std::alloc::Global;

/// From here on a sum is too wide.
const WIDE: u128 = 1 << 126;

/// How many lines are summed at most.
const MOST_TERMS: usize = 256;

/// A number over a divisor, rounded up.
#[tactic(auto, using(crate::proofs::DividedLines::up_is))]
fn divided_up(n: u128, divisor: u128) -> u128
    requires positive { 1 ≤ divisor }
    ensures { result ≡ divided_up n divisor }
{
    n.div_ceil(divisor)
}

/// Whether a divisor and numerators keep their limits.
fn are_in_limits(divisor: u128, terms: &[Multiplier]) -> bool
    ensures { IsTrue result ↔ KeepsLimits divisor terms.now }
{
    (1..WIDE).contains(&divisor)
        && (1..=MOST_TERMS).contains(&terms.len())
        && terms.iter().all(|m| 1 <= m.num && m.num < 1 << 62)
}

/// The coefficients of a link's modules; none where a sum is too wide.
fn link_coefs(
    alloc: Global,
    tested: &[Tested],
    divisor: u128,
    terms: &[Multiplier],
    need: u128,
    e: usize,
    modules: usize,
) -> Result<Option<List<u128>>, NoMemory>
    requires known { All (λ x. x.cut < length tested.now) terms.now }
    requires positive { 1 ≤ divisor }
    ensures { IfOk result (λ o. MatchOption o (HasWidePrice (weighed tested.now terms.now) e modules)
        (AreLinkCoefs (weighed tested.now terms.now) need divisor e modules)) }
{
    let mut coefs = List::new(alloc);
    for m in 0..modules {
        let price = module_price(tested, terms, e, m);
        if price >= WIDE {
            return Ok(None);
        }
        coefs.push(divided_up(price.min(need), divisor))?;
    }
    Ok(Some(coefs))
}

/// The coefficients of all modules; none where a sum is too wide.
fn all_coefs(
    alloc: Global,
    links: &[Link],
    tested: &[Tested],
    divisor: u128,
    terms: &[Multiplier],
    need: u128,
) -> Result<Option<List<List<u128>>>, NoMemory>
    requires known { All (λ x. x.cut < length tested.now) terms.now }
    requires positive { 1 ≤ divisor }
    ensures { IfOk result (λ o. MatchOption o ((e : ℕ) × (e < length links.now) × HasWidePrice (weighed tested.now terms.now) e (module_number links.now e))
        (AreDividedCoefs links.now (weighed tested.now terms.now) need divisor (length links.now))) }
{
    let mut coefs = List::new(alloc);
    for e in 0..links.len() {
        let modules = links[e].modules.len();
        match link_coefs(alloc, tested, divisor, terms, need, e, modules)? {
            Some(link) => coefs.push(link)?,
            None => return Ok(None),
        }
    }
    Ok(Some(coefs))
}

/// The divided line of earlier lines; none where one of them doesn't hold, or a number passes its limit.
/// It takes time in the terms times the modules, and memory for a number for each module.
pub(crate) fn divided_line(
    alloc: Global,
    links: &[Link],
    tested: &[Tested],
    divisor: u128,
    terms: &[Multiplier],
) -> Result<Option<Inequality>, NoMemory>
    ensures { IfOk result (λ o. MatchOption o ((made : Inequality) → IsDividedLine links.now (names_by tested.now false) divisor terms.now made → ⊥)
        (IsDividedLine links.now (names_by tested.now false) divisor terms.now)) }
{
    if !are_in_limits(divisor, terms) {
        return Ok(None);
    }
    if !are_sound(tested, terms) {
        return Ok(None);
    }
    let need = summed_need(tested, terms);
    if need >= WIDE {
        return Ok(None);
    }
    match all_coefs(alloc, links, tested, divisor, terms, need)? {
        None => Ok(None),
        Some(coefs) => Ok(Some(Inequality {
            coefs,
            given: 0,
            right: divided_up(need, divisor),
        })),
    }
}
