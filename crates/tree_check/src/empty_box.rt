ghost use Rattle.std.specs.Prelude.{ℕ, ◌<◌, ◌↔◌, IsTrue, length};
ghost use Rattle.plan_terms.specs.Terms.{sum_below};
ghost use Rattle.line_check.specs.Inequalities.{module_number};
ghost use Rattle.tree_check.{specs.BoxValues.{IsEmptiedBy, most_along}, specs.inner.Emptying.{HasMost, IsMostOf, most_at}};

use crate::boxes::{Span, span_at};
use crate::gains::module_number;
use line_check::Inequality;
use line_check::inequality::coefficient;
use net_core::{Link, List};

/// The coefficient of a module times its greatest count; none where it has no greatest count and its coefficient is positive.
fn most_of(line: &Inequality, boxed: &[List<Span>], e: usize, m: usize) -> Option<u128>
    ensures { IsMostOf (HasMost line.now boxed.now e m) (most_at line.now boxed.now e m) result }
{
    let coef = coefficient(line, e, m);
    if coef == 0 {
        return Some(0);
    }
    let span = span_at(boxed, e, m);
    match span.most {
        None => None,
        Some(most) => Some(coef.saturating_mul(most as u128)),
    }
}

/// The sum of such products over the first modules of a link.
#[tactic(auto, using(crate::proofs::GainsMade::below_next))]
fn most_of_link(line: &Inequality, boxed: &[List<Span>], e: usize, modules: usize) -> Option<u128>
    ensures { IsMostOf ((m : ℕ) → m < modules → HasMost line.now boxed.now e m) (sum_below modules (most_at line.now boxed.now e)) result }
{
    let mut sum = 0u128;
    for m in 0..modules {
        match most_of(line, boxed, e, m) {
            None => return None,
            Some(most) => sum = sum.saturating_add(most),
        }
    }
    Some(sum)
}

/// The sum of such products over all modules.
#[tactic(auto, using(crate::proofs::GainsMade::below_next))]
fn most_of_box(line: &Inequality, links: &[Link], boxed: &[List<Span>]) -> Option<u128>
    ensures { IsMostOf ((e m : ℕ) → e < length links.now → m < module_number links.now e → HasMost line.now boxed.now e m)
        (most_along links.now boxed.now line.now) result }
{
    let mut sum = 0u128;
    for e in 0..links.len() {
        match most_of_link(line, boxed, e, module_number(links, e)) {
            None => return None,
            Some(most) => sum = sum.saturating_add(most),
        }
    }
    Some(sum)
}

/// Whether a line empties a box.
pub(crate) fn is_emptied(line: &Inequality, links: &[Link], boxed: &[List<Span>]) -> bool
    ensures { IsTrue result ↔ IsEmptiedBy links.now boxed.now line.now }
{
    match most_of_box(line, links, boxed) {
        None => false,
        Some(most) => line.given.saturating_add(most) < line.right,
    }
}
