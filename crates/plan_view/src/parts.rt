ghost use Rattle.std.specs.Prelude.{◌≡◌, ◌-◌, ◌*◌, ◌^◌, ◌<◌, ◌≤◌, All, None, length, min};
ghost use Rattle.plan_terms.specs.Terms.{raw_value};
ghost use Rattle.plan_types.specs.Terms.{lines_of_certificate};
ghost use Rattle.net_core.specs.Limits.{most_links};
ghost use Rattle.plan_view.{specs.Parts.{IsGap, paid_by}, specs.Rounding.IsNearest, specs.inner.Lines.{asked_among, given_among, is_among}};

use crate::fractions::thousandths;
use metric_cut::fixed_along;
use net_core::Link;
use plan_types::{CertLine, Certificate};

/// Whether a line is of the state; where no state is given, each line is.
fn is_among(state: Option<u32>, line: &CertLine) -> bool
    ensures { result ≡ is_among state line.now }
{
    match state {
        Some(s) => line.cut.state.0 == s,
        None => true,
    }
}

/// What the lines of a state ask for, or all lines.
fn asked_among(state: Option<u32>, lines: &[CertLine]) -> u128
    requires { asked_among None lines.now < 2 ^ 126 }
    ensures value { result ≡ asked_among state lines.now }
{
    let mut sum = 0;
    for l in lines {
        if is_among(state, l) {
            sum += l.num as u128 * l.cut.right;
        }
    }
    sum
}

/// What the pre-installed capacities give along the lines of a state, or along all lines.
fn given_among(links: &[Link], state: Option<u32>, lines: &[CertLine]) -> u128
    requires few { length links.now ≤ most_links }
    requires sound { All (λ l. l.fixed < 2 ^ 40) links.now }
    requires lengths { All (λ l. length l.cut.lengths ≡ length links.now) lines.now }
    requires low { given_among links.now None lines.now < 2 ^ 126 }
    ensures value { result ≡ given_among links.now state lines.now }
{
    let mut sum = 0;
    for l in lines {
        if is_among(state, l) {
            sum += l.num as u128 * fixed_along(links, l.cut.lengths.items());
        }
    }
    sum
}

/// What the lines of a state, or all lines, ask for beyond what is in place.
fn raw_among(links: &[Link], state: Option<u32>, lines: &[CertLine]) -> u128
    requires few { length links.now ≤ most_links }
    requires sound { All (λ l. l.fixed < 2 ^ 40) links.now }
    requires lengths { All (λ l. length l.cut.lengths ≡ length links.now) lines.now }
    requires asked { asked_among None lines.now < 2 ^ 126 }
    requires given { given_among links.now None lines.now < 2 ^ 126 }
    ensures { result ≡ asked_among state lines.now - given_among links.now state lines.now }
{
    asked_among(state, lines).saturating_sub(given_among(links, state, lines))
}

/// The part of the raw value that the cuts of a state pay for, in thousandths, to the nearest; 0 where the raw value is 0.
#[tactic(auto, using(crate::proofs::LineSums::raw_is))]
pub(crate) fn part_of(links: &[Link], certificate: &Certificate, state: u32) -> u32
    requires few { length links.now ≤ most_links }
    requires sound { All (λ l. l.fixed < 2 ^ 40) links.now }
    requires lengths { All (λ l. length l.cut.lengths ≡ length links.now) certificate.now.lines }
    requires asked { asked_among None certificate.now.lines < 2 ^ 126 }
    requires given { given_among links.now None certificate.now.lines < 2 ^ 126 }
    ensures { IsNearest (1000 * paid_by links.now certificate.now state) (raw_value links.now (lines_of_certificate certificate.now)) result }
{
    let lines = certificate.lines.items();
    let whole = raw_among(links, None, lines);
    thousandths(raw_among(links, Some(state), lines).min(whole), whole)
}

/// How far a cost is above a bound, in tenths of a per cent of the cost, rounded to the nearest, but never 0 if it is above. It takes time in
/// the number of these tenths.
///
/// ```text
/// let gap = gap_of(30000, 20000);     // 333
/// ```
pub fn gap_of(cost: u128, bound: u128) -> u32
    ensures { IsGap cost bound result }
{
    let above = cost.saturating_sub(bound);
    let near = thousandths(above, cost);
    if near == 0 && above > 0 { 1 } else { near }
}
