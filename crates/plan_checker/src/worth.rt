ghost use Rattle.std.specs.Prelude.{◌≡◌, ◌-◌, ◌^◌, ◌<◌, ◌≤◌, ◌↔◌, All, IsTrue, OnOk, length, min, [], ◌∷◌};
ghost use Rattle.plan_terms.specs.Terms.{IsModule, IsBound, IsLowest, asked, given, raw_value};
ghost use Rattle.plan_types.specs.Terms.{lines_of_certificate};
ghost use Rattle.net_core.specs.Limits.{most_links};
ghost use Rattle.plan_checker.{specs.Certified.{HoldsBoundDiffers, HoldsCertificateWide, HoldsRawDiffers}, specs.inner.Lines.certified, specs.inner.Tests.{Tells, TellFirst}};

use crate::finding::Finding;
use crate::stop::{Stop, Test};
use checked_fraction::{cmp, gcd};
use metric_cut::fixed_along;
use module_prices::bound_of;
use net_core::Link;
use plan_types::{CertLine, Plan};
use std::cmp::Ordering;

/// From here on a sum of a certificate is too large.
const WIDE: u128 = 1 << 126;

/// What cuts ask for, their numerators times their right sides; a sum that 128 bits don't hold is the greatest number.
fn asked_of(lines: &[CertLine]) -> u128
    ensures { result ≡ min (asked (certified lines.now)) (2 ^ 128 - 1) }
{
    let mut sum = 0u128;
    for l in lines {
        sum = sum.saturating_add((l.num as u128).saturating_mul(l.cut.right));
    }
    sum
}

/// What the pre-installed capacities give along cuts; a sum that 128 bits don't hold is the greatest number.
fn given_of(links: &[Link], lines: &[CertLine]) -> u128
    requires few { length links.now ≤ most_links }
    requires sound { All (λ l. l.fixed < 2 ^ 40) links.now }
    requires lengths { All (λ l. length l.cut.lengths ≡ length links.now) lines.now }
    ensures { result ≡ min (given links.now (certified lines.now)) (2 ^ 128 - 1) }
{
    let mut sum = 0u128;
    for l in lines {
        let along = fixed_along(links, l.cut.lengths.items());
        sum = sum.saturating_add((l.num as u128).saturating_mul(along));
    }
    sum
}

/// Whether `num / den` is `raw / whole` in lowest terms.
fn is_lowest(raw: u128, whole: u128, num: u128, den: u128) -> bool
    requires whole { 0 < whole }
    requires den { 0 < den }
    ensures { IsTrue result ↔ IsLowest raw whole num den }
{
    gcd(num, den) == 1 && cmp(raw, whole, num, den) == Ordering::Equal
}

/// Whether the plan has the raw value and the bound of its certificate.
pub(crate) fn check_worth(links: &[Link], plan: &Plan) -> Test
    requires few { length links.now ≤ most_links }
    requires sound { All (λ l. (l.fixed < 2 ^ 40) × All IsModule l.modules) links.now }
    requires lengths { All (λ l. length l.cut.lengths ≡ length links.now) plan.now.certificate.lines }
    requires positive { 0 < plan.now.certificate.den }
    requires den { plan.now.certificate.den < 2 ^ 72 }
    requires raw { 0 < plan.now.raw_den }
    ensures told { TellFirst (HoldsCertificateWide links.now (lines_of_certificate plan.now.certificate)
        ∷ HoldsRawDiffers links.now plan.now ∷ HoldsBoundDiffers links.now plan.now ∷ []) result }
    ensures asked { OnOk result (asked (lines_of_certificate plan.now.certificate) < 2 ^ 126) }
    ensures given { OnOk result (given links.now (lines_of_certificate plan.now.certificate) < 2 ^ 126) }
    ensures raw { OnOk result (IsLowest (raw_value links.now (lines_of_certificate plan.now.certificate)) plan.now.certificate.den
        plan.now.raw_num plan.now.raw_den) }
    ensures bound { OnOk result (IsBound links.now (raw_value links.now (lines_of_certificate plan.now.certificate)) plan.now.certificate.den plan.now.bound) }
{
    let lines = plan.certificate.lines.items();
    let asked = asked_of(lines);
    let given = given_of(links, lines);
    if asked >= WIDE || given >= WIDE {
        return Err(Stop::Found(Finding::CertificateWide));
    }
    let raw = asked.saturating_sub(given);
    if !is_lowest(raw, plan.certificate.den, plan.raw_num, plan.raw_den) {
        return Err(Stop::Found(Finding::RawDiffers));
    }
    let bound = bound_of(links, raw, plan.certificate.den);
    if plan.bound != bound {
        return Err(Stop::Found(Finding::BoundDiffers(plan.bound, bound)));
    }
    Ok(())
}
