ghost use Rattle.std.specs.Prelude.{◌≡◌, ℕ, ◌+◌, ◌*◌, ◌-◌, ◌<◌, ◌≤◌, ◌^◌, All, IfSome, IsNone, IsTrue, MatchOption, length};
ghost use Rattle.plan_terms.specs.Terms.{IsBound, IsModule};
ghost use Rattle.line_check.specs.Testing.{IsSoundAt, weighed};
ghost use Rattle.net_core.specs.Limits.{most_links};
ghost use Rattle.tree_check.{specs.BoxValues.{AreNear, IsBoxValue, certain_setup, certain_setups, installs_always}, specs.inner.Weighing.{AreGainsOf, IsValueIn, total_of}};

use crate::boxes::Span;
use crate::gains::{Gains, WIDE, all_gains};
use crate::proof::BoxCert;
use crate::sums::{are_narrow, asked_right, given_free};
use crate::total::Total;
use crate::weighing::Weighing;
use line_check::Tested;
use line_check::tested_lines::are_sound;
use module_prices::bound_of;
use net_core::{Link, List};

/// Whether some least count is positive.
fn installs_always(spans: &[Span]) -> bool
    ensures { result ≡ installs_always spans.now }
{
    spans.iter().any(|s| s.least > 0)
}

/// The setup of a link of which all counts of the box install something, else 0.
fn setup_at(links: &[Link], boxed: &[List<Span>], e: usize) -> u128
    requires link { e < length links.now }
    requires sound { All (λ l. (length l.modules ≤ 16) × (l.setup < 2 ^ 40) × All IsModule l.modules) links.now }
    ensures setup { result ≡ certain_setup links.now boxed.now e }
    ensures low { result < 2 ^ 40 }
{
    if e < boxed.len() && installs_always(boxed[e].items()) {
        links[e].setup as u128
    } else {
        0
    }
}

/// The setups of the links of which all counts of the box install something.
#[tactic(auto, using(crate::proofs::GainsMade::below_next))]
fn certain_setups(links: &[Link], boxed: &[List<Span>]) -> u128
    requires few { length links.now ≤ most_links }
    requires sound { All (λ l. (length l.modules ≤ 16) × (l.setup < 2 ^ 40) × All IsModule l.modules) links.now }
    ensures setups { result ≡ certain_setups links.now boxed.now }
    ensures low { result ≤ 2 ^ 48 }
{
    let mut sum = 0;
    for e in 0..links.len() {
        sum += setup_at(links, boxed, e);
    }
    sum
}

/// The value of gains and losses over a denominator; none where they are 2^126 or more apart.
fn rounded(links: &[Link], den: u128, gains: &Total, losses: &Total) -> Option<u128>
    requires { 0 < den }
    ensures { MatchOption result (AreNear (total_of gains.now) (total_of losses.now) → ⊥)
        (λ v. AreNear (total_of gains.now) (total_of losses.now) × IsBound links.now (total_of gains.now - total_of losses.now) den v) }
{
    match gains.beyond(losses) {
        Some(raw) => Some(bound_of(links, raw, den)),
        None => {
            if losses.beyond(gains).is_some() {
                Some(bound_of(links, 0, den))
            } else {
                None
            }
        }
    }
}

/// The value of lines whose gains these are; none where they are no certificate of the box.
fn value_of(of: &Weighing, sums: &Gains) -> Option<u128>
    requires den { 1 ≤ of.now.den }
    requires nums { All (λ m. m.num < 2 ^ 62) of.now.lines.now }
    requires gains { AreGainsOf of.now (length of.now.links.now) sums.now }
    ensures { MatchOption result ((v : ℕ) → IsValueIn of.now v → ⊥) (IsValueIn of.now) }
{
    let asked = asked_right(of.tested, of.lines);
    let given = given_free(of.tested, of.lines);
    if asked >= WIDE || given >= WIDE {
        return None;
    }
    if !sums.gains.is_near(&sums.losses) {
        return None;
    }
    let setups = of.den * certain_setups(of.links, of.boxed);
    let gains = sums.gains.plus(asked).plus(setups);
    rounded(of.links, of.den, &gains, &sums.losses.plus(given))
}

/// The value of lines with numerators over a denominator, for a box; none where they are no certificate of it.
fn box_value(of: &Weighing) -> Option<u128>
    ensures { MatchOption result ((v : ℕ) → IsValueIn of.now v → ⊥) (IsValueIn of.now) }
{
    if of.den == 0 || !are_narrow(of.lines) {
        return None;
    }
    match all_gains(of) {
        None => None,
        Some(sums) => value_of(of, &sums),
    }
}

/// The value of a certificate for a box; none where it is no certificate of it. It takes time in the lines times the modules.
pub(crate) fn cert_value(
    links: &[Link],
    tested: &[Tested],
    boxed: &[List<Span>],
    cert: &BoxCert,
) -> Option<u128>
    requires few { length links.now ≤ most_links }
    requires sound { All (λ l. (length l.modules ≤ 16) × (l.setup < 2 ^ 40) × All IsModule l.modules) links.now }
    ensures none { IsNone result → (v : ℕ) → All (λ m. IsSoundAt tested.now m.cut) cert.now.lines
        → IsBoxValue links.now boxed.now cert.now.den (weighed tested.now cert.now.lines) v → ⊥ }
    ensures sound { IfSome result (λ _. All (λ m. IsSoundAt tested.now m.cut) cert.now.lines) }
    ensures value { IfSome result (IsBoxValue links.now boxed.now cert.now.den (weighed tested.now cert.now.lines)) }
{
    if cert.den >= 1 << 72 || !are_sound(tested, cert.lines.items()) {
        return None;
    }
    box_value(&Weighing {
        links,
        boxed,
        tested,
        den: cert.den,
        lines: cert.lines.items(),
    })
}
