ghost use Rattle.std.specs.Prelude.{◌≡◌, ℕ, ◌+◌, ◌*◌, ◌<◌, ◌≤◌, ◌^◌, All, IsTrue, IsFalse, MatchOption, length, map, slice_index};
ghost use Rattle.plan_terms.specs.Terms.{IsModule};
ghost use Rattle.line_check.specs.Inequalities.{entry, module_number};
ghost use Rattle.tree_check.{specs.BoxValues.module_costs, specs.inner.Weighing.{AddsModules, AreGainsOf, IsBoundedIn, IsGainOf, gain_in, loss_in}};

use crate::boxes::{Span, span_at};
use crate::total::Total;
use crate::weighing::Weighing;
use line_check::module_price;
use net_core::{Link, Module};

/// From here on a number is too wide.
pub(crate) const WIDE: u128 = 1 << 126;

/// What a module adds to the value, and what it takes off.
#[derive(Clone, Copy)]
pub(crate) struct Gain {
    pub gain: u128,
    pub loss: u128,
}

/// What all modules add, and what they take off.
#[derive(Clone, Copy)]
pub(crate) struct Gains {
    pub gains: Total,
    pub losses: Total,
}

/// How many modules a link has; 0 where there is no such link.
pub(crate) fn module_number(links: &[Link], e: usize) -> usize
    ensures { result ≡ module_number links.now e }
{
    if e < links.len() {
        links[e].modules.len()
    } else {
        0
    }
}

fn cost_in(modules: &[Module], m: usize) -> u64
    requires { All IsModule modules.now }
    ensures cost { result ≡ slice_index (map (λ x. x.cost) modules.now) m }
    ensures low { result < 2 ^ 40 }
{
    if m < modules.len() {
        modules[m].cost
    } else {
        0
    }
}

/// The cost of a module; 0 where there is no such module.
fn cost_at(links: &[Link], e: usize, m: usize) -> u64
    requires { All (λ l. All IsModule l.modules) links.now }
    ensures cost { result ≡ entry (module_costs links.now) e m }
    ensures low { result < 2 ^ 40 }
{
    if e < links.len() {
        cost_in(links[e].modules.items(), m)
    } else {
        0
    }
}

/// What a module of this charge and price adds; none where a number is too wide.
fn least_gain(charge: u128, price: u128, span: &Span) -> Option<Gain>
    requires low { price ≤ charge }
    requires narrow { price < 2 ^ 126 }
    ensures { IsGainOf charge price span.now result }
{
    let gain = (charge - price).saturating_mul(span.least);
    if gain < WIDE {
        Some(Gain { gain, loss: 0 })
    } else {
        None
    }
}

/// What it takes off; none where it has no greatest count, or a number is too wide.
fn most_loss(charge: u128, price: u128, span: &Span) -> Option<Gain>
    requires more { charge < price }
    requires narrow { price < 2 ^ 126 }
    ensures { IsGainOf charge price span.now result }
{
    let most = match span.most {
        None => return None,
        Some(most) => most as u128,
    };
    let loss = (price - charge).saturating_mul(most);
    if loss < WIDE {
        Some(Gain { gain: 0, loss })
    } else {
        None
    }
}

/// The gain of a module; none where it isn't bounded.
fn module_gain(of: &Weighing, e: usize, m: usize) -> Option<Gain>
    ensures { MatchOption result (IsBoundedIn of.now e m → ⊥)
        (λ g. IsBoundedIn of.now e m × (g.gain ≡ gain_in of.now e m) × (g.loss ≡ loss_in of.now e m)) }
{
    let charge = of.den * cost_at(of.links, e, m) as u128;
    let price = module_price(of.tested, of.lines, e, m);
    if price >= WIDE {
        return None;
    }
    let span = span_at(of.boxed, e, m);
    if price <= charge {
        least_gain(charge, price, &span)
    } else {
        most_loss(charge, price, &span)
    }
}

/// Adds the gains of a link's modules; false where one isn't bounded.
fn add_link(of: &Weighing, e: usize, sums: &mut Gains) -> bool
    requires few { module_number of.now.links.now e ≤ 16 }
    requires gains { sums.old.gains.high ≤ 2 ^ 80 }
    requires losses { sums.old.losses.high ≤ 2 ^ 80 }
    ensures added { IsTrue result → AddsModules of.now e (module_number of.now.links.now e) sums.old sums.new }
    ensures unbounded { IsFalse result → ((m : ℕ) → m < module_number of.now.links.now e → IsBoundedIn of.now e m) → ⊥ }
{
    for m in 0..module_number(of.links, e) {
        match module_gain(of, e, m) {
            None => return false,
            Some(g) => {
                sums.gains = sums.gains.plus(g.gain);
                sums.losses = sums.losses.plus(g.loss);
            }
        }
    }
    true
}

/// The gains of all modules; none where one isn't bounded.
pub(crate) fn all_gains(of: &Weighing) -> Option<Gains>
    ensures { MatchOption result (((e m : ℕ) → e < length of.now.links.now → m < module_number of.now.links.now e → IsBoundedIn of.now e m) → ⊥)
        (AreGainsOf of.now (length of.now.links.now)) }
{
    let mut sums = Gains {
        gains: Total::new(),
        losses: Total::new(),
    };
    for e in 0..of.links.len() {
        if !add_link(of, e, &mut sums) {
            return None;
        }
    }
    Some(sums)
}
