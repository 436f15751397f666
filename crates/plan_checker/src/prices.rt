ghost use Rattle.std.specs.Prelude.{◌≡◌, ℕ, ◌*◌, ◌^◌, ◌<◌, ◌≤◌, ◌↔◌, All, IsTrue, length};
ghost use Rattle.plan_terms.specs.Terms.{IsModule, price};
ghost use Rattle.net_core.specs.Limits.{most_links};
ghost use Rattle.plan_checker.{specs.Certified.IsOverpriced, specs.Places.HoldsAt, specs.inner.Lines.certified, specs.inner.Tests.{IsFirstPair, IsFirstPlace}};

use crate::place::Place;
use net_core::{Link, Module};
use plan_types::CertLine;

/// The price of a unit of capacity on a link, over the denominator: numerators times lengths.
fn price_of(lines: &[CertLine], link: usize) -> u128
    requires few { length lines.now ≤ 256 }
    requires nums { All (λ l. l.num < 2 ^ 62) lines.now }
    requires there { All (λ l. link < length l.cut.lengths) lines.now }
    ensures { result ≡ price (certified lines.now) link }
{
    let mut sum = 0;
    for l in lines {
        sum += l.num as u128 * l.cut.lengths.items()[link] as u128;
    }
    sum
}

/// Whether a module's price is more than its cost. The price of its whole capacity may be more than 128 bits hold.
fn is_overpriced(m: &Module, price: u128, den: u128) -> bool
    requires sound { IsModule m.now }
    requires den { den < 2 ^ 72 }
    ensures { IsTrue result ↔ (den * m.now.cost < price * m.now.capacity) }
{
    den * m.cost as u128 / (m.capacity as u128) < price
}

/// The first module whose price is more than its cost.
fn first_overpriced(modules: &[Module], price: u128, den: u128) -> Option<u32>
    requires few { length modules.now < 2 ^ 32 }
    requires sound { All IsModule modules.now }
    requires den { den < 2 ^ 72 }
    ensures { IsFirstPlace (λ m. HoldsAt modules.now m (λ x. den * x.cost < price * x.capacity)) result }
{
    for m in 0..modules.len() {
        if is_overpriced(&modules[m], price, den) {
            return Some(m as u32);
        }
    }
    None
}

/// The first link with a module whose price is more than its cost, and its first such module. It takes time in the links times
/// the lines.
pub(crate) fn overpriced(links: &[Link], lines: &[CertLine], den: u128) -> Option<Place>
    requires few_links { length links.now ≤ most_links }
    requires sound { All (λ l. (length l.modules ≤ 16) × All IsModule l.modules) links.now }
    requires few { length lines.now ≤ 256 }
    requires nums { All (λ l. l.num < 2 ^ 62) lines.now }
    requires lengths { All (λ l. length l.cut.lengths ≡ length links.now) lines.now }
    requires den { den < 2 ^ 72 }
    ensures { IsFirstPair (IsOverpriced links.now den (certified lines.now)) result }
{
    for e in 0..links.len() {
        let price = price_of(lines, e);
        if let Some(at) = first_overpriced(links[e].modules.items(), price, den) {
            return Some(Place {
                group: e as u32,
                at,
            });
        }
    }
    None
}
