ghost use Rattle.std.specs.Prelude.{◌≡◌, ℕ, ◌*◌, ◌≤◌, ◌<◌, ◌^◌, ◌⊎◌, All, Any};
ghost use Rattle.plan_terms.specs.Terms.{IsModule, IsLeastRatio};
ghost use Rattle.metric_cut.{specs.Bounded.HaveBound, specs.inner.Ratios.{IsLeastOf, IsNoGreater, IsRatioOf, IsSmall}};

use net_core::{Link, Module};

/// A module's cost over its capacity times its link's length.
#[derive(Clone, Copy)]
pub struct Ratio {
    pub cost: u64,
    pub size: u128,
}

/// The lesser of a ratio and that of a module, the first one at a tie.
fn lesser(best: Ratio, m: &Module, length: u32) -> Ratio
    requires best { IsSmall best }
    requires sound { IsModule m.now }
    ensures least { result.cost * (m.now.capacity * length) ≤ m.now.cost * result.size }
    ensures kept { IsNoGreater result best }
    ensures is { (result ≡ best) ⊎ IsRatioOf length result m.now }
    ensures small { IsSmall result }
{
    let size = m.capacity as u128 * length as u128;
    if m.cost as u128 * best.size < best.cost as u128 * size {
        Ratio { cost: m.cost, size }
    } else {
        best
    }
}

/// The least of a ratio and those of a link's modules, the first one at a tie.
fn link_ratio(best: Ratio, modules: &[Module], length: u32) -> Ratio
    requires best { IsSmall best }
    requires sound { All IsModule modules.now }
    ensures least { IsLeastOf modules.now length result }
    ensures kept { IsNoGreater result best }
    ensures is { (result ≡ best) ⊎ Any (IsRatioOf length result) modules.now }
    ensures small { IsSmall result }
{
    let mut least = best;
    for m in modules {
        least = lesser(least, m, length);
    }
    least
}

/// The least cost over capacity times length, over all modules of the links of positive length.
pub fn least_ratio(links: &[Link], lengths: &[u32]) -> Ratio
    requires sound { All (λ l. All IsModule l.modules) links.now }
    requires lengths { HaveBound links.now lengths.now }
    ensures least { IsLeastRatio links.now lengths.now result.cost result.size }
    ensures small { IsSmall result }
{
    let mut least = Ratio { cost: 1, size: 0 };
    for e in 0..links.len() {
        least = link_ratio(least, links[e].modules.items(), lengths[e]);
    }
    least
}
