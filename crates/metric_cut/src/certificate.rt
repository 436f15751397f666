ghost use Rattle.std.specs.Prelude.{◌-◌, ◌*◌, ◌<◌, ◌^◌};
ghost use Rattle.plan_terms.specs.Terms.{IsBound, IsLowest, fixed_along, IsMultiplier};
ghost use Rattle.metric_cut.specs.Bounded.{HaveBound};

use crate::multiplier::{OwnMultiplier, greatest_multiplier};
use crate::own_bounds::asked_rest;
use checked_fraction::gcd;
use module_prices::bound_of;
use net_core::{CutLine, Network};

/// `num / den` units of the network, in lowest terms.
#[derive(Clone, Copy)]
pub struct RawValue {
    pub num: u128,
    pub den: u128,
}

/// The certificate of a cut alone: its greatest valid multiplier, its raw value, and its bound in units of the network.
#[derive(Clone, Copy)]
pub struct OwnCertificate {
    pub multiplier: OwnMultiplier,
    pub raw: RawValue,
    pub bound: u128,
}

/// The fraction `num / den` in lowest terms.
fn lowest(num: u128, den: u128) -> RawValue
    requires { 0 < den }
    ensures { IsLowest num den result.num result.den }
{
    let common = gcd(num, den);
    RawValue {
        num: num / common,
        den: den / common,
    }
}

/// The certificate of a cut alone with its greatest valid multiplier. It takes time in the number of modules, and no memory.
pub fn own_certificate(net: &Network, line: &CutLine) -> OwnCertificate
    requires lengths { HaveBound net.now.links line.now.lengths }
    requires right { line.now.right < 2 ^ 84 }
    ensures multiplier { IsMultiplier net.now.links line.now.lengths result.multiplier.num result.multiplier.den }
    ensures raw { IsLowest (result.multiplier.num * (line.now.right - fixed_along line.now.lengths net.now.links))
        result.multiplier.den result.raw.num result.raw.den }
    ensures bound { IsBound net.now.links (result.multiplier.num * (line.now.right - fixed_along line.now.lengths net.now.links))
        result.multiplier.den result.bound }
    ensures num { result.multiplier.num < 2 ^ 40 }
    ensures den { result.multiplier.den < 2 ^ 72 }
{
    let links = net.links().items();
    let lengths = line.lengths.items();
    let multiplier = greatest_multiplier(links, lengths);
    let rest = asked_rest(links, lengths, line.right);
    let raw = multiplier.num as u128 * rest;
    OwnCertificate {
        multiplier,
        raw: lowest(raw, multiplier.den),
        bound: bound_of(links, raw, multiplier.den),
    }
}
