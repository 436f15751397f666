ghost use Rattle.std.{specs.Prelude.{◌<◌, ◌^◌, map}, specs.Int.IsGcd};
ghost use Rattle.plan_terms.specs.Terms.{IsBound, IsGreatestDivisor, charges, link_charges};

use checked_fraction::gcd;
use net_core::{Link, Module};

/// The greatest common divisor of two charges.
fn common_divisor(a: u64, b: u64) -> u64
    ensures { IsGcd a b result }
{
    gcd(a as u128, b as u128) as u64
}

/// The greatest common divisor of modules' costs. That of none is 0.
fn modules_divisor(modules: &[Module]) -> u64
    ensures { IsGreatestDivisor (map (λ m. m.cost) modules.now) result }
{
    let mut common = 0;
    for m in modules {
        common = common_divisor(common, m.cost);
    }
    common
}

/// The greatest common divisor of a link's setup and the costs of its modules. That of a link without modules is 0.
fn link_divisor(l: &Link) -> u64
    ensures { IsGreatestDivisor (link_charges l.now) result }
{
    let modules = l.modules.items();
    if modules.len() == 0 {
        return 0;
    }
    common_divisor(l.setup, modules_divisor(modules))
}

/// The greatest common divisor of the costs of all modules and of the setups of all links that have a module, in units of the
/// network. It is 0 where all are 0 and where there is no module. It takes time in the number of modules, and no memory.
///
/// A link of setup 30 with modules that cost 100 and 250, and a link of setup 7 without modules: the divisor is 10.
pub fn cost_divisor(links: &[Link]) -> u64
    ensures { IsGreatestDivisor (charges links.now) result }
{
    let mut common = 0;
    for l in links {
        common = common_divisor(common, link_divisor(l));
    }
    common
}

/// The bound of a raw value `raw / den` in units of the network: the least multiple of the costs' greatest common divisor that
/// reaches it, and 0 where that divisor is 0. It takes time in the number of modules, and no memory.
///
/// Modules that cost 100 and 250 on a link without setup have the divisor 50, so a raw value of 601 / 2 has the bound 350. With a
/// setup of 30 the divisor is 10, and the bound 310.
pub fn bound_of(links: &[Link], raw: u128, den: u128) -> u128
    requires raw { raw < 2 ^ 126 }
    requires positive { 0 < den }
    ensures { IsBound links.now raw den result }
{
    let divisor = cost_divisor(links) as u128;
    if divisor == 0 {
        return 0;
    }
    divisor * raw.div_ceil(den).div_ceil(divisor)
}
