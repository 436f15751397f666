ghost use Rattle.std.{specs.Prelude.{ℕ, ◌↔◌, ◌<◌, All}, specs.Int.◌∣◌};
ghost use Rattle.box_program.specs.Divisors.{IsCommonUnit, IsDivisorWith};

use checked_fraction::gcd;
use line_check::{Inequality, Tested};
use master_bound::common_divisor;
use net_core::{Link, List, Module};

/// The greatest number that divides another one and those of lists.
fn divisor_over(unit: u128, lists: &[List<u128>]) -> u128
    ensures { (d : ℕ) → (d ∣ result) ↔ (d ∣ unit) × All (λ numbers. All (λ n. d ∣ n) numbers) lists.now }
{
    let mut unit = unit;
    for numbers in lists {
        unit = common_divisor(unit, numbers.items());
    }
    unit
}

/// The greatest number that divides another one, each coefficient of a line, and what the line asks for beyond what is given. It takes
/// the time of a greatest common divisor for each coefficient.
///
/// With 12 and a line of the coefficients 6 and 9 that asks for 33, of which 3 are given, it is 3, which divides 12, 6, 9 and 30.
pub fn divisor_of(line: &Inequality, unit: u128) -> u128
    ensures { IsDivisorWith unit line.now result }
{
    let unit = gcd(unit, line.right.saturating_sub(line.given));
    divisor_over(unit, line.coefs.items())
}

/// The greatest number that divides each number of lines; 0 where there is none but 0. It takes the time of `divisor_of` for each line.
pub fn common_unit(tested: &[Tested]) -> u128
    ensures { IsCommonUnit tested.now result }
{
    let mut unit = 0;
    for t in tested {
        unit = divisor_of(&t.line, unit);
    }
    unit
}

/// A number that divides another one and the costs of modules.
fn cost_divisor(unit: u128, modules: &[Module]) -> u128 {
    let mut unit = unit;
    for module in modules {
        unit = gcd(unit, module.cost as u128);
    }
    unit
}

/// The greatest common divisor of all module costs, where it is below 2^40; else 1.
pub(crate) fn cost_unit(links: &[Link]) -> u64
    ensures { 0 < result }
{
    let mut unit = 0;
    for link in links {
        unit = cost_divisor(unit, link.modules.items());
    }
    if unit == 0 || unit >= 1 << 40 {
        1
    } else {
        unit as u64
    }
}
