ghost use Rattle.std.specs.Prelude.{◌≡◌, ◌*◌, ◌<◌, ◌↔◌, All, IfSome, IsNone, [], length};
ghost use Rattle.plan_terms.specs.Terms.{IsModule, IsLowest, HasLeastUnitCost, IsUnitPair};

use checked_fraction::gcd;
use net_core::Module;

/// Capacity and cost of the cheapest module of a link, without common divisor.
#[derive(Clone, Copy, Debug, PartialEq, Eq)]
pub struct UnitPair {
    pub capacity: u64,
    pub cost: u64,
}

/// The cost of a module times the capacity of another, by which two costs per capacity are compared.
pub(crate) fn crossed(m: &Module, other: &Module) -> u128
    ensures { result ≡ m.now.cost * other.now.capacity }
{
    m.cost as u128 * other.capacity as u128
}

/// The first module of least cost per capacity.
pub(crate) fn cheapest(modules: &[Module]) -> Module
    requires { 0 < length modules.now }
    ensures { HasLeastUnitCost modules.now result }
{
    let mut cheapest = modules[0];
    for m in modules {
        if crossed(m, &cheapest) < crossed(&cheapest, m) {
            cheapest = *m;
        }
    }
    cheapest
}

/// The capacity and the cost of a module over their greatest common divisor.
fn reduced(m: &Module) -> UnitPair
    requires { IsModule m.now }
    ensures { IsLowest m.now.cost m.now.capacity result.cost result.capacity }
{
    let common = gcd(m.cost as u128, m.capacity as u128);
    UnitPair {
        capacity: (m.capacity as u128 / common) as u64,
        cost: (m.cost as u128 / common) as u64,
    }
}

/// The unit pair of a link with these modules: capacity and cost of its module of least cost per capacity, the first such
/// module at a tie, over their greatest common divisor. It takes no memory.
///
/// Modules of 155 for 100 and of 622 for 250: the second is cheaper per capacity, and its pair is 311 for 125.
pub fn unit_pair(modules: &[Module]) -> Option<UnitPair>
    requires { All IsModule modules.now }
    ensures none { IsNone result ↔ (modules.now ≡ []) }
    ensures pair { IfSome result (λ pair. IsUnitPair modules.now pair.capacity pair.cost) }
{
    if modules.len() == 0 {
        return None;
    }
    Some(reduced(&cheapest(modules)))
}
