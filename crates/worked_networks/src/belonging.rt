ghost use Rattle.std.specs.Prelude.{◌≡◌, ◌≢◌, ◌≤◌, ◌<◌, ◌+◌, ◌*◌, ◌^◌, ◌↔◌, All, AllPairs, IsTrue, length, sum_by};
ghost use Rattle.net_core.{specs.Terms.{AreDemands, IsDemand}, specs.Limits.most_demands};

use net_core::Demand;

/// Whether the demand joins two of this number of nodes, and its need is below 2^40.
fn is_demand(nodes: usize, d: &Demand) -> bool
    ensures { IsTrue result ↔ IsDemand nodes d.now }
{
    (d.from.0 as usize) < nodes
        && (d.to.0 as usize) < nodes
        && d.from.0 != d.to.0
        && d.need < 1 << 40
}

/// Whether each is a demand of the nodes.
fn are_each(nodes: usize, demands: &[Demand]) -> bool
    ensures { IsTrue result ↔ All (IsDemand nodes) demands.now }
{
    demands.iter().all(|d| is_demand(nodes, d))
}

/// Whether no two demands have one name.
fn have_different_names(demands: &[Demand]) -> bool
    ensures { IsTrue result ↔ AllPairs (λ x y. x.name ≢ y.name) demands.now }
{
    for i in 0..demands.len() {
        for j in 0..i {
            if demands[j].name.same(&demands[i].name) {
                return false;
            }
        }
    }
    true
}

/// The sum of the needs.
fn total(demands: &[Demand]) -> u128
    requires { length demands.now ≤ most_demands }
    ensures { result ≡ sum_by (λ d. d.need) demands.now }
{
    let mut total = 0;
    for d in demands {
        total += d.need as u128;
    }
    total
}

/// Whether they are demands of this number of nodes. It takes time in the square of the demands, and no memory.
pub fn belong(nodes: usize, demands: &[Demand]) -> bool
    ensures { IsTrue result ↔ AreDemands nodes demands.now }
{
    demands.len() <= 2048
        && have_different_names(demands)
        && are_each(nodes, demands)
        && total(demands) < 1 << 44
}
