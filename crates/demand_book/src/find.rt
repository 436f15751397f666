ghost use Rattle.std.specs.Prelude.{◌≡◌, ◌<◌, ◌^◌, length, is_some, position};
ghost use Rattle.plan_terms.specs.Terms.{are_same, is_named, is_demand, total_need};
ghost use Rattle.demand_book.specs.inner.Places.{IsPlaceOf};

use net_core::{Demand, Demands, Name};

/// All needs together.
pub(crate) fn sum_of_needs(demands: &[Demand]) -> u64
    requires { total_need demands.now < 2 ^ 44 }
    ensures { result ≡ total_need demands.now }
{
    let mut total = 0;
    for d in demands {
        total += d.need;
    }
    total
}

/// The first place of a demand of this name.
fn first_demand(demands: &[Demand], name: &Name) -> Option<usize>
    ensures { result ≡ position (λ d. are_same d.name name.now) demands.now }
{
    demands.iter().position(|d| d.name == *name)
}

/// The first place of a node of this name.
fn first_node(nodes: &[Name], name: &Name) -> Option<usize>
    ensures { result ≡ position (λ n. are_same n name.now) nodes.now }
{
    nodes.iter().position(|n| *n == *name)
}

/// The place of the demand of this name.
pub(crate) fn demand_place(demands: &[Demand], name: &Name) -> Option<usize>
    ensures place { result ≡ position (λ d. are_same d.name name.now) demands.now }
    ensures known { is_some result ≡ is_demand name.now demands.now }
{
    first_demand(demands, name)
}

/// The place of the node of this name.
pub(crate) fn node_place(nodes: &[Name], name: &Name) -> Option<usize>
    ensures place { result ≡ position (λ n. are_same n name.now) nodes.now }
    ensures known { is_some result ≡ is_named (λ n. n) name.now nodes.now }
{
    first_node(nodes, name)
}

/// Writes another need.
fn write_need(demands: &mut [Demand], k: usize, need: u64)
    requires { k < length demands.old }
    ensures { IsPlaceOf demands.old k need demands.new }
{
    demands[k].need = need;
}

/// Gives the demand at a place another need.
pub(crate) fn give_need(demands: &mut Demands, k: usize, need: u64)
    requires { k < length demands.old }
    ensures { IsPlaceOf demands.old k need demands.new }
{
    write_need(demands.items_mut(), k, need)
}
