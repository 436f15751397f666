ghost use Rattle.std.specs.Prelude.{◌<◌, ◌^◌, All, IfOk};
ghost use Rattle.plan_terms.specs.Terms.{IsModule};
ghost use Rattle.master_law.specs.Terms.{AreUnitPairs, IsPairOfLink};

use module_prices::{UnitPair, unit_pair};
use net_core::{List, Module, Network, NoMemory};
use std::alloc::Global;

/// The unit pair of a link with these modules; 0 and 0 where there is none.
fn pair_of(modules: &[Module]) -> UnitPair
    requires { All IsModule modules.now }
    ensures pair { IsPairOfLink modules.now result }
    ensures cost { result.cost < 2 ^ 40 }
{
    match unit_pair(modules) {
        Some(pair) => pair,
        None => UnitPair {
            capacity: 0,
            cost: 0,
        },
    }
}

/// The unit pair of each link, in their order; 0 and 0 where a link has no module.
///
/// A link with a module of 10.00 for 5.00 has the pair of 2 for 1. It takes time in the number of modules, and memory for a pair of each link.
pub fn unit_pairs(alloc: Global, net: &Network) -> Result<List<UnitPair>, NoMemory>
    ensures pairs { IfOk result (AreUnitPairs net.now.links) }
    ensures costs { IfOk result (All (λ p. p.cost < 2 ^ 40)) }
{
    let links = net.links().items();
    let mut pairs = List::from_vec(Vec::with_capacity(alloc, links.len())?);
    for l in links {
        pairs.push(pair_of(l.modules.items()))?;
    }
    Ok(pairs)
}
