ghost use Rattle.std.{specs.Prelude.{◌≡◌, ◌≤◌, ◌++◌, AllPairs, IfOk, OnOk}, specs.List.Sorted.IsPermutation};
ghost use Rattle.trim_plan.{specs.Dearest.{priced_links, priced_modules}, specs.Trimmed.price_rank};

use crate::lowered_counts::Place;
use net_core::{List, Module, Network, NoMemory};
use std::alloc::Global;

/// A module's place and cost, in units of the network.
#[derive(Clone, Copy)]
pub struct Priced {
    pub cost: u64,
    pub place: Place,
}

/// Appends the modules of a link.
fn add_modules(priced: &mut List<Priced>, link: usize, modules: &[Module]) -> Result<(), NoMemory>
    ensures { OnOk result (priced.new ≡ priced.old ++ priced_modules link 0 modules.now) }
{
    for module in 0..modules.len() {
        priced.push(Priced {
            cost: modules[module].cost,
            place: Place { link, module },
        })?;
    }
    Ok(())
}

/// A rank that is less the dearer a module is.
fn rank_of(priced: &Priced) -> u64
    ensures { result ≡ price_rank priced.now }
{
    u64::MAX - priced.cost
}

/// All modules, the dearest first, and modules of one cost in link and module order. It takes time and memory in the number of modules.
pub fn dearest_first(alloc: Global, net: &Network) -> Result<List<Priced>, NoMemory>
    ensures modules { IfOk result (IsPermutation (priced_links 0 net.now.links)) }
    ensures dearest { IfOk result (AllPairs (λ a b. price_rank a ≤ price_rank b)) }
{
    let links = net.links().items();
    let mut priced = List::new(alloc);
    for e in 0..links.len() {
        add_modules(&mut priced, e, links[e].modules.items())?;
    }
    priced.items_mut().sort_by_key(alloc, |p| rank_of(p))?;
    Ok(priced)
}
