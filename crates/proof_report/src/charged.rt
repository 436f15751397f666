ghost use Rattle.std.specs.Prelude.{◌<◌, ◌↔◌, All, IsTrue};
ghost use Rattle.tree_search.specs.FewSplits.{AreCharged};

use net_core::{Link, Module};

/// Whether each of these modules costs something. It takes time in the number of modules, and no memory.
pub fn are_dear(modules: &[Module]) -> bool
    ensures { IsTrue result ↔ All (λ m. 0 < m.cost) modules.now }
{
    modules.iter().all(|m| m.cost > 0)
}

/// Whether all modules of these links cost something, as a plan with a branch tree needs. It takes time in the number of modules, and no
/// memory.
pub fn are_charged(links: &[Link]) -> bool
    ensures { IsTrue result ↔ AreCharged links.now }
{
    links.iter().all(|l| are_dear(l.modules.items()))
}
