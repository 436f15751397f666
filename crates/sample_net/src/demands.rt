ghost use Rattle.std.specs.Prelude.{◌≡◌, ◌≤◌, IfOk, OnOk, length};
ghost use Rattle.sample_net.{specs.Draws.{nth_draw, nth_number}, specs.Samples.{sample_demand, demands_between}};

use crate::draws::Draws;
use crate::ends::Ends;
use crate::names::numbered;
use net_core::{Demand, Demands, List, NoMemory, NodeId};
use std::alloc::Global;

/// The demand of this number, with one draw: 1 to 40 whole units.
fn demand(alloc: Global, k: u32, ends: Ends, draws: &mut Draws) -> Result<Demand, NoMemory>
    ensures demand { IfOk result (λ d. d ≡ sample_demand k ends (nth_draw draws.old.number 0 40)) }
    ensures draws { OnOk result (draws.new.number ≡ nth_number draws.old.number 1) }
{
    Ok(Demand {
        name: numbered(alloc, b'd', k)?,
        from: NodeId(ends.0),
        to: NodeId(ends.1),
        need: (1 + draws.below(40) as u64) * 1000,
    })
}

/// The demands between these pairs of nodes, in order.
pub(crate) fn demands_between(
    alloc: Global,
    pairs: &[Ends],
    draws: &mut Draws,
) -> Result<Demands, NoMemory>
    requires { length pairs.now ≤ 780 }
    ensures { IfOk result (λ demands. demands ≡ demands_between draws.old.number pairs.now) }
{
    let mut demands = List::new(alloc);
    for k in 0..pairs.len() {
        demands.push(demand(alloc, k as u32, pairs[k], draws)?)?;
    }
    Ok(demands)
}
