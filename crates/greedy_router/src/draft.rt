ghost use Rattle.std.specs.Prelude.{◌≡◌, ◌*◌, [], IfOk, map};

use net_core::{Caps, Copied, Demand, Flow, List, NoMemory};
use std::alloc::Global;

/// A routing in the making: its flows, what is missing of each demand, and what is left of each link's capacity.
#[derive(Drop)]
pub struct Draft {
    pub flows: List<Flow>,
    pub rest: List<u128>,
    pub spares: List<u128>,
}

/// What the demands need over a scale.
fn needs(alloc: Global, demands: &[Demand], scale: u64) -> Result<List<u128>, NoMemory>
    ensures { IfOk result (λ all. all ≡ map (λ d. d.need * scale) demands.now) }
{
    let mut all = List::from_vec(Vec::with_capacity(alloc, demands.len())?);
    for d in demands {
        all.push(d.need as u128 * scale as u128)?;
    }
    Ok(all)
}

/// Nothing is routed yet.
pub fn empty_draft(alloc: Global, demands: &[Demand], caps: &Caps) -> Result<Draft, NoMemory>
    ensures flows { IfOk result (λ draft. draft.flows ≡ []) }
    ensures rest { IfOk result (λ draft. draft.rest ≡ map (λ d. d.need * caps.now.scale) demands.now) }
    ensures spares { IfOk result (λ draft. draft.spares ≡ caps.now.nums) }
{
    let rest = needs(alloc, demands, caps.scale)?;
    let spares = caps.nums.copy()?;
    Ok(Draft {
        flows: List::new(alloc),
        rest,
        spares,
    })
}
