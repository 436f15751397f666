ghost use Rattle.std.specs.Prelude.{◌≡◌, ◌++◌, [], ◌∷◌, IfOk, OnOk};
ghost use Rattle.flow_import.{specs.Imports.demand_arcs, specs.inner.Steps.flows_along};

use flow_file::LinkFlow;
use net_core::{Copied, Flow, List, NoMemory};
use path_split::{Arc, PathFlow};
use std::alloc::Global;

/// Appends the arc of a flow, where that is of this demand.
fn add_arc(arcs: &mut List<Arc>, flow: &LinkFlow, demand: u32) -> Result<(), NoMemory>
    ensures { OnOk result (arcs.new ≡ arcs.old ++ demand_arcs demand (flow.now ∷ [])) }
{
    if flow.demand == demand {
        arcs.push(flow.arc)?;
    }
    Ok(())
}

/// The arcs of a demand.
#[tactic(auto, using(crate::proofs::Splitting::arcs_more))]
pub(crate) fn arcs_of(alloc: Global, flows: &[LinkFlow], demand: u32) -> Result<List<Arc>, NoMemory>
    ensures { IfOk result (λ arcs. arcs ≡ demand_arcs demand flows.now) }
{
    let mut arcs = List::new(alloc);
    for flow in flows {
        add_arc(&mut arcs, flow, demand)?;
    }
    Ok(arcs)
}

/// Appends a flow of a demand along a path.
fn add_path(routed: &mut List<Flow>, demand: u32, flow: &PathFlow) -> Result<(), NoMemory>
    ensures { OnOk result (routed.new ≡ routed.old ++ flows_along demand (flow.now ∷ [])) }
{
    let path = flow.path.copy()?;
    routed.push(Flow {
        demand,
        path,
        num: flow.num as u128,
    })?;
    Ok(())
}

/// Appends the flows of a demand along paths.
pub(crate) fn add_paths(
    routed: &mut List<Flow>,
    demand: u32,
    split: &[PathFlow],
) -> Result<(), NoMemory>
    ensures { OnOk result (routed.new ≡ routed.old ++ flows_along demand split.now) }
{
    for flow in split {
        add_path(routed, demand, flow)?;
    }
    Ok(())
}
