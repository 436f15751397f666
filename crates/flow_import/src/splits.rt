ghost use Rattle.std.specs.Prelude.{◌≡◌, ◌≤◌, ◌<◌, All, IfErr, IfOk, length};
ghost use Rattle.plan_terms.specs.Terms.{IsDemand, case_of};
ghost use Rattle.flow_file.specs.FlowFiles.{AreLinkFlows};
ghost use Rattle.flow_import.specs.inner.Steps.{AreSplitTo, IsOffFault, IsSplitDemand, IsSplitFault};

use crate::arcs::{add_paths, arcs_of};
use crate::fault::ImportFault;
use flow_file::LinkFlow;
use net_core::{Demand, Flow, Instance, List, StateId};
use path_split::{PathFlow, SplitFault, split_flow};
use std::alloc::Global;

/// Splits the arcs of a demand into flows along paths.
fn split_demand(
    alloc: Global,
    instance: &Instance,
    state: StateId,
    flows: &[LinkFlow],
    d: &Demand,
    demand: u32,
) -> Result<List<PathFlow>, ImportFault>
    requires demand { IsDemand (length instance.now.net.now.nodes) d.now }
    requires flows { AreLinkFlows instance.now.net.now.links instance.now.demands.now flows.now }
    ensures split { IfOk result (IsSplitDemand (case_of instance.now) flows.now d.now demand) }
    ensures fault { IfErr result (IsSplitFault (case_of instance.now) state.0 flows.now d.now demand) }
{
    let arcs = arcs_of(alloc, flows, demand)?;
    match split_flow(alloc, instance.net, d.from, d.to, d.need, &arcs) {
        Ok(split) => Ok(split),
        Err(SplitFault::Unbalanced(node)) => Err(ImportFault::Unbalanced(state, demand, node)),
        Err(SplitFault::NoMemory) => Err(ImportFault::NoMemory),
    }
}

/// Splits the arcs of one demand after another into flows along paths.
pub(crate) fn split_all(
    alloc: Global,
    instance: &Instance,
    state: StateId,
    flows: &[LinkFlow],
) -> Result<List<Flow>, ImportFault>
    requires { AreLinkFlows instance.now.net.now.links instance.now.demands.now flows.now }
    ensures split { IfOk result (AreSplitTo (case_of instance.now) flows.now (length instance.now.demands.now)) }
    ensures fault { IfErr result (IsOffFault (case_of instance.now) state.0 flows.now) }
{
    let mut routed = List::new(alloc);
    let items = instance.demands.items();
    for k in 0..items.len() {
        let split = split_demand(alloc, instance, state, flows, &items[k], k as u32)?;
        add_paths(&mut routed, k as u32, split.items())?;
    }
    Ok(routed)
}
