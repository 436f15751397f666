ghost use Rattle.std.specs.Prelude.{◌≡◌, ◌+◌, ◌<◌, All, IfErr, IfOk, length};
ghost use Rattle.plan_terms.specs.Terms.{AreDemands, case, case_of, capacities as caps_of};
ghost use Rattle.plan_report.specs.Terms.{known_of};
ghost use Rattle.flow_file.specs.FlowFiles.{AreLinkFlows, IsFlowFile};
ghost use Rattle.flow_import.{specs.Imports.{IsImportFault, IsImported, IsImportedState, IsStateFault, flows_in}, specs.inner.Steps.AreImportedTo};

use crate::fault::ImportFault;
use crate::imported::Imported;
use crate::loads::{first_above, first_dead, loads_of};
use crate::splits::split_all;
use flow_file::{FlowFile, LinkFlow};
use module_choice::{capacities, cost};
use net_core::{Demands, Instance, List, Network, Routing, StateId, States};
use std::alloc::Global;

/// Imports the flows of one state.
fn import_state(
    alloc: Global,
    instance: &Instance,
    caps: &[u128],
    state: StateId,
    flows: &[LinkFlow],
) -> Result<Routing, ImportFault>
    requires caps { length caps.now ≡ length instance.now.net.now.links }
    requires state { state.0 < length instance.now.states.now.listed + 1 }
    requires flows { AreLinkFlows instance.now.net.now.links instance.now.demands.now flows.now }
    ensures routed { IfOk result (IsImportedState (case_of instance.now) caps.now state.0 flows.now) }
    ensures fault { IfErr result (IsStateFault (case_of instance.now) caps.now state.0 flows.now) }
{
    let loads = loads_of(alloc, instance.net, flows)?;
    if let Some(link) = first_dead(&instance.in_state(state), &loads) {
        return Err(ImportFault::Dead(state, link));
    }
    let routed = split_all(alloc, instance, state, flows)?;
    if let Some(link) = first_above(&loads, caps) {
        return Err(ImportFault::Overloaded(state, link));
    }
    Ok(Routing {
        den: 1,
        flows: routed,
    })
}

/// The flows of a state.
fn flows_in(flows: &[List<LinkFlow>], state: usize) -> &[LinkFlow]
    requires { state < length flows.now }
    ensures { result.now ≡ flows_in flows.now state }
{
    flows[state].items()
}

/// Imports the flows of one state after another.
fn import_states(
    alloc: Global,
    instance: &Instance,
    caps: &[u128],
    flows: &[List<LinkFlow>],
) -> Result<List<Routing>, ImportFault>
    requires caps { length caps.now ≡ length instance.now.net.now.links }
    requires long { length flows.now ≡ length instance.now.states.now.listed + 1 }
    requires flows { All (AreLinkFlows instance.now.net.now.links instance.now.demands.now) flows.now }
    ensures routed { IfOk result (AreImportedTo (case_of instance.now) caps.now flows.now (length flows.now)) }
    ensures fault { IfErr result (IsImportFault (case_of instance.now) caps.now flows.now) }
{
    let mut routings = List::new(alloc);
    for s in 0..instance.states.count() {
        let state = StateId(s);
        let routing = import_state(alloc, instance, caps, state, flows_in(flows, s as usize))?;
        let Ok(()) = routings.push(routing) else {
            return Err(ImportFault::NoMemory);
        };
    }
    Ok(routings)
}

/// `import` of an instance, in its time and memory.
pub fn import_instance(
    alloc: Global,
    instance: &Instance,
    file: FlowFile,
) -> Result<Imported, ImportFault>
    requires { IsFlowFile (known_of instance.now.net.now instance.now.states.now) instance.now.demands.now file }
    ensures imported { IfOk result (IsImported (case_of instance.now) file) }
    ensures fault { let p = case_of instance.now in IfErr result (IsImportFault p (caps_of p.links file.counts) file.flows) }
{
    let caps = capacities(alloc, instance.net, &file.counts)?;
    let routings = import_states(alloc, instance, caps.nums.items(), file.flows.items())?;
    let cost = cost(instance.net, &file.counts);
    let counts = file.counts;
    Ok(Imported {
        counts,
        cost,
        routings,
    })
}

/// Imports another tool's solution: its counts with what they cost, setups among it, and its flows as routings along paths, with
/// denominator 1, that carry the demands in each state.
///
/// The first fault by state refuses it: the first link with flow that doesn't survive in the state; else the first demand, and node,
/// at which its flows aren't balanced; else the first link on which all flows, in both directions together, are more than the
/// capacity of the counts. Flows that go round in a circle are dropped, once their loads were tested.
///
/// For each state it takes time in its flows times the demands, and in what `split_flow` takes; and memory for the flows.
///
/// ```text
/// // the triangle without failures: two modules on AC, and a flow of 12.000 of D1 on AC from A
/// let imported = import(alloc, &net, &states, &demands, file)?;    // cost 10,000; in state 0, over 1, a flow of 12,000 along AC
/// // with one module on AC: ImportFault::Overloaded(StateId(0), LinkId(2))
/// ```
pub fn import(
    alloc: Global,
    net: &Network,
    states: &States,
    demands: &Demands,
    file: FlowFile,
) -> Result<Imported, ImportFault>
    requires demands { AreDemands (length net.now.nodes) demands.now }
    requires file { IsFlowFile (known_of net.now states.now) demands.now file }
    ensures imported { let p = case net.now states.now demands.now in IfOk result (λ imported. IsImported p file imported) }
    ensures fault { let p = case net.now states.now demands.now in IfErr result (λ fault. IsImportFault p (caps_of p.links file.counts) file.flows fault) }
{
    let instance = Instance {
        net,
        states,
        demands,
    };
    import_instance(alloc, &instance, file)
}
