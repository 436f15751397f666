ghost use Rattle.std.specs.Prelude.{◌≡◌, ◌≢◌, ℕ, ◌+◌, ◌≤◌, ◌<◌, ◌↔◌, IsTrue, All, IfOk, MatchOption, length, slice_index};
ghost use Rattle.plan_terms.specs.Terms.{AreDemands, case, case_of, IsFirstSeparation, IsSurvivable, Separates};
ghost use Rattle.net_core.specs.Limits.{most_demands};
ghost use Rattle.failure_states.specs.inner.Components.{HasEndsBelow, IsFirst, IsSplit};

use crate::components::label_components;
use net_core::{Demand, Demands, Instance, Network, NoMemory, StateId, States};
use std::alloc::Global;

/// A state, and the place in the list of a demand whose ends no path of the state joins.
#[derive(Clone, Copy, Debug, PartialEq, Eq)]
pub struct Separation {
    pub state: StateId,
    pub demand: u32,
}

/// Whether the demand has a need and ends of different labels.
fn is_split(labels: &[u32], demand: &Demand) -> bool
    requires { HasEndsBelow (length labels.now) demand.now }
    ensures { IsTrue result ↔ ((0 < demand.now.need) × (slice_index labels.now demand.now.from.0 ≢ slice_index labels.now demand.now.to.0)) }
{
    demand.need > 0 && labels[demand.from.0 as usize] != labels[demand.to.0 as usize]
}

/// The first demand that is split.
fn first_split(labels: &[u32], demands: &[Demand]) -> Option<u32>
    requires ends { All (HasEndsBelow (length labels.now)) demands.now }
    requires few { length demands.now ≤ most_demands }
    ensures { MatchOption result ((k : ℕ) → IsSplit labels.now demands.now k → ⊥) (IsFirst (IsSplit labels.now demands.now)) }
{
    for k in 0..demands.len() {
        if is_split(labels, &demands[k]) {
            return Some(k as u32);
        }
    }
    None
}

/// The first demand that a state separates. The labels are room for one number per node.
fn first_in_state(instance: &Instance, state: StateId, labels: &mut [u32]) -> Option<u32>
    requires state { state.0 < length instance.now.states.now.listed + 1 }
    requires size { length labels.old ≡ length instance.now.net.now.nodes }
    ensures size { length labels.new ≡ length labels.old }
    ensures first { MatchOption result
        ((k : ℕ) → Separates (case_of instance.now) state.0 k → ⊥)
        (IsFirst (Separates (case_of instance.now) state.0)) }
{
    label_components(&instance.in_state(state), labels);
    first_split(labels, instance.demands.items())
}

/// The first separation of all states. The labels are room for one number per node.
fn first_of_states(instance: &Instance, labels: &mut [u32]) -> Option<Separation>
    requires { length labels.old ≡ length instance.now.net.now.nodes }
    ensures { MatchOption result
        (IsSurvivable (case_of instance.now))
        (λ s. IsFirstSeparation (case_of instance.now) s.state.0 s.demand) }
{
    for s in 0..instance.states.count() {
        let state = StateId(s);
        if let Some(demand) = first_in_state(instance, state, labels) {
            return Some(Separation { state, demand });
        }
    }
    None
}

/// The first separation: the least state, and in it the first demand of positive need whose ends no path of the state
/// joins. A network without one is survivable.
///
/// It takes one number per node of memory, and for each state time in the square of the nodes, the demands, and the
/// links by the failed links of the state.
///
/// In the chain of links AB and BC with a demand D1 from A to C, and a state that fails BC, this is
/// `Some(Separation { state: StateId(1), demand: 0 })`. Where D1 has no need, or where a third link joins A and C, it
/// is `None`.
pub fn first_separated(
    alloc: Global,
    net: &Network,
    states: &States,
    demands: &Demands,
) -> Result<Option<Separation>, NoMemory>
    requires { AreDemands (length net.now.nodes) demands.now }
    ensures { let c = case net.now states.now demands.now in
        IfOk result (λ r. MatchOption r (IsSurvivable c) (λ s. IsFirstSeparation c s.state.0 s.demand)) }
{
    let mut labels = vec![in alloc; 0u32; net.nodes().len()]?;
    let instance = Instance {
        net,
        states,
        demands,
    };
    Ok(first_of_states(&instance, &mut labels))
}
