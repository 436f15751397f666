ghost use Rattle.std.specs.Prelude.{◌≡◌, ◌+◌, ◌<◌, ◌↔◌, IfOk, IsTrue, None, OnOk, length};
ghost use Rattle.plan_terms.specs.Terms.{case_of};
ghost use Rattle.short_paths.specs.DistanceTables.{distance_at};
ghost use Rattle.failure_texts.{specs.AllSeparations.AreSeparations, specs.inner.SeparationsSoFar.{AreSeparationsBefore, IsTableOf}};

use failure_states::Separation;
use net_core::{Demand, Instance, Lengths, List, NoMemory, StateId};
use short_paths::{DistanceTable, all_pairs_in};
use std::alloc::Global;

/// Whether the demand has a need and no path joins its ends.
fn is_separated(table: &DistanceTable, demand: &Demand) -> bool
    requires from { demand.now.from.0 < table.now.nodes }
    requires to { demand.now.to.0 < table.now.nodes }
    ensures { IsTrue result ↔ ((0 < demand.now.need) × (distance_at table.now demand.now.from.0 demand.now.to.0 ≡ None)) }
{
    demand.need > 0 && table.get(demand.from, demand.to).is_none()
}

/// Lengths of 0 for this many links.
fn no_lengths(alloc: Global, links: usize) -> Result<Lengths, NoMemory>
    ensures { IfOk result (λ lengths. length lengths ≡ links) }
{
    Ok(List::from_vec(vec![in alloc; 0u32; links]?))
}

/// The distances of a state.
fn table_of(
    alloc: Global,
    instance: &Instance,
    lengths: &Lengths,
    state: StateId,
) -> Result<DistanceTable, NoMemory>
    requires state { state.0 < length instance.now.states.now.listed + 1 }
    requires lengths { length lengths.now ≡ length instance.now.net.now.links }
    ensures { IfOk result (IsTableOf (case_of instance.now) state.0) }
{
    all_pairs_in(alloc, &instance.in_state(state), lengths)
}

/// Puts a demand last, if the state separates it.
fn put_demand(
    found: &mut List<Separation>,
    instance: &Instance,
    state: StateId,
    table: &DistanceTable,
    k: usize,
) -> Result<(), NoMemory>
    requires state { state.0 < length instance.now.states.now.listed + 1 }
    requires table { IsTableOf (case_of instance.now) state.0 table.now }
    requires inside { k < length instance.now.demands.now }
    requires found { AreSeparationsBefore (case_of instance.now) state.0 k found.old }
    ensures { OnOk result (AreSeparationsBefore (case_of instance.now) state.0 (k + 1) found.new) }
{
    if is_separated(table, &instance.demands.items()[k]) {
        found.push(Separation {
            state,
            demand: k as u32,
        })?;
    }
    Ok(())
}

/// Puts the demands last that a state separates.
fn put_state(
    found: &mut List<Separation>,
    instance: &Instance,
    state: StateId,
    table: &DistanceTable,
) -> Result<(), NoMemory>
    requires state { state.0 < length instance.now.states.now.listed + 1 }
    requires table { IsTableOf (case_of instance.now) state.0 table.now }
    requires found { AreSeparationsBefore (case_of instance.now) state.0 0 found.old }
    ensures { OnOk result (AreSeparationsBefore (case_of instance.now) (state.0 + 1) 0 found.new) }
{
    for k in 0..instance.demands.len() {
        put_demand(found, instance, state, table, k)?;
    }
    Ok(())
}

/// All demands of a need that the states of an instance separate, by state and then by place: none where each state is survived.
///
/// It takes for each state time in the cube of the nodes and in the demands, and memory for a distance of each two nodes and for the answer.
///
/// In the chain of links AB and BC with demands D1 from A to C and D2 from A to B, and a state that fails AB, these are two, of the first state
/// and the places 0 and 1.
pub fn separations(alloc: Global, instance: &Instance) -> Result<List<Separation>, NoMemory>
    ensures { IfOk result (AreSeparations (case_of instance.now)) }
{
    let lengths = no_lengths(alloc, instance.net.links().len())?;
    let mut found = List::new(alloc);
    for s in 0..instance.states.count() {
        let state = StateId(s);
        let table = table_of(alloc, instance, &lengths, state)?;
        put_state(&mut found, instance, state, &table)?;
    }
    Ok(found)
}
