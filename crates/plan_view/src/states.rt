ghost use Rattle.std.specs.Prelude.{◌≡◌, ◌+◌, ◌<◌, ◌≤◌, ◌^◌, All, IfOk, IfSome, length, slice_index};
ghost use Rattle.plan_terms.specs.Terms.{capacities, case_of, load};
ghost use Rattle.plan_view.{specs.Loads.{IsFirstIfAny, IsFullestLink}, specs.Rows.{AreStateRows, IsStateRow, IsUseOf, failed_links}, specs.Sound.IsSoundPlan, specs.inner.LowRoutings.IsLowRouting};

use crate::greatest::fullest_link;
use crate::loads::{load_of, use_of};
use crate::parts::part_of;
use crate::rerouting::rerouted_amount;
use crate::rows::StateRow;
use module_choice::capacities;
use net_core::{Copied, Instance, LinkId, List, Listed, NoMemory, Routing, StateId};
use plan_types::Plan;
use std::alloc::Global;

/// The fullest link of a state, and its use in per cent, rounded up.
#[derive(Clone, Copy)]
struct Fullest {
    link: Option<LinkId>,
    used: u32,
}

/// A copy of the links that a state fails.
fn failed_links(alloc: Global, listed: &[Listed], state: u32) -> Result<List<LinkId>, NoMemory>
    requires { state ≤ length listed.now }
    ensures { IfOk result (λ links. links ≡ failed_links listed.now state) }
{
    if state == 0 {
        return Ok(List::new(alloc));
    }
    listed[state as usize - 1].links.copy()
}

/// The link at a place, if there is one and it is loaded.
#[tactic(auto, using(crate::proofs::Firsts::none_loaded, crate::proofs::Firsts::none_at_all))]
fn if_loaded(capacities: &[u128], routing: &Routing, place: Option<u32>) -> Option<LinkId>
    requires first { IsFirstIfAny (length capacities.now) (load routing.now.flows) (slice_index capacities.now) place }
    requires low { IsLowRouting capacities.now routing.now }
    ensures { IsFullestLink (length capacities.now) (load routing.now.flows) (slice_index capacities.now) result }
{
    match place {
        Some(e) => {
            if load_of(routing.flows.items(), LinkId(e)) > 0 {
                Some(LinkId(e))
            } else {
                None
            }
        }
        None => None,
    }
}

/// The use of a link, in per cent, rounded up; 0 where there is none.
fn use_of_fullest(routing: &Routing, capacities: &[u128], fullest: Option<LinkId>) -> u32
    requires inside { IfSome fullest (λ e. e.0 < length capacities.now) }
    requires small { All (λ n. n < 2 ^ 46) capacities.now }
    requires low { IsLowRouting capacities.now routing.now }
    ensures { IsUseOf routing.now capacities.now fullest result }
{
    match fullest {
        Some(e) => use_of(routing, e, capacities[e.0 as usize]),
        None => 0,
    }
}

/// The fullest link of a state, with its use.
fn fullest_of(routing: &Routing, capacities: &[u128]) -> Fullest
    requires few { length capacities.now < 2 ^ 32 }
    requires small { All (λ n. n < 2 ^ 46) capacities.now }
    requires low { IsLowRouting capacities.now routing.now }
    ensures link { IsFullestLink (length capacities.now) (load routing.now.flows) (slice_index capacities.now) result.link }
    ensures used { IsUseOf routing.now capacities.now result.link result.used }
{
    let first = fullest_link(capacities, routing.flows.items());
    let link = if_loaded(capacities, routing, first);
    let used = use_of_fullest(routing, capacities, link);
    Fullest { link, used }
}

/// The row of one state, in which this is the capacity of each link.
fn state_row(
    alloc: Global,
    instance: &Instance,
    plan: &Plan,
    caps: &[u128],
    state: u32,
) -> Result<StateRow, NoMemory>
    requires sound { IsSoundPlan (case_of instance.now) plan.now }
    requires state { state ≤ length instance.now.states.now.listed }
    requires capacities { caps.now ≡ capacities instance.now.net.now.links plan.now.counts }
    ensures { IfOk result (IsStateRow (case_of instance.now) plan.now state) }
{
    let routings = plan.routings.items();
    let normal = &routings[0];
    let routing = &routings[state as usize];
    let fullest = fullest_of(routing, caps);
    Ok(StateRow {
        state: StateId(state),
        failed: failed_links(alloc, instance.states.listed().items(), state)?,
        rerouted: rerouted_amount(normal, routing),
        fullest: fullest.link,
        used: fullest.used,
        part: part_of(instance.net.links().items(), &plan.certificate, state),
    })
}

/// A row for each state, the one without failures first and then those of the failure list: what it fails, how much goes along other
/// paths, its fullest link, and which part of the raw value its cuts give. The plan is one that a check accepted for this instance.
///
/// It takes time in the links of all paths times the number of links, and in the square of the flows of each state, and memory for the
/// rows and a capacity of each link.
///
/// ```text
/// // the triangle, where each link fails alone: in state AC 12.000 takes other paths, and its cuts give 66.7 per cent of the raw value
/// let rows = state_rows(alloc, &instance, &plan)?;
/// ```
#[tactic(auto, using(crate::proofs::RowLists::states_none))]
pub fn state_rows(
    alloc: Global,
    instance: &Instance,
    plan: &Plan,
) -> Result<List<StateRow>, NoMemory>
    requires { IsSoundPlan (case_of instance.now) plan.now }
    ensures { IfOk result (AreStateRows (case_of instance.now) plan.now (length instance.now.states.now.listed + 1)) }
{
    let caps = capacities(alloc, instance.net, &plan.counts)?;
    let mut rows = List::new(alloc);
    for state in 0..instance.states.count() {
        let row = state_row(alloc, instance, plan, caps.nums.items(), state)?;
        rows.push(row)?;
    }
    Ok(rows)
}
