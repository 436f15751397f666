ghost use Rattle.std.specs.Prelude.{◌^◌, ◌<◌, ◌≤◌, All, IfOk, length};
ghost use Rattle.plan_terms.specs.Terms.{capacities, case_of};
ghost use Rattle.plan_view.{specs.Loads.routing_in, specs.Rows.{AreLoadRows, IsLoadRow}, specs.Sound.IsSoundPlan, specs.inner.LowRoutings.IsLowRouting};

use crate::loads::{use_of, whole_load};
use crate::rows::LoadRow;
use module_choice::capacities;
use net_core::{Instance, LinkId, List, NoMemory, Routing};
use plan_types::Plan;
use std::alloc::Global;

/// The row of one link.
fn load_row(capacities: &[u128], routing: &Routing, e: u32) -> LoadRow
    requires inside { e < length capacities.now }
    requires small { All (λ n. n < 2 ^ 46) capacities.now }
    requires low { IsLowRouting capacities.now routing.now }
    ensures { IsLoadRow capacities.now routing.now e result }
{
    let link = LinkId(e);
    LoadRow {
        link,
        load: whole_load(routing, link),
        used: use_of(routing, link, capacities[e as usize]),
    }
}

/// A row for each link, in the order of the network, with what it carries of a routing.
#[tactic(auto, using(crate::proofs::RowLists::loads_none, crate::proofs::RowLists::loads_more))]
fn rows_of(alloc: Global, capacities: &[u128], routing: &Routing) -> Result<List<LoadRow>, NoMemory>
    requires few { length capacities.now < 2 ^ 32 }
    requires small { All (λ n. n < 2 ^ 46) capacities.now }
    requires low { IsLowRouting capacities.now routing.now }
    ensures { IfOk result (AreLoadRows capacities.now routing.now (length capacities.now)) }
{
    let mut rows = List::new(alloc);
    for e in 0..capacities.len() as u32 {
        rows.push(load_row(capacities, routing, e))?;
    }
    Ok(rows)
}

/// What each link carries in a state, in the order of the network; state 0 is the one without failures, and the others are those of the
/// failure list. The plan is one that a check accepted for this instance. It takes time in the links of the state's paths times the number
/// of links, and memory for the rows and a capacity of each link.
///
/// ```text
/// // the triangle, where each link fails alone: in state 3 AB and BC carry 12.000, 60 per cent, and AC nothing
/// let rows = load_rows(alloc, &instance, &plan, 3)?;
/// ```
pub fn load_rows(
    alloc: Global,
    instance: &Instance,
    plan: &Plan,
    state: u32,
) -> Result<List<LoadRow>, NoMemory>
    requires sound { IsSoundPlan (case_of instance.now) plan.now }
    requires state { state ≤ length instance.now.states.now.listed }
    ensures { let links = instance.now.net.now.links in
        IfOk result (AreLoadRows (capacities links plan.now.counts) (routing_in plan.now.routings state) (length links)) }
{
    let caps = capacities(alloc, instance.net, &plan.counts)?;
    let nums = caps.nums.items();
    let routings = plan.routings.items();
    rows_of(alloc, nums, &routings[state as usize])
}
