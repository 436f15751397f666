ghost use Rattle.std.specs.Prelude.{◌≡◌, ℕ, ◌+◌, ◌*◌, ◌<◌, ◌≤◌, ◌^◌, All, IfOk, length};
ghost use Rattle.plan_terms.specs.Terms.{IsModule, capacities, case_of, modules_capacity};
ghost use Rattle.plan_view.{specs.Loads.{den_in, load_in}, specs.Rows.{AreLinkRows, IsLinkRow, IsRowAt}, specs.Sound.IsSoundPlan};

use crate::greatest::worst_state;
use crate::loads::{use_of, whole_load};
use crate::rows::LinkRow;
use module_choice::{capacities, link_cost};
use net_core::{Copied, Instance, Link, LinkId, List, NoMemory, StateId};
use plan_types::Plan;
use std::alloc::Global;

/// The row of one link, of which this is the capacity.
fn link_row(
    plan: &Plan,
    link: LinkId,
    l: &Link,
    counts: &List<u64>,
    capacity: u128,
) -> Result<LinkRow, NoMemory>
    requires shape { length counts.now ≡ length l.now.modules }
    requires few { length l.now.modules ≤ 16 }
    requires each { All IsModule l.now.modules }
    requires capacity { capacity ≡ l.now.fixed + modules_capacity l.now.modules counts.now }
    requires small { capacity < 2 ^ 46 }
    requires some { 0 < length plan.now.routings }
    requires states { length plan.now.routings < 2 ^ 32 }
    requires within { (s : ℕ) → load_in plan.now.routings s link.0 ≤ capacity * den_in plan.now.routings s }
    requires low { (s : ℕ) → load_in plan.now.routings s link.0 < 2 ^ 128 }
    requires positive { (s : ℕ) → s < length plan.now.routings → 0 < den_in plan.now.routings s }
    requires dens { (s : ℕ) → den_in plan.now.routings s < 2 ^ 62 }
    ensures { IfOk result (IsLinkRow plan.now l.now counts.now link.0) }
{
    let routings = plan.routings.items();
    let state = worst_state(routings, link);
    let worst = &routings[state as usize];
    Ok(LinkRow {
        link,
        modules: counts.copy()?,
        capacity,
        normal: whole_load(&routings[0], link),
        worst: whole_load(worst, link),
        state: StateId(state),
        used: use_of(worst, link, capacity),
        cost: link_cost(l, counts.items()),
    })
}

/// The row of the link at a place, where these are the capacities of all links.
fn row_at(instance: &Instance, plan: &Plan, caps: &[u128], e: u32) -> Result<LinkRow, NoMemory>
    requires sound { IsSoundPlan (case_of instance.now) plan.now }
    requires inside { e < length instance.now.net.now.links }
    requires capacities { caps.now ≡ capacities instance.now.net.now.links plan.now.counts }
    ensures { IfOk result (IsRowAt instance.now.net.now.links plan.now e) }
{
    let l = &instance.net.links().items()[e as usize];
    let counts = &plan.counts.items()[e as usize];
    link_row(plan, LinkId(e), l, counts, caps[e as usize])
}

/// A row for each link, in the order of the network: its modules, its capacity, its load without failures and its greatest load, and
/// its cost. The plan is one that a check accepted for this instance.
///
/// It takes time in the links of all paths times the number of links, and memory for the rows and a capacity of each link.
///
/// ```text
/// // the triangle, where each link fails alone: AB has 20.000 and carries 12.000 in state AC, 60 per cent
/// let rows = link_rows(alloc, &instance, &plan)?;
/// ```
#[tactic(auto, using(crate::proofs::RowLists::links_none))]
pub fn link_rows(alloc: Global, instance: &Instance, plan: &Plan) -> Result<List<LinkRow>, NoMemory>
    requires { IsSoundPlan (case_of instance.now) plan.now }
    ensures { IfOk result (AreLinkRows instance.now.net.now.links plan.now (length instance.now.net.now.links)) }
{
    let caps = capacities(alloc, instance.net, &plan.counts)?;
    let mut rows = List::new(alloc);
    for e in 0..instance.net.links().len() as u32 {
        let row = row_at(instance, plan, caps.nums.items(), e)?;
        rows.push(row)?;
    }
    Ok(rows)
}
