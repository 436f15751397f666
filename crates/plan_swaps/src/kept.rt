ghost use Rattle.std.specs.Prelude.{◌≡◌, ◌≤◌, IfOk};
ghost use Rattle.plan_terms.specs.Terms.{case_of, AreCounts, AreWithinLimits, IsSurvivable, capacities, total_cost};
ghost use Rattle.trim_plan.specs.Terms.{AreRoutingsWithin, IsTestOf};
ghost use Rattle.plan_swaps.specs.inner.Searching.{AreAskedCounts, AreCarryingCounts};

use crate::search::Search;
use module_choice::cost;
use net_core::{Copied, Counts, Instance, List, NoMemory, Routing};

/// The cheapest counts so far, their cost in units of the network, and for each state a routing within them.
#[derive(Drop)]
pub struct Kept {
    pub counts: Counts,
    pub cost: u128,
    pub routings: List<Routing>,
}

/// Copies of counts and of the routings within them, with the cost of the counts.
fn kept_of(instance: &Instance, counts: &Counts, routings: &List<Routing>) -> Result<Kept, NoMemory>
    requires shape { AreCounts instance.now.net.now.links counts.now }
    requires limits { AreWithinLimits instance.now.net.now.links counts.now }
    requires routings { AreRoutingsWithin (case_of instance.now) (capacities instance.now.net.now.links counts.now) routings.now }
    ensures carrying { IfOk result (AreCarryingCounts (case_of instance.now)) }
    ensures paid { IfOk result (λ kept. kept.cost ≡ total_cost instance.now.net.now.links counts.now) }
{
    Ok(Kept {
        counts: counts.copy()?,
        cost: cost(instance.net, counts),
        routings: routings.copy()?,
    })
}

/// Replaces the kept counts by others if these cost less and carry the demands. Tells whether it did.
pub(crate) fn keep_cheaper(
    instance: &Instance,
    search: &mut Search,
    kept: &mut Kept,
    counts: &Counts,
) -> Result<bool, NoMemory>
    requires survivable { IsSurvivable (case_of instance.now) }
    requires asked { AreAskedCounts (case_of instance.now) search.old counts.now }
    requires kept { AreCarryingCounts (case_of instance.now) kept.old }
    ensures sound { IsTestOf (case_of instance.now) search.new.test }
    ensures kept { AreCarryingCounts (case_of instance.now) kept.new }
    ensures cheaper { kept.new.cost ≤ kept.old.cost }
{
    if cost(instance.net, counts) >= kept.cost {
        return Ok(false);
    }
    if !search.carries(instance, counts)? {
        return Ok(false);
    }
    *kept = kept_of(instance, counts, search.test.routings())?;
    Ok(true)
}
