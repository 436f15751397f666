ghost use Rattle.std.specs.Prelude.{◌≡◌, ◌≤◌, IfOk, OnOk};
ghost use Rattle.plan_terms.specs.Terms.{case_of, IsSurvivable};
ghost use Rattle.trim_plan.{specs.Terms.IsTestOf, specs.Trimmed.IsRoutedPlan};
ghost use Rattle.plan_swaps.{specs.Swaps.IsCheaperPlan, specs.inner.Searching.AreCarryingCounts};

use crate::kept::Kept;
use crate::refusals::Refusals;
use crate::search::Search;
use crate::swaps::make_cheaper;
use able_counts::AbleTest;
use net_core::{Copied, Counts, Instance, List, NoMemory, Routing, discard};
use plan_types::{Certificate, Plan};
use std::alloc::Global;
use std::mem;
use trim_plan::{Priced, dearest_first};

/// Refusals that know the cuts of a certificate.
fn met_cuts(alloc: Global, certificate: &Certificate) -> Result<Refusals, NoMemory> {
    let mut refusals = Refusals::new(alloc);
    for line in certificate.lines.items() {
        refusals.meet(line.cut.copy()?)?;
    }
    Ok(refusals)
}

/// A search that begins with a copy of the routings of counts that carry the demands, and that knows the cuts of a certificate.
fn search_from(
    alloc: Global,
    instance: &Instance,
    certificate: &Certificate,
    kept: &Kept,
) -> Result<Search, NoMemory>
    requires kept { AreCarryingCounts (case_of instance.now) kept.now }
    ensures { IfOk result (λ search. IsTestOf (case_of instance.now) search.test) }
{
    let refusals = met_cuts(alloc, certificate)?;
    let test = AbleTest::new(alloc, instance, kept.routings.copy()?)?;
    Ok(Search {
        test,
        refusals,
        asks: 0,
    })
}

/// Makes counts that carry the demands as cheap as exchanges of modules make them. The modules are given the dearest first, and the cuts of
/// the certificate are known from the start.
fn swap_in_order(
    alloc: Global,
    instance: &Instance,
    certificate: &Certificate,
    dearest: &[Priced],
    kept: &mut Kept,
) -> Result<(), NoMemory>
    requires survivable { IsSurvivable (case_of instance.now) }
    requires kept { AreCarryingCounts (case_of instance.now) kept.old }
    ensures kept { AreCarryingCounts (case_of instance.now) kept.new }
    ensures cheaper { kept.new.cost ≤ kept.old.cost }
{
    let mut search = search_from(alloc, instance, certificate, kept)?;
    let done = make_cheaper(alloc, instance, &mut search, dearest, kept);
    discard(search);
    done
}

/// Makes counts that carry the demands as cheap as exchanges of modules make them. The cuts of the certificate are known from the start.
fn swap_counts(
    alloc: Global,
    instance: &Instance,
    certificate: &Certificate,
    kept: &mut Kept,
) -> Result<(), NoMemory>
    requires survivable { IsSurvivable (case_of instance.now) }
    requires kept { AreCarryingCounts (case_of instance.now) kept.old }
    ensures kept { AreCarryingCounts (case_of instance.now) kept.new }
    ensures cheaper { kept.new.cost ≤ kept.old.cost }
{
    let dearest = dearest_first(alloc, instance.net)?;
    swap_in_order(alloc, instance, certificate, dearest.items(), kept)
}

/// Counts with their cost and routings, moved out of a plan, which is left with empty lists.
fn taken(alloc: Global, counts: &mut Counts, cost: u128, routings: &mut List<Routing>) -> Kept
    ensures { result ≡ record { counts = counts.old; cost = cost; routings = routings.old } }
{
    Kept {
        counts: mem::replace(counts, List::new(alloc)),
        cost,
        routings: mem::replace(routings, List::new(alloc)),
    }
}

/// Gives a plan these counts, with their cost and routings.
fn set_counts(plan: &mut Plan, kept: Kept)
    ensures { plan.new ≡ record plan.old { counts = kept.counts; cost = kept.cost; routings = kept.routings } }
{
    let (counts, cost, routings) = (kept.counts, kept.cost, kept.routings);
    plan.counts = counts;
    plan.cost = cost;
    plan.routings = routings;
}

/// Makes a plan cheaper by exchanging modules. Where memory runs out, the plan is left without counts and routings.
fn swap_within(alloc: Global, instance: &Instance, plan: &mut Plan) -> Result<(), NoMemory>
    requires survivable { IsSurvivable (case_of instance.now) }
    requires demands { plan.old.demands ≡ instance.now.demands.now }
    requires routed { IsRoutedPlan (case_of instance.now) plan.old }
    ensures { OnOk result (IsCheaperPlan (case_of instance.now) plan.old plan.new) }
{
    let mut kept = taken(alloc, &mut plan.counts, plan.cost, &mut plan.routings);
    swap_counts(alloc, instance, &plan.certificate, &mut kept)?;
    set_counts(plan, kept);
    Ok(())
}

/// Makes a plan of an instance cheaper by exchanging modules.
///
/// The plan's demands are the instance's, and no state separates one; it carries them, has the cost of its counts, and is in form and in
/// lowest terms. The new plan is the given one with other counts, cost and routings; it carries the demands too, and costs no more.
///
/// What can be spared is taken off first. Then it tries two kinds of exchange. One module is taken off and a cheaper one put on, the
/// exchange that saves most first. Or one module is put on, and what can be spared of the others is taken off, the dearest first. Once the
/// counts that come of one carry the demands and cost less, it starts over from them. It ends when nothing helps, or when 20,000 asks are
/// spent, of which a look at the known cuts is a tenth.
///
/// On four parallel links of modules of 1.00 for 1.00 that fail alone, a plan for a demand of 10.00 with four modules on each costs 16.00,
/// and becomes one of 14.00. Most asks are refused by a known cut. It takes the memory of the routings three times, and of the cuts that it
/// finds. It fails only where memory runs out.
pub fn swap(alloc: Global, instance: &Instance, plan: Plan) -> Result<Plan, NoMemory>
    requires survivable { IsSurvivable (case_of instance.now) }
    requires demands { plan.demands ≡ instance.now.demands.now }
    requires routed { IsRoutedPlan (case_of instance.now) plan }
    ensures { IfOk result (IsCheaperPlan (case_of instance.now) plan) }
{
    let mut plan = plan;
    match swap_within(alloc, instance, &mut plan) {
        Ok(()) => Ok(plan),
        Err(error) => {
            discard(plan);
            Err(error)
        }
    }
}
