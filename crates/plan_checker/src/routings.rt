ghost use Rattle.std.specs.Prelude.{◌≡◌, ℕ, ◌<◌, ◌^◌, All, OnOk, length, [], ◌∷◌};
ghost use Rattle.plan_terms.specs.Terms.{case_of, AreCounts, capacities};
ghost use Rattle.plan_report.specs.Terms.{known_of, AreRoutingsInForm};
ghost use Rattle.plan_checker.{specs.Carried.{HoldsBadPath, HoldsNotCarried, HoldsOverloaded, IsOverloaded, IsUncarried}, specs.inner.Routes.FollowPaths, specs.inner.Tests.{Tells, TellFirst}};

use crate::finding::Finding;
use crate::overloads::{overloaded, uncarried};
use crate::routes::bad_path;
use crate::stop::{Stop, Test};
use module_choice::capacities;
use net_core::{Counts, Instance, LinkId, Routing, StateId};
use std::alloc::Global;

/// Whether each flow follows a path of its demand.
fn check_paths(alloc: Global, instance: &Instance, routings: &[Routing]) -> Test
    requires { AreRoutingsInForm (known_of instance.now.net.now instance.now.states.now) instance.now.demands.now routings.now }
    ensures told { Tells (HoldsBadPath (case_of instance.now) routings.now) result }
    ensures paths { OnOk result (FollowPaths (case_of instance.now) routings.now) }
{
    let place = bad_path(alloc, instance, routings)?;
    if let Some(at) = place {
        return Err(Stop::Found(Finding::BadPath(StateId(at.group), at.at)));
    }
    Ok(())
}

/// Whether the flows of each demand sum to its need.
fn check_sums(alloc: Global, instance: &Instance, routings: &[Routing]) -> Test
    requires { AreRoutingsInForm (known_of instance.now.net.now instance.now.states.now) instance.now.demands.now routings.now }
    ensures told { Tells (HoldsNotCarried (case_of instance.now) routings.now) result }
    ensures met { OnOk result ((s k : ℕ) → IsUncarried (case_of instance.now) 1 routings.now s k → ⊥) }
{
    let place = uncarried(alloc, instance, 1, routings)?;
    if let Some(at) = place {
        return Err(Stop::Found(Finding::NotCarried(StateId(at.group), at.at)));
    }
    Ok(())
}

/// Whether the flows over each link stay within its capacity. The flows follow paths.
fn check_loads(alloc: Global, instance: &Instance, counts: &Counts, routings: &[Routing]) -> Test
    requires form { AreRoutingsInForm (known_of instance.now.net.now instance.now.states.now) instance.now.demands.now routings.now }
    requires paths { FollowPaths (case_of instance.now) routings.now }
    requires shape { AreCounts instance.now.net.now.links counts.now }
    requires small { All (λ n. n < 2 ^ 46) (capacities instance.now.net.now.links counts.now) }
    ensures told { Tells (HoldsOverloaded (capacities instance.now.net.now.links counts.now) routings.now) result }
    ensures within { OnOk result ((s e : ℕ) → IsOverloaded (capacities instance.now.net.now.links counts.now) routings.now s e → ⊥) }
{
    let caps = capacities(alloc, instance.net, counts)?;
    let place = overloaded(alloc, instance, caps.nums.items(), routings)?;
    if let Some(at) = place {
        return Err(Stop::Found(Finding::Overloaded(StateId(at.group), LinkId(at.at))));
    }
    Ok(())
}

/// Whether the routings carry the demands in each state within the capacities of the counts.
pub(crate) fn check_routings(
    alloc: Global,
    instance: &Instance,
    counts: &Counts,
    routings: &[Routing],
) -> Test
    requires form { AreRoutingsInForm (known_of instance.now.net.now instance.now.states.now) instance.now.demands.now routings.now }
    requires shape { AreCounts instance.now.net.now.links counts.now }
    requires small { All (λ n. n < 2 ^ 46) (capacities instance.now.net.now.links counts.now) }
    ensures told { TellFirst (HoldsBadPath (case_of instance.now) routings.now ∷ HoldsNotCarried (case_of instance.now) routings.now
        ∷ HoldsOverloaded (capacities instance.now.net.now.links counts.now) routings.now ∷ []) result }
    ensures paths { OnOk result (FollowPaths (case_of instance.now) routings.now) }
    ensures met { OnOk result ((s k : ℕ) → IsUncarried (case_of instance.now) 1 routings.now s k → ⊥) }
    ensures within { OnOk result ((s e : ℕ) → IsOverloaded (capacities instance.now.net.now.links counts.now) routings.now s e → ⊥) }
{
    check_paths(alloc, instance, routings)?;
    check_sums(alloc, instance, routings)?;
    check_loads(alloc, instance, counts, routings)
}
