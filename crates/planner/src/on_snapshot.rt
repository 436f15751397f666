ghost use Rattle.std.specs.Prelude.{◌≡◌, IfOk, length};
ghost use Rattle.plan_terms.specs.Terms.{AreDemands, case, IsSurvivable};
ghost use Rattle.plan_rounds.specs.Terms.{SeesMore};
ghost use Rattle.planner.specs.SnapshotPlans.{IsSnapshotAnswer, IsSnapshotIn, PoolsAlone};

use crate::after_rounds::work_out;
use crate::answer::PlanAnswer;
use crate::plan::{Standing, make_plan};
use crate::ranges::are_short_cuts;
use cut_pool::Snapshot;
use failure_states::first_separated;
use net_core::{Instance, Network, NoMemory, States, discard};
use separator::Separate;
use std::alloc::Global;

/// The plan for a snapshot where no state separates a demand.
fn plan_survivable<S: Separate>(
    alloc: Global,
    net: &Network,
    states: &States,
    snapshot: Snapshot,
    separator: &mut S,
) -> Result<PlanAnswer, NoMemory>
    requires network { (S.frame separator.old).network ≡ net.now }
    requires states { (S.frame separator.old).states ≡ states.now }
    requires belong { AreDemands (length net.now.nodes) snapshot.demands }
    requires snapshot { ∥ IsSnapshotIn (case net.now states.now snapshot.demands) (S.seen_of separator.old).history snapshot ∥₁ }
    requires survivable { IsSurvivable (case net.now states.now snapshot.demands) }
    ensures frame { S.frame separator.new ≡ S.frame separator.old }
    ensures more { SeesMore (S.seen_of separator.old) (S.seen_of separator.new) }
    ensures answer { IfOk result (IsSnapshotAnswer (case net.now states.now snapshot.demands) snapshot
        (S.seen_of separator.old).history (S.seen_of separator.new).history) }
    ensures alone { IfOk result (PoolsAlone (case net.now states.now snapshot.demands) (S.seen_of separator.old) (S.seen_of separator.new)) }
{
    are_short_cuts(snapshot.cuts.items());
    let Snapshot {
        version,
        position,
        demands,
        cuts,
    } = snapshot;
    let instance = Instance {
        net,
        states,
        demands: &demands,
    };
    match work_out(alloc, &instance, cuts, separator) {
        Ok((chosen, bound)) => {
            let at = Standing { version, position };
            Ok(PlanAnswer::Planned(make_plan(at, demands, chosen, bound)))
        }
        Err(no_memory) => {
            discard(demands);
            Err(no_memory)
        }
    }
}

/// The plan for a snapshot, or the first demand that a state separates.
///
/// The separator is one of this network and these states. The snapshot is of the first entries of the history that the separator has seen,
/// with right sides at the snapshot's demands. If no state separates a demand, the opening cuts of each state are admitted first, in state
/// order, and then come rounds: the best certificate of the cuts so far, and the cuts that its share violates. The counts cover the last
/// share, or are those of the fallback plan if that costs less, or if some state is too wide or short within the covers. The separator
/// commits nothing but cuts, also where memory runs out. If its history was empty, and it alone has written it, the pool is a worked list
/// in its order.
///
/// On the triangle with modules of 10.00 for 5.00 that has to carry 12.00 from A to C the plan costs 10.00, its raw value is 6.00 and its
/// bound 10.00, and it is tight. With the failures of the three links it costs 30.00, and the bound is 20.00.
///
/// Each round takes a simplex run over the cuts, and one over the paths of each state. Memory is for the cuts' lengths, and a routing for
/// each state. It fails only where memory runs out.
pub fn plan_snapshot<S: Separate>(
    alloc: Global,
    net: &Network,
    states: &States,
    snapshot: Snapshot,
    separator: &mut S,
) -> Result<PlanAnswer, NoMemory>
    requires network { (S.frame separator.old).network ≡ net.now }
    requires states { (S.frame separator.old).states ≡ states.now }
    requires belong { AreDemands (length net.now.nodes) snapshot.demands }
    requires snapshot { ∥ IsSnapshotIn (case net.now states.now snapshot.demands) (S.seen_of separator.old).history snapshot ∥₁ }
    ensures frame { S.frame separator.new ≡ S.frame separator.old }
    ensures more { SeesMore (S.seen_of separator.old) (S.seen_of separator.new) }
    ensures answer { IfOk result (IsSnapshotAnswer (case net.now states.now snapshot.demands) snapshot
        (S.seen_of separator.old).history (S.seen_of separator.new).history) }
    ensures alone { IfOk result (PoolsAlone (case net.now states.now snapshot.demands) (S.seen_of separator.old) (S.seen_of separator.new)) }
{
    match first_separated(alloc, net, states, &snapshot.demands) {
        Ok(None) => plan_survivable(alloc, net, states, snapshot, separator),
        Ok(Some(separation)) => {
            let Snapshot { demands, cuts, .. } = snapshot;
            discard(cuts);
            Ok(PlanAnswer::NotSurvivable(separation, demands))
        }
        Err(no_memory) => {
            discard(snapshot);
            Err(no_memory)
        }
    }
}
