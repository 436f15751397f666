ghost use Rattle.std.specs.Prelude.{◌≡◌, IfOk, length};
ghost use Rattle.plan_terms.specs.Terms.{AreDemands, case};
ghost use Rattle.board_desk.specs.Turns.{IsSameCaller, caller_seen};
ghost use Rattle.separation_workers.{specs.Terms.SeesMore, specs.Callers.HasSeenHistory};
ghost use Rattle.plan_types.specs.declared.report.Outcome.TheVariants as outcomes;
ghost use Rattle.planner.specs.SnapshotPlans.{IsSnapshotAnswer, IsSnapshotIn, PoolsAlone};
ghost use Rattle.session_run.{specs.inner.Running.{IsOfSetting, case_made}, specs.inner.Turns.{IsOutcomeFor, IsSnapshotHere, NamesDemand, PlansAt, PlansSince}};

use crate::setting::Setting;
use board_desk::Caller;
use cut_pool::Snapshot;
use net_core::{Copied, Demand, NoMemory, StateId, discard};
use outside_io::Gate;
use plan_types::{Outcome, Plan};
use planner::{PlanAnswer, plan_snapshot};
use separation_workers::{Hold, Workers};
use std::mem;
use std::sync::Wait;
use std::thread::Threads;

/// A plan command: the number of its caller, and which of the caller's plan commands it is, from 1.
#[derive(Clone, Copy)]
pub struct Asked {
    pub caller: u32,
    pub serial: u32,
}

/// Plans for a snapshot of what the caller has seen, outside the desk. Each cut that goes into the pool takes a turn. It may never return.
fn plan_beside<R: Threads + Wait, G: Gate>(
    rt: &R,
    gate: &G,
    setting: &Setting,
    snapshot: Snapshot,
    caller: &mut Caller,
) -> Result<PlanAnswer, NoMemory>
    requires of { IsOfSetting setting.now caller.old }
    requires seen { HasSeenHistory caller.old }
    requires belong { AreDemands (length setting.now.net.now.nodes) snapshot.demands }
    requires snapshot { ∥ IsSnapshotIn (case setting.now.net.now setting.now.states.now snapshot.demands) (caller_seen caller.old).history snapshot ∥₁ }
    ensures same { IsSameCaller caller.old caller.new }
    ensures more { SeesMore (caller_seen caller.old) (caller_seen caller.new) }
    ensures answer { IfOk result (IsSnapshotAnswer (case setting.now.net.now setting.now.states.now snapshot.demands) snapshot
        (caller_seen caller.old).history (caller_seen caller.new).history) }
    ensures alone { IfOk result (PoolsAlone (case setting.now.net.now setting.now.states.now snapshot.demands)
        (caller_seen caller.old) (caller_seen caller.new)) }
{
    let hold = Hold::open();
    let (alloc, hints) = (setting.alloc, setting.hints);
    let mut workers = Workers::new(rt, alloc, gate, &hold, hints, caller.take());
    let answer = plan_snapshot(alloc, setting.net, setting.states, snapshot, &mut workers);
    discard(mem::replace(caller, workers.into_caller()));
    answer
}

/// The outcome of a plan command that this plan was made for.
fn planned(asked: Asked, plan: Plan) -> Outcome
    ensures { result ≡ outcomes.Planned asked.caller asked.serial plan }
{
    Outcome::Planned {
        caller: asked.caller,
        serial: asked.serial,
        plan,
    }
}

/// The outcome of a plan command where a state separates the ends of a demand, for a snapshot of this version and position.
fn unsurvivable(
    asked: Asked,
    version: u64,
    position: u64,
    state: StateId,
    demand: &Demand,
) -> Result<Outcome, NoMemory>
    ensures { IfOk result (λ o. o ≡ outcomes.Unsurvivable asked.caller asked.serial version position state demand.now.name) }
{
    Ok(Outcome::Unsurvivable {
        caller: asked.caller,
        serial: asked.serial,
        version,
        position,
        state,
        demand: demand.name.copy()?,
    })
}

/// The outcome of a plan command with this answer, for a snapshot of this version and position.
fn outcome_for(
    asked: Asked,
    version: u64,
    position: u64,
    answer: PlanAnswer,
) -> Result<Outcome, NoMemory>
    requires { NamesDemand answer }
    ensures { IfOk result (IsOutcomeFor asked version position answer) }
{
    match answer {
        PlanAnswer::Planned(plan) => Ok(planned(asked, plan)),
        PlanAnswer::NotSurvivable(separation, demands) => {
            let demand = &demands.items()[separation.demand as usize];
            let outcome = unsurvivable(asked, version, position, separation.state, demand);
            discard(demands);
            outcome
        }
    }
}

/// Plans for a caller that has taken this snapshot of all that it has seen. Where a state separates a demand, the snapshot's demands come back,
/// since the outcome names the demand.
fn plan_at<R: Threads + Wait, G: Gate>(
    rt: &R,
    gate: &G,
    setting: &Setting,
    asked: Asked,
    snapshot: Snapshot,
    caller: &mut Caller,
) -> Result<Outcome, NoMemory>
    requires of { IsOfSetting setting.now caller.old }
    requires seen { HasSeenHistory caller.old }
    requires snapshot { IsSnapshotHere (case_made caller.old) (caller_seen caller.old).history snapshot }
    ensures same { IsSameCaller caller.old caller.new }
    ensures plan { PlansAt (case_made caller.old) asked (caller_seen caller.old) (caller_seen caller.new) result }
{
    let (version, position) = (snapshot.version, snapshot.position);
    let answer = plan_beside(rt, gate, setting, snapshot, caller)?;
    outcome_for(asked, version, position, answer)
}

/// Takes a snapshot for a caller in a turn that commits nothing, and plans for it outside the desk. It may never return.
pub fn run_plan<R: Threads + Wait, G: Gate>(
    rt: &R,
    gate: &G,
    setting: &Setting,
    asked: Asked,
    caller: &mut Caller,
) -> Result<Outcome, NoMemory>
    requires { IsOfSetting setting.now caller.old }
    ensures same { IsSameCaller caller.old caller.new }
    ensures plan { PlansSince (case_made caller.old) asked (caller_seen caller.old) (caller_seen caller.new) result }
{
    let snapshot = caller.snapshot(rt)?;
    plan_at(rt, gate, setting, asked, snapshot, caller)
}
