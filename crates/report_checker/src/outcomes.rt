ghost use Rattle.std.specs.Prelude.{◌≡◌, ◌+◌, ◌<◌, ◌↔◌, IfErr, IfOk, IsTrue, None, OnOk, length, min, take};
ghost use Rattle.plan_terms.specs.Terms.{Joins, case_of, graph, AreApart};
ghost use Rattle.plan_report.specs.Terms.{known_of, IsOutcomeInForm};
ghost use Rattle.plan_checker.specs.Terms.{StopsFirst, TellFirst, Tells};
ghost use Rattle.plan_types.specs.Terms.{outcome_position};
ghost use Rattle.report_checker.{specs.Outcomes.{HoldsSurvivable, HoldsVersionDiffers, SeparatesNamed, case_at, outcome_findings}, specs.inner.Along.{IsSoundOutcome, outcome_place}, specs.inner.Said.{IsSaidSeparation, IsSaid, findings_there, outcome_version, said_findings}, specs.inner.Walks.HasPassed};

use crate::walk::Walk;
use net_core::{CutLine, Demand, Instance, List, Name, NoMemory, StateId};
use plan_checker::{Finding, Stop, Test, check_instance};
use plan_types::{Outcome, Report};
use short_paths::distances;
use std::alloc::Global;

/// The version of an outcome.
fn version_of(outcome: &Outcome) -> u64
    ensures { result ≡ outcome_version outcome.now }
{
    match outcome {
        Outcome::Planned { plan, .. } => plan.version,
        Outcome::Unsurvivable { version, .. } => *version,
    }
}

/// The position of an outcome in the journal.
fn position_of(outcome: &Outcome) -> u64
    ensures { result ≡ outcome_position outcome.now }
{
    match outcome {
        Outcome::Planned { plan, .. } => plan.position,
        Outcome::Unsurvivable { position, .. } => *position,
    }
}

/// Whether the version is the number of edits that the walk to the outcome's position has accepted, and the position is one of
/// the journal.
fn check_version(instance: &Instance, walk: &Walk, report: &Report, outcome: &Outcome) -> Test
    requires { HasPassed (case_of instance.now) (take (outcome_position outcome.now) report.now.entries) walk.now }
    ensures { Tells (HoldsVersionDiffers (case_of instance.now) report.now.entries (outcome_version outcome.now) (outcome_position outcome.now)) result }
{
    let printed = version_of(outcome);
    let accepted = walk.book.version();
    if printed != accepted || position_of(outcome) > report.entries.len() as u64 {
        return Err(Stop::Found(Finding::VersionDiffers(printed, accepted)));
    }
    Ok(())
}

/// Whether there is no distance.
fn is_none(far: Option<u64>) -> bool
    ensures { IsTrue result ↔ (far ≡ None) }
{
    match far {
        None => true,
        Some(_) => false,
    }
}

/// Whether no path of the state joins the demand's ends. It takes a search from one of them.
fn are_apart(
    alloc: Global,
    instance: &Instance,
    state: StateId,
    demand: &Demand,
) -> Result<bool, NoMemory>
    requires state { state.0 < length instance.now.states.now.listed + 1 }
    requires from { demand.now.from.0 < length instance.now.net.now.nodes }
    requires to { demand.now.to.0 < length instance.now.net.now.nodes }
    ensures { IfOk result (λ r. IsTrue r ↔ AreApart (Joins (graph instance.now.net.now instance.now.states.now state.0)) demand.now.from.0 demand.now.to.0) }
{
    let lengths = List::filled(alloc, 0, instance.net.links().len())?;
    let far = distances(
        alloc,
        instance.net,
        instance.states,
        state,
        &lengths,
        demand.from,
    )?;
    Ok(is_none(far.items()[demand.to.0 as usize]))
}

/// Whether demand `k` has this name and the state separates it.
fn is_separated(
    alloc: Global,
    instance: &Instance,
    state: StateId,
    name: &Name,
    k: usize,
) -> Result<bool, NoMemory>
    requires state { state.0 < length instance.now.states.now.listed + 1 }
    requires inside { k < length instance.now.demands.now }
    ensures { IfOk result (λ r. IsTrue r ↔ IsSaidSeparation (case_of instance.now) state.0 name.now k) }
{
    let demand = &instance.demands.items()[k];
    if !demand.name.same(name) {
        return Ok(false);
    }
    if demand.need == 0 {
        return Ok(false);
    }
    are_apart(alloc, instance, state, demand)
}

/// Whether the state separates a demand of this name.
fn check_separated(alloc: Global, instance: &Instance, state: StateId, name: &Name) -> Test
    requires state { state.0 < length instance.now.states.now.listed + 1 }
    ensures told { Tells (HoldsSurvivable (case_of instance.now) state.0 name.now) result }
    ensures sound { OnOk result (SeparatesNamed (case_of instance.now) state.0 name.now) }
{
    for k in 0..instance.demands.len() {
        if is_separated(alloc, instance, state, name, k)? {
            return Ok(());
        }
    }
    Err(Stop::Found(Finding::Survivable))
}

/// Checks what an outcome says of the instance's demands, which are those at its position.
fn check_claim(
    alloc: Global,
    instance: &Instance,
    outcome: &Outcome,
    full: bool,
    pool: &[CutLine],
) -> Test
    requires form { IsOutcomeInForm (known_of instance.now.net.now instance.now.states.now) pool.now outcome.now }
    ensures told { TellFirst (said_findings (case_of instance.now) full outcome.now) result }
    ensures sound { OnOk result (IsSaid (case_of instance.now) outcome.now) }
{
    match outcome {
        Outcome::Planned { plan, .. } => check_instance(alloc, instance, plan, full),
        Outcome::Unsurvivable { state, demand, .. } => {
            check_separated(alloc, instance, *state, demand)
        }
    }
}

/// Checks an outcome to whose position the walk has come.
fn check_outcome(
    alloc: Global,
    instance: &Instance,
    walk: &Walk,
    report: &Report,
    outcome: &Outcome,
) -> Test
    requires passed { HasPassed (case_of instance.now) (take (outcome_position outcome.now) report.now.entries) walk.now }
    requires form { IsOutcomeInForm (known_of instance.now.net.now instance.now.states.now) report.now.pool outcome.now }
    ensures told { TellFirst (findings_there (case_of instance.now) report.now outcome.now) result }
    ensures sound { OnOk result (IsSaid (case_at (case_of instance.now) report.now.entries (outcome_position outcome.now)) outcome.now) }
{
    check_version(instance, walk, report, outcome)?;
    let there = Instance {
        net: instance.net,
        states: instance.states,
        demands: walk.book.demands(),
    };
    let full = report.pool.len() >= 4096;
    check_claim(alloc, &there, outcome, full, report.pool.items())
}

/// The number of entries before an outcome, which are all where its position is past the journal.
fn place_of(outcome: &Outcome, entries: usize) -> usize
    ensures { result ≡ min (outcome_position outcome.now) entries }
{
    let position = position_of(outcome);
    if position < entries as u64 {
        position as usize
    } else {
        entries
    }
}

/// Checks an outcome if it is of this place of the journal, to which the walk has come. An unsurvivable outcome takes a search for
/// each demand of its name, and a plan what the check of a plan takes.
pub fn check_outcome_if_here(
    alloc: Global,
    instance: &Instance,
    walk: &Walk,
    report: &Report,
    outcome: &Outcome,
    place: usize,
) -> Test
    requires passed { HasPassed (case_of instance.now) (take place report.now.entries) walk.now }
    requires form { IsOutcomeInForm (known_of instance.now.net.now instance.now.states.now) report.now.pool outcome.now }
    ensures sound { OnOk result (outcome_place report.now outcome.now ≡ place → IsSoundOutcome (case_of instance.now) report.now outcome.now) }
    ensures stopped { IfErr result (StopsFirst (outcome_findings (case_of instance.now) report.now outcome.now)) }
{
    if place_of(outcome, report.entries.len()) != place {
        return Ok(());
    }
    check_outcome(alloc, instance, walk, report, outcome)
}
