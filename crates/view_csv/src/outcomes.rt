ghost use Rattle.std.specs.Prelude.{◌≡◌, ◌∷◌, [], All, IfOk, OnOk, length};
ghost use Rattle.plan_terms.specs.Terms.{AreDemands, case_of};
ghost use Rattle.plan_view.specs.Terms.{IsSoundPlan, HasSoundPlan, case_of_plan, problem_case};
ghost use Rattle.text_kit.specs.Terms.{AddsText};
ghost use Rattle.view_csv.{specs.Columns.sheet_columns, specs.Sheets.{AddsRows, AreOutcomeRows, IsSheet, ShowsOutcome, ShowsPlan}};

use crate::flows::put_flows;
use crate::links::put_links;
use crate::put_csv;
use crate::sheet::{PlanNumber, sheet_columns};
use crate::states::put_states;
use net_core::{Bytes, Instance, List, NoMemory, Problem};
use plan_types::{Outcome, Plan};
use plan_view::Sheet;
use std::alloc::Global;
use text_layout::Row;

/// Puts the flows of a plan last.
fn put_flow_rows(
    all: &mut List<Row>,
    alloc: Global,
    number: PlanNumber,
    instance: &Instance,
    plan: &Plan,
) -> Result<(), NoMemory>
    ensures { OnOk result (AddsRows (ShowsPlan Sheet.Flows (case_of instance.now) number.caller number.serial plan.now) all.old all.new) }
{
    put_flows(all, alloc, number, instance, plan)
}

/// Puts the rows of a plan last.
fn put_plan(
    all: &mut List<Row>,
    alloc: Global,
    sheet: Sheet,
    number: PlanNumber,
    instance: &Instance,
    plan: &Plan,
) -> Result<(), NoMemory>
    requires { IsSoundPlan (case_of instance.now) plan.now }
    ensures { OnOk result (AddsRows (ShowsPlan sheet (case_of instance.now) number.caller number.serial plan.now) all.old all.new) }
{
    match sheet {
        Sheet::Links => put_links(all, alloc, number, instance, plan),
        Sheet::States => put_states(all, alloc, number, instance, plan),
        Sheet::Flows => put_flow_rows(all, alloc, number, instance, plan),
    }
}

/// Puts the rows of a plan last, with demands of its own.
fn put_planned(
    all: &mut List<Row>,
    alloc: Global,
    sheet: Sheet,
    number: PlanNumber,
    problem: &Problem,
    plan: &Plan,
) -> Result<(), NoMemory>
    requires belong { AreDemands (length problem.now.net.nodes) plan.now.demands }
    requires sound { IsSoundPlan (case_of_plan (problem_case problem.now) plan.now) plan.now }
    ensures { OnOk result (AddsRows (ShowsPlan sheet (case_of_plan (problem_case problem.now) plan.now) number.caller number.serial plan.now) all.old all.new) }
{
    let instance = Instance {
        net: &problem.net,
        states: &problem.states,
        demands: &plan.demands,
    };
    put_plan(all, alloc, sheet, number, &instance, plan)
}

/// Puts the rows of an outcome last; one without a plan has none.
#[tactic(auto, using(crate::proofs::PlanRows::none_shown))]
fn put_outcome(
    all: &mut List<Row>,
    alloc: Global,
    sheet: Sheet,
    problem: &Problem,
    outcome: &Outcome,
) -> Result<(), NoMemory>
    requires { HasSoundPlan (problem_case problem.now) outcome.now }
    ensures { OnOk result (AddsRows (ShowsOutcome sheet (problem_case problem.now) outcome.now) all.old all.new) }
{
    match outcome {
        Outcome::Planned {
            caller,
            serial,
            plan,
        } => {
            let number = PlanNumber {
                caller: *caller,
                serial: *serial,
            };
            put_planned(all, alloc, sheet, number, problem, plan)
        }
        Outcome::Unsurvivable { .. } => Ok(()),
    }
}

/// Puts the rows of all outcomes last.
fn put_each(
    all: &mut List<Row>,
    alloc: Global,
    sheet: Sheet,
    problem: &Problem,
    outcomes: &[Outcome],
) -> Result<(), NoMemory>
    requires { All (HasSoundPlan (problem_case problem.now)) outcomes.now }
    ensures { OnOk result (AddsRows (AreOutcomeRows sheet (problem_case problem.now) outcomes.now) all.old all.new) }
{
    for outcome in outcomes {
        put_outcome(all, alloc, sheet, problem, outcome)?;
    }
    Ok(())
}

/// The row of the columns' names.
fn head_rows(alloc: Global, sheet: Sheet) -> Result<List<Row>, NoMemory>
    ensures { IfOk result (λ rows. rows ≡ sheet_columns sheet ∷ []) }
{
    let columns = sheet_columns(alloc, sheet)?;
    let mut rows = List::new(alloc);
    rows.push(columns)?;
    Ok(rows)
}

/// All rows of a sheet, below that of the columns' names.
fn sheet_rows(
    alloc: Global,
    sheet: Sheet,
    problem: &Problem,
    outcomes: &[Outcome],
) -> Result<List<Row>, NoMemory>
    requires { All (HasSoundPlan (problem_case problem.now)) outcomes.now }
    ensures { IfOk result (AddsRows (AreOutcomeRows sheet (problem_case problem.now) outcomes.now) (sheet_columns sheet ∷ [])) }
{
    let mut rows = head_rows(alloc, sheet)?;
    put_each(&mut rows, alloc, sheet, problem, outcomes)?;
    Ok(rows)
}

/// Puts the lines of a sheet last: the names of its columns, and a row of comma-separated values for each link, each state or each flow of the
/// plans of an accepted report, plan by plan. An outcome without a plan has no row. Where memory runs out, the text may end in part of the
/// lines.
///
/// It takes the time of `link_rows`, of `state_rows`, or in the links of all paths, and memory for the text and the rows.
///
/// ```text
/// // the triangle, where each link fails alone: the second line is 1,1,AB,A,B,2 x 10.000,20.000,0.000,12.000,60,AC,10.000
/// put_sheet(&mut text, alloc, &problem, report.outcomes.items(), Sheet::Links)?;
/// ```
pub fn put_sheet(
    text: &mut Bytes,
    alloc: Global,
    problem: &Problem,
    outcomes: &[Outcome],
    sheet: Sheet,
) -> Result<(), NoMemory>
    requires { All (HasSoundPlan (problem_case problem.now)) outcomes.now }
    ensures { OnOk result (AddsText (IsSheet sheet (problem_case problem.now) outcomes.now) text.old text.new) }
{
    let rows = sheet_rows(alloc, sheet, problem, outcomes)?;
    put_csv(text, alloc, rows.items())
}
