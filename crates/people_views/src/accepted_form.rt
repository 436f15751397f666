ghost use Rattle.std.specs.Prelude.{OnOk};
ghost use Rattle.text_kit.specs.Terms.{AddsText};
ghost use Rattle.view_text.specs.Terms.{HoldsOfSingle, IsReportView};
ghost use Rattle.plan_view.specs.Terms.{problem_case};
ghost use Rattle.people_views.{specs.Forms.{HasForm, IsFormOf}, specs.AcceptedReports.IsAcceptedReport};

use crate::{ViewForm, put_form};
use net_core::{Bytes, NoMemory, Problem};
use plan_types::Report;
use std::alloc::Global;
use view_text::{CostProof, put_view};

/// Puts the view of an accepted report last, of a network whose file has this name, with what is known of the cost of a single plan. Where
/// memory runs out, the text may end in part of it. It takes the time and the memory of `put_view`.
///
/// ```text
/// // of a report of the triangle's plan, which a branch tree of 1 box shows to be cheapest
/// put_accepted(&mut text, alloc, b"data/triangle.txt", &problem, &report, CostProof::Cheapest(1))?;
/// ```
pub fn put_accepted(
    text: &mut Bytes,
    alloc: Global,
    network: &[u8],
    problem: &Problem,
    report: &Report,
    proof: CostProof,
) -> Result<(), NoMemory>
    requires accepted { IsAcceptedReport (problem_case problem.now) problem.now.net.notes report.now }
    requires holds { HoldsOfSingle (problem_case problem.now) proof report.now.outcomes }
    ensures { OnOk result (AddsText (IsReportView network.now (problem_case problem.now) report.now.outcomes proof) text.old text.new) }
{
    put_view(
        text,
        alloc,
        network,
        problem,
        report.outcomes.items(),
        proof,
    )
}

/// Puts an accepted report last in this form, with what is known of the cost of a single plan. Where memory runs out, the text may end in part
/// of it. It takes the time and the memory of `put_form`.
pub(crate) fn put_accepted_form(
    text: &mut Bytes,
    alloc: Global,
    network: &[u8],
    problem: &Problem,
    report: &Report,
    proof: CostProof,
    form: ViewForm,
) -> Result<(), NoMemory>
    requires accepted { IsAcceptedReport (problem_case problem.now) problem.now.net.notes report.now }
    requires holds { HoldsOfSingle (problem_case problem.now) proof report.now.outcomes }
    requires form { IsFormOf (problem_case problem.now) form }
    ensures { OnOk result (AddsText (HasForm form.entry network.now (problem_case problem.now) report.now.outcomes proof) text.old text.new) }
{
    put_form(
        text,
        alloc,
        network,
        problem,
        report.outcomes.items(),
        proof,
        form,
    )
}
