ghost use Rattle.std.specs.Prelude.{◌≡◌, All, MatchOption, None, OnOk, Some, length};
ghost use Rattle.plan_terms.specs.Terms.{AreDemands};
ghost use Rattle.plan_view.specs.Terms.{IsSoundPlan, HasSoundPlan, case_of_plan, problem_case};
ghost use Rattle.text_kit.specs.Terms.{AddsText};
ghost use Rattle.view_svg.{specs.Pictures.IsPicture, specs.ReportPictures.{IsReportPicture, first_plan}};

use crate::picture::put_picture;
use net_core::{Bytes, Instance, NoMemory, Problem};
use node_places::Place;
use plan_types::{Outcome, Plan};
use std::alloc::Global;

/// A picture that says that there is no plan.
const NO_PLAN: &[u8] =
    b"<svg xmlns=\"http://www.w3.org/2000/svg\" viewBox=\"0 0 9600 7200\" font-family=\"sans-serif\" font-size=\"120\">
<text x=\"400\" y=\"280\">The report has no plan.</text>
</svg>
";

/// The first plan of outcomes.
fn first_plan(outcomes: &[Outcome]) -> Option<&Plan>
    ensures { MatchOption result (first_plan outcomes.now ≡ None) (λ plan. first_plan outcomes.now ≡ Some plan.now) }
{
    for outcome in outcomes {
        if let Outcome::Planned { plan, .. } = outcome {
            return Some(plan);
        }
    }
    None
}

/// Puts the picture of a plan last, with demands of its own.
fn put_planned(
    text: &mut Bytes,
    alloc: Global,
    network: &[u8],
    places: &[Option<Place>],
    problem: &Problem,
    plan: &Plan,
    state: u32,
) -> Result<(), NoMemory>
    requires belong { AreDemands (length problem.now.net.nodes) plan.now.demands }
    requires sound { IsSoundPlan (case_of_plan (problem_case problem.now) plan.now) plan.now }
    ensures { OnOk result (AddsText (IsPicture network.now (case_of_plan (problem_case problem.now) plan.now) plan.now state) text.old text.new) }
{
    let instance = Instance {
        net: &problem.net,
        states: &problem.states,
        demands: &plan.demands,
    };
    put_picture(text, alloc, network, places, &instance, plan, state)
}

/// Puts the picture of an accepted report's first plan last, in one state, of which 0 is the one without failures; where the report has no plan, a
/// picture that says so. The other plans of a session would need pictures of their own. The network's file has this name, and its nodes are at
/// these places. Where memory runs out, the text may end in part of the picture. It takes the time and the memory of `put_picture`.
pub fn put_report_picture(
    text: &mut Bytes,
    alloc: Global,
    network: &[u8],
    places: &[Option<Place>],
    problem: &Problem,
    outcomes: &[Outcome],
    state: u32,
) -> Result<(), NoMemory>
    requires { All (HasSoundPlan (problem_case problem.now)) outcomes.now }
    ensures { OnOk result (AddsText (IsReportPicture network.now (problem_case problem.now) state outcomes.now) text.old text.new) }
{
    match first_plan(outcomes) {
        Some(plan) => put_planned(text, alloc, network, places, problem, plan, state),
        None => text.append(NO_PLAN),
    }
}
