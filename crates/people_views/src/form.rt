ghost use Rattle.std.specs.Prelude.{All, OnOk};
ghost use Rattle.plan_view.specs.Terms.{HasSoundPlan, problem_case};
ghost use Rattle.view_text.specs.Terms.{HoldsOfSingle};
ghost use Rattle.text_kit.specs.Terms.{AddsText};
ghost use Rattle.people_views.specs.Forms.{HasForm, IsFormOf};

use net_core::{Bytes, NoMemory, Problem};
use node_places::Place;
use plan_types::Outcome;
use plan_view::Sheet;
use std::alloc::Global;
use view_csv::put_sheet;
use view_state::put_state_view;
use view_svg::put_report_picture;
use view_text::{CostProof, put_view};

/// How people read a report.
#[derive(Clone, Copy)]
pub enum ViewForm<'p> {
    /// As tables, under a first line.
    Tables,
    /// As a sheet.
    Values(Sheet),
    /// One state, of which 0 is the one without failures.
    State(u32),
    /// A picture of the first plan in one state, with the nodes at these places.
    Picture(u32, &'p [Option<Place>]),
}

/// Puts an accepted report's outcomes last in this form, of a network whose file has this name, with what is known of a single plan's cost,
/// which the tables tell. Where memory runs out, the text may end in part of it. It takes the time and the memory of `put_view`, of `put_sheet`,
/// of `put_state_view` or of `put_report_picture`.
pub fn put_form(
    text: &mut Bytes,
    alloc: Global,
    network: &[u8],
    problem: &Problem,
    outcomes: &[Outcome],
    proof: CostProof,
    form: ViewForm,
) -> Result<(), NoMemory>
    requires sound { All (HasSoundPlan (problem_case problem.now)) outcomes.now }
    requires holds { HoldsOfSingle (problem_case problem.now) proof outcomes.now }
    requires form { IsFormOf (problem_case problem.now) form }
    ensures { OnOk result (AddsText (HasForm form.entry network.now (problem_case problem.now) outcomes.now proof) text.old text.new) }
{
    match form {
        ViewForm::Tables => put_view(text, alloc, network, problem, outcomes, proof),
        ViewForm::Values(sheet) => put_sheet(text, alloc, problem, outcomes, sheet),
        ViewForm::State(state) => put_state_view(text, alloc, network, problem, outcomes, state),
        ViewForm::Picture(state, places) => {
            put_report_picture(text, alloc, network, places, problem, outcomes, state)
        }
    }
}
