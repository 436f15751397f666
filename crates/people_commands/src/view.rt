ghost use Rattle.std.specs.Prelude.{MatchResult};
ghost use Rattle.plan_view.specs.Terms.{problem_case};
ghost use Rattle.people_views.specs.Terms.{IsFormOf};
ghost use Rattle.input_files.specs.Shelves.{KeepsShelf};
ghost use Rattle.people_files.{specs.Endings.{FailsReading, Halts, HasCauseForPeople}, specs.CaseInputs.named_case};
ghost use Rattle.people_words.specs.AskedCommands.{asked_form};
ghost use Rattle.people_commands.specs.Endings.{AsksForm, EndsView, LacksForm, ViewsAsked, ViewsFile};

use net_core::{Bytes, Problem};
use node_places::Place;
use outside_io::Shelf;
use people_files::{Halt, fetch_report, load_placed_case};
use people_views::{ViewForm, picture_form, state_form, view_report};
use people_words::{FormWords, ViewWords};
use std::alloc::Global;

/// The view of the report in a file, with plans for a problem.
fn view_file<S: Shelf>(
    alloc: Global,
    network: &str,
    name: &str,
    problem: &Problem,
    form: ViewForm,
    shelf: &mut S,
) -> Result<Bytes, Halt>
    requires { IsFormOf (problem_case problem.now) form }
    ensures ends { HasCauseForPeople (ViewsFile (S.files shelf.old) form.entry network.now name.now (problem_case problem.now) problem.now.net.notes) result }
    ensures shelf { KeepsShelf S.files S.faults (FailsReading result) shelf.old shelf.new }
{
    let bytes = fetch_report(alloc, name, shelf)?;
    view_report(alloc, network, name, problem, bytes.items(), form)
}

/// The form of view that the words ask for. If they name a state that there isn't, the run ends with a message.
fn form_of<'p>(
    alloc: Global,
    problem: &Problem,
    words: FormWords,
    places: &'p [Option<Place>],
) -> Result<ViewForm<'p>, Halt>
    ensures { MatchResult result
        (λ form. AsksForm (problem_case problem.now) (asked_form words.entry) form × IsFormOf (problem_case problem.now) form)
        (Halts (LacksForm (problem_case problem.now) (asked_form words.entry))) }
{
    match words {
        FormWords::Tables => Ok(ViewForm::Tables),
        FormWords::Values(sheet) => Ok(ViewForm::Values(sheet)),
        FormWords::State(name) => state_form(alloc, problem, name),
        FormWords::Picture(name) => picture_form(alloc, problem, name, places),
    }
}

/// The view that the words ask for, of plans for a problem.
fn view_asked<S: Shelf>(
    alloc: Global,
    words: &ViewWords,
    problem: &Problem,
    places: &[Option<Place>],
    shelf: &mut S,
) -> Result<Bytes, Halt>
    ensures ends { HasCauseForPeople (ViewsAsked (S.files shelf.old) (asked_form words.now.form) (named_case words.now.case).files.network words.now.report.now
        (problem_case problem.now) problem.now.net.notes) result }
    ensures shelf { KeepsShelf S.files S.faults (FailsReading result) shelf.old shelf.new }
{
    let form = form_of(alloc, problem, words.form, places)?;
    view_file(
        alloc,
        words.case.files.network,
        words.report,
        problem,
        form,
        shelf,
    )
}

/// The view that the words ask for, of the report and the problem in their files.
pub(crate) fn view_files<S: Shelf>(
    alloc: Global,
    words: &ViewWords,
    shelf: &mut S,
) -> Result<Bytes, Halt>
    ensures ends { HasCauseForPeople (EndsView (S.files shelf.old) (named_case words.now.case) words.now.report.now (asked_form words.now.form)) result }
    ensures shelf { KeepsShelf S.files S.faults (FailsReading result) shelf.old shelf.new }
{
    let (problem, places) = load_placed_case(alloc, &words.case, shelf)?;
    view_asked(alloc, words, &problem, places.items(), shelf)
}
