ghost use Rattle.std.{specs.Prelude.◌≤◌, specs.Option.option_map_or};

use people_files::CaseFiles;
use plan_view::Sheet;

/// A command that help is asked for.
#[derive(Clone, Copy)]
pub enum HelpTopic {
    Plan,
    View,
    Failures,
    Help,
}

/// What a run is asked for.
#[derive(Clone, Copy)]
pub enum PeopleWords<'w> {
    /// How the program is used.
    Help,
    /// How one of its commands is used.
    HelpOn(HelpTopic),
    /// Which version it is.
    Version,
    /// The failure list of the network in the file of this name.
    Failures(&'w str),
    /// What people read of a report.
    View(ViewWords<'w>),
    /// A plan.
    Plan(PlanRequest<'w>),
}

/// The form of a view.
#[derive(Clone, Copy)]
pub enum FormWords<'w> {
    /// As tables.
    Tables,
    /// As a sheet.
    Values(Sheet),
    /// One state, by its name.
    State(&'w str),
    /// A picture of one state, by its name.
    Picture(&'w str),
}

/// The files of a view, by their names, and its form.
#[derive(Clone, Copy)]
pub struct ViewWords<'w> {
    pub case: CaseFiles<'w>,
    pub report: &'w str,
    pub form: FormWords<'w>,
}

/// A plan that is asked for.
#[derive(Clone, Copy)]
pub struct PlanRequest<'w> {
    pub case: CaseFiles<'w>,
    /// How many splits its branch tree has at most, if somebody says.
    pub splits: Option<u32>,
    /// The report is printed, and not its view.
    pub report: bool,
    /// Nothing is told on the way.
    pub quiet: bool,
    pub ghost few: { option_map_or (λ n. n) splits 0 ≤ 9999 },
}
