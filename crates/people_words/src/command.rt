ghost use Rattle.std.specs.Prelude.{◌≡◌, ◌≤◌, ◌<◌, ◌^◌, ◌↔◌, ◌∷◌, [], ℕ, Bool, List, Option, None, IfOk, IfSome, IsTrue, MatchOption, codes, is_some, map, option_map, string_bytes};
ghost use Rattle.people_files.specs.CaseInputs.{CaseWords, named_case};
ghost use Rattle.plan_view.specs.declared.sheet.Sheet.{Sheet};
ghost use Rattle.people_words.{specs.PeopleCommands.{AskedForm, AskedPlan, AsksPlan, PeopleCommand, IsPeopleCommand, IsGiven, IsLoneWord, IsOfParts, IsOfReport, IsOfWord, IsSplitsWord, IsViewOf, NamesCase, NamesAnyForm, NamesFile, NamesForm, NamesOption, NamesPicture, NamesSheet, NamesSplits, NamesSurvival, NamesTopic, NamesViewForm, view_options}, specs.GivenWords.TakesOptions, specs.AskedCommands.{asked_form, people_command, asked_plan}, specs.declared.words.HelpTopic.HelpTopic, specs.inner.Causes.given_option};

use crate::given::{Given, OptionValue, given_by};
use crate::options::{takes_options, value_given};
use crate::words::{FormWords, HelpTopic, PeopleWords, PlanRequest, ViewWords};
use input_files::{DEFAULT, PlanFiles};
use net_core::NoMemory;
use people_files::CaseFiles;
use plan_view::Sheet;
use std::alloc::Global;

/// The options of a view.
const VIEW_OPTIONS: [&str; 6] = [
    "--model",
    "--failures",
    "--survive",
    "--csv",
    "--state",
    "--svg",
];

/// The options of a plan.
const PLAN_OPTIONS: [&str; 6] = [
    "--model",
    "--failures",
    "--survive",
    "--splits",
    "--report",
    "--quiet",
];

/// Whether two words are the same.
fn is_word(word: &str, other: &str) -> bool
    ensures { IsTrue result ↔ (word.now ≡ other.now) }
{
    word == other
}

/// The file that a word names; a minus is standard input.
fn file_of_word(word: &str) -> &str
    ensures { NamesFile word.now result.now }
{
    if is_word(word, "-") {
        "/dev/stdin"
    } else {
        word
    }
}

/// The file that the word after an option names; without the option it is in no file.
fn file_of_option(option: Option<&str>) -> &str
    ensures { NamesOption (option_map (λ w. w.now) option.entry) result.now }
{
    match option {
        Some(word) => file_of_word(word),
        None => DEFAULT,
    }
}

/// Whether each single link's failure is to be survived, and the file of the failure list; none where both are asked for.
fn survival_of<'w>(survive: Option<&'w str>, failures: Option<&'w str>) -> Option<(bool, &'w str)>
    ensures { MatchOption result
        ((survived : Bool) (file : List ℕ) → NamesSurvival (option_map (λ w. w.now) survive.entry) (option_map (λ w. w.now) failures.entry) survived file → ⊥)
        (λ r. NamesSurvival (option_map (λ w. w.now) survive.entry) (option_map (λ w. w.now) failures.entry) r.0 r.1.now) }
{
    match (survive, failures) {
        (None, _) => Some((false, file_of_option(failures))),
        (Some(_), Some(_)) => None,
        (Some(word), None) => {
            if is_word(word, "links") {
                Some((true, DEFAULT))
            } else {
                None
            }
        }
    }
}

/// The files of a case, by a network's word and options.
fn case_of<'w>(network: &'w str, options: &[OptionValue<'w>]) -> Option<CaseFiles<'w>>
    ensures { MatchOption result ((w : CaseWords) → NamesCase network.now (map given_option options.now) w → ⊥)
        (λ w. NamesCase network.now (map given_option options.now) (named_case w)) }
{
    let (survive, failures) = survival_of(
        value_given(options, "--survive"),
        value_given(options, "--failures"),
    )?;
    let files = PlanFiles {
        network: file_of_word(network),
        model: file_of_option(value_given(options, "--model")),
        failures,
    };
    Some(CaseFiles { files, survive })
}

/// Whether a word begins with a plus, which a number doesn't.
fn begins_with_plus(word: &str) -> bool
    ensures { IsTrue result ↔ ((rest : List ℕ) × (word.now ≡ 43 ∷ rest)) }
{
    match word.as_bytes() {
        [] => false,
        [first, ..] => *first == b'+',
    }
}

/// The number that a word of one to four digits writes.
fn number_word(word: &str) -> Option<u32>
    ensures { MatchOption result ((n : ℕ) → n < 2 ^ 32 → IsSplitsWord word.now n → ⊥) (λ n. IsSplitsWord word.now n) }
{
    if word.len() > 4 || begins_with_plus(word) {
        return None;
    }
    word.parse::<u32>().ok()
}

/// The number of splits that a word writes.
fn splits_word(word: &str) -> Option<u32>
    ensures { MatchOption result ((n : ℕ) → IsSplitsWord word.now n × (n ≤ 9999) → ⊥) (λ n. IsSplitsWord word.now n × (n ≤ 9999)) }
{
    let splits = number_word(word)?;
    if splits <= 9999 { Some(splits) } else { None }
}

/// The number of splits that the value of an option writes, if it is given; none where the value is no such word.
fn splits_of(option: Option<&str>) -> Option<Option<u32>>
    ensures { MatchOption result ((n : Option ℕ) → NamesSplits (option_map (λ w. w.now) option.entry) n → ⊥)
        (λ n. NamesSplits (option_map (λ w. w.now) option.entry) n × IfSome n (λ k. k ≤ 9999)) }
{
    match option {
        None => Some(None),
        Some(word) => {
            let splits = splits_word(word)?;
            Some(Some(splits))
        }
    }
}

/// The sheet that a word names.
fn sheet_word(word: &str) -> Option<Sheet>
    ensures { MatchOption result ((s : Sheet) → NamesSheet word.now s → ⊥) (λ s. NamesSheet word.now s) }
{
    if is_word(word, "links") {
        return Some(Sheet::Links);
    }
    if is_word(word, "states") {
        return Some(Sheet::States);
    }
    if is_word(word, "flows") {
        return Some(Sheet::Flows);
    }
    None
}

/// The form of a view, by the sheet or the state that is asked for; none where there is no such sheet, or where both are asked for.
fn form_of<'w>(csv: Option<&'w str>, state: Option<&'w str>) -> Option<FormWords<'w>>
    ensures { MatchOption result ((f : AskedForm) → NamesForm (option_map (λ w. w.now) csv.entry) (option_map (λ w. w.now) state.entry) f → ⊥)
        (λ f. NamesForm (option_map (λ w. w.now) csv.entry) (option_map (λ w. w.now) state.entry) (asked_form f)) }
{
    match (csv, state) {
        (None, None) => Some(FormWords::Tables),
        (Some(word), None) => {
            let sheet = sheet_word(word)?;
            Some(FormWords::Values(sheet))
        }
        (None, Some(name)) => Some(FormWords::State(name)),
        (Some(_sheet), Some(_state)) => None,
    }
}

/// The picture of the state that is asked for; without one, of the state without failures.
fn picture_of(state: Option<&str>) -> FormWords<'_>
    ensures { NamesPicture (option_map (λ w. w.now) state.entry) (asked_form result) }
{
    match state {
        Some(name) => FormWords::Picture(name),
        None => FormWords::Picture("none"),
    }
}

/// The form of a view, by its options; none where they name no form, or more than one.
fn any_form<'w>(
    svg: Option<&str>,
    csv: Option<&'w str>,
    state: Option<&'w str>,
) -> Option<FormWords<'w>>
    ensures { MatchOption result ((f : AskedForm) → NamesAnyForm (option_map (λ w. w.now) svg.entry) (option_map (λ w. w.now) csv.entry)
        (option_map (λ w. w.now) state.entry) f → ⊥)
        (λ f. NamesAnyForm (option_map (λ w. w.now) svg.entry) (option_map (λ w. w.now) csv.entry) (option_map (λ w. w.now) state.entry)
        (asked_form f)) }
{
    match (svg, csv) {
        (None, _) => form_of(csv, state),
        (Some(_flag), None) => Some(picture_of(state)),
        (Some(_flag), Some(_sheet)) => None,
    }
}

/// The form of a view that options ask for; none where they name no form, or more than one.
fn view_form<'w>(options: &[OptionValue<'w>]) -> Option<FormWords<'w>>
    ensures { MatchOption result ((f : AskedForm) → NamesViewForm (map given_option options.now) f → ⊥)
        (λ f. NamesViewForm (map given_option options.now) (asked_form f)) }
{
    let svg = value_given(options, "--svg");
    let csv = value_given(options, "--csv");
    let state = value_given(options, "--state");
    any_form(svg, csv, state)
}

/// The plan that a network's word and options ask for.
fn asked_plan<'w>(network: &'w str, options: &[OptionValue<'w>]) -> Option<PlanRequest<'w>>
    ensures { MatchOption result ((p : AskedPlan) → AsksPlan network.now (map given_option options.now) p → ⊥)
        (λ p. AsksPlan network.now (map given_option options.now) (asked_plan p)) }
{
    let case = case_of(network, options)?;
    let splits = splits_of(value_given(options, "--splits"))?;
    Some(PlanRequest {
        case,
        splits,
        report: value_given(options, "--report").is_some(),
        quiet: value_given(options, "--quiet").is_some(),
    })
}

/// The command that one word is.
fn lone_command(word: &str) -> Option<PeopleWords<'static>>
    ensures { MatchOption result ((c : PeopleCommand) → IsLoneWord word.now c → ⊥) (λ c. IsLoneWord word.now (people_command c)) }
{
    if is_word(word, "help") || is_word(word, "--help") {
        return Some(PeopleWords::Help);
    }
    if is_word(word, "--version") {
        return Some(PeopleWords::Version);
    }
    None
}

/// The command that a word names, of which help is asked for.
fn topic_word(word: &str) -> Option<HelpTopic>
    ensures { MatchOption result ((t : HelpTopic) → NamesTopic word.now t → ⊥) (λ t. NamesTopic word.now t) }
{
    if is_word(word, "plan") {
        return Some(HelpTopic::Plan);
    }
    if is_word(word, "view") {
        return Some(HelpTopic::View);
    }
    if is_word(word, "failures") {
        return Some(HelpTopic::Failures);
    }
    if is_word(word, "help") {
        return Some(HelpTopic::Help);
    }
    None
}

/// The command that a name, a word after it and options are.
fn word_command<'w>(
    name: &str,
    word: &'w str,
    options: &[OptionValue<'w>],
) -> Option<PeopleWords<'w>>
    ensures { MatchOption result ((c : PeopleCommand) → IsOfWord name.now word.now (map given_option options.now) c → ⊥)
        (λ c. IsOfWord name.now word.now (map given_option options.now) (people_command c)) }
{
    if is_word(name, "failures") && takes_options(options, &[]) {
        return Some(PeopleWords::Failures(file_of_word(word)));
    }
    if is_word(name, "plan") && takes_options(options, &PLAN_OPTIONS) {
        let plan = asked_plan(word, options)?;
        return Some(PeopleWords::Plan(plan));
    }
    if is_word(name, "help") && takes_options(options, &[]) {
        let topic = topic_word(word)?;
        return Some(PeopleWords::HelpOn(topic));
    }
    None
}

/// The view of a report that a network, a report and options ask for.
fn view_command<'w>(
    network: &'w str,
    report: &'w str,
    options: &[OptionValue<'w>],
) -> Option<PeopleWords<'w>>
    ensures { MatchOption result ((c : PeopleCommand) → IsViewOf network.now report.now (map given_option options.now) c → ⊥)
        (λ c. IsViewOf network.now report.now (map given_option options.now) (people_command c)) }
{
    let case = case_of(network, options)?;
    let form = view_form(options)?;
    Some(PeopleWords::View(ViewWords {
        case,
        report: file_of_word(report),
        form,
    }))
}

/// Whether a command's name is that of a view, which takes these options.
fn is_view(name: &str, options: &[OptionValue]) -> bool
    ensures { IsTrue result ↔ ((name.now ≡ codes "view") × TakesOptions view_options (map given_option options.now)) }
{
    is_word(name, "view") && takes_options(options, &VIEW_OPTIONS)
}

/// Whether two words are both standard input.
fn are_both_input(network: &str, report: &str) -> bool
    ensures { IsTrue result ↔ ((network.now ≡ codes "-") × (report.now ≡ codes "-")) }
{
    is_word(network, "-") && is_word(report, "-")
}

/// The command that a name, a network, a report and options are.
fn report_command<'w>(
    name: &str,
    network: &'w str,
    report: &'w str,
    options: &[OptionValue<'w>],
) -> Option<PeopleWords<'w>>
    ensures { MatchOption result ((c : PeopleCommand) → IsOfReport name.now network.now report.now (map given_option options.now) c → ⊥)
        (λ c. IsOfReport name.now network.now report.now (map given_option options.now) (people_command c)) }
{
    if is_view(name, options) {
        if are_both_input(network, report) {
            return None;
        }
        return view_command(network, report, options);
    }
    None
}

/// The command that names and options are.
fn parts_command<'w>(names: &[&'w str], options: &[OptionValue<'w>]) -> Option<PeopleWords<'w>>
    ensures { MatchOption result ((c : PeopleCommand) → IsOfParts (map (λ w. w.now) names.now) (map given_option options.now) c → ⊥)
        (λ c. IsOfParts (map (λ w. w.now) names.now) (map given_option options.now) (people_command c)) }
{
    match names {
        [name, word] => word_command(name, word, options),
        [name, network, report] => report_command(name, network, report, options),
        _ => None,
    }
}

/// The command that words give, of which there isn't one alone.
fn words_command(alloc: Global, words: &[String]) -> Result<Option<PeopleWords<'_>>, NoMemory>
    ensures { IfOk result (λ r. MatchOption r ((c : PeopleCommand) → IsGiven (map string_bytes words.now) c → ⊥)
        (λ c. IsGiven (map string_bytes words.now) (people_command c))) }
{
    match given_by(alloc, words) {
        Ok(Some(given)) => Ok(parts_command(given.names.items(), given.options.items())),
        Ok(None) => Ok(None),
        Err(NoMemory) => Err(NoMemory),
    }
}

/// The only word, where there is one alone.
fn lone_word(words: &[String]) -> Option<&str>
    ensures { MatchOption result ((word : List ℕ) → map string_bytes words.now ≡ word ∷ [] → ⊥) (λ word. map string_bytes words.now ≡ word.now ∷ []) }
{
    match words {
        [word] => Some(word.as_str()),
        _ => None,
    }
}

/// The command that words are; none where they are no command. It takes time and memory in the words.
pub fn command_of(alloc: Global, words: &[String]) -> Result<Option<PeopleWords<'_>>, NoMemory>
    ensures { IfOk result (λ r. MatchOption r ((c : PeopleCommand) → IsPeopleCommand words.now c → ⊥)
        (λ c. IsPeopleCommand words.now (people_command c))) }
{
    match lone_word(words) {
        Some(word) => Ok(lone_command(word)),
        None => words_command(alloc, words),
    }
}
