ghost use Rattle.std.{specs.Prelude.{◌≡◌, ◌≤◌, ◌++◌, ◌∷◌, [], ℕ, List, OnOk, length}, specs.List.starts_with};
ghost use Rattle.net_core.specs.Terms.{case, is_named};
ghost use Rattle.plan_report.specs.Texts.{report_header};
ghost use Rattle.fault_messages.specs.ForeignReports.{IsForeignNote, IsReportHeaderNote, begins_report, foreign_text, is_known, other_network, other_places};

use crate::header::{FileFormat, put_header_note, starts_with};
use crate::near::are_same;
use fault_texts::{put_note, token_here};
use net_core::{Bytes, Demand, Link, Listed, Name, NoMemory, Places, Problem};

/// The first line of a report of a network with this number of decimal places.
fn report_line(places: Places) -> &'static [u8]
    ensures { result.now ≡ report_header places ++ 10 ∷ [] }
{
    match places {
        Places::Three => b"?planner report; version: 1\n",
        Places::Six => b"?planner report; version: 2\n",
    }
}

/// The other number of places.
fn other_places(places: Places) -> Places
    ensures { result ≡ other_places places }
{
    match places {
        Places::Three => Places::Six,
        Places::Six => Places::Three,
    }
}

/// Whether a file begins with the first line of a report of a network with this number of places.
fn begins_report(places: Places, bytes: &[u8]) -> bool
    ensures { result ≡ begins_report places bytes.now }
{
    starts_with(bytes, report_line(places))
}

/// What is said of a report whose network has the other number of places.
fn other_network(places: Places) -> &'static str
    ensures { result.now ≡ other_network places }
{
    match places {
        Places::Three => {
            "the report is of another network: one with a number finer than thousandths, which this one hasn't"
        }
        Places::Six => {
            "the report is of another network: one without a number finer than thousandths, which this one has"
        }
    }
}

/// Puts a line last on a file whose header isn't that of a report of a network with this number of places.
pub(crate) fn put_report_header_note(
    text: &mut Bytes,
    places: Places,
    bytes: &[u8],
) -> Result<(), NoMemory>
    ensures { OnOk result ((note : List ℕ) × IsReportHeaderNote places bytes.now note × (text.new ≡ text.old ++ note)) }
{
    if begins_report(other_places(places), bytes) {
        put_note(text, other_network(places))
    } else {
        put_header_note(text, FileFormat::Report, bytes)
    }
}

/// Whether a node has the name.
fn is_node(nodes: &[Name], word: &[u8]) -> bool
    ensures { result ≡ is_named (λ n. n) word.now nodes.now }
{
    nodes.iter().any(|node| are_same(node.bytes(), word))
}

/// Whether a link has the name.
fn is_link(links: &[Link], word: &[u8]) -> bool
    ensures { result ≡ is_named (λ l. l.name) word.now links.now }
{
    links.iter().any(|link| are_same(link.name.bytes(), word))
}

/// Whether a listed state has the name.
fn is_listed(listed: &[Listed], word: &[u8]) -> bool
    ensures { result ≡ is_named (λ s. s.name) word.now listed.now }
{
    listed
        .iter()
        .any(|state| are_same(state.name.bytes(), word))
}

/// Whether a demand has the name.
fn is_demand(demands: &[Demand], word: &[u8]) -> bool
    ensures { result ≡ is_named (λ d. d.name) word.now demands.now }
{
    demands
        .iter()
        .any(|demand| are_same(demand.name.bytes(), word))
}

/// Whether anything in a network, its states and its demands has the name.
fn is_known(problem: &Problem, word: &[u8]) -> bool
    ensures { result ≡ is_known (case problem.now.net problem.now.states problem.now.demands) word.now }
{
    is_node(problem.net.nodes().items(), word)
        || is_link(problem.net.links().items(), word)
        || is_listed(problem.states.listed().items(), word)
        || is_demand(problem.demands.items(), word)
}

/// Puts a line last on a name that isn't known.
fn put_foreign(text: &mut Bytes, known: bool) -> Result<(), NoMemory>
    ensures { OnOk result (text.new ≡ text.old ++ foreign_text known) }
{
    if known {
        return Ok(());
    }
    put_note(
        text,
        "nothing in these files has this name: the report is of another network or failure list, or was changed by hand",
    )
}

/// Puts a line last on the word that begins at a place of a report: that nothing has this name, if so.
pub(crate) fn put_foreign_note(
    text: &mut Bytes,
    problem: &Problem,
    bytes: &[u8],
    at: usize,
) -> Result<(), NoMemory>
    requires { at ≤ length bytes.now }
    ensures { OnOk result ((note : List ℕ) × IsForeignNote (case problem.now.net problem.now.states problem.now.demands) bytes.now at note
        × (text.new ≡ text.old ++ note)) }
{
    match token_here(bytes, at) {
        Some(word) => put_foreign(text, is_known(problem, word)),
        None => Ok(()),
    }
}
