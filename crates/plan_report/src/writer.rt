ghost use Rattle.std.specs.Prelude.{◌≡◌, ◌++◌, ◌∷◌, [], IfOk, OnOk};
ghost use Rattle.plan_terms.specs.Terms.{IsName};
ghost use Rattle.text_kit.specs.Terms.{section, AddsItems};
ghost use Rattle.plan_report.{specs.Forms.IsReportInForm, specs.Items.{note_items, notes_items, report_items}, specs.KnownNames.known_of, specs.Texts.{SpellsReport, report_header, report_text}, specs.inner.Naming.known_in};

use crate::journal::put_journal;
use crate::names::Names;
use crate::outcomes::put_outcomes;
use crate::pool::put_pool;
use net_core::{Bytes, Network, NoMemory, Notes, Places, States};
use plan_types::Report;
use std::alloc::Global;
use text_kit::puts::{put_close, put_keyword, put_open};

const HEADER: &[u8] = b"?planner report; version: 1\n";

const HEADER_OF_SIX: &[u8] = b"?planner report; version: 2\n";

/// The first line of a report, whose version tells the places.
fn header(places: Places) -> &'static [u8]
    ensures { result.now ≡ report_header places ++ 10 ∷ [] }
{
    match places {
        Places::Three => HEADER,
        Places::Six => HEADER_OF_SIX,
    }
}

/// Puts a word last where something is noted.
fn put_note(text: &mut Bytes, noted: bool, word: &[u8]) -> Result<(), NoMemory>
    requires { IsName word.now }
    ensures { OnOk result (AddsItems text.old (note_items noted word.now) text.new) }
{
    if noted {
        return put_keyword(text, word);
    }
    Ok(())
}

/// Puts notes last.
pub(crate) fn put_notes(text: &mut Bytes, notes: Notes) -> Result<(), NoMemory>
    ensures { OnOk result (AddsItems text.old (notes_items notes) text.new) }
{
    put_note(text, notes.fixed_cost, b"fixed")?;
    put_note(text, notes.routing_cost, b"routing")?;
    put_note(text, notes.setup_cost, b"setup")
}

/// Puts all of a report last.
fn put_report(text: &mut Bytes, names: &Names<'_>, report: &Report) -> Result<(), NoMemory>
    requires { IsReportInForm (known_in names.now) report.now }
    ensures { OnOk result (AddsItems text.old (report_items (known_in names.now) report.now) text.new) }
{
    put_keyword(text, b"NOTES")?;
    put_open(text)?;
    put_notes(text, report.notes)?;
    put_close(text)?;
    put_keyword(text, b"JOURNAL")?;
    put_journal(text, names.places, report.entries.items())?;
    put_keyword(text, b"POOL")?;
    put_pool(text, report.pool.items())?;
    put_keyword(text, b"OUTCOMES")?;
    put_outcomes(text, names, report.outcomes.items())
}

/// The text of a report that is in form, with as many digits of amounts and money as the network has. It takes time in the number
/// of its bytes, since no name is searched for, and memory for the text alone; it fails only where memory runs out.
///
/// ```text
/// let text = write_report(alloc, &net, &states, &report)?;
/// text.items();       // ?planner report; version: 1, or 2 with six places; and a line for each closing parenthesis
/// ```
pub fn write_report(
    alloc: Global,
    net: &Network,
    states: &States,
    report: &Report,
) -> Result<Bytes, NoMemory>
    requires { IsReportInForm (known_of net.now states.now) report.now }
    ensures text { IfOk result (λ text. text ≡ report_text (known_of net.now states.now) report.now) }
    // What is written spells the report, so that reading it gives the report again.
    ensures spelled { IfOk result (λ text. SpellsReport (known_of net.now states.now) text report.now) }
{
    let mut text = Bytes::new(alloc);
    text.append(header(net.places()))?;
    let names = Names {
        nodes: net.nodes().items(),
        links: net.links().items(),
        listed: states.listed().items(),
        places: net.places(),
    };
    put_report(&mut text, &names, report)?;
    Ok(text)
}
