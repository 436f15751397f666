ghost use Rattle.std.specs.Prelude.{◌≡◌, IfErr, IfOk};
ghost use Rattle.plan_report.specs.Terms.{known_of, SpellsReport, report_header};
ghost use Rattle.plan_types.specs.declared.report.Report.{Report as Rep};
ghost use Rattle.snd_tokens.specs.Terms.{left};
ghost use Rattle.text_kit.specs.Terms.{AnswersAs, ReadsAllAs, ReadsAs, IsNotTooEarly};
ghost use Rattle.report_words.specs.Terms.{known_in};
ghost use Rattle.report_reader.specs.ReadingReport.{last_sections_at, report_at, report_of, section_at, sections_at};

use crate::filled_entries::fill;
use crate::journal::entries;
use crate::notes::notes;
use crate::outcome::outcomes;
use crate::pool::pool;
use net_core::{Entry, List, Network, Notes, Places, States};
use plan_types::Report;
use report_words::context::Context;
use report_words::fault::{ReportKind, ReportRefusal};
use snd_tokens::Cursor;
use std::alloc::Global;
use text_kit::steps::{end, expect, open, text_after_header};

const HEADER: &[u8] = b"?planner report; version: 1";

const HEADER_OF_SIX: &[u8] = b"?planner report; version: 2";

const NOTES: &[u8] = b"NOTES";

const JOURNAL: &[u8] = b"JOURNAL";

const POOL: &[u8] = b"POOL";

const OUTCOMES: &[u8] = b"OUTCOMES";

/// The first line of a report, whose version tells the places.
fn header(places: Places) -> &'static [u8]
    ensures { result.now ≡ report_header places }
{
    match places {
        Places::Three => HEADER,
        Places::Six => HEADER_OF_SIX,
    }
}

/// Takes the word of a section and the parenthesis after it.
#[tactic(auto, unfolding(crate::specs::ReadingReport::section_at))]
fn section(wanted: &[u8], text: &mut Cursor) -> Result<(), ReportRefusal>
    ensures { ReadsAs (λ _. tt) result (left text.new) (section_at wanted.now (left text.old)) }
{
    expect(ReportKind::Section, ReportKind::Ended, wanted, text)?;
    open(ReportKind::Section, ReportKind::Ended, text)
}

/// Takes the pool and the outcomes, after these notes and entries.
#[tactic(auto, unfolding(crate::specs::ReadingReport::last_sections_at))]
fn last_sections(
    alloc: Global,
    context: &Context,
    notes: Notes,
    entries: List<Entry>,
    text: &mut Cursor,
) -> Result<Report, ReportRefusal>
    ensures { ReadsAs (λ r. r) result (left text.new) (last_sections_at (known_in context.now) notes entries (left text.old)) }
{
    section(POOL, text)?;
    let pool = pool(alloc, context.net, context.states, text)?;
    section(OUTCOMES, text)?;
    let outcomes = outcomes(alloc, context, pool.items(), text)?;
    let entries = fill(alloc, pool.items(), entries)?;
    Ok(Report {
        notes,
        entries,
        pool,
        outcomes,
    })
}

/// Takes all sections.
#[tactic(auto, unfolding(crate::specs::ReadingReport::sections_at))]
fn sections(alloc: Global, context: &Context, text: &mut Cursor) -> Result<Report, ReportRefusal>
    ensures { ReadsAs (λ r. r) result (left text.new) (sections_at (known_in context.now) (left text.old)) }
{
    section(NOTES, text)?;
    let notes = notes(text)?;
    section(JOURNAL, text)?;
    let entries = entries(alloc, context.net.places(), text)?;
    last_sections(alloc, context, notes, entries, text)
}

/// Takes a whole report, after which nothing is left.
fn report(alloc: Global, context: &Context, text: &mut Cursor) -> Result<Report, ReportRefusal>
    ensures { ReadsAs (λ r. r) result (left text.new) (report_at (known_in context.now) (left text.old)) }
{
    let report = sections(alloc, context, text)?;
    end(ReportKind::Section, text)?;
    Ok(report)
}

/// The whole file.
fn file(
    alloc: Global,
    net: &Network,
    states: &States,
    bytes: &[u8],
) -> Result<Report, ReportRefusal>
    ensures { ReadsAllAs (λ r. r) result (report_of (known_of net.now states.now) bytes.now) }
{
    let mut text = text_after_header(ReportKind::Header, bytes, header(net.places()))?;
    let context = Context::new(alloc, net, states)?;
    report(alloc, &context, &mut text)
}

/// The report that a file spells, of plans for this network and these states. Its amounts and money are
/// in units of the network. A first line other than the one that the network's places ask for is
/// refused as `header` at 0: version 1 with three places, and version 2 with six.
///
/// The first fault is told with its place in bytes from 0, which is the length of the file where this ends too early. A name of a
/// link, node, demand or state that isn't known there is refused as `unknown-name`, at its place.
///
/// It takes memory for what is read, where each entry and certificate line that names a line of the pool gets a copy of that line's
/// lengths, and for the places of the names. It takes time in the bytes, for these copies, and for each link in the square of its
/// modules.
pub fn read_report(
    alloc: Global,
    net: &Network,
    states: &States,
    bytes: &[u8],
) -> Result<Report, ReportRefusal>
    // What is read is in form and spelled.
    ensures found { IfOk result (λ r. SpellsReport (known_of net.now states.now) bytes.now r) }
    // What is in form and spelled is read, unless memory runs out.
    ensures only { (r : Rep) → SpellsReport (known_of net.now states.now) bytes.now r → AnswersAs (λ x. x) result r }
    // What is read is what reading from left to right gives, and a fault is the first one that it
    // meets.
    ensures exact { ReadsAllAs (λ r. r) result (report_of (known_of net.now states.now) bytes.now) }
    // It isn't too early: no bytes that agree past it are spelled right.
    ensures not_early { IfErr result (IsNotTooEarly (SpellsReport (known_of net.now states.now)) bytes.now) }
{
    file(alloc, net, states, bytes)
}
