ghost use Rattle.std.specs.Prelude.{◌≡◌, ◌≤◌, ◌++◌, ℕ, List, IfOk, OnOk, length, map};
ghost use Rattle.net_core.specs.Terms.{case};
ghost use Rattle.model_reader.specs.Terms.{all_keys, key_word};
ghost use Rattle.fault_messages.{specs.NearNames.IsWordNote, specs.Notes.{AreFailuresNotes, AreModelNotes, AreNetworkNotes, AreReportNotes}};

use crate::foreign::{put_foreign_note, put_report_header_note};
use crate::header::{FileFormat, put_header_note};
use crate::names::{key_words, link_names};
use crate::near::{put_near_note, put_word_note};
use model_reader::{FailuresKind, ModelKind};
use net_core::{Bytes, Link, List as Items, NoMemory, Problem};
use report_words::fault::ReportKind;
use sndlib_reader::ReadKind;
use std::alloc::Global;

/// Puts what is known of a refused network besides last.
fn put_network_notes(
    text: &mut Bytes,
    alloc: Global,
    bytes: &[u8],
    at: usize,
    kind: ReadKind,
) -> Result<(), NoMemory>
    requires { at ≤ length bytes.now }
    ensures { OnOk result ((notes : List ℕ) × AreNetworkNotes bytes.now at kind notes × (text.new ≡ text.old ++ notes)) }
{
    match kind {
        ReadKind::Header => put_header_note(text, FileFormat::Network, bytes),
        ReadKind::UnknownName => put_near_note(text, alloc, bytes, at),
        _ => Ok(()),
    }
}

/// What is known of a refused network besides its first fault's sentence, as a line or nothing: what a file with another header seems to be,
/// and for a name that nothing has the nearest word before it. It takes time in the text's length times that of a name, and memory in the text's.
pub fn network_notes(
    alloc: Global,
    bytes: &[u8],
    at: usize,
    kind: ReadKind,
) -> Result<Bytes, NoMemory>
    requires { at ≤ length bytes.now }
    ensures { IfOk result (λ notes. AreNetworkNotes bytes.now at kind notes) }
{
    let mut text = Items::new(alloc);
    put_network_notes(&mut text, alloc, bytes, at, kind)?;
    Ok(text)
}

/// Puts a line last that asks for a key of a model instead of the word at a place, if one is near.
fn put_key_note(text: &mut Bytes, alloc: Global, bytes: &[u8], at: usize) -> Result<(), NoMemory>
    requires { at ≤ length bytes.now }
    ensures { OnOk result ((note : List ℕ) × IsWordNote (map key_word all_keys) bytes.now at note × (text.new ≡ text.old ++ note)) }
{
    let words = key_words(alloc)?;
    put_word_note(text, alloc, words.items(), bytes, at)
}

/// Puts what is known of a refused model besides last.
fn put_model_notes(
    text: &mut Bytes,
    alloc: Global,
    bytes: &[u8],
    at: usize,
    kind: ModelKind,
) -> Result<(), NoMemory>
    requires { at ≤ length bytes.now }
    ensures { OnOk result ((notes : List ℕ) × AreModelNotes bytes.now at kind notes × (text.new ≡ text.old ++ notes)) }
{
    match kind {
        ModelKind::Header => put_header_note(text, FileFormat::Model, bytes),
        ModelKind::Key => put_key_note(text, alloc, bytes, at),
        _ => Ok(()),
    }
}

/// What is known of a refused model besides its first fault's sentence, as a line or nothing: what a file with another header seems to be, and
/// for a word that is no key the nearest key. It takes time in the word's length, and in that of the bytes before it.
pub fn model_notes(
    alloc: Global,
    bytes: &[u8],
    at: usize,
    kind: ModelKind,
) -> Result<Bytes, NoMemory>
    requires { at ≤ length bytes.now }
    ensures { IfOk result (λ notes. AreModelNotes bytes.now at kind notes) }
{
    let mut text = Items::new(alloc);
    put_model_notes(&mut text, alloc, bytes, at, kind)?;
    Ok(text)
}

/// Puts a line last that asks for one of these links instead of the word at a place, if one is near.
fn put_link_note(
    text: &mut Bytes,
    alloc: Global,
    links: &[Link],
    bytes: &[u8],
    at: usize,
) -> Result<(), NoMemory>
    requires { at ≤ length bytes.now }
    ensures { OnOk result ((note : List ℕ) × IsWordNote (map (λ l. l.name) links.now) bytes.now at note × (text.new ≡ text.old ++ note)) }
{
    let names = link_names(alloc, links)?;
    put_word_note(text, alloc, names.items(), bytes, at)
}

/// Puts what is known of a refused failure list of these links besides last.
fn put_failures_notes(
    text: &mut Bytes,
    alloc: Global,
    links: &[Link],
    bytes: &[u8],
    at: usize,
    kind: FailuresKind,
) -> Result<(), NoMemory>
    requires { at ≤ length bytes.now }
    ensures { OnOk result ((notes : List ℕ) × AreFailuresNotes links.now bytes.now at kind notes × (text.new ≡ text.old ++ notes)) }
{
    match kind {
        FailuresKind::Header => put_header_note(text, FileFormat::Failures, bytes),
        FailuresKind::UnknownLink => put_link_note(text, alloc, links, bytes, at),
        _ => Ok(()),
    }
}

/// What is known of a refused failure list of these links besides its first fault's sentence, as a line or nothing: what a file with another
/// header seems to be, and for a name that no link has the nearest one of a link. It takes time in the word's length times that of all names.
pub fn failures_notes(
    alloc: Global,
    links: &[Link],
    bytes: &[u8],
    at: usize,
    kind: FailuresKind,
) -> Result<Bytes, NoMemory>
    requires { at ≤ length bytes.now }
    ensures { IfOk result (λ notes. AreFailuresNotes links.now bytes.now at kind notes) }
{
    let mut text = Items::new(alloc);
    put_failures_notes(&mut text, alloc, links, bytes, at, kind)?;
    Ok(text)
}

/// Puts what is known of a refused report besides last.
fn put_report_notes(
    text: &mut Bytes,
    problem: &Problem,
    bytes: &[u8],
    at: usize,
    kind: ReportKind,
) -> Result<(), NoMemory>
    requires { at ≤ length bytes.now }
    ensures { OnOk result ((notes : List ℕ) × AreReportNotes (case problem.now.net problem.now.states problem.now.demands) bytes.now at kind notes
        × (text.new ≡ text.old ++ notes)) }
{
    match kind {
        ReportKind::Header => put_report_header_note(text, problem.net.places(), bytes),
        ReportKind::UnknownName => put_foreign_note(text, problem, bytes, at),
        _ => Ok(()),
    }
}

/// What is known of a refused report besides its first fault's sentence, as a line or nothing: that a report with the header of a finer or a
/// coarser network is of another one, or what a file with another header seems to be; and of a name that nothing in the network, the failure
/// list and the demands has, that the report is of others. Nothing of the kind is said where a number doesn't fit. It takes time in the names.
pub fn report_notes(
    alloc: Global,
    problem: &Problem,
    bytes: &[u8],
    at: usize,
    kind: ReportKind,
) -> Result<Bytes, NoMemory>
    requires { at ≤ length bytes.now }
    ensures { IfOk result (λ notes. AreReportNotes (case problem.now.net problem.now.states problem.now.demands) bytes.now at kind notes) }
{
    let mut text = Items::new(alloc);
    put_report_notes(&mut text, problem, bytes, at, kind)?;
    Ok(text)
}
