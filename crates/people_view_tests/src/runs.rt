use crate::failures::LISTS;
use crate::files::{LIST, MODEL, NETWORK};
use crate::models::{MODELS, OTHER_MODELS};
use crate::networks::{FIRST_LINES, NAMES, NUMBERS, SECTIONS, WHOLE, WholeRow};
use input_files::PlanFiles;
use net_core::{Bytes, List};
use outside_io::MemShelf;
use people_files::{CaseFiles, Halt, load_case};
use std::alloc::Global;
use worked_networks::{put_files, shelf_with};

/// A part of a file, what replaces it, and the message about the file.
pub(crate) type Row = (&'static [u8], &'static [u8], &'static [u8]);

/// What comes before the first occurrence of a part, and what comes after it.
fn split_at<'a>(text: &'a [u8], part: &[u8]) -> Option<(&'a [u8], &'a [u8])> {
    for i in 0..text.len() {
        if let Some(rest) = text[i..].strip_prefix(part) {
            return Some((&text[..i], rest));
        }
    }
    None
}

/// A file with the part of a row replaced; `None` if it has no such part.
fn changed(alloc: Global, base: &[u8], row: &Row) -> Option<Bytes> {
    let (front, rest) = split_at(base, row.0)?;
    let mut text = List::from_slice(alloc, front).ok()?;
    text.append(row.1).ok()?;
    text.append(rest).ok()?;
    Some(text)
}

/// A shelf of a network, a model and a failure list.
fn shelf_of(alloc: Global, network: &[u8], model: &[u8], list: &[u8]) -> Option<MemShelf> {
    let mut files = List::new(alloc);
    let named = [("net", network), ("model", model), ("list", list)];
    put_files(&mut files, alloc, &named)?;
    shelf_with(alloc, files, &[])
}

/// What is said when these files are read; `None` if they are right.
fn message_of(alloc: Global, mut shelf: MemShelf) -> Option<Bytes> {
    let words = CaseFiles {
        files: PlanFiles {
            network: "net",
            model: "model",
            failures: "list",
        },
        survive: false,
    };
    match load_case(alloc, &words, &mut shelf) {
        Err(Halt::Told(told)) => Some(told.message),
        _ => None,
    }
}

/// Whether reading these files gives this message.
fn is_said(
    alloc: Global,
    network: &[u8],
    model: &[u8],
    list: &[u8],
    message: &[u8],
) -> Option<bool> {
    let shelf = shelf_of(alloc, network, model, list)?;
    Some(message_of(alloc, shelf)?.items() == message)
}

fn is_said_of_network(alloc: Global, row: &Row) -> Option<bool> {
    let text = changed(alloc, NETWORK, row)?;
    is_said(alloc, text.items(), MODEL, LIST, row.2)
}

fn is_said_of_model(alloc: Global, row: &Row) -> Option<bool> {
    let text = changed(alloc, MODEL, row)?;
    is_said(alloc, NETWORK, text.items(), LIST, row.2)
}

fn is_said_of_list(alloc: Global, row: &Row) -> Option<bool> {
    let text = changed(alloc, LIST, row)?;
    is_said(alloc, NETWORK, MODEL, text.items(), row.2)
}

/// The first row whose message isn't the expected one, with a part of the network replaced.
fn first_network(alloc: Global, rows: &[Row]) -> Option<usize> {
    for i in 0..rows.len() {
        if is_said_of_network(alloc, &rows[i]) != Some(true) {
            return Some(i);
        }
    }
    None
}

/// The first row whose message isn't the expected one, with a part of the model replaced.
fn first_model(alloc: Global, rows: &[Row]) -> Option<usize> {
    for i in 0..rows.len() {
        if is_said_of_model(alloc, &rows[i]) != Some(true) {
            return Some(i);
        }
    }
    None
}

/// The first row whose message isn't the expected one, with a part of the failure list replaced.
fn first_list(alloc: Global, rows: &[Row]) -> Option<usize> {
    for i in 0..rows.len() {
        if is_said_of_list(alloc, &rows[i]) != Some(true) {
            return Some(i);
        }
    }
    None
}

/// The first whole file in place of the network whose message isn't the expected one.
fn first_whole(alloc: Global, rows: &[WholeRow]) -> Option<usize> {
    for i in 0..rows.len() {
        if is_said(alloc, rows[i].0, MODEL, LIST, rows[i].1) != Some(true) {
            return Some(i);
        }
    }
    None
}

#[test]
fn first_lines_have_their_messages(rt: HostRuntime) {
    let wrong = first_network(rt.alloc(), &FIRST_LINES);
    assert!(rt; wrong.is_none(), "row {}", wrong.unwrap_or(0));
}

#[test]
fn sections_have_their_messages(rt: HostRuntime) {
    let wrong = first_network(rt.alloc(), &SECTIONS);
    assert!(rt; wrong.is_none(), "row {}", wrong.unwrap_or(0));
}

#[test]
fn numbers_have_their_messages(rt: HostRuntime) {
    let wrong = first_network(rt.alloc(), &NUMBERS);
    assert!(rt; wrong.is_none(), "row {}", wrong.unwrap_or(0));
}

#[test]
fn names_have_their_messages(rt: HostRuntime) {
    let wrong = first_network(rt.alloc(), &NAMES);
    assert!(rt; wrong.is_none(), "row {}", wrong.unwrap_or(0));
}

#[test]
fn whole_files_have_their_messages(rt: HostRuntime) {
    let wrong = first_whole(rt.alloc(), &WHOLE);
    assert!(rt; wrong.is_none(), "row {}", wrong.unwrap_or(0));
}

#[test]
fn models_have_their_messages(rt: HostRuntime) {
    let wrong = first_model(rt.alloc(), &MODELS);
    assert!(rt; wrong.is_none(), "row {}", wrong.unwrap_or(0));
}

#[test]
fn further_aspects_have_their_messages(rt: HostRuntime) {
    let wrong = first_model(rt.alloc(), &OTHER_MODELS);
    assert!(rt; wrong.is_none(), "row {}", wrong.unwrap_or(0));
}

#[test]
fn lists_have_their_messages(rt: HostRuntime) {
    let wrong = first_list(rt.alloc(), &LISTS);
    assert!(rt; wrong.is_none(), "row {}", wrong.unwrap_or(0));
}
