use crate::files::all_files;
use net_core::{Bytes, List};
use outside_io::{MemShelf, MemSink, OpenGate, Shelf, Sink};
use planner_commands::Status;
use planner_commands::run::run;
use std::alloc::Global;
use std::sync::Wait;
use std::thread::Threads;
use worked_networks::{File, shelf_with, sink_of, words_of};

/// How a run ended: its status, what it wrote, and how often the shelf and the sink failed.
#[derive(Drop)]
pub(crate) struct Ended {
    pub(crate) status: Status,
    pub(crate) out: MemSink,
    pub(crate) faults: (u64, u64),
}

impl Ended {
    /// Whether the run ended with this status, this text and these counts of faults.
    pub(crate) fn is(&self, status: Status, text: &[u8], faults: (u64, u64)) -> bool {
        self.status == status && self.out.bytes() == text && self.faults == faults
    }

    /// Whether the run ended with this status, no fault, and a line in two parts.
    pub(crate) fn is_line(&self, status: Status, front: &str, end: &str) -> bool {
        let Some(rest) = self.text().strip_prefix(front) else {
            return false;
        };
        rest.strip_suffix("\n") == Some(end) && self.status == status && self.faults == (0, 0)
    }

    /// What the run wrote; empty if that isn't text.
    pub(crate) fn text(&self) -> &str {
        str::from_utf8(self.out.bytes()).unwrap_or("")
    }
}

/// Runs words over a shelf and a sink.
fn carry_out<R: AllocGlobal + Threads + Wait + Sync>(
    rt: &R,
    words: &[String],
    mut shelf: MemShelf,
    mut out: MemSink,
) -> Ended {
    let status = run(rt, rt.alloc(), words, &mut shelf, &mut out, &OpenGate);
    let faults = (shelf.faults(), out.faults());
    Ended {
        status,
        out,
        faults,
    }
}

/// Runs words over all files and the given ones, where the fetches and puts of these numbers fail, counted from 0.
fn run_over<R: AllocGlobal + Threads + Wait + Sync>(
    rt: &R,
    words: &[String],
    more: &[File],
    fetches: &[u32],
    puts: &[u32],
) -> Option<Ended> {
    let alloc = rt.alloc();
    let shelf = shelf_with(alloc, all_files(alloc, more)?, fetches)?;
    Some(carry_out(rt, words, shelf, sink_of(alloc, 4000000, puts)?))
}

/// Runs words over all files and the given ones, where the fetches and puts of these numbers fail, counted from 0.
pub(crate) fn run_words<R: AllocGlobal + Threads + Wait + Sync>(
    rt: &R,
    words: &str,
    more: &[File],
    fetches: &[u32],
    puts: &[u32],
) -> Option<Ended> {
    let words = words_of(rt.alloc(), words)?;
    run_over(rt, &words, more, fetches, puts)
}

/// Whether these words, which fetch at most this many files, end with this status and this text. A further fetch would fail.
pub(crate) fn comes_to<R: AllocGlobal + Threads + Wait + Sync>(
    rt: &R,
    words: &str,
    more: &[File],
    fetched: u32,
    answer: (Status, &str),
) -> bool {
    let (status, text) = answer;
    match run_words(rt, words, more, &[fetched], &[]) {
        Some(run) => run.is(status, text.as_bytes(), (0, 0)),
        None => false,
    }
}

/// The text with the first occurrence of a part replaced by another.
pub(crate) fn replaced(alloc: Global, text: &str, part: &str, by: &str) -> Option<Bytes> {
    let (front, rest) = text.split_once(part)?;
    let mut changed = List::from_slice(alloc, front.as_bytes()).ok()?;
    changed.append(by.as_bytes()).ok()?;
    changed.append(rest.as_bytes()).ok()?;
    Some(changed)
}
