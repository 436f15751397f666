use crate::files::all_files;
use outside_io::{MemShelf, MemSink, Shelf, Sink};
use people_commands::Status;
use people_commands::run::run;
use plan_progress::NoTeller;
use std::alloc::Global;
use std::sync::Wait;
use std::thread::Threads;
use worked_networks::{shelf_with, sink_of, words_of};

/// Which fetch and which put fail, counted from 0, and for how many bytes there is room.
pub(crate) type Faults = (u32, u32, u64);

/// Words, what fails, and how the run ends: its status, what it prints, and its message.
pub(crate) type Row = (&'static str, Faults, Status, &'static str, &'static str);

/// How a run ends: its status, what it prints, and its message.
pub(crate) type End<'a> = (Status, &'a [u8], &'a [u8]);

/// Whether a run of these words over these files ends like this.
fn ends_so<R: Threads + Wait + Sync>(
    rt: &R,
    alloc: Global,
    words: &[String],
    mut shelf: MemShelf,
    mut out: MemSink,
    mut beside: MemSink,
    end: End,
) -> bool {
    let status = run(
        rt,
        alloc,
        words,
        &mut shelf,
        &mut out,
        &mut beside,
        &NoTeller,
    );
    status == end.0 && out.bytes() == end.1 && beside.bytes() == end.2
}

/// Whether a run over a shelf ends like this if this put fails and there is room for this many bytes; `None` if memory runs out.
pub(crate) fn ends_with<R: Threads + Wait + Sync>(
    rt: &R,
    alloc: Global,
    words: &[String],
    shelf: MemShelf,
    room: (u32, u64),
    end: End,
) -> Option<bool> {
    let out = sink_of(alloc, room.1, &[room.0])?;
    let beside = sink_of(alloc, 100000, &[9])?;
    Some(ends_so(rt, alloc, words, shelf, out, beside, end))
}

/// Whether the words of a row end as the row says; `None` if memory runs out.
pub(crate) fn comes_to<R: Threads + Wait + Sync>(rt: &R, alloc: Global, row: &Row) -> Option<bool> {
    let words = words_of(alloc, row.0)?;
    let shelf = shelf_with(alloc, all_files(alloc)?, &[row.1.0])?;
    let end = (row.2, row.3.as_bytes(), row.4.as_bytes());
    ends_with(rt, alloc, &words, shelf, (row.1.1, row.1.2), end)
}
