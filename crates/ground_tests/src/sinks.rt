use net_core::List;
use outside_io::{Failed, MemSink, Sink, StreamSink};
use std::alloc::Global;
use std::io::{ErrorKind, Write};
use std::rt::Files;
use std::{fs, io};

/// A put: the piece, whether all of it is taken, and how many faults were counted so far.
type PutRow = (&'static [u8], bool, u64);

/// The number of the first put whose answer isn't the expected one.
fn first_difference<K: Sink>(out: &mut K, rows: &[PutRow]) -> Option<usize> {
    for i in 0..rows.len() {
        let (piece, is_whole, faults) = rows[i];
        if out.put(piece).is_ok() != is_whole || out.faults() != faults {
            return Some(i);
        }
    }
    None
}

const PUTS: [PutRow; 6] = [
    (b"abc", true, 0),
    (b"defgh", false, 1),
    (b"ijklmn", false, 2),
    (b"ijklm", true, 2),
    (b"o", false, 3),
    (b"", true, 3),
];

/// Whether a sink in memory takes what it should: it has room for 10 bytes, and its puts 1 and 2, counted from 0, fail.
fn is_sink_in_memory(alloc: Global) -> Option<bool> {
    let failing = List::from_slice(alloc, &[1, 2]).ok()?;
    let mut out = MemSink::new(alloc, 10, failing).ok()?;
    Some(first_difference(&mut out, &PUTS).is_none() && out.bytes() == b"abcdeijklm".as_slice())
}

#[test]
fn a_sink_in_memory_fails_by_room_and_number(rt: HostRuntime) {
    assert!(rt; is_sink_in_memory(rt.alloc()) == Some(true));
}

const WRITTEN: [PutRow; 2] = [(b"first ", true, 0), (b"second", true, 0)];

/// Whether a sink over a file takes both pieces.
fn is_taken_by_file<F: Files>(files: &F) -> Option<bool> {
    let mut out = StreamSink::new(fs::create(files, "outside_io_out").ok()?);
    Some(first_difference(&mut out, &WRITTEN).is_none())
}

/// Whether the file holds both pieces.
fn is_in_file<F: Files + AllocGlobal>(files: &F) -> Option<bool> {
    let written = fs::read(files, "outside_io_out").ok()?;
    Some(written.as_slice() == b"first second".as_slice())
}

#[test]
fn a_sink_over_a_file_writes_it(rt: HostRuntime) {
    assert!(rt; is_taken_by_file(&rt) == Some(true));
    assert!(rt; is_in_file(&rt) == Some(true));
    assert!(rt; fs::remove_file(&rt, "outside_io_out").is_ok());
}

const PRINTED: [PutRow; 1] = [(b"written to standard output\n", true, 0)];

#[test]
fn a_sink_over_standard_output_writes_to_it(rt: HostRuntime) {
    let mut out = StreamSink::new(io::writer(&rt));
    assert_eq!(rt; first_difference(&mut out, &PRINTED), None);
}

/// A writer that is interrupted once, then takes at most three bytes a write, until its room is full.
#[derive(Drop)]
struct NarrowWriter {
    taken: Vec<u8>,
    room: usize,
    is_interrupted: bool,
    flushes: u32,
    flush_fails: bool,
}

impl Write for NarrowWriter {
    fn write(&mut self, buf: &[u8]) -> io::Result<usize> {
        if self.is_interrupted {
            self.is_interrupted = false;
            return Err(ErrorKind::Interrupted.into());
        }
        let left = self.room.saturating_sub(self.taken.len());
        let n = buf.len().min(left).min(3);
        self.taken.extend_from_slice(&buf[..n])?;
        Ok(n)
    }

    fn flush(&mut self) -> io::Result<()> {
        if self.flush_fails {
            return Err(ErrorKind::Other.into());
        }
        self.flushes = self.flushes.saturating_add(1);
        Ok(())
    }
}

const OVERFLOWING: [PutRow; 2] = [(b"01234", true, 0), (b"56789", false, 1)];

const NOT_FLUSHED: [PutRow; 1] = [(b"", false, 1)];

/// A writer with room for eight bytes.
fn narrow_writer(alloc: Global, flush_fails: bool) -> NarrowWriter {
    NarrowWriter {
        taken: Vec::new(alloc),
        room: 8,
        is_interrupted: true,
        flushes: 0,
        flush_fails,
    }
}

/// Whether a sink writes on until a stream's eight bytes of room are full, and then counts a fault.
fn is_room_filled(alloc: Global) -> bool {
    let mut narrow = narrow_writer(alloc, false);
    let difference = first_difference(&mut StreamSink::new(&mut narrow), &OVERFLOWING);
    difference.is_none() && narrow.taken.as_slice() == b"01234567".as_slice() && narrow.flushes == 1
}

/// Whether a sink counts a failed flush of a stream.
fn is_flush_counted(alloc: Global) -> bool {
    let mut narrow = narrow_writer(alloc, true);
    first_difference(&mut StreamSink::new(&mut narrow), &NOT_FLUSHED).is_none()
}

#[test]
fn a_sink_over_a_stream_writes_on_and_counts_faults(rt: HostRuntime) {
    assert!(rt; is_room_filled(rt.alloc()));
    assert!(rt; is_flush_counted(rt.alloc()));
}

/// A writer that takes nothing and fails with an error of this kind.
#[derive(Drop)]
struct FailingWriter {
    kind: ErrorKind,
}

impl Write for FailingWriter {
    fn write(&mut self, _buf: &[u8]) -> io::Result<usize> {
        Err(self.kind.into())
    }

    fn flush(&mut self) -> io::Result<()> {
        Ok(())
    }
}

/// A kind of error, and what a sink answers if a write fails with it.
type CauseRow = (ErrorKind, Failed);

const CAUSES: [CauseRow; 4] = [
    (ErrorKind::StorageFull, Failed::DiskFull),
    (ErrorKind::QuotaExceeded, Failed::DiskFull),
    (ErrorKind::BrokenPipe, Failed::Other),
    (ErrorKind::Other, Failed::Other),
];

fn is_told(row: CauseRow) -> bool {
    let (kind, failed) = row;
    StreamSink::new(FailingWriter { kind }).put(b"abc") == Err(failed)
}

#[test]
fn a_sink_over_a_stream_tells_a_full_disk(rt: HostRuntime) {
    for row in CAUSES {
        assert!(rt; is_told(row), "{row:?}");
    }
}
