ghost use Rattle.std.specs.Prelude.{◌≡◌, ◌≤◌, ◌↔◌, None, OnErr, OnOk};
ghost use Rattle.outside_io.{specs.Outside.{Rose, one_more}, specs.Machine.{Writes, sink_faults, stream_of}, specs.inner.Steps.{IsFullDisk, WritesOnce}};

use crate::sink::{Failed, Sink};
use std::io::{ErrorKind, Write};

/// A stream of the machine, of which it tells nothing. Each piece is written whole and flushed, without taking memory; a write
/// that takes nothing of a piece is a fault.
#[derive(Drop)]
pub struct StreamSink<W> {
    out: W,
    faults: u64,
}

impl<W: Write> StreamSink<W> {
    /// A sink that writes to the stream, with no fault counted. It takes constant time.
    pub fn new(out: W) -> StreamSink<W>
        ensures stream { stream_of result ≡ out }
        ensures faults { sink_faults result ≡ 0 }
    {
        StreamSink { out, faults: 0 }
    }
}

/// What the machine's kind of an error says of a disk: a spent quota is a full one.
fn failed_of(kind: ErrorKind) -> Failed
    ensures { (result ≡ Failed.DiskFull) ↔ IsFullDisk kind }
{
    if kind == ErrorKind::StorageFull || kind == ErrorKind::QuotaExceeded {
        Failed::DiskFull
    } else {
        Failed::Other
    }
}

/// Writes once, and says how many bytes were taken. A write that takes nothing is a fault.
fn write_once<W: Write>(out: &mut W, piece: &[u8]) -> Result<usize, Failed>
    ensures { WritesOnce (W.contents out.old) (W.contents out.new) result piece.now }
{
    match out.write(piece) {
        Ok(0) => Err(Failed::Other),
        Ok(n) => Ok(n),
        Err(e) if e.kind() == ErrorKind::Interrupted => Ok(0),
        Err(e) => Err(failed_of(e.kind())),
    }
}

/// Writes a whole piece and flushes it.
fn write_whole<W: Write>(out: &mut W, piece: &[u8]) -> Result<(), Failed>
    ensures { Writes (W.contents out.old) (W.contents out.new) result piece.now }
{
    let mut done = 0;
    // Each function must return, so that writes end as a fault after 2^64 - 1 rounds.
    for _ in 0..u64::MAX {
        if done == piece.len() {
            return out.flush().map_err(|e| failed_of(e.kind()));
        }
        done += write_once(out, &piece[done..])?;
    }
    Err(Failed::Other)
}

impl<W: Write> Sink for StreamSink<W> {
    ghost taken = { λ _. None };

    ghost faults = { sink_faults };

    fn faults(&self) -> u64 {
        self.faults
    }

    fn put(&mut self, piece: &[u8]) -> Result<(), Failed>
        ensures written { Writes
            (W.contents (stream_of self.old)) (W.contents (stream_of self.new)) result piece.now }
        ensures later { sink_faults self.old ≤ sink_faults self.new }
        ensures failed { OnErr result (Rose (sink_faults self.old) (sink_faults self.new)) }
        ensures not_failed { OnOk result (sink_faults self.new ≡ sink_faults self.old) }
    {
        let answer = write_whole(&mut self.out, piece);
        if answer.is_err() {
            self.faults = self.faults.saturating_add(1);
        }
        answer
    }
}
