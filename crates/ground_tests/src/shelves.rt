use net_core::{Bytes, List, Name};
use outside_io::files::read_whole;
use outside_io::{Fetch, FileShelf, MemFile, MemShelf, ReadFault, Shelf, have_different_names};
use std::alloc::Global;
use std::io::{ErrorKind, Read};
use std::rt::Files;
use std::{fs, io};

/// A file: its name and its bytes.
type FileRow = (&'static [u8], &'static [u8]);

fn file(alloc: Global, row: &FileRow) -> Option<MemFile> {
    Some(MemFile {
        name: Name::new(alloc, row.0).ok()?,
        bytes: List::from_slice(alloc, row.1).ok()?,
    })
}

fn files(alloc: Global, rows: &[FileRow]) -> Option<List<MemFile>> {
    let mut files = List::new(alloc);
    for row in rows {
        files.push(file(alloc, row)?).ok()?;
    }
    Some(files)
}

/// A shelf of files whose fetches 4 and 9, counted from 0, fail; `None` if two files have one name.
fn shelf(alloc: Global, rows: &[FileRow]) -> Option<MemShelf> {
    let files = files(alloc, rows)?;
    let failing = List::from_slice(alloc, &[4, 9]).ok()?;
    if have_different_names(files.items()) {
        Some(MemShelf::new(files, failing))
    } else {
        None
    }
}

/// A fetch: the name and the limit that are asked for, the answer, what the buffer holds afterwards, and how many faults were counted so far.
type FetchRow<'b> = (&'static str, u64, Fetch, &'b [u8], u64);

fn is_fetch<S: Shelf>(shelf: &mut S, into: &mut Bytes, row: &FetchRow) -> bool {
    let (name, limit, answer, bytes, faults) = *row;
    shelf.fetch(name, limit, into) == answer && into.items() == bytes && shelf.faults() == faults
}

/// The number of the first fetch whose answer isn't the expected one.
fn first_difference<S: Shelf>(alloc: Global, shelf: &mut S, rows: &[FetchRow]) -> Option<usize> {
    let mut into = List::new(alloc);
    for i in 0..rows.len() {
        if !is_fetch(shelf, &mut into, &rows[i]) {
            return Some(i);
        }
    }
    None
}

const TWO_OF_ONE_NAME: [FileRow; 3] = [(b"net", b"a"), (b"model", b""), (b"net", b"b")];

const TWO_FILES: [FileRow; 2] = [(b"net", b"five!"), (b"model", b"")];

const FETCHES: [FetchRow; 6] = [
    ("net", 5, Fetch::Found, b"five!", 0),
    ("net", 4, Fetch::TooLong, b"", 0),
    ("model", 0, Fetch::Found, b"", 0),
    ("mode", 5, Fetch::Missing, b"", 0),
    ("net", 5, Fetch::Failed(ReadFault::Other), b"", 1),
    ("net", 5, Fetch::Found, b"five!", 1),
];

#[test]
fn names_of_files_in_memory_are_compared(rt: HostRuntime) {
    assert!(rt; shelf(rt.alloc(), &TWO_FILES).is_some());
    assert!(rt; files(rt.alloc(), &TWO_OF_ONE_NAME).is_some());
    assert!(rt; shelf(rt.alloc(), &TWO_OF_ONE_NAME).is_none());
}

/// Whether a shelf in memory answers each fetch as it should.
fn is_shelf_in_memory(alloc: Global) -> Option<bool> {
    let mut shelf = shelf(alloc, &TWO_FILES)?;
    Some(first_difference(alloc, &mut shelf, &FETCHES).is_none())
}

#[test]
fn a_shelf_in_memory_answers_by_name_length_and_number(rt: HostRuntime) {
    assert!(rt; is_shelf_in_memory(rt.alloc()) == Some(true));
}

/// The number of the first fetch whose answer isn't the expected one, with a file of these 10,000 bytes and no other.
fn first_difference_of_files<F: Files>(alloc: Global, files: &F, bytes: &[u8]) -> Option<usize> {
    let rows: [FetchRow; 4] = [
        ("outside_io_in", 10_000, Fetch::Found, bytes, 0),
        ("outside_io_in", 9_999, Fetch::TooLong, b"", 0),
        ("outside_io_none", 10_000, Fetch::Missing, b"", 0),
        (".", 10_000, Fetch::Failed(ReadFault::Folder), b"", 1),
    ];
    first_difference(alloc, &mut FileShelf::new(files), &rows)
}

/// Whether a shelf of files answers each fetch as it should.
fn is_shelf_of_files<F: Files>(alloc: Global, files: &F) -> Option<bool> {
    let bytes = List::filled(alloc, 7u8, 10_000).ok()?;
    fs::write(files, "outside_io_in", bytes.items()).ok()?;
    Some(first_difference_of_files(alloc, files, bytes.items()).is_none())
}

#[test]
fn a_shelf_of_files_answers_by_name_and_length(rt: HostRuntime) {
    assert!(rt; is_shelf_of_files(rt.alloc(), &rt) == Some(true));
    assert!(rt; fs::remove_file(&rt, "outside_io_in").is_ok());
}

/// A reader that is interrupted once, then gives at most three bytes a read, and fails or ends after its last byte.
#[derive(Drop)]
struct SlowReader<'b> {
    bytes: &'b [u8],
    is_interrupted: bool,
    fails: bool,
    given: usize,
    asked: usize,
}

impl Read for SlowReader<'_> {
    fn read(&mut self, buf: &mut [u8]) -> io::Result<usize> {
        if self.is_interrupted {
            self.is_interrupted = false;
            return Err(ErrorKind::Interrupted.into());
        }
        if self.fails && self.bytes.is_empty() {
            return Err(ErrorKind::Other.into());
        }
        self.asked = self.asked.max(self.given.saturating_add(buf.len()));
        let n = self.bytes.len().min(buf.len()).min(3);
        for i in 0..n {
            buf[i] = self.bytes[i];
        }
        self.bytes = &self.bytes[n..];
        self.given = self.given.saturating_add(n);
        Ok(n)
    }
}

const DIGITS: &[u8] = b"0123456789";

fn slow_reader(fails: bool) -> SlowReader<'static> {
    SlowReader {
        bytes: DIGITS,
        is_interrupted: true,
        fails,
        given: 0,
        asked: 0,
    }
}

/// A limit, whether the reader of ten bytes fails at its end, the answer, and how many bytes are asked for: one more than the limit, which shows
/// that a file is too long.
type ReadRow = (u64, bool, Fetch, usize);

const READS: [ReadRow; 5] = [
    (10, false, Fetch::Found, 11),
    (12, false, Fetch::Found, 13),
    (9, false, Fetch::TooLong, 10),
    (0, false, Fetch::TooLong, 1),
    (12, true, Fetch::Failed(ReadFault::Other), 13),
];

fn is_read(alloc: Global, row: ReadRow) -> bool {
    let (limit, fails, answer, asked) = row;
    let mut into = List::new(alloc);
    let mut reader = slow_reader(fails);
    let is_answer = read_whole(&mut reader, limit, &mut into) == answer;
    let is_whole = answer != Fetch::Found || into.items() == DIGITS;
    is_answer && is_whole && reader.asked == asked
}

#[test]
fn a_file_is_read_to_its_limit_and_a_byte(rt: HostRuntime) {
    for row in READS {
        assert!(rt; is_read(rt.alloc(), row), "{row:?}");
    }
}

/// A reader that gives nothing and fails with an error of this kind.
#[derive(Drop)]
struct FailingReader {
    kind: ErrorKind,
}

impl Read for FailingReader {
    fn read(&mut self, _buf: &mut [u8]) -> io::Result<usize> {
        Err(self.kind.into())
    }
}

/// A kind of error, and the fault of a file whose reading fails with it.
type CauseRow = (ErrorKind, ReadFault);

const CAUSES: [CauseRow; 3] = [
    (ErrorKind::IsADirectory, ReadFault::Folder),
    (ErrorKind::PermissionDenied, ReadFault::NoRight),
    (ErrorKind::Other, ReadFault::Other),
];

fn is_told(alloc: Global, row: CauseRow) -> bool {
    let (kind, fault) = row;
    let mut into = List::new(alloc);
    read_whole(&mut FailingReader { kind }, 10, &mut into) == Fetch::Failed(fault)
}

#[test]
fn a_file_that_fails_is_told_with_its_cause(rt: HostRuntime) {
    for row in CAUSES {
        assert!(rt; is_told(rt.alloc(), row), "{row:?}");
    }
}
