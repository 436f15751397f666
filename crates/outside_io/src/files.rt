ghost use Rattle.std.specs.Prelude.{◌≡◌, ◌≤◌, ◌+◌, ◌<◌, [], None, MatchResult, length};
ghost use Rattle.outside_io.{specs.Outside.{Fetches, HasFailed, Rose}, specs.Machine.shelf_faults, specs.inner.Steps.{AnswersUnopened, IsFaultOf, Reads, ReadsOnce, ConsumesUpTo}, specs.Held.faults_after};

use crate::shelf::{Fetch, ReadFault, Shelf};
use net_core::Bytes;
use std::io::{ErrorKind, Read};
use std::rt::Files;
use std::{fs, io};

/// The machine's files, of which it tells nothing. The content of a file is what reading it to its end gives. A name that
/// doesn't exist is `Missing`; a folder, or anything else that can't be opened or read, is `Failed` with what the machine says of it. A fetch reads at most one
/// byte past its limit, in steps of 4,096 bytes.
#[derive(Drop)]
pub struct FileShelf<'f, F> {
    files: &'f F,
    faults: u64,
}

/// What the machine's kind of an error says of a file: only what a user can do something about has a word of its own.
fn fault_of(kind: ErrorKind) -> ReadFault
    ensures { IsFaultOf kind result }
{
    if kind == ErrorKind::IsADirectory {
        ReadFault::Folder
    } else if kind == ErrorKind::PermissionDenied {
        ReadFault::NoRight
    } else {
        ReadFault::Other
    }
}

/// Reads once, at most one byte more than is left of the limit. With no answer there may be more to read.
fn read_once<R: Read>(file: &mut R, buffer: &mut [u8], left: u64, into: &mut Bytes) -> Option<Fetch>
    requires some { 0 < length buffer.old }
    requires few { length buffer.old ≤ left + 1 }
    ensures { ReadsOnce (R.remaining file.old) (R.remaining file.new) left result into.old into.new }
{
    match file.read(buffer) {
        Ok(0) => Some(Fetch::Found),
        Ok(n) if n as u64 > left => Some(Fetch::TooLong),
        Ok(n) => match into.append(&buffer[..n]) {
            Ok(()) => None,
            Err(_) => Some(Fetch::NoMemory),
        },
        Err(e) if e.kind() == ErrorKind::Interrupted => None,
        Err(e) => Some(Fetch::Failed(fault_of(e.kind()))),
    }
}

/// Reads a file to its end, or until it has read one byte more than the limit.
/// It reads at most 4,096 bytes at a time, and takes memory for what it has read.
pub fn read_whole<R: Read>(file: &mut R, limit: u64, into: &mut Bytes) -> Fetch
    requires { into.old ≡ [] }
    ensures read { Reads (R.remaining file.old) limit result into.new }
    ensures bounded { ConsumesUpTo (limit + 1) (R.remaining file.old) (R.remaining file.new) }
{
    let mut buffer = [0u8; 4096];
    // Each function must return, so that reads end as a fault after 2^64 - 1 rounds.
    for _ in 0..u64::MAX {
        let left = limit - into.len() as u64;
        let most = left.min(4095) as usize + 1;
        if let Some(answer) = read_once(file, &mut buffer[..most], left, into) {
            return answer;
        }
    }
    Fetch::Failed(ReadFault::Other)
}

/// Reads the file where it could be opened.
fn read_opened<R: Read + Drop>(opened: io::Result<R>, limit: u64, into: &mut Bytes) -> Fetch
    requires { into.old ≡ [] }
    ensures { MatchResult opened
        (λ file. Reads (R.remaining file) limit result into.new)
        (λ e. AnswersUnopened e result) }
{
    match opened {
        Ok(mut file) => read_whole(&mut file, limit, into),
        Err(e) if e.kind() == ErrorKind::NotFound => Fetch::Missing,
        Err(e) => Fetch::Failed(fault_of(e.kind())),
    }
}

impl<'f, F: Files> FileShelf<'f, F> {
    /// A shelf of the machine's files, with no fault counted. It takes no memory.
    pub fn new(files: &'f F) -> FileShelf<'f, F>
        ensures { shelf_faults result ≡ 0 }
    {
        FileShelf { files, faults: 0 }
    }
}

impl<'f, F: Files> Shelf for FileShelf<'f, F> {
    ghost files = { λ _. None };

    ghost faults = { shelf_faults };

    fn faults(&self) -> u64 {
        self.faults
    }

    fn fetch(&mut self, name: &str, limit: u64, into: &mut Bytes) -> Fetch
        ensures answer { Fetches None name.now limit result into.new }
        ensures later { shelf_faults self.old ≤ shelf_faults self.new }
        ensures failed { HasFailed result → Rose (shelf_faults self.old) (shelf_faults self.new) }
        ensures counted { shelf_faults self.new ≡ faults_after result (shelf_faults self.old) }
    {
        into.clear();
        let answer = read_opened(fs::open(self.files, name), limit, into);
        if answer != Fetch::Found {
            into.clear();
        }
        if let Fetch::Failed(_) = answer {
            self.faults = self.faults.saturating_add(1);
        }
        answer
    }
}
