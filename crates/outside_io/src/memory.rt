ghost use Rattle.std.specs.Prelude.{◌≡◌, ◌≤◌, ◌<◌, ◌+◌, ◌++◌, [], ℕ, List, IfOk, MatchOption, None, Some, Contains, ◌↔◌, IsTrue, OnErr, length, vec_len, vec_capacity};
ghost use Rattle.outside_io.{specs.Outside.{Fetches, HasFailed, content, Rose}, specs.Held.{HaveDifferentNames, files_of, after_fetch, PutsHeld}};

use crate::shelf::{Fetch, ReadFault, Shelf};
use crate::sink::{Failed, Sink};
use net_core::{Bytes, Copied, List, Name, NoMemory};
use std::alloc::Global;
use std::marker::Model;

/// A file in memory.
#[derive(Drop)]
pub struct MemFile {
    /// The name under which it is fetched.
    pub name: Name,
    /// Its whole content.
    pub bytes: Bytes,
}

impl Copied for MemFile {
    fn copy(&self) -> Result<MemFile, NoMemory> {
        Ok(MemFile {
            name: self.name.copy()?,
            bytes: self.bytes.copy()?,
        })
    }
}

/// Files in memory. Exactly those calls of `fetch` fail, with another cause than a folder or a missing right, whose numbers are in its list,
/// counted from 0. A fetch takes time in
/// the names of the files and the bytes that it copies, and memory for these.
#[derive(Drop)]
pub struct MemShelf {
    files: List<MemFile>,
    failing: List<u32>,
    calls: u64,
    faults: u64,
}

impl Model for MemShelf {
    ghost use Rattle.outside_io.specs.Held.{HeldFiles, HaveDifferentNames, files_of};

    ghost Value = { HeldFiles };

    ghost view = { λ s. record {
      files = files_of s.files;
      failing = s.failing;
      calls = s.calls;
      faults = s.faults;
    } };

    ghost invariant = { λ s. HaveDifferentNames s.files };
}

/// Whether the list has the number of a call.
fn is_failing(failing: &[u32], call: u64) -> bool
    ensures { IsTrue result ↔ Contains failing.now call }
{
    failing.iter().any(|n| u64::from(*n) == call)
}

/// Whether no two files have one name. It compares each pair of names. It takes no memory.
pub fn have_different_names(files: &[MemFile]) -> bool
    ensures { IsTrue result ↔ HaveDifferentNames files.now }
{
    for i in 0..files.len() {
        for j in 0..i {
            if files[j].name.same(&files[i].name) {
                return false;
            }
        }
    }
    true
}

/// The first file of the name.
fn find<'a>(files: &'a [MemFile], name: &[u8]) -> Option<&'a MemFile>
    ensures { MatchOption result
        (content (files_of files.now) name.now ≡ None)
        (λ file. content (files_of files.now) name.now ≡ Some file.now.bytes) }
{
    for file in files {
        if file.name.bytes() == name {
            return Some(file);
        }
    }
    None
}

impl MemShelf {
    /// A shelf of these files, whose names `have_different_names` tests. The fetches whose numbers are in `failing` will fail, counted from 0.
    /// A fetch takes time in the number of files, and memory for a copy of the file that it finds.
    pub fn new(files: List<MemFile>, failing: List<u32>) -> MemShelf
        requires { HaveDifferentNames files }
        ensures { result ≡ record {
          files = files_of files;
          failing = failing;
          calls = 0;
          faults = 0;
        } }
    {
        MemShelf {
            files,
            failing,
            calls: 0,
            faults: 0,
        }
    }
}

impl Shelf for MemShelf {
    ghost files = { λ s. Some s.files };

    ghost faults = { λ s. s.faults };

    fn faults(&self) -> u64 {
        self.faults
    }

    fn fetch(&mut self, name: &str, limit: u64, into: &mut Bytes) -> Fetch
        ensures answer { Fetches (Some self.old.files) name.now limit result into.new }
        ensures later { self.old.faults ≤ self.new.faults }
        ensures failed { HasFailed result → Rose self.old.faults self.new.faults }
        ensures numbered { HasFailed result ↔ Contains self.old.failing self.old.calls }
        ensures counted { self.new ≡ after_fetch result self.old }
    {
        into.clear();
        let call = self.calls;
        self.calls = call.saturating_add(1);
        if is_failing(self.failing.items(), call) {
            self.faults = self.faults.saturating_add(1);
            return Fetch::Failed(ReadFault::Other);
        }
        let Some(file) = find(self.files.items(), name.as_bytes()) else {
            return Fetch::Missing;
        };
        if file.bytes.len() as u64 > limit {
            return Fetch::TooLong;
        }
        match into.append(file.bytes.items()) {
            Ok(()) => Fetch::Found,
            Err(NoMemory) => Fetch::NoMemory,
        }
    }
}

/// A sink in memory with a fixed room, in bytes. A put whose piece doesn't fit into what is left fails as on a full disk and takes nothing
/// of it, even if its number is in the list. Of the others exactly those fail, with another cause, whose numbers are in its list, counted
/// from 0; they take half of the piece, rounded down.
/// A put takes no memory.
#[derive(Drop)]
pub struct MemSink {
    taken: Vec<u8>,
    room: u64,
    failing: List<u32>,
    calls: u64,
    faults: u64,
}

impl Model for MemSink {
    ghost use Rattle.std.specs.Prelude.{◌≤◌, vec_len, vec_capacity};
    ghost use Rattle.outside_io.specs.Held.{HeldOutput};

    ghost Value = { HeldOutput };

    ghost view = { λ s. record {
      taken = s.taken.items;
      room = s.room;
      failing = s.failing;
      calls = s.calls;
      faults = s.faults;
    } };

    ghost invariant = { λ s. (vec_len s.taken ≤ s.room) × (s.room ≤ vec_capacity s.taken) };
}

impl MemSink {
    /// An empty sink, which takes the memory for its room at once. The puts whose numbers are in `failing` will fail, counted
    /// from 0.
    pub fn new(alloc: Global, room: u64, failing: List<u32>) -> Result<MemSink, NoMemory>
        ensures { IfOk result (λ s. s ≡ record {
          taken = [];
          room = room;
          failing = failing;
          calls = 0;
          faults = 0;
        }) }
    {
        Ok(MemSink {
            taken: Vec::with_capacity(alloc, room as usize)?,
            room,
            failing,
            calls: 0,
            faults: 0,
        })
    }

    /// The bytes taken so far. They are lent, in constant time.
    pub fn bytes(&self) -> &[u8]
        ensures { result.now ≡ self.now.taken }
    {
        self.taken.as_slice()
    }
}

/// Appends bytes for which the vector has room, so that it takes no memory.
fn append_within(taken: &mut Vec<u8>, bytes: &[u8])
    requires { vec_len taken.old + length bytes.now ≤ vec_capacity taken.old }
    ensures items { taken.new.items ≡ taken.old.items ++ bytes.now }
    ensures len { vec_len taken.new ≡ vec_len taken.old + length bytes.now }
    ensures capacity { vec_capacity taken.old ≤ vec_capacity taken.new }
{
    taken.extend_from_slice(bytes).unwrap();
}

impl Sink for MemSink {
    ghost taken = { λ s. Some s.taken };

    ghost faults = { λ s. s.faults };

    fn faults(&self) -> u64 {
        self.faults
    }

    fn put(&mut self, piece: &[u8]) -> Result<(), Failed>
        ensures held { PutsHeld self.old self.new result piece.now }
        ensures later { self.old.faults ≤ self.new.faults }
        ensures failed { OnErr result (Rose self.old.faults self.new.faults) }
    {
        let fails = is_failing(self.failing.items(), self.calls);
        self.calls = self.calls.saturating_add(1);
        if piece.len() as u64 > self.room - self.taken.len() as u64 {
            self.faults = self.faults.saturating_add(1);
            return Err(Failed::DiskFull);
        }
        if fails {
            append_within(&mut self.taken, &piece[..piece.len() / 2]);
            self.faults = self.faults.saturating_add(1);
            return Err(Failed::Other);
        }
        append_within(&mut self.taken, piece);
        Ok(())
    }
}
