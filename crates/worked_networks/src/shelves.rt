use net_core::{List, Name};
use outside_io::{MemFile, MemShelf, MemSink, have_different_names};
use std::alloc::Global;

/// A file in memory: its name and its bytes.
pub type File<'a> = (&'a str, &'a [u8]);

/// Appends a file. It takes time and memory for a copy of it, and `None` means that memory runs out, or that the name is none.
fn put_file(held: &mut List<MemFile>, alloc: Global, file: File) -> Option<()> {
    let name = Name::new(alloc, file.0.as_bytes()).ok()?;
    let bytes = List::from_slice(alloc, file.1).ok()?;
    held.push(MemFile { name, bytes }).ok()
}

/// Appends files, each with a copy of its bytes. `None` means that memory runs out, or that a name is none.
pub fn put_files(held: &mut List<MemFile>, alloc: Global, files: &[File]) -> Option<()> {
    for file in files {
        put_file(held, alloc, *file)?;
    }
    Some(())
}

/// A shelf of files, whose fetches of these numbers fail, counted from 0. `None` means that memory runs out, or that two names are the same.
pub fn shelf_with(alloc: Global, files: List<MemFile>, fetches: &[u32]) -> Option<MemShelf> {
    let failing = List::from_slice(alloc, fetches).ok()?;
    have_different_names(files.items()).then(|| MemShelf::new(files, failing))
}

/// An empty sink with room for this many bytes, whose puts of these numbers fail, counted from 0. `None` means that memory runs out.
pub fn sink_of(alloc: Global, room: u64, puts: &[u32]) -> Option<MemSink> {
    let failing = List::from_slice(alloc, puts).ok()?;
    MemSink::new(alloc, room, failing).ok()
}

/// The words of a command, which single spaces part. `None` means that memory runs out.
pub fn words_of(alloc: Global, words: &str) -> Option<Vec<String>> {
    let mut list = Vec::new(alloc);
    for word in words.split(' ') {
        list.push(word.to_string(alloc).ok()?).ok()?;
    }
    Some(list)
}
