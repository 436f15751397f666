ghost use Rattle.std.specs.Prelude.{◌≡◌, ℕ, ◌≤◌, Option};
ghost use Rattle.outside_io.specs.Outside.{Fetches, Files, HasFailed, Rose};

use net_core::Bytes;

/// Why a shelf failed, as far as it can tell.
#[derive(Clone, Copy, Debug, PartialEq, Eq)]
pub enum ReadFault {
    /// The name is that of a folder.
    Folder,
    /// There is no right to read the file.
    NoRight,
    /// Any other cause, such as a damaged disk.
    Other,
}

/// What a fetch answers.
#[derive(Clone, Copy, Debug, PartialEq, Eq)]
pub enum Fetch {
    /// The buffer holds the whole content.
    Found,
    /// No file has the name.
    Missing,
    /// The content is longer than the limit.
    TooLong,
    /// The shelf failed, and has counted it.
    Failed(ReadFault),
    /// The fetch ran out of memory. The shelf may have counted a fault before.
    NoMemory,
}

/// Where files come from. `Failed` and `NoMemory` may come in place of any other answer. No call changes the files.
///
/// ```text
/// shelf.fetch("net", 1 << 24, &mut bytes) == Fetch::Found    // bytes holds the whole file, 16 MiB at most
/// ```
pub trait Shelf {
    /// The files by their names, where the shelf tells them.
    ghost files: { Self → Option Files };

    /// How often the shelf has failed.
    ghost faults: { Self → ℕ };

    /// How often the shelf has failed. The count stays at the greatest number of its type.
    fn faults(&self) -> u64
        ensures { result ≡ faults self.now };

    /// Empties the buffer and puts the content of the file of this name into it, if that has at most `limit` bytes. After any
    /// answer but `Found` the buffer is empty.
    fn fetch(&mut self, name: &str, limit: u64, into: &mut Bytes) -> Fetch
        ensures answer { Fetches (files self.old) name.now limit result into.new }
        ensures files { files self.new ≡ files self.old }
        ensures later { faults self.old ≤ faults self.new }
        ensures failed { HasFailed result → Rose (faults self.old) (faults self.new) };
}
