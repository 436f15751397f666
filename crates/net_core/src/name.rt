ghost use Rattle.std.{specs.Prelude.{◌≡◌, ◌≤◌, ◌<◌, ◌↔◌, IsTrue, IfOk, IsErrOf, false, length, []}, specs.List.list_all};
ghost use Rattle.net_core.{specs.Names.{IsName, is_word_byte, begins_comment, is_plain}, specs.Limits.name_bytes};

use crate::limits::NAME_BYTES;
use crate::list::{Copied, List, NoMemory};
use crate::word_bytes::is_word_byte;
use std::alloc::Global;
use std::marker::Model;
use thiserror::Error;

/// A name: a word of a file, of 1 to 255 bytes.
#[derive(Drop, PartialEq, Eq, Hash)]
pub struct Name {
    bytes: List<u8>,
}

impl Model for Name {
    ghost use Rattle.std.specs.Prelude as p;
    ghost use Rattle.net_core.specs.Names.{IsName};

    ghost Value = { p.List p.ℕ };

    ghost view = { λ n. n.bytes };

    ghost invariant = { λ n. IsName n.bytes };

    ghost inverse = { λ bytes. record { bytes = bytes } };
}

/// Why bytes are no name.
#[derive(Clone, Copy, Debug, PartialEq, Eq, Error)]
pub enum NameFault {
    /// There is no byte.
    #[error("an empty name")]
    Empty,
    /// There are more than 255 bytes.
    #[error("a name of more than 255 bytes")]
    Long,
    /// A byte is white space or a parenthesis, or the first is `#`.
    #[error("a byte that no name may have")]
    BadByte,
    /// The call ran out of memory.
    #[error("out of memory")]
    NoMemory,
}

impl From<NoMemory> for NameFault {
    ghost use Rattle.std.specs.Prelude.{◌≡◌};
    ghost use Rattle.net_core.specs.declared.name.NameFault.{NameFault};

    ghost from_gives = { λ _ fault. fault ≡ NameFault.NoMemory };

    fn from(_error: NoMemory) -> NameFault {
        NameFault::NoMemory
    }
}

fn are_word_bytes(bytes: &[u8]) -> bool
    ensures { result ≡ list_all is_word_byte bytes.now }
{
    bytes.iter().all(|b| is_word_byte(*b))
}

fn begins_comment(bytes: &[u8]) -> bool
    ensures { result ≡ begins_comment bytes.now }
{
    match bytes {
        [] => false,
        [first, ..] => *first == b'#',
    }
}

fn is_plain(bytes: &[u8]) -> bool
    ensures { result ≡ is_plain bytes.now }
{
    !begins_comment(bytes) && are_word_bytes(bytes)
}

impl Name {
    /// The name of these bytes, which it copies. The faults are tested in the order of `NameFault`, before
    /// any memory is asked for. It takes time in the number of the bytes.
    pub fn new(alloc: Global, bytes: &[u8]) -> Result<Name, NameFault>
        ensures ok { IfOk result (λ n. n ≡ bytes.now) }
        ensures empty { IsErrOf result NameFault.Empty ↔ (bytes.now ≡ []) }
        ensures long { IsErrOf result NameFault.Long ↔ (name_bytes < length bytes.now) }
        ensures bad { IsErrOf result NameFault.BadByte
            ↔ ((1 ≤ length bytes.now) × (length bytes.now ≤ name_bytes) × (is_plain bytes.now ≡ false)) }
    {
        if bytes.is_empty() {
            return Err(NameFault::Empty);
        }
        if bytes.len() > NAME_BYTES {
            return Err(NameFault::Long);
        }
        if !is_plain(bytes) {
            return Err(NameFault::BadByte);
        }
        Ok(Name {
            bytes: List::from_slice(alloc, bytes)?,
        })
    }

    /// The bytes of the name. They stay where they are. It takes constant time.
    pub fn bytes(&self) -> &[u8]
        ensures value { result.now ≡ self.now }
        ensures valid { IsName self.now }
    {
        self.bytes.items()
    }

    /// Whether two names are one. It takes time in the length of the name, and no memory.
    pub fn same(&self, other: &Name) -> bool
        ensures { IsTrue result ↔ (self.now ≡ other.now) }
    {
        self.bytes.items() == other.bytes.items()
    }
}

impl Copied for Name {
    fn copy(&self) -> Result<Name, NoMemory> {
        Ok(Name {
            bytes: self.bytes.copy()?,
        })
    }
}
