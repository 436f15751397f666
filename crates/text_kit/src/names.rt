ghost use Rattle.std.specs.Prelude.{◌≡◌, ◌≤◌, false, nat_lt, length, None, IfOk, IsTrue};
ghost use Rattle.snd_tokens.specs.Terms.{EndAt};
ghost use Rattle.net_core.{specs.Terms.is_plain, specs.Limits.name_bytes};
ghost use Rattle.text_kit.{specs.Answers.ReadsAs, specs.Names.{long_name_fault, new_name_fault}, specs.Reading.{placed, sound}};

use crate::refusal::{Refusal, bad};
use net_core::limits::NAME_BYTES;
use net_core::{Name, NameFault, NoMemory};
use std::alloc::Global;
use std::fmt::Debug;

/// Whether a word is too long for a name, in constant time.
pub fn is_long(word: &[u8]) -> bool
    ensures value { result ≡ nat_lt name_bytes (length word.now) }
    ensures short { result ≡ false → length word.now ≤ name_bytes }
{
    word.len() > NAME_BYTES
}

/// What is wrong with a word as a name: that it is too `long`. It takes constant time and no memory.
pub fn long_name_fault<K: Debug + Drop>(long: K, word: &[u8]) -> Option<K>
    ensures value { result ≡ long_name_fault long word.now }
    ensures short { result ≡ None → length word.now ≤ name_bytes }
{
    if is_long(word) {
        return Some(long);
    }
    None
}

/// What is wrong with a word as a new name, of which there are `most` at most: it is too `long`,
/// or it is a `double` since it is `taken`, or `count` others before it are as many as the `limit`
/// allows. It takes constant time and no memory.
pub fn new_name_fault<K: Debug + Drop>(
    long: K,
    double: K,
    limit: K,
    most: usize,
    count: usize,
    taken: bool,
    word: &[u8],
) -> Option<K>
    ensures value { result ≡ new_name_fault long double limit most count taken word.now }
    ensures short { result ≡ None → length word.now ≤ name_bytes }
{
    if is_long(word) {
        return Some(long);
    }
    if taken {
        return Some(double);
    }
    if count >= most {
        return Some(limit);
    }
    None
}

/// The name that a word is.
fn name_of(alloc: Global, word: &[u8]) -> Result<Name, NoMemory>
    requires some { 1 ≤ length word.now }
    requires plain { IsTrue (is_plain word.now) }
    requires short { length word.now ≤ name_bytes }
    ensures { IfOk result (λ n. n ≡ word.now) }
{
    match Name::new(alloc, word) {
        Ok(name) => Ok(name),
        Err(NameFault::NoMemory) => Err(NoMemory),
        Err(NameFault::Empty | NameFault::Long | NameFault::BadByte) => unreachable!(),
    }
}

/// The name that a word of a text is, at a place, if it has no fault. The name is a copy: it asks for memory once, for
/// the bytes of the word.
pub fn named<K: Debug + Drop>(
    alloc: Global,
    at: u64,
    word: &[u8],
    fault: Option<K>,
) -> Result<Name, Refusal<K>>
    requires some { 1 ≤ length word.now }
    requires plain { IsTrue (is_plain word.now) }
    requires short { fault ≡ None → length word.now ≤ name_bytes }
    ensures { ReadsAs (λ n. n) result (EndAt at) (placed at (EndAt at) (sound word.now fault)) }
{
    if let Some(kind) = fault {
        return Err(bad(at, kind));
    }
    Ok(name_of(alloc, word)?)
}
