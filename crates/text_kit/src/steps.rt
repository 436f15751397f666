ghost use Rattle.std.specs.Prelude.{◌≡◌, ◌≤◌, true, false, length, IfOk, IfErr, IsTrue};
ghost use Rattle.net_core.specs.Terms.{are_same, is_plain};
ghost use Rattle.snd_tokens.specs.Terms.{first_line, trimmed, EndAt, WordAt, left};
ghost use Rattle.text_kit.{specs.Answers.{Closes, Fails, ReadsAs, IsAtEnd, LacksWord}, specs.Files.body, specs.Reading.{close_at, end_at, expected, open_at, over_at, placed, word_at}};

use crate::refusal::{Refusal, bad};
use snd_tokens::{Cursor, Next};
use std::fmt::Debug;

/// The outcome of a test of the word at a place. It takes constant time and no memory.
pub fn placed<K: Debug + Drop, X: Drop>(at: u64, outcome: Result<X, K>) -> Result<X, Refusal<K>>
    ensures { ReadsAs (λ x. x) result (EndAt at) (placed at (EndAt at) outcome) }
{
    match outcome {
        Ok(x) => Ok(x),
        Err(kind) => Err(bad(at, kind)),
    }
}

/// Takes a word, and gives its place and its bytes, which stay in the text. This and the other steps of this module
/// cost what `Cursor::next` does, and ask for no memory.
pub fn word<'a, K: Debug + Drop>(
    other: K,
    ended: K,
    text: &mut Cursor<'a>,
) -> Result<(u64, &'a [u8]), Refusal<K>>
    ensures took { IfOk result (λ x. left text.old ≡ WordAt x.0 x.1.now (left text.new)) }
    ensures plain { IfOk result (λ x. (1 ≤ length x.1.now) × IsTrue (is_plain x.1.now)) }
    ensures fault { IfErr result (LacksWord other ended (left text.old)) }
{
    match text.next() {
        Next::Word(at, word) => Ok((at, word)),
        Next::Open(at) | Next::Close(at) => Err(bad(at, other)),
        Next::End(at) => Err(bad(at, ended)),
    }
}

/// Takes one expected word.
/// It takes time in the bytes up to the word's end, and no memory; so do the other steps of this module.
pub fn expect<K: Copy + Debug + Drop>(
    other: K,
    ended: K,
    wanted: &[u8],
    text: &mut Cursor,
) -> Result<(), Refusal<K>>
    ensures { ReadsAs (λ _. tt) result (left text.new) (word_at other ended (expected other wanted.now) (left text.old)) }
{
    let (at, word) = word(other, ended, text)?;
    if word == wanted {
        return Ok(());
    }
    Err(bad(at, other))
}

/// Takes an opening parenthesis.
pub fn open<K: Debug + Drop>(other: K, ended: K, text: &mut Cursor) -> Result<(), Refusal<K>>
    ensures { ReadsAs (λ _. tt) result (left text.new) (open_at other ended (left text.old)) }
{
    match text.next() {
        Next::Open(_) => Ok(()),
        Next::Word(at, _) | Next::Close(at) => Err(bad(at, other)),
        Next::End(at) => Err(bad(at, ended)),
    }
}

/// Takes a closing parenthesis.
pub fn close<K: Debug + Drop>(other: K, ended: K, text: &mut Cursor) -> Result<(), Refusal<K>>
    ensures { ReadsAs (λ _. tt) result (left text.new) (close_at other ended (left text.old)) }
{
    match text.next() {
        Next::Close(_) => Ok(()),
        Next::Word(at, _) | Next::Open(at) => Err(bad(at, other)),
        Next::End(at) => Err(bad(at, ended)),
    }
}

/// Finds that nothing is left.
pub fn end<K: Debug + Drop>(other: K, text: &mut Cursor) -> Result<(), Refusal<K>>
    ensures { ReadsAs (λ _. tt) result (left text.new) (end_at other (left text.old)) }
{
    match text.next() {
        Next::End(_) => Ok(()),
        Next::Word(at, _) | Next::Open(at) | Next::Close(at) => Err(bad(at, other)),
    }
}

/// Takes a closing parenthesis if one is next, and gives its place.
pub fn closes(text: &mut Cursor) -> Option<u64>
    ensures { Closes result (left text.old) (left text.new) }
{
    let mut ahead = *text;
    match ahead.next() {
        Next::Close(at) => {
            *text = ahead;
            Some(at)
        }
        Next::Word(_, _) | Next::Open(_) | Next::End(_) => None,
    }
}

/// The place of the end, if nothing is left.
pub fn ends(text: &Cursor) -> Option<u64>
    ensures { IsAtEnd result (left text.now) }
{
    let mut ahead = *text;
    match ahead.next() {
        Next::End(at) => Some(at),
        Next::Word(_, _) | Next::Open(_) | Next::Close(_) => None,
    }
}

/// The fault of what is next, where nothing more is allowed.
pub fn over<K: Debug + Drop>(limit: K, ended: K, text: &mut Cursor) -> Refusal<K>
    ensures { Fails {Y = Unit {0}} result (over_at limit ended (left text.old)) }
{
    match text.next() {
        Next::Word(at, _) | Next::Open(at) | Next::Close(at) => bad(at, limit),
        Next::End(at) => bad(at, ended),
    }
}

/// The text after the header of a file, without a copy. It goes over the first line alone, and asks for no memory.
pub fn text_after_header<'a, K: Debug + Drop>(
    other: K,
    bytes: &'a [u8],
    header: &[u8],
) -> Result<Cursor<'a>, Refusal<K>>
    ensures text { IfOk result (λ text. left text ≡ body bytes.now) }
    ensures line { IfOk result (λ _. are_same (trimmed (first_line bytes.now)) header.now ≡ true) }
    ensures fault { IfErr result (λ e. (e ≡ Refusal.Bad 0 other) × (are_same (trimmed (first_line bytes.now)) header.now ≡ false)) }
{
    match snd_tokens::after_header(bytes, header) {
        Some(start) => Ok(Cursor::new(bytes, start)),
        None => Err(bad(0, other)),
    }
}
