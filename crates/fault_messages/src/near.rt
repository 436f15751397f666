ghost use Rattle.std.specs.Prelude.{◌≡◌, ◌+◌, ◌≤◌, ◌<◌, ◌++◌, ℕ, List, IfOk, MatchOption, OnOk, [], codes, get_or, length};
ghost use Rattle.net_core.specs.Terms.{are_same};
ghost use Rattle.snd_tokens.specs.Tokens.{token_bytes, tokens_from};
ghost use Rattle.fault_texts.specs.Quotes.{IsQuote, note_text};
ghost use Rattle.fault_messages.specs.NearNames.{HasNoneNear, IsNearNote, IsNearestName, IsNearestNote, IsOtherNote, IsWordNote, edits, is_word, other_word, other_words};

use fault_texts::{put_quote, token_here};
use net_core::limits::NAME_BYTES;
use net_core::{Bytes, List as Items, NoMemory};
use snd_tokens::{Token, TokenKind, next_token};
use std::alloc::Global;
use strsim::generic_levenshtein;
/// How many bytes have to be put in, left out or changed to come from one name to another, if they are fewer than a limit. Two letters exchanged
/// are two edits, and so is a character of two bytes for one of ASCII, since a name is bytes that needn't be UTF-8. Where the lengths differ by
/// as many, it takes no time.
#[tactic(auto, using(crate::proofs::EditBounds::edits_bound))]
fn edits_below(
    alloc: Global,
    name: &[u8],
    other: &[u8],
    limit: usize,
) -> Result<Option<usize>, NoMemory>
    ensures { IfOk result (λ found. MatchOption found (limit ≤ edits name.now other.now) (λ d. (d ≡ edits name.now other.now) × (d < limit))) }
{
    if name.len().abs_diff(other.len()) >= limit {
        return Ok(None);
    }
    let edits = generic_levenshtein(alloc, name, other)?;
    Ok((edits < limit).then_some(edits))
}

/// The name at a place, and none past the last.
fn name_at(names: &[Bytes], i: usize) -> &[u8]
    ensures { result.now ≡ get_or names.now i [] }
{
    match names.get(i) {
        Some(name) => name.items(),
        None => b"",
    }
}

/// The place of the nearest name so far, and the edits that a nearer one has fewer of.
#[derive(Clone, Copy)]
struct Nearest {
    place: usize,
    edits: usize,
}

/// The place of the name that is nearest to another, and the first of those that are as near, if the edits are at most a third of the
/// length: bytes to be put in, left out or changed. A name whose length differs by more than that is passed over in constant time; for the
/// others it takes time in the length times their bytes, and memory for the longest.
pub fn nearest_name(alloc: Global, name: &[u8], names: &[Bytes]) -> Result<Option<usize>, NoMemory>
    ensures { IfOk result (λ found. MatchOption found (HasNoneNear name.now names.now) (λ i. IsNearestName name.now names.now i)) }
{
    let mut nearest = Nearest {
        place: names.len(),
        edits: name.len() / 3 + 1,
    };
    for i in 0..names.len() {
        if let Some(edits) = edits_below(alloc, name, name_at(names, i), nearest.edits)? {
            nearest = Nearest { place: i, edits };
        }
    }
    Ok((nearest.place < names.len()).then_some(nearest.place))
}

/// Puts a line last that asks for a name.
fn put_question(text: &mut Bytes, name: &[u8]) -> Result<(), NoMemory>
    ensures { OnOk result ((quote : List ℕ) × IsQuote name.now quote × (text.new ≡ text.old ++ note_text (codes "did you mean " ++ quote ++ codes "?"))) }
{
    text.append(b"  did you mean ")?;
    put_quote(text, name)?;
    text.append(b"?\n")
}

/// Puts a line last that asks for the nearest of these names, if one is near: as `nearest_name` says, which it costs.
pub fn put_nearest_note(
    text: &mut Bytes,
    alloc: Global,
    name: &[u8],
    names: &[Bytes],
) -> Result<(), NoMemory>
    ensures { OnOk result ((note : List ℕ) × IsNearestNote name.now names.now note × (text.new ≡ text.old ++ note)) }
{
    let found = nearest_name(alloc, name, names)?;
    match found {
        Some(i) => {
            let near = name_at(names, i);
            put_question(text, near)
        }
        None => Ok(()),
    }
}

/// Puts a line last that asks for one of these names instead of the word that begins at a place of a text, if one is near: as `nearest_name`
/// says, which it costs.
pub fn put_word_note(
    text: &mut Bytes,
    alloc: Global,
    names: &[Bytes],
    bytes: &[u8],
    at: usize,
) -> Result<(), NoMemory>
    requires { at ≤ length bytes.now }
    ensures { OnOk result ((note : List ℕ) × IsWordNote names.now bytes.now at note × (text.new ≡ text.old ++ note)) }
{
    match token_here(bytes, at) {
        Some(word) => put_nearest_note(text, alloc, word, names),
        None => Ok(()),
    }
}

/// Whether a token is a word.
fn is_word(kind: TokenKind) -> bool
    ensures { result ≡ is_word kind }
{
    match kind {
        TokenKind::Word => true,
        TokenKind::Open => false,
        TokenKind::Close => false,
    }
}

/// Whether two words are the same.
pub(crate) fn are_same(a: &[u8], b: &[u8]) -> bool
    ensures { result ≡ are_same a.now b.now }
{
    a == b
}

/// The bytes of a token.
fn token_bytes(text: &[u8], token: Token) -> &[u8]
    requires { token.at + token.len ≤ length text.now }
    ensures { result.now ≡ token_bytes text.now token }
{
    &text[token.at as usize..(token.at + token.len) as usize]
}

/// Puts a token's bytes last, if it is a word that begins before a place and isn't this name.
fn push_other(
    words: &mut Items<Bytes>,
    alloc: Global,
    text: &[u8],
    at: u64,
    name: &[u8],
    token: Token,
) -> Result<(), NoMemory>
    requires { token.at + token.len ≤ length text.now }
    ensures { OnOk result (words.new ≡ words.old ++ other_word text.now at name.now token) }
{
    let word = token_bytes(text, token);
    if is_word(token.kind) && token.at < at && !are_same(word, name) {
        words.push(Items::from_slice(alloc, word)?)?;
    }
    Ok(())
}

/// The words of a text that begin before a place and aren't this name, whatever they name: the reader keeps no names when it refuses a file.
fn other_words(alloc: Global, text: &[u8], at: u64, name: &[u8]) -> Result<Items<Bytes>, NoMemory>
    ensures { IfOk result (λ words. words ≡ other_words text.now at name.now (tokens_from 0 text.now)) }
{
    let mut words = Items::new(alloc);
    let mut from = 0;
    while let Some(token) = next_token(text, from) {
        push_other(&mut words, alloc, text, at, name, token)?;
        from = token.at + token.len;
    }
    Ok(words)
}

/// Puts a line last that asks for another word of a text instead of this one: the nearest of those that begin before a place, if one is near.
/// For a word of more bytes than a name has it puts nothing, so that a file of a few long words takes no longer than one of many short ones.
fn put_other_note(
    text: &mut Bytes,
    alloc: Global,
    bytes: &[u8],
    at: usize,
    word: &[u8],
) -> Result<(), NoMemory>
    ensures { OnOk result ((note : List ℕ) × IsOtherNote bytes.now at word.now note × (text.new ≡ text.old ++ note)) }
{
    if word.len() > NAME_BYTES {
        return Ok(());
    }
    let words = other_words(alloc, bytes, at as u64, word)?;
    put_nearest_note(text, alloc, word, words.items())
}

/// Puts a line last that asks for another word of a text instead of the one that begins at a place: the nearest of those before it, if one
/// is near. A word of more than 255 bytes, which is no name, gets none. It goes over the whole text, copies the words before the place, and
/// compares each of them with the one at the place, so that it takes time in the text's length times that of a name, and memory in the text's.
pub fn put_near_note(
    text: &mut Bytes,
    alloc: Global,
    bytes: &[u8],
    at: usize,
) -> Result<(), NoMemory>
    requires { at ≤ length bytes.now }
    ensures { OnOk result ((note : List ℕ) × IsNearNote bytes.now at note × (text.new ≡ text.old ++ note)) }
{
    match token_here(bytes, at) {
        Some(word) => put_other_note(text, alloc, bytes, at, word),
        None => Ok(()),
    }
}
