ghost use Rattle.std.{specs.Prelude.{◌≡◌, ◌≤◌, ◌<◌, ◌++◌, ◌==◌, ℕ, List, OnOk, [], codes, cond, length}, specs.Str.is_utf8};
ghost use Rattle.fault_texts.specs.Quotes.{IsQuoteEnd, IsQuote, escape, hex_digit, quote_text, quoted, quoted_below, quoted_byte};

use crate::control::is_control;
use net_core::{Bytes, NoMemory};
use text_layout::begins_character;

/// How many characters of a word are shown at most.
const MOST_CHARACTERS: usize = 40;

/// How many bytes of a word are shown at most: those of forty characters of four bytes.
const MOST_BYTES: usize = 160;

/// The digit of a number below 16.
fn hex_digit(n: u8) -> u8
    requires { n < 16 }
    ensures { result ≡ hex_digit n }
{
    if n < 10 { 48 + n } else { 87 + n }
}

/// Puts a byte last as an escape, as in `\x1b`.
fn put_escape(text: &mut Bytes, byte: u8) -> Result<(), NoMemory>
    ensures { OnOk result (text.new ≡ text.old ++ escape byte) }
{
    text.append(&[92, 120, hex_digit(byte / 16), hex_digit(byte % 16)])
}

/// Whether bytes are UTF-8.
fn is_utf8(bytes: &[u8]) -> bool
    ensures { result ≡ is_utf8 bytes.now }
{
    match std::str::from_utf8(bytes) {
        Ok(_) => true,
        Err(_) => false,
    }
}

/// Puts a byte of a word last: itself, or as an escape.
fn put_quoted_byte(text: &mut Bytes, utf8: bool, word: &[u8], i: usize) -> Result<(), NoMemory>
    requires { i < length word.now }
    ensures { OnOk result (text.new ≡ text.old ++ quoted_byte utf8 word.now i) }
{
    if is_control(word, i) || (!utf8 && 128 <= word[i]) {
        put_escape(text, word[i])
    } else {
        text.append(&[word[i]])
    }
}

/// Puts the bytes of a word last, which is UTF-8 or isn't.
fn put_bytes(text: &mut Bytes, utf8: bool, word: &[u8]) -> Result<(), NoMemory>
    ensures { OnOk result (text.new ≡ text.old ++ quoted_below (length word.now) utf8 word.now) }
{
    for i in 0..word.len() {
        put_quoted_byte(text, utf8, word, i)?;
    }
    Ok(())
}

/// Puts the bytes of a word last, with escapes for those that are of control characters; and, where they aren't UTF-8, for all but ASCII.
fn put_quoted(text: &mut Bytes, word: &[u8]) -> Result<(), NoMemory>
    ensures { OnOk result (text.new ≡ text.old ++ quoted word.now) }
{
    let utf8 = is_utf8(word);
    put_bytes(text, utf8, word)
}

/// The place up to which a word is shown.
fn quote_end(word: &[u8]) -> usize
    ensures { IsQuoteEnd word.now result }
{
    let most = MOST_BYTES.min(word.len());
    let mut count = 0;
    for i in 0..most {
        if begins_character(word[i]) {
            if count == MOST_CHARACTERS {
                return i;
            }
            count += 1;
        }
    }
    most
}

/// What is put after the first bytes of a word.
fn dots(word: &[u8], end: usize) -> &'static [u8]
    ensures { result.now ≡ cond (end == length word.now) [] (codes "..") }
{
    if end == word.len() { b"" } else { b".." }
}

/// Puts the first bytes of a word last, in quotes.
fn put_front(text: &mut Bytes, word: &[u8], end: usize) -> Result<(), NoMemory>
    requires { end ≤ length word.now }
    ensures { OnOk result (text.new ≡ text.old ++ quote_text word.now end) }
{
    text.append(b"`")?;
    put_quoted(text, &word[..end])?;
    text.append(dots(word, end))?;
    text.append(b"`")
}

/// Puts a word last, between backquotes: at most 40 characters of it, with two points where it goes on, and with escapes as `\x1b` for the
/// bytes of control characters, and for all but ASCII where it isn't UTF-8. A terminal takes none of it for an order.
pub fn put_quote(text: &mut Bytes, word: &[u8]) -> Result<(), NoMemory>
    ensures { OnOk result ((quote : List ℕ) × IsQuote word.now quote × (text.new ≡ text.old ++ quote)) }
{
    let end = quote_end(word);
    put_front(text, word, end)
}
