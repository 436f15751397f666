use fault_texts::put_quote;
use net_core::{Bytes, List, NoMemory};
use std::alloc::Global;

/// Bytes, how many times they occur in a word, and how its quote goes on after the first backquote: bytes, how many times, and the end.
type QuoteRow = (
    (&'static [u8], usize),
    (&'static [u8], usize),
    &'static [u8],
);

/// Words of forty characters and of more, of one byte to four; and control characters and bytes that aren't UTF-8.
const QUOTES: [QuoteRow; 11] = [
    ((b"x", 1), (b"x", 1), b"`"),
    ((b"x", 40), (b"x", 40), b"`"),
    ((b"x", 41), (b"x", 40), b"..`"),
    ((b"\xc3\xbc", 40), (b"\xc3\xbc", 40), b"`"),
    ((b"\xc3\xbc", 41), (b"\xc3\xbc", 40), b"..`"),
    ((b"\xf0\x9f\x98\x80", 41), (b"\xf0\x9f\x98\x80", 40), b"..`"),
    ((b"\x80", 160), (b"\\x80", 160), b"`"),
    ((b"\x80", 161), (b"\\x80", 160), b"..`"),
    ((b"\x07", 2), (b"\\x07", 2), b"`"),
    ((b"\xc2\x9b", 2), (b"\\xc2\\x9b", 2), b"`"),
    ((b"\xc2\xa0", 1), (b"\xc2\xa0", 1), b"`"),
];

/// Puts bytes this many times.
pub(crate) fn put_many(text: &mut Bytes, bytes: &[u8], count: usize) -> Result<(), NoMemory> {
    for _put in 0..count {
        text.append(bytes)?;
    }
    Ok(())
}

/// The word of a row.
fn word_of(alloc: Global, row: &QuoteRow) -> Result<Bytes, NoMemory> {
    let mut word = List::new(alloc);
    put_many(&mut word, row.0.0, row.0.1)?;
    Ok(word)
}

/// The quote that the row expects.
fn wanted(alloc: Global, row: &QuoteRow) -> Result<Bytes, NoMemory> {
    let mut quote = List::from_slice(alloc, b"`")?;
    put_many(&mut quote, row.1.0, row.1.1)?;
    quote.append(row.2)?;
    Ok(quote)
}

/// Whether the quote of a row is the expected one.
fn is_right(alloc: Global, row: &QuoteRow) -> Result<bool, NoMemory> {
    let word = word_of(alloc, row)?;
    let mut quote = List::new(alloc);
    put_quote(&mut quote, word.items())?;
    Ok(quote.items() == wanted(alloc, row)?.items())
}

/// The first row whose quote isn't the expected one.
fn first_wrong(alloc: Global) -> Option<usize> {
    for i in 0..QUOTES.len() {
        if is_right(alloc, &QUOTES[i]) != Ok(true) {
            return Some(i);
        }
    }
    None
}

#[test]
fn quotes_are_short_and_plain(rt: HostRuntime) {
    let wrong = first_wrong(rt.alloc());
    assert!(rt; wrong.is_none(), "row {}", wrong.unwrap_or(0));
}
