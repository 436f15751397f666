use fault_messages::{nearest_name, put_near_note};
use net_core::{Bytes, List, NoMemory};
use std::alloc::Global;

/// A name, others, and the place of the nearest of them.
type NameRow = (&'static [u8], &'static [&'static [u8]], Option<usize>);

/// Names with letters exchanged, with a character of two bytes for one, and too short to have a near one; the first of two that are as near,
/// and the nearest of all; longer and shorter ones that are near, and one that is too long.
const NAMES: [NameRow; 10] = [
    (b"Hambrug", &[b"Berlin", b"Hamburg"], Some(1)),
    (b"Munchen", &[b"M\xc3\xbcnchen"], Some(0)),
    (b"AB", &[b"AC"], None),
    (b"ABC", &[b"ABD", b"ABE"], Some(0)),
    (b"ABC", &[b"XBD", b"ABE"], Some(1)),
    (b"ABCDEF", &[b"AXCDYF", b"ABCDE"], Some(1)),
    (b"N10", &[b"N11", b"N10"], Some(1)),
    (b"ABCDEF", &[b"ABCDEFGHI", b"ABCDEFGH"], Some(1)),
    (b"ABCDEFGHI", &[b"ABCDE", b"DEFGHI"], Some(1)),
    (b"N10", &[], None),
];

/// The names of a row.
fn names_of(alloc: Global, row: &NameRow) -> Result<List<Bytes>, NoMemory> {
    let mut names = List::new(alloc);
    for i in 0..row.1.len() {
        names.push(List::from_slice(alloc, row.1[i])?)?;
    }
    Ok(names)
}

/// Whether the nearest name of a row is the expected one.
fn is_right(alloc: Global, row: &NameRow) -> Result<bool, NoMemory> {
    let names = names_of(alloc, row)?;
    Ok(nearest_name(alloc, row.0, names.items())? == row.2)
}

/// The first row whose nearest name isn't the expected one.
fn first_wrong(alloc: Global) -> Option<usize> {
    for i in 0..NAMES.len() {
        if is_right(alloc, &NAMES[i]) != Ok(true) {
            return Some(i);
        }
    }
    None
}

#[test]
fn near_names_are_found(rt: HostRuntime) {
    let wrong = first_wrong(rt.alloc());
    assert!(rt; wrong.is_none(), "row {}", wrong.unwrap_or(0));
}

/// A text, the place of a name that nothing has, and the line that asks for a near one.
type NoteRow = (&'static [u8], usize, &'static [u8]);

/// A near word before the name; only the name itself, and a near one after it; and a place where no word begins.
const NOTES: [NoteRow; 4] = [
    (
        b"NODES ( Hamburg Berlin )\nLINKS ( L ( Hambrug",
        37,
        b"  did you mean `Hamburg`?\n",
    ),
    (b"( LONG ( LONG", 9, b""),
    (b"( Berlni Berlin", 2, b""),
    (b"Berlin # Berlni", 7, b""),
];

/// Whether the line of a row is the expected one.
fn is_note(alloc: Global, row: &NoteRow) -> Result<bool, NoMemory> {
    if row.1 > row.0.len() {
        return Ok(false);
    }
    let mut text = List::new(alloc);
    put_near_note(&mut text, alloc, row.0, row.1)?;
    Ok(text.items() == row.2)
}

/// The first row whose line isn't the expected one.
fn first_wrong_note(alloc: Global) -> Option<usize> {
    for i in 0..NOTES.len() {
        if is_note(alloc, &NOTES[i]) != Ok(true) {
            return Some(i);
        }
    }
    None
}

#[test]
fn lines_ask_for_words_before(rt: HostRuntime) {
    let wrong = first_wrong_note(rt.alloc());
    assert!(rt; wrong.is_none(), "row {}", wrong.unwrap_or(0));
}

/// How many bytes two words share, the place of the second, which has one more byte than that and ends with another byte than the first,
/// and the line that asks for the first: words of 255 bytes, as long as a name may be, and of 256.
const LONG: [(usize, usize, &[u8]); 2] = [
    (
        254,
        256,
        b"  did you mean `xxxxxxxxxxxxxxxxxxxxxxxxxxxxxxxxxxxxxxxx..`?\n",
    ),
    (255, 257, b""),
];

/// Two words that share this many bytes, and differ in the last one.
fn two_words(alloc: Global, shared: usize) -> Result<Bytes, NoMemory> {
    let same = List::filled(alloc, b'x', shared)?;
    let mut text = List::new(alloc);
    text.append(same.items())?;
    text.append(b"a ")?;
    text.append(same.items())?;
    text.append(b"b")?;
    Ok(text)
}

/// Whether the line of two long words is the expected one.
fn is_long_note(alloc: Global, shared: usize, at: usize, note: &[u8]) -> Result<bool, NoMemory> {
    let words = two_words(alloc, shared)?;
    if at > words.len() {
        return Ok(false);
    }
    let mut text = List::new(alloc);
    put_near_note(&mut text, alloc, words.items(), at)?;
    Ok(text.items() == note)
}

/// The first row of long words whose line isn't the expected one.
fn first_wrong_long(alloc: Global) -> Option<usize> {
    for i in 0..LONG.len() {
        if is_long_note(alloc, LONG[i].0, LONG[i].1, LONG[i].2) != Ok(true) {
            return Some(i);
        }
    }
    None
}

#[test]
fn lines_ask_for_words_that_may_be_names(rt: HostRuntime) {
    let wrong = first_wrong_long(rt.alloc());
    assert!(rt; wrong.is_none(), "row {}", wrong.unwrap_or(0));
}
