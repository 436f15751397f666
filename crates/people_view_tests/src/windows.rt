use crate::quotes::put_many;
use net_core::{Bytes, List, NoMemory};
use std::alloc::Global;
use text_layout::window_of;

/// What comes before a byte in its line: how many times which bytes, and then others.
type Before = (usize, &'static [u8], &'static [u8]);

/// What a line has from a byte on: some bytes, and then how many times which others.
type After = (&'static [u8], usize, &'static [u8]);

/// A line around a byte, and how many bytes of it the window has before the byte, and from it on.
type WindowRow = (Before, After, (usize, usize));

/// Lines that are empty, as long as a window, longer, and of characters of two to four bytes, which are never cut; and bytes that begin no
/// character.
const WINDOWS: [WindowRow; 13] = [
    ((0, b"a", b""), (b"", 0, b"a"), (0, 0)),
    ((0, b"a", b""), (b"b", 0, b"a"), (0, 1)),
    ((59, b"a", b""), (b"", 59, b"b"), (59, 59)),
    ((60, b"a", b""), (b"", 60, b"b"), (60, 60)),
    ((61, b"a", b""), (b"", 61, b"b"), (60, 60)),
    ((100, b"a", b""), (b"", 100, b"b"), (60, 60)),
    ((40, b"\xc3\xbc", b""), (b"", 40, b"\xc3\xbc"), (60, 60)),
    ((40, b"\xc3\xbc", b"a"), (b"b", 40, b"\xc3\xbc"), (59, 61)),
    (
        (30, b"\xe2\x82\xac", b"a"),
        (b"b", 30, b"\xe2\x82\xac"),
        (58, 61),
    ),
    (
        (30, b"\xe2\x82\xac", b"aa"),
        (b"bb", 30, b"\xe2\x82\xac"),
        (59, 62),
    ),
    (
        (20, b"\xf0\x9f\x98\x80", b"a"),
        (b"b", 20, b"\xf0\x9f\x98\x80"),
        (57, 61),
    ),
    (
        (20, b"\xf0\x9f\x98\x80", b"aaa"),
        (b"bbb", 20, b"\xf0\x9f\x98\x80"),
        (59, 63),
    ),
    ((100, b"\x80", b""), (b"", 100, b"\x80"), (0, 64)),
];

/// Puts the line of a row between two others. The place of its byte.
fn put_lines(text: &mut Bytes, row: &WindowRow) -> Result<usize, NoMemory> {
    text.append(b"x\n")?;
    put_many(text, row.0.1, row.0.0)?;
    text.append(row.0.2)?;
    let at = text.len();
    text.append(row.1.0)?;
    put_many(text, row.1.2, row.1.1)?;
    text.append(b"\r\ny")?;
    Ok(at)
}

/// Whether the window of a row is the expected one.
fn is_right(alloc: Global, row: &WindowRow) -> Result<bool, NoMemory> {
    let mut text = List::new(alloc);
    let at = put_lines(&mut text, row)?;
    if at > text.len() {
        return Ok(false);
    }
    let window = window_of(text.items(), at);
    Ok(window.from.checked_add(row.2.0) == Some(at) && at.checked_add(row.2.1) == Some(window.to))
}

/// The first row whose window isn't the expected one.
fn first_wrong(alloc: Global) -> Option<usize> {
    for i in 0..WINDOWS.len() {
        if is_right(alloc, &WINDOWS[i]) != Ok(true) {
            return Some(i);
        }
    }
    None
}

#[test]
fn windows_are_parts_of_a_line_between_characters(rt: HostRuntime) {
    let wrong = first_wrong(rt.alloc());
    assert!(rt; wrong.is_none(), "row {}", wrong.unwrap_or(0));
}
