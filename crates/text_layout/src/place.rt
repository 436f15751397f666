ghost use Rattle.std.specs.Prelude.{◌≡◌, ◌≤◌, ◌+◌, length, slice_index};
ghost use Rattle.text_layout.specs.Places.{IsLineStart, IsPlace, begins_character, characters, ends_line, line_ends};

/// Where a byte of a text is. Both numbers count from 1.
#[derive(Clone, Copy, Debug, PartialEq, Eq)]
pub struct Place {
    /// One more than the line ends before the byte. A line feed ends a line, and a carriage return does, but the two together end one.
    pub line: u64,
    /// One more than the characters that begin before the byte in its line. A tab is one character, and a byte within a character has the
    /// column after the character's own.
    pub column: u64,
}

/// The byte at a place, and 0 past the end.
pub fn byte_at(text: &[u8], i: usize) -> u8
    ensures { result ≡ slice_index text.now i }
{
    match text.get(i) {
        Some(b) => *b,
        None => 0,
    }
}

/// Whether the byte at a place is the last one of a line end.
fn ends_line(text: &[u8], i: usize) -> bool
    requires { i ≤ length text.now }
    ensures { result ≡ ends_line text.now i }
{
    let byte = byte_at(text, i);
    byte == 10 || (byte == 13 && byte_at(text, i + 1) != 10)
}

/// How many line ends are before a byte.
fn line_ends(text: &[u8], at: usize) -> u64
    requires { at ≤ length text.now }
    ensures count { result ≡ line_ends text.now at }
    ensures few { result ≤ at }
{
    let mut count = 0;
    for i in 0..at {
        if ends_line(text, i) {
            count += 1;
        }
    }
    count
}

/// The place of the first byte of the line of a byte.
pub(crate) fn line_start(text: &[u8], at: usize) -> usize
    requires { at ≤ length text.now }
    ensures { IsLineStart text.now at result }
{
    let mut start = 0;
    for i in 0..at {
        if ends_line(text, i) {
            start = i + 1;
        }
    }
    start
}

/// Whether a byte is the first one of a character in UTF-8: it doesn't go on from another. It takes constant time, and no memory.
pub fn begins_character(byte: u8) -> bool
    ensures { result ≡ begins_character byte }
{
    byte < 128 || 192 <= byte
}

/// How many characters begin in the bytes. It goes over them once, and takes no memory.
pub fn characters(bytes: &[u8]) -> usize
    ensures count { result ≡ characters bytes.now }
    ensures few { result ≤ length bytes.now }
{
    let mut count = 0;
    for b in bytes {
        if begins_character(*b) {
            count += 1;
        }
    }
    count
}

/// The line and the column of the byte at `at`, or of the end of the text. It goes over the bytes before it, and takes no memory.
///
/// ```text
/// place_of(b"one\r\ntwo\rthree", 10)     // line 3, column 2
/// ```
pub fn place_of(text: &[u8], at: usize) -> Place
    requires { at ≤ length text.now }
    ensures { IsPlace text.now at result.line result.column }
{
    let start = line_start(text, at);
    Place {
        line: line_ends(text, at) + 1,
        column: characters(&text[start..at]) as u64 + 1,
    }
}
