ghost use Rattle.std.specs.Prelude.{◌≡◌, ◌+◌, ◌<◌, ◌≤◌, drop, false, length, slice_index};
ghost use Rattle.net_core.specs.Terms.{is_space};
ghost use Rattle.snd_tokens.specs.Terms.{line_length};
ghost use Rattle.tree_reader.{specs.CommentTexts.{IsNextLine, comments_from}, specs.LineEnds.EndsAfter};

use net_core::word_bytes::is_space;
use snd_tokens::Cursor;

/// What comes next below a report.
#[derive(Clone, Copy)]
pub(crate) enum NextLine<'a> {
    /// A comment line: the words after its `#`, and the place where it ends.
    Comment(Cursor<'a>, u64),
    /// Something else, at a place.
    Other(u64),
    /// The end.
    End(u64),
}

/// The place of the first byte at `from` or after it that is no white space, or the end.
fn line_start(bytes: &[u8], from: usize) -> usize
    requires { from ≤ length bytes.now }
    ensures same { comments_from from bytes.now ≡ comments_from result bytes.now }
    ensures after { from ≤ result }
    ensures within { result ≤ length bytes.now }
    ensures start { result < length bytes.now → is_space (slice_index bytes.now result) ≡ false }
{
    let mut at = from;
    while at < bytes.len() {
        if is_space(bytes[at]) {
            at += 1;
        } else {
            return at;
        }
    }
    at
}

/// The place where the line ends that goes on at a place.
fn line_end(bytes: &[u8], from: usize) -> usize
    requires { from ≤ length bytes.now }
    ensures value { result ≡ from + line_length (drop from bytes.now) }
    ensures within { result ≤ length bytes.now }
{
    for at in from..bytes.len() {
        if bytes[at] == b'\n' {
            return at;
        }
    }
    bytes.len()
}

/// What comes next at a place or after it. It goes over the bytes up to the end of the line.
pub(crate) fn next_line(bytes: &[u8], from: u64) -> NextLine<'_>
    requires { from ≤ length bytes.now }
    ensures next { IsNextLine bytes.now result (comments_from from bytes.now) }
    ensures after { EndsAfter from result }
{
    let at = line_start(bytes, from as usize);
    if at == bytes.len() {
        return NextLine::End(at as u64);
    }
    if bytes[at] != b'#' {
        return NextLine::Other(at as u64);
    }
    let end = line_end(bytes, at + 1);
    NextLine::Comment(Cursor::new(&bytes[..end], at as u64 + 1), end as u64)
}
