ghost use Rattle.std.specs.Prelude.{◌≡◌, ◌≤◌, ◌<◌, ◌+◌, length};
ghost use Rattle.text_layout.specs.Windows.{IsFirstCharacter, IsWindow, IsWindowEnd, IsWindowStart, is_break, stops_before};

use crate::place::{begins_character, line_start};

/// A part of one line.
#[derive(Clone, Copy, Debug, PartialEq, Eq)]
pub struct Window {
    /// The place of its first byte.
    pub from: usize,
    /// The place after its last byte.
    pub to: usize,
}

/// How many bytes a window has at most before a byte, and about how many from it on.
const REACH: usize = 60;

/// How many bytes a window has at most from its byte on: the last character is whole.
const MOST: usize = 64;

/// The first byte from a place on that begins a character, or `at`.
fn first_character(text: &[u8], least: usize, at: usize) -> usize
    requires order { least ≤ at }
    requires within { at ≤ length text.now }
    ensures { IsFirstCharacter text.now least at result }
{
    for i in least..at {
        if begins_character(text[i]) {
            return i;
        }
    }
    at
}

/// Where the window of a byte begins.
fn window_start(text: &[u8], at: usize) -> usize
    requires { at ≤ length text.now }
    ensures { IsWindowStart text.now at result }
{
    let start = line_start(text, at);
    if at - start <= REACH {
        start
    } else {
        first_character(text, at - REACH, at)
    }
}

/// Whether a byte ends a line, or begins its end.
fn is_break(byte: u8) -> bool
    ensures { result ≡ is_break byte }
{
    byte == 10 || byte == 13
}

/// Whether the window of a byte ends before another.
fn stops_before(text: &[u8], at: usize, i: usize) -> bool
    requires within { i < length text.now }
    requires order { at ≤ i }
    ensures { result ≡ stops_before text.now at i }
{
    is_break(text[i]) || (i - at >= REACH && begins_character(text[i]))
}

/// Where the window of a byte ends.
fn window_end(text: &[u8], at: usize) -> usize
    requires { at ≤ length text.now }
    ensures { IsWindowEnd text.now at result }
{
    let most = at + MOST.min(text.len() - at);
    for i in at..most {
        if stops_before(text, at, i) {
            return i;
        }
    }
    most
}

/// The part of the byte's line around it: the whole line, but at most 60 bytes before the byte, and from it on at most 64. It
/// begins and ends between characters. It goes over the bytes before the byte and those that follow in the window, and takes no memory.
pub fn window_of(text: &[u8], at: usize) -> Window
    requires { at ≤ length text.now }
    ensures { IsWindow text.now at result.from result.to }
{
    Window {
        from: window_start(text, at),
        to: window_end(text, at),
    }
}
