ghost use Rattle.std.specs.Prelude.{◌≡◌, ◌≤◌, length};
ghost use Rattle.snd_tokens.specs.Lexemes.{IsNext, left, text_from};

use crate::cursor::Cursor;
use crate::token::{TokenKind, next_token};

/// What comes next in a text, at its place: a word with its bytes, a parenthesis, or the end.
#[derive(Clone, Copy)]
pub enum Next<'a> {
    /// A word, with its bytes.
    Word(u64, &'a [u8]),
    /// `(`
    Open(u64),
    /// `)`
    Close(u64),
    /// The end, at the length of the text.
    End(u64),
}

/// What comes next at a place, and the place after it.
#[tactic(auto, unfolding(crate::specs::Lexemes::text_from))]
fn next_from(bytes: &[u8], from: u64) -> (Next<'_>, u64)
    requires { from ≤ length bytes.now }
    ensures next { IsNext result.0 (text_from from bytes.now) (text_from result.1 bytes.now) }
    ensures within { result.1 ≤ length bytes.now }
{
    let Some(token) = next_token(bytes, from) else {
        return (Next::End(bytes.len() as u64), from);
    };
    let end = token.at + token.len;
    match token.kind {
        TokenKind::Open => (Next::Open(token.at), end),
        TokenKind::Close => (Next::Close(token.at), end),
        TokenKind::Word => (
            Next::Word(token.at, &bytes[token.at as usize..end as usize]),
            end,
        ),
    }
}

impl<'a> Cursor<'a> {
    /// The text from a place on, without a copy, in constant time.
    pub fn new(bytes: &'a [u8], at: u64) -> Cursor<'a>
        requires { at ≤ length bytes.now }
        ensures { left result ≡ text_from at bytes.now }
    {
        Cursor { bytes, at }
    }

    /// Takes what comes next; at the end it stays. It goes over the bytes up to the place after what it takes, and
    /// asks for no memory.
    pub fn next(&mut self) -> Next<'a>
        ensures { IsNext result (left self.old) (left self.new) }
    {
        let (next, at) = next_from(self.bytes, self.at);
        self.at = at;
        next
    }
}
