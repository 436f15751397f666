ghost use Rattle.std.specs.Prelude.{◌≡◌, ◌+◌, ◌-◌, ◌≤◌, ◌<◌, ◌==◌, ◌∷◌, [], drop, length, slice_index, IsTrue, MatchOption, IfSome};
ghost use Rattle.snd_tokens.specs.Tokens.{IsTokenOf, run_length, starts_token, token_of, tokens_from};

use crate::find::find_byte;
use net_core::word_bytes::{is_space, is_word_byte};

/// What a token is.
#[derive(Clone, Copy, Debug, PartialEq, Eq)]
pub enum TokenKind {
    /// Bytes that are neither white space nor parentheses.
    Word,
    /// `(`
    Open,
    /// `)`
    Close,
}

/// A token: what it is, the place of its first byte, and how many bytes it has.
#[derive(Clone, Copy, Debug, PartialEq, Eq)]
pub struct Token {
    pub kind: TokenKind,
    pub at: u64,
    pub len: u64,
}

/// The place after the word bytes from `from` on.
fn word_end(bytes: &[u8], from: usize) -> usize
    requires { from ≤ length bytes.now }
    ensures value { result ≡ from + run_length (drop from bytes.now) }
    ensures within { result ≤ length bytes.now }
{
    for at in from..bytes.len() {
        if !is_word_byte(bytes[at]) {
            return at;
        }
    }
    bytes.len()
}

/// The place where the next token begins, or the end.
fn token_start(bytes: &[u8], from: usize) -> usize
    requires { from ≤ length bytes.now }
    ensures range { (from ≤ result) × (result ≤ length bytes.now) }
    ensures same { tokens_from from bytes.now ≡ tokens_from result bytes.now }
    ensures start { result < length bytes.now
        → IsTrue (starts_token (slice_index bytes.now result)) }
{
    let mut at = from;
    while at < bytes.len() {
        let first = bytes[at];
        if first == b'#' {
            at = find_byte(bytes, b'\n', at + 1);
        } else if is_space(first) {
            at += 1;
        } else {
            return at;
        }
    }
    at
}

/// The token that begins at `at`.
fn token_at(bytes: &[u8], at: usize) -> Token
    requires within { at < length bytes.now }
    requires start { IsTrue (starts_token (slice_index bytes.now at)) }
    ensures first { tokens_from at bytes.now
        ≡ result ∷ tokens_from (result.at + result.len) bytes.now }
    ensures token { IsTokenOf at bytes.now result }
{
    if bytes[at] == b'(' {
        return token_between(TokenKind::Open, at, at + 1);
    }
    if bytes[at] == b')' {
        return token_between(TokenKind::Close, at, at + 1);
    }
    token_between(TokenKind::Word, at, word_end(bytes, at + 1))
}

fn token_between(kind: TokenKind, at: usize, end: usize) -> Token
    requires { at ≤ end }
    ensures { result ≡ token_of kind at (end - at) }
{
    Token {
        kind,
        at: at as u64,
        len: (end - at) as u64,
    }
}

/// The first token of what is left from a place on, read as if the text began there. It goes over the bytes from
/// there to the end of the token, and asks for no memory.
///
/// ```text
/// next_token(b"  NODES ( A )", 0);    // Some(Token { kind: TokenKind::Word, at: 2, len: 5 })
/// next_token(b"  NODES ( A )", 7);    // Some(Token { kind: TokenKind::Open, at: 8, len: 1 })
/// next_token(b"A # a comment", 1);    // None
/// ```
pub fn next_token(bytes: &[u8], from: u64) -> Option<Token>
    requires { from ≤ length bytes.now }
    ensures first { MatchOption result (tokens_from from bytes.now ≡ [])
        (λ t. tokens_from from bytes.now ≡ t ∷ tokens_from (t.at + t.len) bytes.now) }
    ensures token { IfSome result (λ t. IsTokenOf from bytes.now t) }
{
    let at = token_start(bytes, from as usize);
    if at == bytes.len() {
        return None;
    }
    Some(token_at(bytes, at))
}
