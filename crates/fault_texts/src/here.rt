ghost use Rattle.std.specs.Prelude.{◌≡◌, ◌≤◌, ◌++◌, ℕ, List, MatchOption, OnOk, codes, length};
ghost use Rattle.fault_texts.specs.Quotes.{BeginsToken, IsHere, IsQuote, end_text, note_text};

use crate::message::put_note;
use crate::quote::put_quote;
use net_core::{Bytes, NoMemory};
use snd_tokens::next_token;

/// The bytes of the token that begins at a place, as if the text began there: a word, or a parenthesis. It takes no memory, and time in the
/// bytes up to the end of the next token.
#[tactic(auto, using(crate::proofs::Tokens::no_token, crate::proofs::Tokens::later_token, crate::proofs::Tokens::this_token))]
pub fn token_here(text: &[u8], at: usize) -> Option<&[u8]>
    requires { at ≤ length text.now }
    ensures { MatchOption result ((word : List ℕ) → BeginsToken text.now at word → ⊥) (λ w. BeginsToken text.now at w.now) }
{
    let token = next_token(text, at as u64)?;
    if token.at != at as u64 {
        return None;
    }
    Some(&text[at..(token.at + token.len) as usize])
}

/// Puts a line last that says which word is here.
fn put_word_here(text: &mut Bytes, word: &[u8]) -> Result<(), NoMemory>
    ensures { OnOk result ((quote : List ℕ) × IsQuote word.now quote × (text.new ≡ text.old ++ note_text (codes "here stands " ++ quote))) }
{
    text.append(b"  here stands ")?;
    put_quote(text, word)?;
    text.append(b"\n")
}

/// Puts a line last that says that a text ends here, if it does.
fn put_end(text: &mut Bytes, ended: bool) -> Result<(), NoMemory>
    ensures { OnOk result (text.new ≡ text.old ++ end_text ended) }
{
    if ended {
        put_note(text, "the file ends here")
    } else {
        Ok(())
    }
}

/// Puts a line last that says which word begins at a byte of a text, or that the text ends there; nothing where neither is so.
pub(crate) fn put_here(text: &mut Bytes, bytes: &[u8], at: usize) -> Result<(), NoMemory>
    requires { at ≤ length bytes.now }
    ensures { OnOk result ((here : List ℕ) × IsHere bytes.now at here × (text.new ≡ text.old ++ here)) }
{
    match token_here(bytes, at) {
        Some(word) => put_word_here(text, word),
        None => put_end(text, at == bytes.len()),
    }
}
