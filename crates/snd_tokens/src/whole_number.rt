ghost use Rattle.std.specs.Prelude.{◌≡◌, ◌^◌, ◌<◌, [], ◌∷◌, IfOk, bytes_eq};
ghost use Rattle.snd_tokens.specs.Wholes.{begins_with_zero, is_whole, whole_of};

use crate::digits::{are_digits, number_below};
use thiserror::Error;

/// Why a word is no whole number.
#[derive(Clone, Copy, Debug, PartialEq, Eq, Error)]
pub enum WholeFault {
    /// It is neither `0` nor digits that begin with another digit.
    #[error("not a whole number")]
    NotANumber,
    /// Its value is 2^126 or above.
    #[error("a whole number that is too large")]
    TooLarge,
}

/// A whole number is below this.
const WHOLE_LIMIT: u128 = 1 << 126;

fn begins_with_zero(word: &[u8]) -> bool
    ensures { result ≡ begins_with_zero word.now }
{
    match word {
        [] => false,
        [first, ..] => *first == b'0',
    }
}

fn is_zero(word: &[u8]) -> bool
    ensures { result ≡ bytes_eq word.now (48 ∷ []) }
{
    let zero: &[u8] = b"0";
    word == zero
}

fn is_whole(word: &[u8]) -> bool
    ensures { result ≡ is_whole word.now }
{
    is_zero(word) || are_digits(word) && !begins_with_zero(word)
}

/// The value of a whole number. It goes over the word at most three times, and asks for no memory.
///
/// ```text
/// whole(b"42");     // Ok(42)
/// whole(b"042");    // Err(WholeFault::NotANumber)
/// ```
#[tactic(auto, unfolding(crate::specs::Wholes::whole_of))]
pub fn whole(word: &[u8]) -> Result<u128, WholeFault>
    ensures value { result ≡ whole_of word.now }
    ensures small { IfOk result (λ n. n < 2 ^ 126) }
{
    if !is_whole(word) {
        return Err(WholeFault::NotANumber);
    }
    number_below(0, word, WHOLE_LIMIT).ok_or(WholeFault::TooLarge)
}
