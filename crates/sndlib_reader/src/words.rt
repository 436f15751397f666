ghost use Rattle.std.specs.Prelude.{◌≡◌, ◌<◌, ◌^◌, IfOk};
ghost use Rattle.snd_tokens.specs.Terms.{left};
ghost use Rattle.text_kit.specs.Terms.{ReadsAs, word_at};
ghost use Rattle.sndlib_reader.specs.Reading.{amount, known_name};

use crate::fault::{Limited, ReadKind, ReadRefusal};
use crate::names::Names;
use net_core::Places;
use snd_tokens::Cursor;
use text_kit::names::is_long;
use text_kit::steps::{placed, word};

/// The amount of a word, in units of a network with these places.
pub(crate) fn amount_of(places: Places, word: &[u8]) -> Result<u64, ReadKind>
    ensures value { result ≡ amount places word.now }
    ensures small { IfOk result (λ n. n < 2 ^ 40) }
{
    match snd_tokens::amount(word, places) {
        Ok(amount) => Ok(amount),
        Err(fault) => Err(ReadKind::Number(fault)),
    }
}

/// Takes an amount, in units of a network with these places.
pub(crate) fn amount(places: Places, text: &mut Cursor) -> Result<u64, ReadRefusal>
    ensures { ReadsAs (λ n. n) result (left text.new) (word_at ReadKind.Token ReadKind.Ended (amount places) (left text.old)) }
{
    let (at, word) = word(ReadKind::Token, ReadKind::Ended, text)?;
    placed(at, amount_of(places, word))
}

/// Tests a word as one of these names.
fn known_name(names: &Names, word: &[u8]) -> Result<(), ReadKind>
    ensures { result ≡ known_name names.now word.now }
{
    if is_long(word) {
        return Err(ReadKind::Limit(Limited::Name));
    }
    if !names.has(word) {
        return Err(ReadKind::UnknownName);
    }
    Ok(())
}

/// Takes one of these names.
pub(crate) fn known(names: &Names, text: &mut Cursor) -> Result<(), ReadRefusal>
    ensures { ReadsAs (λ _. tt) result (left text.new) (word_at ReadKind.Token ReadKind.Ended (known_name names.now) (left text.old)) }
{
    let (at, word) = word(ReadKind::Token, ReadKind::Ended, text)?;
    placed(at, known_name(names, word))
}
