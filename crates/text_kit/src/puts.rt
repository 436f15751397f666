ghost use Rattle.std.specs.Prelude.{◌<◌, ◌^◌, ◌∷◌, [], OnOk};
ghost use Rattle.net_core.specs.Terms.{IsName};
ghost use Rattle.text_kit.{specs.Edits.ends_items, specs.Items.{Item, Verbatim, Whole, Money, Opening, Closing}, specs.Written.{AddsItems, money_word}};

use crate::write;
use net_core::{Bytes, Name, NoMemory, Places};

/// Puts a word of a format last. It costs what `write::put_word` does, and each function of this module
/// costs what those of `write` do that it calls.
pub fn put_keyword(text: &mut Bytes, word: &[u8]) -> Result<(), NoMemory>
    requires { IsName word.now }
    ensures { OnOk result (AddsItems text.old (Verbatim word.now ∷ []) text.new) }
{
    write::put_word(text, word)
}

/// Puts a name last.
pub fn put_name(text: &mut Bytes, name: &Name) -> Result<(), NoMemory>
    ensures { OnOk result (AddsItems text.old (Verbatim name.now ∷ []) text.new) }
{
    put_keyword(text, name.bytes())
}

/// Puts a whole number last.
pub fn put_whole(text: &mut Bytes, n: u128) -> Result<(), NoMemory>
    requires { n < 2 ^ 126 }
    ensures { OnOk result (AddsItems text.old (Whole n ∷ []) text.new) }
{
    write::put_whole(text, n)
}

/// Puts a whole number last.
pub fn put_number(text: &mut Bytes, n: u64) -> Result<(), NoMemory>
    ensures { OnOk result (AddsItems text.old (Whole n ∷ []) text.new) }
{
    put_whole(text, n as u128)
}

/// Puts units of a network with these places last, as an amount or money.
pub fn put_money(text: &mut Bytes, places: Places, n: u128) -> Result<(), NoMemory>
    requires { n < 2 ^ 126 }
    ensures { OnOk result (AddsItems text.old (Money places n ∷ []) text.new) }
{
    write::put_money(text, places, n)
}

/// Puts units of a network with these places last, as an amount. What is put is a word of its own too, as short as a name.
#[tactic(auto, using(crate::proofs::Adding::amount_short))]
pub fn put_amount(text: &mut Bytes, places: Places, n: u64) -> Result<(), NoMemory>
    ensures amount { OnOk result (AddsItems text.old (Money places n ∷ []) text.new) }
    ensures word { OnOk result (AddsItems text.old (Verbatim (money_word places n) ∷ []) text.new) }
{
    write::put_money(text, places, n as u128)
}

/// Puts an opening parenthesis last.
pub fn put_open(text: &mut Bytes) -> Result<(), NoMemory>
    ensures { OnOk result (AddsItems text.old (Opening ∷ []) text.new) }
{
    write::put_open(text)
}

/// Puts a closing parenthesis last, and ends the line.
pub fn put_close(text: &mut Bytes) -> Result<(), NoMemory>
    ensures { OnOk result (AddsItems text.old (Closing ∷ []) text.new) }
{
    write::put_close(text)
}

/// Puts a word of a format and a whole number last.
pub fn put_field(text: &mut Bytes, word: &[u8], n: u64) -> Result<(), NoMemory>
    requires { IsName word.now }
    ensures { OnOk result (AddsItems text.old (Verbatim word.now ∷ Whole n ∷ []) text.new) }
{
    put_keyword(text, word)?;
    put_number(text, n)
}

/// Puts the word of a section and its opening parenthesis last.
pub fn put_section(text: &mut Bytes, word: &[u8]) -> Result<(), NoMemory>
    requires { IsName word.now }
    ensures { OnOk result (AddsItems text.old (Verbatim word.now ∷ Opening ∷ []) text.new) }
{
    put_keyword(text, word)?;
    put_open(text)
}

/// Puts the names of two nodes last, between parentheses.
pub fn put_ends(text: &mut Bytes, from: &Name, to: &Name) -> Result<(), NoMemory>
    ensures { OnOk result (AddsItems text.old (ends_items from.now to.now) text.new) }
{
    put_open(text)?;
    put_name(text, from)?;
    put_name(text, to)?;
    put_close(text)
}
