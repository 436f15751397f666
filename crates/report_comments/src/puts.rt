ghost use Rattle.std.specs.Prelude.{◌∷◌, [], OnOk, flat_map};
ghost use Rattle.text_kit.specs.Terms.{Verbatim, Whole, Opening, Closing, enclosed};
ghost use Rattle.report_comments.specs.Comments.{AddsSpaced, IsOneLine};

use net_core::{Bytes, NoMemory};
use text_kit::write::put_decimal;

/// Appends a word after a space. Each function of this module takes time in the bytes that it appends, and asks for memory only if the text
/// has no room left; if memory runs out, the text may end with a part of them.
pub fn put_word(text: &mut Bytes, word: &[u8]) -> Result<(), NoMemory>
    requires { IsOneLine word.now }
    ensures { OnOk result (AddsSpaced text.old (Verbatim word.now ∷ []) text.new) }
{
    text.append(b" ")?;
    text.append(word)
}

/// Appends a whole number after a space.
pub fn put_whole(text: &mut Bytes, n: u128) -> Result<(), NoMemory>
    ensures { OnOk result (AddsSpaced text.old (Whole n ∷ []) text.new) }
{
    text.append(b" ")?;
    put_decimal(text, n)
}

/// Appends an opening parenthesis after a space.
pub fn put_open(text: &mut Bytes) -> Result<(), NoMemory>
    ensures { OnOk result (AddsSpaced text.old (Opening ∷ []) text.new) }
{
    text.append(b" (")
}

/// Appends a closing parenthesis after a space.
pub fn put_close(text: &mut Bytes) -> Result<(), NoMemory>
    ensures { OnOk result (AddsSpaced text.old (Closing ∷ []) text.new) }
{
    text.append(b" )")
}

/// Appends a word and a whole number, each after a space.
pub fn put_field(text: &mut Bytes, word: &[u8], n: u128) -> Result<(), NoMemory>
    requires { IsOneLine word.now }
    ensures { OnOk result (AddsSpaced text.old (Verbatim word.now ∷ Whole n ∷ []) text.new) }
{
    put_word(text, word)?;
    put_whole(text, n)
}

/// Appends whole numbers, each after a space.
pub fn put_lengths(text: &mut Bytes, lengths: &[u32]) -> Result<(), NoMemory>
    ensures { OnOk result (AddsSpaced text.old (flat_map (λ n. Whole n ∷ []) lengths.now) text.new) }
{
    for n in lengths {
        put_whole(text, *n as u128)?;
    }
    Ok(())
}

/// Appends whole numbers between parentheses, each after a space.
pub fn put_numbers(text: &mut Bytes, nums: &[u128]) -> Result<(), NoMemory>
    ensures { OnOk result (AddsSpaced text.old (enclosed (flat_map (λ n. Whole n ∷ []) nums.now)) text.new) }
{
    put_open(text)?;
    for n in nums {
        put_whole(text, *n)?;
    }
    put_close(text)
}
