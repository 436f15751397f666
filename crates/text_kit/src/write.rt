ghost use Rattle.std.specs.Prelude.{◌≡◌, ◌++◌, ◌∷◌, ◌/◌, ◌^◌, [], OnOk, decimal};
ghost use Rattle.net_core.specs.Terms.{digits_after_point};
ghost use Rattle.text_kit.{specs.Items.{Item, Verbatim, Whole, Money, Opening, Closing}, specs.Written.{last_digit, last_digits, money_word, written}};

use itoa::Buffer;
use net_core::{Bytes, NoMemory, Places};

/// Puts a number last, without a space after it, in time that grows with its digits. It asks for memory only
/// where the text has no room left for them, as all functions of this module do: then for twice the room at least,
/// and the bytes before may move. Where memory runs out, the text may end in part of what was to be put.
pub fn put_decimal(text: &mut Bytes, n: u128) -> Result<(), NoMemory>
    ensures { OnOk result (text.new ≡ text.old ++ decimal n) }
{
    let mut buffer = Buffer::new();
    text.append(buffer.format(n).as_bytes())
}

/// The last digit of a number.
fn last_digit(n: u128) -> u8
    ensures { result ≡ last_digit n }
{
    b'0' + (n % 10) as u8
}

/// The last six digits of a number.
fn six_digits(n: u128) -> [u8; 6]
    ensures { result ≡ last_digits 6 n }
{
    [
        last_digit(n / 100_000),
        last_digit(n / 10_000),
        last_digit(n / 1_000),
        last_digit(n / 100),
        last_digit(n / 10),
        last_digit(n),
    ]
}

/// The whole part of units of a network with these places.
fn whole_part(places: Places, n: u128) -> u128
    ensures { result ≡ n / 10 ^ digits_after_point places }
{
    n / 10u128.pow(places.digits() as u32)
}

/// Puts units of a network with these places last, as money without a space after it: the digits of the whole part, a point
/// and the digits after it. It takes time in these digits, and asks for memory as `put_decimal` does, at most three times.
pub fn put_money_word(text: &mut Bytes, places: Places, n: u128) -> Result<(), NoMemory>
    ensures { OnOk result (text.new ≡ text.old ++ money_word places n) }
{
    put_decimal(text, whole_part(places, n))?;
    text.append(b".")?;
    let digits = six_digits(n);
    text.append(&digits[6 - places.digits()..])
}

/// Puts a word last, and a space. It takes time in the word's length, and asks for memory at most twice.
pub fn put_word(text: &mut Bytes, word: &[u8]) -> Result<(), NoMemory>
    ensures { OnOk result (text.new ≡ text.old ++ written (Verbatim word.now ∷ [])) }
{
    text.append(word)?;
    text.append(b" ")
}

/// Puts a whole number last, and a space. It takes time in the digits, and asks for memory at most twice.
pub fn put_whole(text: &mut Bytes, n: u128) -> Result<(), NoMemory>
    ensures { OnOk result (text.new ≡ text.old ++ written (Whole n ∷ [])) }
{
    put_decimal(text, n)?;
    text.append(b" ")
}

/// Puts units of a network with these places last, as an amount or money, and a space. It takes time in the digits, and asks
/// for memory at most four times.
pub fn put_money(text: &mut Bytes, places: Places, n: u128) -> Result<(), NoMemory>
    ensures { OnOk result (text.new ≡ text.old ++ written (Money places n ∷ [])) }
{
    put_money_word(text, places, n)?;
    text.append(b" ")
}

/// Puts an opening parenthesis last, and a space, in constant time but for the move of a text that has no room left.
pub fn put_open(text: &mut Bytes) -> Result<(), NoMemory>
    ensures { OnOk result (text.new ≡ text.old ++ written (Opening ∷ [])) }
{
    text.append(b"( ")
}

/// Puts a closing parenthesis last, and ends the line, in constant time but for the move of a text that has no room left.
pub fn put_close(text: &mut Bytes) -> Result<(), NoMemory>
    ensures { OnOk result (text.new ≡ text.old ++ written (Closing ∷ [])) }
{
    text.append(b")\n")
}
