ghost use Rattle.std.{specs.Prelude.{◌≡◌, ◌+◌, ◌*◌, ◌^◌, ◌<◌, ◌≤◌, ◌==◌, drop, IsTrue, IfOk, MatchOption, MatchResult}, specs.List.list_all};
ghost use Rattle.net_core.specs.Terms.{digits_after_point};
ghost use Rattle.snd_tokens.{specs.Amounts.{AreParts, amount_of, decimal_below, first_places, is_decimal, is_point, money_of, units_of}, specs.Digits.{is_digit, number_of}};

use crate::digits::{are_digits, number_below};
use crate::find::find_byte;
use net_core::Places;
use thiserror::Error;

/// Why a word is no amount.
#[derive(Clone, Copy, Debug, PartialEq, Eq, Error)]
pub enum NumberFault {
    /// It isn't digits, or digits, a point and digits.
    #[error("not a number")]
    NotANumber,
    /// A place past the last one that counts isn't 0.
    #[error("a number with too many places")]
    TooFine,
    /// Its value is at the limit or above.
    #[error("a number that is too large")]
    TooLarge,
}

/// An amount is below this many units of the network.
const AMOUNT_LIMIT: u128 = 1 << 40;

/// Money is below this many units of the network.
const MONEY_LIMIT: u128 = 1 << 126;

/// The digits before the point and those after it, or None where the word is no decimal number.
fn parts(word: &[u8]) -> Option<(&[u8], &[u8])>
    ensures { MatchOption result (IsTrue (is_decimal word.now) → ⊥)
        (λ p. IsTrue (is_decimal word.now) × AreParts word.now p.0.now p.1.now) }
{
    let point = find_byte(word, b'.', 0);
    let whole = &word[..point];
    if !are_digits(whole) {
        return None;
    }
    if point == word.len() {
        return Some((whole, &word[point..]));
    }
    let places = &word[point + 1..];
    if !are_digits(places) {
        return None;
    }
    Some((whole, places))
}

/// Whether the places past the first `count` are zeros.
fn is_coarse(places: &[u8], count: usize) -> bool
    ensures { result ≡ list_all (λ b. b == 48) (drop count places.now) }
{
    places.iter().skip(count).all(|b| *b == b'0')
}

/// The number of units, of which 10 ^ `count` make one, or None where that reaches the limit.
fn in_units(whole: &[u8], places: &[u8], count: usize, limit: u128) -> Option<u128>
    requires whole { IsTrue (list_all is_digit whole.now) }
    requires places { IsTrue (list_all is_digit places.now) }
    requires count { count ≤ 6 }
    requires limit { 0 < limit }
    ensures { let value = 10 ^ count * number_of whole.now + number_of (first_places count places.now) in
        MatchOption result (limit ≤ value) (λ n. (n ≡ value) × (n < limit)) }
{
    let zeros: &[u8] = b"000000";
    let shown = places.len().min(count);
    let units = number_below(0, whole, limit)?;
    let number = number_below(units, &places[..shown], limit)?;
    number_below(number, &zeros[..count - shown], limit)
}

/// The value of a decimal number in units of the network, of which there are to be fewer than the limit.
fn decimal(word: &[u8], places: Places, limit: u128) -> Result<u128, NumberFault>
    requires { 0 < limit }
    ensures { result ≡ decimal_below (digits_after_point places) limit word.now }
{
    let Some((whole, after)) = parts(word) else {
        return Err(NumberFault::NotANumber);
    };
    let count = places.digits();
    if !is_coarse(after, count) {
        return Err(NumberFault::TooFine);
    }
    in_units(whole, after, count, limit).ok_or(NumberFault::TooLarge)
}

/// The value of an amount in units of a network with these places. It goes over the word at most four times, and asks for no
/// memory.
///
/// `12.3456` is 12,345,600 units with six places, and too fine with three.
#[tactic(auto, unfolding(crate::specs::Amounts::amount_of))]
pub fn amount(word: &[u8], places: Places) -> Result<u64, NumberFault>
    ensures value { result ≡ amount_of places word.now }
    ensures small { IfOk result (λ n. n < 2 ^ 40) }
{
    let number = decimal(word, places, AMOUNT_LIMIT)?;
    Ok(number as u64)
}

/// The value of money in units of a network with these places. It goes over the word at most four times, and asks for no memory.
#[tactic(auto, unfolding(crate::specs::Amounts::money_of))]
pub fn money(word: &[u8], places: Places) -> Result<u128, NumberFault>
    ensures value { result ≡ money_of places word.now }
    ensures small { IfOk result (λ n. n < 2 ^ 126) }
{
    decimal(word, places, MONEY_LIMIT)
}

/// The number that these digits write, or None where it reaches 2^40 units of a network with these places.
fn whole_units(whole: &[u8], places: Places) -> Option<u128>
    requires { IsTrue (list_all is_digit whole.now) }
    ensures { let units = 10 ^ digits_after_point places * number_of whole.now in
        MatchOption result (2 ^ 40 ≤ units) (λ n. (n ≡ number_of whole.now) × (units < 2 ^ 40)) }
{
    let none: &[u8] = b"";
    let _ = in_units(whole, none, places.digits(), AMOUNT_LIMIT)?;
    number_below(0, whole, AMOUNT_LIMIT)
}

/// The whole number that the word of a demand's unit writes, which is below 2^40 units of a network with these places. It goes over
/// the word at most four times, and asks for no memory.
///
/// `1.0` is 1, and the largest is 1,099,511,627 with three places and 1,099,511 with six.
#[tactic(auto, unfolding(crate::specs::Amounts::units_of))]
pub fn units(word: &[u8], places: Places) -> Result<u64, NumberFault>
    ensures value { result ≡ units_of places word.now }
    ensures small { IfOk result (λ n. 10 ^ digits_after_point places * n < 2 ^ 40) }
{
    let Some((whole, after)) = parts(word) else {
        return Err(NumberFault::NotANumber);
    };
    if !is_coarse(after, 0) {
        return Err(NumberFault::TooFine);
    }
    let number = whole_units(whole, places).ok_or(NumberFault::TooLarge)?;
    Ok(number as u64)
}
