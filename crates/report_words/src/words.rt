ghost use Rattle.std.specs.Prelude.{◌≡◌, ◌≤◌, ◌<◌, ◌^◌, ◌+◌, true, Ok, IfOk};
ghost use Rattle.snd_tokens.specs.Terms.{left, amount_of, money_of};
ghost use Rattle.text_kit.specs.Terms.{ReadsAs, number_or, expected};
ghost use Rattle.report_words.specs.ReportWords.{amount_at, closing_at, keyword_at, keyword_within, money_at, money_below, name_at, number_at, opening_at, opening_within, room_number_at, this_name, this_name_at, this_number, this_number_at, unknown_name, whole_within, within};

use crate::fault::{ReportKind, ReportRefusal};
use net_core::{Name, Places};
use snd_tokens::{Cursor, Next, NumberFault, WholeFault, amount as amount_in, money, whole};
use std::alloc::Global;
use text_kit::names::{is_long, long_name_fault, named};
use text_kit::refusal::bad;
use text_kit::steps::{close, expect, open, placed, word};

/// A whole number from `least`, below `limit`, or its fault.
fn within(least: u128, limit: u128, number: Result<u128, WholeFault>) -> Result<u128, ReportKind>
    ensures value { result ≡ within least limit number }
    ensures least { IfOk result (λ n. least ≤ n) }
    ensures below { IfOk result (λ n. n < limit) }
{
    match number {
        Ok(number) => {
            if least <= number && number < limit {
                return Ok(number);
            }
            Err(ReportKind::Limit)
        }
        Err(WholeFault::NotANumber) => Err(ReportKind::Number(NumberFault::NotANumber)),
        Err(WholeFault::TooLarge) => Err(ReportKind::Number(NumberFault::TooLarge)),
    }
}

/// The whole number that a word writes, from `least`, below `limit`. One that is out of this range is
/// `limit`, one of 2^126 or more `number-large`, and any other word `number-not`. It goes over the word at most three times, and asks
/// for no memory.
pub fn whole_within(least: u128, limit: u128, word: &[u8]) -> Result<u128, ReportKind>
    ensures value { result ≡ whole_within least limit word.now }
    ensures least { IfOk result (λ n. least ≤ n) }
    ensures below { IfOk result (λ n. n < limit) }
{
    within(least, limit, whole(word))
}

/// Takes a whole number from `least`, below `limit`, with the faults of `whole_within`.
/// It takes time in the bytes up to the word's end, and no memory; so do the other words of this module but `name`, which copies what it takes.
pub fn number(least: u128, limit: u128, text: &mut Cursor) -> Result<u128, ReportRefusal>
    ensures reads { ReadsAs (λ n. n) result (left text.new) (number_at least limit (left text.old)) }
    ensures least { IfOk result (λ n. least ≤ n) }
    ensures below { IfOk result (λ n. n < limit) }
{
    let (at, word) = word(ReportKind::Token, ReportKind::Ended, text)?;
    match whole_within(least, limit, word) {
        Ok(number) => Ok(number),
        Err(kind) => Err(bad(at, kind)),
    }
}

/// Takes a whole number from `least`, below `limit`, which is 2^32 at most.
pub fn small(least: u128, limit: u128, text: &mut Cursor) -> Result<u32, ReportRefusal>
    requires { limit ≤ 2 ^ 32 }
    ensures reads { ReadsAs (λ n. n) result (left text.new) (number_at least limit (left text.old)) }
    ensures below { IfOk result (λ n. n < limit) }
{
    Ok(number(least, limit, text)? as u32)
}

/// Takes a whole number from `least`, below `limit`, which is 2^64 at most.
pub fn medium(least: u128, limit: u128, text: &mut Cursor) -> Result<u64, ReportRefusal>
    requires { limit ≤ 2 ^ 64 }
    ensures { ReadsAs (λ n. n) result (left text.new) (number_at least limit (left text.old)) }
{
    Ok(number(least, limit, text)? as u64)
}

/// Takes a whole number below `limit`, where there is room for one; a number that has none is `limit`.
pub fn next_number(room: bool, limit: u128, text: &mut Cursor) -> Result<u128, ReportRefusal>
    ensures reads { ReadsAs (λ n. n) result (left text.new) (room_number_at room limit (left text.old)) }
    ensures below { IfOk result (λ n. n < limit) }
{
    let (at, word) = word(ReportKind::Token, ReportKind::Ended, text)?;
    match whole_within(0, limit, word) {
        Ok(number) => {
            if room {
                return Ok(number);
            }
            Err(bad(at, ReportKind::Limit))
        }
        Err(kind) => Err(bad(at, kind)),
    }
}

/// Tests that a word is this very number.
fn this_number(expected: u64, word: &[u8]) -> Result<(), ReportKind>
    ensures { result ≡ this_number expected word.now }
{
    let expected = u128::from(expected);
    whole_within(expected, expected + 1, word)?;
    Ok(())
}

/// Takes this very number; another one is `limit`.
pub fn this(expected: u64, text: &mut Cursor) -> Result<(), ReportRefusal>
    ensures { ReadsAs (λ _. tt) result (left text.new) (this_number_at expected (left text.old)) }
{
    let (at, word) = word(ReportKind::Token, ReportKind::Ended, text)?;
    placed(at, this_number(expected, word))
}

/// The money that a word writes, below `limit`, in units of the network.
fn money_below(places: Places, limit: u128, word: &[u8]) -> Result<u128, ReportKind>
    ensures value { result ≡ money_below places limit word.now }
    ensures below { IfOk result (λ n. n < limit) }
{
    match money(word, places) {
        Ok(money) => {
            if money < limit {
                return Ok(money);
            }
            Err(ReportKind::Limit)
        }
        Err(fault) => Err(ReportKind::Number(fault)),
    }
}

/// Takes money and gives it in units of a network with these places. Money of `limit` units or more is
/// `limit`, and of 2^126 or more `number-large`; a digit past the last place that isn't 0 is
/// `number-fine`, and any other word `number-not`.
pub fn sum(places: Places, limit: u128, text: &mut Cursor) -> Result<u128, ReportRefusal>
    ensures reads { ReadsAs (λ n. n) result (left text.new) (money_at places limit (left text.old)) }
    ensures below { IfOk result (λ n. n < limit) }
{
    let (at, word) = word(ReportKind::Token, ReportKind::Ended, text)?;
    match money_below(places, limit, word) {
        Ok(money) => Ok(money),
        Err(kind) => Err(bad(at, kind)),
    }
}

/// The amount that a word writes, in units of the network.
fn amount_of(places: Places, word: &[u8]) -> Result<u64, ReportKind>
    ensures { result ≡ number_or ReportKind.Number (amount_of places word.now) }
{
    match amount_in(word, places) {
        Ok(amount) => Ok(amount),
        Err(fault) => Err(ReportKind::Number(fault)),
    }
}

/// Takes an amount and gives it in units of a network with these places. An amount of 2^40 units or
/// more is `number-large`; a digit past the last place that isn't 0 is `number-fine`, and any other
/// word `number-not`. The amount 2.5 is 2,500 units with three places.
pub fn amount(places: Places, text: &mut Cursor) -> Result<u64, ReportRefusal>
    ensures { ReadsAs (λ n. n) result (left text.new) (amount_at places (left text.old)) }
{
    let (at, word) = word(ReportKind::Token, ReportKind::Ended, text)?;
    placed(at, amount_of(places, word))
}

/// Takes a name and gives a copy of it. A word of more than 255 bytes is `limit-name`.
pub fn name(alloc: Global, text: &mut Cursor) -> Result<Name, ReportRefusal>
    ensures { ReadsAs (λ n. n) result (left text.new) (name_at (left text.old)) }
{
    let (at, word) = word(ReportKind::Token, ReportKind::Ended, text)?;
    let fault = long_name_fault(ReportKind::LimitName, word);
    named(alloc, at, word, fault)
}

/// What is wrong with a word as a name that nothing has: `unknown-name`, or `limit-name` if it has more
/// than 255 bytes.
pub fn unknown_name(word: &[u8]) -> ReportKind
    ensures { result ≡ unknown_name word.now }
{
    if is_long(word) {
        return ReportKind::LimitName;
    }
    ReportKind::UnknownName
}

/// Takes this very name; another one is `unknown-name` or `limit-name`.
pub fn this_name(name: &[u8], text: &mut Cursor) -> Result<(), ReportRefusal>
    ensures { ReadsAs (λ _. tt) result (left text.new) (this_name_at name.now (left text.old)) }
{
    let (at, word) = word(ReportKind::Token, ReportKind::Ended, text)?;
    if word == name {
        return Ok(());
    }
    Err(bad(at, unknown_name(word)))
}

/// Takes a word that is expected; another one is `token`.
pub fn keyword(wanted: &[u8], text: &mut Cursor) -> Result<(), ReportRefusal>
    ensures { ReadsAs (λ _. tt) result (left text.new) (keyword_at wanted.now (left text.old)) }
{
    expect(ReportKind::Token, ReportKind::Ended, wanted, text)
}

/// Takes a word that is expected, where there is room for what it begins. Another word is `token`, and
/// this one where there is no room is `limit`.
pub fn keyword_within(room: bool, wanted: &[u8], text: &mut Cursor) -> Result<(), ReportRefusal>
    ensures reads { ReadsAs (λ _. tt) result (left text.new) (keyword_within room wanted.now (left text.old)) }
    ensures room { IfOk result (λ _. room ≡ true) }
{
    let (at, word) = word(ReportKind::Token, ReportKind::Ended, text)?;
    if word != wanted {
        return Err(bad(at, ReportKind::Token));
    }
    if room {
        return Ok(());
    }
    Err(bad(at, ReportKind::Limit))
}

/// Takes an opening parenthesis.
pub fn opening(text: &mut Cursor) -> Result<(), ReportRefusal>
    ensures { ReadsAs (λ _. tt) result (left text.new) (opening_at (left text.old)) }
{
    open(ReportKind::Token, ReportKind::Ended, text)
}

/// Takes an opening parenthesis, where there is room for what it begins; where there is none, it is
/// `limit`.
pub fn opening_within(room: bool, text: &mut Cursor) -> Result<(), ReportRefusal>
    ensures reads { ReadsAs (λ _. tt) result (left text.new) (opening_within room (left text.old)) }
    ensures room { IfOk result (λ _. room ≡ true) }
{
    match text.next() {
        Next::Open(at) => {
            if room {
                return Ok(());
            }
            Err(bad(at, ReportKind::Limit))
        }
        Next::Word(at, _) | Next::Close(at) => Err(bad(at, ReportKind::Token)),
        Next::End(at) => Err(bad(at, ReportKind::Ended)),
    }
}

/// Takes a closing parenthesis.
pub fn closing(text: &mut Cursor) -> Result<(), ReportRefusal>
    ensures { ReadsAs (λ _. tt) result (left text.new) (closing_at (left text.old)) }
{
    close(ReportKind::Token, ReportKind::Ended, text)
}
