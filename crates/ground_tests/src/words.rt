use net_core::Places;
use snd_tokens::{
    NumberFault, Token, TokenKind, WholeFault, after_header, amount, money, next_token, units,
    whole,
};

/// Amounts with three places, which are thousandths below 2^40.
const AMOUNTS: [(&[u8], Result<u64, NumberFault>); 21] = [
    (b"0", Ok(0)),
    (b"007", Ok(7_000)),
    (b"5", Ok(5_000)),
    (b"12.5", Ok(12_500)),
    (b"12.34", Ok(12_340)),
    (b"12.345", Ok(12_345)),
    (b"12.3400", Ok(12_340)),
    (b"0.001", Ok(1)),
    (b"1099511627.775", Ok(1_099_511_627_775)),
    (b"12.3456", Err(NumberFault::TooFine)),
    (b"99999999999.0001", Err(NumberFault::TooFine)),
    (b"1099511627.776", Err(NumberFault::TooLarge)),
    (
        b"99999999999999999999999999999999999999999999",
        Err(NumberFault::TooLarge),
    ),
    (b"", Err(NumberFault::NotANumber)),
    (b".", Err(NumberFault::NotANumber)),
    (b"5.", Err(NumberFault::NotANumber)),
    (b".5", Err(NumberFault::NotANumber)),
    (b"+5", Err(NumberFault::NotANumber)),
    (b"-1", Err(NumberFault::NotANumber)),
    (b"1e3", Err(NumberFault::NotANumber)),
    (b"1.2.3", Err(NumberFault::NotANumber)),
];

#[test]
fn amounts_are_read(rt: HostRuntime) {
    for (word, value) in &AMOUNTS {
        assert!(rt; amount(word, Places::Three) == *value, "{word:?}");
    }
}

/// Amounts with six places, which are millionths below 2^40.
const FINE_AMOUNTS: [(&[u8], Result<u64, NumberFault>); 11] = [
    (b"0", Ok(0)),
    (b"5", Ok(5_000_000)),
    (b"12.3456", Ok(12_345_600)),
    (b"012.345678", Ok(12_345_678)),
    (b"0.000001", Ok(1)),
    (b"0.0000010", Ok(1)),
    (b"1099511.627775", Ok(1_099_511_627_775)),
    (b"0.0000001", Err(NumberFault::TooFine)),
    (b"9999999.0000001", Err(NumberFault::TooFine)),
    (b"1099511.627776", Err(NumberFault::TooLarge)),
    (b"2000000", Err(NumberFault::TooLarge)),
];

#[test]
fn amounts_are_read_in_millionths(rt: HostRuntime) {
    for (word, value) in &FINE_AMOUNTS {
        assert!(rt; amount(word, Places::Six) == *value, "{word:?}");
    }
}

/// Money with three places, which is thousandths below 2^126.
const MONEY: [(&[u8], Result<u128, NumberFault>); 6] = [
    (b"0.000", Ok(0)),
    (b"600.000", Ok(600_000)),
    (b"1099511627.776", Ok(1_099_511_627_776)),
    (
        b"85070591730234615865843651857942052.863",
        Ok(85_070_591_730_234_615_865_843_651_857_942_052_863),
    ),
    (
        b"85070591730234615865843651857942052.864",
        Err(NumberFault::TooLarge),
    ),
    (b"1.0001", Err(NumberFault::TooFine)),
];

#[test]
fn money_is_read(rt: HostRuntime) {
    for (word, value) in &MONEY {
        assert!(rt; money(word, Places::Three) == *value, "{word:?}");
    }
}

/// Money with six places, which is millionths below 2^126.
const FINE_MONEY: [(&[u8], Result<u128, NumberFault>); 4] = [
    (b"600.000000", Ok(600_000_000)),
    (
        b"85070591730234615865843651857942.052863",
        Ok(85_070_591_730_234_615_865_843_651_857_942_052_863),
    ),
    (
        b"85070591730234615865843651857942.052864",
        Err(NumberFault::TooLarge),
    ),
    (b"1.0000001", Err(NumberFault::TooFine)),
];

#[test]
fn money_is_read_in_millionths(rt: HostRuntime) {
    for (word, value) in &FINE_MONEY {
        assert!(rt; money(word, Places::Six) == *value, "{word:?}");
    }
}

/// Whole amounts below 2^40 thousandths.
const UNITS: [(&[u8], Result<u64, NumberFault>); 8] = [
    (b"1", Ok(1)),
    (b"007.0000", Ok(7)),
    (b"1099511627", Ok(1_099_511_627)),
    (b"1099511628", Err(NumberFault::TooLarge)),
    (b"1099511628.5", Err(NumberFault::TooFine)),
    (b"1.0001", Err(NumberFault::TooFine)),
    (b"1.", Err(NumberFault::NotANumber)),
    (b"UNLIMITED", Err(NumberFault::NotANumber)),
];

#[test]
fn whole_amounts_are_read(rt: HostRuntime) {
    for (word, value) in &UNITS {
        assert!(rt; units(word, Places::Three) == *value, "{word:?}");
    }
}

/// Whole amounts below 2^40 millionths.
const FINE_UNITS: [(&[u8], Result<u64, NumberFault>); 4] = [
    (b"1.0000000", Ok(1)),
    (b"1099511", Ok(1_099_511)),
    (b"1099512", Err(NumberFault::TooLarge)),
    (b"1.5", Err(NumberFault::TooFine)),
];

#[test]
fn whole_amounts_of_millionths_are_read(rt: HostRuntime) {
    for (word, value) in &FINE_UNITS {
        assert!(rt; units(word, Places::Six) == *value, "{word:?}");
    }
}

/// Whole numbers below 2^126.
const WHOLE_NUMBERS: [(&[u8], Result<u128, WholeFault>); 9] = [
    (b"0", Ok(0)),
    (b"7", Ok(7)),
    (b"1099511627776", Ok(1_099_511_627_776)),
    (
        b"85070591730234615865843651857942052863",
        Ok(85_070_591_730_234_615_865_843_651_857_942_052_863),
    ),
    (
        b"85070591730234615865843651857942052864",
        Err(WholeFault::TooLarge),
    ),
    (b"007", Err(WholeFault::NotANumber)),
    (b"00", Err(WholeFault::NotANumber)),
    (b"1.0", Err(WholeFault::NotANumber)),
    (b"", Err(WholeFault::NotANumber)),
];

#[test]
fn whole_numbers_are_read(rt: HostRuntime) {
    for (word, value) in &WHOLE_NUMBERS {
        assert!(rt; whole(word) == *value, "{word:?}");
    }
}

const TEXT: &[u8] = b"a(b #c\n)d#e\r\t#";

/// Places in the text, and the kind, place and length of the first token from there on. A `#` begins a comment, but not inside a
/// word.
const TOKENS: [(u64, Option<(TokenKind, u64, u64)>); 8] = [
    (0, Some((TokenKind::Word, 0, 1))),
    (1, Some((TokenKind::Open, 1, 1))),
    (2, Some((TokenKind::Word, 2, 1))),
    (3, Some((TokenKind::Close, 7, 1))),
    (5, Some((TokenKind::Word, 5, 1))),
    (8, Some((TokenKind::Word, 8, 3))),
    (11, None),
    (14, None),
];

fn is_token(token: Option<Token>, expected: Option<(TokenKind, u64, u64)>) -> bool {
    match (token, expected) {
        (Some(token), Some((kind, at, len))) => {
            token.kind == kind && token.at == at && token.len == len
        }
        (None, None) => true,
        _ => false,
    }
}

/// Whether this token is the first one from a place on, or there is no token if none is expected.
fn is_first_token(from: u64, expected: Option<(TokenKind, u64, u64)>) -> bool {
    from <= TEXT.len() as u64 && is_token(next_token(TEXT, from), expected)
}

#[test]
fn tokens_are_found_from_any_place(rt: HostRuntime) {
    for (from, expected) in TOKENS {
        assert!(rt; is_first_token(from, expected), "{from}");
    }
}

/// Texts, and the place where the second line begins; `None` if the first line isn't the header.
const HEADERS: [(&[u8], Option<u64>); 7] = [
    (b"?planner script; version: 1", Some(27)),
    (b"?planner script; version: 1\n", Some(28)),
    (b"?planner script; version: 1 \t\r\ncaller", Some(31)),
    (b"?planner script; version: 1 #\n", None),
    (b" ?planner script; version: 1\n", None),
    (b"\n?planner script; version: 1\n", None),
    (b"", None),
];

#[test]
fn the_first_line_is_the_header(rt: HostRuntime) {
    let line: &[u8] = b"?planner script; version: 1";
    for (bytes, place) in &HEADERS {
        assert!(rt; after_header(bytes, line) == *place, "{bytes:?}");
    }
}
