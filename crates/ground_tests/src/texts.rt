use net_core::{Bytes, NoMemory, Places};
use snd_tokens::Cursor;
use std::alloc::Global;
use text_kit::Refusal;
use text_kit::steps::{close, closes, end, ends, expect, open, over};
use text_kit::write::{put_close, put_money, put_open, put_whole, put_word};

/// Kinds of faults for these tests.
#[derive(Clone, Copy, Debug, PartialEq, Eq)]
enum Kind {
    Other,
    Ended,
    Limit,
}

fn put_line(text: &mut Bytes) -> Result<(), NoMemory> {
    put_word(text, b"NOTES")?;
    put_open(text)?;
    put_whole(text, 4_096)?;
    put_money(text, Places::Three, 12_007)?;
    put_money(text, Places::Three, 5)?;
    put_money(text, Places::Six, 12_007)?;
    put_money(text, Places::Six, 12_345_600)?;
    put_close(text)?;
    put_whole(text, 0)
}

/// Whether a line with items of each kind is written as it should be.
fn is_line_written(alloc: Global) -> bool {
    let mut text = Bytes::new(alloc);
    put_line(&mut text).is_ok()
        && text.items() == b"NOTES ( 4096 12.007 0.005 0.012007 12.345600 )\n0 ".as_slice()
}

#[test]
fn items_are_written_with_their_spaces(rt: HostRuntime) {
    assert!(rt; is_line_written(rt.alloc()));
}

fn key_and_list(bytes: &[u8]) -> Result<(), Refusal<Kind>> {
    let mut text = Cursor::new(bytes, 0);
    expect(Kind::Other, Kind::Ended, b"NOTES", &mut text)?;
    open(Kind::Other, Kind::Ended, &mut text)?;
    if closes(&mut text).is_none() {
        return Err(over(Kind::Limit, Kind::Ended, &mut text));
    }
    if ends(&text).is_some() {
        return Ok(());
    }
    close(Kind::Other, Kind::Ended, &mut text)?;
    end(Kind::Other, &mut text)
}

/// Whether the text has this first fault, or none if none is expected.
fn has_fault(bytes: &[u8], fault: Option<(u64, Kind)>) -> bool {
    match (key_and_list(bytes), fault) {
        (Ok(()), None) => true,
        (Err(Refusal::Bad { at, kind }), Some((place, expected))) => {
            at == place && kind == expected
        }
        _ => false,
    }
}

const FAULTS: [(&[u8], Option<(u64, Kind)>); 10] = [
    (b"NOTES ( )", None),
    (b"NOTES ( ) ) # all of it", None),
    (b"", Some((0, Kind::Ended))),
    (b"NOTE ( )", Some((0, Kind::Other))),
    (b"( )", Some((0, Kind::Other))),
    (b"NOTES )", Some((6, Kind::Other))),
    (b"NOTES", Some((5, Kind::Ended))),
    (b"NOTES ( AB )", Some((8, Kind::Limit))),
    (b"NOTES ( ", Some((8, Kind::Ended))),
    (b"NOTES ( ) ) )", Some((12, Kind::Other))),
];

#[test]
fn faults_stand_at_their_first_token(rt: HostRuntime) {
    for (bytes, fault) in &FAULTS {
        assert!(rt; has_fault(bytes, *fault), "{bytes:?}");
    }
}
