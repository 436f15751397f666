ghost use Rattle.std.specs.Prelude.{◌≡◌, ◌≤◌, ◌++◌, List, OnOk, codes, length, ℕ};
ghost use Rattle.text_layout.specs.Windows.{IsWindow};
ghost use Rattle.fault_texts.{specs.FaultTexts.{IsFaultText, excerpt_text, place_text}, specs.Quotes.note_text};

use crate::excerpt::put_excerpt;
use crate::here::put_here;
use crate::sentence::Sentence;
use net_core::{Bytes, NoMemory};
use text_kit::write::put_decimal;
use text_layout::{Place, Window, place_of, window_of};

/// Puts a file's name last, and a line and a column.
fn put_place(text: &mut Bytes, name: &[u8], place: Place) -> Result<(), NoMemory>
    ensures { OnOk result (text.new ≡ text.old ++ place_text name.now place.line place.column) }
{
    text.append(name)?;
    text.append(b":")?;
    put_decimal(text, place.line as u128)?;
    text.append(b":")?;
    put_decimal(text, place.column as u128)?;
    text.append(b": ")
}

/// Puts a line last that is indented by two spaces. As all functions of this crate that put something it takes time in what it puts, and asks
/// for memory only where the text has no room left; where memory runs out, the text may end in part of what was to be put.
pub fn put_note(text: &mut Bytes, note: &str) -> Result<(), NoMemory>
    ensures { OnOk result (text.new ≡ text.old ++ note_text note.now) }
{
    text.append(b"  ")?;
    text.append(note.as_bytes())?;
    text.append(b"\n")
}

/// Puts what is wrong last, and the line where it is.
fn put_wrong(
    text: &mut Bytes,
    wrong: &str,
    bytes: &[u8],
    at: usize,
    window: Window,
) -> Result<(), NoMemory>
    requires within { at ≤ length bytes.now }
    requires window { IsWindow bytes.now at window.from window.to }
    ensures { OnOk result (text.new ≡ text.old ++ wrong.now ++ codes "\n" ++ excerpt_text bytes.now at window.from window.to) }
{
    text.append(wrong.as_bytes())?;
    text.append(b"\n")?;
    put_excerpt(text, bytes, at, window)
}

/// Puts what is wrong with a file at a byte of it last: the file's name, the line and the column with a sentence, the line itself with a
/// caret, what is there, and what helps. It goes over the bytes before the byte at most four times.
pub fn put_fault(
    text: &mut Bytes,
    name: &[u8],
    bytes: &[u8],
    at: usize,
    sentence: Sentence,
) -> Result<(), NoMemory>
    requires { at ≤ length bytes.now }
    ensures { OnOk result ((told : List ℕ) × IsFaultText name.now bytes.now at sentence.wrong.now sentence.help.now told × (text.new ≡ text.old ++ told)) }
{
    let place = place_of(bytes, at);
    let window = window_of(bytes, at);
    put_place(text, name, place)?;
    put_wrong(text, sentence.wrong, bytes, at, window)?;
    put_here(text, bytes, at)?;
    put_note(text, sentence.help)
}
