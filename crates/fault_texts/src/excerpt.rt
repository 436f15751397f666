ghost use Rattle.std.specs.Prelude.{◌≡◌, ◌≤◌, ◌++◌, OnOk, length};
ghost use Rattle.text_layout.specs.Windows.{IsWindow};
ghost use Rattle.fault_texts.{specs.Controls.shown, specs.FaultTexts.excerpt_text};

use crate::control::shown_byte;
use net_core::{Bytes, NoMemory};
use text_layout::{Window, characters, put_spaces};

/// Puts the bytes last, as they are shown.
fn put_shown(text: &mut Bytes, bytes: &[u8]) -> Result<(), NoMemory>
    ensures { OnOk result (text.new ≡ text.old ++ shown bytes.now) }
{
    for i in 0..bytes.len() {
        text.append(&[shown_byte(bytes, i)])?;
    }
    Ok(())
}

/// Puts a part of a byte's line last, and below it a caret under the byte.
pub(crate) fn put_excerpt(
    text: &mut Bytes,
    bytes: &[u8],
    at: usize,
    window: Window,
) -> Result<(), NoMemory>
    requires within { at ≤ length bytes.now }
    requires window { IsWindow bytes.now at window.from window.to }
    ensures { OnOk result (text.new ≡ text.old ++ excerpt_text bytes.now at window.from window.to) }
{
    put_spaces(text, 4)?;
    put_shown(text, &bytes[window.from..window.to])?;
    text.append(b"\n")?;
    put_spaces(text, 4 + characters(&bytes[window.from..at]))?;
    text.append(b"^\n")
}
