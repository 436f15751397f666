ghost use Rattle.std.specs.Prelude.{◌≡◌, ◌<◌, length};
ghost use Rattle.fault_texts.specs.Controls.{ends_order, is_control, is_order, shown_byte};

use text_layout::byte_at;

/// Whether a byte is a control character by itself.
fn is_order(byte: u8) -> bool
    ensures { result ≡ is_order byte }
{
    byte < 32 || byte == 127
}

/// Whether the byte at a place is the second one of a control character, U+0080 to U+009F.
fn ends_order(text: &[u8], i: usize) -> bool
    ensures { result ≡ ends_order text.now i }
{
    let byte = byte_at(text, i);
    128 <= byte && byte < 160 && byte_at(text, i.saturating_sub(1)) == 194
}

/// Whether the byte at a place is of a control character.
pub(crate) fn is_control(text: &[u8], i: usize) -> bool
    requires { i < length text.now }
    ensures { result ≡ is_control text.now i }
{
    is_order(byte_at(text, i)) || ends_order(text, i) || ends_order(text, i + 1)
}

/// The byte at a place as it is shown: control characters are spaces, so that the caret is below its byte. One of two bytes is a no-break
/// space, which begins with the same byte.
pub(crate) fn shown_byte(text: &[u8], i: usize) -> u8
    ensures { result ≡ shown_byte text.now i }
{
    let byte = byte_at(text, i);
    if is_order(byte) {
        32
    } else if ends_order(text, i) {
        160
    } else {
        byte
    }
}
