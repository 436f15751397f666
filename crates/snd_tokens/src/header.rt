ghost use Rattle.std.specs.Prelude.{◌≡◌, ◌≤◌, length, IfSome, MatchOption};
ghost use Rattle.snd_tokens.specs.Header.{HasHeader, is_blank, second_line, trimmed};

use crate::find::find_byte;

fn is_blank(b: u8) -> bool
    ensures { result ≡ is_blank b }
{
    b == b' ' || b == b'\t' || b == b'\r'
}

/// The line without the blanks at its end.
fn trimmed(line: &[u8]) -> &[u8]
    ensures { result.now ≡ trimmed line.now }
{
    let mut end = line.len();
    while end > 0 && is_blank(line[end - 1]) {
        end -= 1;
    }
    &line[..end]
}

/// The place after the first line, where that line is the header. The header is given without its
/// line feed and without blanks at its end. It goes over the first line alone, and asks for no memory.
///
/// ```text
/// after_header(b"?planner flows; version: 1 \nMODULES ( )", b"?planner flows; version: 1");    // Some(28)
/// after_header(b"?planner flows; version: 2\nMODULES ( )", b"?planner flows; version: 1");     // None
/// ```
pub fn after_header(bytes: &[u8], line: &[u8]) -> Option<u64>
    ensures value { MatchOption result (HasHeader bytes.now line.now → ⊥)
        (λ at. HasHeader bytes.now line.now × (at ≡ second_line bytes.now)) }
    ensures within { IfSome result (λ at. at ≤ length bytes.now) }
{
    let end = find_byte(bytes, b'\n', 0);
    if trimmed(&bytes[..end]) != line {
        return None;
    }
    Some((end + 1).min(bytes.len()) as u64)
}
