ghost use Rattle.std.specs.Prelude.{◌≡◌};
ghost use Rattle.snd_tokens.specs.Terms.{left};
ghost use Rattle.text_kit.specs.Terms.{ReadsAs};
ghost use Rattle.sndlib_reader.specs.Reading.{skipped_at};

use crate::fault::{ReadKind, ReadRefusal};
use snd_tokens::{Cursor, Next};
use text_kit::refusal::bad;

/// Takes what is left of an open parenthesis, whatever is in it.
pub(crate) fn skip(text: &mut Cursor) -> Result<(), ReadRefusal>
    ensures { ReadsAs (λ _. tt) result (left text.new) (skipped_at 0 (left text.old)) }
{
    let mut depth: u64 = 0;
    loop {
        match text.next() {
            Next::Word(_, _) => {}
            Next::Open(_) => depth += 1,
            Next::Close(_) if depth == 0 => return Ok(()),
            Next::Close(_) => depth -= 1,
            Next::End(at) => return Err(bad(at, ReadKind::Ended)),
        }
    }
}
