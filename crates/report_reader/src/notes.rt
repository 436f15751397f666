ghost use Rattle.std.specs.Prelude.{◌≡◌, Ok};
ghost use Rattle.snd_tokens.specs.Terms.{left};
ghost use Rattle.text_kit.specs.Terms.{ReadsAs};
ghost use Rattle.report_reader.specs.ReadingJournal.{flag_at, notes_at};

use net_core::Notes;
use report_words::fault::ReportRefusal;
use report_words::words::closing;
use snd_tokens::{Cursor, Next};

const FIXED: &[u8] = b"fixed";

const ROUTING: &[u8] = b"routing";

const SETUP: &[u8] = b"setup";

/// Takes this word if it is next, and says whether it was.
fn flag(wanted: &[u8], text: &mut Cursor) -> bool
    ensures { flag_at wanted.now (left text.old) ≡ Ok (result, left text.new) }
{
    let mut ahead = *text;
    match ahead.next() {
        Next::Word(_, word) => {
            if word == wanted {
                *text = ahead;
                return true;
            }
            false
        }
        Next::Open(_) | Next::Close(_) | Next::End(_) => false,
    }
}

/// Takes up to three notes in their order, and the closing parenthesis.
#[tactic(auto, unfolding(crate::specs::ReadingJournal::notes_at))]
pub(crate) fn notes(text: &mut Cursor) -> Result<Notes, ReportRefusal>
    ensures { ReadsAs (λ n. n) result (left text.new) (notes_at (left text.old)) }
{
    let fixed_cost = flag(FIXED, text);
    let routing_cost = flag(ROUTING, text);
    let setup_cost = flag(SETUP, text);
    closing(text)?;
    Ok(Notes {
        fixed_cost,
        routing_cost,
        setup_cost,
    })
}
