ghost use Rattle.std.specs.Prelude.{◌<◌, IfOk};
ghost use Rattle.snd_tokens.specs.Terms.{left};
ghost use Rattle.text_kit.specs.Terms.{ReadsAs};
ghost use Rattle.report_words.specs.ReportFields.{field_at};

use crate::fault::ReportRefusal;
use crate::words::{keyword, number};
use snd_tokens::Cursor;

/// Takes the word that says what comes after it, and a whole number from `least`, below `limit`.
/// Another word is `token`, and the number has the faults of `whole_within`. It takes time in the bytes up to the number's end, and no memory.
#[tactic(auto, unfolding(crate::specs::ReportFields::field_at))]
pub fn field(
    wanted: &[u8],
    least: u128,
    limit: u128,
    text: &mut Cursor,
) -> Result<u128, ReportRefusal>
    ensures reads { ReadsAs (λ n. n) result (left text.new) (field_at wanted.now least limit (left text.old)) }
    ensures below { IfOk result (λ n. n < limit) }
{
    keyword(wanted, text)?;
    number(least, limit, text)
}
