use report_words::element::ListEnd;
use snd_tokens::{Cursor, Next};

const WIDE: &[u8] = b"wide";

/// What a list of numbers ends with.
#[derive(Clone, Copy, Debug, PartialEq, Eq)]
pub(crate) enum Stop {
    /// The end of the line.
    LineEnd,
    /// The word `wide`.
    Wide,
}

impl ListEnd for Stop {
    ghost use Rattle.tree_reader.specs.Runs.{stop_ending};

    ghost ending = { stop_ending };

    fn pass(&self, text: &mut Cursor) -> Option<u64> {
        let mut ahead = *text;
        let at = match (*self, ahead.next()) {
            (Stop::LineEnd, Next::End(at)) => at,
            (Stop::Wide, Next::Word(at, word)) if word == WIDE => at,
            _ => return None,
        };
        *text = ahead;
        Some(at)
    }
}
