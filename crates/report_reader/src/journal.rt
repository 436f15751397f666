ghost use Rattle.std.specs.Prelude.{◌≡◌};
ghost use Rattle.snd_tokens.specs.Terms.{left};
ghost use Rattle.text_kit.specs.Terms.{ReadsAs};
ghost use Rattle.report_reader.specs.ReadingJournal.{edited_at, entries_at, event_at, pooled_at};

use crate::edit::{edit, reply};
use net_core::{Entry, List, Places, StateId, discard};
use report_words::element::{Element, list};
use report_words::fault::{ReportKind, ReportRefusal};
use report_words::words::{closing, opening_within, small, this};
use snd_tokens::Cursor;
use std::alloc::Global;
use text_kit::refusal::bad;
use text_kit::steps::word;

const CALLER: &[u8] = b"caller";

const CUT: &[u8] = b"cut";

const MAX_ENTRIES: usize = 65_536;

const CALLER_LIMIT: u128 = 9;

const INDEX_LIMIT: u128 = 4_096;

/// Takes the place of a cut in the pool, whose line comes later.
#[tactic(auto, unfolding(crate::specs::ReadingJournal::pooled_at))]
fn pooled(alloc: Global, text: &mut Cursor) -> Result<Entry, ReportRefusal>
    ensures { ReadsAs (λ e. e) result (left text.new) (pooled_at (left text.old)) }
{
    let index = small(0, INDEX_LIMIT, text)?;
    Ok(Entry::Pooled {
        index,
        state: StateId(0),
        lengths: List::new(alloc),
    })
}

/// Entries, whose needs have these places, and whose cuts have no state and no lengths yet.
#[derive(Clone, Copy)]
struct EntryList {
    places: Places,
}

impl EntryList {
    /// Takes a caller, an edit and its reply.
    #[tactic(auto, unfolding(crate::specs::ReadingJournal::edited_at))]
    fn edited(&self, alloc: Global, text: &mut Cursor) -> Result<Entry, ReportRefusal>
        ensures { ReadsAs (λ e. e) result (left text.new) (edited_at self.now.places (left text.old)) }
    {
        let caller = small(1, CALLER_LIMIT, text)?;
        let edit = edit(alloc, self.places, text)?;
        let reply = reply(self.places, text)?;
        Ok(Entry::Edited {
            caller,
            edit,
            reply,
        })
    }

    /// Takes what an entry says after its position.
    fn event(&self, alloc: Global, text: &mut Cursor) -> Result<Entry, ReportRefusal>
        ensures { ReadsAs (λ e. e) result (left text.new) (event_at self.now.places (left text.old)) }
    {
        let (at, word) = word(ReportKind::Token, ReportKind::Ended, text)?;
        if word == CALLER {
            return self.edited(alloc, text);
        }
        if word == CUT {
            return pooled(alloc, text);
        }
        Err(bad(at, ReportKind::Token))
    }
}

impl Element for EntryList {
    ghost use Rattle.text_kit.specs.Terms.{no_fault};
    ghost use Rattle.report_reader.specs.ReadingJournal.{journal_entry_at};

    type Item = Entry;

    ghost reading = { λ l. journal_entry_at l.places };

    ghost fault = { λ _. no_fault };

    #[tactic(auto, unfolding(crate::specs::ReadingJournal::journal_entry_at))]
    fn take(
        &self,
        alloc: Global,
        sofar: &[Entry],
        text: &mut Cursor,
    ) -> Result<Entry, ReportRefusal> {
        opening_within(sofar.len() < MAX_ENTRIES, text)?;
        this(sofar.len() as u64 + 1, text)?;
        let event = self.event(alloc, text)?;
        if let Err(refusal) = closing(text) {
            discard(event);
            return Err(refusal);
        }
        Ok(event)
    }

    fn fault(&self, _all: &[Entry]) -> Option<ReportKind> {
        None
    }
}

/// Takes entries, up to the closing parenthesis.
pub(crate) fn entries(
    alloc: Global,
    places: Places,
    text: &mut Cursor,
) -> Result<List<Entry>, ReportRefusal>
    ensures { ReadsAs (λ l. l) result (left text.new) (entries_at places (left text.old)) }
{
    list(alloc, &EntryList { places }, text)
}
