ghost use Rattle.std.specs.Prelude.{◌≡◌, ◌≤◌, IfOk, length};
ghost use Rattle.snd_tokens.specs.Terms.{left};
ghost use Rattle.text_kit.specs.Terms.{ReadsAs};
ghost use Rattle.plan_report.specs.Terms.{known_of};
ghost use Rattle.report_reader.specs.ReadingJournal.{pool_at, pool_cut_at};

use net_core::{CutLine, List, Network, StateId, States};
use report_words::element::{Element, list};
use report_words::fault::{ReportKind, ReportRefusal};
use report_words::field::field;
use report_words::numbers::lengths;
use report_words::words::{closing, opening_within, this};
use snd_tokens::Cursor;
use std::alloc::Global;

const STATE: &[u8] = b"state";

const RIGHT: &[u8] = b"right";

const MAX_LINES: usize = 4_096;

const RIGHT_LIMIT: u128 = 1 << 84;

/// Lines of the pool of a network and its states.
#[derive(Clone, Copy)]
struct LineList<'a> {
    net: &'a Network,
    states: &'a States,
}

impl<'a> LineList<'a> {
    /// Takes the state, the right side and the lengths of a cut, and the closing parenthesis.
    #[tactic(auto, unfolding(crate::specs::ReadingJournal::pool_cut_at))]
    fn pool_cut(&self, alloc: Global, text: &mut Cursor) -> Result<CutLine, ReportRefusal>
        ensures { ReadsAs (λ l. l) result (left text.new) (pool_cut_at (known_of self.now.net.now self.now.states.now) (left text.old)) }
    {
        let state = field(STATE, 0, u128::from(self.states.count()), text)? as u32;
        let right = field(RIGHT, 0, RIGHT_LIMIT, text)?;
        let lengths = lengths(alloc, self.net.links().len(), text)?;
        closing(text)?;
        Ok(CutLine {
            state: StateId(state),
            lengths,
            right,
        })
    }
}

impl<'a> Element for LineList<'a> {
    ghost use Rattle.text_kit.specs.Terms.{no_fault};
    ghost use Rattle.plan_report.specs.Terms.{known_of};
    ghost use Rattle.report_reader.specs.ReadingJournal.{pool_line_at};

    type Item = CutLine;

    ghost reading = { λ l. pool_line_at (known_of l.net.now l.states.now) };

    ghost fault = { λ _. no_fault };

    #[tactic(auto, unfolding(crate::specs::ReadingJournal::pool_line_at))]
    fn take(
        &self,
        alloc: Global,
        sofar: &[CutLine],
        text: &mut Cursor,
    ) -> Result<CutLine, ReportRefusal> {
        opening_within(sofar.len() < MAX_LINES, text)?;
        this(sofar.len() as u64, text)?;
        self.pool_cut(alloc, text)
    }

    fn fault(&self, _all: &[CutLine]) -> Option<ReportKind> {
        None
    }
}

/// Takes the lines of the pool, up to the closing parenthesis.
pub(crate) fn pool(
    alloc: Global,
    net: &Network,
    states: &States,
    text: &mut Cursor,
) -> Result<List<CutLine>, ReportRefusal>
    ensures reads { ReadsAs (λ l. l) result (left text.new) (pool_at (known_of net.now states.now) (left text.old)) }
    ensures few { IfOk result (λ l. length l ≤ 4096) }
{
    list(alloc, &LineList { net, states }, text)
}
