ghost use Rattle.snd_tokens.specs.Terms.{left};
ghost use Rattle.text_kit.specs.Terms.{ReadsAs};
ghost use Rattle.report_words.specs.Terms.{known_in};
ghost use Rattle.tree_reader.specs.ReadingLines.{box_cut_at, divided_at, kind_at, table_at};

use crate::numbers::{lengths, terms, weights};
use crate::run::Stop;
use crate::sofar::TreeLine;
use net_core::{CutLine, StateId};
use report_words::context::Context;
use report_words::fault::{ReportKind, ReportRefusal};
use report_words::words::{number, small, this};
use snd_tokens::Cursor;
use std::alloc::Global;
use text_kit::refusal::bad;
use text_kit::steps::word;
use tree_check::{Line, TableKind};

const PLAIN: &[u8] = b"plain";

const FAILING: &[u8] = b"failing";

const INDEX_LIMIT: u128 = 1 << 32;

const WHOLE_LIMIT: u128 = 1 << 126;

/// Takes a cut, whose index has to be this one.
#[tactic(auto, unfolding(crate::specs::ReadingLines::box_cut_at))]
pub(crate) fn box_cut(
    alloc: Global,
    context: &Context,
    index: usize,
    text: &mut Cursor,
) -> Result<TreeLine, ReportRefusal>
    ensures { ReadsAs (λ l. l) result (left text.new) (box_cut_at (known_in context.now) index (left text.old)) }
{
    this(index as u64, text)?;
    let state = small(0, u128::from(context.states.count()), text)?;
    let right = number(0, WHOLE_LIMIT, text)?;
    let lengths = lengths(alloc, context.net.links().len(), text)?;
    Ok(TreeLine::Cut(CutLine {
        state: StateId(state),
        lengths,
        right,
    }))
}

/// Takes a divided line, whose index has to be this one.
#[tactic(auto, unfolding(crate::specs::ReadingLines::divided_at))]
pub(crate) fn divided(
    alloc: Global,
    index: usize,
    text: &mut Cursor,
) -> Result<TreeLine, ReportRefusal>
    ensures { ReadsAs (λ l. l) result (left text.new) (divided_at index (left text.old)) }
{
    this(index as u64, text)?;
    let divisor = number(0, WHOLE_LIMIT, text)?;
    let terms = terms(alloc, Stop::LineEnd, text)?;
    Ok(TreeLine::Further(Line::Divided { divisor, terms }))
}

/// Takes the kind of a table line.
fn kind(text: &mut Cursor) -> Result<TableKind, ReportRefusal>
    ensures { ReadsAs (λ k. k) result (left text.new) (kind_at (left text.old)) }
{
    let (at, word) = word(ReportKind::Token, ReportKind::Ended, text)?;
    if word == PLAIN {
        return Ok(TableKind::Plain);
    }
    if word == FAILING {
        return Ok(TableKind::Failing);
    }
    Err(bad(at, ReportKind::Token))
}

/// Takes a table line, whose index has to be this one.
#[tactic(auto, unfolding(crate::specs::ReadingLines::table_at))]
pub(crate) fn table(
    alloc: Global,
    index: usize,
    text: &mut Cursor,
) -> Result<TreeLine, ReportRefusal>
    ensures { ReadsAs (λ l. l) result (left text.new) (table_at index (left text.old)) }
{
    this(index as u64, text)?;
    let line = small(0, INDEX_LIMIT, text)?;
    let kind = kind(text)?;
    let weights = weights(alloc, text)?;
    Ok(TreeLine::Further(Line::Table {
        line,
        kind,
        weights,
    }))
}
