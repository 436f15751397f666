ghost use Rattle.snd_tokens.specs.Terms.{left};
ghost use Rattle.text_kit.specs.Terms.{ReadsAs};
ghost use Rattle.tree_reader.specs.ReadingLines.{lengths_at, term_at, terms_at, weights_at};

use crate::run::Stop;
use net_core::{Lengths, List};
use report_words::element::{Element, list_to};
use report_words::fault::{ReportKind, ReportRefusal};
use report_words::numbers::LengthList;
use report_words::words::{medium, small};
use snd_tokens::Cursor;
use std::alloc::Global;
use tree_check::Multiplier;

const SMALL_LIMIT: u128 = 1 << 32;

const MEDIUM_LIMIT: u128 = 1 << 64;

/// Weights below 2^32.
#[derive(Clone, Copy)]
struct WeightRun;

impl Element for WeightRun {
    ghost use Rattle.std.specs.Prelude.{◌^◌};
    ghost use Rattle.text_kit.specs.Terms.{no_fault};
    ghost use Rattle.report_words.specs.Terms.{number_at};

    type Item = u32;

    ghost reading = { λ _ _. number_at 0 (2 ^ 32) };

    ghost fault = { λ _. no_fault };

    fn take(
        &self,
        _alloc: Global,
        _sofar: &[u32],
        text: &mut Cursor,
    ) -> Result<u32, ReportRefusal> {
        small(0, SMALL_LIMIT, text)
    }

    fn fault(&self, _all: &[u32]) -> Option<ReportKind> {
        None
    }
}

/// Takes a numerator, and the index of its line.
#[tactic(auto, unfolding(crate::specs::ReadingLines::term_at))]
fn term(text: &mut Cursor) -> Result<Multiplier, ReportRefusal>
    ensures { ReadsAs (λ m. m) result (left text.new) (term_at (left text.old)) }
{
    let num = medium(0, MEDIUM_LIMIT, text)?;
    let cut = small(0, SMALL_LIMIT, text)?;
    Ok(Multiplier { cut, num })
}

/// Numerators, each with the index of its line.
#[derive(Clone, Copy)]
struct TermRun;

impl Element for TermRun {
    ghost use Rattle.text_kit.specs.Terms.{no_fault};
    ghost use Rattle.tree_reader.specs.ReadingLines.{term_at};

    type Item = Multiplier;

    ghost reading = { λ _ _. term_at };

    ghost fault = { λ _. no_fault };

    fn take(
        &self,
        _alloc: Global,
        _sofar: &[Multiplier],
        text: &mut Cursor,
    ) -> Result<Multiplier, ReportRefusal> {
        term(text)
    }

    fn fault(&self, _all: &[Multiplier]) -> Option<ReportKind> {
        None
    }
}

/// Takes a length below 2^32 for each of `count` links, up to the end of the line. One that is out of that range, or one too many or too
/// few, is `limit`.
pub(crate) fn lengths(
    alloc: Global,
    count: usize,
    text: &mut Cursor,
) -> Result<Lengths, ReportRefusal>
    ensures { ReadsAs (λ l. l) result (left text.new) (lengths_at count (left text.old)) }
{
    list_to(alloc, &LengthList { count }, &Stop::LineEnd, text)
}

/// Takes weights, up to the end of the line.
pub(crate) fn weights(alloc: Global, text: &mut Cursor) -> Result<List<u32>, ReportRefusal>
    ensures { ReadsAs (λ l. l) result (left text.new) (weights_at (left text.old)) }
{
    list_to(alloc, &WeightRun, &Stop::LineEnd, text)
}

/// Takes numerators, each with the index of its line, up to what ends them.
pub(crate) fn terms(
    alloc: Global,
    stop: Stop,
    text: &mut Cursor,
) -> Result<List<Multiplier>, ReportRefusal>
    ensures { ReadsAs (λ l. l) result (left text.new) (terms_at stop (left text.old)) }
{
    list_to(alloc, &TermRun, &stop, text)
}
