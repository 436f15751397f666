ghost use Rattle.std.specs.Prelude.{true};
ghost use Rattle.snd_tokens.specs.Terms.{left};
ghost use Rattle.text_kit.specs.Terms.{ReadsAs};
ghost use Rattle.report_words.{specs.ReportChoices.branch_of, specs.Terms.known_in};
ghost use Rattle.report_parts.specs.Readers.{reader_demands, reader_names};
ghost use Rattle.tree_reader.specs.ReadingLines.{above_at, certificate_to, cheapest_at, closed_at, empty_at, node_branches, spent_at, split_at, stuck_at};

use crate::numbers::terms;
use crate::run::Stop;
use crate::sofar::TreeLine;
use report_parts::plan_reader::PlanReader;
use report_words::context::Context;
use report_words::fault::{ReportKind, ReportRefusal};
use report_words::words::{medium, number, small, sum};
use snd_tokens::Cursor;
use std::alloc::Global;
use text_kit::refusal::bad;
use text_kit::steps::end;
use tree_check::{BoxCert, Node, Verdict};

pub(crate) const SPLIT: &[u8] = b"split";

pub(crate) const CLOSED: &[u8] = b"closed";

pub(crate) const EMPTY: &[u8] = b"empty";

pub(crate) const SPENT: &[u8] = b"spent";

pub(crate) const STUCK: &[u8] = b"stuck";

pub(crate) const CHEAPEST: &[u8] = b"cheapest";

pub(crate) const ABOVE: &[u8] = b"above";

const SMALL_LIMIT: u128 = 1 << 32;

const MEDIUM_LIMIT: u128 = 1 << 64;

const WHOLE_LIMIT: u128 = 1 << 126;

/// Takes a split: its link's name, the module's place there, and the number.
#[tactic(auto, unfolding(crate::specs::ReadingLines::split_at))]
fn split(context: &Context, text: &mut Cursor) -> Result<TreeLine, ReportRefusal>
    ensures { ReadsAs (λ l. l) result (left text.new) (split_at (known_in context.now) (left text.old)) }
{
    let link = context.link(text)?;
    let module = small(0, SMALL_LIMIT, text)?;
    let at = medium(0, MEDIUM_LIMIT, text)?;
    end(ReportKind::Token, text)?;
    Ok(TreeLine::Branch(Node::Split { link, module, at }))
}

/// Takes a certificate, whose numerators end so.
#[tactic(auto, unfolding(crate::specs::ReadingLines::certificate_to))]
fn certificate(alloc: Global, stop: Stop, text: &mut Cursor) -> Result<BoxCert, ReportRefusal>
    ensures { ReadsAs (λ c. c) result (left text.new) (certificate_to stop (left text.old)) }
{
    let den = number(0, WHOLE_LIMIT, text)?;
    let lines = terms(alloc, stop, text)?;
    Ok(BoxCert { den, lines })
}

/// Takes a closed leaf.
#[tactic(auto, unfolding(crate::specs::ReadingLines::closed_at))]
fn closed(alloc: Global, text: &mut Cursor) -> Result<TreeLine, ReportRefusal>
    ensures { ReadsAs (λ l. l) result (left text.new) (closed_at (left text.old)) }
{
    let cert = certificate(alloc, Stop::LineEnd, text)?;
    Ok(TreeLine::Branch(Node::Closed(cert)))
}

/// Takes an empty leaf.
#[tactic(auto, unfolding(crate::specs::ReadingLines::empty_at))]
fn empty(text: &mut Cursor) -> Result<TreeLine, ReportRefusal>
    ensures { ReadsAs (λ l. l) result (left text.new) (empty_at (left text.old)) }
{
    let cut = small(0, SMALL_LIMIT, text)?;
    end(ReportKind::Token, text)?;
    Ok(TreeLine::Branch(Node::Empty { cut }))
}

/// Takes a spent leaf.
#[tactic(auto, unfolding(crate::specs::ReadingLines::spent_at))]
fn spent(alloc: Global, text: &mut Cursor) -> Result<TreeLine, ReportRefusal>
    ensures { ReadsAs (λ l. l) result (left text.new) (spent_at (left text.old)) }
{
    let cert = certificate(alloc, Stop::LineEnd, text)?;
    Ok(TreeLine::Branch(Node::Spent(cert)))
}

/// Takes a leaf of one choice of counts, with its evidence.
#[tactic(auto, unfolding(crate::specs::ReadingLines::stuck_at))]
fn stuck(reader: &PlanReader, text: &mut Cursor) -> Result<TreeLine, ReportRefusal>
    ensures { ReadsAs (λ l. l) result (left text.new) (stuck_at (reader_names reader.now) (reader_demands reader.now) (left text.old)) }
{
    let cert = certificate(reader.alloc, Stop::Wide, text)?;
    let evidence = reader.evidence(text)?;
    end(ReportKind::Token, text)?;
    Ok(TreeLine::Branch(Node::Stuck(cert, evidence)))
}

/// Takes nothing more after the word of a plan that is cheapest.
#[tactic(auto, unfolding(crate::specs::ReadingLines::cheapest_at))]
fn cheapest(text: &mut Cursor) -> Result<TreeLine, ReportRefusal>
    ensures { ReadsAs (λ l. l) result (left text.new) (cheapest_at (left text.old)) }
{
    end(ReportKind::Token, text)?;
    Ok(TreeLine::Last(Verdict::Cheapest))
}

/// Takes the money that no counts cost less than.
#[tactic(auto, unfolding(crate::specs::ReadingLines::above_at))]
fn above(context: &Context, text: &mut Cursor) -> Result<TreeLine, ReportRefusal>
    ensures { ReadsAs (λ l. l) result (left text.new) (above_at (known_in context.now) (left text.old)) }
{
    let least = sum(context.net.places(), WHOLE_LIMIT, text)?;
    end(ReportKind::Token, text)?;
    Ok(TreeLine::Last(Verdict::Above(least)))
}

/// Takes a node or a verdict after its word at a place.
pub(crate) fn node_line(
    reader: &PlanReader,
    at: u64,
    word: &[u8],
    text: &mut Cursor,
) -> Result<TreeLine, ReportRefusal>
    ensures { ReadsAs (λ l. l) result (left text.new)
        (branch_of true (node_branches (reader_names reader.now) (reader_demands reader.now)) at word.now (left text.old)) }
{
    if word == SPLIT {
        return split(reader.context, text);
    }
    if word == CLOSED {
        return closed(reader.alloc, text);
    }
    if word == EMPTY {
        return empty(text);
    }
    if word == SPENT {
        return spent(reader.alloc, text);
    }
    if word == STUCK {
        return stuck(reader, text);
    }
    if word == CHEAPEST {
        return cheapest(text);
    }
    if word == ABOVE {
        return above(reader.context, text);
    }
    Err(bad(at, ReportKind::Token))
}
