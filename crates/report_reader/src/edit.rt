ghost use Rattle.std.specs.Prelude.{◌≡◌};
ghost use Rattle.snd_tokens.specs.Terms.{left};
ghost use Rattle.text_kit.specs.Terms.{ReadsAs};
ghost use Rattle.report_words.specs.Terms.{branch_at};
ghost use Rattle.report_reader.specs.ReadingJournal.{accepted_at, add_at, drop_at, edit_at, reply_branches, set_at, too_much_at, two_names_at};

use net_core::{Edit, Name, Places, Reply};
use report_words::fault::{ReportKind, ReportRefusal};
use report_words::words::{amount, closing, medium, name, opening, sum};
use snd_tokens::Cursor;
use std::alloc::Global;
use text_kit::refusal::bad;
use text_kit::steps::word;

const SET: &[u8] = b"set";

const ADD: &[u8] = b"add";

const DROP: &[u8] = b"drop";

const ACCEPTED: &[u8] = b"accepted";

const UNKNOWN_DEMAND: &[u8] = b"unknown-demand";

const KNOWN_DEMAND: &[u8] = b"known-demand";

const UNKNOWN_NODE: &[u8] = b"unknown-node";

const SELF_DEMAND: &[u8] = b"self-demand";

const TOO_MANY: &[u8] = b"too-many";

const TOO_MUCH: &[u8] = b"too-much";

const VERSION_LIMIT: u128 = 65_537;

const TOTAL_LIMIT: u128 = 1 << 45;

/// Takes the name and the new need of a demand.
#[tactic(auto, unfolding(crate::specs::ReadingJournal::set_at))]
fn set(alloc: Global, places: Places, text: &mut Cursor) -> Result<Edit, ReportRefusal>
    ensures { ReadsAs (λ e. e) result (left text.new) (set_at places (left text.old)) }
{
    let name = name(alloc, text)?;
    let need = amount(places, text)?;
    Ok(Edit::Set { name, need })
}

/// Takes two names between parentheses.
#[tactic(auto, unfolding(crate::specs::ReadingJournal::two_names_at))]
fn two_names(alloc: Global, text: &mut Cursor) -> Result<(Name, Name), ReportRefusal>
    ensures { ReadsAs (λ p. p) result (left text.new) (two_names_at (left text.old)) }
{
    opening(text)?;
    let from = name(alloc, text)?;
    let to = name(alloc, text)?;
    closing(text)?;
    Ok((from, to))
}

/// Takes the name, the two nodes and the need of a new demand.
#[tactic(auto, unfolding(crate::specs::ReadingJournal::add_at))]
fn add(alloc: Global, places: Places, text: &mut Cursor) -> Result<Edit, ReportRefusal>
    ensures { ReadsAs (λ e. e) result (left text.new) (add_at places (left text.old)) }
{
    let name = name(alloc, text)?;
    let (from, to) = two_names(alloc, text)?;
    let need = amount(places, text)?;
    Ok(Edit::Add {
        name,
        from,
        to,
        need,
    })
}

/// Takes the name of a demand that goes.
#[tactic(auto, unfolding(crate::specs::ReadingJournal::drop_at))]
fn drop_demand(alloc: Global, text: &mut Cursor) -> Result<Edit, ReportRefusal>
    ensures { ReadsAs (λ e. e) result (left text.new) (drop_at (left text.old)) }
{
    let name = name(alloc, text)?;
    Ok(Edit::Drop { name })
}

/// Takes an edit.
pub(crate) fn edit(alloc: Global, places: Places, text: &mut Cursor) -> Result<Edit, ReportRefusal>
    ensures { ReadsAs (λ e. e) result (left text.new) (edit_at places (left text.old)) }
{
    let (at, word) = word(ReportKind::Token, ReportKind::Ended, text)?;
    if word == SET {
        return set(alloc, places, text);
    }
    if word == ADD {
        return add(alloc, places, text);
    }
    if word == DROP {
        return drop_demand(alloc, text);
    }
    Err(bad(at, ReportKind::Token))
}

/// Takes the version that an edit gave.
#[tactic(auto, unfolding(crate::specs::ReadingJournal::accepted_at))]
fn accepted(text: &mut Cursor) -> Result<Reply, ReportRefusal>
    ensures { ReadsAs (λ r. r) result (left text.new) (accepted_at (left text.old)) }
{
    let version = medium(0, VERSION_LIMIT, text)?;
    Ok(Reply::Accepted(version))
}

/// Takes the total that is too much.
#[tactic(auto, unfolding(crate::specs::ReadingJournal::too_much_at))]
fn too_much(places: Places, text: &mut Cursor) -> Result<Reply, ReportRefusal>
    ensures { ReadsAs (λ r. r) result (left text.new) (too_much_at places (left text.old)) }
{
    let total = sum(places, TOTAL_LIMIT, text)?;
    Ok(Reply::TooMuch(total as u64))
}

/// Takes a reply.
pub(crate) fn reply(places: Places, text: &mut Cursor) -> Result<Reply, ReportRefusal>
    ensures { ReadsAs (λ r. r) result (left text.new) (branch_at (reply_branches places) (left text.old)) }
{
    let (at, word) = word(ReportKind::Token, ReportKind::Ended, text)?;
    if word == ACCEPTED {
        return accepted(text);
    }
    if word == UNKNOWN_DEMAND {
        return Ok(Reply::UnknownDemand);
    }
    if word == KNOWN_DEMAND {
        return Ok(Reply::KnownDemand);
    }
    if word == UNKNOWN_NODE {
        return Ok(Reply::UnknownNode);
    }
    if word == SELF_DEMAND {
        return Ok(Reply::SelfDemand);
    }
    if word == TOO_MANY {
        return Ok(Reply::TooMany);
    }
    if word == TOO_MUCH {
        return too_much(places, text);
    }
    Err(bad(at, ReportKind::Token))
}
