ghost use Rattle.std.specs.Prelude.{◌∷◌, [], OnOk, flat_map};
ghost use Rattle.report_comments.specs.Comments.{AddsLines, AddsSpaced};
ghost use Rattle.failure_texts.specs.FailureTexts.{left_out, left_out_items};

use crate::fates::Fate;
use net_core::{Bytes, Demand, Link, NoMemory};
use report_comments::puts::put_word;
use report_comments::{put_demand, put_link_name};

/// Puts the words on a link last whose failure separates the demand at a place.
fn put_words(
    text: &mut Bytes,
    links: &[Link],
    demands: &[Demand],
    fate: Fate,
    k: u32,
) -> Result<(), NoMemory>
    ensures { OnOk result (AddsSpaced text.old (left_out_items links.now demands.now fate k) text.new) }
{
    put_link_name(text, links, fate.link)?;
    put_demand(text, b"is left out: without it demand", demands, k)?;
    put_word(text, b"can't be carried")
}

/// Puts the comment line on a link last whose failure separates the demand at a place.
fn put_line(
    text: &mut Bytes,
    links: &[Link],
    demands: &[Demand],
    fate: Fate,
    k: u32,
) -> Result<(), NoMemory>
    ensures { OnOk result (AddsLines text.old (left_out_items links.now demands.now fate k ∷ []) text.new) }
{
    text.append(b"#")?;
    put_words(text, links, demands, fate, k)?;
    text.append(b"\n")
}

/// Puts a comment line on a link last, if its failure separates a demand.
fn put_left_out(
    text: &mut Bytes,
    links: &[Link],
    demands: &[Demand],
    fate: Fate,
) -> Result<(), NoMemory>
    ensures { OnOk result (AddsLines text.old (left_out links.now demands.now fate) text.new) }
{
    match fate.separated {
        None => Ok(()),
        Some(k) => put_line(text, links, demands, fate, k),
    }
}

/// Puts a comment line on each link last whose failure separates a demand.
pub(crate) fn put_comments(
    text: &mut Bytes,
    links: &[Link],
    demands: &[Demand],
    fates: &[Fate],
) -> Result<(), NoMemory>
    ensures { OnOk result (AddsLines text.old (flat_map (left_out links.now demands.now) fates.now) text.new) }
{
    for fate in fates {
        put_left_out(text, links, demands, *fate)?;
    }
    Ok(())
}
