ghost use Rattle.std.specs.Prelude.{◌∷◌, [], All, OnOk, map};
ghost use Rattle.trim_plan.specs.Terms.{Cut as CutStop};
ghost use Rattle.report_comments.specs.Comments.{AddsLines, AddsSpaced};
ghost use Rattle.plan_reports.specs.BlockLines.{IsTold, block_items, stop_items};

use able_counts::Stop;
use net_core::{Bytes, CutLine, Demand, Link, NoMemory};
use report_comments::puts::{put_field, put_lengths, put_whole, put_word};
use report_comments::{put_evidence, put_link};
use trim_plan::Block;

/// Appends a cut: its state, its right side, and a length for each link.
fn put_cut(
    text: &mut Bytes,
    links: &[Link],
    demands: &[Demand],
    cut: &CutLine,
) -> Result<(), NoMemory>
    ensures { OnOk result (AddsSpaced text.old (stop_items links.now demands.now (CutStop cut.now)) text.new) }
{
    put_field(text, b"cut", cut.state.0 as u128)?;
    put_field(text, b"right", cut.right)?;
    put_word(text, b"lengths")?;
    put_lengths(text, cut.lengths.items())
}

/// Appends why a module stays.
fn put_stop(
    text: &mut Bytes,
    links: &[Link],
    demands: &[Demand],
    stop: &Stop,
) -> Result<(), NoMemory>
    requires { IsTold stop.now }
    ensures { OnOk result (AddsSpaced text.old (stop_items links.now demands.now stop.now) text.new) }
{
    match stop {
        Stop::Cut(cut) => put_cut(text, links, demands, cut),
        Stop::Wide(evidence) => {
            put_word(text, b"wide")?;
            put_evidence(text, links, demands, evidence)
        }
    }
}

/// Appends the words of a block, after the sign of a comment.
fn put_words(
    text: &mut Bytes,
    links: &[Link],
    demands: &[Demand],
    block: &Block,
) -> Result<(), NoMemory>
    requires { IsTold block.now.why }
    ensures { OnOk result (AddsSpaced text.old (block_items links.now demands.now block.now) text.new) }
{
    put_link(text, b"blocked", links, block.link)?;
    put_whole(text, block.module as u128)?;
    put_stop(text, links, demands, &block.why)
}

/// Appends the comment line of a block.
fn put_block(
    text: &mut Bytes,
    links: &[Link],
    demands: &[Demand],
    block: &Block,
) -> Result<(), NoMemory>
    requires { IsTold block.now.why }
    ensures { OnOk result (AddsLines text.old (block_items links.now demands.now block.now ∷ []) text.new) }
{
    text.append(b"#")?;
    put_words(text, links, demands, block)?;
    text.append(b"\n")
}

/// Appends a comment line for each block.
pub(crate) fn put_blocks(
    text: &mut Bytes,
    links: &[Link],
    demands: &[Demand],
    blocks: &[Block],
) -> Result<(), NoMemory>
    requires { All (λ b. IsTold b.why) blocks.now }
    ensures { OnOk result (AddsLines text.old (map (block_items links.now demands.now) blocks.now) text.new) }
{
    for block in blocks {
        put_block(text, links, demands, block)?;
    }
    Ok(())
}
