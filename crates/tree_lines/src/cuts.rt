ghost use Rattle.std.{specs.Prelude.{◌∷◌, [], OnOk, length, map, zip}, specs.List.range_with_len};
ghost use Rattle.report_comments.specs.Comments.{AddsLines, AddsSpaced};
ghost use Rattle.tree_lines.specs.TreeLines.{box_cut_items};

use net_core::{Bytes, CutLine, NoMemory};
use report_comments::puts::{put_field, put_lengths, put_whole};

/// Puts the words of a cut last.
fn put_words(text: &mut Bytes, index: usize, cut: &CutLine) -> Result<(), NoMemory>
    ensures { OnOk result (AddsSpaced text.old (box_cut_items (index, cut.now)) text.new) }
{
    put_field(text, b"box-cut", index as u128)?;
    put_whole(text, cut.state.0 as u128)?;
    put_whole(text, cut.right)?;
    put_lengths(text, cut.lengths.items())
}

/// Puts the comment line of a cut last.
fn put_cut(text: &mut Bytes, index: usize, cut: &CutLine) -> Result<(), NoMemory>
    ensures { OnOk result (AddsLines text.old (box_cut_items (index, cut.now) ∷ []) text.new) }
{
    text.append(b"#")?;
    put_words(text, index, cut)?;
    text.append(b"\n")
}

/// Puts a comment line for each cut last.
pub(crate) fn put_cuts(text: &mut Bytes, cuts: &[CutLine]) -> Result<(), NoMemory>
    ensures { OnOk result (AddsLines text.old (map box_cut_items (zip (range_with_len 0 (length cuts.now)) cuts.now)) text.new) }
{
    for i in 0..cuts.len() {
        put_cut(text, i, &cuts[i])?;
    }
    Ok(())
}
