ghost use Rattle.std.{specs.Prelude.{◌∷◌, [], OnOk, length, map, zip}, specs.List.range_with_len};
ghost use Rattle.text_kit.specs.Terms.{Verbatim};
ghost use Rattle.report_comments.specs.Comments.{AddsLines, AddsSpaced};
ghost use Rattle.tree_lines.specs.TreeLines.{line_items, multiplier_items, table_word};

use net_core::{Bytes, NoMemory};
use report_comments::puts::{put_field, put_lengths, put_whole, put_word};
use tree_check::{Line, Multiplier, TableKind};

/// Puts numerators last, each with the index of its line.
pub(crate) fn put_multipliers(text: &mut Bytes, multipliers: &[Multiplier]) -> Result<(), NoMemory>
    ensures { OnOk result (AddsSpaced text.old (multiplier_items multipliers.now) text.new) }
{
    for m in multipliers {
        put_whole(text, m.num as u128)?;
        put_whole(text, m.cut as u128)?;
    }
    Ok(())
}

/// Puts the word of a kind of table line last.
fn put_kind(text: &mut Bytes, kind: TableKind) -> Result<(), NoMemory>
    ensures { OnOk result (AddsSpaced text.old (Verbatim (table_word kind) ∷ []) text.new) }
{
    match kind {
        TableKind::Plain => put_word(text, b"plain"),
        TableKind::Failing => put_word(text, b"failing"),
    }
}

/// Puts the words of a further line last.
fn put_words(text: &mut Bytes, index: u128, line: &Line) -> Result<(), NoMemory>
    ensures { OnOk result (AddsSpaced text.old (line_items (index, line.now)) text.new) }
{
    match line {
        Line::Divided { divisor, terms } => {
            put_field(text, b"line", index)?;
            put_whole(text, *divisor)?;
            put_multipliers(text, terms.items())
        }
        Line::Table {
            line,
            kind,
            weights,
        } => {
            put_field(text, b"table", index)?;
            put_whole(text, *line as u128)?;
            put_kind(text, *kind)?;
            put_lengths(text, weights.items())
        }
    }
}

/// Puts the comment line of a further line last.
fn put_line(text: &mut Bytes, index: u128, line: &Line) -> Result<(), NoMemory>
    ensures { OnOk result (AddsLines text.old (line_items (index, line.now) ∷ []) text.new) }
{
    text.append(b"#")?;
    put_words(text, index, line)?;
    text.append(b"\n")
}

/// Puts a comment line for each further line last, with indices from `first` on.
pub(crate) fn put_lines(text: &mut Bytes, first: usize, lines: &[Line]) -> Result<(), NoMemory>
    ensures { OnOk result (AddsLines text.old (map line_items (zip (range_with_len first (length lines.now)) lines.now)) text.new) }
{
    for i in 0..lines.len() {
        put_line(text, first as u128 + i as u128, &lines[i])?;
    }
    Ok(())
}
