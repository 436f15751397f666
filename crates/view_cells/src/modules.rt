ghost use Rattle.std.specs.Prelude.{◌≡◌, ◌++◌, ◌∷◌, [], OnOk, codes};
ghost use Rattle.view_cells.{specs.Cells.joined_words, specs.ModuleWords.{kind_words, kinds_words}};

use crate::cells::{push_cell, push_joined};
use net_core::{List, Module, NoMemory, Places};
use std::alloc::Global;
use text_kit::write::{put_decimal, put_money_word};
use text_layout::Row;

/// Puts words last on how many modules of a kind there are and what one of them carries, if there are some.
fn push_kind(
    words: &mut Row,
    alloc: Global,
    places: Places,
    kind: Module,
    count: u64,
) -> Result<(), NoMemory>
    ensures { OnOk result (words.new ≡ words.old ++ kind_words places kind count) }
{
    if count == 0 {
        return Ok(());
    }
    let mut text = List::new(alloc);
    put_decimal(&mut text, count as u128)?;
    text.append(b" x ")?;
    put_money_word(&mut text, places, kind.capacity as u128)?;
    push_cell(words, text)
}

/// Puts words on each kind of modules last.
fn push_kinds(
    words: &mut Row,
    alloc: Global,
    places: Places,
    modules: &[Module],
    counts: &[u64],
) -> Result<(), NoMemory>
    ensures { OnOk result (words.new ≡ words.old ++ kinds_words places modules.now counts.now) }
{
    for i in 0..modules.len().min(counts.len()) {
        push_kind(words, alloc, places, modules[i], counts[i])?;
    }
    Ok(())
}

/// Puts a cell of the modules of a link last: of each kind that it has, how many and what one of them carries; a dash where it has none.
/// It takes time and memory in the cell.
pub fn push_modules(
    row: &mut Row,
    alloc: Global,
    places: Places,
    modules: &[Module],
    counts: &[u64],
) -> Result<(), NoMemory>
    ensures { OnOk result (row.new ≡ row.old ++ joined_words (codes " + ") (kinds_words places modules.now counts.now) ∷ []) }
{
    let mut words = List::new(alloc);
    push_kinds(&mut words, alloc, places, modules, counts)?;
    push_joined(row, alloc, b" + ", words.items())
}
