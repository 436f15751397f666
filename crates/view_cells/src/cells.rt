ghost use Rattle.std.specs.Prelude.{◌≡◌, ◌++◌, ◌∷◌, [], OnOk, decimal, flat_map};
ghost use Rattle.text_kit.specs.Terms.{money_word};
ghost use Rattle.view_cells.specs.Cells.{counted, joined_words, per_cent, tenths_per_cent};

use net_core::{Bytes, List, NoMemory, Places};
use std::alloc::Global;
use text_kit::write::{put_decimal, put_money_word};
use text_layout::Row;

/// Puts a cell last. Each function here takes time in what it puts, and asks for memory only for that; where memory runs out, the row or the text
/// may end in part of what was to be put.
pub fn push_cell(row: &mut Row, cell: Bytes) -> Result<(), NoMemory>
    ensures { OnOk result (row.new ≡ row.old ++ cell ∷ []) }
{
    row.push(cell)?;
    Ok(())
}

/// Puts a cell of these words last.
pub fn push_words(row: &mut Row, alloc: Global, words: &[u8]) -> Result<(), NoMemory>
    ensures { OnOk result (row.new ≡ row.old ++ words.now ∷ []) }
{
    push_cell(row, List::from_slice(alloc, words)?)
}

/// Puts two cells of these words last.
pub fn push_pair(row: &mut Row, alloc: Global, first: &[u8], second: &[u8]) -> Result<(), NoMemory>
    ensures { OnOk result (row.new ≡ row.old ++ first.now ∷ second.now ∷ []) }
{
    push_words(row, alloc, first)?;
    push_words(row, alloc, second)
}

/// Puts three cells of these words last.
pub fn push_three(
    row: &mut Row,
    alloc: Global,
    first: &[u8],
    second: &[u8],
    third: &[u8],
) -> Result<(), NoMemory>
    ensures { OnOk result (row.new ≡ row.old ++ first.now ∷ second.now ∷ third.now ∷ []) }
{
    push_words(row, alloc, first)?;
    push_pair(row, alloc, second, third)
}

/// Puts a cell of units of a network with these places last, as an amount or money.
pub fn push_money(row: &mut Row, alloc: Global, places: Places, n: u128) -> Result<(), NoMemory>
    ensures { OnOk result (row.new ≡ row.old ++ money_word places n ∷ []) }
{
    let mut text = List::new(alloc);
    put_money_word(&mut text, places, n)?;
    push_cell(row, text)
}

/// Puts a cell of a whole number last.
pub fn push_number(row: &mut Row, alloc: Global, n: u128) -> Result<(), NoMemory>
    ensures { OnOk result (row.new ≡ row.old ++ decimal n ∷ []) }
{
    let mut text = List::new(alloc);
    put_decimal(&mut text, n)?;
    push_cell(row, text)
}

/// Puts a number in per cent last.
fn put_per_cent(text: &mut Bytes, n: u32) -> Result<(), NoMemory>
    ensures { OnOk result (text.new ≡ text.old ++ per_cent n) }
{
    put_decimal(text, n as u128)?;
    text.append(b" %")
}

/// Puts a cell of a number in per cent last.
pub fn push_per_cent(row: &mut Row, alloc: Global, n: u32) -> Result<(), NoMemory>
    ensures { OnOk result (row.new ≡ row.old ++ per_cent n ∷ []) }
{
    let mut text = List::new(alloc);
    put_per_cent(&mut text, n)?;
    push_cell(row, text)
}

/// Puts a number of tenths of a per cent last.
pub fn put_tenths(text: &mut Bytes, n: u32) -> Result<(), NoMemory>
    ensures { OnOk result (text.new ≡ text.old ++ tenths_per_cent n) }
{
    put_decimal(text, (n / 10) as u128)?;
    text.append(b".")?;
    put_decimal(text, (n % 10) as u128)?;
    text.append(b" %")
}

/// Puts a number last, and a word for that many things: the word for one, or the word for another number.
pub fn put_counted(text: &mut Bytes, n: usize, one: &[u8], more: &[u8]) -> Result<(), NoMemory>
    ensures { OnOk result (text.new ≡ text.old ++ counted n one.now more.now) }
{
    put_decimal(text, n as u128)?;
    text.append(b" ")?;
    text.append(if n == 1 { one } else { more })
}

/// Puts words last, each after a text.
fn put_further(text: &mut Bytes, between: &[u8], words: &[Bytes]) -> Result<(), NoMemory>
    ensures { OnOk result (text.new ≡ text.old ++ flat_map (λ v. between.now ++ v) words.now) }
{
    for word in words {
        text.append(between)?;
        text.append(word.items())?;
    }
    Ok(())
}

/// Puts words last, with a text between each two; a dash where there are none.
fn put_joined(text: &mut Bytes, between: &[u8], words: &[Bytes]) -> Result<(), NoMemory>
    ensures { OnOk result (text.new ≡ text.old ++ joined_words between.now words.now) }
{
    match words {
        [] => text.append(b"-"),
        [first, further @ ..] => {
            text.append(first.items())?;
            put_further(text, between, further)
        }
    }
}

/// Puts a cell of words last, with a text between each two; a dash where there are none.
pub fn push_joined(
    row: &mut Row,
    alloc: Global,
    between: &[u8],
    words: &[Bytes],
) -> Result<(), NoMemory>
    ensures { OnOk result (row.new ≡ row.old ++ joined_words between.now words.now ∷ []) }
{
    let mut text = List::new(alloc);
    put_joined(&mut text, between, words)?;
    push_cell(row, text)
}
