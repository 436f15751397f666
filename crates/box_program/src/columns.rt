ghost use Rattle.std.specs.Prelude.{◌≡◌, ◌+◌, ◌<◌, ◌≤◌, ◌^◌, IfOk, IfSome, OnOk, length};
ghost use Rattle.box_program.specs.inner.BoxPrograms.{AreBoxColumns, AreBoxEntries, HasColumnMore, IsBoxColumn};

use crate::program::Rated;
use crate::rows::{WIDE, signed};
use crate::shape::{Cap, ModuleRow, Rows};
use crate::spans::modules_of;
use line_check::inequality::coefficient;
use line_check::{Inequality, Tested};
use net_core::{Link, List, NoMemory};
use simplex_core::{Column, Entry};
use std::alloc::Global;
use tree_check::Span;
use tree_check::boxes::span_at;

/// What a column gains, and what it takes.
#[derive(Drop)]
struct Load {
    gain: u64,
    entries: List<Entry>,
    ghost narrow: { gain < 2 ^ 62 },
    ghost some: { 0 < length entries },
}

/// What an entry takes of its row's bound, in units of 2^-20.
fn share_of(bounds: &[i64], entry: &Entry) -> u128 {
    let row = entry.row as usize;
    let bound = if row < bounds.len() {
        bounds[row].unsigned_abs().max(1)
    } else {
        1
    };
    (entry.value.unsigned_abs() as u128 * (1 << 20)).div_ceil(bound as u128)
}

/// What a column's surplus is compared by: the sum of its entries' shares.
fn weight_of(bounds: &[i64], entries: &[Entry]) -> u128
    ensures { 0 < result }
{
    let mut weight = 0u128;
    for entry in entries {
        weight = weight.saturating_add(share_of(bounds, entry));
    }
    weight.max(1)
}

/// What is left of what a line asks for when the least counts of a link's modules give their part.
fn rest_after(line: &Inequality, links: &[Link], boxed: &[List<Span>], e: usize, rest: u128) -> u128
    requires { e < length links.now }
{
    let mut rest = rest;
    for m in 0..modules_of(links, e) {
        let coef = coefficient(line, e, m);
        rest = rest.saturating_sub(coef.saturating_mul(span_at(boxed, e, m).least));
    }
    rest
}

/// What a line asks for beyond what the least counts of a box give; 0 where they give enough.
fn gain_of(line: &Inequality, links: &[Link], boxed: &[List<Span>]) -> u128 {
    let mut rest = line.right.saturating_sub(line.given);
    for e in 0..links.len() {
        rest = rest_after(line, links, boxed, e, rest);
    }
    rest
}

/// Puts the entry of a row last, unless it is 0.
#[tactic(auto, using(crate::proofs::Entries::entry_more, crate::proofs::Entries::entries_weaker))]
fn push_entry(entries: &mut List<Entry>, row: u32, value: u64) -> Result<(), NoMemory>
    requires entries { AreBoxEntries row entries.old }
    requires narrow { value < 2 ^ 62 }
    ensures { OnOk result (AreBoxEntries (row + 1) entries.new) }
{
    if value > 0 {
        entries.push(Entry {
            row,
            value: signed(value),
        })?;
    }
    Ok(())
}

/// The entries of a line over a unit; none where a number is too wide.
#[tactic(auto, using(crate::proofs::Entries::entries_none))]
fn line_entries(
    alloc: Global,
    modules: &[ModuleRow],
    line: &Inequality,
    unit: u128,
) -> Result<Option<List<Entry>>, NoMemory>
    requires few { length modules.now ≤ 2 ^ 20 }
    requires some { 0 < unit }
    ensures { IfOk result (λ o. IfSome o (AreBoxEntries (length modules.now))) }
{
    let mut entries = List::new(alloc);
    for row in 0..modules.len() {
        let coef = coefficient(line, modules[row].link, modules[row].module) / unit;
        if coef >= WIDE {
            return Ok(None);
        }
        push_entry(&mut entries, row as u32, coef as u64)?;
    }
    Ok(Some(entries))
}

/// What a line gains and takes over a unit, where this is its gain; none where a number is too wide or nothing is gained or taken.
fn line_load(
    alloc: Global,
    modules: &[ModuleRow],
    line: &Inequality,
    gain: u128,
    unit: u128,
) -> Result<Option<Load>, NoMemory>
    requires few { length modules.now ≤ 2 ^ 20 }
    requires some { 0 < unit }
    ensures { IfOk result (λ o. IfSome o (λ load. AreBoxEntries (length modules.now) load.entries)) }
{
    if gain == 0 || gain >= WIDE {
        return Ok(None);
    }
    let Some(entries) = line_entries(alloc, modules, line, unit)? else {
        return Ok(None);
    };
    if entries.len() == 0 {
        return Ok(None);
    }
    Ok(Some(Load {
        gain: gain as u64,
        entries,
    }))
}

/// The column at a place of a program.
fn column_at(bounds: &[i64], place: usize, line: Option<u32>, load: Load) -> Rated
    requires few { length bounds.now + place < 2 ^ 31 }
    requires entries { AreBoxEntries (length bounds.now) load.entries }
    ensures { IsBoxColumn (length bounds.now) place result }
{
    let weight = weight_of(bounds, load.entries.items());
    let column = Column {
        name: (bounds.len() + place) as u32,
        gain: signed(load.gain),
        entries: load.entries,
    };
    Rated {
        column,
        weight,
        line,
    }
}

/// Puts a column last.
fn push_column(
    columns: &mut List<Rated>,
    rows: &Rows,
    line: Option<u32>,
    load: Load,
) -> Result<(), NoMemory>
    requires columns { AreBoxColumns (length rows.now.bounds) columns.old }
    requires few { length columns.old < 2 ^ 30 }
    requires entries { AreBoxEntries (length rows.now.bounds) load.entries }
    ensures { OnOk result (HasColumnMore (length rows.now.bounds) columns.old columns.new) }
{
    let rated = column_at(rows.bounds.items(), columns.len(), line, load);
    columns.push(rated)?;
    Ok(())
}

/// The entries of a greatest count: in its module's row, and in its own.
#[tactic(auto, using(crate::proofs::Entries::entry_more, crate::proofs::Entries::entries_none))]
fn cap_entries(alloc: Global, row: u32, own: u32) -> Result<List<Entry>, NoMemory>
    requires { row < own }
    ensures are { IfOk result (AreBoxEntries (own + 1)) }
    ensures some { IfOk result (λ entries. 0 < length entries) }
{
    let mut entries = List::new(alloc);
    entries.push(Entry { row, value: 1 })?;
    entries.push(Entry { row: own, value: 1 })?;
    Ok(entries)
}

/// The column of a greatest count.
fn cap_load(alloc: Global, cap: &Cap, own: u32) -> Result<Load, NoMemory>
    requires { cap.now.row < own }
    ensures { IfOk result (λ load. AreBoxEntries (own + 1) load.entries) }
{
    let entries = cap_entries(alloc, cap.row, own)?;
    Ok(Load {
        gain: cap.room,
        entries,
    })
}

/// The columns of greatest counts.
#[tactic(auto, using(crate::proofs::Packing::columns_none, crate::proofs::Entries::entries_weaker))]
fn cap_columns(alloc: Global, rows: &Rows) -> Result<List<Rated>, NoMemory>
    ensures are { IfOk result (AreBoxColumns (length rows.now.bounds)) }
    ensures count { IfOk result (λ columns. length columns ≡ length rows.now.caps) }
{
    let mut columns = List::new(alloc);
    let first = rows.modules.len();
    for k in 0..rows.caps.len() {
        let load = cap_load(alloc, &rows.caps.items()[k], (first + k) as u32)?;
        push_column(&mut columns, rows, None, load)?;
    }
    Ok(columns)
}

/// Puts the column of a line last, if it has one.
#[tactic(auto, using(crate::proofs::Entries::entries_weaker))]
fn add_line(
    columns: &mut List<Rated>,
    rows: &Rows,
    i: u32,
    load: Option<Load>,
) -> Result<(), NoMemory>
    requires columns { AreBoxColumns (length rows.now.bounds) columns.old }
    requires few { length columns.old < 2 ^ 30 }
    requires load { IfSome load (λ load. AreBoxEntries (length rows.now.modules) load.entries) }
    ensures are { OnOk result (AreBoxColumns (length rows.now.bounds) columns.new) }
    ensures count { OnOk result (length columns.new ≤ length columns.old + 1) }
{
    match load {
        None => Ok(()),
        Some(load) => push_column(columns, rows, Some(i), load),
    }
}

/// The columns of a box's program: those of greatest counts, and those of lines from an index on that the least counts don't meet.
pub(crate) fn columns_of(
    alloc: Global,
    rows: &Rows,
    links: &[Link],
    boxed: &[List<Span>],
    tested: &[Tested],
    first: usize,
    unit: u128,
) -> Result<List<Rated>, NoMemory>
    requires few { length tested.now ≤ 2 ^ 24 }
    requires some { 0 < unit }
    ensures are { IfOk result (AreBoxColumns (length rows.now.bounds)) }
    ensures count { IfOk result (λ columns. length columns ≤ 2 ^ 25) }
{
    let mut columns = cap_columns(alloc, rows)?;
    for i in first.min(tested.len())..tested.len() {
        let line = &tested[i].line;
        let gain = gain_of(line, links, boxed) / unit;
        let load = line_load(alloc, rows.modules.items(), line, gain, unit)?;
        add_line(&mut columns, rows, i as u32, load)?;
    }
    Ok(columns)
}
