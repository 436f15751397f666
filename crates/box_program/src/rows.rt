ghost use Rattle.std.specs.Prelude.{◌≡◌, ◌+◌, ◌<◌, ◌≤◌, ◌^◌, All, IfOk, IfSome, OnOk, length, pos};
ghost use Rattle.checked_fraction.specs.Terms.{IsNarrow};
ghost use Rattle.tree_check.specs.Terms.{module_number};
ghost use Rattle.box_program.{specs.inner.BoxPrograms.IsBoxBound, specs.inner.BoxRows.{AreRowsBefore, AreRowsOf}};

use crate::divisors::cost_unit;
use crate::shape::{Cap, ModuleRow, Rows, Scale};
use crate::spans::{cost_at, is_fixed, modules_of};
use net_core::{Link, List, NoMemory};
use std::alloc::Global;
use tree_check::Span;
use tree_check::boxes::span_at;

/// From here on a number is too wide for the program of a box.
pub(crate) const WIDE: u128 = 1 << 62;

/// A box with more modules of several counts has no program.
const MOST_ROWS: usize = 1 << 20;

/// A number that fits, as one with a sign.
pub(crate) fn signed(n: u64) -> i64
    requires { n < 2 ^ 62 }
    ensures value { result ≡ pos n }
    ensures narrow { IsNarrow result }
{
    n as i64
}

/// The scale of a network, where the plan has this cost; none where its numbers are too wide.
pub(crate) fn scale_of(links: &[Link], cost: u128) -> Option<Scale> {
    let unit = cost_unit(links);
    let most = cost / unit as u128;
    if most >= 1 << 53 {
        return None;
    }
    let top = 64 * (most as u64 + 1);
    Some(Scale { unit, top })
}

/// The bound of a module's row.
fn bound_of(cost: u64, scale: &Scale, span: &Span) -> i64
    ensures { IsBoxBound result }
{
    let cost = (cost / scale.unit).min(1 << 60);
    match span.most {
        None => signed(cost),
        Some(_) => signed(cost + scale.top),
    }
}

/// Puts a module last, if it has several counts.
#[tactic(auto, using(crate::proofs::RowsMade::row_more, crate::proofs::RowsMade::row_passed))]
fn add_module(
    rows: &mut List<ModuleRow>,
    links: &[Link],
    boxed: &[List<Span>],
    scale: &Scale,
    e: usize,
    m: usize,
) -> Result<(), NoMemory>
    requires link { e < length links.now }
    requires inside { m < module_number links.now e }
    requires rows { AreRowsBefore links.now boxed.now e m rows.old }
    ensures { OnOk result (AreRowsBefore links.now boxed.now e (m + 1) rows.new) }
{
    let span = span_at(boxed, e, m);
    if is_fixed(&span) {
        return Ok(());
    }
    let bound = bound_of(cost_at(links, e, m), scale, &span);
    rows.push(ModuleRow {
        link: e,
        module: m,
        span,
        bound,
    })?;
    Ok(())
}

/// Puts the modules of a link last that have several counts.
#[tactic(auto, using(crate::proofs::RowsMade::link_done))]
fn add_link(
    rows: &mut List<ModuleRow>,
    links: &[Link],
    boxed: &[List<Span>],
    scale: &Scale,
    link: usize,
) -> Result<(), NoMemory>
    requires link { link < length links.now }
    requires rows { AreRowsBefore links.now boxed.now link 0 rows.old }
    ensures { OnOk result (AreRowsBefore links.now boxed.now (link + 1) 0 rows.new) }
{
    for m in 0..modules_of(links, link) {
        add_module(rows, links, boxed, scale, link, m)?;
    }
    Ok(())
}

/// The modules of several counts, in link and module order.
#[tactic(auto, using(crate::proofs::RowsMade::rows_none, crate::proofs::RowsMade::rows_done))]
fn module_rows(
    alloc: Global,
    links: &[Link],
    boxed: &[List<Span>],
    scale: &Scale,
) -> Result<List<ModuleRow>, NoMemory>
    ensures { IfOk result (AreRowsOf links.now boxed.now) }
{
    let mut rows = List::new(alloc);
    for link in 0..links.len() {
        add_link(&mut rows, links, boxed, scale, link)?;
    }
    Ok(rows)
}

/// How far a greatest count is from the least one, where that is of use.
fn room_of(span: &Span) -> Option<u64>
    ensures { IfSome result (λ room. room < 2 ^ 62) }
{
    let Some(most) = span.most else {
        return None;
    };
    let room = (most as u128).saturating_sub(span.least);
    if room > 0 && room < WIDE {
        Some(room as u64)
    } else {
        None
    }
}

/// The greatest counts of modules.
fn caps_of(alloc: Global, modules: &[ModuleRow]) -> Result<List<Cap>, NoMemory>
    requires { length modules.now ≤ 2 ^ 20 }
    ensures fewer { IfOk result (λ caps. length caps ≤ length modules.now) }
    ensures rows { IfOk result (λ caps. All (λ c. c.row < length modules.now) caps) }
{
    let mut caps = List::new(alloc);
    for row in 0..modules.len() {
        if let Some(room) = room_of(&modules[row].span) {
            caps.push(Cap {
                row: row as u32,
                room,
            })?;
        }
    }
    Ok(caps)
}

/// The bounds of all rows, where those of greatest counts are one number.
fn bounds_of(
    alloc: Global,
    modules: &[ModuleRow],
    caps: &[Cap],
    top: i64,
) -> Result<List<i64>, NoMemory>
    requires { IsBoxBound top }
    ensures count { IfOk result (λ bounds. length bounds ≡ length modules.now + length caps.now) }
    ensures fit { IfOk result (All IsBoxBound) }
{
    let mut bounds = List::new(alloc);
    for module in modules {
        bounds.push(module.bound)?;
    }
    for _ in caps {
        bounds.push(top)?;
    }
    Ok(bounds)
}

/// The rows of a box's program; none where there are too many.
pub(crate) fn rows_of(
    alloc: Global,
    links: &[Link],
    boxed: &[List<Span>],
    scale: &Scale,
) -> Result<Option<Rows>, NoMemory>
    ensures { IfOk result (λ o. IfSome o (λ rows. AreRowsOf links.now boxed.now rows.modules)) }
{
    let modules = module_rows(alloc, links, boxed, scale)?;
    if modules.len() > MOST_ROWS {
        return Ok(None);
    }
    let caps = caps_of(alloc, modules.items())?;
    let bounds = bounds_of(alloc, modules.items(), caps.items(), signed(scale.top))?;
    Ok(Some(Rows {
        modules,
        caps,
        bounds,
    }))
}
