ghost use Rattle.std.{specs.Prelude.{◌≡◌, ◌++◌, OnOk, codes, flat_map, nat_lt}, specs.List.list_any};
ghost use Rattle.plan_report.specs.Terms.{known_of, state_name};
ghost use Rattle.text_kit.specs.Terms.{money_word};
ghost use Rattle.view_cells.specs.Terms.{joined_words, kinds_words};
ghost use Rattle.view_svg.{specs.Markup.escaped, specs.Pictures.{change_words, drawn_in_state, drawn_link, drawn_row, is_out, link_class, link_curve, link_mark, link_words, use_class}};

use crate::escape::put_escaped;
use crate::paths::change_of;
use crate::spots::{put_curve, put_spot};
use net_core::{Bytes, Instance, Link, LinkId, List, Network, NoMemory, Places, States};
use picture_layout::{Spot, Stroke};
use plan_report::state_name;
use plan_view::LinkRow;
use std::alloc::Global;
use text_kit::write::{put_decimal, put_money_word};
use text_layout::Row;
use view_cells::modules::push_modules;

/// The class of a use in per cent.
fn use_class(used: u32) -> &'static [u8]
    ensures { result.now ≡ use_class used }
{
    if used < 60 {
        b"lo"
    } else if used < 85 {
        b"mi"
    } else {
        b"hi"
    }
}

/// Whether something is bought.
fn has_modules(counts: &[u64]) -> bool
    ensures { result ≡ list_any (λ n. nat_lt 0 n) counts.now }
{
    counts.iter().any(|n| *n > 0)
}

/// Puts the classes of a link last.
fn put_class(text: &mut Bytes, row: &LinkRow, out: bool) -> Result<(), NoMemory>
    ensures { OnOk result (text.new ≡ text.old ++ link_class row.now out) }
{
    text.append(use_class(row.used))?;
    if !has_modules(row.modules.items()) {
        text.append(b" no")?;
    }
    if out {
        text.append(b" out")?;
    }
    Ok(())
}

/// Puts words on the modules of a link last.
fn put_modules(
    text: &mut Bytes,
    alloc: Global,
    places: Places,
    link: &Link,
    counts: &[u64],
) -> Result<(), NoMemory>
    ensures { OnOk result (text.new ≡ text.old ++ joined_words (codes " + ") (kinds_words places link.now.modules counts.now)) }
{
    let mut cells: Row = List::new(alloc);
    push_modules(&mut cells, alloc, places, link.modules.items(), counts)?;
    match cells.items() {
        [cell] => text.append(cell.items()),
        _ => Ok(()),
    }
}

/// Puts what a link is called, has and costs last.
fn put_costs(
    text: &mut Bytes,
    alloc: Global,
    places: Places,
    link: &Link,
    row: &LinkRow,
) -> Result<(), NoMemory>
    ensures { OnOk result (text.new ≡ text.old ++ (escaped link.now.name ++ codes ": "
        ++ joined_words (codes " + ") (kinds_words places link.now.modules row.now.modules) ++ codes ", cost " ++ money_word places row.now.cost)) }
{
    put_escaped(text, alloc, link.name.bytes())?;
    text.append(b": ")?;
    put_modules(text, alloc, places, link, row.modules.items())?;
    text.append(b", cost ")?;
    put_money_word(text, places, row.cost)
}

/// Puts the worst load of a link and the state of it last.
fn put_worst(
    text: &mut Bytes,
    alloc: Global,
    places: Places,
    states: &States,
    row: &LinkRow,
) -> Result<(), NoMemory>
    ensures { OnOk result (text.new ≡ text.old ++ (codes ", " ++ money_word places row.now.worst ++ codes " of " ++ money_word places row.now.capacity
        ++ codes " in state " ++ escaped (state_name states.now.listed row.now.state.0))) }
{
    text.append(b", ")?;
    put_money_word(text, places, row.worst)?;
    text.append(b" of ")?;
    put_money_word(text, places, row.capacity)?;
    text.append(b" in state ")?;
    put_escaped(text, alloc, state_name(states.listed().items(), row.state))
}

/// Puts what is said of a link last.
fn put_words(
    text: &mut Bytes,
    alloc: Global,
    net: &Network,
    states: &States,
    link: &Link,
    row: &LinkRow,
) -> Result<(), NoMemory>
    ensures { OnOk result (text.new ≡ text.old ++ link_words (known_of net.now states.now) link.now row.now) }
{
    put_costs(text, alloc, net.places(), link, row)?;
    put_worst(text, alloc, net.places(), states, row)
}

/// Puts words last on what goes along other paths over a link, if something does.
fn put_change_words(
    text: &mut Bytes,
    net: &Network,
    states: &States,
    change: u128,
) -> Result<(), NoMemory>
    ensures { OnOk result (text.new ≡ text.old ++ change_words (known_of net.now states.now) change) }
{
    if change == 0 {
        return Ok(());
    }
    text.append(b"; other paths: ")?;
    put_money_word(text, net.places(), change)
}

/// Puts the title of a link last.
fn put_title(
    text: &mut Bytes,
    alloc: Global,
    instance: &Instance,
    link: &Link,
    row: &LinkRow,
    change: u128,
) -> Result<(), NoMemory>
    ensures { OnOk result (text.new ≡ text.old
        ++ (link_words (known_of instance.now.net.now instance.now.states.now) link.now row.now
        ++ change_words (known_of instance.now.net.now instance.now.states.now) change)) }
{
    put_words(text, alloc, instance.net, instance.states, link, row)?;
    put_change_words(text, instance.net, instance.states, change)
}

/// Puts the words beside a link last.
fn put_mark(text: &mut Bytes, spot: Spot, used: u32, out: bool) -> Result<(), NoMemory>
    ensures { OnOk result (text.new ≡ text.old ++ link_mark spot used out) }
{
    if out {
        text.append(b"<text class=\"x\"")?;
        put_spot(text, spot)?;
        return text.append(b"&#215;</text>");
    }
    text.append(b"<text")?;
    put_spot(text, spot)?;
    put_decimal(text, used as u128)?;
    text.append(b"</text>")
}

/// Puts the curve of a link last, with its classes and its width.
fn put_link_curve(
    text: &mut Bytes,
    stroke: &Stroke,
    row: &LinkRow,
    out: bool,
) -> Result<(), NoMemory>
    ensures { OnOk result (text.new ≡ text.old ++ link_curve stroke.now row.now out) }
{
    text.append(b"<path class=\"")?;
    put_class(text, row, out)?;
    text.append(b"\" stroke-width=\"")?;
    put_decimal(text, stroke.width as u128)?;
    text.append(b"\" d=\"")?;
    put_curve(text, stroke)?;
    text.append(b"\"/>")
}

/// Puts a link last: its curve, what is said of it, and the words beside it.
fn put_link(
    text: &mut Bytes,
    alloc: Global,
    instance: &Instance,
    link: &Link,
    row: &LinkRow,
    stroke: &Stroke,
    out: bool,
    change: u128,
) -> Result<(), NoMemory>
    ensures { OnOk result (text.new ≡ text.old
        ++ drawn_link (known_of instance.now.net.now instance.now.states.now) link.now row.now stroke.now out change) }
{
    text.append(b"<g>")?;
    put_link_curve(text, stroke, row, out)?;
    text.append(b"<title>")?;
    put_title(text, alloc, instance, link, row, change)?;
    text.append(b"</title>")?;
    put_mark(text, stroke.label, row.used, out)?;
    text.append(b"</g>\n")
}

/// Whether a link is among those that are out.
fn is_out(failed: &[LinkId], e: LinkId) -> bool
    ensures { result ≡ is_out failed.now e }
{
    failed.iter().any(|f| f.0 == e.0)
}

/// Puts the link of a row last, where the network and the layout have it.
fn put_row(
    text: &mut Bytes,
    alloc: Global,
    instance: &Instance,
    strokes: &[Stroke],
    row: &LinkRow,
    out: bool,
    change: u128,
) -> Result<(), NoMemory>
    ensures { OnOk result (text.new ≡ text.old
        ++ drawn_row (known_of instance.now.net.now instance.now.states.now) strokes.now row.now out change) }
{
    let e = row.link.0 as usize;
    let Some(link) = instance.net.links().items().get(e) else {
        return Ok(());
    };
    match strokes.get(e) {
        Some(stroke) => put_link(text, alloc, instance, link, row, stroke, out, change),
        None => Ok(()),
    }
}

/// Puts the link of a row last, in a state that fails these links and brings these amounts onto other paths. Numbers and colours are of the
/// worst state even so, so that two pictures of one plan can be compared.
fn put_in_state(
    text: &mut Bytes,
    alloc: Global,
    instance: &Instance,
    strokes: &[Stroke],
    failed: &[LinkId],
    changes: &[u128],
    row: &LinkRow,
) -> Result<(), NoMemory>
    ensures { OnOk result (text.new ≡ text.old
        ++ drawn_in_state (known_of instance.now.net.now instance.now.states.now) strokes.now failed.now changes.now row.now) }
{
    let out = is_out(failed, row.link);
    let change = change_of(changes, row.link);
    put_row(text, alloc, instance, strokes, row, out, change)
}

/// Puts the links of rows last.
pub(crate) fn put_links(
    text: &mut Bytes,
    alloc: Global,
    instance: &Instance,
    strokes: &[Stroke],
    failed: &[LinkId],
    changes: &[u128],
    rows: &[LinkRow],
) -> Result<(), NoMemory>
    ensures { OnOk result (text.new ≡ text.old
        ++ flat_map (drawn_in_state (known_of instance.now.net.now instance.now.states.now) strokes.now failed.now changes.now) rows.now) }
{
    for row in rows {
        put_in_state(text, alloc, instance, strokes, failed, changes, row)?;
    }
    Ok(())
}
