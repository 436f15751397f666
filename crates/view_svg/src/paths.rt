ghost use Rattle.std.specs.Prelude.{◌≡◌, ◌++◌, OnOk, flat_map, slice_index};
ghost use Rattle.view_svg.specs.Pictures.{changed_curve, drawn_changes};

use crate::spots::put_curve;
use net_core::{Bytes, LinkId, NoMemory};
use picture_layout::Stroke;
use plan_view::LinkRow;

/// What goes along other paths over a link.
pub(crate) fn change_of(changes: &[u128], e: LinkId) -> u128
    ensures { result ≡ slice_index changes.now e.0 }
{
    match changes.get(e.0 as usize) {
        Some(change) => *change,
        None => 0,
    }
}

/// Puts the curve of a row's link last, if something goes along other paths there.
fn put_changed_curve(
    text: &mut Bytes,
    strokes: &[Stroke],
    changes: &[u128],
    row: &LinkRow,
) -> Result<(), NoMemory>
    ensures { OnOk result (text.new ≡ text.old ++ changed_curve strokes.now changes.now row.now) }
{
    if change_of(changes, row.link) == 0 {
        return Ok(());
    }
    match strokes.get(row.link.0 as usize) {
        Some(stroke) => put_curve(text, stroke),
        None => Ok(()),
    }
}

/// Puts the curves of all such links last.
fn put_changed_curves(
    text: &mut Bytes,
    strokes: &[Stroke],
    changes: &[u128],
    rows: &[LinkRow],
) -> Result<(), NoMemory>
    ensures { OnOk result (text.new ≡ text.old ++ flat_map (changed_curve strokes.now changes.now) rows.now) }
{
    for row in rows {
        put_changed_curve(text, strokes, changes, row)?;
    }
    Ok(())
}

/// Puts the links last on which something goes along other paths than without failures, in one line behind each, so that a picture doesn't grow
/// with the demands. One path can't be followed by the eye so; the tables of a state list them.
pub(crate) fn put_changes(
    text: &mut Bytes,
    strokes: &[Stroke],
    changes: &[u128],
    rows: &[LinkRow],
) -> Result<(), NoMemory>
    ensures { OnOk result (text.new ≡ text.old ++ drawn_changes strokes.now changes.now rows.now) }
{
    text.append(b"<path class=\"p\" d=\"")?;
    put_changed_curves(text, strokes, changes, rows)?;
    text.append(b"\"/>\n")
}
