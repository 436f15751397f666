ghost use Rattle.std.specs.Prelude.{◌≡◌, ◌++◌, OnOk, flat_map};
ghost use Rattle.view_svg.specs.Pictures.{drawn_dot, drawn_name, drawn_names, drawn_nodes};

use crate::escape::put_escaped;
use crate::spots::put_spot;
use net_core::{Bytes, Name, NoMemory};
use picture_layout::Spot;
use std::alloc::Global;
use text_kit::write::put_decimal;

/// Puts the dot of a node last.
fn put_dot(text: &mut Bytes, spot: Spot) -> Result<(), NoMemory>
    ensures { OnOk result (text.new ≡ text.old ++ drawn_dot spot) }
{
    text.append(b"<circle r=\"50\" cx=\"")?;
    put_decimal(text, spot.x as u128)?;
    text.append(b"\" cy=\"")?;
    put_decimal(text, spot.y as u128)?;
    text.append(b"\"/>\n")
}

/// Puts the dots of nodes last.
fn put_dots(text: &mut Bytes, spots: &[Spot]) -> Result<(), NoMemory>
    ensures { OnOk result (text.new ≡ text.old ++ flat_map drawn_dot spots.now) }
{
    for spot in spots {
        put_dot(text, *spot)?;
    }
    Ok(())
}

/// Puts a name beside a spot last.
fn put_label(text: &mut Bytes, alloc: Global, name: &[u8], spot: Spot) -> Result<(), NoMemory>
    ensures { OnOk result (text.new ≡ text.old ++ drawn_name name.now spot) }
{
    text.append(b"<text")?;
    put_spot(text, spot)?;
    put_escaped(text, alloc, name)?;
    text.append(b"</text>\n")
}

/// Puts the name of a node last.
fn put_name(text: &mut Bytes, alloc: Global, name: &Name, spot: Spot) -> Result<(), NoMemory>
    ensures { OnOk result (text.new ≡ text.old ++ drawn_name name.now spot) }
{
    put_label(text, alloc, name.bytes(), spot)
}

/// Puts the names of nodes last.
fn put_names(
    text: &mut Bytes,
    alloc: Global,
    nodes: &[Name],
    spots: &[Spot],
) -> Result<(), NoMemory>
    ensures { OnOk result (text.new ≡ text.old ++ drawn_names nodes.now spots.now) }
{
    for n in 0..nodes.len().min(spots.len()) {
        put_name(text, alloc, &nodes[n], spots[n])?;
    }
    Ok(())
}

/// Puts all nodes last, and their names beside them.
pub(crate) fn put_nodes(
    text: &mut Bytes,
    alloc: Global,
    nodes: &[Name],
    spots: &[Spot],
) -> Result<(), NoMemory>
    ensures { OnOk result (text.new ≡ text.old ++ drawn_nodes nodes.now spots.now) }
{
    put_dots(text, spots)?;
    text.append(b"<g class=\"n\" transform=\"translate(80 -70)\">\n")?;
    put_names(text, alloc, nodes, spots)?;
    text.append(b"</g>\n")
}
