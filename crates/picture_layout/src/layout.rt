ghost use Rattle.std.specs.Prelude.{◌≡◌, IfOk, length};

use crate::circle::circle_spots;
use crate::frame::{Frame, frame_of, map_spots};
use crate::strokes::strokes_of;
use net_core::{Link, List, NoMemory};
use node_places::Place;
use std::alloc::Global;

/// A spot of the picture, in its units from the upper left corner.
#[derive(Clone, Copy, Debug, PartialEq, Eq)]
pub struct Spot {
    pub x: u32,
    pub y: u32,
}

/// How a link is drawn between two spots.
#[derive(Clone, Copy, Debug, PartialEq, Eq)]
pub struct Stroke {
    pub from: Spot,
    /// The spot towards which it is curved; `None` if it is straight.
    pub bend: Option<Spot>,
    pub to: Spot,
    /// Where a note on it is written.
    pub label: Spot,
    pub width: u32,
}

/// Where the nodes and links of a network are drawn.
#[derive(Drop)]
pub struct Layout {
    /// The spots of the nodes.
    pub nodes: List<Spot>,
    /// The strokes of the links.
    pub links: List<Stroke>,
    /// Whether the nodes are at the places that the file says; if not, they are on a circle.
    pub is_map: bool,
}

/// The spots of nodes in the frame of their places, if there is one.
fn spots_of(
    alloc: Global,
    places: &[Option<Place>],
    frame: Option<Frame>,
    nodes: usize,
) -> Result<List<Spot>, NoMemory>
    ensures { IfOk result (λ spots. length spots ≡ nodes) }
{
    match frame {
        Some(frame) => map_spots(alloc, places, &frame, nodes),
        None => circle_spots(alloc, nodes),
    }
}

/// Where `nodes` nodes with these places and links with these capacities are drawn. If a node has no place, or all have the same one, the
/// nodes are on a circle. It takes time in the square of the links, and memory for the spots and strokes.
pub fn layout_of(
    alloc: Global,
    places: &[Option<Place>],
    nodes: usize,
    links: &[Link],
    capacities: &[u128],
) -> Result<Layout, NoMemory>
    ensures nodes { IfOk result (λ layout. length layout.nodes ≡ nodes) }
    ensures links { IfOk result (λ layout. length layout.links ≡ length links.now) }
{
    let frame = frame_of(places, nodes);
    let spots = spots_of(alloc, places, frame, nodes)?;
    let strokes = strokes_of(alloc, spots.items(), links, capacities)?;
    Ok(Layout {
        nodes: spots,
        links: strokes,
        is_map: frame.is_some(),
    })
}
