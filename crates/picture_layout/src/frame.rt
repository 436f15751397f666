ghost use Rattle.std.specs.Prelude.{◌≡◌, IfOk, length};

use crate::layout::Spot;
use net_core::{List, NoMemory};
use node_places::Place;
use std::alloc::Global;

/// The left side, the upper side, the width and the height of the part of the picture for nodes.
const LEFT: i64 = 600;

const UPPER: i64 = 600;

const WIDTH: i64 = 8400;

const HEIGHT: i64 = 5400;

/// The least and the greatest of places.
#[derive(Clone, Copy)]
pub(crate) struct Frame {
    least: Place,
    most: Place,
}

impl Frame {
    /// The frame with one place more.
    fn with(self, at: Place) -> Frame {
        Frame {
            least: Place {
                x: self.least.x.min(at.x),
                y: self.least.y.min(at.y),
            },
            most: Place {
                x: self.most.x.max(at.x),
                y: self.most.y.max(at.y),
            },
        }
    }

    /// Whether the places can be degrees of longitude and latitude.
    fn has_degrees(self) -> bool {
        self.least.x >= -180_000
            && self.most.x <= 180_000
            && self.least.y >= -90_000
            && self.most.y <= 90_000
    }

    /// How wide a unit to the east is drawn to one to the north, in thousandths: the cosine of the middle latitude, by Bhaskara's formula,
    /// where places are degrees.
    fn stretch(self) -> i64 {
        if !self.has_degrees() {
            return 1000;
        }
        let twice = i64::from(self.least.y) + i64::from(self.most.y);
        let square = twice
            .saturating_mul(twice)
            .checked_div(1_000_000)
            .unwrap_or(0);
        let above = 129_600i64.saturating_sub(square.saturating_mul(4));
        let below = square.saturating_add(129_600);
        let width = above.saturating_mul(1000).checked_div(below).unwrap_or(0);
        width.max(1)
    }
}

/// The frame of the places of `nodes` nodes; none where one has no place, or all have the same.
pub(crate) fn frame_of(places: &[Option<Place>], nodes: usize) -> Option<Frame> {
    let first = (*places.first()?)?;
    let mut frame = Frame {
        least: first,
        most: first,
    };
    for place in places {
        frame = frame.with((*place)?);
    }
    (places.len() == nodes && frame.least != frame.most).then_some(frame)
}

/// How places become spots: how many units of the picture a thousandth of a unit is, a numerator over a denominator, to the east and to the north,
/// and how far the frame is from the left side and from the upper one.
#[derive(Clone, Copy)]
struct Scale {
    east: i64,
    north: i64,
    den: i64,
    left: i64,
    upper: i64,
}

/// How far it is, in units of the picture.
fn far(from: i32, to: i32, num: i64, den: i64) -> i64 {
    let between = i64::from(to) - i64::from(from);
    between.saturating_mul(num).checked_div(den).unwrap_or(0)
}

/// The scale that fits a frame into the picture.
fn scale_of(frame: &Frame) -> Scale {
    let stretch = frame.stretch();
    let wide = far(frame.least.x, frame.most.x, stretch, 1);
    let high = far(frame.least.y, frame.most.y, 1000, 1);
    let by_width = wide.saturating_mul(HEIGHT) >= high.saturating_mul(WIDTH);
    let (room, den) = if by_width {
        (WIDTH, wide)
    } else {
        (HEIGHT, high)
    };
    let scale = Scale {
        east: stretch.saturating_mul(room),
        north: room.saturating_mul(1000),
        den,
        left: LEFT,
        upper: UPPER,
    };
    centred(frame, scale)
}

/// The scale with the frame in the middle of the picture.
fn centred(frame: &Frame, scale: Scale) -> Scale {
    let wide = far(frame.least.x, frame.most.x, scale.east, scale.den);
    let high = far(frame.least.y, frame.most.y, scale.north, scale.den);
    Scale {
        left: LEFT.saturating_add(WIDTH.saturating_sub(wide) / 2),
        upper: UPPER.saturating_add(HEIGHT.saturating_sub(high) / 2),
        ..scale
    }
}

/// The spot of a place.
fn spot_of(frame: &Frame, scale: &Scale, at: Place) -> Spot {
    let x = far(frame.least.x, at.x, scale.east, scale.den).saturating_add(scale.left);
    let y = far(at.y, frame.most.y, scale.north, scale.den).saturating_add(scale.upper);
    Spot {
        x: x.clamp(0, 9600) as u32,
        y: y.clamp(0, 7200) as u32,
    }
}

/// The place of a node; the least of the frame where it has none.
fn place_at(places: &[Option<Place>], n: usize, frame: &Frame) -> Place {
    match places.get(n) {
        Some(Some(place)) => *place,
        _ => frame.least,
    }
}

/// The spots of `nodes` nodes with these places, with the north up and the east to the right.
pub(crate) fn map_spots(
    alloc: Global,
    places: &[Option<Place>],
    frame: &Frame,
    nodes: usize,
) -> Result<List<Spot>, NoMemory>
    ensures { IfOk result (λ spots. length spots ≡ nodes) }
{
    let scale = scale_of(frame);
    let mut spots = List::new(alloc);
    for n in 0..nodes {
        spots.push(spot_of(frame, &scale, place_at(places, n, frame)))?;
    }
    Ok(spots)
}
