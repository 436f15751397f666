ghost use Rattle.std.specs.Prelude.{◌≡◌, IfOk, length};

use crate::layout::{Spot, Stroke};
use net_core::{Link, List, NoMemory, NodeId};
use std::alloc::Global;

/// How far links with the same ends are apart.
const APART: i64 = 360;

/// The least width of a link's line, and how much wider the greatest is.
const THIN: u32 = 15;

const THICKER: u128 = 65;

/// The spot of a node.
fn spot_at(spots: &[Spot], n: NodeId) -> Spot {
    match spots.get(n.0 as usize) {
        Some(spot) => *spot,
        None => Spot { x: 0, y: 0 },
    }
}

/// Whether two links have the same ends.
fn are_beside(one: &Link, other: &Link) -> bool {
    (one.a == other.a && one.b == other.b) || (one.a == other.b && one.b == other.a)
}

/// How many of these links have the same ends as one.
fn count_beside(links: &[Link], link: &Link) -> i64 {
    let mut count = 0i64;
    for other in links {
        if are_beside(other, link) {
            count = count.saturating_add(1);
        }
    }
    count
}

/// How far the bend of a link is from the straight line, to one side or the other, where `before` links with the same ends are before it.
fn shift_after(before: i64) -> i64 {
    let far = (before.saturating_add(1) / 2).saturating_mul(APART);
    if before % 2 == 0 {
        far.saturating_neg()
    } else {
        far
    }
}

/// Half of the way, and `shift` to its side; sums of coordinates may be up to the sides of the picture.
fn beside_middle(from: u32, to: u32, across: i64, shift: i64, long: i64) -> u32 {
    let middle = (i64::from(from) + i64::from(to)) / 2;
    let aside = across.saturating_mul(shift) / long.max(1);
    middle.saturating_add(aside).clamp(0, 9600) as u32
}

/// The bend of a link between two spots, with `before` links of the same ends before it; the first of these is straight.
fn bend_of(from: Spot, to: Spot, before: i64) -> Option<Spot> {
    if before == 0 {
        return None;
    }
    let shift = shift_after(before);
    let dx = i64::from(to.x) - i64::from(from.x);
    let dy = i64::from(to.y) - i64::from(from.y);
    let square = dx.saturating_mul(dx).saturating_add(dy.saturating_mul(dy));
    let long = square.max(0).isqrt();
    Some(Spot {
        x: beside_middle(from.x, to.x, dy.saturating_neg(), shift, long),
        y: beside_middle(from.y, to.y, dx, shift, long),
    })
}

/// The middle of a line, in one coordinate.
fn half_way(from: u32, to: u32) -> u32 {
    ((u64::from(from) + u64::from(to)) / 2) as u32
}

/// The middle of a curve, in one coordinate.
fn middle_of(from: u32, bend: u32, to: u32) -> u32 {
    let sum = u64::from(from) + 2 * u64::from(bend) + u64::from(to);
    (sum / 4) as u32
}

/// The middle of a link's line or curve.
fn label_of(from: Spot, bend: Option<Spot>, to: Spot) -> Spot {
    match bend {
        Some(bend) => Spot {
            x: middle_of(from.x, bend.x, to.x),
            y: middle_of(from.y, bend.y, to.y),
        },
        None => Spot {
            x: half_way(from.x, to.x),
            y: half_way(from.y, to.y),
        },
    }
}

/// The greatest of capacities.
fn greatest(capacities: &[u128]) -> u128 {
    let mut most = 0;
    for capacity in capacities {
        most = most.max(*capacity);
    }
    most
}

/// The width of a link's line.
fn width_of(capacities: &[u128], e: usize, most: u128) -> u32 {
    let capacity = match capacities.get(e) {
        Some(capacity) => *capacity,
        None => 0,
    };
    let wider = (capacity.saturating_mul(THICKER) / most.max(1)).min(THICKER);
    THIN.saturating_add(wider as u32)
}

/// The stroke of a link after these. Links with the same ends are drawn from the same end.
fn stroke_after(spots: &[Spot], before: &[Link], link: &Link, width: u32) -> Stroke {
    let (low, high) = if link.a.0 < link.b.0 {
        (link.a, link.b)
    } else {
        (link.b, link.a)
    };
    let from = spot_at(spots, low);
    let to = spot_at(spots, high);
    let bend = bend_of(from, to, count_beside(before, link));
    Stroke {
        from,
        bend,
        to,
        label: label_of(from, bend, to),
        width,
    }
}

/// The strokes of links between these spots.
pub(crate) fn strokes_of(
    alloc: Global,
    spots: &[Spot],
    links: &[Link],
    capacities: &[u128],
) -> Result<List<Stroke>, NoMemory>
    ensures { IfOk result (λ strokes. length strokes ≡ length links.now) }
{
    let most = greatest(capacities);
    let mut strokes = List::new(alloc);
    for e in 0..links.len() {
        let width = width_of(capacities, e, most);
        strokes.push(stroke_after(spots, &links[..e], &links[e], width))?;
    }
    Ok(strokes)
}
