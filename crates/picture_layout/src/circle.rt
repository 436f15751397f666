ghost use Rattle.std.specs.Prelude.{◌≡◌, IfOk, length};

use crate::layout::Spot;
use net_core::{List, NoMemory};
use std::alloc::Global;

/// The middle and the half width of the circle.
const MIDDLE: Spot = Spot { x: 4800, y: 3300 };

const RADIUS: i128 = 2700;

/// The sine of an angle from 0 to 180 degrees, in hundredths of a degree; in ten thousandths, by Bhaskara's formula.
fn half_sine(angle: i128) -> i128 {
    let product = angle.saturating_mul(18_000i128.saturating_sub(angle));
    let below = 405_000_000i128.saturating_sub(product).max(1);
    product.saturating_mul(40_000) / below
}

/// The sine of an angle from 0 to 360 degrees.
fn sine(angle: i128) -> i128 {
    if angle <= 18_000 {
        half_sine(angle)
    } else {
        half_sine(angle.saturating_sub(18_000)).saturating_neg()
    }
}

/// So far from the middle of the circle, in ten thousandths of its half width.
fn away(middle: u32, share: i128) -> u32 {
    let far = share.saturating_mul(RADIUS) / 10_000;
    i128::from(middle).saturating_add(far).clamp(0, 9600) as u32
}

/// The spot of place `k` on the circle, of `count` places; the first is at the top, and they go round clockwise.
fn circle_spot(k: usize, count: usize) -> Spot {
    let angle = (k as i128).saturating_mul(36_000) / (count as i128).max(1);
    let before = angle.saturating_add(27_000) % 36_000;
    Spot {
        x: away(MIDDLE.x, sine(angle)),
        y: away(MIDDLE.y, sine(before)),
    }
}

/// As many spots on the circle as are asked for.
pub(crate) fn circle_spots(alloc: Global, count: usize) -> Result<List<Spot>, NoMemory>
    ensures { IfOk result (λ spots. length spots ≡ count) }
{
    let mut spots = List::new(alloc);
    for k in 0..count {
        spots.push(circle_spot(k, count))?;
    }
    Ok(spots)
}
