ghost use Rattle.std.specs.Prelude.{◌<◌};
ghost use Rattle.line_maker.specs.inner.Divisors.{IsLineDivisor};

use crate::numbers::{Numbers, divided, divided_up, in_limits};
use crate::point::{Point, num_at};

/// A divisor with what its line tells a point.
#[derive(Clone, Copy)]
pub(crate) struct Scored {
    pub divisor: u128,
    /// What the point misses, in parts of ten thousand of the right side.
    pub score: u128,
    ghost limits: { IsLineDivisor divisor },
}

/// What a point gives towards a line over a divisor.
fn given_by(numbers: &Numbers, point: &Point, divisor: u128) -> u128
    requires { 0 < divisor }
{
    let coefs = numbers.coefs.items();
    let mut given = 0u128;
    for place in 0..coefs.len() {
        let num = num_at(point, place);
        if num > 0 {
            let coef = divided(coefs[place], numbers.need, divisor);
            given = given.saturating_add(coef.saturating_mul(num));
        }
    }
    given
}

/// What a point misses of a line over a divisor, in parts of ten thousand of its right side.
fn score_of(numbers: &Numbers, point: &Point, divisor: u128) -> u128
    requires { 0 < divisor }
{
    let right = divided_up(numbers.need, divisor).saturating_mul(point.den);
    if right == 0 {
        return 0;
    }
    let missing = right.saturating_sub(given_by(numbers, point, divisor));
    missing.saturating_mul(10_000) / right
}

/// The divisor whose line the point misses most, if it misses any by one in ten thousand.
pub(crate) fn best_divisor(numbers: &Numbers, point: &Point, divisors: &[u128]) -> Option<Scored> {
    let mut best = None;
    let mut most = 0;
    for divisor in divisors {
        let divisor = in_limits(*divisor);
        let score = score_of(numbers, point, divisor);
        if score > most {
            most = score;
            best = Some(Scored { divisor, score });
        }
    }
    best
}
