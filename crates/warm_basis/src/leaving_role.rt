use crate::numbers::wide_over;
use crate::row::BasisRow;
use crate::share::{Share, place_of, whole_share};
use net_core::{List, NoMemory};
use std::alloc::Global;

/// What leaves: a row's column, or a demand's key.
#[derive(Clone, Copy)]
pub(crate) enum Role {
    Row(usize),
    Key(Share),
}

/// Where a value along the column that enters becomes 0, as `size / rate`, from which on it counts otherwise.
#[derive(Clone, Copy)]
pub(crate) struct Point {
    role: Role,
    size: u128,
    rate: u128,
    /// By how much the slope of what is short rises there, in a fixed point.
    rise: i128,
}

/// A number over a denominator, with 20 bits after the point.
pub(crate) fn fixed_point(number: i128, den: i64) -> i128 {
    wide_over(number.wrapping_mul(1 << 20), den)
}

/// The point of a value, if it is on the way.
fn point_of(role: Role, value: i128, rate: i128, den: i64) -> Option<Point> {
    if (rate > 0 && value >= 0) || (rate < 0 && value < 0) {
        let size = rate.unsigned_abs();
        Some(Point {
            role,
            size: value.unsigned_abs(),
            rate: size,
            rise: fixed_point((size.min(1 << 100)) as i128, den).wrapping_add(1),
        })
    } else {
        None
    }
}

/// Adds a point, if there is one.
fn push_point(points: &mut List<Point>, point: Option<Point>) -> Result<(), NoMemory> {
    if let Some(point) = point {
        points.push(point)?;
    }
    Ok(())
}

/// The points of all rows and keys but those that are short and don't count, if these are to be left out.
pub(crate) fn points_of(
    alloc: Global,
    rows: &[BasisRow],
    shares: &[Share],
    needs: &[i128],
    entering: Option<usize>,
    alone: bool,
) -> Result<List<Point>, NoMemory> {
    let mut points = List::from_vec(Vec::with_capacity(alloc, rows.len())?);
    for i in 0..rows.len() {
        let row = &rows[i];
        if !alone || row.value >= 0 || row.weight != 0 {
            let point = point_of(Role::Row(i), row.value, row.product as i128, row.den);
            push_point(&mut points, point)?;
        }
    }
    for share in shares {
        if !alone || share.value >= 0 {
            let point = point_of(Role::Key(*share), share.value, share.product, share.den);
            push_point(&mut points, point)?;
        }
    }
    if let Some(demand) = entering {
        if place_of(shares, demand) == shares.len() {
            let share = whole_share(needs, demand, entering);
            let point = point_of(Role::Key(share), share.value, 1, 1);
            push_point(&mut points, point)?;
        }
    }
    Ok(points)
}

/// Whether a point comes before another one.
fn is_before(point: &Point, other: &Point) -> bool {
    let left = point.size.wrapping_mul(other.rate);
    let right = other.size.wrapping_mul(point.rate);
    left < right || (left == right && point.rate < other.rate)
}

/// The place of the first point.
fn first_of(points: &[Point]) -> usize {
    let mut first = 0;
    for k in 1..points.len() {
        if first < points.len() && is_before(&points[k], &points[first]) {
            first = k;
        }
    }
    first
}

/// What leaves: the last of the points up to which what is short falls.
pub(crate) fn leaving(points: &mut List<Point>, slope: i128) -> Option<Role> {
    let mut slope = slope;
    let mut role = None;
    for _ in 0..points.len() {
        let at = first_of(points.items());
        if at >= points.len() {
            return role;
        }
        let point = points.remove(at);
        role = Some(point.role);
        slope = slope.wrapping_add(point.rise);
        if slope >= 0 {
            return role;
        }
    }
    role
}
