use crate::numbers::Numbers;
use crate::point::{Point, num_at};
use net_core::{List, NoMemory};
use std::alloc::Global;

/// Each number is tried over 1 to this number.
const PARTS: usize = 4;

/// Puts a number last, unless it is there or 0.
fn push_new(numbers: &mut List<u128>, number: u128) -> Result<(), NoMemory> {
    if number == 0 || numbers.items().iter().any(|known| *known == number) {
        return Ok(());
    }
    numbers.push(number)?;
    Ok(())
}

/// Puts a number's whole, half, third and quarter last, rounded up, unless they are there.
fn push_parts(divisors: &mut List<u128>, number: u128) -> Result<(), NoMemory> {
    for part in 0..PARTS {
        push_new(divisors, number.div_ceil(part as u128 + 1))?;
    }
    Ok(())
}

/// The different coefficients, no more than what is needed.
pub(crate) fn kinds_of(alloc: Global, numbers: &Numbers) -> Result<List<u128>, NoMemory> {
    let mut kinds = List::new(alloc);
    for coef in numbers.coefs.items() {
        push_new(&mut kinds, (*coef).min(numbers.need))?;
    }
    Ok(kinds)
}

/// The different coefficients of the modules that a point has, no more than what is needed.
pub(crate) fn kinds_at(
    alloc: Global,
    numbers: &Numbers,
    point: &Point,
) -> Result<List<u128>, NoMemory> {
    let mut kinds = List::new(alloc);
    let coefs = numbers.coefs.items();
    for place in 0..coefs.len() {
        if num_at(point, place) > 0 {
            push_new(&mut kinds, coefs[place].min(numbers.need))?;
        }
    }
    Ok(kinds)
}

/// The divisors that are tried: 1, and parts of what is needed and of these numbers.
pub(crate) fn divisors_of(
    alloc: Global,
    need: u128,
    kinds: &[u128],
) -> Result<List<u128>, NoMemory> {
    let mut divisors = List::new(alloc);
    divisors.push(1)?;
    push_parts(&mut divisors, need)?;
    for kind in kinds {
        push_parts(&mut divisors, *kind)?;
    }
    Ok(divisors)
}
