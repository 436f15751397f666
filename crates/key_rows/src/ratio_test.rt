ghost use Rattle.std.{specs.Prelude.{◌≡◌, ◌≢◌, ◌<◌, ◌+◌, ◌-◌, ◌^◌, ◌<ℤ◌, ◌≤◌, ◌≤ℤ◌, ◌⊎◌, ℕ, ℤ, List, pos, unsigned_abs, MatchOption, Some, IfOk, IfErr, length, false, IsTrue, get_or, ◌↔◌}, specs.Option.ForSome};
ghost use Rattle.checked_fraction.specs.Terms.{num, IsNarrow};
ghost use Rattle.key_law.specs.Terms.{IsTieFirst};
ghost use Rattle.simplex_core.specs.Terms.{nums_at, IsRectangle};
ghost use Rattle.key_rows.{specs.declared.order.Candidate.Candidate, specs.Bases.{IsShapedBasis, IsRoom}, specs.FirstRoles.{IsFirstOfRoles, LeaveSomething}, specs.KeyRows.{AreWeights, amounts, left_over_rows, HaveValues}, specs.KeyTests.{IsWideTest, HaveColumnProducts}, specs.Names.{demand_in, key_links, IsNameWithin, IsShortPath}, specs.inner.Candidates.{IsJoined, IsKeyTest, IsWithKey, IsBetterKey, IsPlacedCandidate, DecidesTie}, specs.inner.Entrants.{IsEntrant, HaveTestNumbers, AreRivals}, specs.inner.Orders.{IsRowFirst, IsRowCandidate, IsPlacedRow, IsBetterRow, IsBestRow}, specs.inner.Tried.{role_in, IsSeen, IsTried, TouchesNoMore}};

use crate::entrant::Entrant;
use crate::keyed::{Keyed, Room};
use crate::keys::key_path;
use crate::order::{Candidate, compare_values, tie_first};
use crate::sums::demand_of;
use crate::tie::{own_of, tie_with_key, tie_with_row};
use crate::weights::{key_value, step_of, weigh};
use checked_fraction::Row;
use net_core::RouteColumn;
use std::cmp::Ordering;

/// What is too wide when it is decided which column leaves.
#[derive(Clone, Copy)]
pub enum WideTest {
    /// The common denominator of the rows of a demand.
    Common,
    /// The product of the key of this role with the column that enters.
    Product(u32),
    /// The row of the key of this role.
    Row(u32),
}

/// Whether the first row comes before the second, where their values tie.
fn row_before(rows: &[Row], first: &Candidate, second: &Candidate) -> bool
    requires rectangle { IsRectangle (length rows.now) rows.now }
    requires short { length rows.now < 2 ^ 32 }
    requires inside_first { first.now.role < length rows.now }
    requires inside_second { second.now.role < length rows.now }
    requires first { pos 0 <ℤ first.now.product }
    requires second { pos 0 <ℤ second.now.product }
    ensures yes { IsTrue result → IsTieFirst (length rows.now) (nums_at rows.now first.now.role) first.now.product
        (nums_at rows.now second.now.role) second.now.product first.now.role second.now.role }
    ensures no { result ≡ false → IsTieFirst (length rows.now) (nums_at rows.now second.now.role) second.now.product
        (nums_at rows.now first.now.role) first.now.product second.now.role first.now.role }
{
    tie_first(
        first.role,
        rows[first.role as usize].nums(),
        &first.product,
        second.role,
        rows[second.role as usize].nums(),
        &second.product,
    )
}

/// The better of two rows.
fn better_row(rows: &[Row], best: &Candidate, other: &Candidate) -> Candidate
    requires rectangle { IsRectangle (length rows.now) rows.now }
    requires short { length rows.now < 2 ^ 32 }
    requires inside_best { best.now.role < length rows.now }
    requires inside_other { other.now.role < length rows.now }
    requires best { pos 0 <ℤ best.now.product }
    requires other { pos 0 <ℤ other.now.product }
    ensures one { ((result ≡ best.now) × IsRowFirst (length rows.now) rows.now best.now other.now)
        ⊎ ((result ≡ other.now) × IsRowFirst (length rows.now) rows.now other.now best.now) }
{
    match compare_values(other, best) {
        Ordering::Less => *other,
        Ordering::Greater => *best,
        Ordering::Equal => {
            if row_before(rows, other, best) {
                *other
            } else {
                *best
            }
        }
    }
}

/// Row `i` with its value and its product.
fn candidate_at(values: &[u128], products: &[i128], i: usize) -> Candidate
    requires inside { i < length values.now }
    requires short { length values.now < 2 ^ 32 }
    requires products { length products.now ≡ length values.now }
    requires positive { pos 0 <ℤ num products.now i }
    ensures role { result.role ≡ i }
    ensures is { IsRowCandidate (length values.now) values.now products.now result }
{
    Candidate {
        role: i as u32,
        value: values[i],
        product: products[i],
    }
}

/// The better of the best so far and another row.
fn better_of(rows: &[Row], best: Option<Candidate>, other: Candidate) -> Candidate
    requires rectangle { IsRectangle (length rows.now) rows.now }
    requires short { length rows.now < 2 ^ 32 }
    requires best { ForSome best (IsPlacedRow (length rows.now)) }
    requires other { IsPlacedRow (length rows.now) other }
    ensures { IsBetterRow (length rows.now) rows.now best other result }
{
    match best {
        Some(best) => better_row(rows, &best, &other),
        None => other,
    }
}

/// The first of the rows before row `i`, and of that row if its product is positive.
fn next_row(
    rows: &[Row],
    values: &[u128],
    products: &[i128],
    best: Option<Candidate>,
    i: usize,
) -> Option<Candidate>
    requires inside { i < length rows.now }
    requires short { length rows.now < 2 ^ 32 }
    requires rectangle { IsRectangle (length rows.now) rows.now }
    requires values { length values.now ≡ length rows.now }
    requires products { length products.now ≡ length rows.now }
    requires best { ForSome best (IsPlacedRow (length rows.now)) }
    ensures placed { ForSome result (IsPlacedRow (length rows.now)) }
    ensures first { (rest : ℕ → ℤ) → HaveValues (length rows.now) rows.now rest values.now
        → IsBestRow (length rows.now) rows.now rest values.now products.now i best
        → IsBestRow (length rows.now) rows.now rest values.now products.now (i + 1) result }
{
    if products[i] <= 0 {
        return best;
    }
    let other = candidate_at(values, products, i);
    Some(better_of(rows, best, other))
}

/// The first of the rows of positive product, by the ratios of their values to the products.
fn leaving_row(rows: &[Row], values: &[u128], products: &[i128]) -> Option<Candidate>
    requires short { length rows.now < 2 ^ 32 }
    requires rectangle { IsRectangle (length rows.now) rows.now }
    requires values { length values.now ≡ length rows.now }
    requires products { length products.now ≡ length rows.now }
    ensures placed { ForSome result (IsPlacedRow (length rows.now)) }
    ensures first { (rest : ℕ → ℤ) → HaveValues (length rows.now) rows.now rest values.now
        → IsBestRow (length rows.now) rows.now rest values.now products.now (length rows.now) result }
{
    let mut best = None;
    for i in 0..rows.len() {
        best = next_row(rows, values, products, best, i);
    }
    best
}

/// The candidate of these numbers, if its product is positive.
fn positive_candidate(role: u32, value: u128, product: i128) -> Option<Candidate>
    ensures { MatchOption result (product ≤ℤ pos 0) (λ x. (x.role ≡ role) × (x.value ≡ value) × (x.product ≡ product) × (pos 0 <ℤ x.product)) }
{
    if product <= 0 {
        return None;
    }
    Some(Candidate {
        role,
        value,
        product,
    })
}

/// The key of a demand, in this role, as a candidate, if its product with the column is positive. `own` is the column's entry in the
/// demand's row, and the weights bring the demand's rows over `all`.
fn weighed_candidate(
    keyed: &Keyed,
    weights: &[i64],
    own: &i64,
    all: &i64,
    demand: u32,
    role: u32,
) -> Result<Option<Candidate>, WideTest>
    requires shaped { IsShapedBasis (length keyed.now.rows) (length keyed.now.duals) keyed.now }
    requires demand { demand < length keyed.now.duals }
    requires role { role ≡ length keyed.now.rows + demand }
    requires own { IsNarrow own.now }
    requires count { length weights.now ≡ length keyed.now.rows }
    requires narrow { (i : ℕ) → IsNarrow (num weights.now i) }
    requires weights { AreWeights keyed.now.rows keyed.now.owners weights.now demand all.now }
    requires bounds { (r : ℕ) → r < length keyed.now.bounds → pos 0 ≤ℤ num keyed.now.bounds r }
    requires low { (i : ℕ) → i < length keyed.now.rows → unsigned_abs (num keyed.now.products i) < 2 ^ 76 }
    requires values { (n : ℕ) → n ≤ length keyed.now.rows
        → pos 0 ≤ℤ left_over_rows keyed.now.owners weights.now demand all.now (num keyed.now.bounds role)
        (amounts keyed.now.values) n }
    ensures { IsKeyTest keyed.now demand own.now result }
{
    let owners = keyed.owners.items();
    let Some(step) = step_of(owners, weights, keyed.products.items(), demand, own, all) else {
        return Err(WideTest::Product(role));
    };
    let bound = &keyed.bounds.items()[role as usize];
    let value = key_value(owners, weights, keyed.values.items(), demand, bound, all);
    Ok(positive_candidate(role, value, step))
}

/// The key of a demand, in this role, as a candidate, with weights that are worked out first.
fn key_candidate(
    keyed: &Keyed,
    room: &mut Room,
    own: &i64,
    demand: u32,
) -> Result<Option<Candidate>, WideTest>
    requires shaped { IsShapedBasis (length keyed.now.rows) (length keyed.now.duals) keyed.now }
    requires room { IsRoom (length keyed.now.rows) room.old }
    requires demand { demand < length keyed.now.duals }
    requires own { IsNarrow own.now }
    requires bounds { (r : ℕ) → r < length keyed.now.bounds → pos 0 ≤ℤ num keyed.now.bounds r }
    requires low { (i : ℕ) → i < length keyed.now.rows → unsigned_abs (num keyed.now.products i) < 2 ^ 76 }
    requires values { (weights : List ℤ) (all : ℤ) (n : ℕ) → AreWeights keyed.now.rows keyed.now.owners weights demand all → n ≤ length keyed.now.rows
        → pos 0 ≤ℤ left_over_rows keyed.now.owners weights demand all (num keyed.now.bounds (length keyed.now.rows + demand)) (amounts keyed.now.values) n }
    ensures room { IsRoom (length keyed.now.rows) room.new }
    ensures test { IsKeyTest keyed.now demand own.now result }
{
    let Some(all) = weigh(
        keyed.rows.items(),
        keyed.owners.items(),
        demand,
        &mut room.weights,
    ) else {
        return Err(WideTest::Common);
    };
    let role = keyed.rows.len() as u32 + demand;
    weighed_candidate(keyed, room.weights.items(), own, &all, demand, role)
}

/// Whether a key comes before the best so far, where their values tie.
fn key_before(
    entrant: &Entrant,
    room: &mut Room,
    x: &Candidate,
    demand: u32,
    best: &Candidate,
) -> Result<bool, WideTest>
    requires entrant { IsEntrant entrant.now }
    requires room { IsRoom (length entrant.now.keyed.now.rows) room.old }
    requires rivals { AreRivals entrant.now.keyed.now entrant.now.name.now demand x.now best.now }
    ensures room { IsRoom (length entrant.now.keyed.now.rows) room.new }
    ensures tie { IfOk result (DecidesTie entrant.now.keyed.now entrant.now.name.now entrant.now.key.now x.now best.now) }
    ensures wide { IfErr result (IsWideTest entrant.now.keyed.now entrant.now.name.now) }
{
    let links = entrant.keyed.rows.len() as u32;
    if best.role < links {
        tie_with_row(entrant, room, x, demand, best)
    } else {
        tie_with_key(entrant, room, x, demand, best, best.role - links)
    }
}

/// The better of the best so far and a key.
fn better_key(
    entrant: &Entrant,
    room: &mut Room,
    x: &Candidate,
    demand: u32,
    best: &Candidate,
) -> Result<Candidate, WideTest>
    requires entrant { IsEntrant entrant.now }
    requires room { IsRoom (length entrant.now.keyed.now.rows) room.old }
    requires rivals { AreRivals entrant.now.keyed.now entrant.now.name.now demand x.now best.now }
    ensures room { IsRoom (length entrant.now.keyed.now.rows) room.new }
    ensures better { IfOk result (IsBetterKey entrant.now.keyed.now entrant.now.name.now entrant.now.key.now best.now x.now) }
    ensures wide { IfErr result (IsWideTest entrant.now.keyed.now entrant.now.name.now) }
{
    match compare_values(x, best) {
        Ordering::Less => Ok(*x),
        Ordering::Greater => Ok(*best),
        Ordering::Equal => {
            if key_before(entrant, room, x, demand, best)? {
                Ok(*x)
            } else {
                Ok(*best)
            }
        }
    }
}

/// The best so far, if there is one, and a key that may leave.
fn joined(
    entrant: &Entrant,
    room: &mut Room,
    best: Option<Candidate>,
    x: &Candidate,
    demand: u32,
) -> Result<Option<Candidate>, WideTest>
    requires entrant { IsEntrant entrant.now }
    requires room { IsRoom (length entrant.now.keyed.now.rows) room.old }
    requires rivals { ForSome best (AreRivals entrant.now.keyed.now entrant.now.name.now demand x.now) }
    ensures room { IsRoom (length entrant.now.keyed.now.rows) room.new }
    ensures joined { IfOk result (IsJoined entrant.now.keyed.now entrant.now.name.now entrant.now.key.now best x.now) }
    ensures wide { IfErr result (IsWideTest entrant.now.keyed.now entrant.now.name.now) }
{
    match best {
        Some(best) => {
            let better = better_key(entrant, room, x, demand, &best)?;
            Ok(Some(better))
        }
        None => Ok(Some(*x)),
    }
}

/// Whether the best so far is that of a role.
fn is_role(best: &Option<Candidate>, role: u32) -> bool
    ensures yes { IsTrue result → (same : Candidate) × (best.now ≡ Some same) × (same.role ≡ role) }
    ensures no { result ≡ false → ForSome best.now (λ y. role ≢ y.role) }
{
    match best {
        Some(best) => best.role == role,
        None => false,
    }
}

/// The best so far and the key of a demand, if that has a step.
fn with_key(
    entrant: &Entrant,
    room: &mut Room,
    best: Option<Candidate>,
    demand: u32,
) -> Result<Option<Candidate>, WideTest>
    requires entrant { IsEntrant entrant.now }
    requires room { IsRoom (length entrant.now.keyed.now.rows) room.old }
    requires demand { demand < length entrant.now.keyed.now.duals }
    requires numbers { HaveTestNumbers entrant.now.keyed.now }
    requires best { ForSome best (IsPlacedCandidate entrant.now.keyed.now entrant.now.name.now) }
    ensures room { IsRoom (length entrant.now.keyed.now.rows) room.new }
    ensures with_key { IfOk result (IsWithKey entrant.now.keyed.now entrant.now.name.now entrant.now.key.now demand best) }
    ensures wide { IfErr result (IsWideTest entrant.now.keyed.now entrant.now.name.now) }
{
    let own = own_of(entrant.name, demand);
    match key_candidate(entrant.keyed, room, &own, demand)? {
        Some(x) => {
            if is_role(&best, x.role) {
                return Ok(best);
            }
            joined(entrant, room, best, &x, demand)
        }
        None => Ok(best),
    }
}

/// Whether a column is one of the demand.
fn is_of(name: &RouteColumn, demand: u32) -> bool
    ensures { IsTrue result ↔ (demand_in name.now ≡ Some demand) }
{
    match name {
        RouteColumn::Carry(own, _) => *own == demand,
        RouteColumn::DemandSlack(own) => *own == demand,
        RouteColumn::LinkSlack(_) => false,
    }
}

/// Whether the demand of row `i` has an earlier row that has a product with the column.
fn is_seen(owners: &[u32], products: &[i128], i: usize) -> bool
    requires inside { i < length owners.now }
    requires products { length products.now ≡ length owners.now }
    ensures { IsTrue result → IsSeen owners.now products.now i (get_or owners.now i 0) }
{
    for j in 0..i {
        if owners[j] == owners[i] && products[j] != 0 {
            return true;
        }
    }
    false
}

/// Whether the key of row `i`'s demand has to be tried there: the row has a product with the column, and no earlier one
/// of the demand has.
fn is_to_be_tried(keyed: &Keyed, name: &RouteColumn, i: usize) -> bool
    requires shaped { IsShapedBasis (length keyed.now.rows) (length keyed.now.duals) keyed.now }
    requires inside { i < length keyed.now.rows }
    ensures yes { IsTrue result → get_or keyed.now.owners i 0 < length keyed.now.duals }
    ensures no { result ≡ false → TouchesNoMore keyed.now name.now i }
{
    let owners = keyed.owners.items();
    let products = keyed.products.items();
    if products[i] == 0 || owners[i] as usize >= keyed.duals.len() {
        return false;
    }
    !is_of(name, owners[i]) && !is_seen(owners, products, i)
}

/// The best so far and the key of the column's own demand, if it has one.
fn with_own_key(
    entrant: &Entrant,
    room: &mut Room,
    best: Option<Candidate>,
) -> Result<Option<Candidate>, WideTest>
    requires entrant { IsEntrant entrant.now }
    requires room { IsRoom (length entrant.now.keyed.now.rows) room.old }
    requires demand { ForSome (demand_in entrant.now.name.now) (λ d. d < length entrant.now.keyed.now.duals) }
    requires numbers { HaveTestNumbers entrant.now.keyed.now }
    requires best { ForSome best (IsPlacedCandidate entrant.now.keyed.now entrant.now.name.now) }
    ensures room { IsRoom (length entrant.now.keyed.now.rows) room.new }
    ensures placed { IfOk result (λ after. ForSome after (IsPlacedCandidate entrant.now.keyed.now entrant.now.name.now)) }
    ensures first { IfOk result (λ after. IsFirstOfRoles entrant.now.keyed.now entrant.now.name.now
        (λ r. r < length entrant.now.keyed.now.rows) (role_in best)
        → IsFirstOfRoles entrant.now.keyed.now entrant.now.name.now
        (IsTried entrant.now.keyed.now entrant.now.name.now 0) (role_in after)) }
    ensures wide { IfErr result (IsWideTest entrant.now.keyed.now entrant.now.name.now) }
{
    match demand_of(entrant.name) {
        Some(demand) => with_key(entrant, room, best, demand),
        None => Ok(best),
    }
}

/// The best so far and the key of row `i`'s demand, where it has to be tried there.
fn with_key_of_row(
    entrant: &Entrant,
    room: &mut Room,
    best: Option<Candidate>,
    i: usize,
) -> Result<Option<Candidate>, WideTest>
    requires entrant { IsEntrant entrant.now }
    requires room { IsRoom (length entrant.now.keyed.now.rows) room.old }
    requires inside { i < length entrant.now.keyed.now.rows }
    requires numbers { HaveTestNumbers entrant.now.keyed.now }
    requires best { ForSome best (IsPlacedCandidate entrant.now.keyed.now entrant.now.name.now) }
    ensures room { IsRoom (length entrant.now.keyed.now.rows) room.new }
    ensures placed { IfOk result (λ after. ForSome after (IsPlacedCandidate entrant.now.keyed.now entrant.now.name.now)) }
    ensures first { IfOk result (λ after. IsFirstOfRoles entrant.now.keyed.now entrant.now.name.now
        (IsTried entrant.now.keyed.now entrant.now.name.now i) (role_in best)
        → IsFirstOfRoles entrant.now.keyed.now entrant.now.name.now
        (IsTried entrant.now.keyed.now entrant.now.name.now (i + 1)) (role_in after)) }
    ensures wide { IfErr result (IsWideTest entrant.now.keyed.now entrant.now.name.now) }
{
    if !is_to_be_tried(entrant.keyed, entrant.name, i) {
        return Ok(best);
    }
    with_key(entrant, room, best, entrant.keyed.owners.items()[i])
}

/// The best so far and the keys of all demands, of which one has a step only where it is the column's own or a row of it
/// has a product.
fn with_keys(
    entrant: &Entrant,
    room: &mut Room,
    best: Option<Candidate>,
) -> Result<Option<Candidate>, WideTest>
    requires entrant { IsEntrant entrant.now }
    requires room { IsRoom (length entrant.now.keyed.now.rows) room.old }
    requires demand { ForSome (demand_in entrant.now.name.now) (λ d. d < length entrant.now.keyed.now.duals) }
    requires numbers { HaveTestNumbers entrant.now.keyed.now }
    requires best { ForSome best (IsPlacedCandidate entrant.now.keyed.now entrant.now.name.now) }
    requires first { IsFirstOfRoles entrant.now.keyed.now entrant.now.name.now (λ r. r < length entrant.now.keyed.now.rows) (role_in best) }
    ensures room { IsRoom (length entrant.now.keyed.now.rows) room.new }
    ensures first { IfOk result (λ after. IsFirstOfRoles entrant.now.keyed.now entrant.now.name.now (λ r. Unit {0}) (role_in after)) }
    ensures wide { IfErr result (IsWideTest entrant.now.keyed.now entrant.now.name.now) }
{
    let mut best = with_own_key(entrant, room, best)?;
    for i in 0..entrant.keyed.rows.len() {
        best = with_key_of_row(entrant, room, best, i)?;
    }
    Ok(best)
}

/// The role whose column leaves when one with known products enters: of those of positive product the first by
/// its ratio.
/// It takes time in the number of roles; only where ratios are equal are rows compared, number by number. It asks for no memory.
pub fn leaving(keyed: &Keyed, room: &mut Room, name: &RouteColumn) -> Result<Option<u32>, WideTest>
    requires shaped { IsShapedBasis (length keyed.now.rows) (length keyed.now.duals) keyed.now }
    requires room { IsRoom (length keyed.now.rows) room.old }
    requires demand { ForSome (demand_in name.now) (λ d. d < length keyed.now.duals) }
    requires name { IsNameWithin (length keyed.now.rows) name.now }
    requires key { IsShortPath (length keyed.now.rows) (key_links keyed.now.names keyed.now.places (length keyed.now.rows) (demand_in name.now)) }
    requires products { HaveColumnProducts keyed.now name.now (key_links keyed.now.names keyed.now.places (length keyed.now.rows) (demand_in name.now)) }
    requires bounds { (r : ℕ) → r < length keyed.now.bounds → pos 0 ≤ℤ num keyed.now.bounds r }
    requires low { (i : ℕ) → i < length keyed.now.rows → unsigned_abs (num keyed.now.products i) < 2 ^ 76 }
    requires values { LeaveSomething keyed.now }
    requires row_values { HaveValues (length keyed.now.rows) keyed.now.rows (num keyed.now.rest) keyed.now.values }
    ensures room { IsRoom (length keyed.now.rows) room.new }
    ensures first { IfOk result (IsFirstOfRoles keyed.now name.now (λ r. Unit {0})) }
    ensures wide { IfErr result (IsWideTest keyed.now name.now) }
{
    let best = leaving_row(
        keyed.rows.items(),
        keyed.values.items(),
        keyed.products.items(),
    );
    let key = key_path(
        keyed.names.items(),
        keyed.places.items(),
        keyed.rows.len(),
        demand_of(name),
    );
    let entrant = Entrant { keyed, name, key };
    match with_keys(&entrant, room, best)? {
        Some(best) => Ok(Some(best.role)),
        None => Ok(None),
    }
}
