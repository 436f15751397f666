ghost use Rattle.std.specs.Prelude.{◌≡◌, ◌+◌, ◌<◌, ◌^◌, ◌≤ℤ◌, ◌⊎◌, ℕ, None, length, pos};
ghost use Rattle.checked_fraction.specs.Terms.{num};
ghost use Rattle.box_program.specs.inner.BoxPrograms.{AreBoxColumns, FindsColumn, IsCandidateAt};

use crate::candidate::Candidate;
use crate::shape::Rows;
use checked_fraction::{Row, cmp};
use net_core::{Copied, List};
use simplex_core::{Column, Columns, Entry, Price, gains};
use std::cmp::Ordering;

/// A column of a box's program.
#[derive(Drop)]
pub(crate) struct Rated {
    pub column: Column<u32>,
    /// What its surplus is compared by.
    pub weight: u128,
    /// The line that it is of; none for a greatest count.
    pub line: Option<u32>,
}

/// The program of a box, whose optimum is the certificate of the greatest value of its lines: the prices of lines and of greatest counts
/// that no module's cost is below, as a packing program.
#[derive(Drop)]
pub(crate) struct BoxProgram {
    pub rows: Rows,
    pub columns: List<Rated>,
    /// Lines from this index on are taken.
    pub first: usize,
    /// How many lines there are.
    pub lines: u32,
    pub ghost few: { length columns < 2 ^ 30 },
    pub ghost sound: { AreBoxColumns (length rows.bounds) columns },
}

/// A box's program, lent to the simplex method.
#[derive(Drop)]
pub(crate) struct BoxColumns<'a> {
    pub program: &'a BoxProgram,
}

/// What an entry costs at these prices; 0 past the last row.
fn entry_cost(nums: &[i64], entry: &Entry) -> u128 {
    let row = entry.row as usize;
    if row < nums.len() {
        (nums[row].unsigned_abs() as u128).saturating_mul(entry.value.unsigned_abs() as u128)
    } else {
        0
    }
}

/// What a unit of a column gains beyond what its entries cost.
fn surplus_of(duals: &Row, column: &Column<u32>) -> u128 {
    let den = duals.den().unsigned_abs() as u128;
    let mut rest = (column.gain.unsigned_abs() as u128).saturating_mul(den);
    for entry in column.entries.items() {
        rest = rest.saturating_sub(entry_cost(duals.nums(), entry));
    }
    rest
}

/// The one of greater surplus over its weight; the first of equals.
fn greater(best: Candidate, next: Candidate) -> Candidate
    ensures { (result ≡ best) ⊎ (result ≡ next) }
{
    if cmp(next.surplus, next.weight, best.surplus, best.weight) == Ordering::Greater {
        next
    } else {
        best
    }
}

/// The column at a place, if it gains.
fn candidate_at(columns: &[Rated], duals: &Row, at: usize) -> Option<Candidate>
    requires inside { at < length columns.now }
    requires sound { AreBoxColumns (length duals.now.nums) columns.now }
    requires positive { (k : ℕ) → k < length duals.now.nums → pos 0 ≤ℤ num duals.now.nums k }
    ensures { IsCandidateAt columns.now duals.now at result }
{
    let rated = &columns[at];
    if !gains(duals, rated.column.gain, rated.column.entries.items()) {
        return None;
    }
    Some(Candidate {
        at,
        surplus: surplus_of(duals, &rated.column),
        weight: rated.weight,
    })
}

/// The one of greater surplus over its weight, where there may be none.
fn better(best: Option<Candidate>, next: Option<Candidate>) -> Option<Candidate>
    ensures is { (result ≡ best) ⊎ (result ≡ next) }
    ensures none { result ≡ None → (best ≡ None) × (next ≡ None) }
{
    match (best, next) {
        (Some(b), Some(n)) => Some(greater(b, n)),
        (None, _) => next,
        (_, None) => best,
    }
}

/// A column that gains at these prices.
#[tactic(auto, using(crate::proofs::Candidates::candidate_more))]
fn best_candidate(columns: &[Rated], duals: &Row) -> Option<Candidate>
    requires sound { AreBoxColumns (length duals.now.nums) columns.now }
    requires positive { (k : ℕ) → k < length duals.now.nums → pos 0 ≤ℤ num duals.now.nums k }
    ensures { FindsColumn columns.now duals.now (length columns.now) result }
{
    let mut best = None;
    for at in 0..columns.len() {
        best = better(best, candidate_at(columns, duals, at));
    }
    best
}

impl<'a> Columns for BoxColumns<'a> {
    ghost use Rattle.std.specs.Prelude.{length};
    ghost use Rattle.checked_fraction.specs.Terms.{num};
    ghost use Rattle.box_program.specs.inner.BoxPrograms.{IsListedColumn};

    type Name = u32;

    ghost rows = { λ p. length p.program.now.rows.bounds };

    ghost bound = { λ p. num p.program.now.rows.bounds };

    ghost slack = { λ _ row. row };

    ghost is_listed = { λ p. IsListedColumn p.program.now.columns };

    fn rows(&self) -> u32 {
        self.program.rows.bounds.len() as u32
    }

    fn bound(&self, row: u32) -> i64 {
        self.program.rows.bounds.items()[row as usize]
    }

    fn slack(&self, row: u32) -> u32 {
        row
    }

    fn price(&mut self, duals: &Row) -> Price<u32> {
        let columns = self.program.columns.items();
        let Some(best) = best_candidate(columns, duals) else {
            return Price::Optimal;
        };
        match columns[best.at].column.copy() {
            Ok(column) => Price::Gain(column),
            Err(_) => Price::NoMemory,
        }
    }
}
