ghost use Rattle.std.specs.Prelude.{◌≡◌, ◌↔◌, ◌<◌, ◌≤ℤ◌, ℕ, ℤ, pos, length};
ghost use Rattle.checked_fraction.specs.Terms.{num};
ghost use Rattle.simplex_law.specs.Terms.{ColumnOf};
ghost use Rattle.simplex_core.specs.Prices.{Finds};

use checked_fraction::Row;
use net_core::{Copied, List, NoMemory};

/// What a unit of a column takes of a row.
#[derive(Clone, Copy)]
pub struct Entry {
    /// The place of the row, from 0.
    pub row: u32,
    /// How much of the row's bound, in the bound's unit.
    pub value: i64,
}

/// A column: what a unit of it gains, and what it takes of the rows.
#[derive(Drop)]
pub struct Column<N> {
    /// The name that a basis lists it by.
    pub name: N,
    /// The gain of one unit.
    pub gain: i64,
    /// What one unit takes, with no entry for a row that it takes nothing of. Entries of one row add up.
    pub entries: List<Entry>,
}

/// What pricing finds.
#[derive(Drop)]
pub enum Price<N> {
    /// A column that gains more than its entries cost.
    Gain(Column<N>),
    /// No column does.
    Optimal,
    /// The call ran out of memory.
    NoMemory,
}

impl<N: Copied> Copied for Column<N> {
    fn copy(&self) -> Result<Column<N>, NoMemory> {
        Ok(Column {
            name: self.name.copy()?,
            gain: self.gain,
            entries: self.entries.copy()?,
        })
    }
}

impl<N: Copied> Copied for Price<N> {
    fn copy(&self) -> Result<Price<N>, NoMemory> {
        Ok(match self {
            Price::Gain(column) => Price::Gain(column.copy()?),
            Price::Optimal => Price::Optimal,
            Price::NoMemory => Price::NoMemory,
        })
    }
}

/// A packing program: rows with bounds, a slack for each row, and columns. `solve` asks that it is a packing program (`IsPacking`).
/// It calls `rows`, `bound` and `slack` for each row at the start, and `price` once a turn at most.
pub trait Columns {
    type Name: Drop;

    /// How many rows there are.
    ghost rows: { Self → ℕ };

    /// The bound of each row.
    ghost bound: { Self → ℕ → ℤ };

    /// The name of each row's slack.
    ghost slack: { Self → ℕ → Self.Name };

    /// Holds of the columns, apart from the slacks.
    ghost is_listed: { Self → ColumnOf Self.Name → Type 0 };

    /// How many rows there are.
    fn rows(&self) -> u32
        ensures { result ≡ rows self.now };

    /// The bound of a row.
    fn bound(&self, row: u32) -> i64
        requires { row < rows self.now }
        ensures { result ≡ bound self.now row };

    /// The name of a row's slack.
    fn slack(&self, row: u32) -> Self::Name
        requires { row < rows self.now }
        ensures { result ≡ slack self.now row };

    /// A column that gains at these prices, one per row and none of them negative, or that there is none, or that the call
    /// ran out of memory. The program stays as it is. What the call costs in time and memory is the program's own.
    fn price(&mut self, duals: &Row) -> Price<Self::Name>
        requires count { length duals.now.nums ≡ rows self.old }
        requires positive { (k : ℕ) → k < rows self.old → pos 0 ≤ℤ num duals.now.nums k }
        ensures rows { rows self.new ≡ rows self.old }
        ensures bound { (k : ℕ) → k < rows self.old → bound self.new k ≡ bound self.old k }
        ensures slack { (k : ℕ) → k < rows self.old → slack self.new k ≡ slack self.old k }
        ensures listed { (c : ColumnOf Self.Name) → is_listed self.new c ↔ is_listed self.old c }
        ensures found { Finds (rows self.old) (is_listed self.old) duals.now result };
}
