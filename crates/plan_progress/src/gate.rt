ghost use Rattle.std.specs.Prelude.{IfOk, ◌≡◌, []};
ghost use Rattle.plan_progress.specs.ProgressLines.{HasSplitLine, round_line};

use crate::lines::{put_round, put_split};
use crate::teller::Teller;
use net_core::{Bytes, List, NoMemory, Places};
use outside_io::{Gate, RoundFigures, TreeFigures};
use std::alloc::Global;

/// A gate that holds nobody. It tells a line of each round, and of each tenth of a tree's splits, unless it is quiet or memory runs out.
#[derive(Drop)]
pub struct TellingGate<'t, T> {
    alloc: Global,
    /// The number of decimal places of money.
    places: Places,
    quiet: bool,
    teller: &'t T,
}

impl<'t, T: Teller> TellingGate<'t, T> {
    /// A gate that tells this teller, with money in a network's decimal places. It takes constant time, and no memory; each line that it
    /// tells takes some.
    pub fn new(alloc: Global, places: Places, quiet: bool, teller: &'t T) -> TellingGate<'t, T> {
        TellingGate {
            alloc,
            places,
            quiet,
            teller,
        }
    }
}

/// The line of a round.
fn round_text(alloc: Global, places: Places, figures: &RoundFigures) -> Result<Bytes, NoMemory>
    ensures { IfOk result (λ text. text ≡ round_line places figures.now) }
{
    let mut text = List::new(alloc);
    put_round(&mut text, places, figures)?;
    Ok(text)
}

/// The line of a split box.
fn split_text(alloc: Global, places: Places, figures: &TreeFigures) -> Result<Bytes, NoMemory>
    ensures { IfOk result (HasSplitLine places figures.now []) }
{
    let mut text = List::new(alloc);
    put_split(&mut text, places, figures)?;
    Ok(text)
}

/// How many tenths of its splits a tree has made.
fn tenths(splits: u32, limit: u32) -> u64 {
    (splits as u64 * 10).checked_div(limit as u64).unwrap_or(0)
}

/// Whether the latest split was the one that reached another tenth.
fn is_tenth(figures: &TreeFigures) -> bool {
    let before = figures.splits.saturating_sub(1);
    tenths(figures.splits, figures.limit) != tenths(before, figures.limit)
}

impl<T: Teller> Gate for TellingGate<'_, T> {
    fn editing(&self, _caller: u32) {}

    fn edited(&self, _caller: u32) {}

    fn before(&self, _caller: u32, _state: u32) {}

    fn after(&self, _caller: u32, _state: u32) {}

    fn rounded(&self, _caller: u32, figures: RoundFigures) {
        if !self.quiet {
            if let Ok(text) = round_text(self.alloc, self.places, &figures) {
                self.teller.tell(text.items());
            }
        }
    }

    fn split(&self, figures: TreeFigures) {
        if !self.quiet && is_tenth(&figures) {
            if let Ok(text) = split_text(self.alloc, self.places, &figures) {
                self.teller.tell(text.items());
            }
        }
    }
}
