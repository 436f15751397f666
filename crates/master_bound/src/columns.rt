ghost use Rattle.std.specs.Prelude.{◌≡◌, ◌<◌, ◌≤◌, ◌++◌, ◌^◌, ℕ, Some, cond, nat_lt, pos, length, slice_get, IfOk, OnOk};
ghost use Rattle.simplex_core.specs.Terms.{AreEntries, entry_of as entries_at};
ghost use Rattle.plan_terms.specs.Terms.{Metric, CutLine};
ghost use Rattle.master_law.specs.Terms.{cut_gain};
ghost use Rattle.master_bound.{specs.Narrow.{length_entry, HaveNarrowEntries}, specs.inner.Programs.{entry_in, AreEntriesOf, IsColumnOfCut}};

use crate::numbers::entry_of;
use crate::pricing::best_candidate;
use crate::program::MasterProgram;
use checked_fraction::Row;
use module_prices::UnitPair;
use net_core::{Copied, LinkId, List, MasterColumn, NoMemory};
use simplex_core::{Column, Columns, Entry, Price};
use std::alloc::Global;

/// Puts the entry of a row last, unless it is 0.
fn push_entry(entries: &mut List<Entry>, row: u32, value: u128) -> Result<(), NoMemory>
    requires { value < 2 ^ 62 }
    ensures { OnOk result (entries.new ≡ entries.old ++ entry_in row value) }
{
    if value > 0 {
        entries.push(Entry {
            row,
            value: value as i64,
        })?;
    }
    Ok(())
}

/// The entries of lengths.
fn entries_of(alloc: Global, pairs: &[UnitPair], lengths: &[u32]) -> Result<List<Entry>, NoMemory>
    requires few { length lengths.now ≤ 256 }
    requires pairs { length pairs.now ≡ length lengths.now }
    requires narrow { HaveNarrowEntries pairs.now lengths.now }
    ensures { IfOk result (AreEntriesOf pairs.now lengths.now (length lengths.now)) }
{
    let mut entries = List::from_vec(Vec::with_capacity(alloc, lengths.len())?);
    for e in 0..lengths.len() {
        push_entry(&mut entries, e as u32, entry_of(pairs, lengths, e))?;
    }
    Ok(entries)
}

/// The column of the cut at place `k`.
fn column_at(program: &MasterProgram, k: usize) -> Result<Column<MasterColumn>, NoMemory>
    requires { k < length program.now.task.cuts.now }
    ensures { IfOk result (λ c. (cut : CutLine) → slice_get program.now.task.cuts.now k ≡ Some cut
        → IsColumnOfCut program.now.task.net.now.links program.now.task.pairs.now cut c) }
{
    let cut = &program.task.cuts.items()[k];
    let entries = entries_of(
        program.alloc,
        program.task.pairs.items(),
        cut.lengths.items(),
    )?;
    Ok(Column {
        name: MasterColumn::Metric(cut.state, cut.lengths.copy()?),
        gain: program.ratings.items()[k].gain,
        entries,
    })
}

impl<'a> Columns for MasterProgram<'a> {
    ghost use Rattle.std.specs.Prelude.{length};
    ghost use Rattle.master_law.specs.Terms.{master_bound, master_slack, IsCutColumn};

    type Name = MasterColumn;

    ghost rows = { λ p. length p.task.net.now.links };

    ghost bound = { λ p. master_bound p.task.pairs.now };

    ghost slack = { λ p. master_slack };

    ghost is_listed = { λ p. IsCutColumn p.task.net.now.links p.task.pairs.now p.task.cuts.now };

    fn rows(&self) -> u32 {
        self.task.net.links().len() as u32
    }

    fn bound(&self, row: u32) -> i64 {
        self.task.pairs.items()[row as usize].cost as i64
    }

    fn slack(&self, row: u32) -> MasterColumn {
        MasterColumn::LinkSlack(LinkId(row))
    }

    fn price(&mut self, duals: &Row) -> Price<MasterColumn> {
        let Some(best) = best_candidate(self, duals) else {
            return Price::Optimal;
        };
        match column_at(self, best.cut) {
            Ok(column) => Price::Gain(column),
            Err(NoMemory) => Price::NoMemory,
        }
    }
}
