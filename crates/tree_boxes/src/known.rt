ghost use Rattle.std.specs.Prelude.{◌≡◌, ◌↔◌, ◌+◌, ◌++◌, ◌<◌, ◌^◌, ◌≤◌, [], ◌∷◌, ℕ, false, true, length, map, slice_get, take, All, Contains, IfOk, IfSome, IsTrue, MatchOption, None, OnOk, Some};
ghost use Rattle.plan_terms.specs.Terms.{IsCut, case_of};
ghost use Rattle.line_maker.specs.Terms.{IsSolutionOf};
ghost use Rattle.line_check.specs.Testing.{names_by};
ghost use Rattle.tree_check.specs.Proofs.{EmptiesBox};
ghost use Rattle.tree_boxes.specs.Searches.{Extends, IsKnown, aimed};

use crate::aim::Aim;
use box_program::{Lines, Solution, common_unit, divisor_of, solved};
use line_check::tested_lines::{tested_cut, tested_line, tested_lines};
use line_check::{Line, Tested};
use line_maker::Entry;
use net_core::{CutLine, Instance, List, NoMemory};
use std::alloc::Global;
use std::mem;
use tree_check::Boxed;
use tree_check::nodes::is_empty;
use tree_check::tests::Tests;

/// The cuts and lines of a search, in the order in which they were found, each with its test. They are named by their index in this list.
#[derive(Drop)]
pub struct Known {
    pub entries: List<Entry>,
    pub tested: List<Tested>,
    /// The programs of boxes have the cuts and lines from this index on.
    pub first: usize,
    /// The greatest common divisor of the numbers of those cuts and lines; 0 if there are none.
    pub unit: u128,
    /// The index after the last cut.
    pub cuts_end: usize,
    /// Whether lines are made of the cuts.
    pub divides: bool,
}

/// A place to go back to: entries that are added after it can be taken off again.
#[derive(Clone, Copy)]
pub(crate) struct Mark {
    pub entries: usize,
    unit: u128,
    cuts_end: usize,
}

/// The first items of a list. It takes time in the number of items that are dropped, and no memory.
pub fn first_items<T: Drop>(items: List<T>, count: usize) -> List<T>
    ensures { result ≡ take count items }
{
    let mut all = items.into_vec();
    all.truncate(count);
    List::from_vec(all)
}

/// Entries of these cuts, in their order.
fn entries_of(alloc: Global, cuts: List<CutLine>) -> Result<List<Entry>, NoMemory>
    ensures { IfOk result (λ entries. entries ≡ map Entry.Cut cuts) }
{
    let mut entries = List::new(alloc);
    for cut in cuts.into_vec() {
        entries.push(Entry::Cut(cut))?;
    }
    Ok(entries)
}

impl Known {
    /// The cuts of an instance, each with its test. It takes time in cuts times links, and memory for the cuts.
    pub fn new(
        alloc: Global,
        instance: &Instance,
        cuts: List<CutLine>,
        divides: bool,
    ) -> Result<Known, NoMemory>
        requires few { length cuts < 2 ^ 31 }
        requires sound { All (IsCut (case_of instance.now)) cuts }
        ensures known { IfOk result (IsKnown (case_of instance.now)) }
        ensures entries { IfOk result (λ known. known.entries ≡ map Entry.Cut cuts) }
        ensures divides { IfOk result (λ known. known.divides ≡ divides) }
    {
        let none = List::new(alloc);
        let tested = tested_lines(alloc, instance, cuts.items(), none.items())?;
        let unit = common_unit(tested.items());
        Ok(Known {
            cuts_end: cuts.len(),
            entries: entries_of(alloc, cuts)?,
            tested,
            first: 0,
            unit,
            divides,
        })
    }

    /// Adds an entry with its test.
    fn put(&mut self, tested: Tested, entry: Entry) -> Result<(), NoMemory>
        ensures entries { OnOk result (self.new.entries ≡ self.old.entries ++ entry ∷ []) }
        ensures tested { OnOk result (self.new.tested ≡ self.old.tested ++ tested ∷ []) }
        ensures divides { self.new.divides ≡ self.old.divides }
    {
        self.unit = divisor_of(&tested.line, self.unit);
        self.tested.push(tested)?;
        self.entries.push(entry)?;
        Ok(())
    }

    /// Adds a cut.
    pub(crate) fn push(
        &mut self,
        alloc: Global,
        instance: &Instance,
        cut: CutLine,
    ) -> Result<(), NoMemory>
        requires known { IsKnown (case_of instance.now) self.old }
        requires room { length self.old.entries + 1 < 2 ^ 31 }
        requires sound { IsCut (case_of instance.now) cut }
        ensures known { OnOk result (IsKnown (case_of instance.now) self.new) }
        ensures entries { OnOk result (self.new.entries ≡ self.old.entries ++ Entry.Cut cut ∷ []) }
        ensures tested { OnOk result (Extends self.old.tested self.new.tested) }
        ensures divides { OnOk result (self.new.divides ≡ self.old.divides) }
    {
        let tested = tested_cut(alloc, instance, &cut)?;
        self.put(tested, Entry::Cut(cut))?;
        self.cuts_end = self.entries.len();
        Ok(())
    }

    /// From now on the programs of boxes have the entries that are added later, and none of those that there are.
    pub(crate) fn set_aside(&mut self)
        ensures entries { self.new.entries ≡ self.old.entries }
        ensures tested { self.new.tested ≡ self.old.tested }
        ensures divides { self.new.divides ≡ self.old.divides }
    {
        self.first = self.entries.len();
        self.unit = 0;
    }

    /// The place after the last entry.
    pub(crate) fn mark(&self) -> Mark
        ensures { result.entries ≡ length self.now.entries }
    {
        Mark {
            entries: self.entries.len(),
            unit: self.unit,
            cuts_end: self.cuts_end,
        }
    }

    /// Takes off the entries that were added since a mark.
    pub(crate) fn back_to(&mut self, alloc: Global, mark: Mark)
        ensures entries { self.new.entries ≡ take mark.entries self.old.entries }
        ensures tested { self.new.tested ≡ take mark.entries self.old.tested }
        ensures divides { self.new.divides ≡ self.old.divides }
    {
        let mut entries = List::new(alloc);
        let mut tested = List::new(alloc);
        mem::swap(&mut self.entries, &mut entries);
        mem::swap(&mut self.tested, &mut tested);
        self.entries = first_items(entries, mark.entries);
        self.tested = first_items(tested, mark.entries);
        self.unit = mark.unit;
        self.cuts_end = mark.cuts_end;
    }

    /// Adds a line, if its test says that it holds.
    pub(crate) fn push_line(
        &mut self,
        alloc: Global,
        instance: &Instance,
        line: Line,
    ) -> Result<(), NoMemory>
        requires known { IsKnown (case_of instance.now) self.old }
        requires room { length self.old.entries + 1 < 2 ^ 31 }
        requires divides { self.old.divides ≡ true }
        ensures known { OnOk result (IsKnown (case_of instance.now) self.new) }
        ensures extends { OnOk result (Extends self.old.entries self.new.entries) }
        ensures few { OnOk result (length self.new.entries ≤ length self.old.entries + 1) }
        ensures tested { OnOk result (Extends self.old.tested self.new.tested) }
        ensures divides { OnOk result (self.new.divides ≡ true) }
    {
        let tested = tested_line(alloc, instance, self.tested.items(), &line)?;
        if !tested.sound {
            return Ok(());
        }
        self.put(tested, Entry::Line(line))?;
        Ok(())
    }

    /// What the nodes of a tree are tested with.
    pub(crate) fn tests<'a>(&'a self, aim: &Aim<'a>) -> Tests<'a>
        ensures instance { result.instance.now ≡ aim.now.instance.now }
        ensures tested { result.tested.now ≡ self.now.tested }
        ensures cost { result.cost ≡ aim.now.plan.now.cost }
    {
        Tests {
            instance: aim.instance,
            tested: self.tested.items(),
            cost: aim.plan.cost,
        }
    }

    /// The optimum of the program of a box; `None` if a number is too wide. It takes the time of the program's exact simplex.
    pub fn solved(
        &self,
        alloc: Global,
        aim: &Aim,
        boxed: &Boxed,
    ) -> Result<Option<Solution>, NoMemory>
        ensures { IfOk result (λ o. IfSome o (IsSolutionOf (aimed aim.now).links (length self.now.tested) boxed.now)) }
    {
        let lines = Lines {
            tested: self.tested.items(),
            first: self.first,
            unit: self.unit,
        };
        let links = aim.instance.net.links().items();
        solved(alloc, links, aim.plan.cost, lines, boxed)
    }

    /// The index of the first cut or line that empties a box. It takes time in the cuts and lines times the modules, and no memory.
    pub fn emptied_by(&self, aim: &Aim, boxed: &Boxed) -> Option<u32>
        requires { IsKnown (aimed aim.now) self.now }
        ensures none { result ≡ None → (i : ℕ) → EmptiesBox (names_by self.now.tested false) (aimed aim.now).links boxed.now i → ⊥ }
        ensures some { IfSome result (EmptiesBox (names_by self.now.tested false) (aimed aim.now).links boxed.now) }
    {
        let tests = self.tests(aim);
        for i in 0..self.entries.len() {
            if is_empty(&tests, boxed, i as u32) {
                return Some(i as u32);
            }
        }
        None
    }
}

/// Whether two cuts have the same state, right side and lengths.
fn is_same(a: &CutLine, b: &CutLine) -> bool
    ensures { IsTrue result ↔ (a.now ≡ b.now) }
{
    a.state == b.state && a.right == b.right && a.lengths == b.lengths
}

/// The index of a cut in a list; `None` if it isn't there. It takes time in the length of the list.
pub fn index_of(cuts: &[CutLine], cut: &CutLine) -> Option<u32>
    requires { length cuts.now < 2 ^ 31 }
    ensures { MatchOption result (Contains cuts.now cut.now → ⊥) (λ i. slice_get cuts.now i ≡ Some cut.now) }
{
    for i in 0..cuts.len() {
        if is_same(&cuts[i], cut) {
            return Some(i as u32);
        }
    }
    None
}

/// Whether an entry is this cut.
fn is_entry_of(entry: &Entry, cut: &CutLine) -> bool {
    match entry {
        Entry::Cut(known) => is_same(known, cut),
        Entry::Line(_) => false,
    }
}

/// Whether a cut is among the entries. It takes time in the number of entries.
pub(crate) fn has_cut(entries: &[Entry], cut: &CutLine) -> bool {
    entries.iter().any(|entry| is_entry_of(entry, cut))
}
