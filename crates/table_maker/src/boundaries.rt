ghost use Rattle.std.specs.Prelude.{◌≡◌, ◌≤◌, ◌<◌, All, AllPairs, IfOk, IfSome, OnOk, false, length, map, nat_eq, slice_index};
ghost use Rattle.plan_terms.specs.Terms.{IsCut, case_of};
ghost use Rattle.master_law.specs.Terms.{IsSameCut};
ghost use Rattle.table_maker.{specs.SetCuts.{IsNewTo, IsSetCut, boundary_of}, specs.inner.Finding.{AreFound, CutsNodes, IsBoundary, IsSameSearch}};

use crate::sides::{mark_of, sides_of};
use master_bound::is_same_cut;
use metric_cut::Cut;
use net_core::{Copied, CutLine, Instance, Lengths, Link, LinkId, List, NoMemory, StateId, States};
use std::alloc::Global;

/// How many cuts are made at most.
const MOST_CUTS: usize = 1024;

/// The cuts of node sets as they are found, beside those that are known.
#[derive(Drop)]
struct Sets<'a> {
    instance: &'a Instance<'a>,
    known: &'a [CutLine],
    cuts: List<CutLine>,
}

/// Whether a link leads from the nodes of a mark to the others.
fn leaves(link: &Link, marks: &[u32], mark: u32) -> u32
    ensures { result ≡ boundary_of (λ n. nat_eq (slice_index marks.now n) mark) link.now }
{
    let a = mark_of(marks, link.a.0 as usize) == mark;
    let b = mark_of(marks, link.b.0 as usize) == mark;
    if a == b { 0 } else { 1 }
}

/// 1 for each link between the nodes of a mark and the others, 0 for the rest.
fn boundary(alloc: Global, links: &[Link], marks: &[u32], mark: u32) -> Result<Lengths, NoMemory>
    ensures { IfOk result (λ lengths. lengths ≡ map (boundary_of (λ n. nat_eq (slice_index marks.now n) mark)) links.now) }
{
    let mut lengths = List::new(alloc);
    for link in links {
        lengths.push(leaves(link, marks, mark))?;
    }
    Ok(lengths)
}

/// The cut of what a state keeps of lengths, where that is one.
fn cut_in(
    alloc: Global,
    instance: &Instance,
    state: StateId,
    lengths: &Lengths,
) -> Result<Option<CutLine>, NoMemory>
    requires state { state.0 ≤ length instance.now.states.now.listed }
    requires lengths { IsBoundary instance.now.net.now.links lengths.now }
    ensures { IfOk result (λ o. IfSome o (CutsNodes (case_of instance.now))) }
{
    let graph = instance.in_state(state);
    match Cut::in_graph(alloc, &graph, lengths.copy()?)? {
        Some(cut) => Ok(Some(cut.line(instance.demands)?)),
        None => Ok(None),
    }
}

/// Whether a cut is among these.
fn is_among(cuts: &[CutLine], cut: &CutLine) -> bool
    ensures { result ≡ false → IsNewTo cuts.now cut.now }
{
    for c in cuts {
        if is_same_cut(c, cut) {
            return true;
        }
    }
    false
}

/// Whether a state fails a link of positive length.
fn fails_some(states: &States, state: StateId, lengths: &[u32]) -> bool
    requires { state.0 ≤ length states.now.listed }
{
    let mut e = 0u32;
    for far in lengths {
        if *far > 0 && states.fails(state, LinkId(e)) {
            return true;
        }
        e = e.saturating_add(1);
    }
    false
}

impl<'a> Sets<'a> {
    /// Puts a cut last, if it asks for something, is new, and there is room.
    fn push(&mut self, cut: CutLine) -> Result<(), NoMemory>
        requires cuts { AreFound self.old }
        requires is { CutsNodes (case_of self.old.instance.now) cut }
        ensures cuts { OnOk result (AreFound self.new) }
        ensures same { IsSameSearch self.old self.new }
    {
        if cut.right == 0 || self.cuts.len() >= MOST_CUTS {
            return Ok(());
        }
        if is_among(self.known, &cut) || is_among(self.cuts.items(), &cut) {
            return Ok(());
        }
        self.cuts.push(cut)?;
        Ok(())
    }

    /// Puts the cut of what a state keeps of lengths last, if that is a new one.
    fn push_in(&mut self, alloc: Global, state: StateId, lengths: &Lengths) -> Result<(), NoMemory>
        requires cuts { AreFound self.old }
        requires state { state.0 ≤ length self.old.instance.now.states.now.listed }
        requires lengths { IsBoundary self.old.instance.now.net.now.links lengths.now }
        ensures cuts { OnOk result (AreFound self.new) }
        ensures same { IsSameSearch self.old self.new }
    {
        if let Some(cut) = cut_in(alloc, self.instance, state, lengths)? {
            self.push(cut)?;
        }
        Ok(())
    }

    /// Puts the cut of a boundary in a state last that fails one of its links, if there is one and it is new.
    fn push_failed(
        &mut self,
        alloc: Global,
        state: StateId,
        lengths: &Lengths,
    ) -> Result<(), NoMemory>
        requires cuts { AreFound self.old }
        requires state { state.0 ≤ length self.old.instance.now.states.now.listed }
        requires lengths { IsBoundary self.old.instance.now.net.now.links lengths.now }
        ensures cuts { OnOk result (AreFound self.new) }
        ensures same { IsSameSearch self.old self.new }
    {
        if !fails_some(self.instance.states, state, lengths.items()) {
            return Ok(());
        }
        self.push_in(alloc, state, lengths)
    }

    /// Puts the cuts of a boundary last: without failures, and in each state that fails one of its links.
    fn push_boundary(&mut self, alloc: Global, lengths: &Lengths) -> Result<(), NoMemory>
        requires cuts { AreFound self.old }
        requires lengths { IsBoundary self.old.instance.now.net.now.links lengths.now }
        ensures cuts { OnOk result (AreFound self.new) }
        ensures same { IsSameSearch self.old self.new }
    {
        self.push_in(alloc, StateId(0), lengths)?;
        for s in 1..self.instance.states.count() {
            self.push_failed(alloc, StateId(s), lengths)?;
        }
        Ok(())
    }

    /// Puts the cuts of the set of a node's mark last, if the mark is the node's own.
    fn push_own(
        &mut self,
        alloc: Global,
        marks: &[u32],
        node: u32,
        mark: u32,
    ) -> Result<(), NoMemory>
        requires cuts { AreFound self.old }
        ensures cuts { OnOk result (AreFound self.new) }
        ensures same { IsSameSearch self.old self.new }
    {
        if mark != node {
            return Ok(());
        }
        let links = self.instance.net.links().items();
        let lengths = boundary(alloc, links, marks, mark)?;
        self.push_boundary(alloc, &lengths)
    }

    /// Puts the cuts of each set of nodes of one mark last.
    fn push_marked(&mut self, alloc: Global, marks: &[u32]) -> Result<(), NoMemory>
        requires cuts { AreFound self.old }
        ensures cuts { OnOk result (AreFound self.new) }
        ensures same { IsSameSearch self.old self.new }
    {
        let mut node = 0u32;
        for mark in marks {
            self.push_own(alloc, marks, node, *mark)?;
            node = node.saturating_add(1);
        }
        Ok(())
    }
}

/// Cuts of the node sets into which known cuts part a network, at most 1,024: for each set that of the state in which nothing fails, and
/// those of the states that fail a link of its boundary. None is among the known ones, none is there twice, and some demand asks for each.
///
/// A set is one of the parts whose nodes links without length join, as far as they survive in the known cut's state. In the triangle of the
/// links AB, BC and AC, with a demand from A to C, the known cut 1, 0, 1 of the state in which nothing fails parts the first node from the
/// others, and gives 0, 0, 1 where AB fails and 1, 0, 0 where AC fails.
///
/// What is promised of each is this, and that it is a cut of the case between some nodes and the others, with its own right side at the
/// demands. Which sets are taken is left free, and so is whether there are any.
///
/// It takes time in the known cuts times the links times the nodes, and a search from each node for each new cut; memory for the new cuts.
pub fn set_cuts(
    alloc: Global,
    instance: &Instance,
    known: &[CutLine],
) -> Result<List<CutLine>, NoMemory>
    ensures cuts { IfOk result (All (IsCut (case_of instance.now))) }
    ensures sets { IfOk result (All (IsSetCut (case_of instance.now))) }
    ensures few { IfOk result (λ cuts. length cuts ≤ 1024) }
    ensures different { IfOk result (AllPairs (λ a b. IsSameCut a b → ⊥)) }
    ensures new { IfOk result (All (IsNewTo known.now)) }
{
    let mut sets = Sets {
        instance,
        known,
        cuts: List::new(alloc),
    };
    let nodes = instance.net.nodes().len();
    let links = instance.net.links().items();
    for cut in known {
        let marks = sides_of(alloc, nodes, links, instance.states, cut)?;
        sets.push_marked(alloc, marks.items())?;
    }
    Ok(sets.cuts)
}
