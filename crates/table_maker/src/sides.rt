ghost use Rattle.std.specs.Prelude.{◌≡◌, slice_index};

use net_core::{CutLine, Link, LinkId, List, NoMemory, States};
use std::alloc::Global;

/// Puts the lesser of the marks of two nodes on both, and tells whether they had different ones.
fn joined(marks: &mut [u32], a: usize, b: usize) -> bool {
    if a >= marks.len() || b >= marks.len() || marks[a] == marks[b] {
        return false;
    }
    let least = marks[a].min(marks[b]);
    marks[a] = least;
    marks[b] = least;
    true
}

/// Whether a link joins nodes of one side of a cut: it survives in the cut's state, and has no length.
fn is_within(states: &States, cut: &CutLine, e: usize) -> bool {
    let lengths = cut.lengths.items();
    let Ok(link) = u32::try_from(e) else {
        return false;
    };
    e < lengths.len()
        && lengths[e] == 0
        && cut.state.0 < states.count()
        && !states.fails(cut.state, LinkId(link))
}

/// Passes marks on along the links within sides once, and tells whether any changed.
fn passed(marks: &mut [u32], links: &[Link], states: &States, cut: &CutLine) -> bool {
    let mut changed = false;
    for e in 0..links.len() {
        if is_within(states, cut, e) {
            let joins = joined(marks, links[e].a.0 as usize, links[e].b.0 as usize);
            changed = changed || joins;
        }
    }
    changed
}

/// The nodes as marks of themselves.
fn own_marks(alloc: Global, nodes: usize) -> Result<List<u32>, NoMemory> {
    let mut marks = List::new(alloc);
    let mut mark = 0u32;
    for _ in 0..nodes {
        marks.push(mark)?;
        mark = mark.saturating_add(1);
    }
    Ok(marks)
}

/// A mark for each node: nodes that links within a side join have one, that of their first node.
/// It takes time in the links times the nodes at most.
pub(crate) fn sides_of(
    alloc: Global,
    nodes: usize,
    links: &[Link],
    states: &States,
    cut: &CutLine,
) -> Result<List<u32>, NoMemory> {
    let mut marks = own_marks(alloc, nodes)?;
    for _ in 0..nodes {
        if !passed(marks.items_mut(), links, states, cut) {
            return Ok(marks);
        }
    }
    Ok(marks)
}

/// The mark of a node; 0 past the end.
pub(crate) fn mark_of(marks: &[u32], node: usize) -> u32
    ensures { result ≡ slice_index marks.now node }
{
    if node < marks.len() { marks[node] } else { 0 }
}
