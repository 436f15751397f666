ghost use Rattle.std.specs.Prelude.{◌≡◌, ◌++◌, ◌<◌, ◌^◌, [], ◌∷◌, IfOk, OnOk, length, map, slice_index_or};
ghost use Rattle.line_maker.specs.Orders.{IsOrderOf, cuts_among, lines_among, moved_line, moved_node};

use crate::entry::Entry;
use crate::nodes::{moved_line, moved_node};
use crate::places::places_of;
use line_check::Line;
use net_core::{CutLine, List, NoMemory};
use std::alloc::Global;
use tree_check::Node;

/// The parts of a proof that name each other by index.
#[derive(Drop)]
pub struct Ordered {
    pub cuts: List<CutLine>,
    /// Each over earlier lines.
    pub lines: List<Line>,
    pub tree: List<Node>,
}

/// Puts an entry last, with the cuts or with the lines, a line by its new indices.
fn put(
    alloc: Global,
    places: &[u32],
    cuts: &mut List<CutLine>,
    lines: &mut List<Line>,
    entry: Entry,
) -> Result<(), NoMemory>
    ensures cuts { OnOk result (cuts.new ≡ cuts.old ++ cuts_among (entry ∷ [])) }
    ensures lines { OnOk result (lines.new ≡ lines.old ++ map (moved_line (λ i. slice_index_or places.now i i)) (lines_among (entry ∷ []))) }
{
    match entry {
        Entry::Cut(cut) => cuts.push(cut)?,
        Entry::Line(line) => lines.push(moved_line(alloc, places, line)?)?,
    }
    Ok(())
}

/// The cuts and the lines of entries, the lines by their new indices.
fn parted(
    alloc: Global,
    places: &[u32],
    entries: List<Entry>,
) -> Result<(List<CutLine>, List<Line>), NoMemory>
    ensures cuts { IfOk result (λ r. r.0 ≡ cuts_among entries) }
    ensures lines { IfOk result (λ r. r.1 ≡ map (moved_line (λ i. slice_index_or places.now i i)) (lines_among entries)) }
{
    let mut cuts = List::new(alloc);
    let mut lines = List::new(alloc);
    for entry in entries.into_vec() {
        put(alloc, places, &mut cuts, &mut lines, entry)?;
    }
    Ok((cuts, lines))
}

/// The nodes by their new indices.
fn moved_nodes(alloc: Global, places: &[u32], tree: List<Node>) -> Result<List<Node>, NoMemory>
    ensures { IfOk result (λ moved. moved ≡ map (moved_node (λ i. slice_index_or places.now i i)) tree) }
{
    let mut moved = List::new(alloc);
    for node in tree.into_vec() {
        let next = moved_node(alloc, places, node)?;
        moved.push(next)?;
    }
    Ok(moved)
}

/// The entries of a search in the order of a proof, the cuts first and then the lines, and nodes that name them so.
/// It takes time and memory in the numbers of all.
///
/// A cut, a line and a further cut become the two cuts and the line; where a node names them by 0, 1 and 2, it names them by 0, 2 and 1 then.
pub fn in_order(alloc: Global, entries: List<Entry>, tree: List<Node>) -> Result<Ordered, NoMemory>
    requires few { length entries < 2 ^ 31 }
    ensures { IfOk result (IsOrderOf entries tree) }
{
    let places = places_of(alloc, entries.items())?;
    let parts = parted(alloc, places.items(), entries)?;
    let tree = moved_nodes(alloc, places.items(), tree)?;
    let (cuts, lines) = parts;
    Ok(Ordered { cuts, lines, tree })
}
