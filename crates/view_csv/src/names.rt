ghost use Rattle.std.specs.Prelude.{◌≡◌, ◌++◌, ◌∷◌, [], OnOk};
ghost use Rattle.view_csv.specs.Fields.{link_names, names_field, node_names};

use net_core::{Bytes, Link, LinkId, Name, NoMemory, NodeId};
use std::alloc::Global;
use text_layout::Row;
use view_cells::cells::{push_joined, push_words};
use view_cells::names::{names_of_links, names_of_nodes};

/// Puts a field of names last, with a space between each two; an empty one where there are none.
fn push_names(fields: &mut Row, alloc: Global, names: &[Bytes]) -> Result<(), NoMemory>
    ensures { OnOk result (fields.new ≡ fields.old ++ names_field names.now ∷ []) }
{
    match names {
        [] => push_words(fields, alloc, b""),
        [_, ..] => push_joined(fields, alloc, b" ", names),
    }
}

/// Puts a field of the names of links last.
pub(crate) fn push_links(
    fields: &mut Row,
    alloc: Global,
    links: &[Link],
    ids: &[LinkId],
) -> Result<(), NoMemory>
    ensures { OnOk result (fields.new ≡ fields.old ++ link_names links.now ids.now ∷ []) }
{
    let names = names_of_links(alloc, links, ids)?;
    push_names(fields, alloc, names.items())
}

/// Puts a field of the names of nodes last.
pub(crate) fn push_nodes(
    fields: &mut Row,
    alloc: Global,
    nodes: &[Name],
    ids: &[NodeId],
) -> Result<(), NoMemory>
    ensures { OnOk result (fields.new ≡ fields.old ++ node_names nodes.now ids.now ∷ []) }
{
    let names = names_of_nodes(alloc, nodes, ids)?;
    push_names(fields, alloc, names.items())
}
