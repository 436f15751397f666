ghost use Rattle.std.specs.Prelude.{◌≡◌, IfOk, map};
ghost use Rattle.plan_report.specs.Terms.{link_name, node_name};

use crate::cells::push_words;
use net_core::{Link, LinkId, List, Name, NoMemory, NodeId};
use plan_report::{link_name, node_name};
use std::alloc::Global;
use text_layout::Row;

/// The names of links, as cells; an empty one where there is no such link. It takes time and memory in their lengths.
pub fn names_of_links(alloc: Global, links: &[Link], ids: &[LinkId]) -> Result<Row, NoMemory>
    ensures { IfOk result (λ names. names ≡ map (link_name links.now) ids.now) }
{
    let mut names = List::new(alloc);
    for id in ids {
        push_words(&mut names, alloc, link_name(links, *id))?;
    }
    Ok(names)
}

/// The names of nodes, as cells; an empty one where there is no such node. It takes time and memory in their lengths.
pub fn names_of_nodes(alloc: Global, nodes: &[Name], ids: &[NodeId]) -> Result<Row, NoMemory>
    ensures { IfOk result (λ names. names ≡ map (node_name nodes.now) ids.now) }
{
    let mut names = List::new(alloc);
    for id in ids {
        push_words(&mut names, alloc, node_name(nodes, *id))?;
    }
    Ok(names)
}
