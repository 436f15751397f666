ghost use Rattle.std.specs.Prelude.{◌≡◌, ◌≢◌, ◌<◌, ◌↔◌, All, IfSome, IfNone, IsTrue, ℕ, length, slice_index_or, slice_set, true};
ghost use Rattle.plan_terms.specs.Terms.{Joins, graph_of, IsPath};
ghost use Rattle.short_paths.specs.inner.Walks.{IsUnseen, IsUnseenPath, far_end};

use net_core::{Link, LinkId, NodeId, Surviving};

/// The other end of a link, seen from one of its ends; `None` where the node is no end of it.
fn far_end(l: &Link, at: NodeId) -> Option<NodeId>
    ensures { result ≡ far_end l.now at.0 }
{
    if l.a.0 == at.0 {
        Some(l.b)
    } else if l.b.0 == at.0 {
        Some(l.a)
    } else {
        None
    }
}

/// The node to which a link leads from another, if it survives and leads anywhere from there.
fn next_node(graph: &Surviving, link: LinkId, at: NodeId) -> Option<NodeId>
    requires { link.0 < length graph.now.net.now.links }
    ensures none { let g = graph_of graph.now in IfNone result ((y : ℕ) → Joins g link.0 at.0 y → ⊥) }
    ensures some { let g = graph_of graph.now in IfSome result (λ n. Joins g link.0 at.0 n.0) }
{
    if !graph.has(link) {
        return None;
    }
    far_end(&graph.net.links().items()[link.0 as usize], at)
}

/// Marks a node as seen, and tells whether it was unseen before.
fn mark(seen: &mut [bool], node: NodeId) -> bool
    requires { node.0 < length seen.old }
    ensures unseen { IsTrue result ↔ IsUnseen seen.old node.0 }
    ensures marked { seen.new ≡ slice_set seen.old node.0 true }
{
    let at = node.0 as usize;
    let unseen = !seen[at];
    seen[at] = true;
    unseen
}

/// Marks one node as seen, and no other.
fn mark_alone(seen: &mut [bool], node: NodeId)
    requires { node.0 < length seen.old }
    ensures size { length seen.new ≡ length seen.old }
    ensures marked { slice_index_or seen.new node.0 true ≡ true }
    ensures others { (k : ℕ) → k < length seen.old → node.0 ≢ k → IsUnseen seen.new k }
{
    seen.fill(false);
    seen[node.0 as usize] = true;
}

/// Whether links lead from one node to another along different nodes that weren't seen. The nodes on the way are seen then.
fn leads_unseen(
    graph: &Surviving,
    path: &[LinkId],
    from: NodeId,
    to: NodeId,
    seen: &mut [bool],
) -> bool
    requires known { All (λ e. e.0 < length graph.now.net.now.links) path.now }
    requires size { length seen.old ≡ length graph.now.net.now.nodes }
    ensures unseen { let g = graph_of graph.now in IsTrue result ↔ IsUnseenPath (Joins g) seen.old from.0 to.0 path.now }
{
    let mut at = from;
    for e in path {
        let Some(next) = next_node(graph, *e, at) else {
            return false;
        };
        if !mark(seen, next) {
            return false;
        }
        at = next;
    }
    at.0 == to.0
}

/// Whether all links are among the first ones, as `is_path` wants those of the network. It takes time in their number, and no memory.
pub fn are_links(path: &[LinkId], links: usize) -> bool
    ensures { IsTrue result ↔ All (λ e. e.0 < links) path.now }
{
    path.iter().all(|e| (e.0 as usize) < links)
}

/// Whether links are a path between two nodes: each survives, and no node comes twice. `seen` is room for a mark of each node,
/// whatever the list holds before. It takes no memory, and time that grows with the nodes and with the path.
///
/// In the triangle AB, BC, AC the links AB and BC are a path from A to C. AB, BC and AC lead back to A, and aren't one.
pub fn is_path(
    graph: &Surviving,
    path: &[LinkId],
    from: NodeId,
    to: NodeId,
    seen: &mut [bool],
) -> bool
    requires known { All (λ e. e.0 < length graph.now.net.now.links) path.now }
    requires size { length seen.old ≡ length graph.now.net.now.nodes }
    requires from { from.0 < length graph.now.net.now.nodes }
    ensures { let g = graph_of graph.now in IsTrue result ↔ IsPath (Joins g) from.0 to.0 path.now }
{
    mark_alone(seen, from);
    leads_unseen(graph, path, from, to, seen)
}
