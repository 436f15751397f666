ghost use Rattle.std.specs.Prelude.{◌≡◌, ◌≢◌, ℕ, ◌+◌, ◌<◌, ◌^◌, length, slice_index};
ghost use Rattle.plan_terms.specs.Terms.{Joins, graph_of};
ghost use Rattle.failure_states.specs.inner.Components.{AreComponents, IsMerged};

use net_core::{Link, LinkId, Surviving};

/// Gives each node its own number as label.
fn number(labels: &mut [u32])
    requires { length labels.old < 2 ^ 32 }
    ensures size { length labels.new ≡ length labels.old }
    ensures own { (k : ℕ) → k < length labels.old → slice_index labels.new k ≡ k }
{
    for k in 0..labels.len() {
        labels[k] = k as u32;
    }
}

/// Puts one label in the place of another.
fn relabel(labels: &mut [u32], given_up: u32, kept: u32)
    ensures size { length labels.new ≡ length labels.old }
    ensures moved { (k : ℕ) → k < length labels.old → slice_index labels.old k ≡ given_up → slice_index labels.new k ≡ kept }
    ensures stayed { (k : ℕ) → k < length labels.old → slice_index labels.old k ≢ given_up → slice_index labels.new k ≡ slice_index labels.old k }
{
    for k in 0..labels.len() {
        if labels[k] == given_up {
            labels[k] = kept;
        }
    }
}

/// Gives the nodes that have the label of the link's second end the label of its first.
fn merge(link: &Link, labels: &mut [u32])
    requires first { link.now.a.0 < length labels.old }
    requires second { link.now.b.0 < length labels.old }
    ensures { IsMerged link.now.a.0 link.now.b.0 labels.old labels.new }
{
    let kept = labels[link.a.0 as usize];
    let given_up = labels[link.b.0 as usize];
    if given_up != kept {
        relabel(labels, given_up, kept);
    }
}

/// Takes one link more, if it survives.
fn take_link(graph: &Surviving, link: LinkId, labels: &mut [u32])
    requires link { link.0 < length graph.now.net.now.links }
    requires labels { let g = graph_of graph.now in AreComponents (Joins g) (length g.nodes) link.0 labels.old }
    ensures { let g = graph_of graph.now in AreComponents (Joins g) (length g.nodes) (link.0 + 1) labels.new }
{
    if graph.has(link) {
        merge(&graph.net.links().items()[link.0 as usize], labels);
    }
}

/// Labels the nodes by their connected components: two nodes have one label exactly where surviving links lead from
/// one to the other. There is one label per node, and what the labels were doesn't matter.
///
/// It takes time in the links that the state fails, for each link, and in the square of the nodes, and no memory.
pub fn label_components(graph: &Surviving, labels: &mut [u32])
    requires { length labels.old ≡ length graph.now.net.now.nodes }
    ensures { let g = graph_of graph.now in AreComponents (Joins g) (length g.nodes) (length g.links) labels.new }
{
    number(labels);
    for e in 0..graph.net.links().len() {
        take_link(graph, LinkId(e as u32), labels);
    }
}
