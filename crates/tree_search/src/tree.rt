ghost use Rattle.std.specs.Prelude.{◌≡◌, ◌+◌, ◌<◌, ◌⊎◌, [], ◌∷◌, true, min, IfOk, MatchOption, None, OnOk, insert, length, map, slice_set};
ghost use Rattle.tree_boxes.specs.Finds.{twig_node};
ghost use Rattle.tree_search.{specs.inner.Places.{AreSettled, IsOpenPlace, IsOpenTwig}, specs.inner.Showing.{all_shown, shown_with, verdict_of}};

use net_core::{List, NoMemory};
use std::alloc::Global;
use tree_boxes::{OpenBox, Twig};
use tree_check::{Node, Verdict};

/// A growing tree, with its places in preorder.
#[derive(Drop)]
pub(crate) struct Tree {
    pub twigs: Vec<Twig>,
}

impl Tree {
    /// The tree of a single place.
    pub(crate) fn new(alloc: Global, root: Twig) -> Result<Tree, NoMemory>
        ensures { IfOk result (λ tree. tree.twigs.items ≡ root ∷ []) }
    {
        let mut twigs = Vec::new(alloc);
        twigs.push(root)?;
        Ok(Tree { twigs })
    }

    /// Replaces an open box by a split, followed by its two sides. It takes time in the size of the tree.
    pub(crate) fn split(
        &mut self,
        at: usize,
        node: Node,
        lower: Twig,
        upper: Twig,
    ) -> Result<(), NoMemory>
        requires { at < length self.old.twigs.items }
        ensures { OnOk result (self.new.twigs.items ≡ slice_set (insert (insert self.old.twigs.items (at + 1) upper) (at + 1) lower) at (Twig.Settled node)) }
    {
        put_three(&mut self.twigs, at, Twig::Settled(node), lower, upper)
    }
}

/// Replaces the item at a place.
fn set_item<T: Drop>(items: &mut [T], at: usize, item: T)
    requires { at < length items.old }
    ensures { items.new ≡ slice_set items.old at item }
{
    items[at] = item;
}

/// Replaces the item at a place, and adds two more after it.
fn put_three<T: Drop>(
    items: &mut Vec<T>,
    at: usize,
    item: T,
    second: T,
    third: T,
) -> Result<(), NoMemory>
    requires { at < length items.old.items }
    ensures { OnOk result (items.new.items ≡ slice_set (insert (insert items.old.items (at + 1) third) (at + 1) second) at item) }
{
    items.insert(at + 1, third)?;
    items.insert(at + 1, second)?;
    set_item(items, at, item);
    Ok(())
}

/// Replaces the twig at a place.
pub(crate) fn set_twig(twigs: &mut [Twig], at: usize, twig: Twig)
    requires { at < length twigs.old }
    ensures { twigs.new ≡ slice_set twigs.old at twig }
{
    set_item(twigs, at, twig);
}

/// An open place of a tree, with its rank.
#[derive(Clone, Copy)]
struct Ranked {
    at: usize,
    rank: u128,
}

/// The place with its rank, if it is an open box.
fn rank_at(twig: &Twig, at: usize) -> Option<Ranked>
    ensures { MatchOption result (IsOpenTwig twig.now → ⊥) (λ r. (r.at ≡ at) × IsOpenTwig twig.now) }
{
    match twig {
        Twig::Open(open) => Some(Ranked {
            at,
            rank: open.rank,
        }),
        Twig::Settled(_) => None,
        Twig::Stuck(..) => None,
    }
}

/// The place of lesser rank, if there is one; the first of two places of the same rank.
fn lesser(first: Option<Ranked>, second: Option<Ranked>) -> Option<Ranked>
    ensures either { (result ≡ first) ⊎ (result ≡ second) }
    ensures none { result ≡ None → (first ≡ None) × (second ≡ None) }
{
    match first {
        None => second,
        Some(a) => match second {
            None => first,
            Some(b) => { if b.rank < a.rank { second } else { first } }
        },
    }
}

/// The place of the first open box of least rank.
pub(crate) fn least_open(twigs: &[Twig]) -> Option<usize>
    ensures { MatchOption result (AreSettled twigs.now) (IsOpenPlace twigs.now) }
{
    let mut best = None;
    for i in 0..twigs.len() {
        best = lesser(best, rank_at(&twigs[i], i));
    }
    match best {
        None => None,
        Some(place) => Some(place.at),
    }
}

/// How many boxes of a tree are open, and the least of the plan's cost and the values of the leaves that aren't settled. No counts that
/// carry the demands cost less than that.
pub(crate) fn open_boxes(twigs: &[Twig], cost: u128) -> (usize, u128) {
    let mut open = 0usize;
    let mut least = cost;
    for i in 0..twigs.len() {
        match &twigs[i] {
            Twig::Settled(_) => {}
            Twig::Stuck(best, _) => least = least.min(best.value),
            Twig::Open(OpenBox { best, .. }) => {
                least = least.min(best.value);
                open = open.saturating_add(1);
            }
        }
    }
    (open, least)
}

/// What the nodes of a tree show.
#[derive(Clone, Copy)]
struct Shown {
    /// Whether some leaf is open.
    unsettled: bool,
    least: u128,
}

/// What is shown together with an open leaf of this value.
fn with_open(shown: Shown, value: u128) -> Shown
    ensures { result ≡ record { unsettled = true; least = min shown.least value } }
{
    Shown {
        unsettled: true,
        least: shown.least.min(value),
    }
}

/// The node of a twig, and what is shown together with it. An open box becomes a spent leaf.
fn node_of(twig: Twig, shown: Shown) -> (Node, Shown)
    ensures node { result.0 ≡ twig_node twig }
    ensures shown { result.1 ≡ shown_with shown twig }
{
    match twig {
        Twig::Settled(node) => (node, shown),
        Twig::Stuck(best, evidence) => {
            let next = with_open(shown, best.value);
            (Node::Stuck(best.cert, evidence), next)
        }
        Twig::Open(OpenBox { best, .. }) => {
            let next = with_open(shown, best.value);
            (Node::Spent(best.cert), next)
        }
    }
}

/// The verdict of what is shown.
fn verdict_of(shown: &Shown) -> Verdict
    ensures { result ≡ verdict_of shown.now }
{
    if shown.unsettled {
        Verdict::Above(shown.least)
    } else {
        Verdict::Cheapest
    }
}

/// The nodes of a tree, and what they show of a plan of this cost.
pub(crate) fn finished(
    alloc: Global,
    tree: Tree,
    cost: u128,
) -> Result<(List<Node>, Verdict), NoMemory>
    ensures nodes { IfOk result (λ r. r.0 ≡ map twig_node tree.twigs.items) }
    ensures verdict { IfOk result (λ r. r.1 ≡ verdict_of (all_shown cost tree.twigs.items)) }
{
    let mut nodes = List::new(alloc);
    let mut shown = Shown {
        unsettled: false,
        least: cost,
    };
    for twig in tree.twigs {
        let (node, next) = node_of(twig, shown);
        nodes.push(node)?;
        shown = next;
    }
    Ok((nodes, verdict_of(&shown)))
}
