ghost use Rattle.std.specs.Prelude.{◌≡◌, ◌+◌, ◌*◌, ◌≤◌, ◌<◌, ◌^◌, IfOk, IfSome, MatchOption, None, OnOk, Some, length, slice_set};
ghost use Rattle.tree_check.specs.Boxes.{lower_side, upper_side, whole_box};
ghost use Rattle.tree_boxes.specs.Terms.{AreCheaperCounts, IsFoundAt, IsOpenBox, IsSearchBox, HasLearned, IsAim, IsSearch, aimed, handed_in, most_entries};
ghost use Rattle.net_core.specs.Limits.{most_splits};
ghost use Rattle.tree_search.{specs.inner.Growing.{AreSidesOf, IsChoiceOf, IsFirstTree, IsGrowing, IsGrownTo, IsGrownTree, IsTurnTo, growth_of, sides_with}, specs.inner.Places.IsOpenPlace};

use crate::choice::{Choice, choose};
use crate::tree::{Tree, least_open, open_boxes, set_twig};
use net_core::{Copied, LinkId, NoMemory, discard};
use outside_io::{Gate, TreeFigures};
use std::alloc::Global;
use tree_boxes::{Aim, Cheaper, Found, OpenBox, Search, Twig, copied, look, make_first_lines};
use tree_check::boxes::{lower_side, upper_side, whole_box};
use tree_check::{BoxCert, Node};
use trim_plan::Place;

/// What comes of growing a tree: the tree, or cheaper counts.
#[derive(Drop)]
pub(crate) enum Growth {
    Tree(Tree),
    Cheaper(Cheaper),
}

/// What comes of splitting a box: its two sides, or cheaper counts.
#[derive(Drop)]
enum Sides {
    Twigs(Twig, Twig),
    Cheaper(Cheaper),
}

/// What is found at the lower side of a split.
fn look_lower(
    alloc: Global,
    aim: &Aim,
    search: &mut Search,
    open: &OpenBox,
    choice: &Choice,
    splits: u32,
) -> Result<Found, NoMemory>
    requires aim { IsAim search.old.known.entries aim.now }
    requires search { IsSearch (aimed aim.now) search.old }
    requires room { most_entries search.old + 1 < 2 ^ 31 }
    requires splits { splits < 2 ^ 14 }
    requires search_box { IsSearchBox (aimed aim.now).links splits open.now.boxed }
    requires choice { IsChoiceOf (aimed aim.now).links aim.now.plan.now.cost splits open.now.boxed choice.now }
    ensures search { OnOk result (IsSearch (aimed aim.now) search.new) }
    ensures learned { OnOk result (HasLearned search.old search.new) }
    ensures few { OnOk result (length search.new.known.entries ≤ most_entries search.old + 1) }
    ensures found { IfOk result (IsFoundAt (aimed aim.now) aim.now.plan.now (handed_in search.old) search.new.known.tested (splits + 1)
        (lower_side open.now.boxed choice.now.place.link choice.now.place.module choice.now.at)) }
{
    let Place { link, module } = choice.place;
    let side = lower_side(&open.boxed, link, module, choice.at)?;
    look(alloc, aim, search, side, &open.best.cert, splits + 1)
}

/// What is found at the upper side of a split.
fn look_upper(
    alloc: Global,
    aim: &Aim,
    search: &mut Search,
    open: &OpenBox,
    choice: &Choice,
    splits: u32,
) -> Result<Found, NoMemory>
    requires aim { IsAim search.old.known.entries aim.now }
    requires search { IsSearch (aimed aim.now) search.old }
    requires room { most_entries search.old + 1 < 2 ^ 31 }
    requires splits { splits < 2 ^ 14 }
    requires search_box { IsSearchBox (aimed aim.now).links splits open.now.boxed }
    requires choice { IsChoiceOf (aimed aim.now).links aim.now.plan.now.cost splits open.now.boxed choice.now }
    ensures search { OnOk result (IsSearch (aimed aim.now) search.new) }
    ensures learned { OnOk result (HasLearned search.old search.new) }
    ensures few { OnOk result (length search.new.known.entries ≤ most_entries search.old + 1) }
    ensures found { IfOk result (IsFoundAt (aimed aim.now) aim.now.plan.now (handed_in search.old) search.new.known.tested (splits + 1)
        (upper_side open.now.boxed choice.now.place.link choice.now.place.module choice.now.at)) }
{
    let Place { link, module } = choice.place;
    let side = upper_side(&open.boxed, link, module, choice.at)?;
    look(alloc, aim, search, side, &open.best.cert, splits + 1)
}

/// What comes of a split whose first side left a twig.
fn sides_with(first: Twig, found: Found) -> Sides
    ensures { result ≡ sides_with first found }
{
    match found {
        Found::Cheaper(cheaper) => {
            discard(first);
            Sides::Cheaper(cheaper)
        }
        Found::Twig(second) => Sides::Twigs(first, second),
    }
}

/// What comes of a split: the twigs of its two sides, or cheaper counts.
fn look_sides(
    alloc: Global,
    aim: &Aim,
    search: &mut Search,
    open: &OpenBox,
    choice: &Choice,
    splits: u32,
) -> Result<Sides, NoMemory>
    requires aim { IsAim search.old.known.entries aim.now }
    requires search { IsSearch (aimed aim.now) search.old }
    requires room { most_entries search.old + 2 < 2 ^ 31 }
    requires splits { splits < 2 ^ 14 }
    requires open { IsOpenBox (aimed aim.now) aim.now.plan.now (handed_in search.old) search.old.known.tested splits open.now.boxed open.now }
    requires choice { IsChoiceOf (aimed aim.now).links aim.now.plan.now.cost splits open.now.boxed choice.now }
    ensures search { OnOk result (IsSearch (aimed aim.now) search.new) }
    ensures learned { OnOk result (HasLearned search.old search.new) }
    ensures few { OnOk result (length search.new.known.entries ≤ most_entries search.old + 2) }
    ensures found { IfOk result (AreSidesOf (aimed aim.now) aim.now.plan.now (handed_in search.old) search.new.known.tested (splits + 1)
        open.now.boxed choice.now) }
{
    let first = match look_lower(alloc, aim, search, open, choice, splits)? {
        Found::Cheaper(cheaper) => return Ok(Sides::Cheaper(cheaper)),
        Found::Twig(twig) => twig,
    };
    match look_upper(alloc, aim, search, open, choice, splits) {
        Ok(found) => Ok(sides_with(first, found)),
        Err(no_memory) => {
            discard(first);
            Err(no_memory)
        }
    }
}

/// The node of the split at a choice.
fn split_of(choice: &Choice) -> Node
    requires link { choice.now.place.link < 2 ^ 32 }
    requires inside { choice.now.place.module < 2 ^ 32 }
    ensures { result ≡ Node.Split (record { 0 = choice.now.place.link }) choice.now.place.module choice.now.at }
{
    Node::Split {
        link: LinkId(choice.place.link as u32),
        module: choice.place.module as u32,
        at: choice.at,
    }
}

/// Replaces the twig at a place of a tree.
fn replace(tree: &mut Tree, at: usize, twig: Twig)
    requires { at < length tree.old.twigs.items }
    ensures { tree.new.twigs.items ≡ slice_set tree.old.twigs.items at twig }
{
    set_twig(&mut tree.twigs, at, twig);
}

/// Looks at an open box again, if cuts were found since it was looked at last.
fn look_again(
    alloc: Global,
    aim: &Aim,
    search: &mut Search,
    tree: &mut Tree,
    at: usize,
    splits: u32,
) -> Result<Option<Cheaper>, NoMemory>
    requires aim { IsAim search.old.known.entries aim.now }
    requires search { IsSearch (aimed aim.now) search.old }
    requires room { most_entries search.old + 1 < 2 ^ 31 }
    requires splits { splits ≤ 2 ^ 14 }
    requires at { at < length tree.old.twigs.items }
    requires growing { IsGrowing (aimed aim.now) aim.now.plan.now (handed_in search.old) search.old.known.tested splits tree.old.twigs.items }
    ensures search { OnOk result (IsSearch (aimed aim.now) search.new) }
    ensures learned { OnOk result (HasLearned search.old search.new) }
    ensures few { OnOk result (length search.new.known.entries ≤ most_entries search.old) }
    ensures growing { OnOk result (IsGrowing (aimed aim.now) aim.now.plan.now (handed_in search.old) search.new.known.tested splits tree.new.twigs.items) }
    ensures same { length tree.new.twigs.items ≡ length tree.old.twigs.items }
    ensures found { IfOk result (λ o. IfSome o (AreCheaperCounts (aimed aim.now) aim.now.plan.now.cost)) }
{
    let Twig::Open(open) = &tree.twigs[at] else {
        return Ok(None);
    };
    if open.seen == search.known.cuts_end {
        return Ok(None);
    }
    let boxed = open.boxed.copy()?;
    let cert = copied(&open.best.cert)?;
    match look(alloc, aim, search, boxed, &cert, splits)? {
        Found::Cheaper(cheaper) => Ok(Some(cheaper)),
        Found::Twig(twig) => {
            replace(tree, at, twig);
            Ok(None)
        }
    }
}

/// The outcome of one turn of growing the tree.
#[derive(Drop)]
enum Turn {
    /// A box was split.
    Split,
    /// No box is open.
    Done,
    Cheaper(Cheaper),
}

/// Splits the open box at a place.
fn split_at(
    alloc: Global,
    aim: &Aim,
    search: &mut Search,
    tree: &mut Tree,
    at: usize,
    splits: u32,
) -> Result<Turn, NoMemory>
    requires aim { IsAim search.old.known.entries aim.now }
    requires search { IsSearch (aimed aim.now) search.old }
    requires room { most_entries search.old + 2 < 2 ^ 31 }
    requires splits { splits < 2 ^ 14 }
    requires open { IsOpenPlace tree.old.twigs.items at }
    requires growing { IsGrowing (aimed aim.now) aim.now.plan.now (handed_in search.old) search.old.known.tested splits tree.old.twigs.items }
    ensures search { OnOk result (IsSearch (aimed aim.now) search.new) }
    ensures learned { OnOk result (HasLearned search.old search.new) }
    ensures few { OnOk result (length search.new.known.entries ≤ most_entries search.old + 2) }
    ensures turn { IfOk result (IsTurnTo (aimed aim.now) aim.now.plan.now (handed_in search.old) search.new.known.tested splits tree.new.twigs.items) }
{
    let Twig::Open(open) = &tree.twigs[at] else {
        unreachable!()
    };
    let choice = choose(alloc, aim, &search.known, open)?;
    match look_sides(alloc, aim, search, open, &choice, splits)? {
        Sides::Cheaper(cheaper) => Ok(Turn::Cheaper(cheaper)),
        Sides::Twigs(lower, upper) => {
            tree.split(at, split_of(&choice), lower, upper)?;
            Ok(Turn::Split)
        }
    }
}

/// Splits the open box of least rank. Boxes of least rank are looked at again before, if cuts were found since.
fn grow_once(
    alloc: Global,
    aim: &Aim,
    search: &mut Search,
    tree: &mut Tree,
    splits: u32,
) -> Result<Turn, NoMemory>
    requires aim { IsAim search.old.known.entries aim.now }
    requires search { IsSearch (aimed aim.now) search.old }
    requires room { most_entries search.old + 2 < 2 ^ 31 }
    requires splits { splits < 2 ^ 14 }
    requires growing { IsGrowing (aimed aim.now) aim.now.plan.now (handed_in search.old) search.old.known.tested splits tree.old.twigs.items }
    ensures search { OnOk result (IsSearch (aimed aim.now) search.new) }
    ensures learned { OnOk result (HasLearned search.old search.new) }
    ensures few { OnOk result (length search.new.known.entries ≤ most_entries search.old + 2) }
    ensures turn { IfOk result (IsTurnTo (aimed aim.now) aim.now.plan.now (handed_in search.old) search.new.known.tested splits tree.new.twigs.items) }
{
    for _ in 0..tree.twigs.len() {
        let Some(at) = least_open(&tree.twigs) else {
            return Ok(Turn::Done);
        };
        if let Some(cheaper) = look_again(alloc, aim, search, tree, at, splits)? {
            return Ok(Turn::Cheaper(cheaper));
        }
        if least_open(&tree.twigs) == Some(at) {
            return split_at(alloc, aim, search, tree, at, splits);
        }
    }
    match least_open(&tree.twigs) {
        None => Ok(Turn::Done),
        Some(at) => split_at(alloc, aim, search, tree, at, splits),
    }
}

/// The figures of a tree after one more split, for a cheapest plan so far of this cost. It takes time in the size of the tree.
fn figures_of(tree: &Tree, cost: u128, splits: u32, limit: u32) -> TreeFigures {
    let (open, bound) = open_boxes(&tree.twigs, cost);
    TreeFigures {
        splits: splits.saturating_add(1),
        limit,
        cost,
        bound,
        open,
    }
}

/// The tree with the box of all counts alone, which may use the certificate `root`.
fn first_tree(
    alloc: Global,
    aim: &Aim,
    search: &mut Search,
    root: &BoxCert,
) -> Result<Growth, NoMemory>
    requires aim { IsAim search.old.known.entries aim.now }
    requires search { IsSearch (aimed aim.now) search.old }
    requires room { most_entries search.old + 1 < 2 ^ 31 }
    ensures search { OnOk result (IsSearch (aimed aim.now) search.new) }
    ensures learned { OnOk result (HasLearned search.old search.new) }
    ensures few { OnOk result (length search.new.known.entries ≤ most_entries search.old + 1) }
    ensures tree { IfOk result (IsFirstTree (aimed aim.now) aim.now.plan.now (handed_in search.old) search.new.known.tested) }
{
    let whole = whole_box(alloc, aim.instance.net)?;
    match look(alloc, aim, search, whole, root, 0)? {
        Found::Cheaper(cheaper) => Ok(Growth::Cheaper(cheaper)),
        Found::Twig(twig) => Ok(Growth::Tree(Tree::new(alloc, twig)?)),
    }
}

/// Grows a tree without splits until it has `limit` of them, no box is open, or cheaper counts are found. The gate is told of each split.
fn grow<G: Gate>(
    alloc: Global,
    aim: &Aim,
    search: &mut Search,
    tree: &mut Tree,
    limit: u32,
    gate: &G,
) -> Result<Option<Cheaper>, NoMemory>
    requires aim { IsAim search.old.known.entries aim.now }
    requires search { IsSearch (aimed aim.now) search.old }
    requires room { most_entries search.old + 2 * limit < 2 ^ 31 }
    requires limit { limit ≤ most_splits }
    requires growing { IsGrowing (aimed aim.now) aim.now.plan.now (handed_in search.old) search.old.known.tested 0 tree.old.twigs.items }
    ensures search { OnOk result (IsSearch (aimed aim.now) search.new) }
    ensures learned { OnOk result (HasLearned search.old search.new) }
    ensures few { OnOk result (length search.new.known.entries ≤ most_entries search.old + 2 * limit) }
    ensures grown { IfOk result (λ o. MatchOption o
        (IsGrownTree (aimed aim.now) aim.now.plan.now (handed_in search.old) search.new.known.tested limit tree.new)
        (AreCheaperCounts (aimed aim.now) aim.now.plan.now.cost)) }
{
    for splits in 0..limit {
        match grow_once(alloc, aim, search, tree, splits)? {
            Turn::Split => gate.split(figures_of(tree, aim.plan.cost, splits, limit)),
            Turn::Done => return Ok(None),
            Turn::Cheaper(cheaper) => return Ok(Some(cheaper)),
        }
    }
    Ok(None)
}

/// The result of growing a tree, in which cheaper counts were found or weren't.
fn growth_of(tree: Tree, found: Option<Cheaper>) -> Growth
    ensures { result ≡ growth_of tree found }
{
    match found {
        None => Growth::Tree(tree),
        Some(cheaper) => {
            discard(tree);
            Growth::Cheaper(cheaper)
        }
    }
}

/// Grows a tree from what is known, until it has `limit` splits, no box is open, or cheaper counts are found. The box of all counts may use
/// the certificate `root`.
fn grown_on<G: Gate>(
    alloc: Global,
    aim: &Aim,
    search: &mut Search,
    root: &BoxCert,
    limit: u32,
    gate: &G,
) -> Result<Growth, NoMemory>
    requires aim { IsAim search.old.known.entries aim.now }
    requires search { IsSearch (aimed aim.now) search.old }
    requires room { most_entries search.old + 2 * limit + 1 < 2 ^ 31 }
    requires limit { limit ≤ most_splits }
    ensures search { OnOk result (IsSearch (aimed aim.now) search.new) }
    ensures learned { OnOk result (HasLearned search.old search.new) }
    ensures few { OnOk result (length search.new.known.entries ≤ most_entries search.old + 2 * limit + 1) }
    ensures grown { IfOk result (IsGrownTo (aimed aim.now) aim.now.plan.now (handed_in search.old) search.new.known.tested limit) }
{
    let mut tree = match first_tree(alloc, aim, search, root)? {
        Growth::Cheaper(cheaper) => return Ok(Growth::Cheaper(cheaper)),
        Growth::Tree(tree) => tree,
    };
    let found = grow(alloc, aim, search, &mut tree, limit, gate)?;
    Ok(growth_of(tree, found))
}

/// Makes lines for the root, if the search makes lines, and grows a tree until it has `limit` splits, no box is open, or cheaper counts are
/// found. The best certificate that the lines give for the box of all counts replaces `root`.
pub(crate) fn grown<G: Gate>(
    alloc: Global,
    aim: &Aim,
    search: &mut Search,
    root: &mut BoxCert,
    limit: u32,
    gate: &G,
) -> Result<Growth, NoMemory>
    requires aim { IsAim search.old.known.entries aim.now }
    requires search { IsSearch (aimed aim.now) search.old }
    requires room { most_entries search.old + 2 * limit + 1 < 2 ^ 31 }
    requires limit { limit ≤ most_splits }
    ensures search { OnOk result (IsSearch (aimed aim.now) search.new) }
    ensures learned { OnOk result (HasLearned search.old search.new) }
    ensures few { OnOk result (length search.new.known.entries ≤ most_entries search.old + 2 * limit + 1) }
    ensures grown { IfOk result (IsGrownTo (aimed aim.now) aim.now.plan.now (handed_in search.old) search.new.known.tested limit) }
{
    let whole = whole_box(alloc, aim.instance.net)?;
    make_first_lines(alloc, aim, search, &whole, root)?;
    grown_on(alloc, aim, search, root, limit, gate)
}
