ghost use Rattle.std.specs.Prelude.{◌≡◌, ◌+◌, ◌<◌, ◌^◌, ◌↔◌, ◌++◌, [], ◌∷◌, IfErr, IfOk, IsTrue, OnOk, length};
ghost use Rattle.plan_terms.specs.Terms.{Case, case_of};
ghost use Rattle.tree_check.{specs.Boxes.{IsSplitOf, lower_side, upper_side, whole_box}, specs.Laws.IsSplitIfAny, specs.Proofs.{IsAcceptedProof, VerdictFollows}, specs.Trees.sides_of, specs.declared.proof.Proof.{Proof as TreeProof}, specs.Testing.AreTestsOf, specs.inner.Walking.{HasWalked, HaveShape, IsFoundOf, StopsWalk, TakesIfAny, with_held}};

use crate::boxes::{Boxed, lower_side, upper_side, whole_box};
use crate::nodes::{Held, held_node};
use crate::proof::{Node, Proof, Verdict};
use crate::stop::Stop;
use crate::tests::Tests;
use net_core::{Network, NoMemory};
use std::alloc::Global;
use std::collections::VecDeque;

/// What was found so far: whether a leaf is open, and the least of the plan's cost and the open leaves' values.
#[derive(Clone, Copy)]
pub(crate) struct Found {
    pub is_open: bool,
    pub least: u128,
}

/// Puts the side of a split with more modules of the kind first.
fn push_upper(
    left: &mut VecDeque<Boxed>,
    boxed: &Boxed,
    e: usize,
    m: usize,
    at: u64,
) -> Result<(), NoMemory>
    requires { IsSplitOf boxed.now e m at }
    ensures { OnOk result (left.new.items ≡ upper_side boxed.now e m at ∷ left.old.items) }
{
    let upper = upper_side(boxed, e, m, at)?;
    left.push_front(upper)?;
    Ok(())
}

/// Puts the side of a split with at most `at` modules of the kind first.
fn push_lower(
    left: &mut VecDeque<Boxed>,
    boxed: &Boxed,
    e: usize,
    m: usize,
    at: u64,
) -> Result<(), NoMemory>
    requires { IsSplitOf boxed.now e m at }
    ensures { OnOk result (left.new.items ≡ lower_side boxed.now e m at ∷ left.old.items) }
{
    let lower = lower_side(boxed, e, m, at)?;
    left.push_front(lower)?;
    Ok(())
}

/// Puts the two sides of a split first.
fn push_sides(left: &mut VecDeque<Boxed>, boxed: &Boxed, node: &Node) -> Result<(), NoMemory>
    requires { IsSplitIfAny boxed.now node.now }
    ensures { OnOk result (left.new.items ≡ sides_of boxed.now node.now ++ left.old.items) }
{
    if let Node::Split { link, module, at } = node {
        push_upper(left, boxed, link.0 as usize, *module as usize, *at)?;
        push_lower(left, boxed, link.0 as usize, *module as usize, *at)?;
    }
    Ok(())
}

/// What was found, with a node that holds.
fn with_held(found: Found, held: Held) -> Found
    ensures { result ≡ with_held found held }
{
    match held {
        Held::Settled => found,
        Held::Open(value) => Found {
            is_open: true,
            least: value.min(found.least),
        },
    }
}

/// Takes a node: its box goes, and its sides come in the box's place. None where no box is left, or the node doesn't hold.
fn take_node(
    alloc: Global,
    tests: &Tests,
    left: &mut VecDeque<Boxed>,
    node: &Node,
) -> Result<Option<Held>, NoMemory>
    requires { HaveShape tests.now.instance.now.net.now.links left.old.items }
    ensures { IfOk result (TakesIfAny tests.now node.now left.old.items left.new.items) }
{
    match left.pop_front() {
        None => Ok(None),
        Some(boxed) => {
            let held = held_node(alloc, tests, &boxed, node)?;
            if held.is_some() {
                push_sides(left, &boxed, node)?;
            }
            Ok(held)
        }
    }
}

/// Takes all nodes in turn, and tells which doesn't hold first.
fn take_all(
    alloc: Global,
    tests: &Tests,
    left: &mut VecDeque<Boxed>,
    proof: &Proof,
) -> Result<Found, Stop>
    requires tests { AreTestsOf proof.now tests.now }
    requires cost { proof.now.plan.cost ≡ tests.now.cost }
    requires few { length proof.now.tree + 1 < 2 ^ 32 }
    requires whole { left.old.items ≡ whole_box tests.now.instance.now.net.now.links ∷ [] }
    ensures walked { IfOk result (HasWalked (case_of tests.now.instance.now) proof.now (length proof.now.tree) left.new.items) }
    ensures stops { IfErr result (StopsWalk (case_of tests.now.instance.now) proof.now) }
{
    let tree = proof.tree.items();
    let mut found = Found {
        is_open: false,
        least: tests.cost,
    };
    for i in 0..tree.len() {
        match take_node(alloc, tests, left, &tree[i])? {
            None => return Err(Stop::Fault(i as u32)),
            Some(held) => found = with_held(found, held),
        }
    }
    Ok(found)
}

/// Whether a verdict follows from what was found of all nodes.
fn follows(found: &Found, verdict: &Verdict) -> bool
    ensures { (p : Case) (proof : TreeProof) → IsFoundOf p proof (length proof.tree) found.now → (IsTrue result ↔ VerdictFollows p proof verdict.now) }
{
    match verdict {
        Verdict::Cheapest => !found.is_open,
        Verdict::Above(least) => *least == found.least,
    }
}

/// The boxes that no node has yet, before the first node: the whole box.
fn whole_left(alloc: Global, net: &Network) -> Result<VecDeque<Boxed>, NoMemory>
    ensures { IfOk result (λ left. left.items ≡ whole_box net.now.links ∷ []) }
{
    let whole = whole_box(alloc, net)?;
    let mut left = VecDeque::new(alloc);
    left.push_front(whole)?;
    Ok(left)
}

/// Walks through a proof's tree with the boxes that no node has yet, and tells what is wrong with it first.
fn walk_left(
    alloc: Global,
    tests: &Tests,
    left: &mut VecDeque<Boxed>,
    proof: &Proof,
) -> Result<(), Stop>
    requires tests { AreTestsOf proof.now tests.now }
    requires cost { proof.now.plan.cost ≡ tests.now.cost }
    requires few { length proof.now.tree + 1 < 2 ^ 32 }
    requires whole { left.old.items ≡ whole_box tests.now.instance.now.net.now.links ∷ [] }
    ensures accepted { OnOk result (IsAcceptedProof (case_of tests.now.instance.now) proof.now) }
    ensures stops { IfErr result (StopsWalk (case_of tests.now.instance.now) proof.now) }
{
    let found = take_all(alloc, tests, left, proof)?;
    if left.len() > 0 {
        return Err(Stop::Fault(proof.tree.len() as u32));
    }
    if !follows(&found, &proof.verdict) {
        return Err(Stop::Fault(proof.tree.len() as u32 + 1));
    }
    Ok(())
}

/// Walks through a proof's tree, and tells what is wrong with it first.
pub(crate) fn walk(alloc: Global, tests: &Tests, proof: &Proof) -> Result<(), Stop>
    requires tests { AreTestsOf proof.now tests.now }
    requires cost { proof.now.plan.cost ≡ tests.now.cost }
    requires few { length proof.now.tree + 1 < 2 ^ 32 }
    ensures accepted { OnOk result (IsAcceptedProof (case_of tests.now.instance.now) proof.now) }
    ensures stops { IfErr result (StopsWalk (case_of tests.now.instance.now) proof.now) }
{
    let mut left = whole_left(alloc, tests.instance.net)?;
    walk_left(alloc, tests, &mut left, proof)
}
