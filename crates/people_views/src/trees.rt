ghost use Rattle.std.specs.Prelude.{◌≡◌, ◌+◌, ◌++◌, IfErr, IfOk, OnOk, codes, decimal, length};
ghost use Rattle.plan_terms.specs.Terms.{AreDemands};
ghost use Rattle.tree_check.specs.Proofs.{IsAcceptedProof};
ghost use Rattle.view_text.specs.Terms.{HoldsProof};
ghost use Rattle.plan_view.specs.Terms.{case_of_plan, problem_case};
ghost use Rattle.people_files.specs.Endings.{Halts};
ghost use Rattle.people_views.specs.ProofLines.{TellsRejectedTree, end_wrong, proof_by, told_by, tree_message, tree_wrong};

use net_core::{Bytes, Copied, List, NoMemory, Problem};
use outside_io::Status;
use people_files::{Halt, told};
use plan_types::Plan;
use std::alloc::Global;
use text_kit::write::put_decimal;
use tree_check::{Proof, TreeAnswer, Verdict, check_tree};
use tree_reader::ReadTree;
use view_text::CostProof;

/// There is no memory for a tree of this number of nodes.
const MOST_NODES: usize = u32::MAX as usize;

/// What a tree of this number of boxes shows with this verdict.
fn told_by(boxes: u32, verdict: Verdict) -> CostProof
    ensures { result ≡ told_by boxes verdict }
{
    match verdict {
        Verdict::Cheapest => CostProof::Cheapest(boxes),
        Verdict::Above(least) => CostProof::Above(boxes, least),
    }
}

/// Puts that a node doesn't hold last.
fn put_node(text: &mut Bytes, node: u32) -> Result<(), NoMemory>
    ensures { OnOk result (text.new ≡ text.old ++ codes "line " ++ decimal (node + 1) ++ codes " of its nodes doesn't hold") }
{
    text.append(b"line ")?;
    put_decimal(text, node as u128 + 1)?;
    text.append(b" of its nodes doesn't hold")
}

/// What is wrong past this number of nodes.
fn end_wrong(nodes: usize, node: u32) -> &'static [u8]
    ensures { result.now ≡ end_wrong nodes node }
{
    if node as usize == nodes {
        b"a node is missing after the last one"
    } else {
        b"its last line doesn't follow from its nodes"
    }
}

/// Puts what is wrong with a tree of this number of nodes last, of which this one is rejected.
fn put_wrong(text: &mut Bytes, nodes: usize, node: u32) -> Result<(), NoMemory>
    ensures { OnOk result (text.new ≡ text.old ++ tree_wrong nodes node) }
{
    if (node as usize) < nodes {
        return put_node(text, node);
    }
    text.append(end_wrong(nodes, node))
}

/// What is said of a tree of this number of nodes, of which this one is rejected.
fn tree_message(alloc: Global, name: &str, nodes: usize, node: u32) -> Result<Bytes, NoMemory>
    ensures { IfOk result (λ m. m ≡ tree_message name.now nodes node) }
{
    let mut text = List::new(alloc);
    text.append(name.as_bytes())?;
    text.append(b": the branch tree below the report doesn't show what it says\n  ")?;
    put_wrong(&mut text, nodes, node)?;
    text.append(b"\nrejected tree ")?;
    put_decimal(&mut text, node as u128)?;
    text.append(b"\n")?;
    Ok(text)
}

/// The plan with a tree that was read.
fn proof_of(plan: &Plan, tree: ReadTree) -> Result<Proof, NoMemory>
    ensures { IfOk result (λ proof. proof ≡ proof_by plan.now tree) }
{
    Ok(Proof {
        plan: plan.copy()?,
        cuts: tree.cuts,
        lines: tree.lines,
        tree: tree.tree,
        verdict: tree.verdict,
    })
}

/// What a tree shows of its plan's cost. Where it doesn't hold it ends the run.
pub(crate) fn checked_tree(
    alloc: Global,
    name: &str,
    problem: &Problem,
    plan: &Plan,
    tree: ReadTree,
) -> Result<CostProof, Halt>
    requires { AreDemands (length problem.now.net.nodes) plan.now.demands }
    ensures accepted { OnOk result (IsAcceptedProof (case_of_plan (problem_case problem.now) plan.now) (proof_by plan.now tree)) }
    ensures told { IfOk result (λ proof. proof ≡ told_by (length tree.tree) tree.verdict) }
    ensures holds { IfOk result (HoldsProof (case_of_plan (problem_case problem.now) plan.now) plan.now) }
    ensures rejected { IfErr result (Halts (λ s message. (s ≡ Status.Rejected)
        × TellsRejectedTree name.now (problem_case problem.now) plan.now tree message)) }
{
    let nodes = tree.tree.len();
    if nodes >= MOST_NODES {
        return Err(Halt::NoMemory);
    }
    let shown = told_by(nodes as u32, tree.verdict);
    let proof = proof_of(plan, tree)?;
    match check_tree(alloc, &problem.net, &problem.states, &plan.demands, &proof) {
        TreeAnswer::Accepted => Ok(shown),
        TreeAnswer::Rejected(node) => Err(told(
            Status::Rejected,
            tree_message(alloc, name, nodes, node),
        )),
        TreeAnswer::NoMemory => Err(Halt::NoMemory),
    }
}
