ghost use Rattle.std.specs.Prelude.{◌≡◌, ℕ, List, ◌+◌, ◌≤◌, ◌<◌, ◌^◌, IfErr, OnOk, length};
ghost use Rattle.plan_terms.specs.Terms.{AreDemands, IsAble, case, case_of, total_cost};
ghost use Rattle.tree_check.{specs.Proofs.{AnswersProof, IsAcceptedProof}, specs.inner.Walking.StopsWalk};

use crate::proof::{Proof, TreeAnswer, Verdict};
use crate::stop::Stop;
use crate::tests::Tests;
use crate::walk::walk;
use line_check::tested_lines::tested_lines;
use net_core::{Demands, Instance, Network, States};
use std::alloc::Global;

/// Whether a proof is one, or what is wrong with it first.
fn checked(alloc: Global, instance: &Instance, proof: &Proof) -> Result<(), Stop>
    requires { length proof.now.tree + 1 < 2 ^ 32 }
    ensures accepted { OnOk result (IsAcceptedProof (case_of instance.now) proof.now) }
    ensures stops { IfErr result (StopsWalk (case_of instance.now) proof.now) }
{
    let tested = tested_lines(alloc, instance, proof.cuts.items(), proof.lines.items())?;
    let tests = Tests {
        instance,
        tested: tested.items(),
        cost: proof.plan.cost,
    };
    walk(alloc, &tests, proof)
}

/// Checks that a branch tree shows what its verdict says of a plan's cost, and trusts nothing of whoever made it: each split divides
/// its box, each certificate has the value that it needs, each box that is called empty is emptied by its line, each line that a leaf
/// names holds, and the verdict follows from the leaves.
///
/// `Rejected` gives the first node that doesn't hold, the number of nodes where one is missing, and one more where the verdict doesn't
/// follow. For each cut it takes a shortest-path search from each node of the network, for each further line its terms times the modules
/// or up to 4,096 times the kinds of modules, and for each node of the tree the lines of its certificate times the modules. It takes
/// memory for a number of each module for each line, and for the boxes that no node has yet.
///
/// ```text
/// let answer = check_tree(alloc, &net, &states, &demands, &proof);
/// // TreeAnswer::Accepted, or TreeAnswer::Rejected(3)
/// ```
pub fn check_tree(
    alloc: Global,
    net: &Network,
    states: &States,
    demands: &Demands,
    proof: &Proof,
) -> TreeAnswer
    requires belong { AreDemands (length net.now.nodes) demands.now }
    requires few { length proof.now.tree + 1 < 2 ^ 32 }
    ensures told { AnswersProof (case net.now states.now demands.now) proof.now result }
    ensures cheapest { result ≡ TreeAnswer.Accepted → proof.now.verdict ≡ Verdict.Cheapest → (counts : List (List ℕ))
        → IsAble (case net.now states.now demands.now) counts → proof.now.plan.cost ≤ total_cost net.now.links counts }
    ensures above { result ≡ TreeAnswer.Accepted → (least : ℕ) → proof.now.verdict ≡ Verdict.Above least → (counts : List (List ℕ))
        → IsAble (case net.now states.now demands.now) counts → least ≤ total_cost net.now.links counts }
{
    let instance = Instance {
        net,
        states,
        demands,
    };
    match checked(alloc, &instance, proof) {
        Ok(()) => TreeAnswer::Accepted,
        Err(Stop::Fault(place)) => TreeAnswer::Rejected(place),
        Err(Stop::NoMemory) => TreeAnswer::NoMemory,
    }
}
