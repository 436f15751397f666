ghost use Rattle.std.specs.Prelude.{◌≡◌, ◌≤◌, All, IfErr, IfOk, length};
ghost use Rattle.plan_terms.specs.Terms.{AreDemands};
ghost use Rattle.view_text.{specs.Reports.HoldsOfOutcome, specs.Terms.{HoldsOfSingle, HoldsProof}};
ghost use Rattle.plan_view.specs.Terms.{HasSoundPlan, case_of_plan, problem_case};
ghost use Rattle.people_files.specs.Endings.{Halts};
ghost use Rattle.people_views.specs.ProofLines.{FailsAtLines, FailsAtOutcomeLines, FailsAtPlanLines, FailsAtTree, ReadsOutcomeProof, ReadsPlanProof, ReadsProof, ShowsByTree, ShowsNoTree, SpellsPlanTree, lines_begin};

use crate::trees::checked_tree;
use fault_messages::proof_sentence;
use net_core::Problem;
use outside_io::Status;
use people_files::{FaultyFile, Halt, refused};
use plan_types::{Outcome, Plan};
use report_words::fault::ReportRefusal;
use std::alloc::Global;
use tree_reader::{ReadTree, has_tree_line, read_tree, report_end};
use view_text::CostProof;

/// The tree of a plan that the lines below its report spell, which ends here.
fn spelled_tree(
    alloc: Global,
    name: &str,
    problem: &Problem,
    plan: &Plan,
    bytes: &[u8],
    from: u64,
) -> Result<ReadTree, Halt>
    requires belong { AreDemands (length problem.now.net.nodes) plan.now.demands }
    requires from { from ≡ lines_begin bytes.now }
    requires within { from ≤ length bytes.now }
    ensures spelled { IfOk result (SpellsPlanTree (problem_case problem.now) plan.now bytes.now) }
    ensures refused { IfErr result (Halts (λ s message. (s ≡ Status.BadReport)
        × ShowsNoTree name.now (problem_case problem.now) plan.now bytes.now message)) }
{
    match read_tree(
        alloc,
        &problem.net,
        &problem.states,
        &plan.demands,
        bytes,
        from,
    ) {
        Ok(tree) => Ok(tree),
        Err(ReportRefusal::Bad { at, kind }) => {
            let file = FaultyFile {
                status: Status::BadReport,
                file: b"report",
                name,
                bytes,
                at,
            };
            Err(refused(alloc, &file, &kind, proof_sentence(kind), b""))
        }
        Err(ReportRefusal::NoMemory) => Err(Halt::NoMemory),
    }
}

/// What a tree below a plan's report, which ends here, shows of the plan's cost.
fn tree_proof(
    alloc: Global,
    name: &str,
    problem: &Problem,
    plan: &Plan,
    bytes: &[u8],
    from: u64,
) -> Result<CostProof, Halt>
    requires belong { AreDemands (length problem.now.net.nodes) plan.now.demands }
    requires from { from ≡ lines_begin bytes.now }
    requires within { from ≤ length bytes.now }
    ensures reads { IfOk result (ShowsByTree (problem_case problem.now) plan.now bytes.now) }
    ensures holds { IfOk result (HoldsProof (case_of_plan (problem_case problem.now) plan.now) plan.now) }
    ensures fails { IfErr result (Halts (FailsAtTree name.now (problem_case problem.now) plan.now bytes.now)) }
{
    let tree = spelled_tree(alloc, name, problem, plan, bytes, from)?;
    checked_tree(alloc, name, problem, plan, tree)
}

/// What the lines below a plan's report show of its cost. Comments that begin no line of a branch tree are let be.
fn plan_proof(
    alloc: Global,
    name: &str,
    problem: &Problem,
    plan: &Plan,
    bytes: &[u8],
) -> Result<CostProof, Halt>
    requires { AreDemands (length problem.now.net.nodes) plan.now.demands }
    ensures reads { IfOk result (ReadsPlanProof (problem_case problem.now) plan.now bytes.now) }
    ensures holds { IfOk result (HoldsProof (case_of_plan (problem_case problem.now) plan.now) plan.now) }
    ensures fails { IfErr result (Halts (FailsAtPlanLines name.now (problem_case problem.now) plan.now bytes.now)) }
{
    let from = report_end(bytes);
    let begun = has_tree_line(bytes, from);
    if begun {
        return tree_proof(alloc, name, problem, plan, bytes, from);
    }
    Ok(CostProof::Nothing)
}

/// What the lines below a report with one outcome show.
fn outcome_proof(
    alloc: Global,
    name: &str,
    problem: &Problem,
    outcome: &Outcome,
    bytes: &[u8],
) -> Result<CostProof, Halt>
    requires { HasSoundPlan (problem_case problem.now) outcome.now }
    ensures reads { IfOk result (ReadsOutcomeProof (problem_case problem.now) outcome.now bytes.now) }
    ensures holds { IfOk result (λ proof. HoldsOfOutcome (problem_case problem.now) proof outcome.now) }
    ensures fails { IfErr result (Halts (FailsAtOutcomeLines name.now (problem_case problem.now) outcome.now bytes.now)) }
{
    match outcome {
        Outcome::Planned { plan, .. } => plan_proof(alloc, name, problem, plan, bytes),
        Outcome::Unsurvivable { .. } => Ok(CostProof::Nothing),
    }
}

/// What the lines below a report show of the cost of its plan, where it has one outcome alone.
pub(crate) fn read_proof(
    alloc: Global,
    name: &str,
    problem: &Problem,
    outcomes: &[Outcome],
    bytes: &[u8],
) -> Result<CostProof, Halt>
    requires { All (HasSoundPlan (problem_case problem.now)) outcomes.now }
    ensures reads { IfOk result (ReadsProof (problem_case problem.now) outcomes.now bytes.now) }
    ensures holds { IfOk result (λ proof. HoldsOfSingle (problem_case problem.now) proof outcomes.now) }
    ensures fails { IfErr result (Halts (FailsAtLines name.now (problem_case problem.now) outcomes.now bytes.now)) }
{
    match outcomes {
        [] => Ok(CostProof::Nothing),
        [outcome] => outcome_proof(alloc, name, problem, outcome, bytes),
        [_, _, ..] => Ok(CostProof::Nothing),
    }
}
