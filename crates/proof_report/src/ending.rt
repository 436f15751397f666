ghost use Rattle.std.specs.Prelude.{◌≡◌, [], ◌≤◌, IfOk, false};
ghost use Rattle.plan_terms.specs.Terms.{case_of};
ghost use Rattle.plan_reports.specs.TrimmedReports.{IsTrimEnding};
ghost use Rattle.tree_search.specs.FewSplits.{AreCharged};
ghost use Rattle.proof_report.specs.ProvedReports.{IsLinedEnding, IsLinedReport, IsProofEnding, IsTrimmedOnce};

use crate::handed_cuts::{handed_cuts, work_out};
use net_core::{CutLine, Entry, Instance, List, Name, NoMemory, Notes, StateId};
use outside_io::Gate;
use plan_reports::{PlannedReport, TrimEnding, trim_once};
use std::alloc::Global;
use std::sync::Wait;
use std::thread::Threads;
use tree_check::Proof;
use tree_search::prove_instance;

/// The report of one plan command of caller 1, with the proof of its plan apart from the other parts.
#[derive(Drop)]
pub struct ProvedReport {
    pub notes: Notes,
    pub entries: List<Entry>,
    pub pool: List<CutLine>,
    /// The proof, with the report's plan in it.
    pub proof: Proof,
}

/// The result of a proof.
#[derive(Drop)]
pub enum ProofEnding {
    /// The report of a plan with its branch tree.
    Proved(ProvedReport),
    /// The first state that separates a demand with a need, and the name of the first such demand.
    Separated { state: StateId, demand: Name },
}

/// Searches for a branch tree of a report's plan, with at most `limit` splits, and with divided lines if `divides` is set.
fn prove_planned<G: Gate>(
    alloc: Global,
    instance: &Instance,
    planned: PlannedReport,
    limit: u32,
    divides: bool,
    gate: &G,
) -> Result<ProvedReport, NoMemory>
    requires limit { limit ≤ 9999 }
    requires trimmed { IsTrimmedOnce (case_of instance.now) instance.now.net.now.notes planned }
    ensures lined { IfOk result (IsLinedReport (case_of instance.now) instance.now.net.now.notes limit) }
    ensures plain { divides ≡ false → IfOk result (λ r. r.proof.lines ≡ []) }
{
    let cuts = handed_cuts(&planned.pool, &planned.plan.certificate)?;
    work_out(alloc, instance, cuts.items())?;
    let proof = prove_instance(alloc, instance, planned.plan, cuts, limit, divides, gate)?;
    Ok(ProvedReport {
        notes: planned.notes,
        entries: planned.entries,
        pool: planned.pool,
        proof,
    })
}

/// Searches for a branch tree of the trimmed plan, if there is one.
fn prove_trimmed<G: Gate>(
    alloc: Global,
    instance: &Instance,
    ending: TrimEnding,
    limit: u32,
    divides: bool,
    gate: &G,
) -> Result<ProofEnding, NoMemory>
    requires limit { limit ≤ 9999 }
    requires trimmed { IsTrimEnding (case_of instance.now) instance.now.net.now.notes ending }
    ensures lined { IfOk result (IsLinedEnding (case_of instance.now) instance.now.net.now.notes limit) }
    ensures plain { divides ≡ false → IfOk result (IsProofEnding (case_of instance.now) instance.now.net.now.notes limit) }
{
    match ending {
        TrimEnding::Trimmed { report, .. } => {
            let proved = prove_planned(alloc, instance, report, limit, divides, gate)?;
            Ok(ProofEnding::Proved(proved))
        }
        TrimEnding::Separated { state, demand } => Ok(ProofEnding::Separated { state, demand }),
    }
}

/// Plans an instance as `plan_once` does, takes off modules that can be spared, and searches for a branch tree with at most `limit` splits.
/// It may never return.
///
/// All modules cost something. It takes the time and the memory of `trim_once` and then of `prove`. It fails only where memory runs out.
pub fn prove_once<R: Threads + Wait + Sync, G: Gate + Sync>(
    rt: &R,
    alloc: Global,
    instance: &Instance,
    limit: u32,
    gate: &G,
) -> Result<ProofEnding, NoMemory>
    requires limit { limit ≤ 9999 }
    requires charged { AreCharged instance.now.net.now.links }
    ensures { IfOk result (IsProofEnding (case_of instance.now) instance.now.net.now.notes limit) }
{
    let ending = trim_once(rt, alloc, instance, gate)?;
    prove_trimmed(alloc, instance, ending, limit, false, gate)
}

/// Does as `prove_once`, but the tree may also name lines that are made of the cuts, as that of `prove_instance` does if `divides` is set;
/// they come with the proof. With a limit of 0 there are no splits: the tree is its root alone, with the best certificate for all counts.
/// It may never return.
///
/// All modules cost something. It takes the time and the memory of `trim_once` and then of `prove_instance`. It fails only where memory
/// runs out.
pub fn prove_once_by_lines<R: Threads + Wait + Sync, G: Gate + Sync>(
    rt: &R,
    alloc: Global,
    instance: &Instance,
    limit: u32,
    gate: &G,
) -> Result<ProofEnding, NoMemory>
    requires limit { limit ≤ 9999 }
    requires charged { AreCharged instance.now.net.now.links }
    ensures { IfOk result (IsLinedEnding (case_of instance.now) instance.now.net.now.notes limit) }
{
    let ending = trim_once(rt, alloc, instance, gate)?;
    prove_trimmed(alloc, instance, ending, limit, true, gate)
}
