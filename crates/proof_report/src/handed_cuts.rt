ghost use Rattle.std.specs.Prelude.{◌≡◌, ◌⊎◌, ◌++◌, ◌∷◌, [], ◌<◌, ◌≤◌, ◌^◌, All, Contains, IfOk, OnOk, length};
ghost use Rattle.plan_terms.specs.Terms.{IsCut, case_of};
ghost use Rattle.proof_report.specs.ProvedReports.{AreHandedIn, certificate_cuts};

use line_check::tested_lines::tested_cut;
use net_core::{Copied, CutLine, Instance, List, NoMemory};
use plan_types::Certificate;
use std::alloc::Global;
use tree_search::index_of;

/// Adds a copy of a cut, unless the list has it.
fn hand_in(cuts: &mut List<CutLine>, cut: &CutLine) -> Result<(), NoMemory>
    requires few { length cuts.old < 2 ^ 31 }
    ensures has { OnOk result (Contains cuts.new cut.now) }
    ensures more { OnOk result ((cuts.new ≡ cuts.old) ⊎ ((cuts.new ≡ cuts.old ++ cut.now ∷ []) × (Contains cuts.old cut.now → ⊥))) }
{
    if index_of(cuts.items(), cut).is_none() {
        cuts.push(cut.copy()?)?;
    }
    Ok(())
}

/// The cuts of a pool, and after them those of a certificate that the pool lacks. It takes time in the pool for each cut of the
/// certificate, and memory for a copy of all.
pub(crate) fn handed_cuts(
    pool: &List<CutLine>,
    certificate: &Certificate,
) -> Result<List<CutLine>, NoMemory>
    requires pool { length pool.now ≤ 4096 }
    requires lines { length certificate.now.lines ≤ 4096 }
    ensures { IfOk result (AreHandedIn pool.now (certificate_cuts certificate.now)) }
{
    let mut cuts = pool.copy()?;
    for line in certificate.lines.items() {
        hand_in(&mut cuts, &line.cut)?;
    }
    Ok(cuts)
}

/// Computes each cut again from its lengths, which shows that it is a cut of the instance. It takes a search from each node for each cut.
pub(crate) fn work_out(alloc: Global, instance: &Instance, cuts: &[CutLine]) -> Result<(), NoMemory>
    requires { All (λ cut. ∥ IsCut (case_of instance.now) cut ∥₁) cuts.now }
    ensures { IfOk result (λ _. All (IsCut (case_of instance.now)) cuts.now) }
{
    for cut in cuts {
        if !tested_cut(alloc, instance, cut)?.sound {
            unreachable!();
        }
    }
    Ok(())
}
