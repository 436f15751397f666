ghost use Rattle.std.specs.Prelude.{◌≡◌, ◌<◌, ◌^◌, All, IfOk, OnOk, length};
ghost use Rattle.plan_terms.specs.Terms.{graph_in, Joins, case_of, AreKept, IsRight};
ghost use Rattle.plan_report.specs.Terms.{IsCutInForm};
ghost use Rattle.plan_checker.{specs.Certified.HoldsRightDiffers, specs.inner.Tests.Tells};

use crate::finding::Finding;
use crate::stop::{Stop, Test};
use metric_cut::{Cut, CutFault};
use net_core::{Copied, CutLine, Instance, NoMemory};
use plan_types::CertLine;
use std::alloc::Global;

/// The right side of a cut at the demands. It takes a search from each node and a look at each demand, and memory for the cut's
/// lengths and the distance of each pair of nodes.
pub fn right_of(alloc: Global, instance: &Instance, cut: &CutLine) -> Result<u128, NoMemory>
    requires form { IsCutInForm instance.now.net.now.links instance.now.states.now.listed cut.now }
    requires kept { AreKept (graph_in (case_of instance.now) cut.now.state.0) cut.now.lengths }
    ensures { IfOk result (IsRight (Joins (graph_in (case_of instance.now) cut.now.state.0)) cut.now.lengths instance.now.demands.now) }
{
    let lengths = cut.lengths.copy()?;
    match Cut::new(alloc, instance.net, instance.states, cut.state, lengths) {
        Ok(made) => Ok(made.right(instance.demands)),
        Err(CutFault::NoMemory) => Err(NoMemory),
        Err(CutFault::UnknownState) => unreachable!(),
        Err(CutFault::ZeroLengths) => unreachable!(),
    }
}

/// Whether the lines have the right sides of their cuts at the demands. It takes a search from each node for each line.
pub(crate) fn check_rights(alloc: Global, instance: &Instance, lines: &[CertLine]) -> Test
    requires few { length lines.now < 2 ^ 32 }
    requires form { All (λ l. IsCutInForm instance.now.net.now.links instance.now.states.now.listed l.cut) lines.now }
    requires kept { All (λ l. AreKept (graph_in (case_of instance.now) l.cut.state.0) l.cut.lengths) lines.now }
    ensures told { Tells (HoldsRightDiffers (case_of instance.now) lines.now) result }
    ensures rights { OnOk result (All (λ l. IsRight (Joins (graph_in (case_of instance.now) l.cut.state.0)) l.cut.lengths
        instance.now.demands.now l.cut.right) lines.now) }
{
    for i in 0..lines.len() {
        let cut = &lines[i].cut;
        let right = right_of(alloc, instance, cut)?;
        if cut.right != right {
            return Err(Stop::Found(Finding::RightDiffers(i as u32, cut.right, right)));
        }
    }
    Ok(())
}
