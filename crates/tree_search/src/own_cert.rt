ghost use Rattle.std.specs.Prelude.{◌<◌, ◌^◌, All, Contains, IfOk, length, map};
ghost use Rattle.tree_boxes.specs.Searches.{IsOwnCert};

use line_maker::Entry;
use net_core::{CutLine, List, NoMemory};
use plan_types::Plan;
use std::alloc::Global;
use tree_boxes::index_of;
use tree_check::{BoxCert, Multiplier};

/// The certificate of a plan as one of boxes, with its cuts given by their indices in the list.
pub(crate) fn own_cert(alloc: Global, plan: &Plan, cuts: &[CutLine]) -> Result<BoxCert, NoMemory>
    requires few { length cuts.now < 2 ^ 31 }
    requires own { All (λ l. Contains cuts.now l.cut) plan.now.certificate.lines }
    ensures { IfOk result (IsOwnCert (map Entry.Cut cuts.now) plan.now) }
{
    let certificate = &plan.certificate;
    let mut lines = List::new(alloc);
    for line in certificate.lines.items() {
        match index_of(cuts, &line.cut) {
            None => unreachable!(),
            Some(cut) => lines.push(Multiplier { cut, num: line.num })?,
        }
    }
    Ok(BoxCert {
        den: certificate.den,
        lines,
    })
}
