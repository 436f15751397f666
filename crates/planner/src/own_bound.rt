ghost use Rattle.std.specs.Prelude.{◌≡◌, ◌<◌, ◌^◌, [], ◌∷◌, IfOk};
ghost use Rattle.metric_cut.specs.Bounded.{HaveBound};
ghost use Rattle.planner.specs.inner.Candidates.{HaveBounds, IsBestBound, IsBoundOfCut, IsBoundOfNone};

use master_bound::best_own;
use metric_cut::{RawValue, own_certificate};
use module_prices::bound_of;
use net_core::{Copied, CutLine, List, Network, NoMemory};
use plan_rounds::{Worked, are_short};
use plan_types::{CertLine, Certificate, Spot};
use std::alloc::Global;

/// A certificate with its raw value, in lowest terms, and its bound. Raw value and bound are in units of the network.
#[derive(Drop)]
pub struct CertifiedBound {
    pub certificate: Certificate,
    pub raw: RawValue,
    pub bound: u128,
}

/// The bound of 0, with a certificate of no lines.
fn bound_of_none(alloc: Global, net: &Network) -> CertifiedBound
    ensures { IsBoundOfNone net.now.links result }
{
    CertifiedBound {
        certificate: Certificate {
            den: 1,
            lines: List::new(alloc),
        },
        raw: RawValue { num: 0, den: 1 },
        bound: bound_of(net.links().items(), 0, 1),
    }
}

/// The lines of a certificate that has only one.
fn only_line(alloc: Global, num: u64, spot: Spot, cut: CutLine) -> Result<List<CertLine>, NoMemory>
    ensures { IfOk result (λ lines. lines ≡ record { num = num; spot = spot; cut = cut } ∷ []) }
{
    let mut lines = List::new(alloc);
    lines.push(CertLine { num, spot, cut })?;
    Ok(lines)
}

/// The bound that a cut gives alone, with its greatest valid multiplier; that of no cut if its raw value is 0.
fn bound_of_cut(
    alloc: Global,
    net: &Network,
    cut: &CutLine,
    spot: Spot,
) -> Result<CertifiedBound, NoMemory>
    requires lengths { HaveBound net.now.links cut.now.lengths }
    requires right { cut.now.right < 2 ^ 84 }
    ensures { IfOk result (IsBoundOfCut net.now.links cut.now spot) }
{
    are_short(cut.lengths.items());
    let own = own_certificate(net, cut);
    if own.raw.num == 0 {
        return Ok(bound_of_none(alloc, net));
    }
    Ok(CertifiedBound {
        certificate: Certificate {
            den: own.multiplier.den,
            lines: only_line(alloc, own.multiplier.num, spot, cut.copy()?)?,
        },
        raw: own.raw,
        bound: own.bound,
    })
}

/// The bound of the first cut of greatest own bound; that of no cut if there is none.
pub fn best_bound(alloc: Global, net: &Network, worked: &Worked) -> Result<CertifiedBound, NoMemory>
    requires cuts { HaveBounds net.now.links worked.now }
    ensures { IfOk result (IsBestBound net.now.links worked.now) }
{
    match best_own(net, &worked.lines) {
        Some(k) => bound_of_cut(
            alloc,
            net,
            &worked.lines.items()[k as usize],
            worked.spots.items()[k as usize],
        ),
        None => Ok(bound_of_none(alloc, net)),
    }
}
