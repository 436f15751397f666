ghost use Rattle.std.specs.Prelude.{◌≡◌, ◌*◌, ◌<◌, ◌≤◌, All, IfOk, IfSome, IsTrue, false, length, map};
ghost use Rattle.planner.{specs.inner.Candidates.HaveBounds, specs.inner.Finishing.{AreMultipliersOf, IsBetterBound, IsBoundOfMaster, line_at}};

use crate::own_bound::{CertifiedBound, best_bound};
use checked_fraction::cmp;
use master_bound::{Best, Multiplier};
use metric_cut::RawValue;
use module_prices::bound_of;
use net_core::{Copied, List, Network, NoMemory, discard};
use plan_rounds::Worked;
use plan_types::{CertLine, Certificate};
use std::alloc::Global;
use std::cmp::Ordering;

/// The certificate line of a multiplier: its numerator, and its cut with the cut's spot.
fn line_of_multiplier(m: Multiplier, worked: &Worked) -> Result<CertLine, NoMemory>
    requires same { length worked.now.spots ≡ length worked.now.lines }
    requires listed { m.cut < length worked.now.lines }
    ensures { IfOk result (λ line. line ≡ line_at worked.now m) }
{
    Ok(CertLine {
        num: m.num,
        spot: worked.spots.items()[m.cut as usize],
        cut: worked.lines.items()[m.cut as usize].copy()?,
    })
}

/// The lines of a certificate, one per multiplier, each with the spot of its cut.
fn lines_of_multipliers(
    alloc: Global,
    multipliers: &[Multiplier],
    worked: &Worked,
) -> Result<List<CertLine>, NoMemory>
    requires same { length worked.now.spots ≡ length worked.now.lines }
    requires listed { All (λ m. m.cut < length worked.now.lines) multipliers.now }
    ensures { IfOk result (λ lines. lines ≡ map (line_at worked.now) multipliers.now) }
{
    let mut lines = List::new(alloc);
    for i in 0..multipliers.len() {
        lines.push(line_of_multiplier(multipliers[i], worked)?)?;
    }
    Ok(lines)
}

/// The bound of a best certificate, with the certificate and its raw value.
fn bound_of_master(
    alloc: Global,
    net: &Network,
    best: &Best,
    worked: &Worked,
) -> Result<CertifiedBound, NoMemory>
    requires same { length worked.now.spots ≡ length worked.now.lines }
    requires best { ∥ AreMultipliersOf worked.now best.now ∥₁ }
    ensures { IfOk result (IsBoundOfMaster net.now.links worked.now best.now) }
{
    Ok(CertifiedBound {
        certificate: Certificate {
            den: best.den,
            lines: lines_of_multipliers(alloc, best.multipliers.items(), worked)?,
        },
        raw: RawValue {
            num: best.raw_num,
            den: best.raw_den,
        },
        bound: bound_of(net.links().items(), best.raw_num, best.raw_den),
    })
}

/// Whether the raw value of the best certificate is at least another one.
fn is_at_least(best: &Best, raw: &RawValue) -> bool
    requires best { 0 < best.now.raw_den }
    requires raw { 0 < raw.now.den }
    ensures more { IsTrue result → raw.now.num * best.now.raw_den ≤ best.now.raw_num * raw.now.den }
    ensures less { result ≡ false → best.now.raw_num * raw.now.den < raw.now.num * best.now.raw_den }
{
    cmp(best.raw_num, best.raw_den, raw.num, raw.den) != Ordering::Less
}

/// The greater of two bounds: that of the best certificate, if there is one, and that of the first cut of greatest own bound. The
/// certificate's is taken unless the raw value of the cut's is greater.
pub fn better_bound(
    alloc: Global,
    net: &Network,
    worked: &Worked,
) -> Result<CertifiedBound, NoMemory>
    requires cuts { HaveBounds net.now.links worked.now }
    requires best { ∥ IfSome worked.now.best (AreMultipliersOf worked.now) ∥₁ }
    ensures { IfOk result (IsBetterBound net.now.links worked.now) }
{
    let own = best_bound(alloc, net, worked)?;
    if let Some(best) = &worked.best {
        if is_at_least(best, &own.raw) {
            discard(own);
            return bound_of_master(alloc, net, best, worked);
        }
    }
    Ok(own)
}
