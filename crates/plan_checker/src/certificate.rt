ghost use Rattle.std.specs.Prelude.{◌≡◌, ℕ, ◌<◌, ◌^◌, All, OnOk, length, [], ◌∷◌};
ghost use Rattle.plan_terms.specs.Terms.{graph_in, case_of, AreKept};
ghost use Rattle.plan_report.specs.Terms.{IsCertificateInForm, IsCutInForm};
ghost use Rattle.plan_types.specs.Terms.{IsCertifiedPlan, lines_of_certificate};
ghost use Rattle.plan_checker.{specs.Certified.{HoldsBoundDiffers, HoldsCertificateWide, HoldsLocalCut, HoldsPriceExceeded, HoldsRawDiffers, HoldsRightDiffers, IsOverpriced}, specs.inner.Tests.{Tells, TellFirst}};

use crate::finding::Finding;
use crate::local_cuts::first_local;
use crate::prices::overpriced;
use crate::rights::check_rights;
use crate::stop::{Stop, Test};
use crate::worth::check_worth;
use net_core::{Instance, LinkId};
use plan_types::{CertLine, Plan};
use std::alloc::Global;

/// Whether each line is in the pool, unless the pool is full, and its state keeps its lengths.
fn check_cuts(instance: &Instance, lines: &[CertLine], full: bool) -> Test
    requires few { length lines.now < 2 ^ 32 }
    requires form { All (λ l. IsCutInForm instance.now.net.now.links instance.now.states.now.listed l.cut) lines.now }
    ensures told { Tells (HoldsLocalCut (case_of instance.now) full lines.now) result }
    ensures kept { OnOk result (All (λ l. AreKept (graph_in (case_of instance.now) l.cut.state.0) l.cut.lengths) lines.now) }
{
    if let Some(i) = first_local(instance, lines, full) {
        return Err(Stop::Found(Finding::LocalCut(i)));
    }
    Ok(())
}

/// Whether no module's price exceeds its cost.
fn check_prices(instance: &Instance, plan: &Plan) -> Test
    requires { IsCertificateInForm instance.now.net.now.links instance.now.states.now.listed plan.now.certificate }
    ensures told { Tells (HoldsPriceExceeded instance.now.net.now.links plan.now.certificate.den (lines_of_certificate plan.now.certificate)) result }
    ensures priced { OnOk result ((e m : ℕ) → IsOverpriced instance.now.net.now.links plan.now.certificate.den
        (lines_of_certificate plan.now.certificate) e m → ⊥) }
{
    let links = instance.net.links().items();
    let lines = plan.certificate.lines.items();
    let place = overpriced(links, lines, plan.certificate.den);
    if let Some(at) = place {
        return Err(Stop::Found(Finding::PriceExceeded(LinkId(at.group), at.at)));
    }
    Ok(())
}

/// Whether the certificate is valid, and the raw value and the bound are its own.
pub(crate) fn check_certificate(alloc: Global, instance: &Instance, plan: &Plan, full: bool) -> Test
    requires form { IsCertificateInForm instance.now.net.now.links instance.now.states.now.listed plan.now.certificate }
    requires raw { 0 < plan.now.raw_den }
    ensures told { TellFirst (HoldsLocalCut (case_of instance.now) full plan.now.certificate.lines
        ∷ HoldsRightDiffers (case_of instance.now) plan.now.certificate.lines
        ∷ HoldsPriceExceeded instance.now.net.now.links plan.now.certificate.den (lines_of_certificate plan.now.certificate)
        ∷ HoldsCertificateWide instance.now.net.now.links (lines_of_certificate plan.now.certificate)
        ∷ HoldsRawDiffers instance.now.net.now.links plan.now ∷ HoldsBoundDiffers instance.now.net.now.links plan.now ∷ [])
        result }
    ensures certified { OnOk result (IsCertifiedPlan (case_of instance.now) plan.now) }
{
    let lines = plan.certificate.lines.items();
    check_cuts(instance, lines, full)?;
    check_rights(alloc, instance, lines)?;
    check_prices(instance, plan)?;
    check_worth(instance.net.links().items(), plan)
}
